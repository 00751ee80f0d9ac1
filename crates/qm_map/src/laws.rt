//! The laws of what texts mean, for any text. Each function does nothing: its clause is the law.

ghost use Rattle.std.specs.Prelude.{◌≡◌, ◌↔◌, ℕ, List, Result};
ghost use Rattle.qm_mapfile.specs.declared.entity.MapFile.{MapFile};
ghost use Rattle.qm_grammar.specs.declared.fault.MapFault.{MapFault};
ghost use Rattle.qm_grammar.specs.Faults.{text_limit};
ghost use Rattle.qm_grammar.specs.Meaning.{Means, HasMeaning};
ghost use Rattle.qm_lists.specs.Limit.{up_to_one_past};

/// Each text means a map or a fault.
pub fn each_text_means()
    ensures { (text : List ℕ) → HasMeaning text }
{}

/// No text means two maps, two faults, or both a map and a fault.
pub fn one_meaning()
    ensures { (text : List ℕ) (one other : Result MapFile MapFault) → Means text one → Means text other → one ≡ other }
{}

/// A text means what is meant by as much of it as has to be read.
pub fn cut_text_means()
    ensures { (text : List ℕ) (meaning : Result MapFile MapFault) → Means (up_to_one_past text_limit text) meaning ↔ Means text meaning }
{}
