//! What holds of spellings, whatever is written or read.

ghost use Rattle.std.specs.Prelude.{◌≡◌, ◌↔◌, List, ℕ, ◌++◌, length, Result, Err};
ghost use Rattle.qm_formats.specs.Fields.{AreBytes};
ghost use Rattle.qm_lists.specs.FirstWrong.{IsFaultOf};
ghost use Rattle.qm_lists.specs.RowRead.{IsRowRead};
ghost use Rattle.qm_lists.specs.Spelling.{RunFaultKind, SpellsRow, runs_of};
ghost use Rattle.qm_formats.specs.Runs.{read_runs};

/// The bytes that are written for a row are its one spelling.
pub fn one_spelling()
    ensures { (bytes row : List ℕ) → SpellsRow bytes row ↔ (bytes ≡ runs_of row) }
{}

/// No spelling of a row is the beginning of a spelling of another row of the same width.
pub fn no_prefix()
    ensures { (a b x y row other : List ℕ) → SpellsRow a row → SpellsRow b other → length row ≡ length other → a ++ x ≡ b ++ y → (a ≡ b) × (row ≡ other) }
{}

/// A fault of reading tells the first byte that no spelling of a row of the width allows.
pub fn first_fault()
    ensures { (width : ℕ) (bytes : List ℕ) (fault : RunFaultKind) → AreBytes bytes → read_runs width bytes ≡ Err fault → IsFaultOf width bytes fault }
{}

/// There is one answer of reading a row of a width: what is said of it fixes it.
pub fn one_answer()
    ensures { (width : ℕ) (bytes : List ℕ) (one other : Result (List ℕ × ℕ) RunFaultKind) → AreBytes bytes → IsRowRead width bytes one → IsRowRead width bytes other → one ≡ other }
{}
