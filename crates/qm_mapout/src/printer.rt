ghost use Rattle.std.specs.Prelude.{◌≡◌, ◌≤◌, ◌++◌, length, IfOk, OnOk, OnErr};
ghost use Rattle.qm_grammar.specs.Faults.{text_limit};
ghost use Rattle.qm_grammar.specs.Meaning.{IsMapText};
ghost use Rattle.qm_grammar.specs.Valid.{IsValidMap};
ghost use Rattle.qm_grammar.specs.Printed.{printed_map};

use crate::entity::EntityLines;
use qm_lists::append_all;
use qm_mapfile::MapFile;
use std::alloc::{AllocError, Global};

/// Appends the canonical text of a map: each brace, each pair and each face on a line of its own, the tokens of a
/// line parted by single spaces, numbers in decimal digits, and the pairs of an entity before its brushes. A texture
/// stands between quotes where it would not be read as one word. After an error `out` is as it was.
pub fn print(alloc: Global, map: &MapFile, out: &mut Vec<u8>) -> Result<(), AllocError>
    requires { IsValidMap map.now }
    ensures ok { OnOk result (out.new.items ≡ out.old.items ++ printed_map map.now) }
    ensures err { OnErr result (out.new.items ≡ out.old.items) }

    // Where the text is within the limit, it means the same map.
    ensures read_again { length (printed_map map.now) ≤ text_limit → IsMapText (printed_map map.now) map.now }
{
    let text = canonical_text(alloc, map)?;
    if out.is_empty() {
        *out = text;
        return Ok(());
    }
    out.extend_from_slice(&text)
}

/// The canonical text of a map.
#[tactic(auto, unfolding(qm_grammar::specs::Printed::printed_map, qm_grammar::specs::Valid::IsValidMap))]
fn canonical_text(alloc: Global, map: &MapFile) -> Result<Vec<u8>, AllocError>
    requires { IsValidMap map.now }
    ensures { IfOk result (λ text. text.items ≡ printed_map map.now) }
{
    let mut text = Vec::new(alloc);
    append_all::<EntityLines>(&mut text, map.entities.as_slice())?;
    Ok(text)
}
