//! A section of a kind and bytes.

ghost use Rattle.std.specs.Prelude.{◌≡◌, ◌<◌, ◌^◌, length};
ghost use Rattle.qm_formats.specs.Fields.{AreBytes};

use qm_file::Section;
use qm_lists::Items;

/// The section of a kind that has these bytes. They stay where they are.
pub(crate) fn section_of_bytes(kind: u8, bytes: Vec<u8>) -> Section
    ensures kind { result.kind ≡ kind }
    ensures bytes { result.bytes ≡ bytes.items }
    ensures length_fits { length bytes.items < 2 ^ 64 }
    ensures are_bytes { AreBytes bytes.items }
{
    Section {
        kind: u32::from(kind),
        bytes: Items::from_vec(bytes),
    }
}
