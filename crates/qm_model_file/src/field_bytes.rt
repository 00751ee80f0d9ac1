//! The bytes of single fields. All numbers are little-endian.

ghost use Rattle.std.specs.Prelude.{◌≡◌, ◌++◌, OnOk};
ghost use Rattle.std.specs.Int.{w32, w64};
ghost use Rattle.qm_formats.specs.Fields.{signed, unsigned};
ghost use Rattle.qm_formats.specs.FileParts.{short};

use std::alloc::AllocError;

#[tactic(auto, unfolding(qm_formats::specs::Fields::signed, qm_formats::specs::Fields::unsigned, qm_formats::specs::Fields::raw))]
pub(crate) fn put_i32(bytes: &mut Vec<u8>, number: i32) -> Result<(), AllocError>
    ensures { OnOk result (bytes.new.items ≡ bytes.old.items ++ (signed short w32).bytes_of number) }
{
    bytes.extend_from_slice(&number.to_le_bytes())
}

#[tactic(auto, unfolding(qm_formats::specs::Fields::unsigned, qm_formats::specs::Fields::raw))]
pub(crate) fn put_u64(bytes: &mut Vec<u8>, number: u64) -> Result<(), AllocError>
    ensures { OnOk result (bytes.new.items ≡ bytes.old.items ++ (unsigned short w64).bytes_of number) }
{
    bytes.extend_from_slice(&number.to_le_bytes())
}

/// The low 32 bits of a count.
#[tactic(auto, unfolding(qm_formats::specs::Fields::unsigned, qm_formats::specs::Fields::raw))]
pub(crate) fn put_small_count(bytes: &mut Vec<u8>, count: usize) -> Result<(), AllocError>
    ensures { OnOk result (bytes.new.items ≡ bytes.old.items ++ (unsigned short w32).bytes_of count) }
{
    bytes.extend_from_slice(&(count as u64).to_le_bytes()[..4])
}
