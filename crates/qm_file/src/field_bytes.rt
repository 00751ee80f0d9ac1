//! The bytes of single fields. All numbers are little-endian.

ghost use Rattle.std.specs.Prelude.{◌≡◌, ◌++◌, OnOk, if◌then◌else◌};
ghost use Rattle.std.specs.Int.{w8, w32, w64};
ghost use Rattle.qm_formats.specs.Fields.{signed, unsigned};
ghost use Rattle.qm_formats.specs.FileParts.{short};
ghost use Rattle.qm_formats.specs.FileLayout.{magic_layout};

use std::alloc::AllocError;

#[tactic(auto, unfolding(qm_formats::specs::Fields::signed, qm_formats::specs::Fields::unsigned, qm_formats::specs::Fields::raw))]
pub(crate) fn put_i32(bytes: &mut Vec<u8>, number: i32) -> Result<(), AllocError>
    ensures { OnOk result (bytes.new.items ≡ bytes.old.items ++ (signed short w32).bytes_of number) }
{
    bytes.extend_from_slice(&number.to_le_bytes())
}

#[tactic(auto, unfolding(qm_formats::specs::Fields::signed, qm_formats::specs::Fields::unsigned, qm_formats::specs::Fields::raw))]
pub(crate) fn put_i64(bytes: &mut Vec<u8>, number: i64) -> Result<(), AllocError>
    ensures { OnOk result (bytes.new.items ≡ bytes.old.items ++ (signed short w64).bytes_of number) }
{
    bytes.extend_from_slice(&number.to_le_bytes())
}

#[tactic(auto, unfolding(qm_formats::specs::Fields::unsigned, qm_formats::specs::Fields::raw))]
pub(crate) fn put_u32(bytes: &mut Vec<u8>, number: u32) -> Result<(), AllocError>
    ensures { OnOk result (bytes.new.items ≡ bytes.old.items ++ (unsigned short w32).bytes_of number) }
{
    bytes.extend_from_slice(&number.to_le_bytes())
}

#[tactic(auto, unfolding(qm_formats::specs::Fields::unsigned, qm_formats::specs::Fields::raw))]
pub(crate) fn put_count(bytes: &mut Vec<u8>, count: usize) -> Result<(), AllocError>
    ensures { OnOk result (bytes.new.items ≡ bytes.old.items ++ (unsigned short w64).bytes_of count) }
{
    bytes.extend_from_slice(&(count as u64).to_le_bytes())
}

/// The low 32 bits of a count.
#[tactic(auto, unfolding(qm_formats::specs::Fields::unsigned, qm_formats::specs::Fields::raw))]
pub(crate) fn put_small_count(bytes: &mut Vec<u8>, count: usize) -> Result<(), AllocError>
    ensures { OnOk result (bytes.new.items ≡ bytes.old.items ++ (unsigned short w32).bytes_of count) }
{
    bytes.extend_from_slice(&(count as u64).to_le_bytes()[..4])
}

#[tactic(auto, unfolding(qm_formats::specs::Fields::unsigned, qm_formats::specs::Fields::raw))]
pub(crate) fn put_flag(bytes: &mut Vec<u8>, flag: bool) -> Result<(), AllocError>
    ensures { OnOk result (bytes.new.items ≡ bytes.old.items ++ (unsigned short w8).bytes_of (if flag then 1 else 0)) }
{
    bytes.push(u8::from(flag))?;
    Ok(())
}

pub(crate) fn put_magic(bytes: &mut Vec<u8>, version: u8) -> Result<(), AllocError>
    ensures { OnOk result (bytes.new.items ≡ bytes.old.items ++ magic_layout.bytes_of version) }
{
    bytes.extend_from_slice(&magic(version))
}

/// The magic bytes of a version.
fn magic(version: u8) -> [u8; 8]
    ensures { result ≡ magic_layout.bytes_of version }
{
    if version == 1 {
        *b"QMTREE01"
    } else {
        *b"QMTREE02"
    }
}
