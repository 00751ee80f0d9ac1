//! Single fields, read at a place. Each answers its value and where it ends. Nothing is left at a place past the end.

ghost use Rattle.std.specs.Prelude.{◌≡◌, ◌≤◌, ◌+◌, length, take, drop};
ghost use Rattle.std.specs.Int.{w8, w32, w64, from_le_bytes};
ghost use Rattle.qm_formats.specs.Fields.{signed, unsigned};
ghost use Rattle.qm_formats.specs.FileParts.{short};
ghost use Rattle.qm_file.specs.Answers.{AnswersField};

/// Why a field is not read: the bytes end before it does. The place is their end.
#[derive(Clone, Copy, Debug, PartialEq, Eq)]
pub struct CutOff {
    pub offset: u64,
}

/// What bytes answer that end before a field does.
fn cut_off(bytes: &[u8]) -> CutOff
    ensures { result.offset ≡ length bytes.now }
{
    CutOff {
        offset: bytes.len() as u64,
    }
}

/// A number of 8 bits, and where it ends.
#[tactic(auto, unfolding(qm_formats::specs::Fields::unsigned, qm_formats::specs::Fields::raw))]
pub(crate) fn u8_at(bytes: &[u8], at: usize) -> Result<(u8, usize), CutOff>
    ensures { AnswersField result ((unsigned short w8).read bytes.now at) }
{
    if bytes.len().saturating_sub(at) < 1 {
        return Err(cut_off(bytes));
    }
    Ok((bytes[at], at + 1))
}

/// A number of 32 bits, and where it ends.
#[tactic(auto, unfolding(qm_formats::specs::Fields::unsigned, qm_formats::specs::Fields::raw))]
pub fn u32_at(bytes: &[u8], at: usize) -> Result<(u32, usize), CutOff>
    ensures { AnswersField result ((unsigned short w32).read bytes.now at) }
{
    if bytes.len().saturating_sub(at) < 4 {
        return Err(cut_off(bytes));
    }
    let (part, _) = bytes.split_at(at).1.split_at(4);
    let number = u32::from_le_bytes([part[0], part[1], part[2], part[3]]);
    Ok((number, at + 4))
}

/// A number of 64 bits, and where it ends.
#[tactic(auto, unfolding(qm_formats::specs::Fields::unsigned, qm_formats::specs::Fields::raw))]
pub fn u64_at(bytes: &[u8], at: usize) -> Result<(u64, usize), CutOff>
    ensures { AnswersField result ((unsigned short w64).read bytes.now at) }
{
    if bytes.len().saturating_sub(at) < 8 {
        return Err(cut_off(bytes));
    }
    Ok((word_from(bytes, at), at + 8))
}

/// The number of 64 bits that stands at a place.
pub(crate) fn word_from(bytes: &[u8], at: usize) -> u64
    requires { at + 8 ≤ length bytes.now }
    ensures { result ≡ from_le_bytes w64 (take 8 (drop at bytes.now)) }
{
    let (part, _) = bytes.split_at(at).1.split_at(8);
    u64::from_le_bytes([
        part[0], part[1], part[2], part[3], part[4], part[5], part[6], part[7],
    ])
}

/// A number of 32 bits that may be negative, and where it ends.
#[tactic(auto, unfolding(qm_formats::specs::Fields::signed))]
pub fn i32_at(bytes: &[u8], at: usize) -> Result<(i32, usize), CutOff>
    ensures { AnswersField result ((signed short w32).read bytes.now at) }
{
    let (number, next) = u32_at(bytes, at)?;
    Ok((number.cast_signed(), next))
}

/// A number of 64 bits that may be negative, and where it ends.
#[tactic(auto, unfolding(qm_formats::specs::Fields::signed))]
pub fn i64_at(bytes: &[u8], at: usize) -> Result<(i64, usize), CutOff>
    ensures { AnswersField result ((signed short w64).read bytes.now at) }
{
    let (number, next) = u64_at(bytes, at)?;
    Ok((number.cast_signed(), next))
}
