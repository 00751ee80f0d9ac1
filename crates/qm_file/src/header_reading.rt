//! The header of a tree file.

ghost use Rattle.std.specs.Prelude.{◌≡◌, ◌≤◌, ◌+◌, ◌^◌, ◌==◌, nat_lt, nat_le, length};
ghost use Rattle.qm_formats.specs.Fields.{first_difference};
ghost use Rattle.qm_formats.specs.FileLayout.{magic_layout, count_layout, flag_layout, bound_layout, section_count_layout, file_header_layout};
ghost use Rattle.qm_file.specs.Answers.{IsFaultOfFile, AnswersTreeFile};
ghost use Rattle.qm_file.specs.inner.SeenHeader.{seen_header};

use crate::field_reading::{u8_at, u32_at, u64_at};
use crate::file_fault::{FileFault, short};

/// What stands before the planes: the version, how many planes, nodes, leaves and numbered leaves there are, whether rows
/// are there, half the size of the world's cube, and how many sections there are.
#[derive(Clone, Copy)]
pub(crate) struct Header {
    pub version: u8,
    pub planes: u64,
    pub nodes: u64,
    pub leaves: u64,
    pub numbered: u64,
    pub has_rows: bool,
    pub bound: u32,
    pub sections: u32,
}

/// The magic bytes, behind which stands the digit of the version.
const MAGIC: [u8; 7] = *b"QMTREE0";

/// Half the size of the world's cube in version 1, and what else it may be in version 2.
const BOUND: u32 = 4096;

const WIDE_BOUND: u32 = 32768;

/// The header, and where it ends.
#[tactic(auto, unfolding(qm_formats::specs::FileLayout::file_header_layout))]
pub(crate) fn header_at_start(bytes: &[u8]) -> Result<(Header, usize), FileFault>
    ensures { AnswersTreeFile (λ read. seen_header read.0) (λ read. read.1) result (file_header_layout.read bytes.now 0) }
{
    let (version, next) = version_at_start(bytes)?;
    let (planes, next) = plane_count_at(bytes, next)?;
    let (nodes, next) = u64_at(bytes, next)?;
    let (leaves, next) = leaf_count_at(bytes, next, nodes)?;
    let (numbered, next) = numbered_count_at(bytes, next, leaves)?;
    let (has_rows, next) = flag_at(bytes, next)?;
    let (bound, next) = bound_at(bytes, next, version)?;
    let (sections, next) = section_count_at(bytes, next, version)?;
    let header = Header {
        version,
        planes,
        nodes,
        leaves,
        numbered,
        has_rows,
        bound,
        sections,
    };
    Ok((header, next))
}

/// The version whose digit stands behind the magic bytes, and where it ends.
#[tactic(auto, unfolding(qm_formats::specs::FileLayout::magic_layout, qm_formats::specs::Fields::fixed_before, qm_formats::specs::Fields::raw))]
fn version_at_start(bytes: &[u8]) -> Result<(u8, usize), FileFault>
    ensures { AnswersTreeFile (λ read. read.0) (λ read. read.1) result (magic_layout.read bytes.now 0) }
{
    if bytes.len() <= MAGIC.len() {
        return Err(short(bytes));
    }
    let found = bytes.split_at(MAGIC.len() + 1).0;
    let same = same_bytes(&MAGIC, found);
    let digit = found[MAGIC.len()];
    if same == MAGIC.len() && digit == b'1' {
        Ok((1, MAGIC.len() + 1))
    } else if same == MAGIC.len() && digit == b'2' {
        Ok((2, MAGIC.len() + 1))
    } else {
        Err(FileFault::Magic {
            offset: same as u64,
        })
    }
}

/// How many of the expected bytes the others begin with.
fn same_bytes(expected: &[u8], found: &[u8]) -> usize
    requires { length expected.now ≤ length found.now }
    ensures { result ≡ first_difference expected.now found.now }
{
    for (i, byte) in expected.iter().enumerate() {
        if found[i] != *byte {
            return i;
        }
    }
    expected.len()
}

/// How many planes there are: so few that 32 bits number them.
fn plane_count_at(bytes: &[u8], at: usize) -> Result<(u64, usize), FileFault>
    ensures { AnswersTreeFile (λ read. read.0) (λ read. read.1) result ((count_layout (λ planes. nat_lt planes (2 ^ 32))).read bytes.now at) }
{
    let (planes, next) = u64_at(bytes, at)?;
    if planes > u64::from(u32::MAX) {
        return Err(FileFault::Counts { offset: at as u64 });
    }
    Ok((planes, next))
}

/// How many leaves there are: one more than nodes.
fn leaf_count_at(bytes: &[u8], at: usize, nodes: u64) -> Result<(u64, usize), FileFault>
    ensures { AnswersTreeFile (λ read. read.0) (λ read. read.1) result ((count_layout (λ leaves. leaves == nodes + 1)).read bytes.now at) }
{
    let (leaves, next) = u64_at(bytes, at)?;
    if leaves == 0 || leaves - 1 != nodes {
        return Err(FileFault::Counts { offset: at as u64 });
    }
    Ok((leaves, next))
}

/// How many leaves are numbered: not more than there are.
fn numbered_count_at(bytes: &[u8], at: usize, leaves: u64) -> Result<(u64, usize), FileFault>
    ensures { AnswersTreeFile (λ read. read.0) (λ read. read.1) result ((count_layout (λ numbered. nat_le numbered leaves)).read bytes.now at) }
{
    let (numbered, next) = u64_at(bytes, at)?;
    if numbered > leaves {
        return Err(FileFault::Counts { offset: at as u64 });
    }
    Ok((numbered, next))
}

/// A byte that is 0 or 1.
fn flag_at(bytes: &[u8], at: usize) -> Result<(bool, usize), FileFault>
    ensures { AnswersTreeFile (λ read. read.0) (λ read. read.1) result (flag_layout.read bytes.now at) }
{
    let (flag, next) = u8_at(bytes, at)?;
    if flag > 1 {
        return Err(FileFault::Counts { offset: at as u64 });
    }
    Ok((flag == 1, next))
}

/// Half the size of the world's cube, which version 1 does not say.
#[tactic(auto, unfolding(qm_formats::specs::FileLayout::bound_layout, qm_formats::specs::Fields::unwritten))]
fn bound_at(bytes: &[u8], at: usize, version: u8) -> Result<(u32, usize), FileFault>
    ensures { AnswersTreeFile (λ read. read.0) (λ read. read.1) result ((bound_layout version).read bytes.now at) }
{
    if version == 1 {
        return Ok((BOUND, at));
    }
    let (bound, next) = u32_at(bytes, at)?;
    if bound != BOUND && bound != WIDE_BOUND {
        return Err(FileFault::HeaderForm { offset: at as u64 });
    }
    Ok((bound, next))
}

/// How many sections there are, of which version 1 has none.
#[tactic(auto, unfolding(qm_formats::specs::FileLayout::section_count_layout, qm_formats::specs::Fields::unwritten))]
fn section_count_at(bytes: &[u8], at: usize, version: u8) -> Result<(u32, usize), FileFault>
    ensures { AnswersTreeFile (λ read. read.0) (λ read. read.1) result ((section_count_layout version).read bytes.now at) }
{
    if version == 1 {
        return Ok((0, at));
    }
    Ok(u32_at(bytes, at)?)
}
