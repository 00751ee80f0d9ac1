//! Sections, read at a place.

ghost use Rattle.std.specs.Prelude.{◌≡◌, length};
ghost use Rattle.qm_formats.specs.Layout.{each_after};
ghost use Rattle.qm_formats.specs.Fields.{raw};
ghost use Rattle.qm_formats.specs.FileParts.{short};
ghost use Rattle.qm_formats.specs.FileLayout.{section_head_layout, section_layout, sections_layout};
ghost use Rattle.qm_file.specs.Answers.{IsFaultOfFile, AnswersTreeFile};
ghost use Rattle.qm_file.specs.inner.SeenHeader.{seen_header};

use crate::field_reading::{u32_at, u64_at};
use crate::file_fault::{FileFault, short};
use crate::header_reading::Header;
use crate::tree_file::Section;
use qm_lists::Items;
use std::alloc::Global;

/// The sections of a file of this header, and where they end.
#[tactic(auto, unfolding(qm_formats::specs::FileLayout::sections_layout))]
pub(crate) fn sections_at(
    alloc: Global,
    bytes: &[u8],
    at: usize,
    header: &Header,
) -> Result<(Items<Section>, usize), FileFault>
    ensures { AnswersTreeFile (λ read. read.0) (λ read. read.1) result ((sections_layout (seen_header header.now)).read bytes.now at) }
{
    let (sections, next) = all_sections_at(alloc, bytes, at, header.sections)?;
    Ok((Items::from_vec(sections), next))
}

/// So many sections, each of a kind above that of the one before, and where they end. No room is made before the bytes are
/// there.
fn all_sections_at(
    alloc: Global,
    bytes: &[u8],
    at: usize,
    count: u32,
) -> Result<(Vec<Section>, usize), FileFault>
    ensures { AnswersTreeFile (λ read. read.0.items) (λ read. read.1) result ((each_after (λ section. section.kind) section_layout 0 count).read bytes.now at) }
{
    let mut sections = Vec::new(alloc);
    let mut next = at;
    let mut last_kind = 0;
    for _ in 0..count {
        let (section, after) = section_at(alloc, bytes, next, last_kind)?;
        last_kind = section.kind;
        sections.push(section)?;
        next = after;
    }
    Ok((sections, next))
}

/// A section of a kind above the last one, and where it ends.
#[tactic(auto, unfolding(qm_formats::specs::FileLayout::section_layout))]
fn section_at(
    alloc: Global,
    bytes: &[u8],
    at: usize,
    last_kind: u32,
) -> Result<(Section, usize), FileFault>
    ensures { AnswersTreeFile (λ read. read.0) (λ read. read.1) result ((section_layout last_kind).read bytes.now at) }
{
    let ((kind, count), next) = section_head_at(bytes, at, last_kind)?;
    let (content, next) = content_at(alloc, bytes, next, count)?;
    let bytes = Items::from_vec(content);
    Ok((Section { kind, bytes }, next))
}

/// The kind of a section, which is above the last one, and how many bytes it has; and where this ends.
#[tactic(auto, unfolding(qm_formats::specs::FileLayout::section_head_layout))]
fn section_head_at(
    bytes: &[u8],
    at: usize,
    last_kind: u32,
) -> Result<((u32, u64), usize), FileFault>
    ensures { AnswersTreeFile (λ read. read.0) (λ read. read.1) result ((section_head_layout last_kind).read bytes.now at) }
{
    let (kind, next) = u32_at(bytes, at)?;
    let (count, next) = u64_at(bytes, next)?;
    if kind <= last_kind {
        return Err(FileFault::SectionForm { offset: at as u64 });
    }
    Ok(((kind, count), next))
}

/// So many bytes as they are, and where they end.
#[tactic(auto, unfolding(qm_formats::specs::Fields::raw))]
fn content_at(
    alloc: Global,
    bytes: &[u8],
    at: usize,
    count: u64,
) -> Result<(Vec<u8>, usize), FileFault>
    ensures { AnswersTreeFile (λ read. read.0.items) (λ read. read.1) result ((raw short count).read bytes.now at) }
{
    if at > bytes.len() || ((bytes.len() - at) as u64) < count {
        return Err(short(bytes));
    }
    let (content, _) = bytes.split_at(at).1.split_at(count as usize);
    Ok((Vec::from_slice(alloc, content)?, at + count as usize))
}
