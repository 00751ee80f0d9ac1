//! A model as it is kept, read at a place, with its tree as bytes.

ghost use Rattle.std.specs.Prelude.{◌≡◌, length};
ghost use Rattle.std.specs.Int.{w64};
ghost use Rattle.qm_formats.specs.Layout.{many};
ghost use Rattle.qm_formats.specs.Fields.{unsigned};
ghost use Rattle.qm_formats.specs.FileParts.{short};
ghost use Rattle.qm_model_layout.specs.ModelLayout.{model_leaves_layout, counted_bytes_layout, kept_layout};
ghost use Rattle.qm_model_file.specs.Answers.{IsFaultOfModels, AnswersModels};
ghost use Rattle.qm_model_file.specs.inner.SeenKept.{seen_kept};

use crate::box_fields::box_at;
use crate::brush_model::BoundingBox;
use crate::models_fault::{ModelsFault, short};
use qm_file::u64_at;
use std::alloc::Global;

/// What stands before the tree of a model: its entity, its box and its leaves.
#[derive(Drop)]
pub(crate) struct ModelHead {
    pub entity: u64,
    pub bounding_box: BoundingBox,
    pub leaves: Vec<u64>,
}

/// A model as it is kept: what stands before its tree, and the bytes of the tree's file; and where it ends.
#[tactic(auto, unfolding(qm_model_layout::specs::ModelLayout::kept_layout))]
pub(crate) fn kept_at(
    alloc: Global,
    bytes: &[u8],
    at: usize,
) -> Result<(ModelHead, &[u8], usize), ModelsFault>
    ensures { AnswersModels (λ read. seen_kept read.0 read.1.now) (λ read. read.2) result (kept_layout.read bytes.now at) }
{
    let (entity, next) = u64_at(bytes, at)?;
    let (bounding_box, next) = box_at(bytes, next)?;
    let (leaves, next) = leaves_at(alloc, bytes, next)?;
    let (tree, next) = counted_bytes_at(bytes, next)?;
    let head = ModelHead {
        entity,
        bounding_box,
        leaves,
    };
    Ok((head, tree, next))
}

/// The leaves of a model behind their number, and where they end.
#[tactic(auto, unfolding(qm_model_layout::specs::ModelLayout::model_leaves_layout))]
fn leaves_at(alloc: Global, bytes: &[u8], at: usize) -> Result<(Vec<u64>, usize), ModelsFault>
    ensures { AnswersModels (λ read. read.0.items) (λ read. read.1) result (model_leaves_layout.read bytes.now at) }
{
    let (count, next) = u64_at(bytes, at)?;
    numbers_at(alloc, bytes, next, count)
}

/// So many numbers, and where they end. No room is made before the bytes are there.
fn numbers_at(
    alloc: Global,
    bytes: &[u8],
    at: usize,
    count: u64,
) -> Result<(Vec<u64>, usize), ModelsFault>
    ensures { AnswersModels (λ read. read.0.items) (λ read. read.1) result ((many (unsigned short w64) count).read bytes.now at) }
{
    let mut numbers = Vec::new(alloc);
    let mut next = at;
    for _ in 0..count {
        let (number, after) = u64_at(bytes, next)?;
        numbers.push(number)?;
        next = after;
    }
    Ok((numbers, next))
}

/// The bytes behind their number, and where they end.
#[tactic(auto, unfolding(qm_model_layout::specs::ModelLayout::counted_bytes_layout, qm_formats::specs::Fields::raw))]
fn counted_bytes_at(bytes: &[u8], at: usize) -> Result<(&[u8], usize), ModelsFault>
    ensures { AnswersModels (λ read. read.0.now) (λ read. read.1) result (counted_bytes_layout.read bytes.now at) }
{
    let (count, next) = u64_at(bytes, at)?;
    if next > bytes.len() || ((bytes.len() - next) as u64) < count {
        return Err(short(bytes));
    }
    let (counted, _) = bytes.split_at(next).1.split_at(count as usize);
    Ok((counted, next + count as usize))
}
