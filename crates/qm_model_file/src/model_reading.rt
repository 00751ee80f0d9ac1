//! Models, read at a place, each behind the one before.

ghost use Rattle.std.specs.Prelude.{◌≡◌, ℕ, List, IfOk};
ghost use Rattle.qm_formats.specs.Layout.{each_after};
ghost use Rattle.qm_model_layout.specs.ModelLayout.{ascend_from, is_model_head, kept_model, model_layout};
ghost use Rattle.qm_model_file.specs.Answers.{IsFaultOfModels, AnswersModels};
ghost use Rattle.qm_model_file.specs.inner.SeenKept.{seen_kept};

use crate::box_fields::is_box;
use crate::brush_model::BrushModel;
use crate::kept_reading::{ModelHead, kept_at};
use crate::models_fault::ModelsFault;
use qm_file::{TreeFile, plain_file};
use qm_lists::Items;
use std::alloc::{AllocError, Global};

/// So many models, each of an entity above that of the one before, and where they end. No room is made before the bytes are
/// there.
pub(crate) fn all_models_at(
    alloc: Global,
    bytes: &[u8],
    at: usize,
    count: u32,
    bound: u32,
    numbered: u64,
) -> Result<(Vec<BrushModel>, usize), ModelsFault>
    ensures { AnswersModels (λ read. read.0.items) (λ read. read.1) result ((each_after (λ model. model.entity) (model_layout bound numbered) 0 count).read bytes.now at) }
{
    let mut models = Vec::new(alloc);
    let mut next = at;
    let mut last_entity = 0;
    for _ in 0..count {
        let (model, after) = model_at(alloc, bytes, next, bound, numbered, last_entity)?;
        last_entity = model.entity;
        models.push(model)?;
        next = after;
    }
    Ok((models, next))
}

/// A model of an entity above the last one, and where it ends.
#[tactic(auto, unfolding(qm_model_layout::specs::ModelLayout::model_layout))]
fn model_at(
    alloc: Global,
    bytes: &[u8],
    at: usize,
    bound: u32,
    numbered: u64,
    last_entity: u64,
) -> Result<(BrushModel, usize), ModelsFault>
    ensures { AnswersModels (λ read. read.0) (λ read. read.1) result ((model_layout bound numbered last_entity).read bytes.now at) }
{
    let (head, tree, next) = kept_at(alloc, bytes, at)?;
    match model_of(alloc, head, tree, bound, numbered, last_entity)? {
        Some(model) => Ok((model, next)),
        None => Err(ModelsFault::Form { offset: at as u64 }),
    }
}

/// The model that is kept, where it is of an entity above the last one and can stand in such a section.
fn model_of(
    alloc: Global,
    head: ModelHead,
    tree: &[u8],
    bound: u32,
    numbered: u64,
    last_entity: u64,
) -> Result<Option<BrushModel>, AllocError>
    ensures { IfOk result (λ found. found ≡ kept_model bound numbered last_entity (seen_kept head tree.now)) }
{
    if !is_model_head(&head, numbered, last_entity) {
        return Ok(None);
    }
    match plain_file(alloc, tree, bound)? {
        Some(file) => Ok(Some(with_file(head, file))),
        None => Ok(None),
    }
}

/// Whether a model can stand in a section behind one of the last entity, but for its tree.
#[tactic(auto, unfolding(qm_model_layout::specs::ModelLayout::is_model_head))]
fn is_model_head(head: &ModelHead, numbered: u64, last_entity: u64) -> bool
    ensures { (tree : List ℕ) → result ≡ is_model_head numbered last_entity (seen_kept head.now tree) }
{
    last_entity < head.entity && is_box(&head.bounding_box) && ascend(&head.leaves, numbered)
}

/// Whether leaves ascend, each below a limit.
fn ascend(leaves: &[u64], limit: u64) -> bool
    ensures { result ≡ ascend_from 0 limit leaves.now }
{
    let mut least = 0;
    for &leaf in leaves {
        if leaf < least || leaf >= limit {
            return false;
        }
        least = leaf + 1;
    }
    true
}

/// The model with this file.
fn with_file(head: ModelHead, file: TreeFile) -> BrushModel
    ensures { result ≡ record { entity = head.entity; box = head.bounding_box; leaves = head.leaves.items; file = file } }
{
    let ModelHead {
        entity,
        bounding_box,
        leaves,
    } = head;
    BrushModel {
        entity,
        bounding_box,
        leaves: Items::from_vec(leaves),
        file,
    }
}
