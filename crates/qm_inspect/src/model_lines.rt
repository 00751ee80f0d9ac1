//! Brush models as text.

ghost use Rattle.std.specs.Prelude.{◌≡◌, ◌++◌, ◌∷◌, pos, slice_index_or, OnOk, string_bytes};
ghost use Rattle.std.specs.Fmt.{decimal};
ghost use Rattle.qm_answers.specs.AnswerText.{leaf_numbers, words_of_box, words_of_corner, words_of_model, words_of_model_at, words_of_known_model};
ghost use Rattle.qm_answers.specs.DecodedSections.{AscendByEntity};
ghost use Rattle.qm_inspect.specs.Parts.{IfKnown};

use crate::models::model_of_entity;
use crate::names::name_of;
use qm_answers::DecodedSection;
use qm_contents::Contents;
use qm_lists::Items;
use qm_model_file::{BoundingBox, BrushModel};
use std::alloc::AllocError;

/// Adds the words of the model of an entity, where it is there.
pub(crate) fn put_model(
    text: &mut String,
    section: &DecodedSection<Items<BrushModel>>,
    entity: u64,
) -> Result<(), AllocError>
    requires { IfKnown section.now (AscendByEntity 0) }
    ensures { OnOk result (string_bytes text.new ≡ string_bytes text.old ++ words_of_known_model section.now entity) }
{
    if let DecodedSection::Known(models) = section {
        if let Some(model) = model_of_entity(models.as_slice(), entity) {
            put_words_of_model(text, model)?;
        }
    }
    Ok(())
}

/// Adds the words of a model: its entity, its box and the leaves that it touches.
#[tactic(auto, unfolding(qm_answers::specs::AnswerText::words_of_model))]
fn put_words_of_model(text: &mut String, model: &BrushModel) -> Result<(), AllocError>
    ensures { OnOk result (string_bytes text.new ≡ string_bytes text.old ++ words_of_model model.now) }
{
    let entity = model.entity;
    write!(text, "model {entity} box ")?;
    put_box(text, &model.bounding_box)?;
    text.push_str(" leaves")?;
    put_leaves(text, model.leaves.as_slice())
}

/// Adds the low corner of a box, and then its high one.
#[tactic(auto, unfolding(qm_answers::specs::AnswerText::words_of_box))]
fn put_box(text: &mut String, bounding_box: &BoundingBox) -> Result<(), AllocError>
    ensures { OnOk result (string_bytes text.new ≡ string_bytes text.old ++ words_of_box bounding_box.now) }
{
    put_corner(text, &bounding_box.lo)?;
    text.push(' ')?;
    put_corner(text, &bounding_box.hi)
}

/// Adds the words of a corner.
fn put_corner(text: &mut String, corner: &[i32; 3]) -> Result<(), AllocError>
    ensures { OnOk result (string_bytes text.new ≡ string_bytes text.old ++ words_of_corner (slice_index_or corner.now 0 (pos 0)) (slice_index_or corner.now 1 (pos 0)) (slice_index_or corner.now 2 (pos 0))) }
{
    put_coordinates(text, corner[0], corner[1], corner[2])
}

/// Adds three coordinates with spaces between them.
#[tactic(auto, unfolding(qm_answers::specs::AnswerText::words_of_corner))]
fn put_coordinates(text: &mut String, x: i32, y: i32, z: i32) -> Result<(), AllocError>
    ensures { OnOk result (string_bytes text.new ≡ string_bytes text.old ++ words_of_corner x y z) }
{
    write!(text, "{x} {y} {z}")
}

/// Adds numbers of leaves, each after a space.
fn put_leaves(text: &mut String, leaves: &[u64]) -> Result<(), AllocError>
    ensures { OnOk result (string_bytes text.new ≡ string_bytes text.old ++ leaf_numbers leaves.now) }
{
    for leaf in leaves {
        put_leaf(text, *leaf)?;
    }
    Ok(())
}

/// Adds the number of a leaf.
fn put_leaf(text: &mut String, leaf: u64) -> Result<(), AllocError>
    ensures { OnOk result (string_bytes text.new ≡ string_bytes text.old ++ (32 ∷ decimal leaf)) }
{
    write!(text, " {leaf}")
}

/// Adds the words of what a model is at a point.
#[tactic(auto, unfolding(qm_answers::specs::AnswerText::words_of_model_at))]
pub(crate) fn put_model_at(
    text: &mut String,
    entity: u64,
    contents: Contents,
) -> Result<(), AllocError>
    ensures { OnOk result (string_bytes text.new ≡ string_bytes text.old ++ words_of_model_at entity contents) }
{
    let name = name_of(contents);
    write!(text, "model {entity} {name}")
}
