//! The six numbers of a box, read and written.

ghost use Rattle.std.specs.Prelude.{◌≡◌, ◌++◌, OnOk};
ghost use Rattle.qm_model_layout.specs.ModelLayout.{box_layout, is_box};
ghost use Rattle.qm_model_file.specs.Answers.{IsFaultOfModels, AnswersModels};

use crate::brush_model::BoundingBox;
use crate::field_bytes::put_i32;
use crate::models_fault::ModelsFault;
use qm_file::i32_at;
use std::alloc::AllocError;

/// The three low ends and the three high ends of a box, and where they end.
#[tactic(auto, unfolding(qm_model_layout::specs::ModelLayout::box_layout))]
pub(crate) fn box_at(bytes: &[u8], at: usize) -> Result<(BoundingBox, usize), ModelsFault>
    ensures { AnswersModels (λ read. read.0) (λ read. read.1) result (box_layout.read bytes.now at) }
{
    let (x_low, next) = i32_at(bytes, at)?;
    let (y_low, next) = i32_at(bytes, next)?;
    let (z_low, next) = i32_at(bytes, next)?;
    let (x_high, next) = i32_at(bytes, next)?;
    let (y_high, next) = i32_at(bytes, next)?;
    let (z_high, next) = i32_at(bytes, next)?;
    let bounding_box = BoundingBox {
        lo: [x_low, y_low, z_low],
        hi: [x_high, y_high, z_high],
    };
    Ok((bounding_box, next))
}

/// Appends the three low ends and the three high ends of a box.
#[tactic(auto, unfolding(qm_model_layout::specs::ModelLayout::box_layout))]
pub(crate) fn put_box(bytes: &mut Vec<u8>, bounding_box: &BoundingBox) -> Result<(), AllocError>
    ensures { OnOk result (bytes.new.items ≡ bytes.old.items ++ box_layout.bytes_of bounding_box.now) }
{
    put_i32(bytes, bounding_box.lo[0])?;
    put_i32(bytes, bounding_box.lo[1])?;
    put_i32(bytes, bounding_box.lo[2])?;
    put_i32(bytes, bounding_box.hi[0])?;
    put_i32(bytes, bounding_box.hi[1])?;
    put_i32(bytes, bounding_box.hi[2])?;
    Ok(())
}

/// Whether no low end of a box is above its high end.
#[tactic(auto, unfolding(qm_model_layout::specs::ModelLayout::is_box))]
pub(crate) fn is_box(bounding_box: &BoundingBox) -> bool
    ensures { result ≡ is_box bounding_box.now }
{
    bounding_box.lo[0] <= bounding_box.hi[0]
        && bounding_box.lo[1] <= bounding_box.hi[1]
        && bounding_box.lo[2] <= bounding_box.hi[2]
}
