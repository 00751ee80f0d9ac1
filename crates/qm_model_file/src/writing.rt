ghost use Rattle.std.specs.Prelude.{◌≡◌, ◌++◌, IfOk, OnOk, flat_map};
ghost use Rattle.std.specs.Int.{w64};
ghost use Rattle.qm_formats.specs.Fields.{AreBytes, unsigned};
ghost use Rattle.qm_formats.specs.FileParts.{short};
ghost use Rattle.qm_formats.specs.TreeFile.{small_bound};
ghost use Rattle.qm_model_layout.specs.ModelLayout.{model_leaves_layout, model_layout, models_bytes};

use crate::box_fields::put_box;
use crate::brush_model::BrushModel;
use crate::field_bytes::{put_small_count, put_u64};
use qm_file::encode;
use qm_lists::{Encoding, append_all};
use std::alloc::{AllocError, Global};

/// The bytes of a section of these models.
pub fn encode_models(alloc: Global, models: &[BrushModel]) -> Result<Vec<u8>, AllocError>
    ensures exact { IfOk result (λ bytes. bytes.items ≡ models_bytes models.now) }
    ensures are_bytes { IfOk result (λ bytes. AreBytes bytes.items) }
{
    let mut bytes = Vec::new(alloc);
    put_small_count(&mut bytes, models.len())?;
    put_models(alloc, &mut bytes, models)?;
    Ok(bytes)
}

/// Appends the models one behind the other.
fn put_models(alloc: Global, bytes: &mut Vec<u8>, models: &[BrushModel]) -> Result<(), AllocError>
    ensures exact { OnOk result (bytes.new.items ≡ bytes.old.items ++ flat_map (model_layout small_bound 0 0).bytes_of models.now) }
    ensures are_bytes { OnOk result (AreBytes bytes.new.items) }
{
    for model in models {
        put_model(alloc, bytes, model)?;
    }
    Ok(())
}

/// Appends the entity, the box, the leaves behind their number, and the bytes of the tree's file behind theirs.
fn put_model(alloc: Global, bytes: &mut Vec<u8>, model: &BrushModel) -> Result<(), AllocError>
    ensures { OnOk result (bytes.new.items ≡ bytes.old.items ++ (model_layout small_bound 0 0).bytes_of model.now) }
{
    let tree = encode(alloc, &model.file)?;
    put_u64(bytes, model.entity)?;
    put_box(bytes, &model.bounding_box)?;
    put_leaves(bytes, model.leaves.as_slice())?;
    put_u64(bytes, tree.len() as u64)?;
    bytes.extend_from_slice(&tree)?;
    Ok(())
}

/// Appends the leaves behind their number.
fn put_leaves(bytes: &mut Vec<u8>, leaves: &[u64]) -> Result<(), AllocError>
    ensures { OnOk result (bytes.new.items ≡ bytes.old.items ++ model_leaves_layout.bytes_of leaves.now) }
{
    put_u64(bytes, leaves.len() as u64)?;
    append_all::<NumberBytes>(bytes, leaves)?;
    Ok(())
}

/// A number in 64 bits.
struct NumberBytes;

impl Encoding for NumberBytes {
    type Value = u64;

    ghost can_append = { λ _. Unit {0} };

    ghost bytes_of = { (unsigned short w64).bytes_of };

    fn append(bytes: &mut Vec<u8>, number: &u64) -> Result<(), AllocError> {
        put_u64(bytes, *number)
    }
}
