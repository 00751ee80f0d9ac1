ghost use Rattle.std.specs.Prelude.{◌≡◌, List, length, IfOk, MatchResult};
ghost use Rattle.qm_model_layout.specs.BrushModel.{BrushModel};
ghost use Rattle.qm_model_layout.specs.ModelLayout.{AreModelsBytes, models_layout, read_models};
ghost use Rattle.qm_model_file.specs.Answers.{IsFaultOfModels, AnswersModels};

use crate::brush_model::BrushModel;
use crate::model_reading::all_models_at;
use crate::models_fault::ModelsFault;
use qm_file::u32_at;
use qm_lists::Items;
use std::alloc::Global;

/// The models of the bytes of a section, in a file of this bound with so many numbered leaves, or the first fault in the order of
/// the bytes.
pub fn decode_models(
    alloc: Global,
    bytes: &[u8],
    bound: u32,
    numbered: u64,
) -> Result<Items<BrushModel>, ModelsFault>
    // What is read can stand there and is written so.
    ensures found { IfOk result (λ models. AreModelsBytes bound numbered bytes.now models) }
    // What can stand there and is written so is read, unless memory runs out.
    ensures only { (models : List BrushModel) → AreModelsBytes bound numbered bytes.now models → MatchResult result (λ found. found ≡ models) (λ fault. fault ≡ ModelsFault.Memory) }
    // Which fault it is.
    ensures exact { AnswersModels (λ models. models) (λ _. length bytes.now) result (read_models bound numbered bytes.now) }
{
    whole_section(alloc, bytes, bound, numbered)
}

#[tactic(auto, unfolding(qm_model_layout::specs::ModelLayout::read_models))]
fn whole_section(
    alloc: Global,
    bytes: &[u8],
    bound: u32,
    numbered: u64,
) -> Result<Items<BrushModel>, ModelsFault>
    ensures { AnswersModels (λ models. models) (λ _. length bytes.now) result (read_models bound numbered bytes.now) }
{
    let (models, next) = models_at_start(alloc, bytes, bound, numbered)?;
    if next < bytes.len() {
        return Err(ModelsFault::Trailing {
            offset: next as u64,
        });
    }
    Ok(Items::from_vec(models))
}

/// The models with which bytes begin, behind their number, and where they end.
#[tactic(auto, unfolding(qm_model_layout::specs::ModelLayout::models_layout))]
fn models_at_start(
    alloc: Global,
    bytes: &[u8],
    bound: u32,
    numbered: u64,
) -> Result<(Vec<BrushModel>, usize), ModelsFault>
    ensures { AnswersModels (λ read. read.0.items) (λ read. read.1) result ((models_layout bound numbered).read bytes.now 0) }
{
    let (count, next) = u32_at(bytes, 0)?;
    all_models_at(alloc, bytes, next, count, bound, numbered)
}
