//! What brush models are, and what they are at a point.

ghost use Rattle.std.specs.Prelude.{◌≡◌, Ok, None, Some, MatchOption};
ghost use Rattle.qm_answers.specs.declared.answer.Answer.TheVariants.{Model, ModelAt};
ghost use Rattle.qm_answers.specs.Answers.{point_in_millionths, leaf_contents_at, model_of_entity, answer_of_model, AnswersBySection, AnswersModelAt};
ghost use Rattle.qm_answers.specs.DecodedSections.{AscendByEntity};
ghost use Rattle.qm_inspect.specs.Parts.{ArePartsOf, IfKnown};

use crate::parts::Parts;
use crate::places::{is_inside_bound, point_of};
use qm_answers::{Answer, DecodedSection, QueryFault};
use qm_commands::Millionths;
use qm_contents::Contents;
use qm_file::TreeFile;
use qm_geom::Point;
use qm_lists::Items;
use qm_model_file::BrushModel;
use qm_tree::Tree;

/// That the model of an entity is there. `NoPart` exactly where the file has no section of models, `BadPart` exactly where its
/// reader refuses that section, and `NoSuchModel` exactly where the section has no model of the entity.
pub(crate) fn model(
    section: &DecodedSection<Items<BrushModel>>,
    entity: u64,
) -> Result<Answer, QueryFault>
    requires { IfKnown section.now (AscendByEntity 0) }
    ensures { AnswersBySection section.now (λ models answer. answer ≡ answer_of_model (model_of_entity models entity) (λ _. Model entity)) result }
{
    match section {
        DecodedSection::Missing => Err(QueryFault::NoPart),
        DecodedSection::Bad => Err(QueryFault::BadPart),
        DecodedSection::Known(models) => known_model(models.as_slice(), entity),
    }
}

/// That the model of an entity is among these.
fn known_model(models: &[BrushModel], entity: u64) -> Result<Answer, QueryFault>
    requires { AscendByEntity 0 models.now }
    ensures { result ≡ answer_of_model (model_of_entity models.now entity) (λ _. Model entity) }
{
    match model_of_entity(models, entity) {
        None => Err(QueryFault::NoSuchModel),
        Some(_) => Ok(Answer::Model(entity)),
    }
}

/// What the model of an entity is at a point, whose coordinates are given in millionths. `OutsideCube` exactly where the point
/// is not strictly inside the cube of the file's bound, else as for the model alone.
#[tactic(auto, unfolding(qm_answers::specs::Answers::AnswersModelAt))]
pub(crate) fn model_at(
    file: &TreeFile,
    parts: &Parts,
    entity: u64,
    x: i64,
    y: i64,
    z: i64,
) -> Result<Answer, QueryFault>
    requires { ArePartsOf file.now parts.now }
    ensures { AnswersModelAt file.now entity (point_in_millionths x y z) result }
{
    let at = Millionths { x, y, z };
    if !is_inside_bound(file.bound, at) {
        return Err(QueryFault::OutsideCube);
    }
    let point = point_of(at);
    answer_at(&parts.models, entity, &point)
}

/// What the section of models answers to a point.
fn answer_at(
    section: &DecodedSection<Items<BrushModel>>,
    entity: u64,
    point: &Point,
) -> Result<Answer, QueryFault>
    requires { IfKnown section.now (AscendByEntity 0) }
    ensures { AnswersBySection section.now (λ models answer. answer ≡ answer_of_model (model_of_entity models entity) (λ model. ModelAt entity (leaf_contents_at model.file.tree point.now))) result }
{
    match section {
        DecodedSection::Missing => Err(QueryFault::NoPart),
        DecodedSection::Bad => Err(QueryFault::BadPart),
        DecodedSection::Known(models) => known_model_at(models.as_slice(), entity, point),
    }
}

/// What the model of an entity among these is at a point.
fn known_model_at(models: &[BrushModel], entity: u64, point: &Point) -> Result<Answer, QueryFault>
    requires { AscendByEntity 0 models.now }
    ensures { result ≡ answer_of_model (model_of_entity models.now entity) (λ model. ModelAt entity (leaf_contents_at model.file.tree point.now)) }
{
    match model_of_entity(models, entity) {
        None => Err(QueryFault::NoSuchModel),
        Some(model) => Ok(Answer::ModelAt {
            entity,
            contents: leaf_contents_at(&model.file.tree, point),
        }),
    }
}

/// The model of an entity, where there is one. Entities ascend.
pub(crate) fn model_of_entity(models: &[BrushModel], entity: u64) -> Option<&BrushModel>
    requires { AscendByEntity 0 models.now }
    ensures { MatchOption result (model_of_entity models.now entity ≡ None) (λ model. model_of_entity models.now entity ≡ Some model.now) }
{
    match models.binary_search_by_key(&entity, |model| model.entity) {
        Ok(at) => Some(&models[at]),
        Err(_) => None,
    }
}

/// The contents of the leaf to which a point is led.
fn leaf_contents_at(tree: &Tree, point: &Point) -> Contents
    ensures { result ≡ leaf_contents_at tree.now point.now }
{
    let leaf = tree.leaf_at(point);
    tree.leaf(leaf).contents
}
