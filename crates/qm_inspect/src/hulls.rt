//! What hulls are at a point.

ghost use Rattle.std.specs.Prelude.{◌≡◌, Ok};
ghost use Rattle.qm_contacts.specs.NumberedLeaves.{is_solid};
ghost use Rattle.qm_answers.specs.declared.answer.Answer.TheVariants.{Hull};
ghost use Rattle.qm_answers.specs.Answers.{point_in_millionths, is_solid_at, AnswersBySection, AnswersHull};
ghost use Rattle.qm_inspect.specs.Parts.{ArePartsOf};

use crate::parts::Parts;
use crate::places::{is_inside_bound, point_of};
use qm_answers::{Answer, DecodedSection, QueryFault};
use qm_commands::Millionths;
use qm_contents::Contents;
use qm_file::TreeFile;
use qm_geom::Point;
use qm_tree::Tree;

/// Whether a hull is solid at a point, whose coordinates are given in millionths. `OutsideCube` exactly where the point is not
/// strictly inside the cube of the file's bound, else `NoPart` exactly where the file has no section of the hull, and `BadPart`
/// exactly where its reader refuses that section.
#[tactic(auto, unfolding(qm_answers::specs::Answers::AnswersHull))]
pub(crate) fn hull(
    file: &TreeFile,
    parts: &Parts,
    hull: u8,
    x: i64,
    y: i64,
    z: i64,
) -> Result<Answer, QueryFault>
    requires { ArePartsOf file.now parts.now }
    ensures { AnswersHull file.now hull (point_in_millionths x y z) result }
{
    let at = Millionths { x, y, z };
    if !is_inside_bound(file.bound, at) {
        return Err(QueryFault::OutsideCube);
    }
    let point = point_of(at);
    answer_at(parts.hull(hull), &point)
}

/// What the section of a hull answers at a point.
fn answer_at(section: &DecodedSection<TreeFile>, point: &Point) -> Result<Answer, QueryFault>
    ensures { AnswersBySection section.now (λ hull answer. answer ≡ Ok (Hull (is_solid_at hull.tree point.now))) result }
{
    match section {
        DecodedSection::Missing => Err(QueryFault::NoPart),
        DecodedSection::Bad => Err(QueryFault::BadPart),
        DecodedSection::Known(hull) => Ok(Answer::Hull(is_solid_at(&hull.tree, point))),
    }
}

/// Whether the leaf to which a point is led is solid.
fn is_solid_at(tree: &Tree, point: &Point) -> bool
    ensures { result ≡ is_solid_at tree.now point.now }
{
    let leaf = tree.leaf_at(point);
    is_solid(tree.leaf(leaf).contents)
}

fn is_solid(contents: Contents) -> bool
    ensures { result ≡ is_solid contents }
{
    contents == Contents::Solid
}
