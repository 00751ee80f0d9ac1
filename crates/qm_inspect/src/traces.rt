//! Which segments have a trace.

ghost use Rattle.std.specs.Prelude.{◌≡◌, ◌↔◌, IsTrue, Ok, Err, if◌then◌else◌};
ghost use Rattle.qm_answers.specs.declared.answer.Answer.TheVariants.{HullTrace};
ghost use Rattle.qm_answers.specs.declared.query_fault.QueryFault.TheVariants.{TooWide};
ghost use Rattle.qm_answers.specs.Answers.{HasEndsInside, AnswersBySection, AnswersByTree, AnswersTrace, AnswersHullTrace};
ghost use Rattle.qm_inspect.specs.Parts.{ArePartsOf, FitsIfKnown};

use crate::parts::Parts;
use crate::places::is_inside_bound;
use qm_answers::{Answer, DecodedSection, QueryFault};
use qm_commands::Millionths;
use qm_file::TreeFile;

/// That the trace of a segment through the file's own tree is there. `OutsideCube` exactly where an end is not strictly inside
/// the cube of the file's bound, else `TooWide` exactly where the plane of a node is too far.
#[tactic(auto, unfolding(qm_answers::specs::Answers::AnswersTrace))]
pub(crate) fn trace(
    file: &TreeFile,
    parts: &Parts,
    from: Millionths,
    to: Millionths,
) -> Result<Answer, QueryFault>
    requires { ArePartsOf file.now parts.now }
    ensures { AnswersTrace file.now from to result }
{
    if !has_ends_inside(file.bound, from, to) {
        return Err(QueryFault::OutsideCube);
    }
    trace_if_fits(parts.fits, Answer::Trace { from, to })
}

/// That the trace of a segment through a hull is there. `OutsideCube` and `TooWide` as for the file's own tree, and between
/// them `NoPart` exactly where the file has no section of the hull, and `BadPart` exactly where its reader refuses that section.
#[tactic(auto, unfolding(qm_answers::specs::Answers::AnswersHullTrace))]
pub(crate) fn hull_trace(
    file: &TreeFile,
    parts: &Parts,
    hull: u8,
    from: Millionths,
    to: Millionths,
) -> Result<Answer, QueryFault>
    requires { ArePartsOf file.now parts.now }
    ensures { AnswersHullTrace file.now hull from to result }
{
    if !has_ends_inside(file.bound, from, to) {
        return Err(QueryFault::OutsideCube);
    }
    trace_of_hull(parts.hull(hull), parts.hull_fits(hull), hull, from, to)
}

/// What the section of a hull answers to a segment.
fn trace_of_hull(
    section: &DecodedSection<TreeFile>,
    fits: bool,
    hull: u8,
    from: Millionths,
    to: Millionths,
) -> Result<Answer, QueryFault>
    requires { FitsIfKnown section.now fits }
    ensures { AnswersBySection section.now (λ found. AnswersByTree found.tree (HullTrace hull from to)) result }
{
    match section {
        DecodedSection::Missing => Err(QueryFault::NoPart),
        DecodedSection::Bad => Err(QueryFault::BadPart),
        DecodedSection::Known(_) => trace_if_fits(fits, Answer::HullTrace { hull, from, to }),
    }
}

/// A trace, where segments can be traced.
fn trace_if_fits(fits: bool, trace: Answer) -> Result<Answer, QueryFault>
    ensures { result ≡ (if fits then Ok trace else Err TooWide) }
{
    if fits {
        Ok(trace)
    } else {
        Err(QueryFault::TooWide)
    }
}

/// Whether both ends of a segment are strictly inside the cube of a bound.
fn has_ends_inside(bound: u32, from: Millionths, to: Millionths) -> bool
    ensures { IsTrue result ↔ HasEndsInside bound from to }
{
    is_inside_bound(bound, from) && is_inside_bound(bound, to)
}
