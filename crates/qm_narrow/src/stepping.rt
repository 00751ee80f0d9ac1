//! One step of a chain of portals.

ghost use Rattle.std.specs.Prelude.{◌≡◌, true, false, Some, IfOk, MatchOption, OnErr};
ghost use Rattle.qm_convex.specs.Sides.{LiesIn};
ghost use Rattle.qm_convex.specs.Cut.{IsPartInFront};
ghost use Rattle.qm_separators.specs.Part.{IsPartBy, HasNoPartBy};
ghost use Rattle.qm_separators.specs.Separator.{IsSeparatorFrom};
ghost use Rattle.qm_separators.specs.ChainState.{ChainState, IsChainState};
ghost use Rattle.qm_separators.specs.ChainStep.{StepsTo, Blocks};
ghost use Rattle.qm_separators.specs.inner.Narrowed.{NarrowsTo, CutsAway};
ghost use Rattle.qm_narrow.specs.inner.LastCut.{EndsAt};

use crate::bare_state::BareState;
use crate::chain_state::ChainState;
use crate::seeing::is_seen_whole;
use crate::separating::list_separators_from;
use crate::step_buffers::StepBuffers;
use crate::traced::Traced;
use qm_wind::{Clip, Pane, Side, Winding};
use std::alloc::{AllocError, Global};
use std::mem;

/// The step from a state through a portal, next to the last one or not: the state to which it leads, or none exactly
/// where it blocks.
pub fn step(
    alloc: Global,
    state: &ChainState,
    next: &Pane,
) -> Result<Option<ChainState>, AllocError>
    ensures { IfOk result (λ after. MatchOption after (Blocks state.now next.now.winding next.now.into) (StepsTo state.now next.now.winding next.now.into)) }
{
    let mut buffers = StepBuffers::new(alloc);
    let after = step_with(alloc, &mut buffers, state, next)?;
    Ok(after)
}

/// The step from a state through a portal, as `step` makes it, put in the place of another state, whose lists further steps
/// use again: whether it leads on. Where it blocks, and where memory runs out, that state stays as it was.
pub fn step_into(
    alloc: Global,
    buffers: &mut StepBuffers,
    spare: &mut ChainState,
    state: &ChainState,
    next: &Pane,
) -> Result<bool, AllocError>
    ensures leads { IfOk result (λ leads. leads ≡ true → StepsTo state.now next.now.winding next.now.into spare.new) }
    ensures blocks { IfOk result (λ leads. leads ≡ false → Blocks state.now next.now.winding next.now.into) }
    ensures stays { IfOk result (λ leads. leads ≡ false → spare.new ≡ spare.old) }
    ensures kept { OnErr result (spare.new ≡ spare.old) }
{
    match step_with(alloc, buffers, state, next)? {
        None => Ok(false),
        Some(after) => {
            let before = mem::replace(spare, after);
            before.give_lists(buffers);
            Ok(true)
        }
    }
}

/// Whether the step from a state through a portal leads on, as `step` makes it. No separators of the next state are listed.
pub fn leads_on(
    alloc: Global,
    buffers: &mut StepBuffers,
    state: &ChainState,
    next: &Pane,
) -> Result<bool, AllocError>
    ensures leads { IfOk result (λ leads. leads ≡ true → (after : ChainState) × StepsTo state.now next.now.winding next.now.into after) }
    ensures blocks { IfOk result (λ leads. leads ≡ false → Blocks state.now next.now.winding next.now.into) }
{
    match bare_step(alloc, buffers, state, next)? {
        None => Ok(false),
        Some(after) => {
            after.give_lists(buffers);
            Ok(true)
        }
    }
}

/// The step, with memory that is used again.
fn step_with(
    alloc: Global,
    buffers: &mut StepBuffers,
    state: &ChainState,
    next: &Pane,
) -> Result<Option<ChainState>, AllocError>
    ensures { IfOk result (λ after. MatchOption after (Blocks state.now next.now.winding next.now.into) (StepsTo state.now next.now.winding next.now.into)) }
{
    match bare_step(alloc, buffers, state, next)? {
        None => Ok(None),
        Some(bare) => {
            let after = bare.listed(alloc, buffers)?;
            Ok(Some(after))
        }
    }
}

/// The step, but for the separators of the state to which it leads.
fn bare_step(
    alloc: Global,
    buffers: &mut StepBuffers,
    state: &ChainState,
    next: &Pane,
) -> Result<Option<BareState>, AllocError>
    ensures { IfOk result (λ after. MatchOption after (Blocks state.now next.now.winding next.now.into) (StepsTo state.now next.now.winding next.now.into)) }
{
    let copy = next.winding.copy()?;
    match copy.keep(state.into(), Side::Front)? {
        None => Ok(None),
        Some(far) => after_far_cut(alloc, buffers, state, next, far),
    }
}

/// What is left of a step once the portal is cut: the source is cut by the portal's plane, and then both by separators.
fn after_far_cut(
    alloc: Global,
    buffers: &mut StepBuffers,
    state: &ChainState,
    next: &Pane,
    far: Winding,
) -> Result<Option<BareState>, AllocError>
    requires { IsPartInFront far next.now.winding state.now.into }
    ensures { IfOk result (λ after. MatchOption after (Blocks state.now next.now.winding next.now.into) (StepsTo state.now next.now.winding next.now.into)) }
{
    match state.source().clip(&next.into, Side::Back)? {
        Clip::Gone => Ok(None),
        Clip::Whole => narrowed_whole(alloc, buffers, state, far),
        Clip::Cut(near) => narrowed_part(alloc, buffers, state, near, far),
    }
}

/// The last two cuts of a step that has left the source whole: the separators are those of the state.
fn narrowed_whole(
    alloc: Global,
    buffers: &mut StepBuffers,
    state: &ChainState,
    far: Winding,
) -> Result<Option<BareState>, AllocError>
    ensures { IfOk result (λ after. MatchOption after (CutsAway state.now state.now.source far) (NarrowsTo state.now state.now.source far)) }
{
    match far.keep_all(state.separators())? {
        None => Ok(None),
        Some(pass) => last_cut_whole(alloc, buffers, state, pass),
    }
}

/// The last cut of such a step.
fn last_cut_whole(
    alloc: Global,
    buffers: &mut StepBuffers,
    state: &ChainState,
    pass: Winding,
) -> Result<Option<BareState>, AllocError>
    ensures { IfOk result (λ after. MatchOption after (HasNoPartBy state.now.source (IsSeparatorFrom state.now.pass pass)) (EndsAt state.now state.now.source pass)) }
{
    let _source = state.source();
    let near = buffers.copy_source(alloc, state.trace())?;
    last_cut(alloc, buffers, state, near, pass)
}

/// The last two cuts of a step that has left a part of the source: the separators are those of this part.
fn narrowed_part(
    alloc: Global,
    buffers: &mut StepBuffers,
    state: &ChainState,
    near: Winding,
    far: Winding,
) -> Result<Option<BareState>, AllocError>
    requires { LiesIn near state.now.into }
    ensures { IfOk result (λ after. MatchOption after (CutsAway state.now near far) (NarrowsTo state.now near far)) }
{
    let near = buffers.trace_source(alloc, near)?;
    let part = left_beyond(buffers, state.pass(), &near, far)?;
    match part {
        None => {
            buffers.keep_source(near);
            Ok(None)
        }
        Some(pass) => last_cut(alloc, buffers, state, near, pass),
    }
}

/// The last cut of a step, from what the others have left. Where lines tell that it cuts nothing, no separators are listed.
fn last_cut(
    alloc: Global,
    buffers: &mut StepBuffers,
    state: &ChainState,
    near: Traced,
    pass: Winding,
) -> Result<Option<BareState>, AllocError>
    requires { LiesIn near state.now.into }
    ensures { IfOk result (λ after. MatchOption after (HasNoPartBy near (IsSeparatorFrom state.now.pass pass)) (EndsAt state.now near pass)) }
{
    let _corners = near.len();
    let pass = buffers.trace_pass(alloc, pass)?;
    if is_seen_whole(&near, state.pass(), &pass) {
        return Ok(Some(BareState::of(near, state.into(), pass)));
    }
    let near = buffers.keep_source(near);
    last_cut_by_separators(alloc, buffers, state, near, pass)
}

/// The last cut by the separators of the portal and the last pass.
fn last_cut_by_separators(
    alloc: Global,
    buffers: &mut StepBuffers,
    state: &ChainState,
    near: Winding,
    pass: Traced,
) -> Result<Option<BareState>, AllocError>
    requires { LiesIn near state.now.into }
    ensures { IfOk result (λ after. MatchOption after (HasNoPartBy near (IsSeparatorFrom state.now.pass pass)) (EndsAt state.now near pass)) }
{
    match left_beyond(buffers, state.pass(), &pass, near)? {
        None => {
            buffers.keep_pass(pass);
            Ok(None)
        }
        Some(source) => {
            let after = last_state(alloc, buffers, state, source, pass)?;
            Ok(Some(after))
        }
    }
}

/// The state in which a step ends.
fn last_state(
    alloc: Global,
    buffers: &mut StepBuffers,
    state: &ChainState,
    source: Winding,
    pass: Traced,
) -> Result<BareState, AllocError>
    requires { IsChainState (record { source = source; into = state.now.into; pass = Some pass }) }
    ensures { IfOk result (λ after. after ≡ record { source = source; into = state.now.into; pass = Some pass }) }
{
    let source = buffers.trace_source(alloc, source)?;
    Ok(BareState::of(source, state.into(), pass))
}

/// What a winding has in front of the separators of another one and the last pass.
fn left_beyond(
    buffers: &mut StepBuffers,
    last: &Option<Traced>,
    other: &Traced,
    winding: Winding,
) -> Result<Option<Winding>, AllocError>
    ensures { IfOk result (λ part. MatchOption part (HasNoPartBy winding (IsSeparatorFrom last.now other.now)) (λ w. IsPartBy w winding (IsSeparatorFrom last.now other.now))) }
{
    list_separators_from(&mut buffers.planes, other, last)?;
    winding.keep_all(buffers.planes.as_slice())
}
