//! Where a chain of portals stands.

ghost use Rattle.std.specs.Prelude.{◌≡◌, IfOk};
ghost use Rattle.qm_separators.specs.ChainState.{first_state, IsChainState};
ghost use Rattle.qm_separators.specs.Separator.{IsSeparatorFrom};
ghost use Rattle.qm_separators.specs.Gains.{HasExactly};
ghost use Rattle.qm_wind.specs.Entered.{IsPane};

use crate::separating::list_separators_from;
use crate::step_buffers::StepBuffers;
use crate::traced::Traced;
use qm_geom::Plane;
use qm_wind::{Pane, Winding};
use std::alloc::{AllocError, Global};
use std::marker::Model;

/// Where a chain of portals stands: its source with the turned plane of its first portal, and its pass once it has a
/// second portal. Its separators are kept beside them, computed once.
#[derive(Drop)]
pub struct ChainState {
    source: Traced,
    into: Plane,
    pass: Option<Traced>,
    separators: Vec<Plane>,
}

impl Model for ChainState {
    ghost use Rattle.qm_separators.specs.ChainState.{ChainState, IsChainState};
    ghost use Rattle.qm_separators.specs.Separator.{IsSeparatorFrom};
    ghost use Rattle.qm_separators.specs.Gains.{HasExactly};

    ghost Value = { ChainState };

    ghost view = { λ s. record { source = s.source; into = s.into; pass = s.pass } };

    ghost invariant = { λ s. IsChainState (record { source = s.source; into = s.into; pass = s.pass }) × HasExactly (IsSeparatorFrom s.pass s.source) s.separators.items };
}

impl ChainState {
    /// The state of a chain with one portal.
    pub fn start(alloc: Global, pane: &Pane) -> Result<ChainState, AllocError>
        requires { IsPane pane.now }
        ensures { IfOk result (λ state. state ≡ first_state pane.now.winding pane.now.into) }
    {
        let _corners = pane.winding.len();
        let source = Traced::copied(alloc, &pane.winding)?;
        let state = ChainState::of(Vec::new(alloc), source, &pane.into, None)?;
        Ok(state)
    }

    /// A state of these parts, with its separators in a list that is used again.
    pub(crate) fn of(
        planes: Vec<Plane>,
        source: Traced,
        into: &Plane,
        pass: Option<Traced>,
    ) -> Result<ChainState, AllocError>
        requires { IsChainState (record { source = source; into = into.now; pass = pass }) }
        ensures { IfOk result (λ state. state ≡ record { source = source; into = into.now; pass = pass }) }
    {
        let mut separators = planes;
        list_separators_from(&mut separators, &source, &pass)?;
        Ok(ChainState {
            source,
            into: *into,
            pass,
            separators,
        })
    }

    /// Gives its lists to be used again.
    pub(crate) fn give_lists(self, buffers: &mut StepBuffers) {
        let ChainState {
            source,
            pass,
            separators,
            ..
        } = self;
        buffers.planes = separators;
        buffers.keep_source(source);
        if let Some(pass) = pass {
            buffers.keep_pass(pass);
        }
    }

    /// Its source.
    pub(crate) fn source(&self) -> &Winding
        ensures value { result.now ≡ self.now.source }
        ensures valid { IsChainState self.now }
    {
        self.source.winding()
    }

    /// Its source with its corners.
    pub(crate) fn trace(&self) -> &Traced
        ensures { result.now ≡ self.now.source }
    {
        &self.source
    }

    /// The turned plane of its first portal.
    pub(crate) fn into(&self) -> &Plane
        ensures value { result.now ≡ self.now.into }
    {
        &self.into
    }

    /// Its pass, where it has one.
    pub(crate) fn pass(&self) -> &Option<Traced>
        ensures value { result.now ≡ self.now.pass }
    {
        &self.pass
    }

    /// The separators of source and pass.
    pub(crate) fn separators(&self) -> &[Plane]
        ensures { HasExactly (IsSeparatorFrom self.now.pass self.now.source) result.now }
    {
        self.separators.as_slice()
    }
}
