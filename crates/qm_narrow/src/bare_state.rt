//! Where a step has led, before its separators are listed.

ghost use Rattle.std.specs.Prelude.{◌≡◌, Some, IfOk};
ghost use Rattle.qm_separators.specs.ChainState.{IsChainState};

use crate::chain_state::ChainState;
use crate::step_buffers::StepBuffers;
use crate::traced::Traced;
use qm_geom::Plane;
use std::alloc::{AllocError, Global};
use std::marker::Model;

/// Where a step has led: a state whose separators are not listed yet.
#[derive(Drop)]
pub(crate) struct BareState {
    source: Traced,
    into: Plane,
    pass: Traced,
}

impl Model for BareState {
    ghost use Rattle.std.specs.Prelude.{Some};
    ghost use Rattle.qm_separators.specs.ChainState.{ChainState, IsChainState};

    ghost Value = { ChainState };

    ghost view = { λ s. record { source = s.source; into = s.into; pass = Some s.pass } };

    ghost invariant = { λ s. IsChainState (record { source = s.source; into = s.into; pass = Some s.pass }) };
}

impl BareState {
    /// A state of these parts.
    pub(crate) fn of(source: Traced, into: &Plane, pass: Traced) -> BareState
        requires { IsChainState (record { source = source; into = into.now; pass = Some pass }) }
        ensures { result ≡ record { source = source; into = into.now; pass = Some pass } }
    {
        BareState {
            source,
            into: *into,
            pass,
        }
    }

    /// The state with its separators, in a list that is used again.
    pub(crate) fn listed(
        self,
        alloc: Global,
        buffers: &mut StepBuffers,
    ) -> Result<ChainState, AllocError>
        ensures { IfOk result (λ state. state ≡ self) }
    {
        let BareState { source, into, pass } = self;
        let planes = buffers.take_planes(alloc);
        let state = ChainState::of(planes, source, &into, Some(pass))?;
        Ok(state)
    }

    /// Gives its lists to be used again.
    pub(crate) fn give_lists(self, buffers: &mut StepBuffers) {
        let BareState { source, pass, .. } = self;
        buffers.keep_source(source);
        buffers.keep_pass(pass);
    }
}
