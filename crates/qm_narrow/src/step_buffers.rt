//! Memory that steps use again.

ghost use Rattle.std.specs.Prelude.{◌≡◌, IfOk};

use crate::corner_lists::CornerLists;
use crate::traced::Traced;
use qm_geom::Plane;
use qm_wind::Winding;
use std::alloc::{AllocError, Global};
use std::mem;

/// Memory that steps use again: lists of states that are no longer wanted, which further steps empty and fill again.
#[derive(Drop)]
pub struct StepBuffers {
    source_lists: CornerLists,
    pass_lists: CornerLists,
    pub(crate) planes: Vec<Plane>,
}

impl StepBuffers {
    /// Buffers without any memory yet.
    pub fn new(alloc: Global) -> StepBuffers {
        StepBuffers {
            source_lists: CornerLists::new(alloc),
            pass_lists: CornerLists::new(alloc),
            planes: Vec::new(alloc),
        }
    }

    /// A source, with the lists for it.
    pub(crate) fn trace_source(
        &mut self,
        alloc: Global,
        winding: Winding,
    ) -> Result<Traced, AllocError>
        ensures { IfOk result (λ traced. traced ≡ winding) }
    {
        trace_in(alloc, &mut self.source_lists, winding)
    }

    /// A copy of a source, with the lists for it.
    pub(crate) fn copy_source(
        &mut self,
        alloc: Global,
        source: &Traced,
    ) -> Result<Traced, AllocError>
        ensures { IfOk result (λ traced. traced ≡ source.now) }
    {
        let lists = mem::replace(&mut self.source_lists, CornerLists::new(alloc));
        source.copied_in(lists)
    }

    /// A pass, with the lists for it.
    pub(crate) fn trace_pass(
        &mut self,
        alloc: Global,
        winding: Winding,
    ) -> Result<Traced, AllocError>
        ensures { IfOk result (λ traced. traced ≡ winding) }
    {
        trace_in(alloc, &mut self.pass_lists, winding)
    }

    /// The list for planes, whatever it lists.
    pub(crate) fn take_planes(&mut self, alloc: Global) -> Vec<Plane> {
        mem::replace(&mut self.planes, Vec::new(alloc))
    }

    /// The winding of a source that is no longer wanted, whose lists are kept.
    pub(crate) fn keep_source(&mut self, source: Traced) -> Winding
        ensures { result ≡ source }
    {
        let (winding, lists) = source.into_parts();
        self.source_lists = lists;
        winding
    }

    /// Keeps the lists of a pass that is no longer wanted.
    pub(crate) fn keep_pass(&mut self, pass: Traced) {
        let (_, lists) = pass.into_parts();
        self.pass_lists = lists;
    }
}

/// A winding, traced in these lists, which it takes.
fn trace_in(alloc: Global, lists: &mut CornerLists, winding: Winding) -> Result<Traced, AllocError>
    ensures { IfOk result (λ traced. traced ≡ winding) }
{
    let lists = mem::replace(lists, CornerLists::new(alloc));
    Traced::of(lists, winding)
}
