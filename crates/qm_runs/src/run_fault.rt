ghost use Rattle.std.specs.Prelude.{◌≡◌};
ghost use Rattle.qm_runs.specs.declared.run_fault.RunFault.TheVariants.{Memory};

use std::alloc::{AllocError, AllocFailed};

/// Why bytes do not begin with a row of a width, by the first byte that no spelling of such a row allows.
#[derive(Clone, Copy, Debug, PartialEq, Eq)]
pub enum RunFault {
    /// The bytes end too early.
    Short,
    /// A run has no zeros.
    ZeroCount,
    /// A run stands behind one that could be longer.
    SplitRun,
    /// A run is longer than what is left of the row.
    Overrun,
    /// Memory ran out.
    Memory,
}

impl From<AllocError> for RunFault {
    ghost from_gives = { λ _ fault. fault ≡ Memory };

    fn from(_fault: AllocError) -> RunFault {
        RunFault::Memory
    }
}

impl<T: Drop> From<AllocFailed<T>> for RunFault {
    ghost from_gives = { λ _ fault. fault ≡ Memory };

    fn from(_fault: AllocFailed<T>) -> RunFault {
        RunFault::Memory
    }
}
