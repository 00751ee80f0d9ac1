ghost use Rattle.std.specs.Prelude.{◌≡◌};
ghost use Rattle.qm_gen.specs.declared.gen_fault.GenFault.TheVariants.{Memory};

use std::alloc::{AllocError, AllocFailed};
use thiserror::Error;

/// Why no map of rooms is made.
#[derive(Clone, Copy, Debug, PartialEq, Eq, Error)]
pub enum GenFault {
    /// There is no room, or there are more than 64.
    #[error("not 1 to 64 rooms")]
    SizeRange,
    #[error("out of memory")]
    Memory,
}

impl From<AllocError> for GenFault {
    ghost from_gives = { λ _ fault. fault ≡ Memory };

    fn from(_fault: AllocError) -> GenFault {
        GenFault::Memory
    }
}
