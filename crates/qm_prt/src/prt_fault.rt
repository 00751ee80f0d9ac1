ghost use Rattle.std.specs.Prelude.{◌≡◌};
ghost use Rattle.qm_prt.specs.declared.prt_fault.PrtFault.TheVariants.{Memory};

use std::alloc::{AllocError, AllocFailed};
use thiserror::Error;

/// Why a text is no listing: the first fault in the order of the text, and its place.
#[derive(Clone, Copy, Debug, PartialEq, Eq, Error)]
pub enum PrtFault {
    /// The text does not begin with the line `PRT1`.
    #[error("header at byte {offset}")]
    Header { offset: u64 },
    /// No number of the form stands where one is due.
    #[error("number at byte {offset}")]
    Number { offset: u64 },
    /// A byte that is due is not there, or a number is out of its range.
    #[error("shape at byte {offset}")]
    Shape { offset: u64 },
    /// Bytes follow.
    #[error("trailing at byte {offset}")]
    Trailing { offset: u64 },
    #[error("out of memory")]
    Memory,
}

impl From<AllocError> for PrtFault {
    ghost from_gives = { λ _ fault. fault ≡ Memory };

    fn from(_fault: AllocError) -> PrtFault {
        PrtFault::Memory
    }
}

impl<T: Drop> From<AllocFailed<T>> for PrtFault {
    ghost from_gives = { λ _ fault. fault ≡ Memory };

    fn from(_fault: AllocFailed<T>) -> PrtFault {
        PrtFault::Memory
    }
}
