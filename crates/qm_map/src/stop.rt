ghost use Rattle.std.specs.Prelude.{◌≡◌};
ghost use Rattle.qm_map.specs.declared.stop.Stop.TheVariants.{Refused, Memory};

use qm_grammar::Refusal;
use std::alloc::{AllocError, AllocFailed};

/// Why a token does not lead further.
pub enum Stop {
    /// It is refused.
    Refused(Refusal),
    /// Memory ran out.
    Memory,
}

impl From<AllocError> for Stop {
    ghost from_gives = { λ _ e. e ≡ Memory };

    fn from(_e: AllocError) -> Stop {
        Stop::Memory
    }
}

impl<T: Drop> From<AllocFailed<T>> for Stop {
    ghost from_gives = { λ _ e. e ≡ Memory };

    fn from(_e: AllocFailed<T>) -> Stop {
        Stop::Memory
    }
}

impl From<Refusal> for Stop {
    ghost from_gives = { λ reason e. e ≡ Refused reason };

    fn from(reason: Refusal) -> Stop {
        Stop::Refused(reason)
    }
}
