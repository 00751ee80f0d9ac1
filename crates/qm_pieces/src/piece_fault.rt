ghost use Rattle.std.specs.Prelude.{◌≡◌};
ghost use Rattle.qm_pieces.specs.declared.piece_fault.PieceFault.TheVariants.{Memory};

use std::alloc::AllocError;

/// Why the end of a text gives no token.
#[derive(Clone, Copy)]
pub enum PieceFault {
    /// A quote opens a token and is never closed.
    UnclosedQuote {
        /// The line of the quote. Lines count from 1.
        line: u64,
    },
    /// Memory ran out.
    Memory,
}

impl From<AllocError> for PieceFault {
    ghost from_gives = { λ _ e. e ≡ Memory };

    fn from(_e: AllocError) -> PieceFault {
        PieceFault::Memory
    }
}
