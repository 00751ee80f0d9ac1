ghost use Rattle.std.specs.Prelude.{◌≡◌, length};
ghost use Rattle.qm_model_file.specs.declared.models_fault.ModelsFault.TheVariants.{Short, Memory};

use qm_file::CutOff;
use std::alloc::{AllocError, AllocFailed};
use thiserror::Error;

/// Why bytes are no section of brush models: the first fault in their order, and its place.
#[derive(Clone, Copy, Debug, PartialEq, Eq, Error)]
pub enum ModelsFault {
    /// The bytes end inside a field that is due. The place is their end.
    #[error("short at byte {offset}")]
    Short { offset: u64 },
    /// A model whose bytes are all there cannot stand in this section. The place is its first byte.
    #[error("form at byte {offset}")]
    Form { offset: u64 },
    /// Bytes follow the last model.
    #[error("trailing at byte {offset}")]
    Trailing { offset: u64 },
    #[error("out of memory")]
    Memory,
}

impl From<AllocError> for ModelsFault {
    ghost from_gives = { λ _ fault. fault ≡ Memory };

    fn from(_fault: AllocError) -> ModelsFault {
        ModelsFault::Memory
    }
}

impl<T: Drop> From<AllocFailed<T>> for ModelsFault {
    ghost from_gives = { λ _ fault. fault ≡ Memory };

    fn from(_fault: AllocFailed<T>) -> ModelsFault {
        ModelsFault::Memory
    }
}

impl From<CutOff> for ModelsFault {
    ghost from_gives = { λ cut fault. fault ≡ Short cut.offset };

    fn from(cut: CutOff) -> ModelsFault {
        ModelsFault::Short { offset: cut.offset }
    }
}

/// The fault of bytes that end too early.
pub(crate) fn short(bytes: &[u8]) -> ModelsFault
    ensures { result ≡ ModelsFault.Short (length bytes.now) }
{
    ModelsFault::Short {
        offset: bytes.len() as u64,
    }
}
