ghost use Rattle.std.specs.Prelude.{◌≡◌};
ghost use Rattle.qm_face_file.specs.declared.faces_fault.FacesFault.TheVariants.{Short, Memory};

use qm_file::CutOff;
use std::alloc::{AllocError, AllocFailed};
use thiserror::Error;

/// Why bytes are no section of faces: the first fault in their order, and its place.
#[derive(Clone, Copy, Debug, PartialEq, Eq, Error)]
pub enum FacesFault {
    /// The bytes end inside a field that is due. The place is their end.
    #[error("short at byte {offset}")]
    Short { offset: u64 },
    /// A face whose bytes are all there cannot stand in this section. The place is its first byte.
    #[error("form at byte {offset}")]
    Form { offset: u64 },
    /// Bytes follow the last face.
    #[error("trailing at byte {offset}")]
    Trailing { offset: u64 },
    #[error("out of memory")]
    Memory,
}

impl From<AllocError> for FacesFault {
    ghost from_gives = { λ _ fault. fault ≡ Memory };

    fn from(_fault: AllocError) -> FacesFault {
        FacesFault::Memory
    }
}

impl<T: Drop> From<AllocFailed<T>> for FacesFault {
    ghost from_gives = { λ _ fault. fault ≡ Memory };

    fn from(_fault: AllocFailed<T>) -> FacesFault {
        FacesFault::Memory
    }
}

impl From<CutOff> for FacesFault {
    ghost from_gives = { λ cut fault. fault ≡ Short cut.offset };

    fn from(cut: CutOff) -> FacesFault {
        FacesFault::Short { offset: cut.offset }
    }
}
