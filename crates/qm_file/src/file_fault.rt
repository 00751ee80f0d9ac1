ghost use Rattle.std.specs.Prelude.{◌≡◌, length};
ghost use Rattle.qm_file.specs.declared.file_fault.FileFault.TheVariants.{Short, Memory};

use crate::field_reading::CutOff;
use std::alloc::{AllocError, AllocFailed};
use thiserror::Error;

/// Why bytes are no tree file: the first fault in the order of its parts, and its place.
#[derive(Clone, Copy, Debug, PartialEq, Eq, Error)]
pub enum FileFault {
    /// The bytes end inside a part that is due.
    #[error("short at byte {offset}")]
    Short { offset: u64 },
    /// The magic bytes differ.
    #[error("magic at byte {offset}")]
    Magic { offset: u64 },
    /// A count is one that no tree has, or the rows byte is above 1.
    #[error("counts at byte {offset}")]
    Counts { offset: u64 },
    /// Half the size of the world's cube is neither of the two that are known.
    #[error("header form at byte {offset}")]
    HeaderForm { offset: u64 },
    /// A plane is not in lowest terms, too large, or leads with a negative component.
    #[error("plane form at byte {offset}")]
    PlaneForm { offset: u64 },
    /// The nodes are not those of one tree, numbered front first, or name planes that are not there.
    #[error("node order at byte {offset}")]
    NodeOrder { offset: u64 },
    /// A leaf has no contents, or is filled and not solid.
    #[error("leaf form at byte {offset}")]
    LeafForm { offset: u64 },
    /// A row is not spelt in runs, has a place past the numbered leaves, or lacks its own.
    #[error("row form at byte {offset}")]
    RowForm { offset: u64 },
    /// The kind of a section is 0, or not above the kind of the one before.
    #[error("section form at byte {offset}")]
    SectionForm { offset: u64 },
    /// Bytes follow.
    #[error("trailing at byte {offset}")]
    Trailing { offset: u64 },
    /// There are too many bytes.
    #[error("too long at byte {offset}")]
    TooLong { offset: u64 },
    #[error("out of memory")]
    Memory,
}

impl From<AllocError> for FileFault {
    ghost from_gives = { λ _ fault. fault ≡ Memory };

    fn from(_fault: AllocError) -> FileFault {
        FileFault::Memory
    }
}

impl<T: Drop> From<AllocFailed<T>> for FileFault {
    ghost from_gives = { λ _ fault. fault ≡ Memory };

    fn from(_fault: AllocFailed<T>) -> FileFault {
        FileFault::Memory
    }
}

impl From<CutOff> for FileFault {
    ghost from_gives = { λ cut fault. fault ≡ Short cut.offset };

    fn from(cut: CutOff) -> FileFault {
        FileFault::Short { offset: cut.offset }
    }
}

/// The fault of bytes that end too early.
pub(crate) fn short(bytes: &[u8]) -> FileFault
    ensures { result ≡ FileFault.Short (length bytes.now) }
{
    FileFault::Short {
        offset: bytes.len() as u64,
    }
}
