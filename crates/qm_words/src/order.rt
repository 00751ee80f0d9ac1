ghost use Rattle.std.specs.Prelude.{◌≡◌};
ghost use Rattle.qm_words.specs.declared.order.WordsFault.TheVariants.{Memory};

use qm_commands::Query;
use std::alloc::{AllocError, AllocFailed};

/// What the words of a command ask for.
#[derive(Drop)]
pub enum Order<'a> {
    /// The tree file of a map, and a listing of its world where one is asked for.
    Compile {
        map: &'a str,
        out: &'a str,
        prt: Option<&'a str>,
        threads: u8,
        fast: bool,
        hulls: bool,
        models: bool,
        faces: bool,
    },
    /// Answers from a tree file.
    Inspect {
        tree: &'a str,
        queries: Vec<Query>,
    },
    /// The canonical text of a map.
    Format {
        map: &'a str,
        out: &'a str,
    },
    /// The summary of a generated map.
    Demo {
        rooms: u32,
        number: u64,
    },
    /// A tree file in version 2.
    Upgrade {
        tree: &'a str,
        out: &'a str,
    },
}

/// Why words are not read.
#[derive(Clone, Copy)]
pub enum WordsFault {
    /// They are no command.
    Usage,
    Memory,
}

impl From<AllocError> for WordsFault {
    ghost from_gives = { λ _ fault. fault ≡ Memory };

    fn from(_fault: AllocError) -> WordsFault {
        WordsFault::Memory
    }
}

impl<T: Drop> From<AllocFailed<T>> for WordsFault {
    ghost from_gives = { λ _ fault. fault ≡ Memory };

    fn from(_fault: AllocFailed<T>) -> WordsFault {
        WordsFault::Memory
    }
}
