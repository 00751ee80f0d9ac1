//! A shelf in memory that never fails.

ghost use Rattle.std.specs.Prelude.{ℕ, ◌≡◌, ◌<◌, ◌≤◌, ◌+◌, [], List, length, Some, None, true, Err, IsOk, IsSome, IfOk, OnOk, OnErr};
ghost use Rattle.std.specs.Option.{option_copied};
ghost use Rattle.qm_surroundings.specs.Counts.{Stays, StaysElsewhere};
ghost use Rattle.qm_surroundings.specs.HeldFile.{bytes_of_file};
ghost use Rattle.qm_shelf.specs.Reads.{IsRead};
ghost use Rattle.qm_shelf.specs.Writes.{IsAdded};
ghost use Rattle.qm_shelf.specs.SureForms.{held};

use crate::file_map;
use crate::file_map::Files;
use crate::shelf::{FARTHEST_PLACE, Shelf, ShelfFault};
use std::alloc::{AllocError, Global};

/// A shelf in memory whose calls never answer `Failed`, so that its counts of faults are always 0. A
/// name that is not held reads as a file without bytes. Reading takes no memory.
#[derive(Drop)]
pub struct SureShelf {
    alloc: Global,
    files: Files,
}

impl SureShelf {
    /// A shelf that holds no files.
    pub fn new(alloc: Global) -> SureShelf
        ensures { (name : List ℕ) → held result name ≡ None }
    {
        SureShelf {
            alloc,
            files: Files::new(alloc),
        }
    }

    /// Makes a file hold these bytes, whether it was held or not. For want of memory nothing changes.
    pub fn put(&mut self, name: &str, bytes: &[u8]) -> Result<(), AllocError>
        ensures ok { OnOk result (held self.new name.now ≡ Some bytes.now) }
        ensures others_stay { StaysElsewhere name.now (held self.old) (held self.new) }
        ensures err { OnErr result (Stays (held self.old) (held self.new)) }
    {
        let bytes = bytes.to_vec(self.alloc)?;
        file_map::put(&mut self.files, self.alloc, name, bytes)
    }

    /// The bytes of a file, and `None` exactly where the name is not held.
    pub fn get<'a>(&'a self, name: &str) -> Option<&'a [u8]>
        ensures { option_copied result ≡ held self.now name.now }
    {
        file_map::bytes_of(&self.files, name)
    }
}

impl Shelf for SureShelf {
    ghost tells = { true };

    ghost held = { held };

    ghost read_faults = { λ shelf name. 0 };

    ghost write_faults = { λ shelf name. 0 };

    fn read(&mut self, name: &str, at: u64, into: &mut [u8]) -> Result<usize, ShelfFault>
        requires { at ≤ FARTHEST_PLACE }
        ensures succeeds { IsOk result }
        ensures ok { IfOk result (IsRead (held self.old name.now) at into.old into.new) }
        ensures all { IfOk result (λ count. count < length into.old → length (bytes_of_file (held self.old name.now)) ≤ at + count) }
        ensures held_stays { Stays (held self.old) (held self.new) }
    {
        match self.get(name) {
            Some(bytes) => Ok(file_map::copy_from(bytes, at as usize, u64::MAX, into)),
            None => Ok(0),
        }
    }

    fn create(&mut self, name: &str) -> Result<(), ShelfFault>
        ensures never_fails { result ≡ Err ShelfFault.Failed → ⊥ }
        ensures ok { OnOk result (held self.new name.now ≡ Some []) }
        ensures err { OnErr result (Stays (held self.old) (held self.new)) }
        ensures others_stay { StaysElsewhere name.now (held self.old) (held self.new) }
    {
        file_map::put(&mut self.files, self.alloc, name, Vec::new(self.alloc))?;
        Ok(())
    }

    fn append(&mut self, name: &str, bytes: &[u8]) -> Result<(), ShelfFault>
        requires { IsSome (held self.old name.now) }
        ensures never_fails { result ≡ Err ShelfFault.Failed → ⊥ }
        ensures ok { OnOk result (IsAdded (held self.old name.now) bytes.now (held self.new name.now)) }
        ensures err { OnErr result (Stays (held self.old) (held self.new)) }
        ensures others_stay { StaysElsewhere name.now (held self.old) (held self.new) }
    {
        file_map::append(&mut self.files, name, bytes)?;
        Ok(())
    }
}
