//! A shelf in memory, for tests, whose calls fail where the test says.

ghost use Rattle.std.specs.Prelude.{ℕ, ◌≡◌, ◌<◌, ◌≤◌, ◌+◌, ◌-◌, ◌^◌, ◌↔◌, ◌++◌, ◌∷◌, [], List, length, Option, Some, None, true, false, IsTrue, IsSome, IfOk, IfErr, OnOk, OnErr};
ghost use Rattle.std.specs.Option.{option_copied};
ghost use Rattle.qm_surroundings.specs.Counts.{Stays, StaysElsewhere};
ghost use Rattle.qm_surroundings.specs.HeldFile.{bytes_of_file};
ghost use Rattle.qm_shelf.specs.CallNumbers.{one_more};
ghost use Rattle.qm_shelf.specs.Reads.{IsRead};
ghost use Rattle.qm_shelf.specs.Writes.{IsAdded};
ghost use Rattle.qm_shelf.specs.MemoryShelf.{held, calls, failing, most_at_once, read_faults, write_faults, is_next_listed, does_read_fail, IsCallCounted, KeepsPlan};

use crate::calls::{Calls, one_more};
use crate::file_map;
use crate::file_map::Files;
use crate::shelf::{FARTHEST_PLACE, Shelf, ShelfFault};
use std::alloc::{AllocError, Global};
use std::num::NonZeroU64;

/// A shelf in memory. It numbers the calls of its trait from 0, and the number stays at 2^64 - 1 once
/// it is there. A call answers `Failed` exactly where its number is listed or it reads a name that is
/// not held; it then adds nothing and raises the one count that its kind has for all names, which
/// stays at 2^64 - 1 once it is there. No other call raises a count. A read gives as many bytes as there are and as fit, but
/// no more than were said to be the most.
#[derive(Drop)]
pub struct MemShelf {
    alloc: Global,
    files: Files,
    calls: Calls,
    most: NonZeroU64,
    read_faults: u64,
    write_faults: u64,
}

impl MemShelf {
    /// A shelf that holds no files, before its call number 0, none of whose calls is to fail, and whose reads give up to
    /// 2^64 - 1 bytes.
    pub fn new(alloc: Global) -> MemShelf
        ensures held { (name : List ℕ) → held result name ≡ None }
        ensures calls { calls result ≡ 0 }
        ensures failing { failing result ≡ [] }
        ensures most { most_at_once result ≡ 2 ^ 64 - 1 }
        ensures read_faults { read_faults result ≡ 0 }
        ensures write_faults { write_faults result ≡ 0 }
    {
        MemShelf {
            alloc,
            files: Files::new(alloc),
            calls: Calls::new(alloc),
            most: NonZeroU64::MAX,
            read_faults: 0,
            write_faults: 0,
        }
    }

    /// Makes a file hold these bytes, whether it was held or not. This is none of the calls that are
    /// numbered. For want of memory nothing changes.
    pub fn put(&mut self, name: &str, bytes: &[u8]) -> Result<(), AllocError>
        ensures ok { OnOk result (held self.new name.now ≡ Some bytes.now) }
        ensures others_stay { StaysElsewhere name.now (held self.old) (held self.new) }
        ensures err { OnErr result (Stays (held self.old) (held self.new)) }
        ensures plan_stays { KeepsPlan self.old self.new }
        ensures most_stays { most_at_once self.new ≡ most_at_once self.old }
    {
        let bytes = bytes.to_vec(self.alloc)?;
        file_map::put(&mut self.files, self.alloc, name, bytes)
    }

    /// The bytes of a file, and `None` exactly where the name is not held.
    pub fn get<'a>(&'a self, name: &str) -> Option<&'a [u8]>
        ensures { option_copied result ≡ held self.now name.now }
    {
        file_map::bytes_of(&self.files, name)
    }

    /// Lists the number of a call that is to fail. For want of memory nothing changes.
    pub fn fail_call(&mut self, call: u64) -> Result<(), AllocError>
        ensures ok { OnOk result (failing self.new ≡ failing self.old ++ call ∷ []) }
        ensures err { OnErr result (failing self.new ≡ failing self.old) }
        ensures held_stays { Stays (held self.old) (held self.new) }
        ensures calls_stay { calls self.new ≡ calls self.old }
        ensures read_faults_stay { read_faults self.new ≡ read_faults self.old }
        ensures write_faults_stay { write_faults self.new ≡ write_faults self.old }
        ensures most_stays { most_at_once self.new ≡ most_at_once self.old }
    {
        self.calls.fail(call)
    }

    /// From now on each read gives at most so many bytes. It takes no memory.
    pub fn at_most(&mut self, most: u64)
        requires { 0 < most }
        ensures most { most_at_once self.new ≡ most }
        ensures held_stays { Stays (held self.old) (held self.new) }
        ensures plan_stays { KeepsPlan self.old self.new }
    {
        match NonZeroU64::new(most) {
            Some(most) => self.most = most,
            None => unreachable!(),
        }
    }

    /// How many calls of the trait were made, those that failed too: the number of the next. It stays at 2^64 - 1 once it is there.
    pub fn calls(&self) -> u64
        ensures { result ≡ calls self.now }
    {
        self.calls.made()
    }

    /// How many reads failed.
    pub fn read_faults(&self) -> u64
        ensures { result ≡ read_faults self.now }
    {
        self.read_faults
    }

    /// How many creations and additions failed.
    pub fn write_faults(&self) -> u64
        ensures { result ≡ write_faults self.now }
    {
        self.write_faults
    }

    /// Counts that a creation or an addition failed.
    fn write_fault(&mut self) -> ShelfFault
        ensures fault { result ≡ ShelfFault.Failed }
        ensures counted { self.new ≡ record self.old { write_faults = one_more (write_faults self.old) } }
    {
        self.write_faults = one_more(self.write_faults);
        ShelfFault::Failed
    }
}

impl Shelf for MemShelf {
    ghost tells = { true };

    ghost held = { held };

    ghost read_faults = { λ shelf name. read_faults shelf };

    ghost write_faults = { λ shelf name. write_faults shelf };

    fn read(&mut self, name: &str, at: u64, into: &mut [u8]) -> Result<usize, ShelfFault>
        requires { at ≤ FARTHEST_PLACE }
        ensures fails { result ≡ Err ShelfFault.Failed ↔ IsTrue (does_read_fail self.old name.now) }
        ensures takes_no_memory { IfErr result (λ fault. fault ≡ ShelfFault.Failed) }
        ensures ok { IfOk result (IsRead (held self.old name.now) at into.old into.new) }
        ensures most { IfOk result (λ count. count ≤ most_at_once self.old) }
        ensures all { IfOk result (λ count. count < most_at_once self.old → count < length into.old → length (bytes_of_file (held self.old name.now)) ≤ at + count) }
        ensures most_stays { most_at_once self.new ≡ most_at_once self.old }
        ensures err { OnErr result (into.new ≡ into.old) }
        ensures held_stays { Stays (held self.old) (held self.new) }
        ensures counted { IsCallCounted self.old self.new (does_read_fail self.old name.now) false }
    {
        if !self.calls.begin()
            && let Some(bytes) = self.get(name)
        {
            let most = self.most.get();
            return Ok(file_map::copy_from(bytes, at as usize, most, into));
        }
        self.read_faults = one_more(self.read_faults);
        Err(ShelfFault::Failed)
    }

    fn create(&mut self, name: &str) -> Result<(), ShelfFault>
        ensures fails { result ≡ Err ShelfFault.Failed ↔ IsTrue (is_next_listed self.old) }
        ensures ok { OnOk result (held self.new name.now ≡ Some []) }
        ensures err { OnErr result (Stays (held self.old) (held self.new)) }
        ensures others_stay { StaysElsewhere name.now (held self.old) (held self.new) }
        ensures counted { IsCallCounted self.old self.new false (is_next_listed self.old) }
        ensures most_stays { most_at_once self.new ≡ most_at_once self.old }
    {
        if self.calls.begin() {
            return Err(self.write_fault());
        }
        file_map::put(&mut self.files, self.alloc, name, Vec::new(self.alloc))?;
        Ok(())
    }

    fn append(&mut self, name: &str, bytes: &[u8]) -> Result<(), ShelfFault>
        requires { IsSome (held self.old name.now) }
        ensures fails { result ≡ Err ShelfFault.Failed ↔ IsTrue (is_next_listed self.old) }
        ensures ok { OnOk result (IsAdded (held self.old name.now) bytes.now (held self.new name.now)) }
        ensures err { OnErr result (Stays (held self.old) (held self.new)) }
        ensures others_stay { StaysElsewhere name.now (held self.old) (held self.new) }
        ensures counted { IsCallCounted self.old self.new false (is_next_listed self.old) }
        ensures most_stays { most_at_once self.new ≡ most_at_once self.old }
    {
        if self.calls.begin() {
            return Err(self.write_fault());
        }
        file_map::append(&mut self.files, name, bytes)?;
        Ok(())
    }
}
