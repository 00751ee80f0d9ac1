//! The shelf over the real folder in which the program runs.

ghost use Rattle.std.specs.Prelude.{ℕ, ◌≡◌, ◌≤◌, List, length, None, false, IsTrue, IfOk, IfErr, OnErr, MatchResult};
ghost use Rattle.qm_shelf.specs.CallNumbers.{one_more};
ghost use Rattle.qm_shelf.specs.FaultCounts.{ShelfCounted};
ghost use Rattle.qm_shelf.specs.Reads.{IsRead};
ghost use Rattle.qm_shelf.specs.Writes.{IsEmptied, IsKeptOrEmptied, IsAdded, IsPrefixAdded};

use crate::calls::one_more;
use crate::open_file::{OpenFile, open_at, read_once};
use crate::shelf::{Shelf, ShelfFault};
use std::fs::File;
use std::io::Write;
use std::rt::Files;
use std::{fs, io};

/// The files of the real folder. It tells nothing of what they hold. It has one count of faults for
/// each kind, over all names, which rises by one at each error and stays at 2^64 - 1 once it is there.
/// To read a name that is not there is an error, and so is to append to it.
///
/// A read that goes on where the last one ended, with no write between them, neither opens the file again
/// nor seeks in it, so that a pipe can be read in order. A read from the start opens the file.
#[derive(Drop)]
pub struct FolderShelf<'a, R: Files> {
    rt: &'a R,
    /// The file that was read last.
    reading: Option<OpenFile<R::File>>,
    read_faults: u64,
    write_faults: u64,
}

impl<'a, R: Files> FolderShelf<'a, R> {
    /// The folder, before any fault. It takes no memory.
    pub fn over(rt: &'a R) -> FolderShelf<'a, R>
        ensures read_faults { (name : List ℕ) → ⟦<FolderShelf<'a, R> as Shelf>⟧.read_faults result name ≡ 0 }
        ensures write_faults { (name : List ℕ) → ⟦<FolderShelf<'a, R> as Shelf>⟧.write_faults result name ≡ 0 }
    {
        FolderShelf {
            rt,
            reading: None,
            read_faults: 0,
            write_faults: 0,
        }
    }

    /// Reads once from a file, from place `at` on, and answers how many bytes came.
    fn read_file(&mut self, name: &str, at: u64, into: &mut [u8]) -> io::Result<usize>
        ensures count { IfOk result (λ count. count ≤ length into.new) }
        ensures read_faults_stay { self.new.read_faults ≡ self.old.read_faults }
        ensures write_faults_stay { self.new.write_faults ≡ self.old.write_faults }
    {
        let mut file = match self.take_file(name, at) {
            Some(file) => file,
            None => open_at(self.rt, name, at)?,
        };
        let count = read_once(&mut file, into)?;
        self.reading = OpenFile::keep(name, file, at.saturating_add(count as u64));
        Ok(count)
    }

    /// Takes the file that was read last, where it goes on from place `at`, and else closes it.
    fn take_file(&mut self, name: &str, at: u64) -> Option<R::File>
        ensures read_faults_stay { self.new.read_faults ≡ self.old.read_faults }
        ensures write_faults_stay { self.new.write_faults ≡ self.old.write_faults }
    {
        self.reading.take()?.at(name, at)
    }
}

impl<'a, R: Files> Shelf for FolderShelf<'a, R> {
    ghost tells = { false };

    ghost held = { λ shelf name. None };

    ghost read_faults = { λ shelf name. shelf.read_faults };

    ghost write_faults = { λ shelf name. shelf.write_faults };

    fn read(&mut self, name: &str, at: u64, into: &mut [u8]) -> Result<usize, ShelfFault>
        ensures bytes { IsTrue false → MatchResult result (IsRead None at into.old into.new) (λ _. into.new ≡ into.old) }
        ensures count { IfOk result (λ count. count ≤ length into.new) }
        ensures read_faults_never_fall { (name : List ℕ) → self.old.read_faults ≤ self.new.read_faults }
        ensures read_faults_counted { ShelfCounted result name.now (λ _. self.old.read_faults) (λ _. self.new.read_faults) }
        ensures write_faults_stay { (name : List ℕ) → self.new.write_faults ≡ self.old.write_faults }
        ensures takes_no_memory { IfErr result (λ fault. fault ≡ ShelfFault.Failed) }
        ensures by_one { OnErr result (self.new.read_faults ≡ one_more self.old.read_faults) }
    {
        match self.read_file(name, at, into) {
            Ok(count) => Ok(count),
            Err(_) => {
                self.read_faults = one_more(self.read_faults);
                Err(ShelfFault::Failed)
            }
        }
    }

    fn create(&mut self, name: &str) -> Result<(), ShelfFault>
        ensures bytes { IsTrue false → MatchResult result (λ _. IsEmptied None) (λ _. IsKeptOrEmptied None None) }
        ensures read_faults_stay { (name : List ℕ) → self.new.read_faults ≡ self.old.read_faults }
        ensures write_faults_never_fall { (name : List ℕ) → self.old.write_faults ≤ self.new.write_faults }
        ensures write_faults_counted { ShelfCounted result name.now (λ _. self.old.write_faults) (λ _. self.new.write_faults) }
        ensures takes_no_memory { IfErr result (λ fault. fault ≡ ShelfFault.Failed) }
        ensures by_one { OnErr result (self.new.write_faults ≡ one_more self.old.write_faults) }
    {
        self.reading = None;
        match fs::create(self.rt, name) {
            Ok(_) => Ok(()),
            Err(_) => {
                self.write_faults = one_more(self.write_faults);
                Err(ShelfFault::Failed)
            }
        }
    }

    fn append(&mut self, name: &str, bytes: &[u8]) -> Result<(), ShelfFault>
        ensures bytes { IsTrue false → MatchResult result (λ _. IsAdded None bytes.now None) (λ _. IsPrefixAdded None bytes.now None) }
        ensures read_faults_stay { (name : List ℕ) → self.new.read_faults ≡ self.old.read_faults }
        ensures write_faults_never_fall { (name : List ℕ) → self.old.write_faults ≤ self.new.write_faults }
        ensures write_faults_counted { ShelfCounted result name.now (λ _. self.old.write_faults) (λ _. self.new.write_faults) }
        ensures takes_no_memory { IfErr result (λ fault. fault ≡ ShelfFault.Failed) }
        ensures by_one { OnErr result (self.new.write_faults ≡ one_more self.old.write_faults) }
    {
        self.reading = None;
        match append_to_file(self.rt, name, bytes) {
            Ok(()) => Ok(()),
            Err(_) => {
                self.write_faults = one_more(self.write_faults);
                Err(ShelfFault::Failed)
            }
        }
    }
}

/// Adds bytes at the end of a file that is there.
fn append_to_file<R: Files>(rt: &R, name: &str, bytes: &[u8]) -> io::Result<()> {
    let mut file = File::options().append(true).open(rt, name)?;
    file.write_all(bytes)
}
