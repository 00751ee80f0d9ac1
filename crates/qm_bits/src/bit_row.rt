ghost use Rattle.std.specs.Prelude.{◌≡◌, ◌<◌, ◌*◌, ◌↔◌, length, replicate, slice_index_or, slice_set, true, false, IfOk};
ghost use Rattle.std.specs.List.{count_by};
ghost use Rattle.qm_lists.specs.CutTo.{IsCutTo};
ghost use Rattle.qm_lists.specs.Union.{IsUnion};
ghost use Rattle.qm_lists.specs.Unseen.{HasUnseen};
ghost use Rattle.qm_lists.specs.Word.{IsMasked, IsWord};

use crate::words;
use std::alloc::{AllocError, Global};
use std::marker::Model;

/// A truth value for each of so many places, kept as the bits of words of 64. Contracts see it as the list of these
/// values.
#[derive(Drop)]
pub struct BitRow {
    /// The bit of place `i` is bit `i % 64` of word `i / 64`; bits past the last place are 0.
    words: Vec<u64>,
    /// How many places there are.
    len: u64,
}

impl Model for BitRow {
    ghost use Rattle.std.specs.Prelude.{List, Bool};
    ghost use Rattle.qm_bits.specs.inner.Rows.{row_of, IsRow};

    ghost Value = { List Bool };

    ghost view = { λ row. row_of row.words.items row.len };

    ghost invariant = { λ row. IsRow row.words.items row.len };
}

impl BitRow {
    /// A row of `bits` places, all of them clear.
    pub fn with_len(alloc: Global, bits: u64) -> Result<BitRow, AllocError>
        ensures { IfOk result (λ row. row ≡ replicate bits false) }
    {
        let words = vec![in alloc; 0; bits.div_ceil(64) as usize]?;
        Ok(BitRow { words, len: bits })
    }

    /// A row of `bits` places, all of them set.
    pub fn full(alloc: Global, bits: u64) -> Result<BitRow, AllocError>
        ensures { IfOk result (λ row. row ≡ replicate bits true) }
    {
        let mut row = BitRow::with_len(alloc, bits)?;
        for place in 0..bits {
            row.set(place);
        }
        Ok(row)
    }

    /// How many places there are.
    pub fn len(&self) -> u64
        ensures { result ≡ length self.now }
    {
        self.len
    }

    /// Whether place `i` is set.
    pub fn get(&self, i: u64) -> bool
        requires { i < length self.now }
        ensures { result ≡ slice_index_or self.now i false }
    {
        (self.words[(i / 64) as usize] >> (i % 64)) & 1 == 1
    }

    /// Sets place `i`. All others stay.
    pub fn set(&mut self, i: u64)
        requires { i < length self.old }
        ensures { self.new ≡ slice_set self.old i true }
    {
        self.words[(i / 64) as usize] |= 1 << (i % 64);
    }

    /// Word `k`: its bits are the places from `64 * k` on, and past the end of the row they are 0.
    pub fn word(&self, k: u64) -> u64
        requires { 64 * k < length self.now }
        ensures { IsWord self.now k result }
    {
        self.words[k as usize]
    }

    /// Clears the places of word `k` whose bit of the mask is 0. All others stay.
    pub fn and_word(&mut self, k: u64, mask: u64)
        requires { 64 * k < length self.old }
        ensures { IsMasked self.old self.new k mask }
    {
        self.words[k as usize] &= mask;
    }

    /// How many places are set.
    pub fn count(&self) -> u64
        ensures { result ≡ count_by (λ set. set) self.now }
    {
        words::count(&self.words)
    }

    /// Sets each place that is set in `other`. All others stay.
    pub fn or_row(&mut self, other: &BitRow)
        requires { length other.now ≡ length self.old }
        ensures { IsUnion self.old other.now self.new }
    {
        words::set_all(&mut self.words, &other.words)
    }

    /// Clears each place that is clear in `other`. All others stay.
    pub fn and_row(&mut self, other: &BitRow)
        requires { length other.now ≡ length self.old }
        ensures { IsCutTo other.now self.old self.new }
    {
        words::keep_all(&mut self.words, &other.words)
    }

    /// Clears all places.
    pub fn clear(&mut self)
        ensures { self.new ≡ replicate (length self.old) false }
    {
        words::clear_all(&mut self.words)
    }

    /// Makes the row the same as `other`.
    pub fn copy_from(&mut self, other: &BitRow)
        requires { length other.now ≡ length self.old }
        ensures { self.new ≡ other.now }
    {
        self.words.copy_from_slice(&other.words)
    }

    /// Whether some place is set here and clear in `seen`.
    pub fn has_new(&self, seen: &BitRow) -> bool
        requires { length seen.now ≡ length self.now }
        ensures { (result ≡ true) ↔ HasUnseen self.now seen.now }
    {
        words::have_new(&self.words, &seen.words)
    }
}
