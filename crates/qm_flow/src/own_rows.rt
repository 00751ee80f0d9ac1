//! The rows that a flow has of its own, and how a row is read.

ghost use Rattle.std.specs.Prelude.{ℕ, ◌≡◌, ◌<◌, ◌+◌, ◌*◌, length, replicate, true, false, Some, None, slice_set, IfOk, OnOk};
ghost use Rattle.qm_lists.specs.Word.{has_bit};
ghost use Rattle.qm_contacts.specs.NumberedLeaves.{numbered_leaves};
ghost use Rattle.qm_contacts.specs.World.{World};
ghost use Rattle.qm_chains.specs.inner.OwnRows.{AreOwnRows, MustHave, CanHave};
ghost use Rattle.qm_sight.specs.WordInSight.{ceiling_of};

use qm_bits::BitRow;
use qm_sight::RowSource;
use std::alloc::{AllocError, Global};
use std::marker::Model;

/// What stands for the row of a portal in a flow's own.
#[derive(Drop)]
pub(crate) enum Place {
    /// There is none yet.
    NotYet,
    /// The portal is barred: its row is clear, with so many leaves.
    Barred { leaves: u64 },
    /// The row that was made, by its number.
    Row { number: u64 },
}

/// What is to be done for the row of a portal before a chain goes on through it.
pub(crate) enum Due {
    /// The row is to be made.
    Row,
    /// A search is to narrow the row.
    Search,
}

/// How often a portal has passed the cheap tests of a try when a search is due for the row of its pair: each time four times as
/// often as the time before.
const SEARCH_TIMES: [u32; 4] = [24, 96, 384, 1_536];

/// What is due for the row of a portal that has now passed the cheap tests so often. A row is made the second time, since it would
/// not pay for a portal that passes them once; and a search pays where chains come to a portal again and again.
fn due_at(place: &Place, passed: u32) -> Option<Due> {
    match place {
        Place::NotYet => {
            if passed == 1 {
                return None;
            }
            Some(Due::Row)
        }
        Place::Barred { .. } => None,
        Place::Row { .. } => {
            if !SEARCH_TIMES.contains(&passed) {
                return None;
            }
            Some(Due::Search)
        }
    }
}

/// For each portal a row of the flow's own, or none yet, and then the source answers. What stands for a row is short, so that what
/// stands for all of them is soon read; the rows that were made lie in a list of their own. Beside them is how often each portal
/// has passed the cheap tests of a try.
pub(crate) struct OwnRows {
    places: Vec<Place>,
    rows: Vec<BitRow>,
    passed: Vec<u32>,
}

impl Model for OwnRows {
    ghost use Rattle.std.specs.Prelude.{◌≡◌, List, Option, Bool, All, length};
    ghost use Rattle.qm_flow.specs.inner.OwnRow.{own_rows, IsAmong};

    ghost Value = { List (Option (List Bool)) };

    ghost view = { λ own. own_rows own.rows.items own.places.items };

    ghost invariant = { λ own. All (IsAmong own.rows.items) own.places.items × (length own.passed.items ≡ length own.places.items) };
}

// Written out, so that a function that owns one calls this where it ends: a derived drop would be proved anew at each exit.
impl Drop for OwnRows {
    fn drop(self) {
        let OwnRows {
            places: _,
            rows: _,
            passed: _,
        } = self;
    }
}

impl OwnRows {
    /// No row yet for any of so many portals.
    pub(crate) fn none(alloc: Global, portals: u64) -> Result<OwnRows, AllocError>
        ensures { IfOk result (λ own. own ≡ replicate portals None) }
    {
        let mut places = Vec::with_capacity(alloc, portals as usize)?;
        for _portal in 0..portals {
            places.push(Place::NotYet)?;
        }
        let passed = vec![in alloc; 0; portals as usize]?;
        Ok(OwnRows {
            places,
            rows: Vec::new(alloc),
            passed,
        })
    }

    /// Notes that a portal has passed the cheap tests once more: what is due for its row.
    pub(crate) fn note(&mut self, portal: u64) -> Option<Due>
        requires { portal < length self.old }
        ensures { self.new ≡ self.old }
    {
        let passed = self.passed[portal as usize].saturating_add(1);
        self.passed[portal as usize] = passed;
        due_at(&self.places[portal as usize], passed)
    }

    /// Puts the row of a portal. One that was there lies unused.
    pub(crate) fn put(&mut self, portal: u64, row: BitRow) -> Result<(), AllocError>
        requires { portal < length self.old }
        ensures { OnOk result (self.new ≡ slice_set self.old portal (Some row)) }
    {
        let number = self.rows.len() as u64;
        self.rows.push(row)?;
        self.places[portal as usize] = Place::Row { number };
        Ok(())
    }

    /// Bars a portal: a clear row with so many leaves is its own.
    pub(crate) fn bar(&mut self, portal: u64, leaves: u64)
        requires { portal < length self.old }
        ensures { self.new ≡ slice_set self.old portal (Some (replicate leaves false)) }
    {
        self.places[portal as usize] = Place::Barred { leaves };
    }

    /// Whether a portal is barred, so that no answer must have a leaf.
    pub(crate) fn is_barred(&self, portal: u64) -> bool
        requires { portal < length self.now }
        ensures { result ≡ true → (world : World) (n : ℕ) → MustHave world self.now portal n → ⊥ }
    {
        match &self.places[portal as usize] {
            Place::Barred { .. } => true,
            _ => false,
        }
    }

    /// Word `k` of the row of a portal: of the one that is there, and else as the source answers it.
    pub(crate) fn word<S: RowSource>(&self, source: &mut S, portal: u64, k: u64) -> u64
        requires portal { portal < length self.now }
        requires own { AreOwnRows (S.world source.old) self.now }
        requires word { 64 * k < length (numbered_leaves (S.world source.old).tree) }
        ensures sound { (bit : ℕ) → bit < 64 → MustHave (S.world source.old) self.now portal (64 * k + bit) → has_bit result bit ≡ true }
        ensures within { (bit : ℕ) → bit < 64 → has_bit result bit ≡ true → CanHave (ceiling_of (S.ceilings source.old) portal) self.now portal (64 * k + bit) }
        ensures on { S.goes_on source.old source.new }
    {
        match &self.places[portal as usize] {
            Place::NotYet => source.word(portal, k),
            Place::Barred { .. } => 0,
            Place::Row { number } => {
                let row = &self.rows[*number as usize];
                row.word(k)
            }
        }
    }
}
