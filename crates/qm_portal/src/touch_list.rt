ghost use Rattle.std.specs.Prelude.{◌≡◌, ◌<◌, length, slice_get, slice_index_or, slice_set, false, Some, IfOk};
ghost use Rattle.qm_partition.specs.Tree.{Tree};
ghost use Rattle.qm_contacts.specs.Contacts.{AreContacts, AreNeighbours};

use crate::links::Rows;
use crate::neighbours::neighbour_rows;
use crate::touching::Touching;
use qm_bits::BitRow;
use std::alloc::{AllocError, Global};
use std::marker::Model;

/// All contacts of a tree: its touching pairs in order, and its leaves that touch the outside. The neighbours of each leaf
/// stand ready.
#[derive(Drop)]
pub struct TouchList {
    pairs: Vec<Touching>,
    outside: BitRow,
    /// The neighbours of each leaf.
    rows: Rows,
}

impl Model for TouchList {
    ghost use Rattle.std.specs.Prelude.{length};
    ghost use Rattle.qm_contacts.specs.Contacts.{Contacts};
    ghost use Rattle.qm_contacts.specs.inner.Others.{AreOthersInRows};

    ghost Value = { Contacts };

    ghost view = { λ list. record { touchings = list.pairs.items; outside = list.outside } };

    ghost invariant = { λ list. AreOthersInRows list.pairs.items (length list.outside) list.rows.begins.items list.rows.all.items };
}

impl TouchList {
    /// The list of these contacts, which are all contacts of a tree.
    pub(crate) fn of(
        alloc: Global,
        pairs: Vec<Touching>,
        outside: &[bool],
    ) -> Result<TouchList, AllocError>
        requires { (tree : Tree) × AreContacts tree (record { touchings = pairs.items; outside = outside.now }) }
        ensures { IfOk result (λ list. list ≡ record { touchings = pairs.items; outside = outside.now }) }
    {
        let rows = neighbour_rows(alloc, outside.len(), &pairs)?;
        let outside = row_of(alloc, outside)?;
        Ok(TouchList {
            pairs,
            outside,
            rows,
        })
    }

    /// How many leaves there are.
    pub fn leaves(&self) -> u64
        ensures { result ≡ length self.now.outside }
    {
        self.outside.len()
    }

    /// Whether a leaf touches the outside.
    pub fn outside(&self, leaf: u64) -> bool
        requires { leaf < length self.now.outside }
        ensures { result ≡ slice_index_or self.now.outside leaf false }
    {
        self.outside.get(leaf)
    }

    /// The leaves that a leaf touches, ascending.
    pub fn neighbours(&self, leaf: u64) -> &[u64]
        requires { leaf < length self.now.outside }
        ensures { (tree : Tree) → AreContacts tree self.now → AreNeighbours tree leaf result.now }
    {
        self.rows.row(leaf)
    }

    /// How many touching pairs there are.
    pub fn pairs(&self) -> u64
        ensures { result ≡ length self.now.touchings }
    {
        self.pairs.len() as u64
    }

    /// The touching pair at a place.
    pub fn pair(&self, i: u64) -> &Touching
        requires { i < length self.now.touchings }
        ensures { slice_get self.now.touchings i ≡ Some result.now }
    {
        &self.pairs[i as usize]
    }

    /// The touching pairs in order.
    pub(crate) fn touchings(&self) -> &[Touching]
        ensures { result.now ≡ self.now.touchings }
    {
        &self.pairs
    }
}

/// A row of truth values.
fn row_of(alloc: Global, values: &[bool]) -> Result<BitRow, AllocError>
    ensures { IfOk result (λ row. row ≡ values.now) }
{
    let mut row = BitRow::with_len(alloc, values.len() as u64)?;
    for i in 0..values.len() {
        put(&mut row, i as u64, values[i]);
    }
    Ok(row)
}

/// Puts a value at a place that is clear.
fn put(row: &mut BitRow, i: u64, value: bool)
    requires place { i < length row.old }
    requires clear { slice_index_or row.old i false ≡ false }
    ensures { row.new ≡ slice_set row.old i value }
{
    if value {
        row.set(i);
    }
}
