//! Rows of a flow, word by word.

ghost use Rattle.std.specs.Prelude.{◌≡◌, ◌↔◌, ◌⊎◌, ◌*◌, ◌<◌, true, false, length, slice_set, OnOk};
ghost use Rattle.std.specs.List.Sorted.{IsPermutation};
ghost use Rattle.qm_lists.specs.Unseen.{HasUnseen};
ghost use Rattle.qm_lists.specs.Word.{IsWord};
ghost use Rattle.qm_lists.specs.WorkList.{IsIn};
ghost use Rattle.qm_contacts.specs.NumberedLeaves.{numbered_leaves};
ghost use Rattle.qm_chains.specs.inner.Narrowing.{IsNarrowed, IsWithout, ShowsNothingNew};
ghost use Rattle.qm_chains.specs.inner.OwnRows.{AreOwnRows, MustHave, CanHave};
ghost use Rattle.qm_sight.specs.WordInSight.{ceiling_of};
ghost use Rattle.qm_flow.specs.inner.NewWords.{HaveAllNew};

use crate::own_rows::OwnRows;
use qm_bits::BitRow;
use qm_sight::RowSource;
use std::alloc::{AllocError, Global};

/// Narrows a mask by the row of a portal. Where the mask has no leaf, nothing is read.
pub(crate) fn narrow<S: RowSource>(own: &OwnRows, source: &mut S, portal: u64, mask: &mut BitRow)
    requires portal { portal < length own.now }
    requires own { AreOwnRows (S.world source.old) own.now }
    requires wide { length mask.old ≡ length (numbered_leaves (S.world source.old).tree) }
    ensures narrowed { IsNarrowed (MustHave (S.world source.old) own.now portal) (CanHave (ceiling_of (S.ceilings source.old) portal) own.now portal) mask.old mask.new }
    ensures on { S.goes_on source.old source.new }
{
    for k in 0..mask.len().div_ceil(64) {
        if mask.word(k) != 0 {
            let word = own.word(source, portal, k);
            mask.and_word(k, word);
        }
    }
}

/// Makes a row a copy of another one, however long it was.
pub(crate) fn copy_row(alloc: Global, row: &mut BitRow, other: &BitRow) -> Result<(), AllocError>
    ensures { OnOk result (row.new ≡ other.now) }
{
    if row.len() != other.len() {
        *row = BitRow::with_len(alloc, other.len())?;
    }
    row.copy_from(other);
    Ok(())
}

/// Takes the leaves of another row out of a row.
pub(crate) fn take_out(row: &mut BitRow, other: &BitRow)
    requires { length other.now ≡ length row.old }
    ensures { IsNarrowed (λ n. IsIn other.now n → ⊥) (λ n. IsIn other.now n → ⊥) row.old row.new }
{
    for k in 0..row.len().div_ceil(64) {
        let word = other.word(k);
        row.and_word(k, !word);
    }
}

/// Takes one leaf out of a row.
pub(crate) fn take_one(row: &mut BitRow, leaf: u64)
    requires { leaf < length row.old }
    ensures { IsWithout leaf row.old row.new }
{
    row.and_word(leaf / 64, !(1 << (leaf % 64)));
}

/// Lists the words in which a mask has a leaf that was not found.
pub(crate) fn list_new(
    mask: &BitRow,
    found: &BitRow,
    words: &mut Vec<u64>,
) -> Result<(), AllocError>
    requires { length found.now ≡ length mask.now }
    ensures { OnOk result (HaveAllNew mask.now found.now words.new.items) }
{
    words.clear();
    for k in 0..mask.len().div_ceil(64) {
        if mask.word(k) & !found.word(k) != 0 {
            words.push(k)?;
        }
    }
    Ok(())
}

/// Whether a mask has a leaf other than this one that was not found.
pub(crate) fn has_new_beside(mask: &BitRow, found: &BitRow, leaf: u64) -> bool
    requires leaf { leaf < length found.now }
    requires found { length found.now ≡ length mask.now }
    ensures { (result ≡ true) ↔ HasUnseen mask.now (slice_set found.now leaf true) }
{
    for k in 0..mask.len().div_ceil(64) {
        if mask.word(k) & !word_with(found, leaf, k) != 0 {
            return true;
        }
    }
    false
}

/// Word `k` of a row, if one place more is set.
fn word_with(row: &BitRow, place: u64, k: u64) -> u64
    requires place { place < length row.now }
    requires word { 64 * k < length row.now }
    ensures { IsWord (slice_set row.now place true) k result }
{
    let word = row.word(k);
    if k == place / 64 {
        word | 1 << (place % 64)
    } else {
        word
    }
}

/// Whether a portal may show a leaf that the mask has, and that was not found. All words that have such a leaf are listed. The one
/// that shows it changes places with the first, so that the next portal asks it first. Of a barred portal no word is read.
pub(crate) fn may_show<S: RowSource>(
    own: &OwnRows,
    source: &mut S,
    portal: u64,
    mask: &BitRow,
    found: &BitRow,
    words: &mut [u64],
) -> bool
    requires portal { portal < length own.now }
    requires own { AreOwnRows (S.world source.old) own.now }
    requires wide { length mask.now ≡ length (numbered_leaves (S.world source.old).tree) }
    requires found { length found.now ≡ length mask.now }
    requires words { HaveAllNew mask.now found.now words.old }
    ensures none { result ≡ false → ShowsNothingNew (MustHave (S.world source.old) own.now portal) mask.now found.now }
    ensures words { IsPermutation words.old words.new }
    ensures on { S.goes_on source.old source.new }
{
    if own.is_barred(portal) {
        return false;
    }
    for i in 0..words.len() {
        let k = words[i];
        let left = mask.word(k) & !found.word(k);
        let word = own.word(source, portal, k);
        if word & left != 0 {
            words.swap(0, i);
            return true;
        }
    }
    false
}

/// Sets a place of a row where the mask has it.
pub(crate) fn find(row: &mut BitRow, mask: &BitRow, place: u64)
    requires row { place < length row.old }
    requires mask { place < length mask.now }
    ensures { (IsIn mask.now place × (row.new ≡ slice_set row.old place true)) ⊎ ((IsIn mask.now place → ⊥) × (row.new ≡ row.old)) }
{
    if mask.get(place) {
        row.set(place);
    }
}
