ghost use Rattle.std.specs.Prelude.{◌≡◌, ◌<◌, ◌≤◌, ◌++◌, take, length, IsOk, OnOk};
ghost use Rattle.smallvec.specs.SmallVec.{HasRoomFor};
ghost use Rattle.qm_convex.specs.Winding.{next_place};
ghost use Rattle.qm_convex.specs.Rotation.{rotated_list, place_after};

use smallvec::SmallVec;
use std::alloc::AllocError;

/// Adds so many items in a row from a place on, of items in a circle.
pub(crate) fn add_arc<T: Copy + Default + Drop>(
    list: &mut SmallVec<T, 8>,
    items: &[T],
    start: usize,
    count: usize,
) -> Result<(), AllocError>
    requires start_in_range { start ≤ length items.now }
    requires count_in_range { count ≤ length items.now }
    ensures ok { OnOk result (list.new.items ≡ list.old.items ++ take count (rotated_list start items.now)) }
    ensures succeeds { HasRoomFor list.old count → IsOk result }
    ensures inline { HasRoomFor list.old count → list.old.capacity ≡ 8 → list.new.capacity ≡ 8 }
{
    let before_end = items.len() - start;
    if count <= before_end {
        return list.extend_from_slice(&items[start..start + count]);
    }
    list.extend_from_slice(&items[start..])?;
    list.extend_from_slice(&items[..count - before_end])
}

/// Keeps so many items in a row from a place on, of items in a circle.
pub(crate) fn keep_arc<T: Copy + Default + Drop>(
    list: &mut SmallVec<T, 8>,
    start: usize,
    count: usize,
)
    requires start_in_range { start ≤ length list.old.items }
    ensures items { list.new.items ≡ take count (rotated_list start list.old.items) }
    ensures capacity { list.new.capacity ≡ list.old.capacity }
{
    turn(list, start);
    list.truncate(count);
}

/// Turns a circle, so that the item at a place comes first: by single steps, which are few in a short circle, and for
/// which no room is needed.
fn turn<T: Copy + Default + Drop>(list: &mut SmallVec<T, 8>, start: usize)
    requires start_in_range { start ≤ length list.old.items }
    ensures items { list.new.items ≡ rotated_list start list.old.items }
    ensures capacity { list.new.capacity ≡ list.old.capacity }
{
    let last = list.len().saturating_sub(1);
    if start == last {
        rotate(list, start);
        return;
    }
    for _step in 0..start {
        rotate(list, 1);
    }
}

/// Turns a circle at once.
fn rotate<T: Copy + Default + Drop>(list: &mut SmallVec<T, 8>, start: usize)
    requires start_in_range { start ≤ length list.old.items }
    ensures items { list.new.items ≡ rotated_list start list.old.items }
    ensures capacity { list.new.capacity ≡ list.old.capacity }
{
    list.as_mut_slice().rotate_left(start);
}

/// The place after a place, of places in a circle.
pub(crate) fn next_place(places: usize, place: usize) -> usize
    requires { place < places }
    ensures value { result ≡ next_place places place }
    ensures below { result < places }
{
    if place + 1 == places { 0 } else { place + 1 }
}

/// How many steps lead from one place to another, of places in a circle.
pub(crate) fn steps_between(places: usize, from: usize, to: usize) -> usize
    requires from_in_range { from < places }
    requires to_in_range { to < places }
    requires different { from ≡ to → ⊥ }
    ensures below { result < places }
    ensures value { place_after places from result ≡ to }
{
    if from < to {
        to - from
    } else {
        places - from + to
    }
}
