//! Joining the visits of a walk: siblings that are leaves of equal contents become one leaf.

ghost use Rattle.std.specs.Prelude.{◌≡◌, [], reverse, IfOk, OnOk};
ghost use Rattle.qm_partition.specs.inner.JoinedWalk.{joint_of, joined_by, joined_from};

use qm_partition::{Leaf, Visit};
use std::alloc::{AllocError, Global};

/// The visits of the joined walk, the last one first.
pub(crate) fn joined_backwards(
    alloc: Global,
    mut walk: Vec<Visit>,
) -> Result<Vec<Visit>, AllocError>
    ensures { IfOk result (λ joined. reverse joined.items ≡ joined_from walk.items []) }
{
    let mut joined = Vec::new(alloc);
    while let Some(visit) = walk.pop() {
        add_joined(&mut joined, visit)?;
    }
    Ok(joined)
}

/// Adds the visit before those of a joined walk, of which the last one comes first.
fn add_joined(joined: &mut Vec<Visit>, visit: Visit) -> Result<(), AllocError>
    ensures { OnOk result (reverse joined.new.items ≡ joined_by visit (reverse joined.old.items)) }
{
    if let Visit::Node(_) = visit {
        if let Some(joint) = joint_of(joined) {
            joined.truncate(joined.len() - 2);
            joined.push(Visit::Leaf(joint))?;
            return Ok(());
        }
    }
    joined.push(visit)?;
    Ok(())
}

/// The leaf that the first two visits become, where they are leaves of equal contents. The last visit comes first.
fn joint_of(joined: &[Visit]) -> Option<Leaf>
    ensures { result ≡ joint_of (reverse joined.now) }
{
    let (Visit::Leaf(front), behind) = joined.split_last()? else {
        return None;
    };
    let (Visit::Leaf(back), _) = behind.split_last()? else {
        return None;
    };
    if front.contents == back.contents {
        Some(*front)
    } else {
        None
    }
}
