ghost use Rattle.std.specs.Prelude.{◌≡◌, [], IfOk, OnOk, OnErr};

use std::alloc::{AllocError, Global};
use std::mem;

/// How many items are copied rather than given away with their room.
const FEW: usize = 1_000;

/// Takes all items out of a list. Few are given in a list that has room for no more, and the room that they had stays for
/// others; the room of many goes with them. After an error they are there as before.
pub(crate) fn take_all<T>(alloc: Global, list: &mut Vec<T>) -> Result<Vec<T>, AllocError>
    ensures taken { IfOk result (λ taken. taken.items ≡ list.old.items) }
    ensures empty { OnOk result (list.new.items ≡ []) }
    ensures err { OnErr result (list.new.items ≡ list.old.items) }
{
    if list.is_empty() {
        Ok(Vec::new(alloc))
    } else if list.len() <= FEW {
        list.split_off(0)
    } else {
        Ok(mem::replace(list, Vec::new(alloc)))
    }
}
