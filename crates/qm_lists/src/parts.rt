ghost use Rattle.std.specs.Prelude.{◌≡◌, ◌==◌, [], IfOk, length};

use std::alloc::{AllocError, Global};
use std::marker::Model;
use std::rc::Rc;

/// A list that is empty at many places, as the pairs or the brushes of an entity are. It takes the room of one pointer;
/// empty ones share what they point to. Contracts see it as the list of its items.
#[derive(Drop)]
pub struct Parts<T> {
    items: Rc<Vec<T>>,
}

impl<T> Model for Parts<T> {
    ghost use Rattle.std.specs.Prelude.{List};

    ghost Value = { List T };

    ghost view = { λ parts. parts.items.value.items };
}

impl<T: Drop> Parts<T> {
    /// No items, for other empty lists to share.
    pub fn none(alloc: Global) -> Result<Self, AllocError>
        ensures { IfOk result (λ parts. parts ≡ []) }
    {
        Ok(Parts {
            items: Rc::new(alloc, Vec::new(alloc))?,
        })
    }

    /// The list of the items of `items`, in order. Where there is none, it shares what `none` points to, and takes no
    /// memory.
    pub fn from_vec(alloc: Global, items: Vec<T>, none: &Parts<T>) -> Result<Self, AllocError>
        requires { none.now ≡ [] }
        ensures { IfOk result (λ parts. parts ≡ items.items) }
    {
        let items = if items.is_empty() {
            none.items.clone()?
        } else {
            Rc::new(alloc, items)?
        };
        Ok(Parts { items })
    }

    /// The items in order.
    pub fn as_slice(&self) -> &[T]
        ensures { result.now ≡ self.now }
    {
        self.items.as_slice()
    }

    /// How many items there are.
    pub fn len(&self) -> usize
        ensures { result ≡ length self.now }
    {
        self.items.len()
    }

    /// Whether there is no item.
    pub fn is_empty(&self) -> bool
        ensures { result ≡ (length self.now == 0) }
    {
        self.items.is_empty()
    }
}
