ghost use Rattle.std.specs.Prelude.{◌≡◌, [], ◌∷◌, IfOk};

use acl_text::Memory;
use std::alloc::Global;
use std::marker::Model;
use std::rc::Rc;

/// A list that does not change, and that may stand in many places. A contract sees the list of the items.
#[derive(Drop)]
pub(crate) struct SharedList<T: Drop> {
    items: Rc<Vec<T>>,
}

impl<T: Drop> Model for SharedList<T> {
    ghost use Rattle.std.specs.Prelude.{List};

    ghost Value = { List T };

    ghost view = { λ s. s.items.value.items };
}

impl<T: Drop> SharedList<T> {
    /// The items, in one place so far.
    pub(crate) fn new(alloc: Global, items: Vec<T>) -> Result<SharedList<T>, Memory>
        ensures { IfOk result (λ s. s ≡ items.items) }
    {
        match Rc::new(alloc, items) {
            Ok(items) => Ok(SharedList { items }),
            Err(_) => Err(Memory),
        }
    }

    /// The same list, for one place more. It is not copied, and no memory is taken.
    pub(crate) fn share(&self) -> Result<SharedList<T>, Memory>
        ensures { IfOk result (λ s. s ≡ self.now) }
    {
        Ok(SharedList {
            items: self.items.clone()?,
        })
    }

    /// The items in order.
    pub(crate) fn as_slice(&self) -> &[T]
        ensures { result.now ≡ self.now }
    {
        self.items.as_ref().as_slice()
    }
}
