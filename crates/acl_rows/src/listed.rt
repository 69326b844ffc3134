ghost use Rattle.std.specs.Prelude.{◌≡◌, List, [], ◌∷◌, IfSome, IfNone, IsTrue, flat_map};
ghost use Rattle.acl_text.specs.Puts.{Puts};
ghost use Rattle.acl_rows.specs.RuleParts.{is_empty};
ghost use Rattle.acl_rows.specs.Rows.{text_of_rows};

use crate::rows::{RowForm, Rows};
use acl_text::{Out, PutFault};

/// A list that is gone through from its front, whether its items are held or made on the way.
pub trait Listed: Drop {
    type Item: Copy;

    ghost items: { Self → List Self.Item };

    /// The same items, to be gone through once more.
    fn copy(&self) -> Self
        ensures { items result ≡ items self.now };

    /// The next item. `None` exactly where none is left.
    fn next(&mut self) -> Option<Self::Item>
        ensures some { IfSome result (λ item. items self.old ≡ item ∷ items self.new) }
        ensures none { IfNone result ((items self.old ≡ []) × (items self.new ≡ [])) };
}

/// The items of a slice.
impl<'a, T: Copy> Listed for &'a [T] {
    type Item = T;

    ghost items = { λ s. s.now };

    #[inline]
    fn copy(&self) -> &'a [T] {
        self
    }

    #[inline]
    fn next(&mut self) -> Option<T> {
        let (first, rest) = self.split_first()?;
        *self = rest;
        Some(*first)
    }
}

/// Whether there is no item.
pub fn has_none<L: Listed>(items: &L) -> bool
    ensures { result ≡ is_empty (L.items items.now) }
{
    items.copy().next().is_none()
}

/// The rows of items in a form, one behind the other.
#[derive(Drop)]
pub struct EachListed<L, F> {
    pub items: L,
    pub form: F,
}

impl<L: Listed, F: RowForm<L::Item>> Rows for EachListed<L, F> {
    ghost rows = { λ e. flat_map (F.item_rows e.form) (L.items e.items) };

    fn put_rows<O: Out>(&self, out: &mut O) -> Result<(), PutFault> {
        put_listed(&self.items, &self.form, out)
    }
}

/// Puts the rows of each item in the form.
pub fn put_listed<L: Listed, F: RowForm<L::Item>, O: Out>(
    items: &L,
    form: &F,
    out: &mut O,
) -> Result<(), PutFault>
    requires { IsTrue (O.is_open out.old) }
    ensures { Puts O.Out out.old out.new
        (text_of_rows (flat_map (F.item_rows form.now) (L.items items.now))) result }
{
    let mut rest = items.copy();
    while let Some(item) = rest.next() {
        form.put_item(&item, out)?;
    }
    Ok(())
}
