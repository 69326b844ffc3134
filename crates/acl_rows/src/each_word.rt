ghost use Rattle.std.specs.Prelude.{◌∷◌, ◌++◌, [], List, ℕ, IsTrue, map};
ghost use Rattle.acl_text.specs.Puts.{Puts};
ghost use Rattle.acl_rows.specs.Rows.{spaced};

use crate::pieces::Words;
use acl_text::{Out, PutFault};

/// How items of a list are written, each as one word.
pub trait WordForm<T> {
    ghost item_text: { Self → T → List ℕ };

    /// Puts the item's word.
    fn put_item_into<O: Out>(&self, item: &T, out: &mut O) -> Result<(), PutFault>
        requires { IsTrue (O.is_open out.old) }
        ensures { Puts O.Out out.old out.new (item_text self.now item.now) result };

    /// Puts the item's word behind the bytes.
    #[inline]
    fn put_item_behind<O: Out>(&self, front: &[u8], item: &T, out: &mut O) -> Result<(), PutFault>
        requires { IsTrue (O.is_open out.old) }
        ensures { Puts O.Out out.old out.new (front.now ++ item_text self.now item.now) result }
    {
        out.put(front)?;
        self.put_item_into(item, out)
    }

    /// Puts the item's word behind the bytes, and a line feed behind the word.
    #[inline]
    fn put_item_line<O: Out>(&self, front: &[u8], item: &T, out: &mut O) -> Result<(), PutFault>
        requires { IsTrue (O.is_open out.old) }
        ensures { Puts O.Out out.old out.new
            (front.now ++ (item_text self.now item.now ++ 10 ∷ [])) result }
    {
        self.put_item_behind(front, item, out)?;
        out.put(b"\n")
    }
}

/// The words of items in a form.
#[derive(Clone, Copy)]
pub struct EachWord<'a, T, F> {
    pub items: &'a [T],
    pub form: F,
}

impl<'a, T, F: WordForm<T>> Words for EachWord<'a, T, F> {
    ghost words = { λ e. map (F.item_text e.form) e.items.now };

    #[inline]
    fn put_spaced<O: Out>(&self, out: &mut O) -> Result<(), PutFault> {
        put_each_word(self.items, &self.form, out)
    }
}

fn put_each_word<T, F: WordForm<T>, O: Out>(
    items: &[T],
    form: &F,
    out: &mut O,
) -> Result<(), PutFault>
    requires { IsTrue (O.is_open out.old) }
    ensures { Puts O.Out out.old out.new (spaced (map (F.item_text form.now) items.now)) result }
{
    for item in items {
        put_word_of(item, form, out)?;
    }
    Ok(())
}

fn put_word_of<T, F: WordForm<T>, O: Out>(item: &T, form: &F, out: &mut O) -> Result<(), PutFault>
    requires { IsTrue (O.is_open out.old) }
    ensures { Puts O.Out out.old out.new (32 ∷ F.item_text form.now item.now) result }
{
    out.put(b" ")?;
    form.put_item_into(item, out)
}
