ghost use Rattle.std.specs.Prelude.{◌++◌, IsTrue, flat_map};
ghost use Rattle.acl_text.specs.Puts.{Puts};

use crate::each_word::WordForm;
use crate::listed::Listed;
use crate::pieces::Piece;
use acl_text::{Out, PutFault};

/// An item in a form.
#[derive(Drop)]
pub struct OneItem<'a, T, F> {
    pub item: &'a T,
    pub form: &'a F,
}

impl<'a, T, F: WordForm<T>> Piece for OneItem<'a, T, F> {
    ghost text = { λ o. F.item_text o.form.now o.item.now };

    #[inline]
    fn put_into<O: Out>(&self, out: &mut O) -> Result<(), PutFault> {
        self.form.put_item_into(self.item, out)
    }
}

/// Items in a form, each behind the separator.
#[derive(Drop)]
pub struct ItemsBehind<'a, L, F> {
    pub separator: &'a [u8],
    pub items: L,
    pub form: &'a F,
}

impl<'a, L: Listed, F: WordForm<L::Item>> Piece for ItemsBehind<'a, L, F> {
    ghost text = { λ b.
        flat_map (λ x. b.separator.now ++ F.item_text b.form.now x) (L.items b.items) };

    #[inline]
    fn put_into<O: Out>(&self, out: &mut O) -> Result<(), PutFault> {
        put_items(self.separator, &self.items, self.form, out)
    }
}

fn put_items<L: Listed, F: WordForm<L::Item>, O: Out>(
    separator: &[u8],
    items: &L,
    form: &F,
    out: &mut O,
) -> Result<(), PutFault>
    requires { IsTrue (O.is_open out.old) }
    ensures { Puts O.Out out.old out.new
        (flat_map (λ x. separator.now ++ F.item_text form.now x) (L.items items.now)) result }
{
    let mut rest = items.copy();
    while let Some(item) = rest.next() {
        form.put_item_behind(separator, &item, out)?;
    }
    Ok(())
}
