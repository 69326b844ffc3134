ghost use Rattle.std.specs.Prelude.{[], ◌∷◌, ◌++◌, IsTrue, map, replicate};
ghost use Rattle.acl_text.specs.Puts.{Puts};
ghost use Rattle.acl_rows.specs.Rows.{row};

use crate::each_word::WordForm;
use crate::listed::{Listed, put_listed};
use crate::rows::{RowForm, Rows, few_spaces, put_spaces};
use acl_text::{Out, PutFault};

/// The items of a list, each as a row of one word.
#[derive(Drop)]
pub struct ListedRows<L, F> {
    pub indent: usize,
    pub items: L,
    pub form: F,
}

impl<L: Listed, F: WordForm<L::Item>> Rows for ListedRows<L, F> {
    ghost rows = { λ r. map (λ x. row r.indent (F.item_text r.form x ∷ [])) (L.items r.items) };

    #[inline]
    fn put_rows<O: Out>(&self, out: &mut O) -> Result<(), PutFault> {
        let form = AsRow {
            indent: self.indent,
            form: &self.form,
        };
        put_listed(&self.items, &form, out)
    }
}

// An item, as a row of its word.
#[derive(Drop)]
struct AsRow<'a, F> {
    indent: usize,
    form: &'a F,
}

impl<'a, T, F: WordForm<T>> RowForm<T> for AsRow<'a, F> {
    ghost item_rows = { λ r x. row r.indent (F.item_text r.form.now x ∷ []) ∷ [] };

    #[inline]
    fn put_item<O: Out>(&self, item: &T, out: &mut O) -> Result<(), PutFault> {
        match few_spaces(self.indent) {
            Some(indent) => self.form.put_item_line(indent, item, out),
            None => put_far(self.indent, item, self.form, out),
        }
    }
}

// Puts the line of an item behind more spaces than rows of a device have.
#[cold]
fn put_far<T, F: WordForm<T>, O: Out>(
    indent: usize,
    item: &T,
    form: &F,
    out: &mut O,
) -> Result<(), PutFault>
    requires { IsTrue (O.is_open out.old) }
    ensures { Puts O.Out out.old out.new
        (replicate indent 32 ++ (F.item_text form.now item.now ++ 10 ∷ [])) result }
{
    put_spaces(indent, out)?;
    form.put_item_line(&[], item, out)
}
