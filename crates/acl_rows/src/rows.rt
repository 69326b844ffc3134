ghost use Rattle.std.specs.Prelude.{◌≡◌, [], ◌∷◌, ◌++◌, List, IfSome, IsTrue, replicate, flat_map};
ghost use Rattle.acl_text.specs.Puts.{Puts};
ghost use Rattle.acl_rows.specs.Rows.{Row as LineRow, row, row_text, text_of_rows};

use crate::line_texts::LineText;
use crate::pieces::{Piece, Words};
use acl_text::{Out, PutFault};

/// A line: an indent, a first word and more words.
#[derive(Clone, Copy)]
pub struct Row<P, W> {
    pub indent: usize,
    pub first: P,
    pub rest: W,
}

/// No put has bytes of two lines.
impl<P: Piece, W: Words> Piece for Row<P, W> {
    ghost text = { λ r. row_text (row r.indent (P.text r.first ∷ W.words r.rest)) };

    // Inlined, so that words which stand in the code have known lengths where they are put.
    #[inline(always)]
    fn put_into<O: Out>(&self, out: &mut O) -> Result<(), PutFault> {
        let mut text = LineText::new();
        match put_parts(self, &mut text) {
            Ok(()) => out.put(text.as_slice()),
            Err(_) => put_long(self, out),
        }
    }
}

// A line that is too long for its text is put part by part.
#[cold]
fn put_long<P: Piece, W: Words, O: Out>(line: &Row<P, W>, out: &mut O) -> Result<(), PutFault>
    requires { IsTrue (O.is_open out.old) }
    ensures { Puts O.Out out.old out.new
        (row_text (row line.now.indent (P.text line.now.first ∷ W.words line.now.rest))) result }
{
    put_parts(line, out)
}

#[inline(always)]
fn put_parts<P: Piece, W: Words, O: Out>(line: &Row<P, W>, out: &mut O) -> Result<(), PutFault>
    requires { IsTrue (O.is_open out.old) }
    ensures { Puts O.Out out.old out.new
        (row_text (row line.now.indent (P.text line.now.first ∷ W.words line.now.rest))) result }
{
    put_spaces(line.indent, out)?;
    line.first.put_into(out)?;
    line.rest.put_spaced(out)?;
    out.put(b"\n")
}

const SPACES: [u8; 32] = [b' '; 32];

// So many spaces, where they are as few as rows of a device have.
#[inline(always)]
pub(crate) fn few_spaces(count: usize) -> Option<&'static [u8]>
    ensures { IfSome result (λ spaces. spaces.now ≡ replicate count 32) }
{
    if count <= 32 {
        Some(&SPACES[..count])
    } else {
        None
    }
}

// Puts so many spaces, by one put where they are few.
#[inline(always)]
pub(crate) fn put_spaces<O: Out>(count: usize, out: &mut O) -> Result<(), PutFault>
    requires { IsTrue (O.is_open out.old) }
    ensures { Puts O.Out out.old out.new (replicate count 32) result }
{
    match few_spaces(count) {
        Some(spaces) => out.put(spaces),
        None => put_each_space(count, out),
    }
}

#[cold]
fn put_each_space<O: Out>(count: usize, out: &mut O) -> Result<(), PutFault>
    requires { IsTrue (O.is_open out.old) }
    ensures { Puts O.Out out.old out.new (replicate count 32) result }
{
    for _space in 0..count {
        out.put(b" ")?;
    }
    Ok(())
}

/// A value that is written as rows.
pub trait Rows {
    ghost rows: { Self → List LineRow };

    /// Puts the lines of the rows. No put has bytes of two lines.
    fn put_rows<O: Out>(&self, out: &mut O) -> Result<(), PutFault>
        requires { IsTrue (O.is_open out.old) }
        ensures { Puts O.Out out.old out.new (text_of_rows (rows self.now)) result };
}

/// One row.
impl<P: Piece, W: Words> Rows for Row<P, W> {
    ghost rows = { λ r. row r.indent (P.text r.first ∷ W.words r.rest) ∷ [] };

    #[inline(always)]
    fn put_rows<O: Out>(&self, out: &mut O) -> Result<(), PutFault> {
        self.put_into(out)
    }
}

/// The rows of the one, then those of the other.
impl<A: Rows, B: Rows> Rows for (A, B) {
    ghost rows = { λ p. A.rows p.0 ++ B.rows p.1 };

    #[inline]
    fn put_rows<O: Out>(&self, out: &mut O) -> Result<(), PutFault> {
        self.0.put_rows(out)?;
        self.1.put_rows(out)
    }
}

/// How items of a list are written as rows.
pub trait RowForm<T> {
    ghost item_rows: { Self → T → List LineRow };

    /// Puts the lines of the item's rows.
    fn put_item<O: Out>(&self, item: &T, out: &mut O) -> Result<(), PutFault>
        requires { IsTrue (O.is_open out.old) }
        ensures { Puts O.Out out.old out.new (text_of_rows (item_rows self.now item.now)) result };
}

/// Items that are rows are written as their own.
#[derive(Clone, Copy)]
pub struct AsRows;

impl<T: Rows> RowForm<T> for AsRows {
    ghost item_rows = { λ f item. T.rows item };

    #[inline]
    fn put_item<O: Out>(&self, item: &T, out: &mut O) -> Result<(), PutFault> {
        item.put_rows(out)
    }
}

/// Items in a form, one behind the other.
#[derive(Clone, Copy)]
pub struct Each<'a, T, F> {
    pub items: &'a [T],
    pub form: F,
}

impl<'a, T, F: RowForm<T>> Rows for Each<'a, T, F> {
    ghost rows = { λ e. flat_map (F.item_rows e.form) e.items.now };

    #[inline]
    fn put_rows<O: Out>(&self, out: &mut O) -> Result<(), PutFault> {
        put_each(self.items, &self.form, out)
    }
}

#[inline]
fn put_each<T, F: RowForm<T>, O: Out>(items: &[T], form: &F, out: &mut O) -> Result<(), PutFault>
    requires { IsTrue (O.is_open out.old) }
    ensures { Puts O.Out out.old out.new
        (text_of_rows (flat_map (F.item_rows form.now) items.now)) result }
{
    for item in items {
        form.put_item(item, out)?;
    }
    Ok(())
}
