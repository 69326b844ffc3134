ghost use Rattle.acl_rows.specs.RowHalves.{row_back, row_front};

use crate::pieces::{Piece, Words};
use crate::rows::put_spaces;
use acl_text::{Out, PutFault};

/// What a line begins with: its indent, its first word and more words.
#[derive(Clone, Copy)]
pub struct RowFront<P, W> {
    pub indent: usize,
    pub first: P,
    pub rest: W,
}

impl<P: Piece, W: Words> Piece for RowFront<P, W> {
    ghost text = { λ f. row_front f.indent (P.text f.first) (W.words f.rest) };

    #[tactic(auto, unfolding(crate::specs::RowHalves::row_front))]
    #[inline(always)]
    fn put_into<O: Out>(&self, out: &mut O) -> Result<(), PutFault> {
        put_spaces(self.indent, out)?;
        self.first.put_into(out)?;
        self.rest.put_spaced(out)
    }
}

/// What a line ends with: words, and the line feed.
#[derive(Clone, Copy)]
pub struct RowBack<W> {
    pub rest: W,
}

impl<W: Words> Piece for RowBack<W> {
    ghost text = { λ b. row_back (W.words b.rest) };

    #[tactic(auto, unfolding(crate::specs::RowHalves::row_back))]
    #[inline(always)]
    fn put_into<O: Out>(&self, out: &mut O) -> Result<(), PutFault> {
        self.rest.put_spaced(out)?;
        out.put(b"\n")
    }
}
