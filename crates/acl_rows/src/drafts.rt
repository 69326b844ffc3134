ghost use Rattle.std.specs.Prelude.{◌≡◌, ◌≤◌, IfOk, List, OnOk, length};
ghost use Rattle.std.specs.List.{fold, prefix_len};
ghost use Rattle.acl_rows.specs.Rows.{Row, is_space, row};
ghost use Rattle.acl_rows.specs.RowSteps.{row_in, rows_in};

use crate::row_words::RowWords;
use acl_text::{Items, Memory, split_at_byte};
use std::alloc::Global;

/// What has been read of a text, row by row. No row is refused: one that means nothing changes
/// nothing.
pub trait Draft {
    ghost step: { Self → Row → Self };

    /// Takes the next row.
    fn take_row(&mut self, alloc: Global, indent: usize, words: RowWords<'_>) -> Result<(), Memory>
        ensures { OnOk result (self.new ≡ step self.old (row indent words.entry)) };
}

/// What has been read of a document, whose rows become sections.
pub trait DocumentDraft<S: Drop>: Draft + Drop {
    ghost empty: { Self };

    ghost sections: { Self → List S };

    /// Nothing has been read.
    fn new(alloc: Global) -> Self
        ensures { result ≡ empty };

    /// The sections, at the end of the text.
    fn finish(self) -> Result<Items<S>, Memory>
        ensures { IfOk result (λ doc. doc ≡ sections self) };
}

/// Takes the rows of a text, line by line.
#[tactic(auto, using(crate::proofs::RowLaws::first_row, crate::proofs::RowLaws::last_row, crate::proofs::RowLaws::rest_is_shorter))]
pub fn read_rows<D: Draft>(alloc: Global, draft: &mut D, text: &[u8]) -> Result<(), Memory>
    ensures { OnOk result (draft.new ≡ fold D.step draft.old (rows_in text.now)) }
{
    let mut rest = text;
    while let Some((line, behind)) = split_at_byte(rest, b'\n') {
        take_line(alloc, draft, line)?;
        rest = behind;
    }
    take_line(alloc, draft, rest)
}

#[tactic(auto, unfolding(crate::specs::RowSteps::row_in))]
fn take_line<D: Draft>(alloc: Global, draft: &mut D, line: &[u8]) -> Result<(), Memory>
    ensures { OnOk result (draft.new ≡ D.step draft.old (row_in line.now)) }
{
    let indent = indent_of(line);
    draft.take_row(alloc, indent, RowWords::new(&line[indent..]))
}

/// How many spaces the line begins with.
pub fn indent_of(line: &[u8]) -> usize
    ensures exact { result ≡ prefix_len is_space line.now }
    ensures fits { result ≤ length line.now }
{
    for (i, byte) in line.iter().enumerate() {
        if *byte != b' ' {
            return i;
        }
    }
    line.len()
}
