ghost use Rattle.std.specs.Prelude.{◌≡◌, ◌<◌, ◌^◌, length, take, true, []};

use acl_rows::Piece;
use acl_text::{Out, PutFault};
use std::alloc::{AllocError, Global};

// So many bytes of text are kept at most.
const MOST_BYTES: usize = 1_048_576;

// Room for all that is kept, so that no text is copied where it grows. A page of it is taken where it is first written.
fn room_for_text(alloc: Global) -> Vec<u8>
    ensures { result.items ≡ [] }
{
    match Vec::with_capacity(alloc, MOST_BYTES) {
        Ok(room) => room,
        Err(_) => Vec::new(alloc),
    }
}

/// A text that is kept, to be put again line by line. It refuses what it has no room or no memory for,
/// and from then on nothing more may be put.
#[derive(Drop)]
pub(crate) struct KeptText {
    pub(crate) bytes: Vec<u8>,
    pub(crate) is_open: bool,
    lines: LineLengths,
}

// The lengths of the lines of a text, and that of the line which has not ended. A line ends where a put
// ended with a line feed. No put of a row has bytes of two lines, so that none of a text of rows has them
// where it is put again.
#[derive(Drop)]
struct LineLengths {
    ended: Vec<u32>,
    begun: u32,
}

/// Where a text ended.
#[derive(Clone, Copy)]
pub(crate) struct TextEnd {
    pub(crate) bytes: usize,
    lines: usize,
}

impl KeptText {
    /// No text so far.
    pub(crate) fn new(alloc: Global) -> KeptText
        ensures bytes { result.bytes.items ≡ [] }
        ensures open { result.is_open ≡ true }
    {
        KeptText {
            bytes: room_for_text(alloc),
            is_open: true,
            lines: LineLengths {
                ended: Vec::new(alloc),
                begun: 0,
            },
        }
    }

    /// Where the text ends so far.
    pub(crate) fn end(&self) -> TextEnd
        ensures { result.bytes ≡ length self.now.bytes.items }
    {
        TextEnd {
            bytes: self.bytes.len(),
            lines: self.lines.ended.len(),
        }
    }

    /// Cuts the text back to what it was where it ended there, with the end of a line.
    pub(crate) fn cut_back(&mut self, end: TextEnd)
        ensures { self.new.bytes.items ≡ take end.bytes self.old.bytes.items }
    {
        self.bytes.truncate(end.bytes);
        self.lines.ended.truncate(end.lines);
        self.lines.begun = 0;
    }
}

impl Out for KeptText {
    ghost use Rattle.std.specs.Prelude.{Some, if◌then◌else◌};

    ghost told = { λ t. Some t.bytes.items };

    ghost faults = { λ t. if t.is_open then 0 else 1 };

    ghost refusals = { λ t. 0 };

    ghost is_open = { λ t. t.is_open };

    // it has no rest
    ghost keeps_rest = { λ x y. Unit {0} };

    fn put(&mut self, bytes: &[u8]) -> Result<(), PutFault> {
        let has_room = bytes.len() <= MOST_BYTES.saturating_sub(self.bytes.len());
        if has_room
            && self.lines.add(bytes).is_ok()
            && self.bytes.extend_from_slice(bytes).is_ok()
        {
            return Ok(());
        }
        self.is_open = false;
        Err(PutFault::Failed)
    }

    ghost rest_same = { λ x. tt };

    ghost rest_goes_on = { λ x y z p q. tt };
}

impl LineLengths {
    // Counts a piece that is put next. The text that is put again is the same whatever is counted.
    fn add(&mut self, piece: &[u8]) -> Result<(), AllocError>
        requires { length piece.now < 2 ^ 32 }
    {
        self.begun = self.begun.saturating_add(piece.len() as u32);
        if piece.last() == Some(&b'\n') {
            self.ended.push(self.begun)?;
            self.begun = 0;
        }
        Ok(())
    }
}

impl Piece for KeptText {
    ghost text = { λ t. t.bytes.items };

    fn put_into<O: Out>(&self, out: &mut O) -> Result<(), PutFault> {
        let mut rest = self.bytes.as_slice();
        for length in self.lines.ended.as_slice() {
            let (line, more) = rest.split_at((*length as usize).min(rest.len()));
            out.put(line)?;
            rest = more;
        }
        if rest.is_empty() {
            Ok(())
        } else {
            out.put(rest)
        }
    }
}
