ghost use Rattle.std.specs.Prelude.{◌≡◌, ◌≤◌, ◌+◌, ◌++◌, [], ◌∷◌, length};

use std::marker::Model;

/// The most bytes of a text of a few words.
pub(crate) const FEW: usize = 14;

/// The most bytes of a longer one.
pub(crate) const MANY: usize = 70;

/// A text of at most so many bytes that stands in its place. A contract sees the list of its bytes.
#[derive(Drop)]
pub(crate) struct ShortText<const ROOM: usize> {
    end: u8,
    bytes: [u8; ROOM],
}

impl<const ROOM: usize> Model for ShortText<ROOM> {
    ghost use Rattle.std.specs.Prelude.{◌≡◌, ℕ, List, length, take, ◌≤◌};

    ghost Value = { List ℕ };

    ghost view = { λ t. take t.end t.bytes };

    ghost invariant = { λ t. (t.end ≤ ROOM) × (length t.bytes ≡ ROOM) };
}

impl<const ROOM: usize> ShortText<ROOM> {
    pub(crate) fn new() -> ShortText<ROOM>
        ensures { result ≡ [] }
    {
        ShortText {
            end: 0,
            bytes: [0; ROOM],
        }
    }

    pub(crate) fn as_slice(&self) -> &[u8]
        ensures text { result.now ≡ self.now }
        ensures within { length result.now ≤ ROOM }
    {
        &self.bytes[..usize::from(self.end)]
    }

    /// How many more bytes it may have.
    pub(crate) fn room(&self) -> usize
        ensures { length self.now + result ≡ ROOM }
    {
        ROOM - usize::from(self.end)
    }

    /// Adds the bytes and a line feed behind them.
    pub(crate) fn push_line(&mut self, line: &[u8])
        requires fits { length self.old + length line.now + 1 ≤ ROOM }
        requires small { ROOM ≤ 255 }
        ensures { self.new ≡ self.old ++ line.now ++ 10 ∷ [] }
    {
        let start = usize::from(self.end);
        let end = start + line.len();
        let bytes = &mut self.bytes[..];
        bytes[start..end].copy_from_slice(line);
        bytes[end] = b'\n';
        self.end = (end + 1) as u8;
    }

    /// Adds the bytes.
    fn push(&mut self, more: &[u8])
        requires fits { length self.old + length more.now ≤ ROOM }
        requires small { ROOM ≤ 255 }
        ensures { self.new ≡ self.old ++ more.now }
    {
        let start = usize::from(self.end);
        let end = start + more.len();
        let bytes = &mut self.bytes[..];
        bytes[start..end].copy_from_slice(more);
        self.end = end as u8;
    }
}

/// The same text, with room for more.
pub(crate) fn widened(text: &ShortText<FEW>) -> ShortText<MANY>
    ensures { result ≡ text.now }
{
    let mut wide = ShortText::new();
    wide.push(text.as_slice());
    wide
}
