ghost use Rattle.std.specs.Prelude.{◌≡◌, [], IfOk};

use acl_text::Memory;
use smallvec::SmallVec;
use std::alloc::Global;
use std::marker::Model;

// The most bytes of a word that stand in their place.
const ROOM: usize = 24;

/// The bytes of a word. A contract sees their list.
///
/// Most words are short. They stand in their place, and take no memory of their own.
#[derive(Drop)]
pub struct WordBytes {
    bytes: SmallVec<u8, ROOM>,
}

impl Model for WordBytes {
    ghost use Rattle.std.specs.Prelude.{ℕ, List};

    ghost Value = { List ℕ };

    ghost view = { λ w. w.bytes.items };
}

impl WordBytes {
    /// No bytes.
    pub fn new(alloc: Global) -> WordBytes
        ensures { result ≡ [] }
    {
        WordBytes {
            bytes: SmallVec::new(alloc),
        }
    }

    /// A copy of the bytes.
    pub fn from_slice(alloc: Global, text: &[u8]) -> Result<WordBytes, Memory>
        ensures { IfOk result (λ w. w ≡ text.now) }
    {
        let bytes = SmallVec::from_slice(alloc, text)?;
        Ok(WordBytes { bytes })
    }

    pub fn as_slice(&self) -> &[u8]
        ensures { result.now ≡ self.now }
    {
        self.bytes.as_slice()
    }
}
