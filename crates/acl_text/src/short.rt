ghost use Rattle.std.specs.Prelude.{◌≡◌, List, ℕ, [], ◌∷◌, ◌++◌, ◌+◌, ◌<◌, ◌≤◌, take, length, decimal};
ghost use Rattle.acl_text.specs.Ipv4.{ipv4_text};

use crate::ipv4_text::{write_ipv4, write_octet};
use std::marker::Model;

/// A text of at most 64 bytes that takes no memory. A contract sees the list of its bytes.
#[derive(Drop)]
pub(crate) struct ShortText {
    bytes: [u8; 64],
    end: usize,
}

impl Model for ShortText {
    ghost Value = { List ℕ };

    ghost view = { λ t. take t.end t.bytes };

    ghost invariant = { λ t. t.end ≤ 64 };
}

impl ShortText {
    pub(crate) fn new() -> ShortText
        ensures { result ≡ [] }
    {
        ShortText {
            bytes: [0; 64],
            end: 0,
        }
    }

    pub(crate) fn as_slice(&self) -> &[u8]
        ensures { result.now ≡ self.now }
    {
        &self.bytes[..self.end]
    }

    pub(crate) fn push(&mut self, byte: u8)
        requires { length self.old < 64 }
        ensures items { self.new ≡ self.old ++ byte ∷ [] }
        ensures len { length self.new ≡ length self.old + 1 }
    {
        self.bytes[self.end] = byte;
        self.end += 1;
    }

    pub(crate) fn push_all(&mut self, bytes: &[u8])
        requires { length self.old + length bytes.now ≤ 64 }
        ensures items { self.new ≡ self.old ++ bytes.now }
        ensures len { length self.new ≡ length self.old + length bytes.now }
    {
        let end = self.end + bytes.len();
        self.bytes[self.end..end].copy_from_slice(bytes);
        self.end = end;
    }

    /// Adds the number in decimal.
    pub(crate) fn push_octet(&mut self, n: u8)
        requires { length self.old + 4 ≤ 64 }
        ensures items { self.new ≡ self.old ++ decimal n }
        ensures len { length self.new ≤ length self.old + 3 }
    {
        self.end = write_octet(&mut self.bytes, self.end, n);
    }

    /// Adds the text of the IPv4 address.
    pub(crate) fn push_dotted(&mut self, address: u32)
        requires { length self.old + 16 ≤ 64 }
        ensures items { self.new ≡ self.old ++ ipv4_text address }
        ensures len { length self.new ≤ length self.old + 15 }
    {
        self.end = write_ipv4(&mut self.bytes, self.end, address);
    }
}
