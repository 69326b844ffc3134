ghost use Rattle.std.specs.Prelude.{◌≡◌, [], ◌∷◌, ◌++◌, ◌+◌, ◌≤◌, take, length, decimal};
ghost use Rattle.acl_text.specs.Ipv4.{ipv4_text};

use crate::copying::copy_bytes;
use crate::octets::{octet_bytes, octet_digits};

// A text of at most 64 bytes is written into an array from a place on, and each call gives the place behind it. The
// place is no field of a struct, so that it stays in a register while the bytes before it are written.

/// Writes the text of the address.
#[inline(always)]
#[tactic(auto, unfolding(crate::specs::Ipv4::ipv4_text))]
pub(crate) fn write_ipv4(text: &mut [u8; 64], at: usize, address: u32) -> usize
    requires { at + 16 ≤ 64 }
    ensures items { take result text.new ≡ take at text.old ++ ipv4_text address }
    ensures len { result ≤ at + 15 }
{
    let second = write_pointed(text, at, (address >> 24) as u8);
    let third = write_pointed(text, second, ((address >> 16) % 256) as u8);
    let fourth = write_pointed(text, third, ((address >> 8) % 256) as u8);
    write_octet(text, fourth, (address % 256) as u8)
}

/// Writes the number in decimal.
#[inline(always)]
pub(crate) fn write_octet(text: &mut [u8; 64], at: usize, n: u8) -> usize
    requires { at + 4 ≤ 64 }
    ensures items { take result text.new ≡ take at text.old ++ decimal n }
    ensures len { result ≤ at + 3 }
{
    text[at..at + 4].copy_from_slice(octet_bytes(n));
    at + octet_digits(n)
}

// Writes the number in decimal, and a point.
#[inline(always)]
fn write_pointed(text: &mut [u8; 64], at: usize, n: u8) -> usize
    requires { at + 4 ≤ 64 }
    ensures items { take result text.new ≡ take at text.old ++ (decimal n ++ 46 ∷ []) }
    ensures len { result ≤ at + 4 }
{
    text[at..at + 4].copy_from_slice(octet_bytes(n));
    at + (octet_digits(n) + 1)
}

/// Writes the bytes.
#[inline(always)]
pub(crate) fn write_bytes(text: &mut [u8; 64], at: usize, bytes: &[u8]) -> usize
    requires { at + length bytes.now ≤ 64 }
    ensures items { take result text.new ≡ take at text.old ++ bytes.now }
    ensures len { result ≡ at + length bytes.now }
{
    let end = at + bytes.len();
    copy_bytes(&mut text[at..end], bytes);
    end
}
