ghost use Rattle.std.specs.Prelude.{◌≡◌, ◌+◌, ◌^◌, ◌<◌, ◌≤◌, ◌++◌, length, IfSome, decimal};
ghost use Rattle.acl_text.specs.Ipv4.{ipv4_in, ipv4_text};

use crate::cuts::split_at_byte;
use crate::short::ShortText;
use acl_packet::read_number;
use itoa::Buffer;

/// The address of the text, as a number.
#[tactic(auto, unfolding(crate::specs::Ipv4::ipv4_in))]
pub(crate) fn read_ipv4(text: &[u8]) -> Option<u128>
    ensures exact { result ≡ ipv4_in text.now }
    ensures small { IfSome result (λ n. n < 2 ^ 32) }
{
    let (first, rest) = split_at_byte(text, b'.')?;
    let (second, rest) = split_at_byte(rest, b'.')?;
    let (third, fourth) = split_at_byte(rest, b'.')?;
    let a = read_number(first, 255)?;
    let b = read_number(second, 255)?;
    let c = read_number(third, 255)?;
    let d = read_number(fourth, 255)?;
    Some(((a * 256 + b) * 256 + c) * 256 + d)
}

// The first number of an address, which is any of 104 bits where the address is no IPv4 one.
fn push_first(text: &mut ShortText, n: u128)
    requires room { length text.old + 32 ≤ 64 }
    requires small { n < 2 ^ 104 }
    ensures items { text.new ≡ text.old ++ decimal n }
    ensures len { length text.new ≤ length text.old + 32 }
{
    let mut buffer = Buffer::new();
    text.push_all(buffer.format(n).as_bytes());
}

/// Adds the text of the address.
pub(crate) fn push_ipv4(text: &mut ShortText, address: u128)
    requires { length text.old + 45 ≤ 64 }
    ensures items { text.new ≡ text.old ++ ipv4_text address }
    ensures len { length text.new ≤ length text.old + 44 }
{
    if address < 4_294_967_296 {
        text.push_dotted(address as u32);
    } else {
        push_wide(text, address);
    }
}

#[cold]
#[tactic(auto, unfolding(crate::specs::Ipv4::ipv4_text))]
fn push_wide(text: &mut ShortText, address: u128)
    requires { length text.old + 45 ≤ 64 }
    ensures items { text.new ≡ text.old ++ ipv4_text address }
    ensures len { length text.new ≤ length text.old + 44 }
{
    push_first(text, address >> 24);
    text.push(b'.');
    text.push_octet(((address >> 16) % 256) as u8);
    text.push(b'.');
    text.push_octet(((address >> 8) % 256) as u8);
    text.push(b'.');
    text.push_octet((address % 256) as u8);
}
