ghost use Rattle.std.specs.Prelude.{◌≡◌, ℕ, ◌+◌, ◌-◌, ◌^◌, ◌<◌, ◌≤◌, ◌∷◌, ◌++◌, decimal, length, take, IsTrue, IfSome, IfNone, bytes_eq};
ghost use Rattle.acl_packet.specs.declared.addresses.Prefix.{Prefix as PrefixData};
ghost use Rattle.acl_packet.specs.Addresses.{width_of, IsPrefix};
ghost use Rattle.acl_text.specs.Puts.{Puts};
ghost use Rattle.acl_text.specs.AddressTexts.{spelling_in, address_text, address_in, block_of, IsPrefixText, family_in, full_in, block_in, prefix_in, prefix_text, spelled_prefix_in, wildcard_text};
ghost use Rattle.acl_text.specs.Ipv4.{ipv4_text};

use crate::cuts::{contains_byte, split_at_byte};
use crate::ipv4::{push_ipv4, read_ipv4};
use crate::ipv4_text::{write_bytes, write_ipv4, write_octet};
use crate::ipv6::read_ipv6;
use crate::ipv6_text::push_ipv6;
use crate::output::{Out, PutFault};
use crate::pieces::put_pieces;
use crate::prefix_fronts::read_at_once;
use crate::short::ShortText;
use acl_packet::{Family, Prefix, read_number};

/// The prefix that the word spells: an address, or an address, `/` and a length.
///
/// An IPv4 address is four numbers of 0 to 255 with `.` between. An IPv6 address is in one of the forms of
/// RFC 4291 section 2.2. Without a length the prefix is the address alone. The address's bits behind the
/// length are cleared. What `put_prefix` puts of a prefix is read as that prefix.
pub fn read_prefix(word: &[u8]) -> Option<Prefix>
    ensures some { IfSome result (λ p. IsPrefixText word.now p × IsPrefix p) }
    ensures none { IfNone result ((p : PrefixData) → IsPrefixText word.now p → ⊥) }
    ensures exact { result ≡ prefix_in word.now }
{
    prefix_of(word)
}

// Most words are read at once.
fn prefix_of(word: &[u8]) -> Option<Prefix>
    ensures { result ≡ prefix_in word.now }
{
    match read_at_once(word) {
        Some(prefix) => Some(prefix),
        None => any_prefix_of(word),
    }
}

#[tactic(auto, unfolding(crate::specs::AddressTexts::prefix_in))]
fn any_prefix_of(word: &[u8]) -> Option<Prefix>
    ensures { result ≡ prefix_in word.now }
{
    match split_at_byte(word, b'/') {
        Some((address, len)) => read_block(address_family(address), address, len),
        None => read_full(address_family(word), word),
    }
}

fn address_family(word: &[u8]) -> Family
    ensures { result ≡ family_in word.now }
{
    if contains_byte(word, b':') {
        Family::V6
    } else {
        Family::V4
    }
}

#[tactic(auto, unfolding(crate::specs::AddressTexts::full_in))]
fn read_full(family: Family, address: &[u8]) -> Option<Prefix>
    ensures { result ≡ full_in family address.now }
{
    let value = read_spelling(family, address)?;
    Some(block_of(family, value, family.width()))
}

#[tactic(auto, unfolding(crate::specs::AddressTexts::block_in))]
fn read_block(family: Family, address: &[u8], len: &[u8]) -> Option<Prefix>
    ensures { result ≡ block_in family address.now len.now }
{
    let value = read_spelling(family, address)?;
    let len = read_number(len, u128::from(family.width()))?;
    Some(block_of(family, value, len as u8))
}

pub(crate) fn block_of(family: Family, value: u128, len: u8) -> Prefix
    requires { len ≤ width_of family }
    ensures { result ≡ block_of family value len }
{
    let free = family.width() - len;
    let first = if free == 128 {
        0
    } else {
        (value >> free) << free
    };
    Prefix { family, first, len }
}

fn read_spelling(family: Family, text: &[u8]) -> Option<u128>
    ensures exact { result ≡ spelling_in family text.now }
    ensures small { IfSome result (λ n. n < 2 ^ width_of family) }
{
    match family {
        Family::V4 => read_ipv4(text),
        Family::V6 => read_ipv6(text),
    }
}

/// The address of the family of which the word is the text that `put_address` puts, as a number.
pub fn read_address(family: Family, word: &[u8]) -> Option<u128>
    ensures some { IfSome result (λ n. (word.now ≡ address_text family n)
        × (n < 2 ^ width_of family)) }
    ensures none { IfNone result ((n : ℕ) → n < 2 ^ width_of family
        → word.now ≡ address_text family n → ⊥) }
    ensures exact { result ≡ address_in family word.now }
{
    address_of(family, word)
}

#[tactic(auto, unfolding(crate::specs::AddressTexts::address_in))]
fn address_of(family: Family, word: &[u8]) -> Option<u128>
    ensures { result ≡ address_in family word.now }
{
    let value = read_spelling(family, word)?;
    if is_address_text(family, value, word) {
        Some(value)
    } else {
        None
    }
}

fn is_address_text(family: Family, address: u128, word: &[u8]) -> bool
    ensures { result ≡ bytes_eq word.now (address_text family address) }
{
    let mut text = ShortText::new();
    push_address(&mut text, family, address);
    word == text.as_slice()
}

fn push_address(text: &mut ShortText, family: Family, address: u128)
    requires { length text.old + 45 ≤ 64 }
    ensures items { text.new ≡ text.old ++ address_text family address }
    ensures len { length text.new ≤ length text.old + 44 }
{
    match family {
        Family::V4 => push_ipv4(text, address),
        Family::V6 => push_ipv6(text, address),
    }
}

/// The prefix of the family of which the word is the text that `put_prefix` puts.
pub fn read_spelled_prefix(family: Family, word: &[u8]) -> Option<Prefix>
    ensures some { IfSome result (λ p. (word.now ≡ prefix_text p)
        × IsPrefix p × (p.family ≡ family)) }
    ensures none { IfNone result ((p : PrefixData) → IsPrefix p → p.family ≡ family
        → word.now ≡ prefix_text p → ⊥) }
    ensures exact { result ≡ spelled_prefix_in family word.now }
{
    spelled_of(family, word)
}

#[tactic(auto, unfolding(crate::specs::AddressTexts::spelled_prefix_in))]
fn spelled_of(family: Family, word: &[u8]) -> Option<Prefix>
    ensures { result ≡ spelled_prefix_in family word.now }
{
    let prefix = read_prefix(word)?;
    if prefix.family == family && is_prefix_text(&prefix, word) {
        Some(prefix)
    } else {
        None
    }
}

fn is_prefix_text(prefix: &Prefix, word: &[u8]) -> bool
    ensures { result ≡ bytes_eq word.now (prefix_text prefix.now) }
{
    let mut text = ShortText::new();
    push_prefix(&mut text, prefix);
    word == text.as_slice()
}

#[tactic(auto, unfolding(crate::specs::AddressTexts::prefix_text))]
fn push_prefix(text: &mut ShortText, prefix: &Prefix)
    requires { length text.old ≤ 8 }
    ensures items { text.new ≡ text.old ++ prefix_text prefix.now }
    ensures len { length text.new ≤ length text.old + 48 }
{
    push_address(text, prefix.family, prefix.first);
    text.push(b'/');
    text.push_octet(prefix.len);
}

// An address above it is none of IPv4.
pub(crate) const IPV4_TOP: u128 = 0xffff_ffff;

/// Puts the text of the address: of an IPv4 address four decimal numbers with `.` between, of an IPv6 address
/// the form of RFC 5952 sections 4.1 to 4.3, never with an IPv4 address in it.
pub fn put_address<O: Out>(out: &mut O, family: Family, address: u128) -> Result<(), PutFault>
    requires { IsTrue (O.is_open out.old) }
    ensures { Puts O.Out out.old out.new (address_text family address) result }
{
    if family == Family::V4 && address <= IPV4_TOP {
        put_dotted(out, address as u32)
    } else {
        put_long_address(out, family, address)
    }
}

#[inline]
fn put_dotted<O: Out>(out: &mut O, address: u32) -> Result<(), PutFault>
    requires { IsTrue (O.is_open out.old) }
    ensures { Puts O.Out out.old out.new (ipv4_text address) result }
{
    let mut text = [0; 64];
    let end = write_ipv4(&mut text, 0, address);
    out.put(&text[..end])
}

fn put_long_address<O: Out>(out: &mut O, family: Family, address: u128) -> Result<(), PutFault>
    requires { IsTrue (O.is_open out.old) }
    ensures { Puts O.Out out.old out.new (address_text family address) result }
{
    let mut text = ShortText::new();
    push_address(&mut text, family, address);
    out.put(text.as_slice())
}

/// Puts the text of the prefix: its first address, `/` and its length.
pub fn put_prefix<O: Out>(out: &mut O, prefix: &Prefix) -> Result<(), PutFault>
    requires { IsTrue (O.is_open out.old) }
    ensures { Puts O.Out out.old out.new (prefix_text prefix.now) result }
{
    put_prefix_between(out, &[], prefix, &[])
}

/// Puts the text of the prefix between bytes in front of it and behind it, by one put where it is of IPv4, and these
/// are few.
///
/// Inlined, so that bytes which stand in the code have known lengths where they are put.
#[inline(always)]
#[tactic(auto, unfolding(crate::specs::AddressTexts::prefix_text))]
pub fn put_prefix_between<O: Out>(
    out: &mut O,
    front: &[u8],
    prefix: &Prefix,
    back: &[u8],
) -> Result<(), PutFault>
    requires { IsTrue (O.is_open out.old) }
    ensures { Puts O.Out out.old out.new (front.now ++ (prefix_text prefix.now ++ back.now)) result }
{
    let is_short = front.len() <= 32 && back.len() <= 8;
    if is_short && prefix.family == Family::V4 && prefix.first <= IPV4_TOP {
        let first = prefix.first as u32;
        put_dotted_between(out, front, first, prefix.len, back)
    } else {
        put_long_between(out, front, prefix, back)
    }
}

#[inline(always)]
fn put_dotted_between<O: Out>(
    out: &mut O,
    front: &[u8],
    first: u32,
    len: u8,
    back: &[u8],
) -> Result<(), PutFault>
    requires open { IsTrue (O.is_open out.old) }
    requires front_fits { length front.now ≤ 32 }
    requires back_fits { length back.now ≤ 8 }
    ensures { Puts O.Out out.old out.new
        (front.now ++ ((ipv4_text first ++ 47 ∷ decimal len) ++ back.now)) result }
{
    let mut text = [0; 64];
    let end = write_dotted_between(&mut text, front, first, len, back);
    out.put(&text[..end])
}

#[inline(always)]
fn write_dotted_between(
    text: &mut [u8; 64],
    front: &[u8],
    first: u32,
    len: u8,
    back: &[u8],
) -> usize
    requires front_fits { length front.now ≤ 32 }
    requires back_fits { length back.now ≤ 8 }
    ensures items { take result text.new
        ≡ front.now ++ ((ipv4_text first ++ 47 ∷ decimal len) ++ back.now) }
    ensures len { result ≤ 64 }
{
    let start = write_bytes(text, 0, front);
    let end = write_ipv4(text, start, first);
    let slash = write_bytes(text, end, b"/");
    let length = write_octet(text, slash, len);
    write_bytes(text, length, back)
}

// A call for itself, so that the text of an IPv4 prefix is put together in registers.
#[inline(never)]
fn put_long_between<O: Out>(
    out: &mut O,
    front: &[u8],
    prefix: &Prefix,
    back: &[u8],
) -> Result<(), PutFault>
    requires { IsTrue (O.is_open out.old) }
    ensures { Puts O.Out out.old out.new (front.now ++ (prefix_text prefix.now ++ back.now)) result }
{
    let mut text = ShortText::new();
    if front.len() <= 8 && back.len() <= 8 {
        text.push_all(front);
        push_prefix(&mut text, prefix);
        text.push_all(back);
        out.put(text.as_slice())
    } else {
        push_prefix(&mut text, prefix);
        put_pieces(out, &[front, text.as_slice(), back])
    }
}

/// Puts the bits behind the length of an IPv4 prefix as an address: 255.255.255.255 for length 0, and 0.0.0.0
/// from length 32 on.
#[tactic(auto, unfolding(crate::specs::AddressTexts::wildcard_text))]
pub fn put_wildcard<O: Out>(out: &mut O, len: u8) -> Result<(), PutFault>
    requires { IsTrue (O.is_open out.old) }
    ensures { Puts O.Out out.old out.new (wildcard_text len) result }
{
    put_dotted(out, bits_behind(len))
}

fn bits_behind(len: u8) -> u32
    ensures { result ≡ 2 ^ (32 - len) - 1 }
{
    ((1u64 << 32u8.saturating_sub(len)) - 1) as u32
}
