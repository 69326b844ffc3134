ghost use Rattle.std.specs.Prelude.{◌≡◌, ◌≤◌, ℕ, List, IfSome};
ghost use Rattle.acl_packet.specs.declared.addresses.Family.TheVariants.{V4};
ghost use Rattle.acl_packet.specs.Addresses.{width_of};
ghost use Rattle.acl_text.specs.AddressTexts.{IsPrefixText, block_of};
ghost use Rattle.acl_text.specs.Fronts.{IsAddressFront, IsPrefixFront};

use crate::hex_digits::hex_value;
use crate::ipv4_fronts::{behind_byte, byte_front, ipv4_front};
use crate::ipv6_fronts::ipv6_front;
use crate::prefixes::{IPV4_TOP, block_of};
use acl_packet::{Family, Prefix};

// The block of an IPv4 address. Its bits are cleared in one register, where a `u128` takes two.
#[inline(always)]
fn ipv4_block(address: u32, len: u8) -> Prefix
    requires { len ≤ 32 }
    ensures { result ≡ block_of V4 address len }
{
    let free = 32 - len;
    let first = (u64::from(address) >> free) << free;
    Prefix {
        family: Family::V4,
        first: u128::from(first),
        len,
    }
}

#[inline(always)]
fn quick_block(family: Family, address: u128, len: u8) -> Prefix
    requires { len ≤ width_of family }
    ensures { result ≡ block_of family address len }
{
    match family {
        Family::V4 if address <= IPV4_TOP => ipv4_block(address as u32, len),
        _ => block_of(family, address, len),
    }
}

// The prefix of an address, and what stands behind the prefix's word, in a text that begins with the address and has the
// rest behind it.
#[inline(always)]
fn prefix_behind(family: Family, address: u128, rest: &[u8]) -> Option<(Prefix, &[u8])>
    ensures { IfSome result (λ r. (text : List ℕ) → IsAddressFront family text rest.now address → IsPrefixFront text r.1.now r.0) }
{
    let Some(behind) = behind_byte(rest, b'/') else {
        return Some((quick_block(family, address, family.width()), rest));
    };
    let (len, rest) = byte_front(behind)?;
    if len > u32::from(family.width()) {
        return None;
    }
    Some((quick_block(family, address, len as u8), rest))
}

// Apart, since it takes many registers.
#[inline(never)]
fn ipv6_prefix_front(text: &[u8]) -> Option<(Prefix, &[u8])>
    ensures { IfSome result (λ r. IsPrefixFront text.now r.1.now r.0) }
{
    let (address, rest) = ipv6_front(text)?;
    prefix_behind(Family::V6, address, rest)
}

// Apart from the look at the first byte, which stands where it is asked for.
#[inline(never)]
fn any_prefix_front(text: &[u8]) -> Option<(Prefix, &[u8])>
    ensures { IfSome result (λ r. IsPrefixFront text.now r.1.now r.0) }
{
    match ipv4_front(text) {
        Some((address, rest)) => prefix_behind(Family::V4, u128::from(address), rest),
        None => ipv6_prefix_front(text),
    }
}

/// The prefix whose word the text begins with, and what stands behind the word, in one pass over its bytes. `None` says
/// nothing.
#[inline(always)]
pub fn prefix_front(text: &[u8]) -> Option<(Prefix, &[u8])>
    ensures { IfSome result (λ r. IsPrefixFront text.now r.1.now r.0) }
{
    // most names begin with another byte
    match text {
        [first, ..] if *first == b':' || hex_value(*first).is_some() => any_prefix_front(text),
        _ => None,
    }
}

/// The prefix that the word spells. `None` says nothing.
#[tactic(auto, using(crate::proofs::PrefixFronts::whole_front))]
pub(crate) fn read_at_once(word: &[u8]) -> Option<Prefix>
    ensures { IfSome result (λ p. IsPrefixText word.now p) }
{
    let (prefix, rest) = prefix_front(word)?;
    if rest.is_empty() { Some(prefix) } else { None }
}
