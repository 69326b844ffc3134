ghost use Rattle.std.specs.Prelude.{◌≡◌, ℕ, ◌≤◌, false, IfNone, IfSome};
ghost use Rattle.std.specs.Char.{is_ascii_digit};
ghost use Rattle.acl_text.specs.PortRanges.{IsPortsWord, port_in, port_pair_in, ports_in};

use crate::cuts::split_at_byte;
use acl_packet::read_u16;

/// The ports that the word spells, both ends included: one port, or the lower and the higher one with the
/// separator between.
pub fn read_ports(word: &[u8], separator: u8) -> Option<(u16, u16)>
    requires { is_ascii_digit separator ≡ false }
    ensures some { IfSome result (λ p. IsPortsWord separator word.now p) }
    ensures none { IfNone result ((p : ℕ × ℕ) → IsPortsWord separator word.now p → ⊥) }
    ensures exact { result ≡ ports_in separator word.now }
{
    ports_of(word, separator)
}

#[tactic(auto, unfolding(crate::specs::PortRanges::ports_in))]
fn ports_of(word: &[u8], separator: u8) -> Option<(u16, u16)>
    ensures { result ≡ ports_in separator word.now }
{
    match split_at_byte(word, separator) {
        Some((first, second)) => read_pair(first, second),
        None => read_single(word),
    }
}

#[tactic(auto, unfolding(crate::specs::PortRanges::port_pair_in))]
fn read_pair(first: &[u8], second: &[u8]) -> Option<(u16, u16)>
    ensures { result ≡ port_pair_in first.now second.now }
{
    let low = read_u16(first, 65535)?;
    let high = read_u16(second, 65535)?;
    if low <= high { Some((low, high)) } else { None }
}

#[tactic(auto, unfolding(crate::specs::PortRanges::port_in))]
fn read_single(word: &[u8]) -> Option<(u16, u16)>
    ensures { result ≡ port_in word.now }
{
    let port = read_u16(word, 65535)?;
    Some((port, port))
}
