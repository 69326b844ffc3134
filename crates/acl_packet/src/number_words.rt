ghost use Rattle.std.specs.Prelude.{◌≡◌, ℕ, IfNone, IfSome, map};
ghost use Rattle.acl_packet.specs.NumberWordSteps.{IsOfNames, begins_with_digit};
ghost use Rattle.acl_packet.specs.NumberWords.{
  IsProtocolWord,
  IsTypeWord,
  icmp_in,
  protocol_in,
  row_of,
  row_or_number,
};

use crate::addresses::Family;
use crate::decimals::read_u8;

const PROTOCOLS: [(&[u8], u8); 13] = [
    (b"icmp", 1),
    (b"igmp", 2),
    (b"ipip", 4),
    (b"tcp", 6),
    (b"udp", 17),
    (b"gre", 47),
    (b"esp", 50),
    (b"ah", 51),
    (b"icmpv6", 58),
    (b"ospf", 89),
    (b"pim", 103),
    (b"vrrp", 112),
    (b"sctp", 132),
];

const ICMP_TYPES: [(&[u8], u8); 11] = [
    (b"echo-reply", 0),
    (b"unreachable", 3),
    (b"source-quench", 4),
    (b"redirect", 5),
    (b"echo-request", 8),
    (b"router-advertisement", 9),
    (b"router-solicitation", 10),
    (b"time-exceeded", 11),
    (b"parameter-problem", 12),
    (b"timestamp-request", 13),
    (b"timestamp-reply", 14),
];

const ICMPV6_TYPES: [(&[u8], u8); 11] = [
    (b"destination-unreachable", 1),
    (b"packet-too-big", 2),
    (b"time-exceeded", 3),
    (b"parameter-problem", 4),
    (b"echo-request", 128),
    (b"echo-reply", 129),
    (b"router-solicit", 133),
    (b"router-advertisement", 134),
    (b"neighbor-solicit", 135),
    (b"neighbor-advertisement", 136),
    (b"redirect-message", 137),
];

/// The protocol that the word names: by its name in IANA's list, or by a decimal 1 to 255 without a leading zero.
pub fn protocol_number(word: &[u8]) -> Option<u8>
    ensures some { IfSome result (λ n. IsProtocolWord word.now n) }
    ensures none { IfNone result ((n : ℕ) → IsProtocolWord word.now n → ⊥) }
    ensures exact { result ≡ protocol_in word.now }
{
    protocol_of(word)
}

/// The ICMP type that the word names in the family: by its name, or by a decimal 0 to 254 without a leading zero.
pub fn icmp_number(family: Family, word: &[u8]) -> Option<u8>
    ensures some { IfSome result (λ n. IsTypeWord family word.now n) }
    ensures none { IfNone result ((n : ℕ) → IsTypeWord family word.now n → ⊥) }
    ensures exact { result ≡ icmp_in family word.now }
{
    type_of(family, word)
}

#[tactic(auto, unfolding(crate::specs::NumberWords::protocol_in))]
fn protocol_of(word: &[u8]) -> Option<u8>
    ensures { result ≡ protocol_in word.now }
{
    number_by(&PROTOCOLS, 1, 255, word)
}

#[tactic(auto, unfolding(crate::specs::NumberWords::icmp_in))]
fn type_of(family: Family, word: &[u8]) -> Option<u8>
    ensures { result ≡ icmp_in family word.now }
{
    match family {
        Family::V4 => number_by(&ICMP_TYPES, 0, 254, word),
        Family::V6 => number_by(&ICMPV6_TYPES, 0, 254, word),
    }
}

// No name begins with a digit, so a word that does is looked for in no row.
#[tactic(auto, unfolding(crate::specs::NumberWords::row_or_number), using(crate::proofs::NumberWordLaws::digits_have_no_row))]
fn number_by(table: &[(&[u8], u8)], least: u8, most: u8, word: &[u8]) -> Option<u8>
    requires { IsOfNames (map (λ r. (r.0.now, r.1)) table.now) }
    ensures { result ≡ row_or_number (map (λ r. (r.0.now, r.1)) table.now) least most word.now }
{
    if !begins_with_digit(word) {
        if let Some(number) = row_of(table, word) {
            return Some(number);
        }
    }
    let number = read_u8(word, most)?;
    if number < least { None } else { Some(number) }
}

fn begins_with_digit(word: &[u8]) -> bool
    ensures { result ≡ begins_with_digit word.now }
{
    match word {
        [first, ..] => first.is_ascii_digit(),
        [] => false,
    }
}

fn row_of(table: &[(&[u8], u8)], word: &[u8]) -> Option<u8>
    ensures { result ≡ row_of (map (λ r. (r.0.now, r.1)) table.now) word.now }
{
    for (text, number) in table {
        if word == *text {
            return Some(*number);
        }
    }
    None
}
