ghost use Rattle.std.specs.Prelude.{◌≡◌};
ghost use Rattle.std.specs.Str.{bytes_eq};
ghost use Rattle.cisco_lang.specs.AddressReading.{wildcard_length, next_word, take_address, take_masked, take_place};
ghost use Rattle.cisco_lang.specs.ReadingSteps.{proto_in, take_port, take_ports, take_number, take_flags, entry_in};

use crate::documents::{Entry, Flags};
use acl_packet::{Family, Prefix};
use acl_rows::RowWords;
use acl_text::{read_address, read_spelled_prefix, read_u8, read_u16};

/// The entry of the words, each of which is told by its place. No words are refused.
#[tactic(auto, unfolding(crate::specs::ReadingSteps::entry_in))]
pub(crate) fn entry_of(family: Family, words: RowWords<'_>) -> Entry
    ensures { result ≡ entry_in family words.entry }
{
    let (action, words) = next_word(words);
    let (protocol, words) = next_word(words);
    let (src, words) = take_place(family, words);
    let (sport, words) = take_ports(words);
    let (dst, words) = take_place(family, words);
    let (dport, words) = take_ports(words);
    let (itype, words) = take_number(254, words);
    let (icode, words) = take_number(255, words);
    let (flags, words) = take_flags(words);
    let (last, _) = next_word(words);
    Entry {
        permit: is(action, "permit"),
        proto: protocol_of(family, protocol),
        src,
        sport,
        dst,
        dport,
        itype,
        icode,
        flags,
        log: is(last, "log"),
    }
}

/// The next word, which is empty where there is none, and the words behind it.
#[tactic(auto, unfolding(crate::specs::AddressReading::next_word))]
pub fn next_word<'a>(words: RowWords<'a>) -> (&'a [u8], RowWords<'a>)
    ensures { (result.0.now, result.1) ≡ next_word words.entry }
{
    let mut rest = words;
    match rest.next() {
        Some(word) => (word, rest),
        None => (&[], rest),
    }
}

fn is(word: &[u8], text: &str) -> bool
    ensures { result ≡ bytes_eq word.now text.now }
{
    word == text.as_bytes()
}

#[tactic(auto, unfolding(crate::specs::ReadingSteps::proto_in))]
fn protocol_of(family: Family, word: &[u8]) -> Option<u8>
    ensures { result ≡ proto_in family word.now }
{
    if is(word, "tcp") {
        Some(6)
    } else if is(word, "udp") {
        Some(17)
    } else if is(word, "icmp") {
        Some(family.icmp_number())
    } else {
        read_u8(word, 255)
    }
}

/// The address of an entry that the words begin with, read leniently: `any`, `host` and an address, an
/// address and its wildcard, or in IPv6 a prefix. And the words behind it.
#[tactic(auto, unfolding(crate::specs::AddressReading::take_place))]
pub fn take_place<'a>(family: Family, words: RowWords<'a>) -> (Prefix, RowWords<'a>)
    ensures { result ≡ take_place family words.entry }
{
    let (word, rest) = next_word(words.copy());
    if is(word, "any") {
        (Prefix::everywhere(family), rest)
    } else if is(word, "host") {
        let (first, rest) = take_address(family, rest);
        let len = family.width();
        (Prefix { family, first, len }, rest)
    } else {
        take_masked(family, words)
    }
}

#[tactic(auto, unfolding(crate::specs::AddressReading::take_masked))]
fn take_masked<'a>(family: Family, words: RowWords<'a>) -> (Prefix, RowWords<'a>)
    ensures { result ≡ take_masked family words.entry }
{
    match family {
        Family::V4 => {
            let (first, rest) = take_address(family, words);
            let (wildcard, rest) = take_address(family, rest);
            let len = wildcard_length(wildcard);
            (Prefix { family, first, len }, rest)
        }
        Family::V6 => {
            let (word, rest) = next_word(words);
            let place = read_spelled_prefix(family, word);
            (place.unwrap_or(Prefix::everywhere(family)), rest)
        }
    }
}

#[tactic(auto, unfolding(crate::specs::AddressReading::take_address))]
fn take_address<'a>(family: Family, words: RowWords<'a>) -> (u128, RowWords<'a>)
    ensures { result ≡ take_address family words.entry }
{
    let (word, rest) = next_word(words);
    (read_address(family, word).unwrap_or(0), rest)
}

fn wildcard_length(wildcard: u128) -> u8
    ensures { result ≡ wildcard_length wildcard }
{
    wildcard.leading_zeros().saturating_sub(96) as u8
}

#[tactic(auto, unfolding(crate::specs::ReadingSteps::take_ports))]
fn take_ports<'a>(words: RowWords<'a>) -> (Option<(u16, u16)>, RowWords<'a>)
    ensures { result ≡ take_ports words.entry }
{
    let (word, rest) = next_word(words.copy());
    if is(word, "eq") {
        let (port, rest) = take_port(rest);
        (Some((port, port)), rest)
    } else if is(word, "range") {
        let (low, rest) = take_port(rest);
        let (high, rest) = take_port(rest);
        (Some((low, high)), rest)
    } else {
        (None, words)
    }
}

#[tactic(auto, unfolding(crate::specs::ReadingSteps::take_port))]
fn take_port<'a>(words: RowWords<'a>) -> (u16, RowWords<'a>)
    ensures { result ≡ take_port words.entry }
{
    let (word, rest) = next_word(words);
    (read_u16(word, 65535).unwrap_or(0), rest)
}

#[tactic(auto, unfolding(crate::specs::ReadingSteps::take_number))]
fn take_number<'a>(most: u8, words: RowWords<'a>) -> (Option<u8>, RowWords<'a>)
    ensures { result ≡ take_number most words.entry }
{
    let (word, rest) = next_word(words.copy());
    match read_u8(word, most) {
        Some(number) => (Some(number), rest),
        None => (None, words),
    }
}

#[tactic(auto, unfolding(crate::specs::ReadingSteps::take_flags))]
fn take_flags<'a>(words: RowWords<'a>) -> (Option<Flags>, RowWords<'a>)
    ensures { result ≡ take_flags words.entry }
{
    let (word, rest) = next_word(words.copy());
    if is(word, "established") {
        (Some(Flags::Established), rest)
    } else if is(word, "rst") {
        (Some(Flags::Rst), rest)
    } else if is(word, "match-all") {
        let (_, rest) = next_word(rest);
        let (_, rest) = next_word(rest);
        (Some(Flags::SynNotAck), rest)
    } else {
        (None, words)
    }
}
