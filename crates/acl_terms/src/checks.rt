ghost use Rattle.std.specs.Prelude.{◌≡◌, is_some};
ghost use Rattle.std.specs.List.{list_all};
ghost use Rattle.acl_packet.specs.Packets.{has_ports};
ghost use Rattle.acl_text.specs.Refusals.{IsRefusalBy, Judges, first_in, first_some};
ghost use Rattle.acl_terms.specs.Matching.{icmp_family, is_number, only, type_in, types_of};
ghost use Rattle.acl_terms.specs.Options.{option_of, opt_named, verdict_of};
ghost use Rattle.acl_terms.specs.SetSteps.{ports_by_ends_slip};
ghost use Rattle.acl_terms.specs.Slips.{are_one, clash_slip, codes_slip, first_unless, is_tcp_or_udp, option_fits, option_slip, port_protocol_slip, reset_slip, same_slip, slip_at, type_slip, types_slip, unless, verdict_fits, words_slips};

use crate::options::Opt;
use crate::protocols::types_of;
use acl_packet::{Family, Verdict, has_ports, icmp_number};
use acl_policy::{RawTerm, WordList, WordRef, WordsLeft};
use acl_text::{Code, Refusal};
use std::alloc::Global;

/// The slip at the word, or want of memory for its text.
pub(crate) fn refusal_at(alloc: Global, code: Code, word: &WordRef<'_>) -> Refusal
    ensures { IsRefusalBy (slip_at code word.now) result }
{
    Refusal::at(alloc, code, word.place(), word.text())
}

fn refuse_unless(alloc: Global, passed: bool, code: Code, word: &WordRef<'_>) -> Result<(), Refusal>
    ensures { Judges result (unless passed code word.now) }
{
    if passed {
        Ok(())
    } else {
        Err(refusal_at(alloc, code, word))
    }
}

fn check_first(alloc: Global, passed: bool, code: Code, words: &WordList) -> Result<(), Refusal>
    ensures { Judges result (first_unless passed code words.now) }
{
    if passed {
        return Ok(());
    }
    match words.first() {
        None => Ok(()),
        Some(first) => refuse_unless(alloc, passed, code, &first),
    }
}

// ---- tests on the protocols of a term

fn all_have_ports(protos: &[u8]) -> bool
    ensures { result ≡ list_all has_ports protos.now }
{
    protos.iter().all(|n| has_ports(*n))
}

fn only_ports(protos: &[u8]) -> bool
    ensures { result ≡ only has_ports protos.now }
{
    match protos {
        [] => false,
        [_, ..] => all_have_ports(protos),
    }
}

fn are_number(protos: &[u8], number: u8) -> bool
    ensures { result ≡ list_all (is_number number) protos.now }
{
    protos.iter().all(|n| *n == number)
}

fn only_number(protos: &[u8], number: u8) -> bool
    ensures { result ≡ only (is_number number) protos.now }
{
    match protos {
        [] => false,
        [_, ..] => are_number(protos, number),
    }
}

fn are_tcp_or_udp(protos: &[u8]) -> bool
    ensures { result ≡ list_all is_tcp_or_udp protos.now }
{
    protos.iter().all(|n| *n == 6 || *n == 17)
}

fn only_tcp_or_udp(protos: &[u8]) -> bool
    ensures { result ≡ only is_tcp_or_udp protos.now }
{
    match protos {
        [] => false,
        [_, ..] => are_tcp_or_udp(protos),
    }
}

/// The family whose ICMP is the one protocol that is named.
pub(crate) fn icmp_family(protos: &[u8]) -> Option<Family>
    ensures { result ≡ icmp_family protos.now }
{
    if only_number(protos, 1) {
        Some(Family::V4)
    } else if only_number(protos, 58) {
        Some(Family::V6)
    } else {
        None
    }
}

/// The number of a type's word in the family.
pub(crate) fn type_in(family: Option<Family>, text: &[u8]) -> Option<u8>
    ensures { result ≡ type_in family text.now }
{
    match family {
        None => None,
        Some(family) => icmp_number(family, text),
    }
}

fn is_type_in(family: Option<Family>, text: &[u8]) -> bool
    ensures { result ≡ is_some (type_in family text.now) }
{
    match type_in(family, text) {
        None => false,
        Some(_) => true,
    }
}

fn are_one(numbers: &[u8]) -> bool
    ensures { result ≡ are_one numbers.now }
{
    match numbers {
        [] => false,
        [first, rest @ ..] => are_number(rest, *first),
    }
}

// ---- words that stand for one thing

fn opt_named(text: &[u8]) -> Opt
    ensures { result ≡ opt_named text.now }
{
    if text == b"established".as_slice() {
        Opt::Established
    } else if text == b"tcp-established".as_slice() {
        Opt::TcpEstablished
    } else if text == b"tcp-initial".as_slice() {
        Opt::TcpInitial
    } else {
        Opt::Rst
    }
}

/// The option of the words of `option::`.
pub(crate) fn option_of(words: &WordList) -> Opt
    ensures { result ≡ option_of words.now }
{
    match words.first() {
        None => Opt::Plain,
        Some(first) => opt_named(first.text()),
    }
}

/// The verdict of the word of `action::`.
pub(crate) fn verdict_of(text: &[u8]) -> Verdict
    ensures { result ≡ verdict_of text.now }
{
    if text == b"accept".as_slice() {
        Verdict::Accept
    } else if text == b"deny".as_slice() {
        Verdict::Deny
    } else if text == b"reject".as_slice() {
        Verdict::Reject
    } else {
        Verdict::Reset
    }
}

// ---- the questions on words

fn option_fits(option: Opt, protos: &[u8]) -> bool
    ensures { result ≡ option_fits option protos.now }
{
    match option {
        Opt::Plain => true,
        Opt::Established => only_tcp_or_udp(protos),
        Opt::TcpEstablished | Opt::TcpInitial | Opt::Rst => only_number(protos, 6),
    }
}

fn verdict_fits(verdict: Verdict, protos: &[u8]) -> bool
    ensures { result ≡ verdict_fits verdict protos.now }
{
    match verdict {
        Verdict::Reset => only_number(protos, 6),
        Verdict::Accept | Verdict::Deny | Verdict::Reject | Verdict::Left => true,
    }
}

fn check_types(alloc: Global, family: Option<Family>, words: &WordList) -> Result<(), Refusal>
    ensures { Judges result (first_in (type_slip family) words.now) }
{
    for word in words.iter() {
        let passed = is_type_in(family, word.text());
        refuse_unless(alloc, passed, Code::IcmpProtocol, &word)?;
    }
    Ok(())
}

// The types are asked only where a code is written.
fn check_codes(alloc: Global, family: Option<Family>, raw: &RawTerm) -> Result<(), Refusal>
    ensures { Judges result (first_unless (are_one (types_of family raw.now.icmp_types))
        Code.IcmpCode raw.now.icmp_codes) }
{
    match raw.icmp_codes().first() {
        None => Ok(()),
        Some(first) => {
            let types = types_of(alloc, family, raw.icmp_types())?;
            refuse_unless(alloc, are_one(&types), Code::IcmpCode, &first)
        }
    }
}

fn check_same(alloc: Global, first: &WordRef<'_>, words: WordsLeft<'_>) -> Result<(), Refusal>
    ensures { Judges result (first_in (same_slip first.now) words.entry) }
{
    for word in words {
        let passed = word.text() == first.text();
        refuse_unless(alloc, passed, Code::OptionClash, &word)?;
    }
    Ok(())
}

fn check_clash(alloc: Global, words: &WordList) -> Result<(), Refusal>
    ensures { Judges result (clash_slip words.now) }
{
    let mut left = words.iter();
    match left.next() {
        None => Ok(()),
        Some(first) => check_same(alloc, &first, left),
    }
}

fn check_option(alloc: Global, protos: &[u8], words: &WordList) -> Result<(), Refusal>
    ensures { Judges result (option_slip protos.now words.now) }
{
    check_first(
        alloc,
        option_fits(option_of(words), protos),
        Code::OptionProtocol,
        words,
    )
}

fn check_reset(alloc: Global, protos: &[u8], word: &WordRef<'_>) -> Result<(), Refusal>
    ensures { Judges result (reset_slip protos.now word.now) }
{
    let verdict = verdict_of(word.text());
    refuse_unless(
        alloc,
        verdict_fits(verdict, protos),
        Code::ResetProtocol,
        word,
    )
}

fn check_ports_by_ends(alloc: Global, passed: bool, raw: &RawTerm) -> Result<(), Refusal>
    ensures { Judges result (ports_by_ends_slip passed raw.now) }
{
    check_first(alloc, passed, Code::PortProtocol, raw.source_ports())?;
    check_first(alloc, passed, Code::PortProtocol, raw.destination_ports())?;
    check_first(alloc, passed, Code::PortProtocol, raw.ports())
}

/// Whether ports stand only with TCP, UDP and SCTP. The slip is at the first word of ports.
#[tactic(auto, using(crate::proofs::SlipLaws::port_protocol_by_ends))]
pub(crate) fn check_port_protocol(
    alloc: Global,
    protos: &[u8],
    raw: &RawTerm,
) -> Result<(), Refusal>
    ensures { Judges result (port_protocol_slip protos.now raw.now) }
{
    check_ports_by_ends(alloc, only_ports(protos), raw)
}

/// The questions on words that are no names: ICMP types and codes, options, the action.
pub(crate) fn check_words(alloc: Global, protos: &[u8], raw: &RawTerm) -> Result<(), Refusal>
    ensures { Judges result (first_some (words_slips protos.now raw.now)) }
{
    check_types(alloc, icmp_family(protos), raw.icmp_types())?;
    check_codes(alloc, icmp_family(protos), raw)?;
    check_clash(alloc, raw.options())?;
    check_option(alloc, protos, raw.options())?;
    check_reset(alloc, protos, &raw.action().borrowed())
}
