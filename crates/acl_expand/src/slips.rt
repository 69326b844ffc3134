ghost use Rattle.std.specs.Prelude.{◌≡◌, ◌+◌, ◌-◌, ◌≤◌, ◌^◌, min, IfOk, None, Some, decimal, if◌then◌else◌};
ghost use Rattle.std.specs.List.{find};
ghost use Rattle.acl_text.specs.Refusals.{IsRefusalBy, Judges};
ghost use Rattle.acl_sets.specs.Ranges.{holds};
ghost use Rattle.acl_expand.specs.SlipSteps.{are_below_headers};
ghost use Rattle.acl_expand.specs.ExpansionSlips.{
  extension_headers,
  header_at,
  header_named,
  header_slip,
  is_for_ipv6,
  most_prefixes,
  prefix_slip,
  prefixes_of,
  rule_prefixes,
};

use acl_host::Day;
use acl_packet::Family;
use acl_platform::Rule;
use acl_sets::{Range, RangeSet};
use acl_target::Target;
use acl_terms::{Term, is_empty_in, is_live};
use acl_text::{Bytes, Code, Memory, Refusal};
use itoa::Buffer;
use std::alloc::Global;

const EXTENSION_HEADERS: [u8; 8] = [43, 44, 51, 59, 60, 135, 139, 140];

pub(crate) const MOST_PREFIXES: u64 = 200_000;

// The first of the numbers that is in the set.
fn first_held(protos: &RangeSet, numbers: &[u8]) -> Option<u8>
    ensures { result ≡ find (λ n. holds protos.now.ranges n) numbers.now }
{
    numbers
        .iter()
        .copied()
        .find(|n| protos.contains(u128::from(*n)))
}

// Whether all ranges end below the least of these numbers, as those of most terms do.
fn are_below_headers(ranges: &[Range]) -> bool
    ensures { result ≡ are_below_headers ranges.now }
{
    ranges.iter().all(|range| range.high <= 42)
}

fn header_in(protos: &RangeSet) -> Option<u8>
    requires { protos.now.top ≤ 65535 }
    ensures { result ≡ find (λ n. holds protos.now.ranges n) extension_headers }
{
    if are_below_headers(protos.range_slice()) {
        None
    } else {
        first_held(protos, &EXTENSION_HEADERS)
    }
}

fn header_named(term: &Term) -> Option<u8>
    ensures { result ≡ header_named term.now }
{
    if term.protos.is_all() {
        return None;
    }
    header_in(&term.protos)
}

fn is_for_ipv6(target: &Target, today: Day, term: &Term) -> bool
    ensures { result ≡ is_for_ipv6 target.now today term.now }
{
    is_live(term, target.kind, today)
        && target.families.covers(Family::V6)
        && !is_empty_in(term, Family::V6)
}

fn decimal(alloc: Global, number: u8) -> Result<Bytes, Memory>
    ensures { IfOk result (λ b. b ≡ decimal number) }
{
    let mut buffer = Buffer::new();
    Bytes::from_slice(alloc, buffer.format(number).as_bytes())
}

// The slip at the number of an extension header, where the term has rules for IPv6 on the target.
fn check_number(
    alloc: Global,
    target: &Target,
    today: Day,
    term: &Term,
    number: u8,
) -> Result<(), Refusal>
    ensures { Judges result (if is_for_ipv6 target.now today term.now then header_at term.now (Some number) else None) }
{
    if !is_for_ipv6(target, today, term) {
        return Ok(());
    }
    let word = decimal(alloc, number)?;
    Err(Refusal::at(alloc, Code::ExtensionHeader, term.place, word.as_slice()))
}

/// Whether the term has rules for IPv6 on the target and names no extension header, else the slip at the least one. Few
/// terms name one, so that is asked first.
#[tactic(auto, using(crate::proofs::HeaderLaws::none_asked, crate::proofs::HeaderLaws::one_asked))]
pub(crate) fn check_header(
    alloc: Global,
    target: &Target,
    today: Day,
    term: &Term,
) -> Result<(), Refusal>
    ensures { Judges result (header_slip target.now today term.now) }
{
    match header_named(term) {
        None => Ok(()),
        Some(number) => check_number(alloc, target, today, term, number),
    }
}

/// The slip at the term where the filter has too many prefixes with its rules.
pub(crate) fn check_prefixes(alloc: Global, term: &Term, prefixes: u64) -> Result<(), Refusal>
    ensures { Judges result (prefix_slip term.now prefixes) }
{
    if prefixes <= MOST_PREFIXES {
        Ok(())
    } else {
        let name = term.name.as_slice();
        Err(Refusal::at(alloc, Code::TooManyPrefixes, term.place, name))
    }
}

/// The number of prefixes of the rules' lists, from a number on; it stands still at the end of its type.
pub(crate) fn prefixes_behind(before: u64, rules: &[Rule]) -> u64
    ensures { result ≡ min (before + prefixes_of rules.now) (2 ^ 64 - 1) }
{
    let mut count = before;
    for rule in rules {
        count = count
            .saturating_add(rule.src.count())
            .saturating_add(rule.dst.count());
    }
    count
}
