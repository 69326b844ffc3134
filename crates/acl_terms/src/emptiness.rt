ghost use Rattle.std.specs.Prelude.{◌≡◌, ◌↔◌, ◌||◌, IsTrue};
ghost use Rattle.std.specs.List.{list_all, list_any};
ghost use Rattle.acl_sets.specs.Ranges.{holds};
ghost use Rattle.acl_terms.specs.Resolved.{
  IsEmptyIn,
  IsPairEmpty,
  destination_cut,
  destinations_on,
  dports_on,
  has_no_protocol,
  has_none,
  in_both,
  is_empty_in,
  is_just,
  is_pair_empty,
  pairs_of,
  source_cut,
  sources_on,
  sports_on,
};

use crate::matching::{destination_in, either_in, source_in};
use crate::side_sets::pairs_of;
use crate::sides::{Side, SidePair};
use crate::terms::Term;
use acl_packet::Family;
use acl_sets::{Range, RangeSet, Ranges};

// ---- protocols

fn is_just(number: u8, range: &Range) -> bool
    ensures { result ≡ is_just number range.now }
{
    range.low == u128::from(number) && range.high == u128::from(number)
}

fn are_just(number: u8, ranges: &[Range]) -> bool
    ensures { result ≡ list_all (is_just number) ranges.now }
{
    ranges.iter().all(|r| is_just(number, r))
}

// Of most terms the first range tells it.
#[tactic(auto, using(crate::proofs::EmptyLaws::protocol_tests))]
fn has_no_protocol(family: Family, term: &Term) -> bool
    ensures { result ≡ has_no_protocol family term.now }
{
    are_just(family.foreign_number(), term.protos.range_slice()) && !term.protos.is_all()
}

// ---- what two sets share

fn begins_in(set: &RangeSet, ranges: Ranges<'_>) -> bool
    ensures { result ≡ list_any (λ r. holds set.now.ranges r.low) ranges.entry }
{
    for range in ranges {
        if set.contains(range.low) {
            return true;
        }
    }
    false
}

// Whether no number is in both sets. Where one is, a range of the one begins in the other; so no memory is needed.
#[tactic(auto, using(crate::proofs::SideLaws::apart_law))]
fn are_apart(set: &RangeSet, other: &RangeSet) -> bool
    requires { set.now.top ≡ other.now.top }
    ensures { result ≡ has_none (in_both set.now other.now) }
{
    let ranges = set.ranges();
    let others = other.ranges();
    !(begins_in(set, others) || begins_in(other, ranges))
}

// ---- sides

fn has_no_source(side: Side, set: &RangeSet, either: &RangeSet) -> bool
    requires { set.now.top ≡ either.now.top }
    ensures { result ≡ has_none (source_cut side set.now either.now) }
{
    match side {
        Side::Source => are_apart(set, either),
        Side::Whole | Side::Destination => set.is_empty(),
    }
}

fn has_no_destination(side: Side, set: &RangeSet, either: &RangeSet) -> bool
    requires { set.now.top ≡ either.now.top }
    ensures { result ≡ has_none (destination_cut side set.now either.now) }
{
    match side {
        Side::Destination => are_apart(set, either),
        Side::Whole | Side::Source => set.is_empty(),
    }
}

#[tactic(auto, using(crate::proofs::SideLaws::source_tops, crate::proofs::SideLaws::destination_tops))]
fn lacks_addresses(term: &Term, family: Family, side: Side) -> bool
    ensures { result ≡ (has_none (sources_on side family term.now)
        || has_none (destinations_on side family term.now)) }
{
    let either = either_in(family, term);
    has_no_source(side, source_in(family, term), either)
        || has_no_destination(side, destination_in(family, term), either)
}

// Where nothing is asked of either port, a term has some of both.
fn lacks_ports(term: &Term, side: Side) -> bool
    ensures { result ≡ (has_none (sports_on side term.now) || has_none (dports_on side term.now)) }
{
    match side {
        Side::Whole => false,
        Side::Source | Side::Destination => {
            has_no_source(side, &term.sports, &term.ports)
                || has_no_destination(side, &term.dports, &term.ports)
        }
    }
}

#[tactic(auto, using(crate::proofs::EmptyLaws::pair_tests))]
fn has_nothing_on(term: &Term, family: Family, pair: SidePair) -> bool
    ensures { result ≡ is_pair_empty family term.now pair }
{
    lacks_addresses(term, family, pair.addresses)
        || lacks_ports(term, pair.ports)
        || has_no_protocol(family, term)
}

/// Whether the term is empty on the pair of sides, in the family: its source, its destination, its source ports, its
/// destination ports or its protocols there are none.
pub fn is_pair_empty(term: &Term, family: Family, pair: SidePair) -> bool
    ensures exact { IsTrue result ↔ IsPairEmpty family term.now pair }
    ensures computed { result ≡ is_pair_empty family term.now pair }
{
    has_nothing_on(term, family, pair)
}

// ---- the whole term

fn are_empty(pairs: &[SidePair], term: &Term, family: Family) -> bool
    ensures { result ≡ list_all (is_pair_empty family term.now) pairs.now }
{
    pairs.iter().all(|pair| has_nothing_on(term, family, *pair))
}

#[tactic(auto, unfolding(crate::specs::Resolved::is_empty_in))]
fn has_nothing_in(term: &Term, family: Family) -> bool
    ensures { result ≡ is_empty_in family term.now }
{
    are_empty(pairs_of(term), term, family)
}

/// Whether the term is empty in the family: it is on each pair of its sides. Where protocols are named, 58 is none of
/// IPv4 and 1 none of IPv6.
pub fn is_empty_in(term: &Term, family: Family) -> bool
    ensures exact { IsTrue result ↔ IsEmptyIn family term.now }
    ensures computed { result ≡ is_empty_in family term.now }
{
    has_nothing_in(term, family)
}
