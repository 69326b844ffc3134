ghost use Rattle.std.specs.Prelude.{◌≡◌, ℕ, ◌<◌, ◌&&◌, ◌||◌, false, [], ◌∷◌, IfNone, IfSome, length, not};
ghost use Rattle.std.specs.List.{list_all, list_any, position};
ghost use Rattle.acl_sets.specs.ComputableSets.{covers};
ghost use Rattle.acl_packet.specs.Packets.{icmp_fields};
ghost use Rattle.acl_terms.specs.Resolved.{destination_in, either_in, set_in, source_in, is_term_live};
ghost use Rattle.acl_shade.specs.ComputableShading.{
  addresses_within,
  field_within,
  fits_in,
  has_above,
  has_below,
  has_others,
  is_live_where,
  lies_within,
  lies_within_in,
  lies_within_in_each,
  numbers_within,
  option_covers,
  ports_within,
  protocols_within,
  shaded_by,
  shades,
  some_within,
};
ghost use Rattle.acl_shade.specs.Shading.{IsShadedBy, ShadesAt};

use acl_host::Day;
use acl_packet::{Family, Field};
use acl_sets::{Range, RangeSet};
use acl_target::Target;
use acl_terms::{Opt, Term, destination_in, either_in, is_empty_in, is_live, set_in, source_in};

// ---- ports, fields of ICMP and options

#[tactic(auto, using(crate::proofs::FamilyLaws::field_tops))]
fn field_within(earlier: &Term, term: &Term, field: Field) -> bool
    ensures { result ≡ field_within earlier.now term.now field }
{
    set_in(field, term).subset_of(set_in(field, earlier))
}

// Whether one of three sets lies within the other: what is asked of either side, and what of each.
fn some_within(
    other: &RangeSet,
    either: &RangeSet,
    source: &RangeSet,
    destination: &RangeSet,
) -> bool
    requires either { either.now.top ≡ other.now.top }
    requires source { source.now.top ≡ other.now.top }
    requires destination { destination.now.top ≡ other.now.top }
    ensures { result ≡ some_within (either.now ∷ source.now ∷ destination.now ∷ []) other.now }
{
    lies_within(either, other) || lies_within(source, other) || lies_within(destination, other)
}

fn either_ports_within(earlier: &Term, term: &Term) -> bool
    ensures { result ≡ some_within (term.now.ports ∷ term.now.sports ∷ term.now.dports ∷ [])
        earlier.now.ports }
{
    some_within(&earlier.ports, &term.ports, &term.sports, &term.dports)
}

// Destination ports come first, since most terms differ there.
fn ports_within(earlier: &Term, term: &Term) -> bool
    ensures { result ≡ ports_within earlier.now term.now }
{
    field_within(earlier, term, Field::DestinationPort)
        && field_within(earlier, term, Field::SourcePort)
        && either_ports_within(earlier, term)
}

#[tactic(auto, using(crate::proofs::FamilyLaws::and_true))]
fn icmp_within(earlier: &Term, term: &Term) -> bool
    ensures { result ≡ list_all (field_within earlier.now term.now) icmp_fields }
{
    field_within(earlier, term, Field::IcmpType) && field_within(earlier, term, Field::IcmpCode)
}

fn numbers_within(earlier: &Term, term: &Term) -> bool
    ensures { result ≡ numbers_within earlier.now term.now }
{
    ports_within(earlier, term) && icmp_within(earlier, term)
}

fn option_covers(earlier: &Term, term: &Term) -> bool
    ensures { result ≡ option_covers earlier.now.option earlier.now.dport_named
        term.now.option term.now.dport_named }
{
    match (earlier.option, term.option) {
        (Opt::Plain, _) => true,
        (Opt::Established, Opt::Established) => earlier.dport_named || !term.dport_named,
        (Opt::TcpEstablished, Opt::TcpEstablished) => true,
        (Opt::TcpInitial, Opt::TcpInitial) => true,
        (Opt::Rst, Opt::Rst) => true,
        (_, _) => false,
    }
}

// ---- addresses and protocols

// A set of as many ranges is long. Shorter ones are walked through as quickly as a number is looked up.
const LONG: usize = 32;

// Whether a number from the middle of a long set is in the other. It is found at once, where the sets are walked
// through to their first difference; at their ends many sets are alike.
fn has_middle_of(other: &RangeSet, set: &RangeSet) -> bool
    ensures { result ≡ false → lies_within set.now other.now ≡ false }
{
    let ranges = set.ranges();
    if ranges.len() < LONG {
        return true;
    }
    other.contains(ranges.at(ranges.len() / 2).low)
}

// Most long sets that do not lie within another have a number in their middle that the other has not.
fn lies_within(set: &RangeSet, other: &RangeSet) -> bool
    requires { set.now.top ≡ other.now.top }
    ensures { result ≡ lies_within set.now other.now }
{
    has_middle_of(other, set) && set.subset_of(other)
}

fn source_within(family: Family, earlier: &Term, term: &Term) -> bool
    ensures { result ≡ lies_within (source_in family term.now) (source_in family earlier.now) }
{
    lies_within(source_in(family, term), source_in(family, earlier))
}

fn destination_within(family: Family, earlier: &Term, term: &Term) -> bool
    ensures { result ≡ lies_within (destination_in family term.now)
        (destination_in family earlier.now) }
{
    lies_within(
        destination_in(family, term),
        destination_in(family, earlier),
    )
}

fn either_within(family: Family, earlier: &Term, term: &Term) -> bool
    ensures { result ≡ some_within (either_in family term.now ∷ source_in family term.now
        ∷ destination_in family term.now ∷ []) (either_in family earlier.now) }
{
    some_within(
        either_in(family, earlier),
        either_in(family, term),
        source_in(family, term),
        destination_in(family, term),
    )
}

fn addresses_within(family: Family, earlier: &Term, term: &Term) -> bool
    ensures { result ≡ addresses_within family earlier.now term.now }
{
    source_within(family, earlier, term)
        && destination_within(family, earlier, term)
        && either_within(family, earlier, term)
}

fn covers(ranges: &[Range], low: u128, high: u128) -> bool
    ensures { result ≡ covers ranges.now low high }
{
    ranges.iter().any(|r| r.low <= low && high <= r.high)
}

fn has_below(number: u8, ranges: &[Range], range: &Range) -> bool
    ensures { result ≡ has_below number ranges.now range.now }
{
    let number = u128::from(number);
    number <= range.low || covers(ranges, range.low, range.high.min(number - 1))
}

fn has_above(number: u8, ranges: &[Range], range: &Range) -> bool
    ensures { result ≡ has_above number ranges.now range.now }
{
    let number = u128::from(number);
    range.high <= number || covers(ranges, range.low.max(number + 1), range.high)
}

// Whether the numbers of the range are among the ranges, but for the one number, which is not asked.
fn has_others(number: u8, ranges: &[Range], range: &Range) -> bool
    ensures { result ≡ has_others number ranges.now range.now }
{
    has_below(number, ranges, range) && has_above(number, ranges, range)
}

fn all_have_others(number: u8, ranges: &[Range], others: &[Range]) -> bool
    ensures { result ≡ list_all (has_others number ranges.now) others.now }
{
    others.iter().all(|r| has_others(number, ranges, r))
}

fn protocols_within(family: Family, earlier: &Term, term: &Term) -> bool
    ensures { result ≡ protocols_within family earlier.now term.now }
{
    earlier.protos.is_all()
        || !term.protos.is_all()
            && all_have_others(
                family.foreign_number(),
                earlier.protos.range_slice(),
                term.protos.range_slice(),
            )
}

fn lies_within_in(family: Family, earlier: &Term, term: &Term) -> bool
    ensures { result ≡ lies_within_in family earlier.now term.now }
{
    addresses_within(family, earlier, term) && protocols_within(family, earlier, term)
}

fn fits_in(family: Family, earlier: &Term, term: &Term) -> bool
    ensures { result ≡ fits_in family earlier.now term.now }
{
    is_empty_in(term, family) || lies_within_in(family, earlier, term)
}

fn lies_within_in_each(earlier: &Term, term: &Term) -> bool
    ensures { result ≡ lies_within_in_each earlier.now term.now }
{
    !(is_empty_in(term, Family::V4) && is_empty_in(term, Family::V6))
        && (fits_in(Family::V4, earlier, term) && fits_in(Family::V6, earlier, term))
}

// ---- life

pub(crate) fn is_live_on_some(targets: &[Target], today: Day, term: &Term) -> bool
    ensures { result ≡ list_any (λ g. is_term_live term.now g.kind today) targets.now }
{
    targets.iter().any(|g| is_live(term, g.kind, today))
}

fn follows_life(targets: &[Target], today: Day, earlier: &Term, term: &Term) -> bool
    ensures { result ≡ list_all (λ g. not (is_term_live term.now g.kind today)
        || is_term_live earlier.now g.kind today) targets.now }
{
    targets.iter().all(|g| !is_live(term, g.kind, today) || is_live(earlier, g.kind, today))
}

pub(crate) fn is_live_where(targets: &[Target], today: Day, earlier: &Term, term: &Term) -> bool
    ensures { result ≡ is_live_where targets.now today earlier.now term.now }
{
    is_live_on_some(targets, today, term) && follows_life(targets, today, earlier, term)
}

// ---- shading

// What tells most terms apart is asked first.
#[tactic(auto, unfolding(crate::specs::ComputableShading::shades))]
pub(crate) fn shades(targets: &[Target], today: Day, earlier: &Term, term: &Term) -> bool
    ensures { result ≡ shades targets.now today earlier.now term.now }
{
    numbers_within(earlier, term)
        && option_covers(earlier, term)
        && (lies_within_in_each(earlier, term) && is_live_where(targets, today, earlier, term))
}

fn first_shading(targets: &[Target], today: Day, earlier: &[Term], term: &Term) -> Option<usize>
    ensures { result ≡ position (λ i. shades targets.now today i term.now) earlier.now }
{
    earlier.iter().position(|t| shades(targets, today, t, term))
}

/// The place of the first term before this place that shades the term there: one that decides each packet, on each of
/// the block's targets, that the term would. Two terms that only do so together are none.
pub fn shaded_by(terms: &[Term], targets: &[Target], today: Day, place: usize) -> Option<usize>
    requires { place < length terms.now }
    ensures some { IfSome result (λ k. IsShadedBy targets.now today terms.now place k) }
    ensures none { IfNone result ((k : ℕ) → ShadesAt targets.now today terms.now k place → ⊥) }
    ensures computed { result ≡ shaded_by targets.now today terms.now place }
{
    first_shading(targets, today, &terms[..place], &terms[place])
}
