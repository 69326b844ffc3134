ghost use Rattle.std.specs.Prelude.{◌≡◌, ◌∷◌, [], IfOk};
ghost use Rattle.acl_packet.specs.Packets.{foreign_of};
ghost use Rattle.acl_terms.specs.Resolved.{destinations_on, dports_on, in_both, sources_on, sports_on};
ghost use Rattle.term_boxes.specs.TermBoxes.{own_box, pair_box, protocols_in};

use crate::boxes::{PacketBox, all_states, share_both};
use acl_packet::Family;
use acl_sets::{Range, RangeSet};
use acl_terms::{Side, SidePair, Term, destination_in, dports_on, either_in, source_in, sports_on};
use acl_text::Memory;
use std::alloc::Global;

// The protocols that the term takes from packets of the family.
fn protocols_in(alloc: Global, family: Family, term: &Term) -> Result<RangeSet, Memory>
    ensures { IfOk result (λ s. s ≡ protocols_in family term.now) }
{
    if term.protos.is_all() {
        return term.protos.share();
    }
    let foreign = u128::from(family.foreign_number());
    let range = Range {
        low: foreign,
        high: foreign,
    };
    let others = RangeSet::from_ranges(alloc, 255, &[range])?;
    term.protos.subtract(alloc, &others)
}

// The numbers of both sets. Where the one has all of them, the other is shared and not copied.
fn in_both(alloc: Global, set: &RangeSet, other: &RangeSet) -> Result<RangeSet, Memory>
    requires { set.now.top ≡ other.now.top }
    ensures { IfOk result (λ s. s ≡ in_both set.now other.now) }
{
    // all of them are one range
    if set.ranges().len() == 1 && set.is_all() {
        other.share()
    } else {
        set.intersect(alloc, other)
    }
}

// The sources of the term on the side.
#[tactic(auto, using(acl_terms::proofs::SideLaws::source_tops))]
fn sources_on(alloc: Global, side: Side, family: Family, term: &Term) -> Result<RangeSet, Memory>
    ensures { IfOk result (λ s. s ≡ sources_on side family term.now) }
{
    let set = source_in(family, term);
    match side {
        Side::Source => in_both(alloc, set, either_in(family, term)),
        Side::Whole | Side::Destination => set.share(),
    }
}

// Its destinations on the side.
#[tactic(auto, using(acl_terms::proofs::SideLaws::destination_tops))]
fn destinations_on(
    alloc: Global,
    side: Side,
    family: Family,
    term: &Term,
) -> Result<RangeSet, Memory>
    ensures { IfOk result (λ s. s ≡ destinations_on side family term.now) }
{
    let set = destination_in(family, term);
    match side {
        Side::Destination => in_both(alloc, set, either_in(family, term)),
        Side::Whole | Side::Source => set.share(),
    }
}

// Its addresses on the side.
fn addresses_on(
    alloc: Global,
    side: Side,
    family: Family,
    term: &Term,
) -> Result<(RangeSet, RangeSet), Memory>
    ensures { IfOk result (λ both.
        both ≡ (sources_on side family term.now, destinations_on side family term.now)) }
{
    let sources = sources_on(alloc, side, family, term)?;
    Ok((sources, destinations_on(alloc, side, family, term)?))
}

// Its ports there.
fn ports_on(alloc: Global, side: Side, term: &Term) -> Result<(RangeSet, RangeSet), Memory>
    ensures { IfOk result (λ both. both ≡ (sports_on side term.now, dports_on side term.now)) }
{
    Ok((sports_on(alloc, side, term)?, dports_on(alloc, side, term)?))
}

/// The sets of the term on a pair of its sides, whatever its option is.
pub(crate) fn pair_box(
    alloc: Global,
    family: Family,
    term: &Term,
    pair: SidePair,
) -> Result<PacketBox, Memory>
    ensures { IfOk result (λ b. b ≡ pair_box family term.now pair) }
{
    let protocols = protocols_in(alloc, family, term)?;
    let (sources, destinations) = addresses_on(alloc, pair.addresses, family, term)?;
    let (source_ports, destination_ports) = ports_on(alloc, pair.ports, term)?;
    let (types, codes) = share_both(&term.itypes, &term.icodes)?;
    let (flags, connections) = all_states(alloc)?;
    Ok(PacketBox {
        sources,
        destinations,
        protocols,
        source_ports,
        destination_ports,
        types,
        codes,
        flags,
        connections,
    })
}

/// The term's own sets in the family, before anything is asked of either side, and whatever its option is. Where
/// protocols are named, they are those without the other family's ICMP.
pub fn own_box(alloc: Global, family: Family, term: &Term) -> Result<PacketBox, Memory>
    ensures { IfOk result (λ b. b ≡ own_box family term.now) }
{
    let whole = SidePair {
        addresses: Side::Whole,
        ports: Side::Whole,
    };
    pair_box(alloc, family, term, whole)
}
