ghost use Rattle.std.specs.Prelude.{◌≡◌};
ghost use Rattle.acl_shade.specs.Sifting.{asks_either_alone, is_asked, part_of};

use acl_packet::{Family, Field};
use acl_sets::RangeSet;
use acl_terms::{Term, destination_in, either_in, is_empty_in, set_in, source_in};

/// One of the sets of numbers that a term has.
#[derive(Clone, Copy)]
pub(crate) enum Part {
    Numbered(Field),
    Source(Family),
    Destination(Family),
    Either(Family),
}

/// The parts by which terms are told apart: first those in which most differ.
pub(crate) const PARTS: [Part; 10] = [
    Part::Numbered(Field::DestinationPort),
    Part::Source(Family::V4),
    Part::Destination(Family::V4),
    Part::Source(Family::V6),
    Part::Destination(Family::V6),
    Part::Either(Family::V4),
    Part::Either(Family::V6),
    Part::Numbered(Field::SourcePort),
    Part::Numbered(Field::IcmpType),
    Part::Numbered(Field::IcmpCode),
];

/// The part of the term.
pub(crate) fn part_of(part: Part, term: &Term) -> &RangeSet
    ensures { result.now ≡ part_of part term.now }
{
    match part {
        Part::Numbered(field) => set_in(field, term),
        Part::Source(family) => source_in(family, term),
        Part::Destination(family) => destination_in(family, term),
        Part::Either(family) => either_in(family, term),
    }
}

// Whether the term asks nothing of the sources and of the destinations.
fn asks_either_alone(family: Family, term: &Term) -> bool
    ensures { result ≡ asks_either_alone family term.now }
{
    source_in(family, term).is_all() && destination_in(family, term).is_all()
}

/// Whether a term that shades this one has the numbers of this part of it. Protocols are not asked, since each family
/// has its own. Addresses of a family in which the term is empty are not asked, and what it asks of either side only
/// where it asks nothing of each.
pub(crate) fn is_asked(part: Part, term: &Term) -> bool
    ensures { result ≡ is_asked part term.now }
{
    match part {
        Part::Source(family) | Part::Destination(family) => !is_empty_in(term, family),
        Part::Either(family) => !is_empty_in(term, family) && asks_either_alone(family, term),
        Part::Numbered(field) => !matches!(field, Field::Protocol),
    }
}
