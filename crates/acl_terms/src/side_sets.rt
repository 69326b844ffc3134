ghost use Rattle.std.specs.Prelude.{◌≡◌, IfOk};
ghost use Rattle.acl_terms.specs.Resolved.{dports_on, pairs_of, sports_on};

use crate::sides::{Side, SidePair};
use crate::terms::Term;
use acl_sets::RangeSet;
use acl_text::Memory;
use std::alloc::Global;

/// The pairs of sides of the term: each side of which it asks addresses, the source first, with each one of which it
/// asks ports.
pub fn pairs_of(term: &Term) -> &'static [SidePair]
    ensures { result.now ≡ pairs_of term.now }
{
    match (term.addr_named, term.port_named) {
        (false, false) => &[SidePair {
            addresses: Side::Whole,
            ports: Side::Whole,
        }],
        (false, true) => &[
            SidePair {
                addresses: Side::Whole,
                ports: Side::Source,
            },
            SidePair {
                addresses: Side::Whole,
                ports: Side::Destination,
            },
        ],
        (true, false) => &[
            SidePair {
                addresses: Side::Source,
                ports: Side::Whole,
            },
            SidePair {
                addresses: Side::Destination,
                ports: Side::Whole,
            },
        ],
        (true, true) => &[
            SidePair {
                addresses: Side::Source,
                ports: Side::Source,
            },
            SidePair {
                addresses: Side::Source,
                ports: Side::Destination,
            },
            SidePair {
                addresses: Side::Destination,
                ports: Side::Source,
            },
            SidePair {
                addresses: Side::Destination,
                ports: Side::Destination,
            },
        ],
    }
}

/// The source ports of the term on the side.
pub fn sports_on(alloc: Global, side: Side, term: &Term) -> Result<RangeSet, Memory>
    ensures { IfOk result (λ s. s ≡ sports_on side term.now) }
{
    match side {
        Side::Source => term.sports.intersect(alloc, &term.ports),
        Side::Whole | Side::Destination => term.sports.share(),
    }
}

/// The destination ports of the term on the side.
pub fn dports_on(alloc: Global, side: Side, term: &Term) -> Result<RangeSet, Memory>
    ensures { IfOk result (λ s. s ≡ dports_on side term.now) }
{
    match side {
        Side::Destination => term.dports.intersect(alloc, &term.ports),
        Side::Whole | Side::Source => term.dports.share(),
    }
}
