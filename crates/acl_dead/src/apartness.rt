ghost use Rattle.std.specs.Prelude.{◌≡◌, IfOk};
ghost use Rattle.acl_dead.specs.ApartSteps.{apart, apart_along};

use crate::coordinates::{Coordinate, coordinates};
use crate::cutting::set_along;
use acl_packet::Family;
use acl_terms::Term;
use acl_text::Memory;
use std::alloc::Global;

// Whether no number of the coordinate is in a set of both terms.
#[tactic(auto, using(crate::proofs::ApartLaws::same_tops))]
fn are_apart_along(
    alloc: Global,
    coordinate: Coordinate,
    family: Family,
    term: &Term,
    other: &Term,
) -> Result<bool, Memory>
    ensures { IfOk result (λ r. r ≡ apart_along coordinate family term.now other.now) }
{
    match (
        set_along(coordinate, family, term),
        set_along(coordinate, family, other),
    ) {
        (Some(set), Some(others)) => {
            let both = set.intersect(alloc, others)?;
            Ok(both.is_empty())
        },
        _ => Ok(false),
    }
}

/// Whether the terms have nothing in common along some coordinate: then no packet of the family is matched by both.
#[tactic(auto, unfolding(crate::specs::ApartSteps::apart))]
pub(crate) fn are_apart(
    alloc: Global,
    family: Family,
    term: &Term,
    other: &Term,
) -> Result<bool, Memory>
    ensures { IfOk result (λ r. r ≡ apart family term.now other.now) }
{
    for coordinate in coordinates() {
        if are_apart_along(alloc, *coordinate, family, term, other)? {
            return Ok(true);
        }
    }
    Ok(false)
}
