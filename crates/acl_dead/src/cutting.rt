ghost use Rattle.std.specs.Prelude.{◌≡◌, ◌++◌, IfOk, OnOk, map, flat_map};
ghost use Rattle.std.specs.Option.{option_map};
ghost use Rattle.acl_dead.specs.CoordinateSteps.{connection_places, either_along, flag_places, numbers_along, ranges_of, set_along, sets_along};
ghost use Rattle.acl_dead.specs.Deciding.{protocol_cuts};
ghost use Rattle.acl_dead.specs.QuestionSteps.{question};

use crate::coordinates::Coordinate;
use crate::questions::Asked;
use acl_packet::{Family, Field};
use acl_sets::RangeSet;
use acl_terms::{Term, destination_in, either_in, set_in, source_in};
use acl_text::Memory;
use std::alloc::Global;

/// The set by which the term cuts the numbers of the coordinate.
pub(crate) fn set_along(coordinate: Coordinate, family: Family, term: &Term) -> Option<&RangeSet>
    ensures { option_map (λ s. s.now) result ≡ set_along coordinate family term.now }
{
    match coordinate {
        Coordinate::Source => Some(source_in(family, term)),
        Coordinate::Destination => Some(destination_in(family, term)),
        Coordinate::Number(field) => Some(set_in(field, term)),
        Coordinate::Flags | Coordinate::Connection => None,
    }
}

// The set that the term asks of either side there.
fn either_along(coordinate: Coordinate, family: Family, term: &Term) -> Option<&RangeSet>
    ensures { option_map (λ s. s.now) result ≡ either_along coordinate family term.now }
{
    match coordinate {
        Coordinate::Source | Coordinate::Destination => Some(either_in(family, term)),
        Coordinate::Number(Field::SourcePort | Field::DestinationPort) => Some(&term.ports),
        _ => None,
    }
}

fn push_sets<'a>(
    out: &mut Vec<&'a RangeSet>,
    coordinate: Coordinate,
    family: Family,
    terms: &[&'a Term],
) -> Result<(), Memory>
    ensures { OnOk result (map (λ s. s.now.ranges) out.new.items ≡ map (λ s. s.now.ranges) out.old.items
        ++ flat_map (λ t. ranges_of (set_along coordinate family t.now)) terms.now) }
{
    for term in terms {
        if let Some(set) = set_along(coordinate, family, term) {
            out.push(set)?;
        }
    }
    Ok(())
}

fn push_either_sets<'a>(
    out: &mut Vec<&'a RangeSet>,
    coordinate: Coordinate,
    family: Family,
    terms: &[&'a Term],
) -> Result<(), Memory>
    ensures { OnOk result (map (λ s. s.now.ranges) out.new.items ≡ map (λ s. s.now.ranges) out.old.items
        ++ flat_map (λ t. ranges_of (either_along coordinate family t.now)) terms.now) }
{
    for term in terms {
        if let Some(set) = either_along(coordinate, family, term) {
            out.push(set)?;
        }
    }
    Ok(())
}

/// The sets that cut the numbers of the coordinate.
pub(crate) fn sets_along<'a>(
    alloc: Global,
    coordinate: Coordinate,
    family: Family,
    asked: &Asked<'a>,
) -> Result<Vec<&'a RangeSet>, Memory>
    ensures { IfOk result (λ v. map (λ s. s.now.ranges) v.items ≡ sets_along coordinate family (question asked.now)) }
{
    let mut out = Vec::new(alloc);
    push_sets(&mut out, coordinate, family, &asked.earlier)?;
    push_either_sets(&mut out, coordinate, family, &[asked.term])?;
    push_either_sets(&mut out, coordinate, family, &asked.earlier)?;
    Ok(out)
}

fn protocol_cuts(family: Family) -> &'static [u128]
    ensures { result.now ≡ protocol_cuts family }
{
    match family {
        Family::V4 => &[1, 2, 6, 7, 17, 18, 58, 59, 132, 133],
        Family::V6 => &[
            1, 2, 6, 7, 17, 18, 58, 59, 132, 133, 0, 1, 43, 44, 44, 45, 51, 52, 59, 60, 60, 61,
            135, 136, 139, 140, 140, 141,
        ],
    }
}

fn flag_places(some: bool) -> &'static [u128]
    ensures { result.now ≡ flag_places some }
{
    if some {
        &[8, 16, 24, 32, 40, 48, 56]
    } else {
        &[]
    }
}

fn connection_places(stateful: bool) -> &'static [u128]
    ensures { result.now ≡ connection_places stateful }
{
    if stateful { &[2] } else { &[] }
}

/// The numbers that cut the coordinate besides.
pub(crate) fn numbers_along(
    coordinate: Coordinate,
    family: Family,
    asked: &Asked,
) -> &'static [u128]
    ensures { result.now ≡ numbers_along coordinate family (question asked.now) }
{
    match coordinate {
        Coordinate::Number(Field::Protocol) => protocol_cuts(family),
        Coordinate::Number(Field::DestinationPort) => &[1024],
        Coordinate::Flags => flag_places(asked.has_option()),
        Coordinate::Connection => connection_places(asked.target.stateful),
        _ => &[],
    }
}
