ghost use Rattle.std.specs.Prelude.{◌≡◌, true, false, IfOk, IsTrue, ◌↔◌, length, map};
ghost use Rattle.acl_dead.specs.BlockSteps.{boxes_in};
ghost use Rattle.acl_dead.specs.GridSteps.{AreAxesIn, AreAxesOf, FindsIn, HasPackets, IsAxisOf, IsGridIn, IsSpaceIn, NoPackets, box_count};
ghost use Rattle.acl_dead.specs.Deciding.{IsTooLargeIn, is_live_on};
ghost use Rattle.acl_dead.specs.QuestionSteps.{question};

use crate::axes::Axis;
use crate::blocking::Space;
use crate::coordinates::{Coordinate, coordinates};
use crate::cutting::{numbers_along, sets_along};
use crate::questions::Asked;
use crate::sides::side_of;
use crate::spaces::{first_clear, is_larger_than};
use acl_packet::{Family, Packet};
use acl_terms::is_empty_in;
use acl_text::Memory;
use std::alloc::Global;
use term_boxes::packet_at;

const MOST_PACKETS: u32 = 2_000_000;

/// The boundary values of the packets of a family that a term may decide, and the boxes in which it decides none.
#[derive(Drop)]
pub(crate) struct Grid<'a> {
    axes: Vec<Axis<'a>>,
}

// ---- making

fn has_packets(family: Family, asked: &Asked) -> bool
    ensures yes { result ≡ true → HasPackets family (question asked.now) }
    ensures no { result ≡ false → NoPackets family (question asked.now) }
{
    asked.target.families.covers(family) && !is_empty_in(asked.term, family)
}

/// The packets of the family that the term may decide, or none where it is not for the target, or the term is empty
/// there.
pub(crate) fn space_in(
    alloc: Global,
    family: Family,
    asked: &Asked,
) -> Result<Option<Space>, Memory>
    ensures { IfOk result (λ space. IsSpaceIn family (question asked.now) space) }
{
    if !has_packets(family, asked) {
        return Ok(None);
    }
    Ok(Some(Space::new(alloc, family, asked)?))
}

fn axis_along<'a>(
    alloc: Global,
    coordinate: Coordinate,
    family: Family,
    asked: &Asked,
    space: &'a Space,
) -> Result<Axis<'a>, Memory>
    ensures { IfOk result (λ a. IsAxisOf family (question asked.now) space.now.own
        (boxes_in space.now.boxes) coordinate a) }
{
    let sets = sets_along(alloc, coordinate, family, asked)?;
    let numbers = numbers_along(coordinate, family, asked);
    let sides = space.sides_along(alloc, coordinate)?;
    Ok(Axis::new(
        alloc,
        side_of(coordinate, &space.own),
        &sets,
        numbers,
        sides,
    )?)
}

fn axes_along<'a>(
    alloc: Global,
    along: &[Coordinate],
    family: Family,
    asked: &Asked,
    space: &'a Space,
) -> Result<Vec<Axis<'a>>, Memory>
    ensures { IfOk result (λ v. AreAxesOf family (question asked.now) space.now.own
        (boxes_in space.now.boxes) along.now v.items) }
{
    let Some((first, behind)) = along.split_first() else {
        return Ok(Vec::new(alloc));
    };
    let mut out = axes_along(alloc, behind, family, asked, space)?;
    out.insert(0, axis_along(alloc, *first, family, asked, space)?)?;
    Ok(out)
}

/// The grid of those packets.
pub(crate) fn grid_in<'a>(
    alloc: Global,
    family: Family,
    asked: &Asked,
    space: &'a Option<Space>,
) -> Result<Option<Grid<'a>>, Memory>
    requires { IsSpaceIn family (question asked.now) space.now }
    ensures { IfOk result (λ grid. IsGridIn family (question asked.now) grid) }
{
    let Some(space) = space else {
        return Ok(None);
    };
    Ok(Some(Grid {
        axes: axes_along(alloc, coordinates(), family, asked, space)?,
    }))
}

// ---- asking

/// Whether the grid has too many packets.
pub(crate) fn is_too_large(family: Family, asked: &Asked, grid: &Option<Grid>) -> bool
    requires { IsGridIn family (question asked.now) grid.now }
    ensures { IsTrue result ↔ IsTooLargeIn (question asked.now) family }
{
    match grid {
        Some(grid) => is_larger_than(&grid.axes, MOST_PACKETS),
        None => false,
    }
}

fn box_count(axes: &[Axis]) -> usize
    ensures { result ≡ box_count axes.now }
{
    match axes {
        [first, ..] => first.sides.len(),
        [] => 0,
    }
}

fn first_on(
    alloc: Global,
    family: Family,
    asked: &Asked,
    grid: &Grid,
) -> Result<Option<Packet>, Memory>
    requires some { HasPackets family (question asked.now) }
    requires live { is_live_on asked.now.target.now asked.now.today asked.now.term.now ≡ true }
    requires axes { AreAxesIn family (question asked.now) grid.now.axes.items }
    ensures { IfOk result (λ found. FindsIn family (question asked.now) found) }
{
    match first_clear(alloc, &grid.axes, box_count(&grid.axes))? {
        Some(numbers) => Ok(Some(packet_at(family, &numbers))),
        None => Ok(None),
    }
}

/// The first packet of the grid that the term decides, where any is.
pub(crate) fn first_in(
    alloc: Global,
    family: Family,
    asked: &Asked,
    grid: &Option<Grid>,
) -> Result<Option<Packet>, Memory>
    requires live { is_live_on asked.now.target.now asked.now.today asked.now.term.now ≡ true }
    requires grid { IsGridIn family (question asked.now) grid.now }
    ensures { IfOk result (λ found. FindsIn family (question asked.now) found) }
{
    match grid {
        Some(grid) => first_on(alloc, family, asked, grid),
        None => Ok(None),
    }
}
