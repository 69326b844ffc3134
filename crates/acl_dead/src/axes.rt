ghost use Rattle.std.specs.Prelude.{◌≡◌, IfOk, map};
ghost use Rattle.acl_dead.specs.Boxes.{AreBoundaries};

use crate::cuts::boundaries;
use acl_sets::RangeSet;
use acl_text::Memory;
use std::alloc::Global;

/// An axis of a space: the numbers that are asked for, the values that are chosen among them, and for each box the
/// numbers that its side holds.
#[derive(Drop)]
pub struct Axis<'a> {
    pub own: &'a RangeSet,
    pub values: Vec<u128>,
    pub sides: Vec<&'a RangeSet>,
}

impl<'a> Axis<'a> {
    /// The axis whose values are the boundaries of the numbers that are asked for: where a run of them begins, and
    /// each cut that lies in them. The sets cut where their runs begin and end, and so does each of the numbers.
    pub fn new(
        alloc: Global,
        own: &'a RangeSet,
        sets: &[&RangeSet],
        numbers: &[u128],
        sides: Vec<&'a RangeSet>,
    ) -> Result<Axis<'a>, Memory>
        ensures own { IfOk result (λ a. a.own.now ≡ own.now) }
        ensures sides { IfOk result (λ a. map (λ s. s.now.ranges) a.sides.items ≡ map (λ s. s.now.ranges) sides.entry.items) }
        ensures values { IfOk result (λ a. AreBoundaries own.now.ranges (map (λ s. s.now.ranges) sets.now) numbers.now a.values.items) }
    {
        Ok(Axis {
            own,
            values: boundaries(alloc, own, sets, numbers)?,
            sides,
        })
    }
}
