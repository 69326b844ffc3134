ghost use Rattle.std.specs.Prelude.{◌≡◌, ℕ, ◌<◌, ◌≤◌, true, IfOk, length, slice_index};
ghost use Rattle.std.specs.List.Sorted.{IsNonDecreasing};
ghost use Rattle.acl_shade.specs.SeenNumbers.{AreNumbers, HasNew, HasNewFrom, IsSeen, IsSeenAll, SeesMore};

use crate::points::start_of;
use acl_sets::RangeSet;
use acl_text::Memory;
use std::alloc::Global;

/// Some numbers, in rising order, and which of them were seen in sets.
#[derive(Drop)]
pub(crate) struct SeenNumbers {
    points: Vec<u128>,
    seen: Vec<bool>,
    // where those of the last set end, and those of the next one mostly begin
    near: usize,
}

impl SeenNumbers {
    /// The numbers, of which none was seen.
    pub(crate) fn new(alloc: Global, points: Vec<u128>) -> Result<SeenNumbers, Memory>
        requires { IsNonDecreasing points.items }
        ensures { IfOk result AreNumbers }
    {
        Ok(SeenNumbers {
            seen: vec![in alloc; false; points.len()]?,
            points,
            near: 0,
        })
    }

    // Sees the numbers from this place on, up to the high one. It gives the place behind them, and whether one of them is new.
    fn see(&mut self, from: usize, high: u128) -> (usize, bool)
        requires are { AreNumbers self.old }
        ensures more { SeesMore self.old self.new }
        ensures sees { (k : ℕ) → from ≤ k → k < length self.new.points.items
            → slice_index self.new.points.items k ≤ high → IsSeen self.new k }
        ensures fresh { result.1 ≡ true → HasNewFrom from high self.old }
    {
        let mut is_new = false;
        let mut at = from;
        while at < self.points.len() && self.points[at] <= high {
            is_new |= !self.seen[at];
            self.seen[at] = true;
            at += 1;
        }
        (at, is_new)
    }

    /// Sees the numbers of the set, and says whether one of them is new.
    pub(crate) fn add(&mut self, set: &RangeSet) -> bool
        requires are { AreNumbers self.old }
        ensures more { SeesMore self.old self.new }
        ensures sees { IsSeenAll self.new set.now }
        ensures fresh { result ≡ true → HasNew self.old set.now }
    {
        let mut has_new = false;
        let mut at = self.near;
        let ranges = set.ranges();
        for i in 0..ranges.len() {
            let range = ranges.at(i);
            at = start_of(&self.points, at, range.low);
            let (behind, is_new) = self.see(at, range.high);
            has_new |= is_new;
            at = behind;
        }
        self.near = at;
        has_new
    }
}
