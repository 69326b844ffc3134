ghost use Rattle.std.specs.Prelude.{◌≡◌, ℕ, ◌<◌, ◌≤◌, true, IfOk, OnOk, length, slice_index};
ghost use Rattle.std.specs.List.Sorted.{IsNonDecreasing};

use crate::parts::{Part, part_of};
use acl_sets::{RangeSet, Ranges};
use acl_terms::Term;
use acl_text::Memory;
use std::alloc::Global;

// No more numbers are looked at: a row for each of them takes 4.5 MB at 1,024 terms.
const MOST: usize = 35_000;

// Whether the first of the rising numbers that is not below this one stands at the place.
fn is_start(points: &[u128], at: usize, low: u128) -> bool
    ensures within { result ≡ true → at < length points.now }
    ensures below { result ≡ true → IsNonDecreasing points.now → (k : ℕ) → k < at
        → slice_index points.now k < low }
    ensures above { result ≡ true → low ≤ slice_index points.now at }
{
    at < points.len() && low <= points[at] && (at == 0 || points[at - 1] < low)
}

/// The place of the first of the rising numbers that is not below this one. Most often it is the one named, or the next.
pub(crate) fn start_of(points: &[u128], near: usize, low: u128) -> usize
    ensures within { result ≤ length points.now }
    ensures below { IsNonDecreasing points.now → (k : ℕ) → k < result → slice_index points.now k < low }
    ensures above { IsNonDecreasing points.now → result < length points.now
        → low ≤ slice_index points.now result }
{
    if is_start(points, near, low) {
        return near;
    }
    if near < points.len() && is_start(points, near + 1, low) {
        return near + 1;
    }
    points.partition_point(|point| *point < low)
}

// Numbers that are gathered: those in order, and those that came since.
#[derive(Drop)]
struct Points {
    known: Vec<u128>,
    fresh: Vec<u128>,
}

impl Points {
    // Puts what came since in order. Each number stands once.
    fn settle(&mut self) -> Result<(), Memory>
        ensures { OnOk result (IsNonDecreasing self.new.known.items) }
    {
        self.known.append(&mut self.fresh)?;
        self.known.sort_unstable();
        self.known.dedup();
        Ok(())
    }

    // The place behind the number, if it is known and stands at this place.
    fn place_behind(&self, number: u128, at: usize) -> Option<usize> {
        match self.known.get(at) {
            Some(point) if *point == number => Some(at + 1),
            _ => None,
        }
    }

    // Whether the number is above all that are gathered, as it is where terms come in rising order.
    fn is_above(&self, number: u128) -> bool {
        match self.known.last() {
            Some(last) => *last < number && self.fresh.is_empty(),
            None => self.fresh.is_empty(),
        }
    }

    // Adds the number, unless it is known. It gives the place where the next one is looked for, and there it mostly stands.
    fn note(&mut self, number: u128, near: usize) -> Result<usize, Memory> {
        if self.is_above(number) {
            self.known.push(number)?;
            return Ok(self.known.len());
        }
        if let Some(behind) = self.place_behind(number, near) {
            return Ok(behind);
        }
        let at = start_of(&self.known, near, number);
        if let Some(behind) = self.place_behind(number, at) {
            return Ok(behind);
        }
        self.fresh.push(number)?;
        Ok(at)
    }

    // Adds the ends of the set's ranges, as long as there is room: where each begins, and the number behind it, if that is
    // asked.
    fn add(&mut self, set: &RangeSet, asks_behind: bool, room: usize) -> Result<(), Memory> {
        let mut near = 0;
        for range in set.ranges() {
            if self.known.len().saturating_add(self.fresh.len()) >= room {
                break;
            }
            near = self.note(range.low, near)?;
            if asks_behind && range.high < set.top() {
                near = self.note(range.high + 1, near)?;
            }
        }
        if self.fresh.len() > self.known.len() / 4 {
            self.settle()?;
        }
        Ok(())
    }
}

// How many numbers are looked at besides those of a range for each term: the ends of the longest part, but not many more
// than the parts have ranges.
fn room_for(part: Part, terms: &[Term]) -> usize {
    let mut longest: usize = 0;
    let mut all: usize = 0;
    for term in terms {
        let ranges = part_of(part, term).ranges();
        longest = longest.max(ranges.len());
        all = all.saturating_add(ranges.len());
    }
    longest.saturating_mul(2).min(all / 8)
}

fn are_single(ranges: Ranges<'_>) -> bool {
    for range in ranges {
        if range.low != range.high {
            return false;
        }
    }
    true
}

// Whether the terms' parts have single numbers alone: no number behind a range is then inside another one.
fn have_single_numbers(part: Part, terms: &[Term]) -> bool {
    terms
        .iter()
        .all(|term| are_single(part_of(part, term).ranges()))
}

/// Numbers that tell the terms' parts apart, in rising order: ends of their ranges. Where a set does not lie within
/// another, it has a number that is a low end of its own, or that stands behind a range of the other.
pub(crate) fn points_of(alloc: Global, part: Part, terms: &[Term]) -> Result<Vec<u128>, Memory>
    ensures { IfOk result (λ points. IsNonDecreasing points.items) }
{
    let mut points = Points {
        known: Vec::new(alloc),
        fresh: Vec::new(alloc),
    };
    let asks_behind = !have_single_numbers(part, terms);
    let mut room = room_for(part, terms);
    for term in terms {
        room = MOST.min(room.saturating_add(2));
        points.add(part_of(part, term), asks_behind, room)?;
    }
    points.settle()?;
    Ok(points.known)
}
