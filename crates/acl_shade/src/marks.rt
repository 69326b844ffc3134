ghost use Rattle.std.specs.Prelude.{◌≡◌, ℕ, ◌+◌, ◌*◌, ◌<◌, ◌≤◌, true, IfOk, length, slice_index};
ghost use Rattle.std.specs.List.Sorted.{IsNonDecreasing};
ghost use Rattle.acl_sets.specs.Ranges.{holds};
ghost use Rattle.acl_shade.specs.Sifting.{AreMarked, RowHas};
ghost use Rattle.acl_shade.specs.Marking.{AreMarks, KeepsBeside, MarksMore};

use crate::bits::{insert, keep};
use crate::points::start_of;
use acl_sets::RangeSet;
use acl_text::Memory;
use std::alloc::Global;

// So many words are looked at in a step of the machine.
const STEP: usize = 4;

/// Which terms have some numbers in a set of theirs: a row of bits for each number, and in it a bit for each term.
#[derive(Drop)]
pub(crate) struct Marks {
    points: Vec<u128>,
    /// How many terms have the number.
    counts: Vec<usize>,
    /// How many words a row has.
    width: usize,
    rows: Vec<u64>,
}

impl Marks {
    /// No marks of these numbers.
    pub(crate) fn new(alloc: Global, points: Vec<u128>, width: usize) -> Result<Marks, Memory>
        requires { IsNonDecreasing points.items }
        ensures are { IfOk result AreMarks }
        ensures width { IfOk result (λ marks. marks.width ≡ width) }
    {
        let Some(words) = points.len().checked_mul(width) else {
            return Err(Memory);
        };
        Ok(Marks {
            counts: vec![in alloc; 0; points.len()]?,
            rows: vec![in alloc; 0; words]?,
            points,
            width,
        })
    }

    // Marks that the term has the numbers from this place on, up to the high one. It gives the place behind them.
    fn mark(&mut self, from: usize, high: u128, term: usize) -> usize
        requires are { AreMarks self.old }
        requires fits { term < 64 * self.old.width }
        ensures more { MarksMore self.old self.new }
        ensures marks { (k : ℕ) → from ≤ k → k < length self.new.points.items
            → slice_index self.new.points.items k ≤ high
            → RowHas self.new.width self.new.rows.items k term }
    {
        let mut at = from;
        while at < self.points.len() && self.points[at] <= high {
            insert(&mut self.rows, self.width, at, term);
            self.counts[at] = self.counts[at].saturating_add(1);
            at += 1;
        }
        at
    }

    // Keeps of what is left for the term the earlier terms that have the number at the place, and says whether any is
    // left. A number that all of them have tells nothing. Their bits stand in the first words.
    fn keep_at(&self, at: usize, term: usize, left: &mut [u64]) -> bool
        requires are { AreMarks self.now }
        requires at { at < length self.now.points.items }
        requires row { term * self.now.width + self.now.width ≤ length left.old }
        ensures beside { KeepsBeside term self.now.width left.old left.new }
        ensures keeps { (e : ℕ) → e < 64 * self.now.width
            → RowHas self.now.width self.now.rows.items at e
            → RowHas self.now.width left.old term e → RowHas self.now.width left.new term e }
    {
        if self.counts[at] == term {
            return true;
        }
        let count = self.width.min((term / (64 * STEP) + 1) * STEP);
        keep(left, self.width, term, count, &self.rows, at)
    }

    // Where it is asked, keeps of what is left for the term the terms that have the numbers from this place on, up to
    // the high one. It says whether to go on asking.
    fn keep(&self, asks: bool, from: usize, high: u128, term: usize, left: &mut [u64]) -> bool
        requires are { AreMarks self.now }
        requires row { term * self.now.width + self.now.width ≤ length left.old }
        ensures beside { KeepsBeside term self.now.width left.old left.new }
        ensures asked { result ≡ true → asks ≡ true }
        ensures keeps { (e : ℕ) → e < 64 * self.now.width
            → (asks ≡ true → (k : ℕ) → from ≤ k → k < length self.now.points.items
            → slice_index self.now.points.items k ≤ high → RowHas self.now.width self.now.rows.items k e)
            → RowHas self.now.width left.old term e → RowHas self.now.width left.new term e }
    {
        let mut asking = asks;
        let mut at = from;
        while asking && at < self.points.len() && self.points[at] <= high {
            asking = self.keep_at(at, term, left);
            at += 1;
        }
        asking
    }

    /// Marks which numbers the term has in the set. Where it is asked, only the terms that have them too are left for
    /// the term.
    pub(crate) fn pass(&mut self, term: usize, set: &RangeSet, is_asked: bool, left: &mut [u64])
        requires are { AreMarks self.old }
        requires fits { term < 64 * self.old.width }
        requires row { term * self.old.width + self.old.width ≤ length left.old }
        ensures more { MarksMore self.old self.new }
        ensures marks { AreMarked self.new.width self.new.points.items self.new.rows.items term set.now }
        ensures beside { KeepsBeside term self.old.width left.old left.new }
        ensures keeps { (e : ℕ) → e < 64 * self.old.width
            → (is_asked ≡ true → AreMarked self.old.width self.old.points.items self.old.rows.items e set.now)
            → RowHas self.old.width left.old term e → RowHas self.old.width left.new term e }
    {
        let mut asks = is_asked;
        let mut at = 0;
        let ranges = set.ranges();
        for i in 0..ranges.len() {
            let range = ranges.at(i);
            at = start_of(&self.points, at, range.low);
            asks = self.keep(asks, at, range.high, term, left);
            at = self.mark(at, range.high, term);
        }
    }
}
