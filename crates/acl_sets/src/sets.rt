ghost use Rattle.std.specs.Prelude.{◌≡◌, ℕ, ◌≤◌, ◌==◌, ◌||◌, ◌&&◌, not, nat_le, false, true, IsTrue, ◌↔◌, IfOk, [], ◌∷◌, length};
ghost use Rattle.std.specs.List.{All};
ghost use Rattle.acl_sets.specs.Ranges.{holds, IsRange, IsNormal, OneNormalList};
ghost use Rattle.acl_sets.specs.ComputableSets.{put_all, cut_all, shared_all, is_all, all_covered};
ghost use Rattle.acl_sets.specs.Spans.{short_top};

use crate::range_lists::RangeList;
use crate::ranges::Ranges;
use crate::short_ranges::{SHORT_TOP, all_short};
use crate::slices::Slices;
use crate::sweeps;
use acl_text::Memory;
use std::alloc::Global;
use std::marker::Model;

/// The numbers from `low` to `high`, both ends included.
#[derive(Clone, Copy, PartialEq, Eq)]
pub struct Range {
    pub low: u128,
    pub high: u128,
}

/// A set of numbers from 0 to a top.
///
/// A contract sees the top and the list of ranges, which is in normal form: rising, disjoint and
/// not touching. A clause that is named `computed` gives the list or the answer once more, as a
/// function of the lists: it follows from the clauses beside it.
#[derive(Drop)]
pub struct RangeSet {
    limit: u128,
    list: RangeList,
}

impl Model for RangeSet {
    ghost use Rattle.acl_sets.specs.HeldRanges.{IsKept};
    ghost use Rattle.acl_sets.specs.Ranges.{Numbers};

    ghost Value = { Numbers };

    ghost view = { λ s. record { top = s.limit; ranges = s.list.ranges } };

    ghost invariant = { λ s. IsKept s.limit s.list };
}

// The ranges in normal form, held in numbers of 32 bits. What those that came take is given back before as much is taken
// for these.
fn short_normal(alloc: Global, ranges: Vec<Range>) -> Result<RangeList, Memory>
    requires { All (λ r. IsRange short_top r) ranges.items }
    ensures list { IfOk result (λ l. l.ranges ≡ put_all ranges.items []) }
    ensures kind { IfOk result (λ l. l.is_short ≡ true) }
{
    let shorts = all_short(alloc, &ranges)?;
    drop(ranges);
    RangeList::short(alloc, sweeps::normal(alloc, shorts)?)
}

// The ranges in normal form, held as those of a set up to the top are.
fn normal(alloc: Global, top: u128, ranges: Vec<Range>) -> Result<RangeList, Memory>
    requires { All (λ r. IsRange top r) ranges.items }
    ensures list { IfOk result (λ l. l.ranges ≡ put_all ranges.items []) }
    ensures kind { IfOk result (λ l. l.is_short ≡ (top == short_top)) }
{
    if top == SHORT_TOP {
        return short_normal(alloc, ranges);
    }
    RangeList::long(alloc, sweeps::normal(alloc, ranges)?)
}

impl RangeSet {
    /// No number.
    pub fn empty(alloc: Global, top: u128) -> RangeSet
        ensures top { result.top ≡ top }
        ensures normal { IsNormal 0 result.top result.ranges }
        ensures exact { (x : ℕ) → holds result.ranges x ≡ false }
        ensures computed { result.ranges ≡ [] }
    {
        RangeSet {
            limit: top,
            list: RangeList::of_none(top),
        }
    }

    /// All numbers up to the top.
    pub fn all(alloc: Global, top: u128) -> Result<RangeSet, Memory>
        ensures top { IfOk result (λ s. s.top ≡ top) }
        ensures normal { IfOk result (λ s. IsNormal 0 s.top s.ranges) }
        ensures exact { IfOk result (λ s. (x : ℕ) → holds s.ranges x ≡ nat_le x top) }
        ensures computed { IfOk result (λ s. s.ranges ≡ record { low = 0; high = top } ∷ []) }
    {
        let whole = Range { low: 0, high: top };
        Ok(RangeSet {
            limit: top,
            list: RangeList::of_one(alloc, top, whole)?,
        })
    }

    /// The numbers inside the ranges, which may come in any order, overlap and touch.
    pub fn from_ranges(alloc: Global, top: u128, ranges: &[Range]) -> Result<RangeSet, Memory>
        requires { All (λ r. IsRange top r) ranges.now }
        ensures top { IfOk result (λ s. s.top ≡ top) }
        ensures normal { IfOk result (λ s. IsNormal 0 s.top s.ranges) }
        ensures exact { IfOk result (λ s. (x : ℕ) → holds s.ranges x ≡ holds ranges.now x) }
        ensures computed { IfOk result (λ s. s.ranges ≡ put_all ranges.now []) }
    {
        RangeSet::from_vec(alloc, top, Vec::from_slice(alloc, ranges)?)
    }

    /// The same, of ranges that are sorted where they stand.
    pub fn from_vec(alloc: Global, top: u128, ranges: Vec<Range>) -> Result<RangeSet, Memory>
        requires { All (λ r. IsRange top r) ranges.items }
        ensures top { IfOk result (λ s. s.top ≡ top) }
        ensures normal { IfOk result (λ s. IsNormal 0 s.top s.ranges) }
        ensures exact { IfOk result (λ s. (x : ℕ) → holds s.ranges x ≡ holds ranges.items x) }
        ensures computed { IfOk result (λ s. s.ranges ≡ put_all ranges.items []) }
    {
        if let [range] = ranges.as_slice() {
            return Ok(RangeSet {
                limit: top,
                list: RangeList::of_one(alloc, top, *range)?,
            });
        }
        Ok(RangeSet {
            limit: top,
            list: normal(alloc, top, ranges)?,
        })
    }

    /// The numbers of either set.
    pub fn union(&self, alloc: Global, other: &RangeSet) -> Result<RangeSet, Memory>
        requires { self.now.top ≡ other.now.top }
        ensures top { IfOk result (λ s. s.top ≡ self.now.top) }
        ensures normal { IfOk result (λ s. IsNormal 0 s.top s.ranges) }
        ensures exact { IfOk result (λ s. (x : ℕ) →
            holds s.ranges x ≡ holds self.now.ranges x || holds other.now.ranges x) }
        ensures computed { IfOk result (λ s. s.ranges ≡ put_all other.now.ranges self.now.ranges) }
    {
        Ok(RangeSet {
            limit: self.limit,
            list: self.list.united(alloc, &other.list)?,
        })
    }

    /// The numbers of this set that are not in the other.
    pub fn subtract(&self, alloc: Global, other: &RangeSet) -> Result<RangeSet, Memory>
        requires { self.now.top ≡ other.now.top }
        ensures top { IfOk result (λ s. s.top ≡ self.now.top) }
        ensures normal { IfOk result (λ s. IsNormal 0 s.top s.ranges) }
        ensures exact { IfOk result (λ s. (x : ℕ) →
            holds s.ranges x ≡ holds self.now.ranges x && not (holds other.now.ranges x)) }
        ensures computed { IfOk result (λ s. s.ranges ≡ cut_all other.now.ranges self.now.ranges) }
    {
        if other.is_empty() {
            return self.share();
        }
        Ok(RangeSet {
            limit: self.limit,
            list: self.list.cut(alloc, &other.list)?,
        })
    }

    /// The numbers of both sets.
    pub fn intersect(&self, alloc: Global, other: &RangeSet) -> Result<RangeSet, Memory>
        requires { self.now.top ≡ other.now.top }
        ensures top { IfOk result (λ s. s.top ≡ self.now.top) }
        ensures normal { IfOk result (λ s. IsNormal 0 s.top s.ranges) }
        ensures exact { IfOk result (λ s. (x : ℕ) →
            holds s.ranges x ≡ holds self.now.ranges x && holds other.now.ranges x) }
        ensures computed { IfOk result (λ s.
            s.ranges ≡ shared_all other.now.ranges self.now.ranges) }
    {
        Ok(RangeSet {
            limit: self.limit,
            list: self.list.shared(alloc, &other.list)?,
        })
    }

    /// The same set, for one place more. It is not copied, and no memory is taken.
    pub fn share(&self) -> Result<RangeSet, Memory>
        ensures same { IfOk result (λ s. s ≡ self.now) }
        ensures normal { IfOk result (λ s. IsNormal 0 s.top s.ranges) }
    {
        Ok(RangeSet {
            limit: self.limit,
            list: self.list.share()?,
        })
    }

    // The ranges, for one place more.
    pub(crate) fn share_ranges(&self) -> Result<RangeList, Memory>
        ensures list { IfOk result (λ l. l.ranges ≡ self.now.ranges) }
        ensures normal { IfOk result (λ l. IsNormal 0 self.now.top l.ranges) }
    {
        self.list.share()
    }

    /// Whether the number is in the set.
    pub fn contains(&self, x: u128) -> bool
        ensures { result ≡ holds self.now.ranges x }
    {
        self.list.slices().have_number(x)
    }

    /// Whether each number of this set is in the other.
    pub fn subset_of(&self, other: &RangeSet) -> bool
        requires { self.now.top ≡ other.now.top }
        ensures exact { IsTrue result
            ↔ ((x : ℕ) → x ≤ self.now.top
            → IsTrue (holds self.now.ranges x) → IsTrue (holds other.now.ranges x)) }
        ensures computed { result ≡ all_covered self.now.ranges other.now.ranges }
    {
        self.list.slices().are_covered(other.list.slices())
    }

    /// Whether both have the same ranges, and so the same numbers.
    pub fn is_same(&self, other: &RangeSet) -> bool
        ensures { IsTrue result ↔ (self.now.ranges ≡ other.now.ranges) }
    {
        self.list.slices().are_same(other.list.slices())
    }

    /// Whether no number is in the set.
    pub fn is_empty(&self) -> bool
        ensures exact { IsTrue result
            ↔ ((x : ℕ) → x ≤ self.now.top → holds self.now.ranges x ≡ false) }
        ensures computed { result ≡ (length self.now.ranges == 0) }
    {
        self.list.is_none()
    }

    /// Whether all numbers up to the top are in the set.
    pub fn is_all(&self) -> bool
        ensures exact { IsTrue result
            ↔ ((x : ℕ) → x ≤ self.now.top → IsTrue (holds self.now.ranges x)) }
        ensures computed { result ≡ is_all self.now }
    {
        self.list.first_covers(self.limit)
    }

    /// The ranges of the set, in rising order, disjoint and not touching.
    pub fn ranges(&self) -> Ranges<'_>
        ensures list { result ≡ self.now.ranges }
        ensures normal { IsNormal 0 self.now.top self.now.ranges }
    {
        Ranges::of(self.list.slices())
    }

    /// The same ranges of a set of ports or of smaller numbers, which are held as they are.
    pub fn range_slice(&self) -> &[Range]
        requires { self.now.top ≤ 65535 }
        ensures list { result.now ≡ self.now.ranges }
        ensures normal { IsNormal 0 self.now.top self.now.ranges }
    {
        match self.list.slices() {
            Slices::Long(ranges) => ranges,
            Slices::Short(_) => unreachable!(),
        }
    }

    /// The greatest number that the set may hold.
    pub fn top(&self) -> u128
        ensures { result ≡ self.now.top }
    {
        self.limit
    }
}

/// A law: two lists in normal form that hold the same numbers are one list.
pub fn one_normal_list()
    ensures { OneNormalList }
{}
