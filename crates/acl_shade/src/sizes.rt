ghost use Rattle.std.specs.Prelude.{◌≡◌, ℕ, ◌<◌, ◌≤◌, ◌++◌, [], ◌∷◌, true, List, IfOk, IfSome, OnOk, length, slice_index_or};
ghost use Rattle.acl_terms.specs.declared.terms.Term.{Term};
ghost use Rattle.acl_shade.specs.declared.parts.Part.{Part};
ghost use Rattle.acl_shade.specs.Sifting.{NoneShades, part_of};
ghost use Rattle.acl_shade.specs.Sizes.{AreGrown, IsMeasure, sum_of};

use crate::parts::{Part, is_asked, part_of};
use acl_sets::RangeSet;
use acl_terms::Term;
use acl_text::Memory;
use std::alloc::Global;

// How many numbers a set has, and the sum of its low ends, which few sets of as many numbers have too.
#[derive(Drop)]
struct Measure {
    size: u64,
    sum: u64,
}

// Numbers up to this one take one register, and are counted in few steps.
const SHORT_TOP: u128 = 0xffff_ffff;

// The measure of the set. Those of addresses of IPv6 have none.
fn measure_of(set: &RangeSet) -> Option<Measure>
    ensures { IfSome result (λ measure. IsMeasure measure set.now) }
{
    if set.top() > SHORT_TOP {
        return None;
    }
    let mut size: u64 = 0;
    let mut sum: u64 = 0;
    for range in set.ranges() {
        let low = range.low as u64;
        let high = range.high as u64;
        size = size.checked_add(high - low + 1)?;
        sum = sum.wrapping_add(low);
    }
    Some(Measure { size, sum })
}

// Terms whose parts get no smaller from one to the next.
#[derive(Drop)]
struct Growing {
    /// How many numbers the last one has.
    size: u64,
    /// The terms from this place on have as many.
    from: usize,
    /// The sums of all.
    sums: Vec<u64>,
    /// Of those that have as many, no sum is greater.
    most: u64,
}

impl Growing {
    fn new(alloc: Global) -> Growing
        ensures none { length result.sums.items ≡ 0 }
        ensures grown { (part : Part) (terms : List Term) → AreGrown part terms result }
    {
        Growing {
            size: 0,
            from: 0,
            sums: Vec::new(alloc),
            most: 0,
        }
    }

    // Whether a term with so many numbers is no smaller than the last one. If so, it comes to be the last one.
    fn goes_on(&mut self, size: u64) -> bool
        ensures sums { self.new.sums ≡ self.old.sums }
        ensures size { result ≡ true → self.new.size ≡ size }
        ensures grown { (part : Part) (terms : List Term) → AreGrown part terms self.old → AreGrown part terms self.new }
    {
        if size < self.size {
            return false;
        }
        if size > self.size {
            self.size = size;
            self.from = self.sums.len();
            self.most = 0;
        }
        true
    }

    // Whether no term that is as large as the last one has the same numbers as this term, whose sum it is.
    fn is_new(&self, part: Part, terms: &[Term], term: &Term, sum: u64) -> bool
        requires fits { length self.now.sums.items ≤ length terms.now }
        requires grown { AreGrown part terms.now self.now }
        requires sum { sum ≡ sum_of (part_of part term.now).ranges }
        ensures { result ≡ true → (i : ℕ) (d : Term) → self.now.from ≤ i → i < length self.now.sums.items
            → (part_of part term.now).ranges ≡ (part_of part (slice_index_or terms.now i d)).ranges → ⊥ }
    {
        // So it mostly is: terms are written with their addresses in order.
        if sum > self.most {
            return true;
        }
        let set = part_of(part, term);
        let mut at = self.from;
        while at < self.sums.len() {
            if self.sums[at] == sum && set.is_same(part_of(part, &terms[at])) {
                return false;
            }
            at += 1;
        }
        true
    }

    // One term more, as large as the last one.
    fn add(&mut self, sum: u64) -> Result<(), Memory>
        ensures sums { OnOk result (self.new.sums.items ≡ self.old.sums.items ++ sum ∷ []) }
        ensures size { self.new.size ≡ self.old.size }
        ensures from { self.new.from ≡ self.old.from }
        ensures most { OnOk result (self.old.most ≤ self.new.most × sum ≤ self.new.most) }
    {
        self.sums.push(sum)?;
        self.most = self.most.max(sum);
        Ok(())
    }
}

/// Whether no term's part lies within that of one before it, as their sizes tell, and that of a shading one would hold it.
/// So it is where terms grow from one to the next, as in a policy whose rules go from the special to the general.
pub(crate) fn none_lies_within(alloc: Global, part: Part, terms: &[Term]) -> Result<bool, Memory>
    ensures { IfOk result (λ apart. apart ≡ true → NoneShades terms.now) }
{
    let mut growing = Growing::new(alloc);
    for term in terms {
        let Some(measure) = measure_of(part_of(part, term)) else {
            return Ok(false);
        };
        if !is_asked(part, term)
            || !growing.goes_on(measure.size)
            || !growing.is_new(part, terms, term, measure.sum)
        {
            return Ok(false);
        }
        growing.add(measure.sum)?;
    }
    Ok(true)
}
