ghost use Rattle.std.specs.Prelude.{◌≡◌, ◌≤◌, ℕ, IfOk, IfSome, map};
ghost use Rattle.acl_sets.specs.Ranges.{holds};
ghost use Rattle.acl_terms.specs.Matching.{AnyOf};
ghost use Rattle.acl_terms.specs.Sets.{IsSetOf};
ghost use Rattle.acl_terms.specs.SetSteps.{single};

use crate::protocols::numbers_in;
use acl_sets::RangeSet;
use acl_text::Memory;
use std::alloc::Global;

// The sets of more lists are not kept. Most policies have no more lists of protocols.
const MOST: usize = 8;

/// Numbers of protocols, and their set.
#[derive(Drop)]
pub(crate) struct ProtocolSet {
    numbers: Vec<u8>,
    set: RangeSet,
    ghost top: { set.top ≡ 255 },
    ghost exact: { (x : ℕ) → x ≤ 255 → holds set.ranges x ≡ holds (map single numbers.items) x },
}

impl ProtocolSet {
    // The set, where it is that of the numbers.
    fn set_for(&self, numbers: &[u8]) -> Result<Option<RangeSet>, Memory>
        ensures { IfOk result (λ o. IfSome o (IsSetOf (λ x. AnyOf (λ n. n ≡ x) numbers.now) 255)) }
    {
        if self.numbers.as_slice() != numbers {
            return Ok(None);
        }
        Ok(Some(self.set.share()?))
    }
}

/// The sets of the protocols that terms of a policy had so far. Most terms share them.
#[derive(Drop)]
pub(crate) struct KnownProtocols {
    alloc: Global,
    sets: Vec<ProtocolSet>,
}

impl KnownProtocols {
    /// No sets are known.
    pub(crate) fn new(alloc: Global) -> KnownProtocols {
        KnownProtocols {
            alloc,
            sets: Vec::new(alloc),
        }
    }

    // The set of the numbers, where it is known.
    fn find(&self, numbers: &[u8]) -> Result<Option<RangeSet>, Memory>
        ensures { IfOk result (λ o. IfSome o (IsSetOf (λ x. AnyOf (λ n. n ≡ x) numbers.now) 255)) }
    {
        for known in self.sets.iter() {
            if let Some(set) = known.set_for(numbers)? {
                return Ok(Some(set));
            }
        }
        Ok(None)
    }

    // The set is known from now on, where not too many are.
    fn keep(&mut self, numbers: &[u8], set: &RangeSet) -> Result<(), Memory>
        requires { IsSetOf (λ x. AnyOf (λ n. n ≡ x) numbers.now) 255 set.now }
    {
        if self.sets.len() < MOST {
            let numbers = Vec::from_slice(self.alloc, numbers)?;
            let set = set.share()?;
            self.sets.push(ProtocolSet { numbers, set })?;
        }
        Ok(())
    }

    /// The set of the numbers. It is known from now on.
    pub(crate) fn set_of(&mut self, numbers: &[u8]) -> Result<RangeSet, Memory>
        ensures { IfOk result (IsSetOf (λ x. AnyOf (λ n. n ≡ x) numbers.now) 255) }
    {
        if let Some(known) = self.find(numbers)? {
            return Ok(known);
        }
        let set = numbers_in(self.alloc, numbers)?;
        self.keep(numbers, &set)?;
        Ok(set)
    }
}
