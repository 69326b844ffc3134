ghost use Rattle.std.specs.Prelude.{◌≡◌, []};
ghost use Rattle.acl_packet.specs.Addresses.{top_address};
ghost use Rattle.acl_sets.specs.Ranges.{IsNormal};
ghost use Rattle.acl_sets.specs.ComputableLeastLists.{halved_space};
ghost use Rattle.acl_sets.specs.CutSteps.{low_end, ranges_from};

use crate::cuts::longest_block;
use crate::ranges::Ranges;
use acl_packet::{Family, Prefix};
use std::marker::Model;

/// The prefixes of a least list that are not yet given. A contract sees their list.
#[derive(Drop)]
pub struct PrefixesLeft<'a> {
    family: Family,
    // What is left of the first range begins here.
    first: u128,
    rest: Ranges<'a>,
}

impl<'a> Model for PrefixesLeft<'a> {
    ghost use Rattle.std.specs.Prelude.{List};
    ghost use Rattle.acl_packet.specs.declared.addresses.Prefix.{Prefix};
    ghost use Rattle.acl_packet.specs.Addresses.{top_address};
    ghost use Rattle.acl_sets.specs.Ranges.{IsNormal};
    ghost use Rattle.acl_sets.specs.ComputableLeastLists.{halved_space};
    ghost use Rattle.acl_sets.specs.CutSteps.{ranges_from};

    ghost Value = { List Prefix };

    ghost view = { λ l. halved_space l.family (ranges_from l.first l.rest) };

    ghost invariant = { λ l. IsNormal 0 (top_address l.family) (ranges_from l.first l.rest) };
}

impl<'a> PrefixesLeft<'a> {
    /// The same prefixes, to be gone through once more.
    pub fn copy(&self) -> PrefixesLeft<'a>
        ensures { result ≡ self.now }
    {
        PrefixesLeft {
            family: self.family,
            first: self.first,
            rest: self.rest.copy(),
        }
    }

    /// No prefixes.
    #[tactic(auto, using(crate::proofs::CutWalks::none_left))]
    pub fn none() -> PrefixesLeft<'a>
        ensures { result ≡ [] }
    {
        PrefixesLeft::of(Family::V4, Ranges::none())
    }

    // All prefixes of the ranges.
    #[tactic(auto, using(crate::proofs::CutWalks::from_low_end))]
    pub(crate) fn of(family: Family, rest: Ranges<'a>) -> PrefixesLeft<'a>
        requires { IsNormal 0 (top_address family) rest }
        ensures { result ≡ halved_space family rest.entry }
    {
        let first = low_end(&rest);
        PrefixesLeft {
            family,
            first,
            rest,
        }
    }
}

// The low end of the first of the ranges.
#[inline]
fn low_end(ranges: &Ranges<'_>) -> u128
    ensures { result ≡ low_end ranges.now }
{
    match ranges.split_first() {
        None => 0,
        Some((range, _)) => range.low,
    }
}

impl<'a> Iterator for PrefixesLeft<'a> {
    type Item = Prefix;

    ghost use Rattle.std.specs.Iterator.{YieldsFirst, item_count};

    ghost next_gives = { YieldsFirst (λ l. l) };

    ghost remaining = { item_count (λ l. l) };

    #[inline]
    fn next(&mut self) -> Option<Prefix> {
        let (range, behind) = self.rest.split_first()?;
        let block = longest_block(self.first, range.high);
        let prefix = Prefix {
            family: self.family,
            first: self.first,
            len: self.family.width() - block.free,
        };
        let (first, rest) = if block.last == range.high {
            (low_end(&behind), behind)
        } else {
            (block.last + 1, self.rest.copy())
        };
        *self = PrefixesLeft {
            family: self.family,
            first,
            rest,
        };
        Some(prefix)
    }
}
