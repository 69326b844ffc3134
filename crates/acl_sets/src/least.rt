ghost use Rattle.std.specs.Prelude.{◌≡◌, ◌↔◌, ◌⊎◌, ℕ, ◌+◌, ◌^◌, ◌==◌, [], IsTrue, IfOk, length, min};
ghost use Rattle.std.specs.List.{All, list_any};
ghost use Rattle.acl_text.specs.Output.{COUNT_END};
ghost use Rattle.acl_packet.specs.Addresses.{IsPrefixOf, top_address, width_of};
ghost use Rattle.acl_packet.specs.AddressLists.{any_has};
ghost use Rattle.acl_sets.specs.Ranges.{IsNormal, holds};
ghost use Rattle.acl_sets.specs.LeastLists.{IsLeastList, IsFewest, LeastListHolds, LeastListIsFewest, OneLeastList};
ghost use Rattle.acl_sets.specs.ComputableLeastLists.{halved_space};
ghost use Rattle.acl_sets.specs.CutSteps.{is_whole};
ghost use Rattle.acl_sets.specs.HeldRanges.{slice_ranges};

use crate::prefixes_left::PrefixesLeft;
use crate::range_lists::RangeList;
use crate::ranges::Ranges;
use crate::sets::RangeSet;
use crate::slices::Slices;
use acl_packet::Family;
use acl_text::Memory;
use std::marker::Model;

/// The least list of a set of addresses: all its maximal prefixes, in order of address.
///
/// A prefix is maximal where all its addresses are in the set, and it has length 0 or the prefix
/// one bit shorter has an address outside. No prefix is held: each is cut from the ranges of the set
/// as the list is gone through. A contract sees the list.
#[derive(Drop)]
pub struct Prefixes {
    family: Family,
    count: u64,
    list: RangeList,
}

impl Model for Prefixes {
    ghost use Rattle.std.specs.Prelude.{List};
    ghost use Rattle.acl_packet.specs.declared.addresses.Prefix.{Prefix};
    ghost use Rattle.acl_sets.specs.ComputableLeastLists.{halved_space};
    ghost use Rattle.acl_sets.specs.CutSteps.{IsCut};

    ghost Value = { List Prefix };

    ghost view = { λ l. halved_space l.family l.list.ranges };

    ghost invariant = { λ l. IsCut l.family l.list.ranges l.count };
}

/// The least list of a set of addresses of the family.
pub fn least_prefixes(set: &RangeSet, family: Family) -> Result<Prefixes, Memory>
    requires { set.now.top + 1 ≡ 2 ^ width_of family }
    ensures least { IfOk result (λ ps. IsLeastList family (holds set.now.ranges) ps) }
    ensures prefixes { IfOk result (λ ps. All (λ p. IsPrefixOf family p) ps) }
    ensures exact { IfOk result (λ ps. (a : ℕ) → any_has ps a ≡ holds set.now.ranges a) }
    ensures fewest { IfOk result (λ ps. IsFewest family (holds set.now.ranges) ps) }
    ensures computed { IfOk result (λ ps. ps ≡ halved_space family set.now.ranges) }
{
    let list = set.share_ranges()?;
    let prefixes = cut(family, list);
    Ok(prefixes)
}

// The list of the ranges.
fn cut(family: Family, list: RangeList) -> Prefixes
    requires { IsNormal 0 (top_address family) list.ranges }
    ensures { result ≡ halved_space family list.ranges }
{
    let count = count_of(family, Ranges::of(list.slices()));
    Prefixes {
        family,
        count,
        list,
    }
}

// How many prefixes there are; a number that does not fit stands at the greatest one that does.
fn count_of(family: Family, ranges: Ranges<'_>) -> u64
    requires { IsNormal 0 (top_address family) ranges }
    ensures { result ≡ min (length (halved_space family ranges.entry)) COUNT_END }
{
    let mut count: u64 = 0;
    for _prefix in PrefixesLeft::of(family, ranges) {
        count = count.saturating_add(1);
    }
    count
}

// Whether the first of the ranges has all addresses of the family.
fn is_whole(family: Family, ranges: &Ranges<'_>) -> bool
    ensures { result ≡ is_whole family ranges.now }
{
    match ranges.split_first() {
        None => false,
        Some((first, _)) => first.low == 0 && first.high == family.top_address(),
    }
}

// Whether lists of these families and ranges are the same: where there are no ranges, the family does not matter.
fn are_alike(family: Family, ranges: Slices<'_>, other: Family, others: Slices<'_>) -> bool
    ensures { IsTrue result ↔ ((slice_ranges ranges.entry ≡ slice_ranges others.entry)
        × ((family ≡ other) ⊎ (slice_ranges ranges.entry ≡ []))) }
{
    ranges.are_same(others) && (family == other || ranges.len() == 0)
}

impl Prefixes {
    /// The same list, for one place more. It is not copied, and no memory is taken.
    pub fn share(&self) -> Result<Prefixes, Memory>
        ensures { IfOk result (λ ps. ps ≡ self.now) }
    {
        Ok(Prefixes {
            family: self.family,
            count: self.count,
            list: self.list.share()?,
        })
    }

    /// The prefixes in order.
    pub fn iter(&self) -> PrefixesLeft<'_>
        ensures { result ≡ self.now }
    {
        PrefixesLeft::of(self.family, Ranges::of(self.list.slices()))
    }

    /// How many prefixes there are; a number that does not fit stands at the greatest one that does.
    pub fn count(&self) -> u64
        ensures { result ≡ min (length self.now) COUNT_END }
    {
        self.count
    }

    /// Whether the address is in one of the prefixes, found by halving.
    #[tactic(auto, using(crate::proofs::ListedLaws::listed_holds))]
    pub fn has(&self, address: u128) -> bool
        ensures { result ≡ any_has self.now address }
    {
        self.list.slices().have_number(address)
    }

    /// Whether one of the prefixes is all addresses.
    #[tactic(auto, using(crate::proofs::ListedLaws::whole_listed))]
    pub fn is_all(&self) -> bool
        ensures { result ≡ list_any (λ p. p.len == 0) self.now }
    {
        is_whole(self.family, &Ranges::of(self.list.slices()))
    }

    /// Whether both lists are the same.
    pub fn is_same(&self, other: &Prefixes) -> bool
        ensures { IsTrue result ↔ (self.now ≡ other.now) }
    {
        are_alike(
            self.family,
            self.list.slices(),
            other.family,
            other.list.slices(),
        )
    }
}

/// A law: a least list of a set of addresses has the addresses of the set, and no other.
pub fn least_list_holds()
    ensures { LeastListHolds }
{}

/// A law: no list of prefixes with exactly the addresses of a least list's set is shorter.
pub fn least_list_is_fewest()
    ensures { LeastListIsFewest }
{}

/// A law: two least lists of one set are one list.
pub fn one_least_list()
    ensures { OneLeastList }
{}
