ghost use Rattle.std.specs.Prelude.{◌≡◌, ◌+◌, ◌*◌, ◌≤◌, IfOk};
ghost use Rattle.std.specs.List.{All};
ghost use Rattle.acl_packet.specs.Addresses.{top_address};
ghost use Rattle.acl_sets.specs.Ranges.{IsRange};

use acl_packet::{Family, Prefix};
use acl_sets::{PrefixesLeft, Range, RangeSet, group_end, least_prefixes};
use acl_text::Memory;
use std::alloc::Global;

/// Whether the set has just these ranges.
fn is(set: &RangeSet, ranges: &[Range]) -> bool {
    let mut left = set.ranges();
    for range in ranges {
        if left.next() != Some(*range) {
            return false;
        }
    }
    left.next().is_none()
}

/// The ports from one to another.
fn ports(alloc: Global, low: u128, high: u128) -> Result<RangeSet, Memory>
    requires order { low ≤ high }
    requires top { high ≤ 65535 }
    ensures { IfOk result (λ s. s.top ≡ 65535) }
{
    RangeSet::from_ranges(alloc, 65535, &[Range { low, high }])
}

/// Fourteen single ports in falling order, then a range and one more: sixteen ranges, since none touches another.
static SIXTEEN: [Range; 16] = [
    Range { low: 27, high: 27 },
    Range { low: 25, high: 25 },
    Range { low: 23, high: 23 },
    Range { low: 21, high: 21 },
    Range { low: 19, high: 19 },
    Range { low: 17, high: 17 },
    Range { low: 15, high: 15 },
    Range { low: 13, high: 13 },
    Range { low: 11, high: 11 },
    Range { low: 9, high: 9 },
    Range { low: 7, high: 7 },
    Range { low: 5, high: 5 },
    Range { low: 3, high: 3 },
    Range { low: 1, high: 1 },
    Range { low: 30, high: 39 },
    Range { low: 50, high: 50 },
];

/// Whether the set of sixteen ranges has a group of fourteen and one of two.
fn is_grouped(set: &RangeSet) -> bool
    requires { set.now.top ≤ 65535 }
{
    let from = set.ranges().len().min(14);
    set.ranges().len() == 16 && group_end(set, 0, 15) == 14 && group_end(set, from, 15) == 16
}

fn sixteen_are_grouped(alloc: Global) -> Result<bool, Memory> {
    Ok(is_grouped(&RangeSet::from_ranges(alloc, 65535, &SIXTEEN)?))
}

#[test]
fn groups_of_ports(rt: HostRuntime) {
    assert!(rt; sixteen_are_grouped(rt.alloc()) == Ok(true));
}

fn are_joined(alloc: Global) -> Result<bool, Memory> {
    let ranges = [
        Range { low: 21, high: 30 },
        Range { low: 0, high: 9 },
        Range { low: 5, high: 20 },
    ];
    let set = RangeSet::from_ranges(alloc, 65535, &ranges)?;
    Ok(is(&set, &[Range { low: 0, high: 30 }]) && set.top() == 65535)
}

#[test]
fn ranges_are_joined(rt: HostRuntime) {
    assert!(rt; are_joined(rt.alloc()) == Ok(true));
}

fn without_http(alloc: Global, all: &RangeSet) -> Result<RangeSet, Memory>
    requires { all.now.top ≡ 65535 }
    ensures { IfOk result (λ s. s.top ≡ 65535) }
{
    all.subtract(alloc, &ports(alloc, 80, 80)?)
}

/// Whether the set is all ports but 80.
fn lacks_http(set: &RangeSet) -> bool {
    let left = [
        Range { low: 0, high: 79 },
        Range {
            low: 81,
            high: 65535,
        },
    ];
    is(set, &left) && set.contains(81) && !set.contains(80)
}

fn is_taken_away(alloc: Global) -> Result<bool, Memory> {
    let all = RangeSet::all(alloc, 65535)?;
    let rest = without_http(alloc, &all)?;
    Ok(lacks_http(&rest) && rest.subset_of(&all) && !all.subset_of(&rest) && !all.is_same(&rest))
}

#[test]
fn a_number_is_taken_away(rt: HostRuntime) {
    assert!(rt; is_taken_away(rt.alloc()) == Ok(true));
}

/// What the ports from 0 to 30 and those from 10 to 40 share.
fn shared_ports(alloc: Global) -> Result<RangeSet, Memory>
    ensures { IfOk result (λ s. s.top ≡ 65535) }
{
    let one = ports(alloc, 0, 30)?;
    one.intersect(alloc, &ports(alloc, 10, 40)?)
}

/// The set, shared, and the next port.
fn and_next(alloc: Global, set: &RangeSet) -> Result<RangeSet, Memory>
    requires { set.now.top ≡ 65535 }
{
    let shared = set.share()?;
    shared.union(alloc, &ports(alloc, 31, 31)?)
}

fn meet_and_unite(alloc: Global) -> Result<bool, Memory> {
    let both = shared_ports(alloc)?;
    let more = and_next(alloc, &both)?;
    Ok(is(&more, &[Range { low: 10, high: 31 }]))
}

#[test]
fn sets_meet_and_unite(rt: HostRuntime) {
    assert!(rt; meet_and_unite(rt.alloc()) == Ok(true));
}

fn is_none(set: &RangeSet) -> bool {
    set.is_empty() && !set.is_all()
}

fn has_all(alloc: Global) -> Result<bool, Memory> {
    let all = RangeSet::all(alloc, u128::MAX)?;
    Ok(all.is_all() && !all.is_empty() && all.contains(u128::MAX))
}

#[test]
fn all_numbers_and_none(rt: HostRuntime) {
    assert!(rt; is_none(&RangeSet::empty(rt.alloc(), 7)));
    assert!(rt; has_all(rt.alloc()) == Ok(true));
}

/// The last address.
fn top_of(family: Family) -> u128
    ensures { result ≡ top_address family }
{
    match family {
        Family::V4 => 0xffff_ffff,
        Family::V6 => u128::MAX,
    }
}

fn last_of(prefixes: PrefixesLeft<'_>) -> Option<Prefix> {
    let mut last = None;
    for prefix in prefixes {
        last = Some(prefix);
    }
    last
}

/// Whether the least list of these addresses has so many prefixes, and begins and ends with these two.
fn has_list(
    alloc: Global,
    ranges: &[Range],
    count: u64,
    first: Prefix,
    last: Prefix,
) -> Result<bool, Memory>
    requires { All (λ r. IsRange (top_address first.family) r) ranges.now }
{
    let family = first.family;
    let set = RangeSet::from_ranges(alloc, top_of(family), ranges)?;
    let list = least_prefixes(&set, family)?;
    let ends = list.iter().next() == Some(first) && last_of(list.iter()) == Some(last);
    let whole = list.has(last.first) && list.is_all() == (first.len == 0);
    Ok(list.count() == count && ends && whole && list.is_same(&list.share()?))
}

const ALL: Prefix = Prefix {
    family: Family::V4,
    first: 0,
    len: 0,
};

const TEN: Prefix = Prefix {
    first: 10 << 24,
    len: 24,
    ..ALL
};

#[test]
fn neighbours_join_on_a_boundary_alone(rt: HostRuntime) {
    let alloc = rt.alloc();
    let halves = [
        Range {
            low: 0x0a00_0000,
            high: 0x0a00_007f,
        },
        Range {
            low: 0x0a00_0080,
            high: 0x0a00_00ff,
        },
    ];
    assert!(rt; has_list(alloc, &halves, 1, TEN, TEN) == Ok(true));
    let apart = [Range {
        low: 0x0a00_0100,
        high: 0x0a00_02ff,
    }];
    let first = Prefix {
        first: 0x0a00_0100,
        ..TEN
    };
    let last = Prefix {
        first: 0x0a00_0200,
        ..TEN
    };
    assert!(rt; has_list(alloc, &apart, 2, first, last) == Ok(true));
}

const ALL_OF_SIX: Prefix = Prefix {
    family: Family::V6,
    ..ALL
};

fn none_has_no_prefixes(alloc: Global) -> Result<bool, Memory> {
    let none = RangeSet::empty(alloc, 0xffff_ffff);
    let list = least_prefixes(&none, Family::V4)?;
    Ok(list.count() == 0 && list.iter().next() == None && !list.has(0))
}

#[test]
fn the_whole_space_and_none(rt: HostRuntime) {
    let alloc = rt.alloc();
    let six = [Range {
        low: 0,
        high: u128::MAX,
    }];
    assert!(rt; has_list(alloc, &six, 1, ALL_OF_SIX, ALL_OF_SIX) == Ok(true));
    assert!(rt; none_has_no_prefixes(alloc) == Ok(true));
}

#[test]
fn all_but_the_ends(rt: HostRuntime) {
    let inner = [Range {
        low: 1,
        high: u128::MAX - 1,
    }];
    let first = Prefix {
        first: 1,
        len: 128,
        ..ALL_OF_SIX
    };
    let last = Prefix {
        first: u128::MAX - 1,
        ..first
    };
    assert!(rt; has_list(rt.alloc(), &inner, 254, first, last) == Ok(true));
}

#[test]
fn all_but_one_address(rt: HostRuntime) {
    let ten = [
        Range {
            low: 0x0a00_0000,
            high: 0x0a80_0000,
        },
        Range {
            low: 0x0a80_0002,
            high: 0x0aff_ffff,
        },
    ];
    let first = Prefix { len: 9, ..TEN };
    let last = Prefix {
        first: 0x0ac0_0000,
        len: 10,
        ..TEN
    };
    assert!(rt; has_list(rt.alloc(), &ten, 24, first, last) == Ok(true));
}
