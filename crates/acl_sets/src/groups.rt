ghost use Rattle.std.specs.Prelude.{◌≡◌, ◌+◌, ◌<◌, ◌≤◌, length, drop};
ghost use Rattle.acl_sets.specs.Groups.{weight_of, IsGroupEnd, group_length};

use crate::ranges::Ranges;
use crate::sets::{Range, RangeSet};

/// The end of the longest group of ranges of ports that starts at a position and weighs at most so much.
///
/// A single number weighs 1, a longer range 2. The ranges of the group are those from the start up
/// to, not with, the end. A group has a range, unless it starts at the end of the list.
pub fn group_end(set: &RangeSet, from: usize, most: u8) -> usize
    requires from { from ≤ length set.now.ranges }
    requires most { 2 ≤ most }
    ensures greatest { IsGroupEnd set.now.ranges from most result }
    ensures some { from < length set.now.ranges → from < result }
    ensures computed { result ≡ from + group_length most (drop from set.now.ranges) }
{
    end_from(&set.ranges(), from, most)
}

fn weight_of(range: Range) -> u8
    ensures { result ≡ weight_of range }
{
    if range.low == range.high { 1 } else { 2 }
}

// The end of the ranges from this one on that weigh at most so much.
fn end_from(ranges: &Ranges<'_>, from: usize, most: u8) -> usize
    requires { from ≤ length ranges.now }
    ensures { result ≡ from + group_length most (drop from ranges.now) }
{
    let mut left = most;
    let mut end = from;
    while end < ranges.len() {
        let weight = weight_of(ranges.at(end));
        if weight > left {
            return end;
        }
        left -= weight;
        end += 1;
    }
    end
}
