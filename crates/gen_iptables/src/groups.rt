ghost use Rattle.std.specs.Prelude.{◌≡◌, ◌≤◌, List, [], ◌∷◌, IfSome, IsTrue, flat_map, length, min};
ghost use Rattle.acl_text.specs.Output.{COUNT_END};
ghost use Rattle.acl_text.specs.Puts.{Puts};
ghost use Rattle.acl_rows.specs.Rows.{Row, text_of_rows};
ghost use Rattle.acl_sets.specs.declared.sets.Range.{Range};
ghost use Rattle.gen_iptables.specs.Groups.{group_choices, groups};

use acl_sets::{Range, RangeSet, group_end};
use acl_text::{Out, PutFault};

// The most that the ports of one multiport match weigh, where a range counts as two.
const MOST_WEIGHT: u8 = 15;

/// How what a group of ports stands for is written as rows.
pub(crate) trait GroupForm {
    ghost group_rows: { Self → List Range → List Row };

    /// Puts the lines of the group's rows. The group without ports is no condition.
    fn put_group<O: Out>(&self, group: &[Range], out: &mut O) -> Result<(), PutFault>
        requires { IsTrue (O.is_open out.old) }
        ensures { Puts O.Out out.old out.new
            (text_of_rows (group_rows self.now group.now)) result };
}

/// Puts the lines of each group of ports of the set, in order.
pub(crate) fn put_groups<F: GroupForm, O: Out>(
    set: &RangeSet,
    form: &F,
    out: &mut O,
) -> Result<(), PutFault>
    requires top { set.now.top ≤ 65535 }
    requires open { IsTrue (O.is_open out.old) }
    ensures { Puts O.Out out.old out.new
        (text_of_rows (flat_map (F.group_rows form.now) (group_choices set.now))) result }
{
    if set.is_all() {
        return form.put_group(&[], out);
    }
    let ranges = set.range_slice();
    let mut from = 0;
    while from < ranges.len() {
        let end = group_end(set, from, MOST_WEIGHT);
        form.put_group(&ranges[from..end], out)?;
        from = end;
    }
    Ok(())
}

/// The one group of ports of the set, where it has one.
pub(crate) fn one_group(set: &RangeSet) -> Option<&[Range]>
    requires { set.now.top ≤ 65535 }
    ensures { IfSome result (λ group. group_choices set.now ≡ group.now ∷ []) }
{
    if set.is_all() {
        Some(&[])
    } else {
        whole_group(set)
    }
}

// The ranges of the set, where they are one group.
fn whole_group(set: &RangeSet) -> Option<&[Range]>
    requires { set.now.top ≤ 65535 }
    ensures { IfSome result (λ group. groups set.now.ranges ≡ group.now ∷ []) }
{
    let ranges = set.range_slice();
    if ranges.is_empty() || group_end(set, 0, MOST_WEIGHT) < ranges.len() {
        return None;
    }
    Some(ranges)
}

/// The number of groups of ports of the set.
pub(crate) fn count_groups(set: &RangeSet) -> u64
    requires { set.now.top ≤ 65535 }
    ensures { result ≡ min (length (group_choices set.now)) COUNT_END }
{
    if set.is_all() {
        1
    } else {
        count_each_group(set)
    }
}

fn count_each_group(set: &RangeSet) -> u64
    requires { set.now.top ≤ 65535 }
    ensures { result ≡ min (length (groups set.now.ranges)) COUNT_END }
{
    let most = set.range_slice().len();
    let mut count: u64 = 0;
    let mut from = 0;
    while from < most {
        from = group_end(set, from, MOST_WEIGHT);
        count = count.saturating_add(1);
    }
    count
}
