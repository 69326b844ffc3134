use acl_sets::{Range, RangeSet};

/// Whether the set has just these ranges.
pub(crate) fn has_just(set: &RangeSet, ranges: &[Range]) -> bool {
    let mut left = set.ranges();
    for range in ranges {
        if left.next() != Some(*range) {
            return false;
        }
    }
    left.next().is_none()
}
