ghost use Rattle.std.specs.Prelude.{◌≡◌, ◌≤◌, ℕ};
ghost use Rattle.std.specs.List.{All};
ghost use Rattle.acl_sets.specs.Ranges.{IsNormal, IsRange};
ghost use Rattle.acl_platform.specs.Elements.{range_elements};

use acl_sets::{Range, RangeSet};

/// The ranges that are written of a set of ports or of smaller numbers: none where it has all numbers up to its top.
pub fn range_elements(set: &RangeSet) -> &[Range]
    requires { set.now.top ≤ 65535 }
    ensures exact { result.now ≡ range_elements set.now }
    ensures normal { IsNormal 0 set.now.top result.now }
    ensures fit { (most : ℕ) → set.now.top ≤ most → All (λ r. IsRange most r) result.now }
{
    if set.is_all() { &[] } else { ranges_of(set) }
}

/// All ranges of such a set.
pub(crate) fn ranges_of(set: &RangeSet) -> &[Range]
    requires { set.now.top ≤ 65535 }
    ensures exact { result.now ≡ set.now.ranges }
    ensures normal { IsNormal 0 set.now.top result.now }
    ensures fit { (most : ℕ) → set.now.top ≤ most → All (λ r. IsRange most r) result.now }
{
    set.range_slice()
}
