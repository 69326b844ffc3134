ghost use Rattle.std.specs.Prelude.{◌≡◌, ◌≤◌, map, IfOk};
ghost use Rattle.std.specs.List.{All};
ghost use Rattle.acl_sets.specs.Ranges.{IsRange};
ghost use Rattle.acl_sets.specs.Spans.{short_top, wide};

use crate::sets::Range;
use crate::spans::ShortRange;
use acl_text::Memory;
use std::alloc::Global;

/// The greatest number of 32 bits.
pub(crate) const SHORT_TOP: u128 = 0xffff_ffff;

/// The range in numbers of 32 bits.
#[inline]
pub(crate) fn short(range: Range) -> ShortRange
    requires { (range.low ≤ short_top) × (range.high ≤ short_top) }
    ensures { wide result ≡ range }
{
    ShortRange {
        low: range.low as u32,
        high: range.high as u32,
    }
}

/// The range in longer numbers.
#[inline]
pub(crate) fn wide(range: ShortRange) -> Range
    ensures { result ≡ wide range }
{
    Range {
        low: u128::from(range.low),
        high: u128::from(range.high),
    }
}

/// The ranges in numbers of 32 bits.
pub(crate) fn all_short(alloc: Global, ranges: &[Range]) -> Result<Vec<ShortRange>, Memory>
    requires { All (λ r. IsRange short_top r) ranges.now }
    ensures { IfOk result (λ v. map wide v.items ≡ ranges.now) }
{
    let mut out = Vec::with_capacity(alloc, ranges.len())?;
    for range in ranges {
        out.push(short(*range))?;
    }
    Ok(out)
}
