ghost use Rattle.std.specs.Prelude.{◌≡◌, ◌+◌, ◌-◌, ◌<◌};
ghost use Rattle.acl_sets.specs.declared.sets.Range.{Range as RangeData};
ghost use Rattle.acl_sets.specs.Spans.{same, wide};

use crate::sets::Range;

/// A range of numbers, in as many bytes as a list holds it.
pub(crate) trait Span: Copy + Drop {
    ghost range: { Self → RangeData };

    fn low(&self) -> u128
        ensures { result ≡ (range self.now).low };

    fn high(&self) -> u128
        ensures { result ≡ (range self.now).high };

    /// From the low end of this one to the high end of the other.
    fn to_end_of(&self, other: &Self) -> Self
        ensures { range result ≡ record { low = (range self.now).low; high = (range other.now).high } };

    /// From the low end of this one up to the other, which begins behind that.
    fn up_to(&self, other: &Self) -> Self
        requires { (range self.now).low < (range other.now).low }
        ensures { range result ≡ record { low = (range self.now).low; high = (range other.now).low - 1 } };

    /// From the end of the other, which is before that of this one, up to the high end of this one.
    fn behind(&self, other: &Self) -> Self
        requires { (range other.now).high < (range self.now).high }
        ensures { range result ≡ record { low = (range other.now).high + 1; high = (range self.now).high } };
}

// The number behind one that is below another.
#[inline(always)]
fn number_behind(number: u128, above: u128) -> u128
    requires { number < above }
    ensures { result ≡ number + 1 }
{
    number + 1
}

impl Span for Range {
    ghost range = { same };

    #[inline(always)]
    fn low(&self) -> u128 {
        self.low
    }

    #[inline(always)]
    fn high(&self) -> u128 {
        self.high
    }

    #[inline(always)]
    fn to_end_of(&self, other: &Range) -> Range {
        Range {
            low: self.low,
            high: other.high,
        }
    }

    #[inline(always)]
    fn up_to(&self, other: &Range) -> Range {
        Range {
            low: self.low,
            high: other.low - 1,
        }
    }

    #[inline(always)]
    fn behind(&self, other: &Range) -> Range {
        Range {
            low: number_behind(other.high, self.high),
            high: self.high,
        }
    }
}

/// A range of numbers of 32 bits, as those of IPv4 addresses are. It has a quarter of the size of a `Range`.
#[derive(Clone, Copy)]
pub struct ShortRange {
    pub(crate) low: u32,
    pub(crate) high: u32,
}

// The number of 32 bits behind one that is below another.
#[inline(always)]
fn short_behind(number: u32, above: u32) -> u32
    requires { number < above }
    ensures { result ≡ number + 1 }
{
    number + 1
}

impl Span for ShortRange {
    ghost range = { wide };

    #[inline(always)]
    fn low(&self) -> u128 {
        u128::from(self.low)
    }

    #[inline(always)]
    fn high(&self) -> u128 {
        u128::from(self.high)
    }

    #[inline(always)]
    fn to_end_of(&self, other: &ShortRange) -> ShortRange {
        ShortRange {
            low: self.low,
            high: other.high,
        }
    }

    #[inline(always)]
    fn up_to(&self, other: &ShortRange) -> ShortRange {
        ShortRange {
            low: self.low,
            high: other.low - 1,
        }
    }

    #[inline(always)]
    fn behind(&self, other: &ShortRange) -> ShortRange {
        ShortRange {
            low: short_behind(other.high, self.high),
            high: self.high,
        }
    }
}
