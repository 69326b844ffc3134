ghost use Rattle.std.specs.Prelude.{◌≡◌, ◌+◌, ◌*◌, ◌^◌, ◌<◌, ◌≤◌};
ghost use Rattle.acl_sets.specs.CutSteps.{IsLongest};
ghost use Rattle.acl_sets.specs.Spans.{short_top};

use crate::short_ranges::SHORT_TOP;

/// A block of numbers whose count is a power of two: the bits that are free in it, and its end.
#[derive(Drop)]
pub struct FreeBlock {
    pub free: u8,
    pub last: u128,
}

/// The longest block from one number to another at most, beginning at a multiple of its size.
pub fn longest_block(first: u128, last: u128) -> FreeBlock
    requires { first ≤ last }
    ensures longest { IsLongest first last result.free }
    ensures last { result.last + 1 ≡ first + 2 ^ result.free }
{
    if first == last {
        return FreeBlock { free: 0, last };
    }
    if last <= SHORT_TOP {
        return short_block(first as u64, last as u64);
    }
    let free = first.trailing_zeros().min(most_free(last - first));
    FreeBlock {
        free: free as u8,
        last: first + below_power(free),
    }
}

// The same of numbers of 32 bits. Each takes one register, and is counted in fewer steps.
#[inline]
fn short_block(first: u64, last: u64) -> FreeBlock
    requires { (first ≤ last) × (last ≤ short_top) }
    ensures longest { IsLongest first last result.free }
    ensures last { result.last + 1 ≡ first + 2 ^ result.free }
{
    let free = first.trailing_zeros().min(short_most_free(last - first));
    FreeBlock {
        free: free as u8,
        last: u128::from(first + short_below_power(free)),
    }
}

#[inline]
fn short_most_free(span: u64) -> u32
    requires { span ≤ short_top }
    ensures fits { 2 ^ result ≤ span + 1 }
    ensures most { span + 1 < 2 * 2 ^ result }
    ensures bound { result ≤ 63 }
{
    (span + 1).ilog2()
}

#[inline]
fn short_below_power(bits: u32) -> u64
    requires { bits ≤ 63 }
    ensures { result + 1 ≡ 2 ^ bits }
{
    (1 << bits) - 1
}

// How many bits are free in the largest block that has at most `span + 1` numbers.
fn most_free(span: u128) -> u32
    ensures fits { 2 ^ result ≤ span + 1 }
    ensures most { span + 1 < 2 * 2 ^ result }
    ensures bound { result ≤ 128 }
{
    if span == u128::MAX {
        128
    } else {
        (span + 1).ilog2()
    }
}

// The largest number of so many bits.
fn below_power(bits: u32) -> u128
    requires { bits ≤ 128 }
    ensures { result + 1 ≡ 2 ^ bits }
{
    if bits == 128 {
        u128::MAX
    } else {
        (1 << bits) - 1
    }
}
