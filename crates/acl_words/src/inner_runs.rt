//! How many inner bytes a text begins with. Such a byte stands in a word, which may have it, and ends no keyword.
ghost use Rattle.std.specs.Prelude.{◌≡◌, ◌≤◌, ◌==◌, true, if◌then◌else◌, length, take};
ghost use Rattle.std.specs.Int.{w64, trailing_zeros};
ghost use Rattle.std.specs.List.{list_all};
ghost use Rattle.acl_words.specs.ReadingSteps.{is_inner};

use std::simd::prelude::*;

// For each byte whether it is an inner one: from `$` to `z`, and no colon.
static INNER_BYTES: [u8; 256] =
    *b"nnnnnnnnnnnnnnnnnnnnnnnnnnnnnnnnnnnnyyyyyyyyyyyyyyyyyyyyyynyyyyyyyyyyyyyyyyyyyyyyyyyyyyyyyyyyyyyyyyyyyyyyyyyyyyyyyyyyyyyyyynnnnnnnnnnnnnnnnnnnnnnnnnnnnnnnnnnnnnnnnnnnnnnnnnnnnnnnnnnnnnnnnnnnnnnnnnnnnnnnnnnnnnnnnnnnnnnnnnnnnnnnnnnnnnnnnnnnnnnnnnnnnnnnnnnnnn";

/// Whether the byte is an inner one.
#[inline(always)]
pub(crate) fn is_inner(byte: u8) -> bool
    ensures { result ≡ is_inner byte }
{
    INNER_BYTES[usize::from(byte)] == b'y'
}

// So many bytes are looked at in one step.
const LANES: usize = 16;

// Where the first lane stands that is set; behind all where none is.
#[inline(always)]
fn first_set(mask: u64) -> usize
    ensures { result ≡ (if mask == 0 then 16 else trailing_zeros w64 mask) }
{
    if mask == 0 {
        LANES
    } else {
        mask.trailing_zeros() as usize
    }
}

// How many of the first 16 bytes, up to the first other one, are inner.
#[inline(always)]
fn inner_run(text: &[u8]) -> usize
    requires { 16 ≤ length text.now }
    ensures { (result ≤ 16) × (list_all is_inner (take result text.now) ≡ true) }
{
    let bytes = u8x16::from_slice(text);
    let stops = (bytes - u8x16::splat(b'$')).simd_ge(u8x16::splat(87))
        | bytes.simd_eq(u8x16::splat(b':'));
    first_set(stops.to_bitmask())
}

// How many inner bytes the text begins with, looked at one by one.
#[inline(never)]
fn short_inner_count(text: &[u8]) -> usize
    ensures within { result ≤ length text.now }
    ensures inner { list_all is_inner (take result text.now) ≡ true }
{
    for (i, byte) in text.iter().enumerate() {
        if !is_inner(*byte) {
            return i;
        }
    }
    text.len()
}

// How many inner bytes the text begins with, of which so many are seen already. Apart, since most words are short.
#[inline(never)]
fn long_inner_count(text: &[u8], seen: usize) -> usize
    requires within { seen ≤ length text.now }
    requires inner { list_all is_inner (take seen text.now) ≡ true }
    ensures within { result ≤ length text.now }
    ensures inner { list_all is_inner (take result text.now) ≡ true }
{
    let mut from = seen;
    while text.len() - from >= LANES {
        let run = inner_run(&text[from..]);
        from += run;
        if run < LANES {
            return from;
        }
    }
    from + short_inner_count(&text[from..])
}

/// How many inner bytes the text begins with.
#[inline(always)]
pub(crate) fn inner_count(text: &[u8]) -> usize
    ensures within { result ≤ length text.now }
    ensures inner { list_all is_inner (take result text.now) ≡ true }
{
    if text.len() < LANES {
        return short_inner_count(text);
    }
    let run = inner_run(text);
    if run < LANES {
        run
    } else {
        long_inner_count(text, run)
    }
}
