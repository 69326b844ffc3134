//! How many bytes of a class a text begins with.
ghost use Rattle.std.specs.Prelude.{◌≡◌, ◌≤◌, ◌==◌, true, if◌then◌else◌, length, take};
ghost use Rattle.std.specs.Int.{w64, trailing_zeros};
ghost use Rattle.std.specs.List.{list_all};
ghost use Rattle.acl_text.specs.Cursors.{is_white};
ghost use Rattle.acl_text.specs.Names.{is_name_byte};
ghost use Rattle.acl_naming.specs.LineSteps.{is_ink, is_plain};

use acl_text::is_white;
use std::simd::prelude::*;

// For each byte whether it is ink: a good one, and neither white space nor `#` nor `=`.
static INK: [u8; 256] =
    *b"nnnnnnnnnnnnnnnnnnnnnnnnnnnnnnnnnyynyyyyyyyyyyyyyyyyyyyyyyyyynyyyyyyyyyyyyyyyyyyyyyyyyyyyyyyyyyyyyyyyyyyyyyyyyyyyyyyyyyyyyyyyyynnnnnnnnnnnnnnnnnnnnnnnnnnnnnnnnnnnnnnnnnnnnnnnnnnnnnnnnnnnnnnnnnnnnnnnnnnnnnnnnnnnnnnnnnnnnnnnnnnnnnnnnnnnnnnnnnnnnnnnnnnnnnnnnn";

fn is_ink(byte: u8) -> bool
    ensures { result ≡ is_ink byte }
{
    INK[usize::from(byte)] == b'y'
}

#[tactic(auto, using(crate::proofs::LineLaws::ink_or_white))]
fn is_plain(byte: u8) -> bool
    ensures { result ≡ is_plain byte }
{
    is_ink(byte) || is_white(byte)
}

/// So many bytes are looked at in one step.
pub const LANES: usize = 16;

// Where the first lane stands that is set; behind all where none is.
#[inline(always)]
fn first_set(mask: u64) -> usize
    ensures { result ≡ (if mask == 0 then 16 else trailing_zeros w64 mask) }
{
    if mask == 0 {
        LANES
    } else {
        mask.trailing_zeros() as usize
    }
}

/// How many of the first 16 bytes, up to the first other one, are ink.
#[inline(always)]
pub fn ink_run(text: &[u8]) -> usize
    requires { 16 ≤ length text.now }
    ensures { (result ≤ 16) × (list_all is_ink (take result text.now) ≡ true) }
{
    let bytes = u8x16::from_slice(text);
    let stops = (bytes - u8x16::splat(b'!')).simd_ge(u8x16::splat(94))
        | bytes.simd_eq(u8x16::splat(b'#'))
        | bytes.simd_eq(u8x16::splat(b'='));
    first_set(stops.to_bitmask())
}

// How many of them are plain.
#[inline(always)]
fn plain_run(text: &[u8]) -> usize
    requires { 16 ≤ length text.now }
    ensures { (result ≤ 16) × (list_all is_plain (take result text.now) ≡ true) }
{
    let bytes = u8x16::from_slice(text);
    let odd = (bytes - u8x16::splat(b' ')).simd_ge(u8x16::splat(95))
        & bytes.simd_ne(u8x16::splat(b'\t'))
        & bytes.simd_ne(u8x16::splat(b'\r'));
    let stops = odd | bytes.simd_eq(u8x16::splat(b'#')) | bytes.simd_eq(u8x16::splat(b'='));
    first_set(stops.to_bitmask())
}

/// How many of them may stand in a name.
#[inline(always)]
pub fn name_run(text: &[u8]) -> usize
    requires { 16 ≤ length text.now }
    ensures { (result ≤ 16) × (list_all is_name_byte (take result text.now) ≡ true) }
{
    let bytes = u8x16::from_slice(text);
    let letter = (bytes | u8x16::splat(0x20)) - u8x16::splat(b'a');
    let digit = bytes - u8x16::splat(b'0');
    let stops = letter.simd_ge(u8x16::splat(26))
        & digit.simd_ge(u8x16::splat(10))
        & bytes.simd_ne(u8x16::splat(b'-'))
        & bytes.simd_ne(u8x16::splat(b'_'));
    first_set(stops.to_bitmask())
}

/// How many bytes the text begins with that are white space.
pub fn white_front(text: &[u8]) -> usize
    ensures fits { result ≤ length text.now }
    ensures white { list_all is_white (take result text.now) ≡ true }
{
    for (i, byte) in text.iter().enumerate() {
        if !is_white(*byte) {
            return i;
        }
    }
    text.len()
}

// How many bytes the text begins with that are ink, looked at one by one. Apart, since few texts are that short.
#[inline(never)]
fn short_ink_front(text: &[u8]) -> usize
    ensures fits { result ≤ length text.now }
    ensures ink { list_all is_ink (take result text.now) ≡ true }
{
    for (i, byte) in text.iter().enumerate() {
        if !is_ink(*byte) {
            return i;
        }
    }
    text.len()
}

/// How many bytes it begins with that are ink.
#[inline(always)]
pub fn ink_front(text: &[u8]) -> usize
    ensures fits { result ≤ length text.now }
    ensures ink { list_all is_ink (take result text.now) ≡ true }
{
    if text.len() >= LANES {
        let run = ink_run(text);
        if run < LANES {
            return run;
        }
    }
    short_ink_front(text)
}

// How many bytes it begins with that are plain, looked at one by one.
#[inline(never)]
fn short_plain_front(text: &[u8]) -> usize
    ensures fits { result ≤ length text.now }
    ensures plain { list_all is_plain (take result text.now) ≡ true }
{
    for (i, byte) in text.iter().enumerate() {
        if !is_plain(*byte) {
            return i;
        }
    }
    text.len()
}

/// How many bytes it begins with that are plain.
pub fn plain_front(text: &[u8]) -> usize
    ensures fits { result ≤ length text.now }
    ensures plain { list_all is_plain (take result text.now) ≡ true }
{
    let mut from = 0;
    while text.len() - from >= LANES {
        let run = plain_run(&text[from..]);
        from += run;
        if run < LANES {
            return from;
        }
    }
    from + short_plain_front(&text[from..])
}
