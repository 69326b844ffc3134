ghost use Rattle.std.specs.Prelude.{◌≡◌, ℕ, ◌<◌, ◌≤◌, ◌++◌, ◌↔◌, [], IsTrue, IfOk, OnOk, length, map};
ghost use Rattle.std.specs.List.{All};
ghost use Rattle.std.specs.List.Sorted.{IsNonDecreasingBy, IsPermutation};
ghost use Rattle.acl_sets.specs.ComputableSets.{put_all};
ghost use Rattle.acl_sets.specs.Ranges.{IsNormal, IsRange, holds};
ghost use Rattle.acl_sets.specs.SweepSteps.{merged, lower, not_lower, woven, passed, ending_below, walk, shared_along, behind, cut_along, begins_by, covers_first, covered_walk};

use crate::range_pieces::{is_before, joined, push_below, push_shared};
use crate::spans::Span;
use acl_text::Memory;
use std::alloc::Global;

// The ranges in rising order of their low ends.
fn sorted<T: Span>(ranges: Vec<T>) -> Vec<T>
    ensures same { IsPermutation ranges.items result.items }
    ensures rising { IsNonDecreasingBy (λ r. (T.range r).low) result.items }
{
    let mut out = ranges;
    out.sort_unstable_by_key(|range| range.low());
    out
}

// The ranges in normal form, where they come in rising order of their low ends.
fn merged<T: Span>(alloc: Global, ranges: &[T]) -> Result<Vec<T>, Memory>
    ensures { IfOk result (λ v. map T.range v.items ≡ merged (map T.range ranges.now)) }
{
    let mut out = Vec::with_capacity(alloc, ranges.len())?;
    let [first, rest @ ..] = ranges else {
        return Ok(out);
    };
    let mut last = *first;
    for range in rest {
        if is_before(&last, range) {
            out.push(last)?;
            last = *range;
        } else {
            last = joined(&last, range);
        }
    }
    out.push(last)?;
    Ok(out)
}

// Whether no range meets or touches the one before it, so that ranges in rising order are in normal form.
fn are_apart<T: Span>(ranges: &[T]) -> bool
    ensures { IsTrue result → merged (map T.range ranges.now) ≡ map T.range ranges.now }
{
    let [first, rest @ ..] = ranges else {
        return true;
    };
    let mut last = first;
    for range in rest {
        if !is_before(last, range) {
            return false;
        }
        last = range;
    }
    true
}

/// The ranges in normal form. Most often they are so once they are sorted.
pub(crate) fn normal<T: Span>(alloc: Global, ranges: Vec<T>) -> Result<Vec<T>, Memory>
    ensures { IfOk result (λ v. (top : ℕ) → All (λ r. IsRange top r) (map T.range ranges.items)
        → map T.range v.items ≡ put_all (map T.range ranges.items) []) }
{
    let rising = sorted(ranges);
    if are_apart(&rising) {
        return Ok(rising);
    }
    merged(alloc, &rising)
}

fn push_lower<'a, T: Span>(out: &mut Vec<T>, low: u128, ranges: &'a [T]) -> Result<&'a [T], Memory>
    ensures lower { OnOk result (map T.range out.new.items
        ≡ map T.range out.old.items ++ lower low (map T.range ranges.now)) }
    ensures rest { IfOk result (λ rest. map T.range rest.now
        ≡ not_lower low (map T.range ranges.now)) }
{
    for (i, range) in ranges.iter().enumerate() {
        if range.low() >= low {
            return Ok(&ranges[i..]);
        }
        out.push(*range)?;
    }
    Ok(&[])
}

fn woven<T: Span>(alloc: Global, ranges: &[T], others: &[T]) -> Result<Vec<T>, Memory>
    ensures { IfOk result (λ v. map T.range v.items
        ≡ woven (map T.range ranges.now) (map T.range others.now)) }
{
    let mut out = Vec::with_capacity(alloc, ranges.len().saturating_add(others.len()))?;
    let mut rest = others;
    for range in ranges {
        rest = push_lower(&mut out, range.low(), rest)?;
        out.push(*range)?;
    }
    out.extend_from_slice(rest)?;
    Ok(out)
}

/// The ranges of both lists, which are in normal form, as one such list.
pub(crate) fn united<T: Span>(alloc: Global, ranges: &[T], others: &[T]) -> Result<Vec<T>, Memory>
    ensures { IfOk result (λ v. map T.range v.items
        ≡ merged (woven (map T.range ranges.now) (map T.range others.now))) }
{
    let woven = woven(alloc, ranges, others)?;
    merged(alloc, &woven)
}

fn push_shared_along<'a, T: Span>(
    out: &mut Vec<T>,
    range: &T,
    others: &'a [T],
) -> Result<&'a [T], Memory>
    ensures shared { OnOk result (map T.range out.new.items
        ≡ map T.range out.old.items ++ shared_along (T.range range.now) (map T.range others.now)) }
    ensures rest { IfOk result (λ rest. map T.range rest.now
        ≡ passed (T.range range.now).high (map T.range others.now)) }
{
    for (i, other) in others.iter().enumerate() {
        push_shared(out, other, range)?;
        if other.high() >= range.high() {
            return Ok(&others[i..]);
        }
    }
    Ok(&[])
}

/// What two lists in normal form have in common.
pub(crate) fn shared<T: Span>(alloc: Global, ranges: &[T], others: &[T]) -> Result<Vec<T>, Memory>
    ensures { IfOk result (λ v. map T.range v.items
        ≡ walk (λ r qs. shared_along r qs) (map T.range ranges.now) (map T.range others.now)) }
{
    let mut out = Vec::new(alloc);
    let mut rest = others;
    for range in ranges {
        rest = push_shared_along(&mut out, range, rest)?;
    }
    Ok(out)
}

// What a range has behind another one.
#[inline]
fn left_behind<T: Span>(other: &T, range: T) -> T
    requires { (T.range other.now).high < (T.range range).high }
    ensures { T.range result ≡ behind (T.range other.now) (T.range range) }
{
    if other.high() < range.low() {
        range
    } else {
        range.behind(other)
    }
}

fn push_cut_along<'a, T: Span>(
    out: &mut Vec<T>,
    range: &T,
    others: &'a [T],
) -> Result<&'a [T], Memory>
    ensures cut { OnOk result (map T.range out.new.items
        ≡ map T.range out.old.items ++ cut_along (T.range range.now) (map T.range others.now)) }
    ensures rest { IfOk result (λ rest. map T.range rest.now
        ≡ passed (T.range range.now).high (map T.range others.now)) }
{
    let mut left = *range;
    for (i, other) in others.iter().enumerate() {
        push_below(out, other, &left)?;
        if other.high() >= left.high() {
            return Ok(&others[i..]);
        }
        left = left_behind(other, left);
    }
    out.push(left)?;
    Ok(&[])
}

// Puts the ranges that end below the number, and gives those behind them. Most often these are many or none.
fn push_ending_below<'a, T: Span>(
    out: &mut Vec<T>,
    low: u128,
    ranges: &'a [T],
) -> Result<&'a [T], Memory>
    ensures put { OnOk result ((top : ℕ) → IsNormal 0 top (map T.range ranges.now)
        → map T.range out.new.items ≡ map T.range out.old.items ++ ending_below low (map T.range ranges.now)) }
    ensures rest { IfOk result (λ rest. (top : ℕ) → IsNormal 0 top (map T.range ranges.now)
        → map T.range rest.now ≡ passed low (map T.range ranges.now)) }
    ensures fewer { IfOk result (λ rest. length rest.now ≤ length ranges.now) }
{
    match ranges {
        [first, ..] if first.high() < low => {
            let count = ranges.partition_point(|range| range.high() < low);
            out.extend_from_slice(&ranges[..count])?;
            Ok(&ranges[count..])
        }
        _ => Ok(ranges),
    }
}

/// What a list in normal form has that another has not. Where the other is short, most ranges stay as they are.
pub(crate) fn cut<T: Span>(alloc: Global, ranges: &[T], others: &[T]) -> Result<Vec<T>, Memory>
    ensures { IfOk result (λ v. (top most : ℕ) → IsNormal 0 top (map T.range ranges.now)
        → IsNormal 0 most (map T.range others.now)
        → map T.range v.items ≡ walk (λ r qs. cut_along r qs) (map T.range ranges.now) (map T.range others.now)) }
{
    let mut out = Vec::with_capacity(alloc, ranges.len())?;
    let mut left = ranges;
    let mut rest = others;
    while let [other, ..] = rest {
        left = push_ending_below(&mut out, other.low(), left)?;
        let [range, behind @ ..] = left else {
            return Ok(out);
        };
        rest = push_cut_along(&mut out, range, rest)?;
        left = behind;
    }
    out.extend_from_slice(left)?;
    Ok(out)
}

fn passed<T: Span>(high: u128, ranges: &[T]) -> &[T]
    ensures { map T.range result.now ≡ passed high (map T.range ranges.now) }
{
    for (i, range) in ranges.iter().enumerate() {
        if range.high() >= high {
            return &ranges[i..];
        }
    }
    &[]
}

fn begins_by<T: Span>(low: u128, ranges: &[T]) -> bool
    ensures { result ≡ begins_by low (map T.range ranges.now) }
{
    match ranges {
        [first, ..] => first.low() <= low,
        [] => false,
    }
}

/// Whether a list in normal form has the number, found by halving.
pub(crate) fn has_number<T: Span>(ranges: &[T], x: u128) -> bool
    ensures { (top : ℕ) → IsNormal 0 top (map T.range ranges.now)
        → result ≡ holds (map T.range ranges.now) x }
{
    let from = ranges.partition_point(|range| range.high() < x);
    begins_by(x, &ranges[from..])
}

/// Whether each range lies in one of the others, where both lists are in normal form.
pub(crate) fn all_covered<T: Span, U: Span>(ranges: &[T], others: &[U]) -> bool
    ensures { result ≡ covered_walk (map T.range ranges.now) (map U.range others.now) }
{
    let mut rest = others;
    for range in ranges {
        rest = passed(range.high(), rest);
        if !begins_by(range.low(), rest) {
            return false;
        }
    }
    true
}

/// Whether the first range has all numbers up to this one, as it has where a list in normal form has them.
pub(crate) fn covers_first<T: Span>(high: u128, ranges: &[T]) -> bool
    ensures { result ≡ covers_first high (map T.range ranges.now) }
{
    match ranges {
        [first, ..] => first.low() == 0 && high <= first.high(),
        [] => false,
    }
}

// Whether both are the same range.
#[inline]
fn is_same<T: Span, U: Span>(range: &T, other: &U) -> bool
    ensures { IsTrue result ↔ (T.range range.now ≡ U.range other.now) }
{
    range.low() == other.low() && range.high() == other.high()
}

/// Whether both lists are the same ranges.
pub(crate) fn are_same<T: Span, U: Span>(ranges: &[T], others: &[U]) -> bool
    ensures { IsTrue result ↔ (map T.range ranges.now ≡ map U.range others.now) }
{
    let mut rest = others;
    for range in ranges {
        let [other, behind @ ..] = rest else {
            return false;
        };
        if !is_same(range, other) {
            return false;
        }
        rest = behind;
    }
    rest.is_empty()
}
