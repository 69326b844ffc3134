ghost use Rattle.std.specs.Prelude.{◌≡◌, ◌++◌, min, max, OnOk, map};
ghost use Rattle.acl_sets.specs.ComputableSets.{is_before, joined, below, shared};

use crate::spans::Span;
use acl_text::Memory;

/// Whether the range ends before the other begins, with a number between them.
#[inline]
pub(crate) fn is_before<T: Span>(range: &T, other: &T) -> bool
    ensures { result ≡ is_before (T.range range.now) (T.range other.now) }
{
    range.high() < other.low() && other.low() - range.high() > 1
}

// The range that begins first.
#[inline]
fn first_begun<T: Span>(range: &T, other: &T) -> T
    ensures { (T.range result).low ≡ min (T.range range.now).low (T.range other.now).low }
{
    if range.low() <= other.low() {
        *range
    } else {
        *other
    }
}

// The range that begins last.
#[inline]
fn last_begun<T: Span>(range: &T, other: &T) -> T
    ensures { (T.range result).low ≡ max (T.range range.now).low (T.range other.now).low }
{
    if range.low() <= other.low() {
        *other
    } else {
        *range
    }
}

// The range that ends first.
#[inline]
fn first_ended<T: Span>(range: &T, other: &T) -> T
    ensures { (T.range result).high ≡ min (T.range range.now).high (T.range other.now).high }
{
    if range.high() <= other.high() {
        *range
    } else {
        *other
    }
}

// The range that ends last.
#[inline]
fn last_ended<T: Span>(range: &T, other: &T) -> T
    ensures { (T.range result).high ≡ max (T.range range.now).high (T.range other.now).high }
{
    if range.high() <= other.high() {
        *other
    } else {
        *range
    }
}

/// Two ranges that meet or touch, as one.
#[inline]
pub(crate) fn joined<T: Span>(range: &T, other: &T) -> T
    ensures { T.range result ≡ joined (T.range range.now) (T.range other.now) }
{
    first_begun(range, other).to_end_of(&last_ended(range, other))
}

/// Puts what two ranges share.
#[inline]
pub(crate) fn push_shared<T: Span>(out: &mut Vec<T>, range: &T, of: &T) -> Result<(), Memory>
    ensures { OnOk result (map T.range out.new.items
        ≡ map T.range out.old.items ++ shared (T.range range.now) (T.range of.now)) }
{
    let begun = last_begun(range, of);
    let ended = first_ended(range, of);
    if begun.low() <= ended.high() {
        out.push(begun.to_end_of(&ended))?;
    }
    Ok(())
}

/// Puts what the second range has below the first.
#[inline]
pub(crate) fn push_below<T: Span>(out: &mut Vec<T>, range: &T, of: &T) -> Result<(), Memory>
    ensures { OnOk result (map T.range out.new.items
        ≡ map T.range out.old.items ++ below (T.range range.now) (T.range of.now)) }
{
    if of.low() < range.low() {
        let ended = first_ended(of, &of.up_to(range));
        out.push(of.to_end_of(&ended))?;
    }
    Ok(())
}
