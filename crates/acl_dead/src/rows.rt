ghost use Rattle.std.specs.Prelude.{◌≡◌, ℕ, ◌*◌, ◌<◌, ◌&&◌, false, IfOk, [], length, map, slice_index, slice_index_or};
ghost use Rattle.std.specs.List.{All, list_all};
ghost use Rattle.std.specs.List.Sorted.{IsStrictlyIncreasing};
ghost use Rattle.acl_sets.specs.Ranges.{holds};
ghost use Rattle.acl_sets.specs.SweepSteps.{passed, begins_by};
ghost use Rattle.acl_dead.specs.PlaceSteps.{has, words_for};
ghost use Rattle.acl_dead.specs.RowSteps.{PutsAlong, PutsAt};

use crate::places::Places;
use acl_sets::{RangeSet, Ranges};
use acl_text::Memory;
use std::alloc::Global;

pub(crate) fn passed<'a>(high: u128, ranges: Ranges<'a>) -> Ranges<'a>
    ensures { result ≡ passed high ranges.entry }
{
    let mut rest = ranges;
    while let Some((range, behind)) = rest.split_first() {
        if range.high >= high {
            return rest;
        }
        rest = behind;
    }
    rest
}

pub(crate) fn begins_by(low: u128, ranges: &Ranges<'_>) -> bool
    ensures { result ≡ begins_by low ranges.now }
{
    match ranges.split_first() {
        Some((first, _)) => first.low <= low,
        None => false,
    }
}

// ---- a place in rows

// Puts a place into a row, where it is to be there.
fn put_at(rows: &mut Vec<Places>, at: usize, place: usize, is_there: bool)
    requires at { at < length rows.old.items }
    requires room { place < 64 * length (slice_index_or rows.old.items at []) }
    ensures { PutsAt at place is_there rows.old.items rows.new.items }
{
    if is_there {
        rows[at].insert(place);
    }
}

// Puts a place into the row of each value that the ranges hold.
fn put_along(rows: &mut Vec<Places>, values: &[u128], ranges: Ranges<'_>, place: usize)
    requires rising { IsStrictlyIncreasing values.now }
    requires count { length rows.old.items ≡ length values.now }
    requires room { (i : ℕ) → i < length values.now
        → place < 64 * length (slice_index_or rows.old.items i []) }
    ensures { PutsAlong (λ x. begins_by x (passed x ranges.entry)) place values.now
        rows.old.items rows.new.items }
{
    let mut rest = ranges;
    for (i, x) in values.iter().enumerate() {
        rest = passed(*x, rest);
        put_at(rows, i, place, begins_by(*x, &rest));
    }
}

// Puts a place into the row of each value that the set holds.
fn put_side(rows: &mut Vec<Places>, values: &[u128], set: &RangeSet, place: usize)
    requires rising { IsStrictlyIncreasing values.now }
    requires count { length rows.old.items ≡ length values.now }
    requires room { (i : ℕ) → i < length values.now
        → place < 64 * length (slice_index_or rows.old.items i []) }
    ensures { PutsAlong (λ x. holds set.now.ranges x) place values.now
        rows.old.items rows.new.items }
{
    put_along(rows, values, set.ranges(), place);
}

// ---- rows

// So many rows without a place.
fn empty_rows(alloc: Global, count: usize, places: usize) -> Result<Vec<Places>, Memory>
    ensures count { IfOk result (λ v. length v.items ≡ count) }
    ensures lengths { IfOk result (λ v. (i : ℕ) → i < count
        → length (slice_index_or v.items i []) ≡ words_for places) }
    ensures empty { IfOk result (λ v. (i b : ℕ) → i < count
        → has (slice_index_or v.items i []) b ≡ false) }
{
    let mut out = Vec::with_capacity(alloc, count)?;
    for _ in 0..count {
        out.push(Places::empty(alloc, places)?)?;
    }
    Ok(out)
}

/// A row for each value: the places of the sides that hold it.
pub fn make_rows(alloc: Global, values: &[u128], sides: &[&RangeSet]) -> Result<Vec<Places>, Memory>
    requires { IsStrictlyIncreasing values.now }
    ensures count { IfOk result (λ v. length v.items ≡ length values.now) }
    ensures lengths { IfOk result (λ v. All (λ r. length r ≡ words_for (length sides.now)) v.items) }
    ensures exact { IfOk result (λ v. (i b : ℕ) → i < length values.now
        → has (slice_index_or v.items i []) b
        ≡ holds (slice_index_or (map (λ s. s.now.ranges) sides.now) b []) (slice_index values.now i)) }
{
    let mut out = empty_rows(alloc, values.len(), sides.len())?;
    for (place, side) in sides.iter().enumerate() {
        put_side(&mut out, values, side, place);
    }
    Ok(out)
}

/// The places that are in each of the sets.
pub fn meet_all(alloc: Global, first: &Places, rows: &[Places]) -> Result<Places, Memory>
    requires { All (λ r. length r ≡ length first.now) rows.now }
    ensures length { IfOk result (λ s. length s ≡ length first.now) }
    ensures exact { IfOk result (λ s. (b : ℕ) →
        has s b ≡ has first.now b && list_all (λ r. has r b) rows.now) }
{
    let mut out = first.copy(alloc)?;
    for row in rows {
        out = out.meet(alloc, row)?;
    }
    Ok(out)
}
