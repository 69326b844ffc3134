ghost use Rattle.std.specs.Prelude.{◌≡◌, ℕ, ◌+◌, ◌<◌, ◌^◌, true, ◌++◌, ◌↔◌, ◌&&◌, IfOk, OnOk, map, Contains};
ghost use Rattle.std.specs.List.{filter, list_any};
ghost use Rattle.std.specs.List.Sorted.{IsStrictlyIncreasing};
ghost use Rattle.acl_sets.specs.Ranges.{holds, IsNormal};
ghost use Rattle.acl_sets.specs.SweepSteps.{begins_by, passed};
ghost use Rattle.acl_dead.specs.Boxes.{AreBoundaries};
ghost use Rattle.acl_dead.specs.CutSteps.{EndsFrom, Gathers, held, held_cuts};
ghost use Rattle.acl_dead.specs.Runs.{cuts};

use crate::rows::{begins_by, passed};
use acl_sets::{RangeSet, Ranges};
use acl_text::Memory;
use std::alloc::Global;

// So many cuts may stand in a list before it is looked through for those that stand there more than once.
const FEW: usize = 4096;

/// Puts the number, where the ranges have it, and goes on to the ranges that do not end below it.
fn push_held<'a>(out: &mut Vec<u128>, x: u128, own: Ranges<'a>) -> Result<Ranges<'a>, Memory>
    ensures put { OnOk result (out.new.items ≡ out.old.items ++ held x own.entry) }
    ensures rest { IfOk result (λ rest. rest ≡ passed x own.entry) }
{
    let rest = passed(x, own);
    if begins_by(x, &rest) {
        out.push(x)?;
    }
    Ok(rest)
}

fn passed_over<'a>(high: u128, ranges: Ranges<'a>) -> Ranges<'a>
    ensures { result ≡ passed (high + 1) ranges.entry }
{
    let mut rest = ranges;
    while let Some((range, behind)) = rest.split_first() {
        if range.high > high {
            return rest;
        }
        rest = behind;
    }
    rest
}

// The number behind may be past the greatest of all, and then no range ends there.
fn begins_behind(high: u128, ranges: &Ranges<'_>) -> bool
    requires { EndsFrom (high + 1) ranges.now }
    ensures exact { result ≡ begins_by (high + 1) ranges.now }
    ensures fits { result ≡ true → high + 1 < 2 ^ 128 }
{
    match ranges.split_first() {
        Some((first, _)) => high < first.high && first.low.saturating_sub(1) <= high,
        None => false,
    }
}

/// The same for the number behind another one.
#[tactic(auto, using(crate::proofs::CutFacts::passed_first))]
fn push_next<'a>(out: &mut Vec<u128>, high: u128, own: Ranges<'a>) -> Result<Ranges<'a>, Memory>
    ensures put { OnOk result (out.new.items ≡ out.old.items ++ held (high + 1) own.entry) }
    ensures rest { IfOk result (λ rest. rest ≡ passed (high + 1) own.entry) }
{
    let rest = passed_over(high, own);
    if begins_behind(high, &rest) {
        out.push(high + 1)?;
    }
    Ok(rest)
}

/// Puts the cuts of the ranges that lie in the first ones.
fn push_cuts(out: &mut Vec<u128>, own: Ranges<'_>, ranges: Ranges<'_>) -> Result<(), Memory>
    ensures { OnOk result (out.new.items ≡ out.old.items ++ held_cuts own.entry ranges.entry) }
{
    let mut rest = own;
    for range in ranges {
        let behind = push_held(out, range.low, rest)?;
        rest = push_next(out, range.high, behind)?;
    }
    Ok(())
}

fn low_ends(alloc: Global, ranges: Ranges<'_>) -> Result<Vec<u128>, Memory>
    ensures { IfOk result (λ v. v.items ≡ map (λ r. r.low) ranges.entry) }
{
    let mut out = Vec::with_capacity(alloc, ranges.len())?;
    for range in ranges {
        out.push(range.low)?;
    }
    Ok(out)
}

fn numbers_in(alloc: Global, set: &RangeSet, numbers: &[u128]) -> Result<Vec<u128>, Memory>
    ensures { IfOk result (λ v. v.items ≡ filter (λ x. holds set.now.ranges x) numbers.now) }
{
    Ok(
        numbers
            .iter()
            .copied()
            .filter(|x| set.contains(*x))
            .collect(alloc)?,
    )
}

/// The numbers of a list once each, in rising order.
fn put_in_order(numbers: &mut Vec<u128>)
    ensures rising { IsStrictlyIncreasing numbers.new.items }
    ensures kept { (x : ℕ) → Contains numbers.new.items x ↔ Contains numbers.old.items x }
{
    numbers.sort_unstable();
    numbers.dedup();
}

// What a set cuts of another one.
fn push_cuts_of(out: &mut Vec<u128>, own: &RangeSet, set: &RangeSet) -> Result<(), Memory>
    ensures { OnOk result (Gathers
        (λ x. holds own.now.ranges x && cuts (λ y. holds set.now.ranges y) x) out.old.items out.new.items) }
{
    push_cuts(out, own.ranges(), set.ranges())
}

// Puts the numbers in order, once each, where there are more than so many. Returns how many there may be the next time.
fn keep_once(numbers: &mut Vec<u128>, most: usize) -> usize
    ensures { (x : ℕ) → Contains numbers.new.items x ↔ Contains numbers.old.items x }
{
    if numbers.len() <= most {
        return most;
    }
    put_in_order(numbers);
    numbers.len().saturating_mul(2).max(most)
}

// The same, and what many sets cut does not pile up.
fn push_cuts_once(
    out: &mut Vec<u128>,
    own: &RangeSet,
    set: &RangeSet,
    most: usize,
) -> Result<usize, Memory>
    ensures { OnOk result (Gathers
        (λ x. holds own.now.ranges x && cuts (λ y. holds set.now.ranges y) x) out.old.items out.new.items) }
{
    push_cuts_of(out, own, set)?;
    Ok(keep_once(out, most))
}

fn push_all_cuts(out: &mut Vec<u128>, own: &RangeSet, sets: &[&RangeSet]) -> Result<(), Memory>
    ensures { OnOk result (Gathers
        (λ x. holds own.now.ranges x && list_any (λ s. cuts (λ y. holds s.now.ranges y) x) sets.now)
        out.old.items out.new.items) }
{
    let mut most = FEW;
    for set in sets {
        most = push_cuts_once(out, own, set, most)?;
    }
    Ok(())
}

fn gather(alloc: Global, own: &RangeSet, numbers: &[u128]) -> Result<Vec<u128>, Memory>
    ensures normal { IfOk result (λ v. IsNormal 0 own.now.top own.now.ranges) }
    ensures list { IfOk result (λ v. v.items
        ≡ map (λ r. r.low) own.now.ranges ++ filter (λ x. holds own.now.ranges x) numbers.now) }
{
    let mut out = low_ends(alloc, own.ranges())?;
    let inside = numbers_in(alloc, own, numbers)?;
    out.extend_from_slice(&inside)?;
    Ok(out)
}

/// The boundaries of a set: where a run of its numbers begins, and each cut that lies in it.
pub fn boundaries(
    alloc: Global,
    own: &RangeSet,
    sets: &[&RangeSet],
    numbers: &[u128],
) -> Result<Vec<u128>, Memory>
    ensures { IfOk result (λ v.
        AreBoundaries own.now.ranges (map (λ s. s.now.ranges) sets.now) numbers.now v.items) }
{
    let mut out = gather(alloc, own, numbers)?;
    push_all_cuts(&mut out, own, sets)?;
    put_in_order(&mut out);
    Ok(out)
}
