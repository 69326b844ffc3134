ghost use Rattle.std.specs.Prelude.{◌≡◌, ◌+◌, ◌<◌, ◌≤◌, ◌++◌, true, length, map, IfOk, OnOk};
ghost use Rattle.std.specs.List.{All};
ghost use Rattle.acl_naming.specs.declared.ranking.SearchStep.TheVariants.{Enter};
ghost use Rattle.acl_naming.specs.RankSteps.{IsStepOf, LeadBack, NeverFall, rank_at, steps_left};

use crate::linking::LinkedTable;
use acl_text::Memory;
use std::alloc::Global;

// Ranks by a search for rings (R. Tarjan, Depth-first search and linear graph algorithms, 1972), without recursion.
// While a definition is on the path of the search, its rank is the place on it, from 1, of one that it reaches. Then it
// is a number above all places: the same one for all of a ring, and less for each ring or single definition found later.

/// A step of the search. A definition is left when all that it names has been left, but for what it is in a ring with.
#[derive(Clone, Copy)]
pub enum SearchStep {
    Enter(usize),
    Leave(usize),
}

/// The least rank at the places.
pub fn lowest(places: &[usize], ranks: &[usize]) -> usize
    requires { All (λ j. j < length ranks.now) places.now }
    ensures { All (λ j. result ≤ rank_at ranks.now j) places.now }
{
    let mut least = usize::MAX;
    for place in places {
        least = least.min(ranks[*place]);
    }
    least
}

fn push_links(links: &[usize], steps: &mut Vec<SearchStep>) -> Result<(), Memory>
    ensures { OnOk result (steps.new.items ≡ steps.old.items ++ map Enter links.now) }
{
    for link in links {
        steps.push(SearchStep::Enter(*link))?;
    }
    Ok(())
}

// Each definition is entered once, and left after all that it names.
fn enter(
    table: &LinkedTable,
    index: usize,
    entered: &mut [bool],
    steps: &mut Vec<SearchStep>,
    path: &mut Vec<usize>,
    ranks: &mut [usize],
) -> Result<(), Memory>
    requires fits { length entered.old ≡ length table.now }
    requires ranked { length ranks.old ≡ length table.now }
    requires within { index < length table.now }
    requires steps { All (IsStepOf (length table.now)) steps.old.items }
    requires path { All (λ j. j < length table.now) path.old.items }
    ensures steps { OnOk result (All (IsStepOf (length table.now)) steps.new.items) }
    ensures path { OnOk result (All (λ j. j < length table.now) path.new.items) }
    ensures few { OnOk result
        (length steps.new.items + steps_left table.now entered.new
        ≤ length steps.old.items + steps_left table.now entered.old) }
{
    if entered[index] {
        return Ok(());
    }
    entered[index] = true;
    path.push(index)?;
    ranks[index] = path.len();
    steps.push(SearchStep::Leave(index))?;
    push_links(table.links_at(index), steps)
}

// Takes what is on the path from the place on, from 1, off it.
fn close(path: &mut Vec<usize>, ranks: &mut [usize], from: usize, rank: usize)
    requires { All (λ j. j < length ranks.old) path.old.items }
    ensures { All (λ j. j < length ranks.old) path.new.items }
{
    while path.len() >= from {
        let Some(index) = path.pop() else {
            return;
        };
        ranks[index] = rank;
    }
}

// A definition that reaches none before it on the path is the first of a ring, or in none. What was entered behind it
// is in that ring.
fn leave(
    table: &LinkedTable,
    index: usize,
    path: &mut Vec<usize>,
    ranks: &mut [usize],
    next: &mut usize,
)
    requires ranked { length ranks.old ≡ length table.now }
    requires within { index < length table.now }
    requires path { All (λ j. j < length table.now) path.old.items }
    ensures { All (λ j. j < length table.now) path.new.items }
{
    let own = ranks[index];
    let least = lowest(table.links_at(index), ranks);
    if least < own {
        ranks[index] = least;
    } else {
        close(path, ranks, own, *next);
        *next = next.saturating_sub(1);
    }
}

fn first_steps(alloc: Global, table: &LinkedTable) -> Result<Vec<SearchStep>, Memory>
    ensures { IfOk result (λ v. All (IsStepOf (length table.now)) v.items) }
{
    let mut steps = Vec::new(alloc);
    for i in 0..table.len() {
        steps.push(SearchStep::Enter(i))?;
    }
    Ok(steps)
}

// Searches from each definition, and gives each its rank.
fn rank_all(
    alloc: Global,
    table: &LinkedTable,
    entered: &mut [bool],
    ranks: &mut [usize],
) -> Result<(), Memory>
    requires fits { length entered.old ≡ length table.now }
    requires ranked { length ranks.old ≡ length table.now }
{
    let mut steps = first_steps(alloc, table)?;
    let mut path = Vec::new(alloc);
    let mut next = usize::MAX;
    while let Some(step) = steps.pop() {
        match step {
            SearchStep::Enter(index) => enter(table, index, entered, &mut steps, &mut path, ranks)?,
            SearchStep::Leave(index) => leave(table, index, &mut path, ranks, &mut next),
        }
    }
    Ok(())
}

fn search(alloc: Global, table: &LinkedTable) -> Result<Vec<usize>, Memory>
    ensures { IfOk result (λ v. length v.items ≡ length table.now) }
{
    let mut entered = vec![in alloc; false; table.len()]?;
    let mut ranks = vec![in alloc; 0; table.len()]?;
    rank_all(alloc, table, &mut entered, &mut ranks)?;
    Ok(ranks)
}

fn never_fall(table: &LinkedTable, ranks: &[usize]) -> bool
    requires { length ranks.now ≡ length table.now }
    ensures { result ≡ true → NeverFall table.now ranks.now }
{
    for i in 0..table.len() {
        if lowest(table.links_at(i), ranks) < ranks[i] {
            return false;
        }
    }
    true
}

fn are_before(places: &[usize], end: usize) -> bool
    ensures { result ≡ true → All (λ j. j < end) places.now }
{
    for place in places {
        if *place >= end {
            return false;
        }
    }
    true
}

/// Whether each definition names only those that stand before it, as most files have it. Then there is no ring.
pub fn lead_back(table: &LinkedTable) -> bool
    ensures { result ≡ true → LeadBack table.now }
{
    for i in 0..table.len() {
        if !are_before(table.links_at(i), i) {
            return false;
        }
    }
    true
}

/// A rank for each definition, which is at most that of each one that it names. It is less wherever the definition is
/// in no ring, which no contract says: it only saves time.
pub fn ranks(alloc: Global, table: &LinkedTable) -> Result<Vec<usize>, Memory>
    ensures fits { IfOk result (λ v. length v.items ≡ length table.now) }
    ensures steady { IfOk result (λ v. NeverFall table.now v.items) }
{
    let mut ranks = search(alloc, table)?;
    if never_fall(table, &ranks) {
        return Ok(ranks);
    }
    // the search is right, so this is not come to; equal ranks are right whatever it is
    ranks.fill(0);
    Ok(ranks)
}
