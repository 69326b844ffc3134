ghost use Rattle.std.specs.Prelude.{◌≡◌, ℕ, ◌+◌, ◌*◌, ◌%◌, ◌<◌, ◌≤◌, ◌==◌, ◌&&◌, List, length, slice_index_or, true, None, IfOk, option_map};
ghost use Rattle.acl_host.specs.declared.days.Day.{Day};
ghost use Rattle.acl_target.specs.declared.targets.Target.{Target};
ghost use Rattle.acl_terms.specs.declared.terms.Term.{Term};
ghost use Rattle.acl_shade.specs.ComputableShading.{shaded_by, shades, shading_term};
ghost use Rattle.acl_shade.specs.ShadedPlaces.{AreShadedPlaces};
ghost use Rattle.acl_shade.specs.Sifting.{RowHas};

use crate::apart::are_apart;
use crate::shading::{is_live_on_some, is_live_where, shades};
use crate::sifting::candidates;
use acl_host::Day;
use acl_target::Target;
use acl_terms::Term;
use acl_text::{Items, Memory};
use std::alloc::Global;

// Life is asked before sets are walked through.
fn is_shading(targets: &[Target], today: Day, earlier: &Term, term: &Term) -> bool
    ensures { result ≡ shades targets.now today earlier.now term.now }
{
    is_live_where(targets, today, earlier, term) && shades(targets, today, earlier, term)
}

// Whether the last bit is set, and the earlier term shades the other.
fn is_left(rest: u64, targets: &[Target], today: Day, earlier: &Term, term: &Term) -> bool
    ensures { result ≡ (rest % 2 == 1 && shades targets.now today earlier.now term.now) }
{
    rest % 2 == 1 && is_shading(targets, today, earlier, term)
}

// The place of the first term before this place that shades the term there: one whose bit is set in the row.
fn first_left(
    terms: &[Term],
    targets: &[Target],
    today: Day,
    place: usize,
    left: &[u64],
    width: usize,
) -> Option<usize>
    requires there { place < length terms.now }
    requires fits { length terms.now ≤ 64 * width }
    requires row { place * width + width ≤ length left.now }
    requires shading { (i : ℕ) (d : Term) → i < place
        → shades targets.now today (slice_index_or terms.now i d) (slice_index_or terms.now place d) ≡ true
        → RowHas width left.now place i }
    ensures { result ≡ shaded_by targets.now today terms.now place }
{
    let term = &terms[place];
    if !is_live_on_some(targets, today, term) {
        return None;
    }
    let mut at = 0;
    while at < place {
        let rest = left[place * width + at / 64] >> (at % 64);
        if rest == 0 {
            at = (at / 64 + 1) * 64;
        } else if is_left(rest, targets, today, &terms[at], term) {
            return Some(at);
        } else {
            at += 1;
        }
    }
    None
}

// That none of so many terms is shaded.
fn none_shaded(alloc: Global, count: usize) -> Result<Items<Option<usize>>, Memory>
    ensures size { IfOk result (λ places. length places ≡ count) }
    ensures none { IfOk result (λ places. (k : ℕ) → k < count → slice_index_or places k None ≡ None) }
{
    let mut places = Items::with_capacity(alloc, count)?;
    for _ in 0..count {
        places.push(None)?;
    }
    Ok(places)
}

// The places, where the terms that can shade each one are sifted.
fn sifted_places(
    alloc: Global,
    terms: &[Term],
    targets: &[Target],
    today: Day,
) -> Result<Items<Option<usize>>, Memory>
    ensures { IfOk result (AreShadedPlaces targets.now today terms.now) }
{
    let width = terms.len().div_ceil(64);
    let left = candidates(alloc, terms, width)?;
    let mut places = Items::with_capacity(alloc, terms.len())?;
    for place in 0..terms.len() {
        places.push(first_left(terms, targets, today, place, &left, width))?;
    }
    Ok(places)
}

/// For each term of a block, in order, the place of the first one that shades it, as `shaded_by` has it. It fails only
/// where memory is wanted.
pub fn shaded_places(
    alloc: Global,
    terms: &[Term],
    targets: &[Target],
    today: Day,
) -> Result<Items<Option<usize>>, Memory>
    ensures { IfOk result (AreShadedPlaces targets.now today terms.now) }
{
    if are_apart(alloc, terms)? {
        let places = none_shaded(alloc, terms.len())?;
        return Ok(places);
    }
    sifted_places(alloc, terms, targets, today)
}

/// The term that shades the one at this place, where the list is that of the block's shaded places.
pub fn shading_term<'a>(
    terms: &'a [Term],
    places: &[Option<usize>],
    place: usize,
) -> Option<&'a Term>
    ensures { (targets : List Target) (today : Day) → AreShadedPlaces targets today terms.now places.now
        → place < length terms.now
        → option_map (λ t. t.now) result ≡ shading_term targets today terms.now place }
{
    let shading = *places.get(place)?;
    terms.get(shading?)
}
