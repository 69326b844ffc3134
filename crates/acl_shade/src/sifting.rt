ghost use Rattle.std.specs.Prelude.{◌≡◌, ℕ, ◌*◌, ◌<◌, ◌≤◌, length, slice_index_or, true, OnOk, IfOk};
ghost use Rattle.acl_terms.specs.declared.terms.Term.{Term};
ghost use Rattle.acl_shade.specs.ComputableShading.{shades};
ghost use Rattle.acl_shade.specs.Sifting.{KeepsShading, KeepsWithin, LeavesShading};

use crate::marks::Marks;
use crate::parts::{PARTS, Part, is_asked, part_of};
use crate::points::points_of;
use acl_host::Day;
use acl_target::Target;
use acl_terms::Term;
use acl_text::Memory;
use std::alloc::Global;

// Fewer terms are compared pair by pair as quickly.
const FEW: usize = 64;

// Takes from what is left for each term the earlier terms that lack a number of the part.
fn sift(
    alloc: Global,
    part: Part,
    terms: &[Term],
    width: usize,
    left: &mut [u64],
) -> Result<(), Memory>
    requires fits { length terms.now ≤ 64 * width }
    requires rows { length left.old ≡ length terms.now * width }
    ensures size { length left.new ≡ length left.old }
    ensures keeps { OnOk result (KeepsWithin width part terms.now left.old left.new) }
{
    let points = points_of(alloc, part, terms)?;
    if points.len() < 2 {
        return Ok(());
    }
    let mut marks = Marks::new(alloc, points, width)?;
    for (place, term) in terms.iter().enumerate() {
        marks.pass(place, part_of(part, term), is_asked(part, term), left);
    }
    Ok(())
}

// Whether no bit of an earlier term is left in the row of the term at the place.
fn is_row_empty(row: &[u64], place: usize) -> bool {
    row.iter().take(place / 64 + 1).all(|word| *word == 0)
}

// The first term has no earlier one, so its row tells nothing.
fn is_none_left(left: &[u64], width: usize) -> bool
    requires { 0 < width }
{
    for (place, row) in left.chunks(width).enumerate() {
        if place > 0 && !is_row_empty(row, place) {
            return false;
        }
    }
    true
}

// Takes from what is left for each term earlier ones that do not shade it. A few terms are not sifted.
fn sift_all(alloc: Global, terms: &[Term], width: usize, left: &mut [u64]) -> Result<(), Memory>
    requires fits { length terms.now ≤ 64 * width }
    requires rows { length left.old ≡ length terms.now * width }
    ensures size { length left.new ≡ length left.old }
    ensures keeps { OnOk result (KeepsShading width terms.now left.old left.new) }
{
    if terms.len() < FEW {
        return Ok(());
    }
    for part in PARTS {
        if is_none_left(left, width) {
            break;
        }
        sift(alloc, part, terms, width, left)?;
    }
    Ok(())
}

/// For each term a row of so many words, with a bit for each earlier term that can shade it.
pub(crate) fn candidates(alloc: Global, terms: &[Term], width: usize) -> Result<Vec<u64>, Memory>
    requires fits { length terms.now ≤ 64 * width }
    ensures size { IfOk result (λ left. length left.items ≡ length terms.now * width) }
    ensures shading { IfOk result (λ left. LeavesShading width terms.now left.items) }
{
    let Some(words) = terms.len().checked_mul(width) else {
        return Err(Memory);
    };
    let mut left = vec![in alloc; u64::MAX; words]?;
    sift_all(alloc, terms, width, &mut left)?;
    Ok(left)
}
