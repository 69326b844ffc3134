ghost use Rattle.std.specs.Prelude.{◌≡◌, true, IfOk};
ghost use Rattle.acl_shade.specs.Sifting.{NoneShades};

use crate::parts::{PARTS, Part, is_asked, part_of};
use crate::points::points_of;
use crate::seen_numbers::SeenNumbers;
use crate::sizes::none_lies_within;
use acl_packet::Field;
use acl_terms::Term;
use acl_text::Memory;
use std::alloc::Global;

// Whether each term has a number of the part that no term before it has, and that a shading one would have. It wants no row
// of bits for each term.
fn each_has_new(alloc: Global, part: Part, terms: &[Term]) -> Result<bool, Memory>
    ensures { IfOk result (λ apart. apart ≡ true → NoneShades terms.now) }
{
    let points = points_of(alloc, part, terms)?;
    let mut numbers = SeenNumbers::new(alloc, points)?;
    for term in terms {
        if !is_asked(part, term) || !numbers.add(part_of(part, term)) {
            return Ok(false);
        }
    }
    Ok(true)
}

/// Whether the terms are told apart at once: each has a destination port that no term before it has, or some part of no
/// term lies within that of one before it. Then none is shaded.
pub(crate) fn are_apart(alloc: Global, terms: &[Term]) -> Result<bool, Memory>
    ensures { IfOk result (λ apart. apart ≡ true → NoneShades terms.now) }
{
    if each_has_new(alloc, Part::Numbered(Field::DestinationPort), terms)? {
        return Ok(true);
    }
    for part in PARTS {
        if none_lies_within(alloc, part, terms)? {
            return Ok(true);
        }
    }
    Ok(false)
}
