ghost use Rattle.std.specs.Prelude.{◌≡◌, ◌<◌, ◌+◌, ◌^◌, ◌∷◌, [], ◌++◌, OnOk, IfSome};
ghost use Rattle.acl_words.specs.Stretches.{places_from, places_in, places_of};

use crate::stretches::Stretch;
use acl_text::{Memory, Place};

/// Adds the places of so many lines of a file, from its first one on.
pub(crate) fn push_file_places(
    stretches: &mut Vec<Stretch>,
    file: u32,
    count: u32,
) -> Result<(), Memory>
    requires { count + 1 < 2 ^ 32 }
    ensures { OnOk result (places_of stretches.new.items
        ≡ places_of stretches.old.items ++ places_from file 1 count) }
{
    if count > 0 {
        stretches.push(Stretch {
            file,
            first: 1,
            count,
        })?;
    }
    Ok(())
}

fn one_line(place: Place) -> Stretch
    ensures { places_in result ≡ place ∷ [] }
{
    Stretch {
        file: place.file,
        first: place.line,
        count: 1,
    }
}

/// The stretch with the place behind it, where that is the next line of its file.
fn followed_by(stretch: Stretch, place: Place) -> Option<Stretch>
    ensures { IfSome result (λ longer. places_in longer ≡ places_in stretch ++ place ∷ []) }
{
    let next = stretch.first.checked_add(stretch.count)?;
    if place.file != stretch.file || place.line != next {
        return None;
    }
    Some(Stretch {
        file: stretch.file,
        first: stretch.first,
        count: stretch.count.checked_add(1)?,
    })
}

/// Adds the place of one more line.
pub(crate) fn push_place(stretches: &mut Vec<Stretch>, place: Place) -> Result<(), Memory>
    ensures { OnOk result (places_of stretches.new.items
        ≡ places_of stretches.old.items ++ place ∷ []) }
{
    if let Some(last) = stretches.pop() {
        if let Some(longer) = followed_by(last, place) {
            stretches.push(longer)?;
            return Ok(());
        }
        stretches.push(last)?;
    }
    stretches.push(one_line(place))?;
    Ok(())
}
