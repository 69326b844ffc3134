ghost use Rattle.std.specs.Prelude.{◌≡◌, ◌≤◌, [], ◌∷◌, ◌++◌, OnOk, OnErr, IfOk, IfSome, IfNone, length, take};
ghost use Rattle.std.proofs.Math.ListN.{replicate};
ghost use Rattle.acl_words.specs.PlaceSteps.{added, left_by, next_line, place_by};

use acl_text::{Memory, Place};
use std::alloc::Global;
use std::marker::Model;

/// How the place of an item follows from that of the item before it.
#[derive(Clone, Copy, PartialEq, Eq)]
pub(crate) enum PlaceStep {
    /// The same line.
    Same,
    /// The next line of the file.
    Next,
    /// Any other line, which is kept.
    Own,
}

/// As often a place may be repeated in a list without memory.
pub(crate) const MOST_REPEATED: u8 = 32;

const REPEATED: [PlaceStep; MOST_REPEATED as usize] = [PlaceStep::Same; MOST_REPEATED as usize];

/// A list of places, most of which follow from the ones before them, the first from a place where the list
/// starts. A contract sees the list.
#[derive(Drop)]
pub(crate) struct PlaceList {
    start: Place,
    steps: Vec<PlaceStep>,
    own: Vec<Place>,
    last: Place,
}

impl Model for PlaceList {
    ghost use Rattle.std.specs.Prelude.{List};
    ghost use Rattle.acl_text.specs.declared.faults.Place.{Place};
    ghost use Rattle.acl_words.specs.PlaceSteps.{AreStepped, places_by};

    ghost Value = { List Place };

    ghost view = { λ s. places_by s.start s.own.items s.steps.items };

    ghost invariant = { λ s. AreStepped s.start s.last s.own.items s.steps.items };
}

/// The line behind the one at the place.
fn next_line(place: Place) -> Place
    ensures { result ≡ next_line place }
{
    if place.line == u32::MAX {
        Place {
            file: place.file,
            line: 0,
        }
    } else {
        Place {
            file: place.file,
            line: place.line + 1,
        }
    }
}

/// The step from one place to another.
fn step_to(last: Place, place: Place) -> PlaceStep
    ensures { place_by result last (added result place) ≡ place }
{
    if place == last {
        PlaceStep::Same
    } else if place == next_line(last) {
        PlaceStep::Next
    } else {
        PlaceStep::Own
    }
}

/// Adds the step, and its place where that is kept. Where memory is wanted a step too many may stand at the end.
fn push_step(
    steps: &mut Vec<PlaceStep>,
    own: &mut Vec<Place>,
    step: PlaceStep,
    place: Place,
) -> Result<(), Memory>
    ensures steps { OnOk result (steps.new.items ≡ steps.old.items ++ step ∷ []) }
    ensures own { OnOk result (own.new.items ≡ own.old.items ++ added step place) }
    ensures old_steps { OnErr result (take (length steps.old.items) steps.new.items ≡ steps.old.items) }
    ensures old_own { OnErr result (own.new.items ≡ own.old.items) }
{
    steps.push(step)?;
    if step == PlaceStep::Own {
        own.push(place)?;
    }
    Ok(())
}

impl PlaceList {
    /// No places. The list starts at the place, which takes the least room where it comes first.
    pub(crate) fn starting_at(alloc: Global, start: Place) -> PlaceList
        ensures { result ≡ [] }
    {
        PlaceList {
            start,
            steps: Vec::new(alloc),
            own: Vec::new(alloc),
            last: start,
        }
    }

    /// The place, so many times.
    #[tactic(auto, using(crate::proofs::StepLaws::once_more))]
    pub(crate) fn repeated(alloc: Global, place: Place, count: u8) -> Result<PlaceList, Memory>
        ensures { IfOk result (λ l. l ≡ replicate count place) }
    {
        let mut places = PlaceList::starting_at(alloc, place);
        places.steps.reserve(REPEATED.len())?;
        for _ in 0..count {
            places.push(place)?;
        }
        Ok(places)
    }

    /// Adds the place at the end. Where memory is wanted the list is as it was.
    pub(crate) fn push(&mut self, place: Place) -> Result<(), Memory>
        ensures ok { OnOk result (self.new ≡ self.old ++ place ∷ []) }
        ensures err { OnErr result (self.new ≡ self.old) }
    {
        let step = step_to(self.last, place);
        let count = self.steps.len();
        match push_step(&mut self.steps, &mut self.own, step, place) {
            Ok(()) => {
                self.last = place;
                Ok(())
            }
            Err(memory) => {
                self.steps.truncate(count);
                Err(memory)
            }
        }
    }

    /// The places in order.
    pub(crate) fn iter(&self) -> PlacesLeft<'_>
        ensures { result ≡ self.now }
    {
        PlacesLeft {
            here: self.start,
            steps: self.steps.as_slice(),
            own: self.own.as_slice(),
        }
    }
}

/// The place to which the step leads, and the kept places that are left behind it.
fn step_from(step: PlaceStep, here: Place, own: &[Place]) -> (Place, &[Place])
    ensures place { result.0 ≡ place_by step here own.now }
    ensures left { result.1.now ≡ left_by step own.now }
{
    match (step, own) {
        (PlaceStep::Same, _) | (PlaceStep::Own, []) => (here, own),
        (PlaceStep::Next, _) => (next_line(here), own),
        (PlaceStep::Own, [first, behind @ ..]) => (*first, behind),
    }
}

/// The places of a list that are not yet given.
#[derive(Drop)]
pub(crate) struct PlacesLeft<'a> {
    here: Place,
    steps: &'a [PlaceStep],
    own: &'a [Place],
}

impl<'a> Model for PlacesLeft<'a> {
    ghost use Rattle.std.specs.Prelude.{List};
    ghost use Rattle.acl_text.specs.declared.faults.Place.{Place};
    ghost use Rattle.acl_words.specs.PlaceSteps.{places_by};

    ghost Value = { List Place };

    ghost view = { λ s. places_by s.here s.own.now s.steps.now };
}

impl<'a> PlacesLeft<'a> {
    /// No places.
    pub(crate) fn none() -> PlacesLeft<'a>
        ensures { result ≡ [] }
    {
        PlacesLeft {
            here: Place { file: 0, line: 0 },
            steps: &[],
            own: &[],
        }
    }

    /// The place, so many times.
    pub(crate) fn repeated(place: Place, count: u8) -> PlacesLeft<'a>
        requires { count ≤ 32 }
        ensures { result ≡ replicate count place }
    {
        PlacesLeft {
            here: place,
            steps: &REPEATED[..usize::from(count)],
            own: &[],
        }
    }

    /// The next place. `None` exactly where none is left.
    pub(crate) fn next(&mut self) -> Option<Place>
        ensures some { IfSome result (λ p. self.old ≡ p ∷ self.new) }
        ensures none { IfNone result ((self.old ≡ []) × (self.new ≡ [])) }
    {
        let (step, steps) = self.steps.split_first()?;
        self.steps = steps;
        let (here, own) = step_from(*step, self.here, self.own);
        self.here = here;
        self.own = own;
        Some(here)
    }
}
