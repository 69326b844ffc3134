ghost use Rattle.std.specs.Prelude.{◌≡◌, ◌==◌, ◌<◌, [], ◌∷◌, IfSome, IfNone, length, slice_index_or};
ghost use Rattle.acl_sets.specs.HeldRanges.{slice_ranges};
ghost use Rattle.acl_sets.specs.declared.sets.Range.{Range as RangeData};

use crate::sets::Range;
use crate::short_ranges::wide;
use crate::slices::Slices;
use std::marker::Model;

/// Ranges of a set, in rising order, disjoint and not touching. A contract sees their list.
///
/// They are gone through by value, since a set may hold them in fewer bytes than a `Range` has.
#[derive(Drop)]
pub struct Ranges<'a> {
    held: Slices<'a>,
}

impl<'a> Model for Ranges<'a> {
    ghost use Rattle.std.specs.Prelude.{List};
    ghost use Rattle.acl_sets.specs.declared.sets.Range.{Range};
    ghost use Rattle.acl_sets.specs.HeldRanges.{slice_ranges};

    ghost Value = { List Range };

    ghost view = { λ r. slice_ranges r.held };
}

impl<'a> Ranges<'a> {
    pub(crate) fn of(held: Slices<'a>) -> Ranges<'a>
        ensures { result ≡ slice_ranges held.entry }
    {
        Ranges { held }
    }

    /// No ranges.
    pub(crate) fn none() -> Ranges<'a>
        ensures { result ≡ [] }
    {
        Ranges {
            held: Slices::Short(&[]),
        }
    }

    /// The same ranges, to be gone through once more.
    #[inline]
    pub fn copy(&self) -> Ranges<'a>
        ensures { result ≡ self.now }
    {
        Ranges { held: self.held }
    }

    /// How many there are.
    #[inline]
    pub fn len(&self) -> usize
        ensures { result ≡ length self.now }
    {
        self.held.len()
    }

    /// Whether there is none.
    #[inline]
    pub fn is_empty(&self) -> bool
        ensures { result ≡ (length self.now == 0) }
    {
        self.held.len() == 0
    }

    /// The range at a place.
    #[inline]
    pub fn at(&self, place: usize) -> Range
        requires { place < length self.now }
        ensures { (d : RangeData) → result ≡ slice_index_or self.now place d }
    {
        match self.held {
            Slices::Long(ranges) => item_at(ranges, place),
            Slices::Short(ranges) => wide(item_at(ranges, place)),
        }
    }

    /// The first range, and those behind it. `None` exactly where there is none.
    #[inline]
    pub fn split_first(&self) -> Option<(Range, Ranges<'a>)>
        ensures some { IfSome result (λ split. self.now ≡ split.0 ∷ split.1) }
        ensures none { IfNone result (self.now ≡ []) }
    {
        match self.held {
            Slices::Long(ranges) => {
                let (first, rest) = ranges.split_first()?;
                let held = Slices::Long(rest);
                Some((*first, Ranges { held }))
            }
            Slices::Short(ranges) => {
                let (first, rest) = ranges.split_first()?;
                let held = Slices::Short(rest);
                Some((wide(*first), Ranges { held }))
            }
        }
    }
}

// The item at a place, of either kind of list.
#[inline]
fn item_at<T: Copy>(items: &[T], place: usize) -> T
    requires { place < length items.now }
    ensures { result ≡ slice_index_or items.now place result }
{
    items[place]
}

impl<'a> Iterator for Ranges<'a> {
    type Item = Range;

    ghost use Rattle.std.specs.Iterator.{YieldsFirst, item_count};

    ghost next_gives = { YieldsFirst (λ l. l) };

    ghost remaining = { item_count (λ l. l) };

    #[inline]
    fn next(&mut self) -> Option<Range> {
        let (range, behind) = self.split_first()?;
        *self = behind;
        Some(range)
    }
}
