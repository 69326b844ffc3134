ghost use Rattle.std.specs.Prelude.{◌≡◌, ℕ, ◌↔◌, IsTrue, length};
ghost use Rattle.acl_sets.specs.HeldRanges.{slice_ranges};
ghost use Rattle.acl_sets.specs.Ranges.{IsNormal, holds};
ghost use Rattle.acl_sets.specs.SweepSteps.{covered_walk};

use crate::sets::Range;
use crate::spans::ShortRange;
use crate::sweeps;

/// The ranges of a set, in as many bytes as they are held.
#[derive(Clone, Copy)]
pub(crate) enum Slices<'a> {
    Long(&'a [Range]),
    Short(&'a [ShortRange]),
}

impl<'a> Slices<'a> {
    #[inline]
    pub(crate) fn len(self) -> usize
        ensures { result ≡ length (slice_ranges self.entry) }
    {
        match self {
            Slices::Long(ranges) => ranges.len(),
            Slices::Short(ranges) => ranges.len(),
        }
    }

    /// Whether both are the same ranges.
    pub(crate) fn are_same(self, others: Slices<'_>) -> bool
        ensures { IsTrue result ↔ (slice_ranges self.entry ≡ slice_ranges others.entry) }
    {
        match (self, others) {
            (Slices::Long(ranges), Slices::Long(others)) => sweeps::are_same(ranges, others),
            (Slices::Long(ranges), Slices::Short(others)) => sweeps::are_same(ranges, others),
            (Slices::Short(ranges), Slices::Long(others)) => sweeps::are_same(ranges, others),
            (Slices::Short(ranges), Slices::Short(others)) => sweeps::are_same(ranges, others),
        }
    }

    /// Whether ranges in normal form have the number.
    pub(crate) fn have_number(self, x: u128) -> bool
        ensures { (top : ℕ) → IsNormal 0 top (slice_ranges self.entry) → result ≡ holds (slice_ranges self.entry) x }
    {
        match self {
            Slices::Long(ranges) => sweeps::has_number(ranges, x),
            Slices::Short(ranges) => sweeps::has_number(ranges, x),
        }
    }

    /// Whether each range lies in one of the others.
    pub(crate) fn are_covered(self, others: Slices<'_>) -> bool
        ensures { result ≡ covered_walk (slice_ranges self.entry) (slice_ranges others.entry) }
    {
        match (self, others) {
            (Slices::Long(ranges), Slices::Long(others)) => sweeps::all_covered(ranges, others),
            (Slices::Long(ranges), Slices::Short(others)) => sweeps::all_covered(ranges, others),
            (Slices::Short(ranges), Slices::Long(others)) => sweeps::all_covered(ranges, others),
            (Slices::Short(ranges), Slices::Short(others)) => sweeps::all_covered(ranges, others),
        }
    }
}
