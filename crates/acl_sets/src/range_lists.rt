ghost use Rattle.std.specs.Prelude.{◌≡◌, ℕ, ◌==◌, [], ◌∷◌, false, true, IfOk, IfSome, length, map};
ghost use Rattle.acl_sets.specs.HeldRanges.{is_held_short, is_short_slice, ranges_in, slice_ranges};
ghost use Rattle.acl_sets.specs.Ranges.{IsNormal, IsRange};
ghost use Rattle.acl_sets.specs.Spans.{same, short_top, wide};
ghost use Rattle.acl_sets.specs.SweepSteps.{merged, woven, walk, shared_along, cut_along, covers_first};

use crate::sets::Range;
use crate::shared_lists::SharedList;
use crate::short_ranges::{SHORT_TOP, short};
use crate::slices::Slices;
use crate::spans::ShortRange;
use crate::sweeps;
use acl_text::Memory;
use std::alloc::Global;
use std::marker::Model;
use std::rc::Rc;

static OCTETS: [Range; 1] = [Range { low: 0, high: 255 }];

static PORTS: [Range; 1] = [Range {
    low: 0,
    high: 65_535,
}];

static IPV6: [Range; 1] = [Range {
    low: 0,
    high: u128::MAX,
}];

// Most sets have one range, and most of these are all numbers of a kind, which take no memory. What takes memory is shared.
// The ranges of IPv4 addresses are held in numbers of 32 bits.
#[derive(Drop)]
enum Held {
    None,
    Octets,
    Ports,
    Ipv6,
    One(Rc<[Range; 1]>),
    Many(SharedList<Range>),
    NoShort,
    OneShort([ShortRange; 1]),
    ManyShort(SharedList<ShortRange>),
}

// The range, where it is all numbers of a kind.
fn all_of_a_kind(range: Range) -> Option<Held>
    ensures list { IfSome result (λ held. ranges_in held ≡ range ∷ []) }
    ensures kind { IfSome result (λ held. is_held_short held ≡ false) }
{
    if range.low != 0 {
        return None;
    }
    match range.high {
        255 => Some(Held::Octets),
        65_535 => Some(Held::Ports),
        u128::MAX => Some(Held::Ipv6),
        _ => None,
    }
}

/// The ranges of a set. A contract sees the list, and whether they are held in numbers of 32 bits.
pub(crate) struct RangeList {
    held: Held,
}

impl Model for RangeList {
    ghost use Rattle.acl_sets.specs.HeldRanges.{Listed, is_held_short, ranges_in};

    ghost Value = { Listed };

    ghost view = { λ l. record { ranges = ranges_in l.held; is_short = is_held_short l.held } };
}

// Where a set is let go, that is one step, whatever it holds.
impl Drop for RangeList {
    fn drop(self) {
        let RangeList { held } = self;
        drop(held);
    }
}

impl RangeList {
    /// No ranges of a set up to the top.
    pub(crate) fn of_none(top: u128) -> RangeList
        ensures list { result.ranges ≡ [] }
        ensures kind { result.is_short ≡ (top == short_top) }
    {
        let held = if top == SHORT_TOP {
            Held::NoShort
        } else {
            Held::None
        };
        RangeList { held }
    }

    /// The one range of a set up to the top.
    pub(crate) fn of_one(alloc: Global, top: u128, range: Range) -> Result<RangeList, Memory>
        requires { IsRange top range }
        ensures list { IfOk result (λ l. l.ranges ≡ range ∷ []) }
        ensures kind { IfOk result (λ l. l.is_short ≡ (top == short_top)) }
    {
        if top == SHORT_TOP {
            return Ok(RangeList {
                held: Held::OneShort([short(range)]),
            });
        }
        one_long(alloc, range)
    }

    /// The ranges.
    pub(crate) fn long(alloc: Global, ranges: Vec<Range>) -> Result<RangeList, Memory>
        ensures list { IfOk result (λ l. l.ranges ≡ map same ranges.items) }
        ensures kind { IfOk result (λ l. l.is_short ≡ false) }
    {
        match ranges.as_slice() {
            [] => Ok(RangeList { held: Held::None }),
            [one] => one_long(alloc, *one),
            [..] => Ok(RangeList {
                held: Held::Many(SharedList::new(alloc, ranges)?),
            }),
        }
    }

    /// The ranges, held in numbers of 32 bits.
    pub(crate) fn short(alloc: Global, ranges: Vec<ShortRange>) -> Result<RangeList, Memory>
        ensures list { IfOk result (λ l. l.ranges ≡ map wide ranges.items) }
        ensures kind { IfOk result (λ l. l.is_short ≡ true) }
    {
        match ranges.as_slice() {
            [] => Ok(RangeList {
                held: Held::NoShort,
            }),
            [one] => Ok(RangeList {
                held: Held::OneShort([*one]),
            }),
            [..] => Ok(RangeList {
                held: Held::ManyShort(SharedList::new(alloc, ranges)?),
            }),
        }
    }

    /// The same ranges, which are not copied.
    pub(crate) fn share(&self) -> Result<RangeList, Memory>
        ensures { IfOk result (λ l. l ≡ self.now) }
    {
        let held = match &self.held {
            Held::None => Held::None,
            Held::Octets => Held::Octets,
            Held::Ports => Held::Ports,
            Held::Ipv6 => Held::Ipv6,
            Held::One(one) => Held::One(one.clone()?),
            Held::Many(list) => Held::Many(list.share()?),
            Held::NoShort => Held::NoShort,
            Held::OneShort(one) => Held::OneShort(*one),
            Held::ManyShort(list) => Held::ManyShort(list.share()?),
        };
        Ok(RangeList { held })
    }

    pub(crate) fn slices(&self) -> Slices<'_>
        ensures list { slice_ranges result ≡ self.now.ranges }
        ensures kind { is_short_slice result ≡ self.now.is_short }
    {
        match &self.held {
            Held::None => Slices::Long(&[]),
            Held::Octets => Slices::Long(&OCTETS),
            Held::Ports => Slices::Long(&PORTS),
            Held::Ipv6 => Slices::Long(&IPV6),
            Held::One(one) => Slices::Long(one.as_ref()),
            Held::Many(list) => Slices::Long(list.as_slice()),
            Held::NoShort => Slices::Short(&[]),
            Held::OneShort(one) => Slices::Short(one),
            Held::ManyShort(list) => Slices::Short(list.as_slice()),
        }
    }

    /// Whether there is none.
    #[inline]
    pub(crate) fn is_none(&self) -> bool
        ensures { result ≡ (length self.now.ranges == 0) }
    {
        match &self.held {
            Held::None | Held::NoShort => true,
            Held::Octets | Held::Ports | Held::Ipv6 => false,
            Held::One(one) => one.as_ref().is_empty(),
            Held::OneShort(one) => one.is_empty(),
            Held::Many(list) => list.as_slice().is_empty(),
            Held::ManyShort(list) => list.as_slice().is_empty(),
        }
    }

    /// Whether the first range has all numbers up to this one.
    #[inline]
    pub(crate) fn first_covers(&self, high: u128) -> bool
        ensures { result ≡ covers_first high self.now.ranges }
    {
        match &self.held {
            Held::None | Held::NoShort => false,
            Held::Octets => high <= 255,
            Held::Ports => high <= 65_535,
            Held::Ipv6 => true,
            Held::One(one) => sweeps::covers_first(high, one.as_ref()),
            Held::OneShort(one) => sweeps::covers_first(high, one),
            Held::Many(list) => sweeps::covers_first(high, list.as_slice()),
            Held::ManyShort(list) => sweeps::covers_first(high, list.as_slice()),
        }
    }

    /// Those of both lists.
    pub(crate) fn united(&self, alloc: Global, other: &RangeList) -> Result<RangeList, Memory>
        requires { self.now.is_short ≡ other.now.is_short }
        ensures list { IfOk result (λ l. l.ranges ≡ merged (woven self.now.ranges other.now.ranges)) }
        ensures kind { IfOk result (λ l. l.is_short ≡ self.now.is_short) }
    {
        match (self.slices(), other.slices()) {
            (Slices::Long(ranges), Slices::Long(others)) => {
                RangeList::long(alloc, sweeps::united(alloc, ranges, others)?)
            }
            (Slices::Short(ranges), Slices::Short(others)) => {
                RangeList::short(alloc, sweeps::united(alloc, ranges, others)?)
            }
            (_, _) => unreachable!(),
        }
    }

    /// What both lists have in common.
    pub(crate) fn shared(&self, alloc: Global, other: &RangeList) -> Result<RangeList, Memory>
        requires { self.now.is_short ≡ other.now.is_short }
        ensures list { IfOk result (λ l. l.ranges
            ≡ walk (λ r qs. shared_along r qs) self.now.ranges other.now.ranges) }
        ensures kind { IfOk result (λ l. l.is_short ≡ self.now.is_short) }
    {
        match (self.slices(), other.slices()) {
            (Slices::Long(ranges), Slices::Long(others)) => {
                RangeList::long(alloc, sweeps::shared(alloc, ranges, others)?)
            }
            (Slices::Short(ranges), Slices::Short(others)) => {
                RangeList::short(alloc, sweeps::shared(alloc, ranges, others)?)
            }
            (_, _) => unreachable!(),
        }
    }

    /// What this list has that the other has not.
    pub(crate) fn cut(&self, alloc: Global, other: &RangeList) -> Result<RangeList, Memory>
        requires { self.now.is_short ≡ other.now.is_short }
        ensures list { IfOk result (λ l. (top most : ℕ) → IsNormal 0 top self.now.ranges
            → IsNormal 0 most other.now.ranges
            → l.ranges ≡ walk (λ r qs. cut_along r qs) self.now.ranges other.now.ranges) }
        ensures kind { IfOk result (λ l. l.is_short ≡ self.now.is_short) }
    {
        match (self.slices(), other.slices()) {
            (Slices::Long(ranges), Slices::Long(others)) => {
                RangeList::long(alloc, sweeps::cut(alloc, ranges, others)?)
            }
            (Slices::Short(ranges), Slices::Short(others)) => {
                RangeList::short(alloc, sweeps::cut(alloc, ranges, others)?)
            }
            (_, _) => unreachable!(),
        }
    }
}

fn one_long(alloc: Global, range: Range) -> Result<RangeList, Memory>
    ensures list { IfOk result (λ l. l.ranges ≡ range ∷ []) }
    ensures kind { IfOk result (λ l. l.is_short ≡ false) }
{
    if let Some(held) = all_of_a_kind(range) {
        return Ok(RangeList { held });
    }
    match Rc::new(alloc, [range]) {
        Ok(one) => Ok(RangeList {
            held: Held::One(one),
        }),
        Err(_) => Err(Memory),
    }
}
