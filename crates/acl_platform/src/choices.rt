ghost use Rattle.std.specs.Prelude.{◌≡◌, ◌≤◌, ℕ, List, [], ◌∷◌, IsTrue, Some, min, length, flat_map};
ghost use Rattle.std.specs.List.{All};
ghost use Rattle.acl_text.specs.Output.{COUNT_END};
ghost use Rattle.acl_text.specs.Puts.{Puts};
ghost use Rattle.acl_rows.specs.Rows.{text_of_rows};
ghost use Rattle.acl_sets.specs.Ranges.{IsRange};
ghost use Rattle.acl_platform.specs.ChoiceSteps.{range_rows};
ghost use Rattle.acl_platform.specs.Choices.{
  number_choices,
  pairs,
  range_choices,
};

use crate::elements::ranges_of;
use crate::numbers::{NumberForm, count_numbers, put_numbers};
use crate::prefix_lists::ListedPrefixes;
use acl_packet::Prefix;
use acl_rows::{Each, RowForm, Rows, put_listed};
use acl_sets::{Prefixes, Range, RangeSet};
use acl_text::{Out, PutFault};

/// A list of choices that is gone through and never made: each choice is put as a form writes it.
///
/// A pair gives each choice of the first with each of the second, the first outermost.
pub trait Choices {
    type Item: Copy;

    ghost items: { Self → List Self.Item };

    /// Puts the lines of each choice, in order.
    fn put_each<F: RowForm<Self::Item>, O: Out>(
        &self,
        form: &F,
        out: &mut O,
    ) -> Result<(), PutFault>
        requires { IsTrue (O.is_open out.old) }
        ensures { Puts O.Out out.old out.new
            (text_of_rows (flat_map (F.item_rows form.now) (items self.now))) result };

    /// How many choices there are; a number that does not fit stands at the greatest one that does.
    fn count(&self) -> u64
        ensures { result ≡ min (length (items self.now)) COUNT_END };
}

/// The members of a list.
impl<'a, T: Copy> Choices for &'a [T] {
    type Item = T;

    ghost items = { λ s. s.now };

    #[inline]
    fn put_each<F: RowForm<T>, O: Out>(&self, form: &F, out: &mut O) -> Result<(), PutFault> {
        let each = Each {
            items: self,
            form: Shared { form },
        };
        each.put_rows(out)
    }

    fn count(&self) -> u64 {
        self.len() as u64
    }
}

/// The prefixes of a least list.
impl<'a> Choices for &'a Prefixes {
    type Item = Prefix;

    ghost items = { λ s. s.now };

    #[inline]
    fn put_each<F: RowForm<Prefix>, O: Out>(&self, form: &F, out: &mut O) -> Result<(), PutFault> {
        put_listed(&ListedPrefixes::all(self), form, out)
    }

    fn count(&self) -> u64 {
        Prefixes::count(self)
    }
}

// A form that stands elsewhere.
#[derive_where(Clone, Copy)]
struct Shared<'a, F> {
    form: &'a F,
}

impl<'a, T, F: RowForm<T>> RowForm<T> for Shared<'a, F> {
    ghost item_rows = { λ s item. F.item_rows s.form.now item };

    #[inline]
    fn put_item<O: Out>(&self, item: &T, out: &mut O) -> Result<(), PutFault> {
        self.form.put_item(item, out)
    }
}

/// The numbers of a set of numbers below 256, or no condition where it has all up to its top.
#[derive(Clone, Copy)]
pub struct NumberChoices<'a> {
    pub set: &'a RangeSet,
    pub ghost small: { set.now.top ≤ 255 },
}

impl<'a> Choices for NumberChoices<'a> {
    type Item = Option<u8>;

    ghost items = { λ s. number_choices s.set.now };

    fn put_each<F: RowForm<Option<u8>>, O: Out>(
        &self,
        form: &F,
        out: &mut O,
    ) -> Result<(), PutFault> {
        if self.set.is_all() {
            form.put_item(&None, out)
        } else {
            put_numbers(ranges_of(self.set), &AsChoice { form }, out)
        }
    }

    fn count(&self) -> u64 {
        if self.set.is_all() {
            1
        } else {
            count_numbers(ranges_of(self.set))
        }
    }
}

// A number, written as the choice that it is.
#[derive(Drop)]
struct AsChoice<'a, F> {
    form: &'a F,
}

impl<'a, F: RowForm<Option<u8>>> NumberForm for AsChoice<'a, F> {
    ghost number_text = { λ c number. text_of_rows (F.item_rows c.form.now (Some number)) };

    fn put_number<O: Out>(&self, number: u8, out: &mut O) -> Result<(), PutFault> {
        self.form.put_item(&Some(number), out)
    }
}

/// The ranges of a set of numbers below 65,536, or no condition where it has all up to its top.
#[derive(Clone, Copy)]
pub struct RangeChoices<'a> {
    pub set: &'a RangeSet,
    pub ghost small: { set.now.top ≤ 65535 },
}

impl<'a> Choices for RangeChoices<'a> {
    type Item = Option<(u16, u16)>;

    ghost items = { λ s. range_choices s.set.now };

    fn put_each<F: RowForm<Option<(u16, u16)>>, O: Out>(
        &self,
        form: &F,
        out: &mut O,
    ) -> Result<(), PutFault> {
        if self.set.is_all() {
            form.put_item(&None, out)
        } else {
            put_ranges(ranges_of(self.set), form, out)
        }
    }

    fn count(&self) -> u64 {
        if self.set.is_all() {
            1
        } else {
            self.set.ranges().len() as u64
        }
    }
}

fn put_ranges<F: RowForm<Option<(u16, u16)>>, O: Out>(
    ranges: &[Range],
    form: &F,
    out: &mut O,
) -> Result<(), PutFault>
    requires open { IsTrue (O.is_open out.old) }
    requires ranges { All (λ r. IsRange 65535 r) ranges.now }
    ensures { Puts O.Out out.old out.new
        (text_of_rows (flat_map (range_rows (F.item_rows form.now)) ranges.now)) result }
{
    for range in ranges {
        form.put_item(&Some(ends_of(range)), out)?;
    }
    Ok(())
}

#[inline]
pub(crate) fn ends_of(range: &Range) -> (u16, u16)
    requires { IsRange 65535 range.now }
    ensures { result ≡ (range.now.low, range.now.high) }
{
    (range.low as u16, range.high as u16)
}

/// Each choice of the first with each of the second, the first outermost.
impl<A: Choices, B: Choices> Choices for (A, B) {
    type Item = (A::Item, B::Item);

    ghost items = { λ p. pairs (A.items p.0) (B.items p.1) };

    #[inline]
    fn put_each<F: RowForm<(A::Item, B::Item)>, O: Out>(
        &self,
        form: &F,
        out: &mut O,
    ) -> Result<(), PutFault> {
        let each = WithSeconds {
            seconds: &self.1,
            form,
        };
        self.0.put_each(&each, out)
    }

    fn count(&self) -> u64 {
        self.0.count().saturating_mul(self.1.count())
    }
}

// A first choice, written with each second one.
#[derive(Drop)]
struct WithSeconds<'a, B, F> {
    seconds: &'a B,
    form: &'a F,
}

impl<'a, A: Copy, B: Choices, F: RowForm<(A, B::Item)>> RowForm<A> for WithSeconds<'a, B, F> {
    ghost item_rows = { λ w first.
        flat_map (λ second. F.item_rows w.form.now (first, second)) (B.items w.seconds.now) };

    #[inline]
    fn put_item<O: Out>(&self, item: &A, out: &mut O) -> Result<(), PutFault> {
        let each = WithFirst {
            first: *item,
            form: self.form,
        };
        self.seconds.put_each(&each, out)
    }
}

// A second choice, written with the first one.
#[derive(Drop)]
struct WithFirst<'a, A, F> {
    first: A,
    form: &'a F,
}

impl<'a, A: Copy, B: Copy, F: RowForm<(A, B)>> RowForm<B> for WithFirst<'a, A, F> {
    ghost item_rows = { λ w second. F.item_rows w.form.now (w.first, second) };

    #[inline]
    fn put_item<O: Out>(&self, item: &B, out: &mut O) -> Result<(), PutFault> {
        self.form.put_item(&(self.first, *item), out)
    }
}
