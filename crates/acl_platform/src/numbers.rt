ghost use Rattle.std.specs.Prelude.{◌≡◌, ◌-◌, ◌≤◌, ℕ, List, IsTrue, min, length, flat_map};
ghost use Rattle.std.specs.List.{All, range_with_len};
ghost use Rattle.acl_text.specs.Output.{COUNT_END};
ghost use Rattle.acl_text.specs.Puts.{Puts};
ghost use Rattle.acl_sets.specs.Ranges.{IsRange};
ghost use Rattle.acl_platform.specs.Choices.{numbers_in, numbers_of};

use acl_sets::Range;
use acl_text::{Out, PutFault};

/// How numbers below 256 are written.
pub trait NumberForm {
    ghost number_text: { Self → ℕ → List ℕ };

    /// Puts the number's text.
    fn put_number<O: Out>(&self, number: u8, out: &mut O) -> Result<(), PutFault>
        requires { IsTrue (O.is_open out.old) }
        ensures { Puts O.Out out.old out.new (number_text self.now number) result };
}

/// Puts the numbers of the ranges in the form, in order.
pub fn put_numbers<F: NumberForm, O: Out>(
    ranges: &[Range],
    form: &F,
    out: &mut O,
) -> Result<(), PutFault>
    requires open { IsTrue (O.is_open out.old) }
    requires ranges { All (λ r. IsRange 255 r) ranges.now }
    ensures { Puts O.Out out.old out.new
        (flat_map (F.number_text form.now) (numbers_of ranges.now)) result }
{
    for range in ranges {
        let end = range.high as u16 + 1;
        put_numbers_from(range.low as u16, end, form, out)?;
    }
    Ok(())
}

/// Puts the numbers from the first one on, below the end, in the form.
pub fn put_numbers_from<F: NumberForm, O: Out>(
    first: u16,
    end: u16,
    form: &F,
    out: &mut O,
) -> Result<(), PutFault>
    requires open { IsTrue (O.is_open out.old) }
    requires ends { first ≤ end }
    requires small { end ≤ 256 }
    ensures { Puts O.Out out.old out.new
        (flat_map (F.number_text form.now) (range_with_len first (end - first))) result }
{
    for number in first..end {
        form.put_number(number as u8, out)?;
    }
    Ok(())
}

/// How many numbers the ranges have; a number that does not fit stands at the greatest one that
/// does.
pub fn count_numbers(ranges: &[Range]) -> u64
    requires { All (λ r. IsRange 255 r) ranges.now }
    ensures { result ≡ min (length (numbers_of ranges.now)) COUNT_END }
{
    let mut count: u64 = 0;
    for range in ranges {
        count = count.saturating_add(range_size(range));
    }
    count
}

fn range_size(range: &Range) -> u64
    requires { IsRange 255 range.now }
    ensures { result ≡ length (numbers_in range.now) }
{
    range.high as u64 + 1 - range.low as u64
}
