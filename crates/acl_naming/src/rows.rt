ghost use Rattle.std.specs.Prelude.{◌≡◌, ◌≤◌, length};
ghost use Rattle.std.specs.List.{slice_range};

/// The items from a place to an end.
pub fn part<T>(items: &[T], from: usize, end: usize) -> &[T]
    requires rises { from ≤ end }
    requires within { end ≤ length items.now }
    ensures { result.now ≡ slice_range items.now from end }
{
    &items[from..end]
}
