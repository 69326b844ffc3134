ghost use Rattle.std.specs.Prelude.{◌≡◌, ◌↔◌, IfOk, IsTrue, List, ℕ, map};
ghost use Rattle.std.specs.List.{IsDistinct};
ghost use Rattle.std.specs.Str.{bytes_eq};
ghost use Rattle.acl_text.specs.Cuts.{views};
ghost use Rattle.acl_rows.specs.ApartSteps.{are_apart};

use crate::apart::are_distinct_names;
use acl_text::Memory;
use std::alloc::Global;

/// What has a name in its document.
pub trait Named {
    ghost name: { Self → List ℕ };

    /// The name.
    fn name(&self) -> &[u8]
        ensures { result.now ≡ name self.now };
}

/// Whether no two of the items have the same name.
pub fn have_distinct_names<T: Named>(alloc: Global, items: &[T]) -> Result<bool, Memory>
    ensures is { IfOk result (λ b. IsTrue b ↔ IsDistinct bytes_eq (map T.name items.now)) }
    ensures exact { IfOk result (λ b. b ≡ are_apart bytes_eq (map T.name items.now)) }
{
    Ok(are_distinct_names(names_of(alloc, items)?))
}

fn names_of<'a, T: Named>(alloc: Global, items: &'a [T]) -> Result<Vec<&'a [u8]>, Memory>
    ensures { IfOk result (λ names. views names.items ≡ map T.name items.now) }
{
    let mut names = Vec::with_capacity(alloc, items.len())?;
    for item in items {
        names.push(item.name())?;
    }
    Ok(names)
}
