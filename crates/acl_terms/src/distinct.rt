ghost use Rattle.std.specs.Prelude.{◌≡◌, ℕ, ◌==◌, ◌||◌, length, IfOk, OnOk};
ghost use Rattle.acl_terms.specs.DistinctSteps.{AreMarked, AreSame, has};

use acl_text::Memory;
use std::alloc::Global;

// Takes the number, where it has no mark yet, and marks it.
fn take(seen: &mut [bool], out: &mut Vec<u8>, number: u8) -> Result<(), Memory>
    requires long { length seen.old ≡ 256 }
    requires marks { AreMarked seen.old out.old.items }
    ensures long { length seen.new ≡ 256 }
    ensures marks { OnOk result (AreMarked seen.new out.new.items) }
    ensures taken { OnOk result ((n : ℕ) → has n out.new.items
        ≡ (has n out.old.items || (number == n))) }
{
    let index = usize::from(number);
    if seen[index] {
        return Ok(());
    }
    seen[index] = true;
    out.push(number)?;
    Ok(())
}

/// The same numbers, each once.
pub(crate) fn distinct(alloc: Global, numbers: &[u8]) -> Result<Vec<u8>, Memory>
    ensures { IfOk result (λ v. AreSame v.items numbers.now) }
{
    let mut seen = [false; 256];
    let mut out = Vec::new(alloc);
    for number in numbers {
        take(&mut seen, &mut out, *number)?;
    }
    Ok(out)
}

/// Whether a number may stand twice. More than two are not compared.
pub(crate) fn may_repeat(numbers: &[u8]) -> bool {
    match numbers {
        [] | [_] => false,
        [first, second] => first == second,
        [..] => true,
    }
}
