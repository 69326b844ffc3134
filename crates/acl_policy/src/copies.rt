ghost use Rattle.std.specs.Prelude.{◌≡◌, IfOk};

use acl_target::Target;
use acl_text::{Bytes, Memory};
use std::alloc::Global;

/// A copy of the target. It fails only where memory is wanted.
pub fn copy_target(alloc: Global, target: &Target) -> Result<Target, Memory>
    ensures { IfOk result (λ t. t ≡ target.now) }
{
    Ok(Target {
        place: target.place,
        kind: target.kind,
        name: Bytes::from_slice(alloc, target.name.as_slice())?,
        families: target.families,
        hook: target.hook,
        stateful: target.stateful,
        ending: target.ending,
        priority: target.priority,
        verbose: target.verbose,
        number: target.number,
    })
}
