ghost use Rattle.std.specs.Prelude.{◌≡◌, [], map, slice_index_or, IfOk};
ghost use Rattle.std.specs.String.{string_bytes};
ghost use Rattle.acl_text.specs.Refusals.{slip_fault};

use acl_text::{BoxedSlip, Fault, Memory};
use std::alloc::Global;

/// The fault of a slip: its label is the path of the file in which it stands.
pub(crate) fn slip_fault(alloc: Global, paths: &[String], slip: BoxedSlip) -> Result<Fault, Memory>
    ensures { IfOk result (λ fault. fault ≡ slip_fault (map string_bytes paths.now) slip) }
{
    let slip = slip.into_inner();
    Fault::of_slip(alloc, path_at(paths, slip.place.file), slip)
}

// The path of the file of this number.
fn path_at(paths: &[String], file: u32) -> &[u8]
    ensures { result.now ≡ slice_index_or (map string_bytes paths.now) file [] }
{
    match paths.get(file as usize) {
        Some(path) => path.as_bytes(),
        None => b"",
    }
}
