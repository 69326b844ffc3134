ghost use Rattle.std.specs.Prelude.{◌≡◌, IfOk};
ghost use Rattle.std.specs.String.{string_bytes};
ghost use Rattle.acl_host.specs.Files.{join_path, with_slash};

use std::alloc::{AllocError, Global};

/// The folder's path, one slash, and the rest. A folder that ends in a slash has it already.
pub fn join_path(alloc: Global, folder: &str, rest: &str) -> Result<String, AllocError>
    ensures { IfOk result (λ path. string_bytes path ≡ join_path folder.now rest.now) }
{
    let mut path = with_slash(alloc, folder)?;
    path.push_str(rest)?;
    Ok(path)
}

/// The folder's path with a slash at its end.
pub fn with_slash(alloc: Global, folder: &str) -> Result<String, AllocError>
    ensures { IfOk result (λ path. string_bytes path ≡ with_slash folder.now) }
{
    let mut path = String::from_str(alloc, folder)?;
    if !folder.as_bytes().ends_with(b"/") {
        path.push_str("/")?;
    }
    Ok(path)
}
