ghost use Rattle.std.specs.Prelude.{◌≡◌, ◌≤◌, IfOk, IsErrOf, length, take};
ghost use Rattle.acl_host.specs.Outside.{IsListing, IsReading};

use crate::mem_files::MemFiles;
use crate::mem_names::{lies_behind, names_of};
use acl_host::{FileNames, TreeFault, with_slash};
use acl_text::{Bytes, Memory};
use std::alloc::Global;

// The names of the files directly under the folder.
#[tactic(auto, unfolding(acl_host::specs::Files::names_under))]
pub(crate) fn names_under(
    alloc: Global,
    dir: &str,
    files: &MemFiles,
) -> Result<FileNames, TreeFault>
    ensures answer { IsListing dir.now result files.now.items.items }
    ensures sure { IsErrOf result TreeFault.Failed → ⊥ }
{
    let prefix = with_slash(alloc, dir)?;
    if !lies_behind(prefix.as_str(), files.as_slice()) {
        return Err(TreeFault::Absent);
    }
    Ok(names_of(alloc, prefix.as_str(), files.as_slice())?)
}

// The bytes of the file at the path, or the first of them.
pub(crate) fn front_at(
    alloc: Global,
    path: &str,
    most: usize,
    files: &MemFiles,
) -> Result<Bytes, TreeFault>
    ensures answer { IsReading path.now most result files.now.items.items }
    ensures sure { IsErrOf result TreeFault.Failed → ⊥ }
{
    match files.file(path) {
        None => Err(TreeFault::Absent),
        Some(bytes) => Ok(front(alloc, bytes, most)?),
    }
}

fn front(alloc: Global, bytes: &[u8], most: usize) -> Result<Bytes, Memory>
    ensures { IfOk result (λ b. b ≡ take most bytes.now) }
{
    if bytes.len() <= most {
        return Bytes::from_slice(alloc, bytes);
    }
    Bytes::from_slice(alloc, &bytes[..most])
}
