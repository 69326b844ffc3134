ghost use Rattle.std.specs.Prelude.{◌≡◌, IfOk, OnOk, OnErr};
ghost use Rattle.acl_host.specs.Files.{rest_behind, only_name};
ghost use Rattle.acl_memory.specs.MemoryFiles.{with_name, names_behind, is_prefix};

use crate::mem_files::MemFile;
use crate::paths::{behind, name_behind};
use acl_host::FileNames;
use acl_text::Memory;
use std::alloc::Global;

// Whether some file lies behind the prefix.
pub(crate) fn lies_behind(prefix: &str, files: &[MemFile]) -> bool
    ensures { result ≡ is_prefix prefix.now files.now }
{
    for file in files {
        if behind(prefix, file.path()).is_some() {
            return true;
        }
    }
    false
}

// The names directly behind the prefix, in byte order.
pub(crate) fn names_of(alloc: Global, prefix: &str, files: &[MemFile]) -> Result<FileNames, Memory>
    ensures { IfOk result (λ names. names ≡ names_behind prefix.now files.now) }
{
    let mut names = FileNames::new(alloc);
    for taken in 0..files.len() {
        let file = &files[files.len() - 1 - taken];
        add_name(alloc, &mut names, prefix, file)?;
    }
    Ok(names)
}

// Puts the file's name into its place, where it lies directly behind the prefix.
fn add_name(
    alloc: Global,
    names: &mut FileNames,
    prefix: &str,
    file: &MemFile,
) -> Result<(), Memory>
    ensures { OnOk result (names.new
        ≡ with_name (only_name (rest_behind prefix.now file.now.0)) names.old) }
{
    if let Some(name) = name_behind(prefix, file.path()) {
        names.put_in_order(String::from_str(alloc, name)?)?;
    }
    Ok(())
}
