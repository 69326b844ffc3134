use acl_memory::MemTree;
use acl_text::Memory;
use std::alloc::Global;
use std::str;

pub(crate) type Files = &'static [(&'static str, &'static [u8])];

// A tree in memory with these files.
pub(crate) fn tree_of(alloc: Global, files: &[(&str, &[u8])]) -> Result<MemTree, Memory> {
    let mut tree = MemTree::new(alloc);
    for (path, bytes) in files {
        tree.put_file(path, bytes)?;
    }
    Ok(tree)
}

pub(crate) fn text(bytes: &[u8]) -> &str {
    match str::from_utf8(bytes) {
        Ok(text) => text,
        Err(_) => "?",
    }
}
