ghost use Rattle.std.specs.Prelude.{◌≡◌, None};

use acl_host::{Tree, TreeFault, write_file};
use acl_text::Memory;
use std::alloc::Global;

// What the tree says of the folder: each name with a space behind it, or why there are none.
fn names_text<T: Tree>(alloc: Global, tree: &mut T, dir: &str) -> Result<String, Memory>
    ensures { T.begun tree.new ≡ T.begun tree.old }
{
    match tree.list(alloc, dir) {
        Ok(names) => spaced(alloc, names.as_slice()),
        Err(fault) => fault_text(alloc, fault),
    }
}

// The names, each with a space behind it.
fn spaced(alloc: Global, names: &[String]) -> Result<String, Memory> {
    let mut text = String::new(alloc);
    for name in names {
        text.push_str(name.as_str())?;
        text.push_str(" ")?;
    }
    Ok(text)
}

// Whether this is the text of the names.
pub(crate) fn are_spaced_as(alloc: Global, names: &[String], text: &str) -> bool {
    match spaced(alloc, names) {
        Ok(found) => found.as_str() == text,
        Err(_) => false,
    }
}

fn fault_word(fault: TreeFault) -> &'static str {
    match fault {
        TreeFault::Absent => "absent",
        TreeFault::Failed => "failed",
        TreeFault::Memory => "memory",
    }
}

fn fault_text(alloc: Global, fault: TreeFault) -> Result<String, Memory> {
    Ok(String::from_str(alloc, fault_word(fault))?)
}

// Whether the tree says just this of the folder.
pub(crate) fn lists<T: Tree>(alloc: Global, tree: &mut T, dir: &str, names: &str) -> bool
    ensures { T.begun tree.new ≡ T.begun tree.old }
{
    match names_text(alloc, tree, dir) {
        Ok(text) => text.as_str() == names,
        Err(_) => false,
    }
}

// Whether the tree gives these bytes as the first of the file.
pub(crate) fn reads<T: Tree>(
    alloc: Global,
    tree: &mut T,
    path: &str,
    most: usize,
    bytes: &[u8],
) -> bool
    ensures { T.begun tree.new ≡ T.begun tree.old }
{
    match tree.read(alloc, path, most) {
        Ok(front) => front.as_slice() == bytes,
        Err(_) => false,
    }
}

// Whether the tree says that the file is not there.
pub(crate) fn lacks<T: Tree>(alloc: Global, tree: &mut T, path: &str) -> bool
    ensures { T.begun tree.new ≡ T.begun tree.old }
{
    tree.read(alloc, path, 9).err() == Some(TreeFault::Absent)
}

// Whether the file is written.
pub(crate) fn writes<T: Tree>(tree: &mut T, path: &str, pieces: &[&[u8]]) -> bool
    requires { T.begun tree.old ≡ None }
    ensures { T.begun tree.new ≡ None }
{
    write_file(tree, path, pieces).is_ok()
}
