ghost use Rattle.std.specs.Prelude.{◌≡◌, None};

use crate::tests::looks::{are_spaced_as, lacks, lists, reads, writes};
use acl_host::{
    Clock, ClockFault, Day, ListFault, ReadFault, Sink, Tree, WriteFault, join_path, listing,
    read_whole, write_file,
};
use acl_memory::{FixedClock, MemSink, MemTree, Op};
use acl_text::{Code, Memory};
use std::alloc::Global;

// A tree in memory with these files.
fn tree_of(alloc: Global, files: &[(&str, &[u8])]) -> Result<MemTree, Memory> {
    let mut tree = MemTree::new(alloc);
    for (path, bytes) in files {
        tree.put_file(path, bytes)?;
    }
    Ok(tree)
}

static FILES: [(&str, &[u8]); 5] = [
    ("def/n.net", b"A = "),
    ("def/B.net", b""),
    ("def/sub/z.net", b""),
    ("define/y.net", b""),
    ("def/a.svc", b""),
];

// Whether the tree tells of its files as it is to.
fn is_looked_at<T: Tree>(alloc: Global, tree: &mut T) -> bool
    ensures { T.begun tree.new ≡ T.begun tree.old }
{
    lists(alloc, tree, "def", "B.net a.svc n.net ")
        && lists(alloc, tree, "de", "absent")
        && reads(alloc, tree, "def/n.net", 2, b"A ")
        && reads(alloc, tree, "def/n.net", 9, b"A = ")
        && lacks(alloc, tree, "def")
}

fn files_are_looked_at(alloc: Global) -> Result<bool, Memory> {
    Ok(is_looked_at(alloc, &mut tree_of(alloc, &FILES)?))
}

#[test]
fn a_tree_in_memory_is_looked_at(rt: HostRuntime) {
    assert!(rt; files_are_looked_at(rt.alloc()) == Ok(true));
}

#[test]
fn a_file_in_memory_is_written(rt: HostRuntime) {
    let mut tree = MemTree::new(rt.alloc());
    assert!(rt; writes(&mut tree, "x", &[b"hi".as_slice()]));
    assert!(rt; tree.file("x") == Some(b"hi".as_slice()));
}

// Whether these are the bytes of the whole file.
fn gives<T: Tree>(alloc: Global, tree: &mut T, path: &str, most: u32, bytes: &[u8]) -> bool
    ensures { T.begun tree.new ≡ T.begun tree.old }
{
    match read_whole(alloc, tree, path, most as usize, Code::TooLong) {
        Ok(read) => read.as_slice() == bytes,
        Err(_) => false,
    }
}

// Whether the file is refused, since it is longer.
fn is_longer<T: Tree>(alloc: Global, tree: &mut T, path: &str, most: u32) -> bool
    ensures { T.begun tree.new ≡ T.begun tree.old }
{
    match read_whole(alloc, tree, path, most as usize, Code::TooLong) {
        Err(ReadFault::Fault(fault)) => {
            fault.code == Code::TooLong && fault.label.as_slice() == path.as_bytes()
        }
        _ => false,
    }
}

// Whether the folder has just these files.
fn has_files<T: Tree>(alloc: Global, tree: &mut T, dir: &str, files: &str) -> bool
    ensures { T.begun tree.new ≡ T.begun tree.old }
{
    match listing(alloc, tree, dir) {
        Ok(names) => are_spaced_as(alloc, names.as_slice(), files),
        Err(_) => false,
    }
}

fn is_no_folder<T: Tree>(alloc: Global, tree: &mut T, dir: &str) -> bool
    ensures { T.begun tree.new ≡ T.begun tree.old }
{
    match listing(alloc, tree, dir) {
        Err(ListFault::Fault(fault)) => fault.code == Code::NoFile,
        _ => false,
    }
}

fn is_read_whole<T: Tree>(alloc: Global, tree: &mut T) -> bool
    ensures { T.begun tree.new ≡ T.begun tree.old }
{
    gives(alloc, tree, "def/n.net", 4, b"A = ")
        && is_longer(alloc, tree, "def/n.net", 3)
        && has_files(alloc, tree, "def/", "B.net a.svc n.net ")
        && is_no_folder(alloc, tree, "no")
}

fn files_are_read_whole(alloc: Global) -> Result<bool, Memory> {
    Ok(is_read_whole(alloc, &mut tree_of(alloc, &FILES)?))
}

#[test]
fn whole_files_are_read(rt: HostRuntime) {
    assert!(rt; files_are_read_whole(rt.alloc()) == Ok(true));
}

// Whether the second listing and the first reading fail alone.
fn fails_once<T: Tree>(alloc: Global, tree: &mut T) -> bool
    ensures { T.begun tree.new ≡ T.begun tree.old }
{
    lists(alloc, tree, "a", "absent")
        && lists(alloc, tree, "a", "failed")
        && !lacks(alloc, tree, "a")
        && lacks(alloc, tree, "a")
}

fn fails_as_listed(alloc: Global) -> Result<bool, Memory> {
    let mut tree = MemTree::new(alloc);
    tree.fail(Op::List, 2)?;
    tree.fail(Op::Read, 1)?;
    Ok(fails_once(alloc, &mut tree))
}

#[test]
fn listed_calls_fail(rt: HostRuntime) {
    assert!(rt; fails_as_listed(rt.alloc()) == Ok(true));
}

// Whether one file is written, and the next one fails.
fn is_written_once<T: Tree>(tree: &mut T) -> bool
    requires { T.begun tree.old ≡ None }
{
    writes(tree, "one", &[]) && write_file(tree, "two", &[]) == Err(WriteFault::Failed)
}

fn fails_at_the_second(alloc: Global) -> Result<bool, Memory> {
    let mut tree = MemTree::new(alloc);
    tree.fail(Op::Begin, 2)?;
    let once = is_written_once(&mut tree);
    Ok(once && tree.file("one").is_some() && tree.file("two").is_none())
}

#[test]
fn a_writing_fails(rt: HostRuntime) {
    assert!(rt; fails_at_the_second(rt.alloc()) == Ok(true));
}

// Whether two texts are written, and one between them is not.
fn is_written_around<S: Sink>(sink: &mut S) -> bool {
    sink.write(b"hi").is_ok()
        && sink.write(b"lost") == Err(WriteFault::Failed)
        && sink.write(b"!").is_ok()
}

fn keeps_what_is_written(alloc: Global) -> Result<bool, Memory> {
    let mut sink = MemSink::new(alloc);
    sink.fail(2)?;
    let around = is_written_around(&mut sink);
    Ok(around && sink.as_slice() == b"hi!".as_slice())
}

#[test]
fn a_sink_in_memory_is_written(rt: HostRuntime) {
    assert!(rt; keeps_what_is_written(rt.alloc()) == Ok(true));
}

#[test]
fn a_fixed_clock_tells_its_day(rt: HostRuntime) {
    let day = Day { number: 20468 };
    assert!(rt; FixedClock::new(day, false).today() == Ok(day));
    assert!(rt; FixedClock::new(day, true).today() == Err(ClockFault::Failed));
}
