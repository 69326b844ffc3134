ghost use Rattle.std.specs.Prelude.{◌≡◌, None};

use crate::tests::looks::{lacks, lists, reads, writes};
use acl_host::{Clock, ClockFault, Sink, Tree, join_path};
use acl_machine::{DiskTree, StdSink, SystemClock};
use std::alloc::Global;
use std::io::ErrorKind;
use std::test::Fail;
use std::time::{self, Duration, SystemTime};
use std::{fs, io, process};

// A clock that stands so long after 1970 began, or that tells no time.
#[derive(Drop)]
struct Stopped {
    since_1970: Option<Duration>,
}

impl time::Clock for Stopped {
    fn monotonic(&self) -> io::Result<Duration> {
        self.since_1970()
    }

    fn since_1970(&self) -> io::Result<Duration> {
        self.since_1970.ok_or(ErrorKind::Other.into())
    }
}

fn stopped_day(seconds: u64) -> Option<i32> {
    let clock = Stopped {
        since_1970: Some(Duration::from_secs(seconds)),
    };
    let day = SystemClock::new(&clock).today().ok()?;
    Some(day.number)
}

// Seconds since 1970 began, and the days, as GNU date counts them; the last is of the year 10000.
static TIMES: [(u64, Option<i32>); 5] = [
    (0, Some(0)),
    (86_399, Some(0)),
    (1_768_435_199, Some(20467)),
    (1_768_435_200, Some(20468)),
    (253_402_300_800, None),
];

// Whole days since 1970 began.
fn day_of(time: SystemTime) -> i64 {
    match time.duration_since(SystemTime::UNIX_EPOCH) {
        Ok(duration) => (duration.as_secs() / 86_400) as i64,
        Err(_) => -1,
    }
}

#[test]
fn a_clock_tells_the_day(rt: HostRuntime) {
    for (seconds, day) in &TIMES {
        assert!(rt; stopped_day(*seconds) == *day, "at {seconds}");
    }
    let silent = Stopped { since_1970: None };
    assert!(rt; SystemClock::new(&silent).today() == Err(ClockFault::Failed));
}

#[test]
fn the_machines_clock_tells_today(rt: HostRuntime) -> Result<(), Fail> {
    let before = SystemTime::now(&rt)?;
    let day = SystemClock::new(&rt).today()?;
    let after = SystemTime::now(&rt)?;
    let number = i64::from(day.number);
    assert!(rt; day_of(before) <= number && number <= day_of(after));
    Ok(())
}

// A folder of this process's own, for the test of the name.
fn own_folder(rt: &HostRuntime, test: &str) -> io::Result<String> {
    let path = format!(in rt.alloc(); "/tmp/base_tests_{}_{test}", process::id(rt.process()))?;
    fs::create_dir(rt, path.as_str())?;
    Ok(path)
}

fn path_in(rt: &HostRuntime, folder: &str, name: &str) -> io::Result<String> {
    join_path(rt.alloc(), folder, name).map_err(|_| ErrorKind::OutOfMemory.into())
}

fn make_folder(rt: &HostRuntime, folder: &str, name: &str) -> io::Result<()> {
    fs::create_dir(rt, path_in(rt, folder, name)?.as_str())
}

fn make_file(rt: &HostRuntime, folder: &str, name: &str, text: &str) -> io::Result<()> {
    fs::write(rt, path_in(rt, folder, name)?.as_str(), text)
}

// Folders and files in the folder, which is empty.
fn fill(rt: &HostRuntime, folder: &str) -> io::Result<()> {
    make_folder(rt, folder, "x.net")?;
    make_file(rt, folder, "x.net/z.net", "z")?;
    make_file(rt, folder, "b.net", "b")?;
    make_file(rt, folder, "C", "cc")
}

fn lists_at(rt: &HostRuntime, folder: &str, names: &str) -> bool {
    lists(rt.alloc(), &mut DiskTree::new(rt), folder, names)
}

// Whether the folder has just its files, and a file is no folder.
fn is_listed(rt: &HostRuntime, folder: &str) -> io::Result<bool> {
    let path = path_in(rt, folder, "C")?;
    Ok(lists_at(rt, folder, "C b.net ") && lists_at(rt, path.as_str(), "absent"))
}

// Whether the empty folder is listed as absent, then by its files, and as absent again where it is removed.
fn is_listed_while_it_has_files(rt: &HostRuntime, folder: &str) -> io::Result<bool> {
    let is_empty = lists_at(rt, folder, "absent");
    fill(rt, folder)?;
    let is_full = is_listed(rt, folder)?;
    fs::remove_dir_all(rt, folder)?;
    Ok(is_empty && is_full && lists_at(rt, folder, "absent"))
}

#[test]
fn the_machines_folders_are_listed(rt: HostRuntime) -> Result<(), Fail> {
    let folder = own_folder(&rt, "list")?;
    assert!(rt; is_listed_while_it_has_files(&rt, folder.as_str())?);
    Ok(())
}

fn lacks_below(rt: &HostRuntime, folder: &str, name: &str) -> io::Result<bool> {
    let path = path_in(rt, folder, name)?;
    Ok(lacks(rt.alloc(), &mut DiskTree::new(rt), path.as_str()))
}

// Whether the bytes of a file are read, at most so many, and others take their place.
fn is_read_and_written<T: Tree>(alloc: Global, tree: &mut T, path: &str) -> bool
    requires { T.begun tree.old ≡ None }
{
    reads(alloc, tree, path, 1, b"c")
        && reads(alloc, tree, path, usize::MAX, b"cc")
        && writes(tree, path, &[b"1".as_slice(), b"".as_slice()])
        && reads(alloc, tree, path, 9, b"1")
}

fn is_kept_below(rt: &HostRuntime, folder: &str, name: &str) -> io::Result<bool> {
    let path = path_in(rt, folder, name)?;
    Ok(is_read_and_written(rt.alloc(), &mut DiskTree::new(rt), path.as_str()))
}

fn writes_at(rt: &HostRuntime, path: &str, pieces: &[&[u8]]) -> bool {
    writes(&mut DiskTree::new(rt), path, pieces)
}

fn writes_below(rt: &HostRuntime, folder: &str, name: &str) -> io::Result<bool> {
    Ok(writes_at(rt, path_in(rt, folder, name)?.as_str(), &[]))
}

// Whether a file is kept in the empty folder; a folder is no file, nothing lies under a file, and no folder is made.
fn is_kept_as_a_file(rt: &HostRuntime, folder: &str) -> io::Result<bool> {
    fill(rt, folder)?;
    let is_kept = is_kept_below(rt, folder, "C")?;
    let is_lacking = lacks_below(rt, folder, "x.net")? && lacks_below(rt, folder, "C/b")?;
    let is_made = writes_below(rt, folder, "no/C")?;
    fs::remove_dir_all(rt, folder)?;
    Ok(is_kept && is_lacking && !is_made)
}

#[test]
fn the_machines_files_are_read_and_written(rt: HostRuntime) -> Result<(), Fail> {
    let folder = own_folder(&rt, "files")?;
    assert!(rt; is_kept_as_a_file(&rt, folder.as_str())?);
    assert!(rt; !writes_at(&rt, "/dev/full", &[b"x".as_slice()]));
    Ok(())
}

// So many bytes, which count up to 250 again and again.
fn long(alloc: Global, count: usize) -> io::Result<Vec<u8>> {
    let mut bytes = Vec::new(alloc);
    let mut byte = 0u8;
    for _ in 0..count {
        bytes.push(byte)?;
        byte = if byte < 250 { byte + 1 } else { 0 };
    }
    Ok(bytes)
}

// Whether these are `abc` and so many of the bytes.
fn is_front(front: &[u8], count: usize, bytes: &[u8]) -> bool {
    match front.strip_prefix(b"abc".as_slice()) {
        Some(rest) => rest.len() == count && bytes.starts_with(rest),
        None => false,
    }
}

// Whether the first of the file are `abc` and so many of the bytes.
fn has_front(rt: &HostRuntime, path: &str, most: usize, count: usize, bytes: &[u8]) -> bool {
    match DiskTree::new(rt).read(rt.alloc(), path, most) {
        Ok(front) => is_front(front.as_slice(), count, bytes),
        Err(_) => false,
    }
}

fn keeps_long_file(rt: &HostRuntime, path: &str) -> io::Result<bool> {
    let bytes = long(rt.alloc(), 70_000)?;
    let pieces = [b"ab".as_slice(), b"c".as_slice(), bytes.as_slice()];
    Ok(
        writes_at(rt, path, &pieces)
            && has_front(rt, path, usize::MAX, 70_000, bytes.as_slice())
            && has_front(rt, path, 9000, 8997, bytes.as_slice()),
    )
}

fn keeps_long_file_in(rt: &HostRuntime, folder: &str) -> io::Result<bool> {
    let is_kept = keeps_long_file(rt, path_in(rt, folder, "x")?.as_str())?;
    fs::remove_dir_all(rt, folder)?;
    Ok(is_kept)
}

// Pieces are put one behind the other, and a file is longer than what one call reads.
#[test]
fn a_long_file_is_written_and_read(rt: HostRuntime) -> Result<(), Fail> {
    let folder = own_folder(&rt, "long")?;
    assert!(rt; keeps_long_file_in(&rt, folder.as_str())?);
    Ok(())
}

// The bytes in pieces of none, one, two and more bytes, up to 400.
fn in_pieces(alloc: Global, bytes: &[u8]) -> io::Result<Vec<&[u8]>> {
    let mut pieces = Vec::new(alloc);
    let mut rest = bytes;
    for count in 0..401 {
        let (piece, behind) = rest.split_at(rest.len().min(count));
        pieces.push(piece)?;
        rest = behind;
    }
    Ok(pieces)
}

fn keeps_pieces(rt: &HostRuntime, path: &str) -> io::Result<bool> {
    let bytes = long(rt.alloc(), 80_200)?;
    let pieces = in_pieces(rt.alloc(), bytes.as_slice())?;
    Ok(writes_at(rt, path, pieces.as_slice()) && has_bytes(rt, path, bytes.as_slice())?)
}

fn keeps_pieces_in(rt: &HostRuntime, folder: &str) -> io::Result<bool> {
    let is_kept = keeps_pieces(rt, path_in(rt, folder, "x")?.as_str())?;
    fs::remove_dir_all(rt, folder)?;
    Ok(is_kept)
}

// Short pieces are gathered, and long ones, in one file.
#[test]
fn pieces_of_all_lengths_are_written(rt: HostRuntime) -> Result<(), Fail> {
    let folder = own_folder(&rt, "pieces")?;
    assert!(rt; keeps_pieces_in(&rt, folder.as_str())?);
    Ok(())
}

fn puts<S: Sink>(sink: &mut S, bytes: &[u8]) -> bool {
    sink.write(bytes).is_ok()
}

// Whether two texts are put into the file.
fn puts_into(rt: &HostRuntime, path: &str) -> io::Result<bool> {
    let mut sink = StdSink::new(fs::create(rt, path)?);
    Ok(puts(&mut sink, b"hi") && puts(&mut sink, b"!"))
}

fn has_bytes(rt: &HostRuntime, path: &str, bytes: &[u8]) -> io::Result<bool> {
    Ok(fs::read(rt, path)?.as_slice() == bytes)
}

fn keeps_both_texts(rt: &HostRuntime, path: &str) -> io::Result<bool> {
    Ok(puts_into(rt, path)? && has_bytes(rt, path, b"hi!")?)
}

fn keeps_both_texts_in(rt: &HostRuntime, folder: &str) -> io::Result<bool> {
    let is_kept = keeps_both_texts(rt, path_in(rt, folder, "out")?.as_str())?;
    fs::remove_dir_all(rt, folder)?;
    Ok(is_kept)
}

#[test]
fn a_stream_of_the_machine_is_written(rt: HostRuntime) -> Result<(), Fail> {
    let folder = own_folder(&rt, "sink")?;
    assert!(rt; keeps_both_texts_in(&rt, folder.as_str())?);
    assert!(rt; !puts_into(&rt, "/dev/full")?);
    Ok(())
}
