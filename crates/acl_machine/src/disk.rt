ghost use Rattle.std.specs.Prelude.{◌≤◌, IfOk, length};
ghost use Rattle.acl_host.specs.Files.{AreInByteOrder};

use acl_host::{FileNames, TreeFault};
use acl_text::Bytes;
use std::alloc::Global;
use std::fs::{DirEntry, OpenFile};
use std::io::{ErrorKind, Read};
use std::rt::Files;
use std::{fs, io};

// A folder that holds more names is not listed.
const MOST_NAMES: usize = 1_048_576;

// A file is read in pieces of this many bytes at most.
const PIECE: usize = 16_384;

// The names of the files directly under the folder, in byte order.
pub(crate) fn names_in<R: Files + AllocGlobal + Clone + Drop>(
    rt: &R,
    alloc: Global,
    dir: &str,
) -> Result<FileNames, TreeFault>
    ensures { IfOk result AreInByteOrder }
{
    let entries = match fs::read_dir(rt, dir) {
        Ok(entries) => entries,
        Err(error) => return Err(fault_of(&error)),
    };
    let mut names = FileNames::new(alloc);
    let mut found = 0usize;
    for entry in entries {
        if found >= MOST_NAMES {
            return Err(TreeFault::Failed);
        }
        found += 1;
        match entry {
            Ok(entry) => add_entry(rt, alloc, &entry, &mut names)?,
            Err(error) => return Err(failure_of(&error)),
        }
    }
    if found == 0 {
        return Err(TreeFault::Absent);
    }
    in_order(names)
}

fn in_order(mut names: FileNames) -> Result<FileNames, TreeFault>
    ensures { IfOk result AreInByteOrder }
{
    names.sort()?;
    Ok(names)
}

// Adds the name of what lies in a folder, where it is a file.
fn add_entry<R: Files>(
    rt: &R,
    alloc: Global,
    entry: &DirEntry<R>,
    names: &mut FileNames,
) -> Result<(), TreeFault> {
    match fs::metadata(rt, entry.path()) {
        Ok(metadata) if !metadata.is_file() => Ok(()),
        Ok(_) => {
            names.push(String::from_str(alloc, entry.file_name())?)?;
            Ok(())
        }
        // it was removed, or it is a link to nothing
        Err(error) if error.kind() == ErrorKind::NotFound => Ok(()),
        Err(error) => Err(failure_of(&error)),
    }
}

// The bytes of the file at the path, or the first of them.
pub(crate) fn bytes_at<R: Files>(
    rt: &R,
    alloc: Global,
    path: &str,
    most: usize,
) -> Result<Bytes, TreeFault>
    ensures { IfOk result (λ bytes. length bytes ≤ most) }
{
    let mut file = match fs::open(rt, path) {
        Ok(file) => file,
        Err(error) => return Err(fault_of(&error)),
    };
    match file.metadata() {
        Ok(metadata) if metadata.is_dir() => Err(TreeFault::Absent),
        Ok(_) => front_of(&mut file, alloc, most),
        Err(error) => Err(failure_of(&error)),
    }
}

// The bytes that the file gives, or the first of them. A reading that is interrupted goes on.
pub(crate) fn front_of<F: Read>(
    file: &mut F,
    alloc: Global,
    most: usize,
) -> Result<Bytes, TreeFault>
    ensures { IfOk result (λ bytes. length bytes ≤ most) }
{
    let mut bytes = Bytes::new(alloc);
    let mut piece = [0u8; PIECE];
    for _ in 0..u64::MAX {
        let left = most.saturating_sub(bytes.as_slice().len());
        let room = left.min(PIECE);
        if room == 0 {
            return Ok(bytes);
        }
        match read_once(file, &mut piece[..room]) {
            Ok(0) => return Ok(bytes),
            Ok(taken) => bytes.push_all(&piece[..taken])?,
            Err(error) if error.kind() == ErrorKind::Interrupted => {}
            Err(error) => return Err(failure_of(&error)),
        }
    }
    Err(TreeFault::Failed)
}

// Reads the next bytes into the piece. Where that was part of the loop above, clang 22 took it that a reading gives at
// least one byte, and the end of a file was never found.
#[inline(never)]
fn read_once<F: Read>(file: &mut F, piece: &mut [u8]) -> io::Result<usize>
    ensures { IfOk result (λ n. n ≤ length piece.old) }
{
    file.read(piece)
}

// What an error says of what was looked for: that it is not there, or that the call failed.
fn fault_of(error: &io::Error) -> TreeFault {
    match error.kind() {
        ErrorKind::NotFound | ErrorKind::NotADirectory => TreeFault::Absent,
        _ => failure_of(error),
    }
}

fn failure_of(error: &io::Error) -> TreeFault {
    if is_memory(error) {
        return TreeFault::Memory;
    }
    TreeFault::Failed
}

// Whether memory was wanted.
pub(crate) fn is_memory(error: &io::Error) -> bool {
    error.kind() == ErrorKind::OutOfMemory
}
