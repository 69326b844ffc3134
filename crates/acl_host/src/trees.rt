ghost use Rattle.std.specs.Ordering.{nat_cmp, is_le};
ghost use Rattle.std.specs.Cmp.Lexicographic.{slice_cmp};
ghost use Rattle.std.specs.Prelude.{◌≡◌, ◌≤◌, ℕ, insert, length, List, [], ◌++◌, ◌∷◌, map, Option, None, Some, Bool, is_some, IsSome, IfSome, IfOk, OnOk, OnErr, IsPermutation};
ghost use Rattle.std.specs.String.{string_bytes};
ghost use Rattle.acl_host.specs.Files.{File, put_in_order, AreInByteOrder, RestStays, told_of, DistinctPaths, IsHeld};

use crate::sinks::WriteFault;
use acl_text::{Bytes, Memory, Out};
use std::alloc::{AllocError, Global};
use std::marker::Model;
use thiserror::Error;

/// Why a folder was not listed, or a file not read.
#[derive(Clone, Copy, Debug, PartialEq, Eq, Error)]
pub enum TreeFault {
    #[error("not there")]
    Absent,
    #[error("the call failed")]
    Failed,
    #[error("out of memory")]
    Memory,
}

impl From<Memory> for TreeFault {
    ghost use Rattle.acl_host.specs.declared.trees.TreeFault.TheVariants as tree;

    ghost from_gives = { λ _ e. e ≡ tree.Memory };

    fn from(_memory: Memory) -> TreeFault {
        TreeFault::Memory
    }
}

impl From<AllocError> for TreeFault {
    ghost use Rattle.acl_host.specs.declared.trees.TreeFault.TheVariants as tree;

    ghost from_gives = { λ _ e. e ≡ tree.Memory };

    fn from(_error: AllocError) -> TreeFault {
        TreeFault::Memory
    }
}

/// Names of files. A contract sees the list of their bytes.
#[derive(Drop)]
pub struct FileNames {
    names: Vec<String>,
}

impl Model for FileNames {
    ghost Value = { List (List ℕ) };

    ghost view = { λ n. map string_bytes n.names.items };
}

impl FileNames {
    /// No names.
    pub fn new(alloc: Global) -> FileNames
        ensures { result ≡ [] }
    {
        FileNames {
            names: Vec::new(alloc),
        }
    }

    /// Adds the name at the end, or nothing where memory is wanted.
    pub fn push(&mut self, item: String) -> Result<(), Memory>
        ensures ok { OnOk result (self.new ≡ self.old ++ string_bytes item ∷ []) }
        ensures err { OnErr result (self.new ≡ self.old) }
    {
        self.names.push(item)?;
        Ok(())
    }

    pub fn as_slice(&self) -> &[String]
        ensures { map string_bytes result.now ≡ self.now }
    {
        self.names.as_slice()
    }

    /// Puts the names in byte order, or changes nothing where memory is wanted.
    pub fn sort(&mut self) -> Result<(), Memory>
        ensures same { IsPermutation self.old self.new }
        ensures ok { OnOk result (AreInByteOrder self.new) }
        ensures err { OnErr result (self.new ≡ self.old) }
    {
        self.names.sort()?;
        Ok(())
    }

    /// Puts the name into its place among names in byte order, or changes nothing where memory is wanted.
    pub fn put_in_order(&mut self, item: String) -> Result<(), Memory>
        ensures ok { OnOk result (self.new ≡ put_in_order (string_bytes item) self.old) }
        ensures err { OnErr result (self.new ≡ self.old) }
    {
        let place = place_of(self.names.as_slice(), item.as_bytes());
        self.names.insert(place, item)?;
        Ok(())
    }
}

// The place of a name among names in byte order: before the first that does not come before it.
fn place_of(names: &[String], name: &[u8]) -> usize
    ensures within { result ≤ length names.now }
    ensures place { insert (map string_bytes names.now) result name.now
        ≡ put_in_order name.now (map string_bytes names.now) }
{
    for (i, other) in names.iter().enumerate() {
        if comes_first(name, other.as_bytes()) {
            return i;
        }
    }
    names.len()
}

// Whether the first name comes before the second in byte order, or is the same.
fn comes_first(name: &[u8], other: &[u8]) -> bool
    ensures { result ≡ is_le (slice_cmp nat_cmp name.now other.now) }
{
    name.cmp(other).is_le()
}

/// Files under their paths, of which one at a time may be begun and written.
///
/// A tree tells its files as a list of paths and bytes, no path twice, or does not; and it tells the path
/// that is begun, if one is. It counts the faults of `list`, those of `read`, and as an `Out` those of its
/// writing calls: `begin`, `put` and `finish`. No count falls, and a call that did not fail leaves its own as
/// it was. As an `Out` it is open while a path is begun, and its bytes are those of the begun file.
pub trait Tree: Out {
    ghost use Rattle.acl_host.specs.Outside.{Lists, Reads, Begins, Finishes, members};

    ghost files: { Self → Option (List File) };

    ghost begun: { Self → Option (List ℕ) };

    ghost list_faults: { Self → ℕ };

    ghost read_faults: { Self → ℕ };

    /// The names of the files directly under the folder, in byte order.
    fn list(&mut self, alloc: Global, dir: &str) -> Result<FileNames, TreeFault>
        ensures { Lists (members Self.Out files begun list_faults read_faults)
            self.old self.new dir.now result };

    /// The bytes of the file, or its first `most` bytes where it is longer.
    fn read(&mut self, alloc: Global, path: &str, most: usize) -> Result<Bytes, TreeFault>
        ensures { Reads (members Self.Out files begun list_faults read_faults)
            self.old self.new path.now most result };

    /// Makes the file empty, and begins it.
    fn begin(&mut self, path: &str) -> Result<(), WriteFault>
        requires { begun self.old ≡ None }
        ensures { Begins (members Self.Out files begun list_faults read_faults)
            self.old self.new path.now result };

    /// Ends the file that is begun.
    fn finish(&mut self) -> Result<(), WriteFault>
        requires { IsSome (begun self.old) }
        ensures { Finishes (members Self.Out files begun list_faults read_faults)
            self.old self.new result };

    // An open tree is one in which a path is begun.
    ghost open_is: { (x : Self) → Self.is_open x ≡ is_some (begun x) };

    // What it tells as an output are the bytes of the begun file.
    ghost told_is: { (x : Self) → Self.told x ≡ told_of (files x) (begun x) };

    // The rest of an output that stays is, of a tree, what it holds beside the bytes of the begun file.
    ghost rest_is: { (x y : Self) → Self.keeps_rest x y → RestStays (files x) (files y) (begun x)
        (begun y) (list_faults x) (list_faults y) (read_faults x) (read_faults y) };

    ghost is_rest: { (x y : Self) → RestStays (files x) (files y) (begun x) (begun y)
        (list_faults x) (list_faults y) (read_faults x) (read_faults y) → Self.keeps_rest x y };

    ghost distinct: { (x : Self) → IfSome (files x) DistinctPaths };

    // A path that is begun is held.
    ghost begun_is_held: { (x : Self) → IfSome (files x) (λ fs. IfSome (begun x) (IsHeld fs)) };
}
