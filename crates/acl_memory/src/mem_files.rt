ghost use Rattle.std.specs.Prelude.{◌≡◌, ℕ, ◌<◌, length, [], ◌++◌, IfOk, OnOk, OnErr, IsSome, MatchOption, Some, None};
ghost use Rattle.std.specs.Option.{option_copied};
ghost use Rattle.std.specs.String.{string_bytes};
ghost use Rattle.std.specs.Str.{bytes_eq};
ghost use Rattle.acl_host.specs.Files.{File, file_at, DistinctPaths};
ghost use Rattle.acl_memory.specs.MemoryFiles.{put_at, path_at, append_begun, DistinctPaths-prop};

use acl_text::{Bytes, Memory};
use std::alloc::Global;
use std::marker::Model;

/// A file in memory. A contract sees its path and its bytes.
#[derive(Drop)]
pub(crate) struct MemFile {
    path: String,
    bytes: Bytes,
}

impl Model for MemFile {
    ghost Value = { File };

    ghost view = { λ f. (string_bytes f.path, f.bytes) };
}

impl MemFile {
    fn new(alloc: Global, path: &str, bytes: Bytes) -> Result<MemFile, Memory>
        ensures { IfOk result (λ f. f ≡ (path.now, bytes)) }
    {
        Ok(MemFile {
            path: String::from_str(alloc, path)?,
            bytes,
        })
    }

    pub(crate) fn path(&self) -> &str
        ensures { result.now ≡ self.now.0 }
    {
        self.path.as_str()
    }

    fn bytes(&self) -> &[u8]
        ensures { result.now ≡ self.now.1 }
    {
        self.bytes.as_slice()
    }

    fn is_at(&self, path: &str) -> bool
        ensures { result ≡ bytes_eq self.now.0 path.now }
    {
        self.path.as_str() == path
    }

    fn replace(&mut self, bytes: Bytes)
        ensures { self.new ≡ (self.old.0, bytes) }
    {
        self.bytes = bytes;
    }

    fn append(&mut self, bytes: &[u8]) -> Result<(), Memory>
        ensures ok { OnOk result (self.new ≡ (self.old.0, self.old.1 ++ bytes.now)) }
        ensures err { OnErr result (self.new ≡ self.old) }
    {
        self.bytes.push_all(bytes)
    }
}

/// Files in memory, under paths of which none stands twice.
#[derive(Drop)]
pub(crate) struct MemFiles {
    items: Vec<MemFile>,
    ghost distinct: { DistinctPaths items.items } by { DistinctPaths-prop items.items },
}

impl MemFiles {
    /// No files.
    pub(crate) fn new(alloc: Global) -> MemFiles
        ensures { result.items.items ≡ [] }
    {
        MemFiles {
            items: Vec::new(alloc),
        }
    }

    pub(crate) fn as_slice(&self) -> &[MemFile]
        ensures { result.now ≡ self.now.items.items }
    {
        self.items.as_slice()
    }

    /// The bytes of the file at the path.
    pub(crate) fn file(&self, path: &str) -> Option<&[u8]>
        ensures { option_copied result ≡ file_at self.now.items.items path.now }
    {
        bytes_at(self.items.as_slice(), path)
    }

    /// Where the file at the path stands.
    fn find(&self, path: &str) -> Option<usize>
        ensures { MatchOption result (file_at self.now.items.items path.now ≡ None)
            (λ i. path_at i self.now.items.items ≡ Some path.now) }
    {
        index_of(self.items.as_slice(), path)
    }

    /// Puts the file at the path, in its place or at the end, and tells where it stands.
    pub(crate) fn put(&mut self, alloc: Global, path: &str, bytes: Bytes) -> Result<usize, Memory>
        ensures ok { OnOk result (self.new.items.items
            ≡ put_at path.now bytes self.old.items.items) }
        ensures at { IfOk result (λ i. path_at i self.new.items.items ≡ Some path.now) }
        ensures err { OnErr result (self.new.items.items ≡ self.old.items.items) }
    {
        match self.find(path) {
            Some(i) => {
                let file = &mut self.items[i];
                file.replace(bytes);
                Ok(i)
            }
            None => {
                let i = self.items.len();
                self.items.push(MemFile::new(alloc, path, bytes)?)?;
                Ok(i)
            }
        }
    }

    /// Appends the bytes to the file at the index.
    pub(crate) fn append(&mut self, i: usize, bytes: &[u8]) -> Result<(), Memory>
        requires { IsSome (path_at i self.old.items.items) }
        ensures ok { OnOk result (self.new.items.items
            ≡ append_begun (path_at i self.old.items.items) bytes.now self.old.items.items) }
        ensures err { OnErr result (self.new.items.items ≡ self.old.items.items) }
    {
        let file = &mut self.items[i];
        file.append(bytes)
    }
}

// The bytes of the file at the path.
fn bytes_at<'a>(files: &'a [MemFile], path: &str) -> Option<&'a [u8]>
    ensures { option_copied result ≡ file_at files.now path.now }
{
    for file in files {
        if file.is_at(path) {
            return Some(file.bytes());
        }
    }
    None
}

// Where the file at the path stands.
fn index_of(files: &[MemFile], path: &str) -> Option<usize>
    ensures { MatchOption result (file_at files.now path.now ≡ None)
        (λ i. path_at i files.now ≡ Some path.now) }
{
    for (i, file) in files.iter().enumerate() {
        if file.is_at(path) {
            return Some(i);
        }
    }
    None
}
