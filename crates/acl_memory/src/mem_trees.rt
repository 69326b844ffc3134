ghost use Rattle.std.specs.Prelude.{IsSome, IfSome};
ghost use Rattle.acl_memory.specs.MemoryFiles.{path_at, within-prop};

use crate::failing::{Calls, Op};
use crate::looking::{front_at, names_under};
use crate::mem_files::MemFiles;
use acl_host::{FileNames, Tree, TreeFault, WriteFault};
use acl_text::{Bytes, Memory, Out, PutFault};
use std::alloc::Global;

/// A tree in memory, whose files can be read, and of which chosen calls fail.
///
/// It tells all its files. A call that is to fail changes no file.
pub struct MemTree {
    alloc: Global,
    files: MemFiles,
    // where the file that is begun stands
    begun: Option<usize>,
    lists: Calls,
    reads: Calls,
    begins: Calls,
    appends: Calls,
    finishes: Calls,
    faults: u64,
    refusals: u64,
    list_faults: u64,
    read_faults: u64,
    ghost begun_stands: { IfSome begun (λ i. IsSome (path_at i files.items.items)) } by { within-prop begun files.items.items },
}

// Where a tree is let go, that is one step, whatever it holds.
impl Drop for MemTree {
    fn drop(self) {
        let MemTree {
            alloc: _,
            files,
            begun: _,
            lists,
            reads,
            begins,
            appends,
            finishes,
            faults: _,
            refusals: _,
            list_faults: _,
            read_faults: _,
        } = self;
        drop(files);
        drop(lists);
        drop(reads);
        drop(begins);
        drop(appends);
        drop(finishes);
    }
}

impl MemTree {
    ghost use Rattle.std.specs.Prelude.{◌≡◌, None, IsSome, OnOk, OnErr};
    ghost use Rattle.std.specs.Option.{option_copied};
    ghost use Rattle.acl_host.specs.Files.{file_at};
    ghost use Rattle.acl_memory.specs.MemoryFiles.{put_at, append_begun};
    ghost use Rattle.acl_memory.specs.MemoryTrees.{contents, no_contents, failing_too};

    /// No files, nothing begun, and no call that fails.
    pub fn new(alloc: Global) -> MemTree
        ensures { contents result ≡ no_contents }
    {
        MemTree {
            alloc,
            files: MemFiles::new(alloc),
            begun: None,
            lists: Calls::new(alloc),
            reads: Calls::new(alloc),
            begins: Calls::new(alloc),
            appends: Calls::new(alloc),
            finishes: Calls::new(alloc),
            faults: 0,
            refusals: 0,
            list_faults: 0,
            read_faults: 0,
        }
    }

    /// Puts a file there, in the place of one that lies at the path. A file that is begun stays begun.
    pub fn put_file(&mut self, path: &str, bytes: &[u8]) -> Result<(), Memory>
        ensures ok { OnOk result (contents self.new ≡ record (contents self.old)
            { files = put_at path.now bytes.now (contents self.old).files }) }
        ensures err { OnErr result (contents self.new ≡ contents self.old) }
    {
        let copy = Bytes::from_slice(self.alloc, bytes)?;
        self.files.put(self.alloc, path, copy)?;
        Ok(())
    }

    /// The bytes of the file at the path.
    pub fn file(&self, path: &str) -> Option<&[u8]>
        ensures { option_copied result ≡ file_at (contents self.now).files path.now }
    {
        self.files.file(path)
    }

    /// The call of this kind and number, counted from 1, is to fail.
    pub fn fail(&mut self, op: Op, nth: u32) -> Result<(), Memory>
        ensures ok { OnOk result (contents self.new ≡ failing_too op nth (contents self.old)) }
        ensures err { OnErr result (contents self.new ≡ contents self.old) }
    {
        match op {
            Op::List => self.lists.fail(nth),
            Op::Read => self.reads.fail(nth),
            Op::Begin => self.begins.fail(nth),
            Op::Append => self.appends.fail(nth),
            Op::Finish => self.finishes.fail(nth),
        }
    }

    // Appends the bytes to the file that is begun.
    fn append(&mut self, bytes: &[u8]) -> Result<(), Memory>
        requires { IsSome (contents self.old).begun }
        ensures ok { OnOk result (contents self.new ≡ record (contents self.old)
            { files = append_begun (contents self.old).begun bytes.now (contents self.old).files }) }
        ensures err { OnErr result (contents self.new ≡ contents self.old) }
    {
        match self.begun {
            Some(i) => self.files.append(i, bytes),
            None => unreachable!(),
        }
    }
}

impl Out for MemTree {
    ghost use Rattle.std.specs.Prelude.{◌≡◌, ◌↔◌, true, is_some, IsTrue, IsErrOf};
    ghost use Rattle.acl_memory.specs.Memory.{next_fails};
    ghost use Rattle.acl_memory.specs.MemoryTrees.{contents, begun_of, told_by, KeepsRest, PutsInMemory, after_put};
    ghost use Rattle.acl_host.specs.Resting.{rest_same, rest_joined};

    ghost told = { told_by };

    ghost faults = { λ t. t.faults };

    ghost refusals = { λ t. t.refusals };

    ghost is_open = { λ t. is_some (begun_of t) };

    ghost keeps_rest = { KeepsRest };

    /// Appends the bytes to the file that is begun. A call that is to fail appends nothing, and neither
    /// does one that wants memory.
    fn put(&mut self, bytes: &[u8]) -> Result<(), PutFault>
        requires { IsTrue (is_some (begun_of self.old)) }
        ensures puts { PutsInMemory self.old self.new bytes.now result }
        ensures fails { IsErrOf result PutFault.Failed
            ↔ (next_fails (contents self.old).appends ≡ true) }
        ensures left { contents self.new ≡ after_put result bytes.now (contents self.old) }
    {
        if self.appends.count() {
            self.begun = None;
            self.faults = self.faults.saturating_add(1);
            return Err(PutFault::Failed);
        }
        match self.append(bytes) {
            Ok(()) => Ok(()),
            Err(Memory) => {
                self.begun = None;
                self.refusals = self.refusals.saturating_add(1);
                Err(PutFault::Memory)
            }
        }
    }

    ghost rest_same = { λ t. rest_same _ _ _ _ };

    ghost rest_goes_on = { λ x y z p q. rest_joined p q };
}

impl Tree for MemTree {
    ghost use Rattle.std.specs.Prelude.{◌≡◌, ◌↔◌, true, None, Some, IsSome, IsErrOf, refl};
    ghost use Rattle.acl_memory.specs.Memory.{next_fails};
    ghost use Rattle.acl_memory.specs.MemoryTrees.{contents, files_of, begun_of, ListsInMemory, ReadsInMemory, BeginsInMemory, FinishesInMemory, after_list, after_read, after_begin, after_finish};
    ghost use Rattle.acl_memory.specs.Holding.{begun_is_held};

    ghost files = { files_of };

    ghost begun = { begun_of };

    ghost list_faults = { λ t. t.list_faults };

    ghost read_faults = { λ t. t.read_faults };

    /// The names of the files directly under the folder, in byte order.
    fn list(&mut self, alloc: Global, dir: &str) -> Result<FileNames, TreeFault>
        ensures lists { ListsInMemory self.old self.new dir.now result }
        ensures fails { IsErrOf result TreeFault.Failed
            ↔ (next_fails (contents self.old).lists ≡ true) }
        ensures left { contents self.new ≡ after_list result (contents self.old) }
    {
        if self.lists.count() {
            self.list_faults = self.list_faults.saturating_add(1);
            return Err(TreeFault::Failed);
        }
        names_under(alloc, dir, &self.files)
    }

    /// The bytes of the file, or its first `most` bytes where it is longer.
    fn read(&mut self, alloc: Global, path: &str, most: usize) -> Result<Bytes, TreeFault>
        ensures reads { ReadsInMemory self.old self.new path.now most result }
        ensures fails { IsErrOf result TreeFault.Failed
            ↔ (next_fails (contents self.old).reads ≡ true) }
        ensures left { contents self.new ≡ after_read result (contents self.old) }
    {
        if self.reads.count() {
            self.read_faults = self.read_faults.saturating_add(1);
            return Err(TreeFault::Failed);
        }
        front_at(alloc, path, most, &self.files)
    }

    /// Makes the file empty, and begins it. A call that is to fail changes no file.
    fn begin(&mut self, path: &str) -> Result<(), WriteFault>
        requires { begun_of self.old ≡ None }
        ensures begins { BeginsInMemory self.old self.new path.now result }
        ensures fails { IsErrOf result WriteFault.Failed
            ↔ (next_fails (contents self.old).begins ≡ true) }
        ensures left { contents self.new ≡ after_begin result path.now (contents self.old) }
    {
        if self.begins.count() {
            self.faults = self.faults.saturating_add(1);
            return Err(WriteFault::Failed);
        }
        match self.files.put(self.alloc, path, Bytes::new(self.alloc)) {
            Ok(i) => {
                self.begun = Some(i);
                Ok(())
            }
            Err(Memory) => {
                self.refusals = self.refusals.saturating_add(1);
                Err(WriteFault::Memory)
            }
        }
    }

    /// Ends the file that is begun, and changes no file. It needs no memory.
    fn finish(&mut self) -> Result<(), WriteFault>
        requires { IsSome (begun_of self.old) }
        ensures finishes { FinishesInMemory self.old self.new result }
        ensures fails { IsErrOf result WriteFault.Failed
            ↔ (next_fails (contents self.old).finishes ≡ true) }
        ensures sure { IsErrOf result WriteFault.Memory → ⊥ }
        ensures left { contents self.new ≡ after_finish result (contents self.old) }
    {
        self.begun = None;
        if self.finishes.count() {
            self.faults = self.faults.saturating_add(1);
            return Err(WriteFault::Failed);
        }
        Ok(())
    }

    ghost open_is = { λ t. refl };

    ghost told_is = { λ t. refl };

    ghost rest_is = { λ s t h. h };

    ghost is_rest = { λ s t h. h };

    ghost distinct = { λ t. t.files.distinct };

    ghost begun_is_held = { λ t. begun_is_held t.begun t.files.items.items };
}
