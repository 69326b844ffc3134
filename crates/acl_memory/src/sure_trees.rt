ghost use Rattle.acl_memory.specs.MemoryTrees.{NeverFails, NeverFails-prop, contents};

use crate::mem_trees::MemTree;
use acl_host::{FileNames, Tree, TreeFault, WriteFault};
use acl_text::{Bytes, Memory, Out, PutFault};
use std::alloc::Global;

/// A tree in memory, whose files can be read, and of which no call fails. It tells all its files.
#[derive(Drop)]
pub struct SureTree {
    tree: MemTree,
    ghost never_fails: { NeverFails (contents tree) } by { NeverFails-prop (contents tree) },
}

impl SureTree {
    ghost use Rattle.std.specs.Prelude.{◌≡◌, OnOk, OnErr};
    ghost use Rattle.std.specs.Option.{option_copied};
    ghost use Rattle.acl_host.specs.Files.{file_at};
    ghost use Rattle.acl_memory.specs.MemoryFiles.{put_at};
    ghost use Rattle.acl_memory.specs.MemoryTrees.{no_contents};

    /// No files, and nothing begun.
    pub fn new(alloc: Global) -> SureTree
        ensures { contents result.tree ≡ no_contents }
    {
        SureTree {
            tree: MemTree::new(alloc),
        }
    }

    /// Puts a file there, in the place of one that lies at the path. A file that is begun stays begun.
    pub fn put_file(&mut self, path: &str, bytes: &[u8]) -> Result<(), Memory>
        ensures ok { OnOk result (contents self.new.tree ≡ record (contents self.old.tree)
            { files = put_at path.now bytes.now (contents self.old.tree).files }) }
        ensures err { OnErr result (contents self.new.tree ≡ contents self.old.tree) }
    {
        self.tree.put_file(path, bytes)
    }

    /// The bytes of the file at the path.
    pub fn file(&self, path: &str) -> Option<&[u8]>
        ensures { option_copied result ≡ file_at (contents self.now.tree).files path.now }
    {
        self.tree.file(path)
    }
}

impl Out for SureTree {
    ghost use Rattle.std.specs.Prelude.{◌≡◌, is_some, IsTrue, IsErrOf};
    ghost use Rattle.acl_memory.specs.MemoryTrees.{begun_of, told_by, after_put};
    ghost use Rattle.acl_memory.specs.SureObjects.{KeepsRestSurely, PutsSurely};
    ghost use Rattle.acl_host.specs.Resting.{rest_same, rest_joined};

    ghost told = { λ t. told_by t.tree };

    ghost faults = { λ t. 0 };

    ghost refusals = { λ t. t.tree.refusals };

    ghost is_open = { λ t. is_some (begun_of t.tree) };

    ghost keeps_rest = { KeepsRestSurely };

    fn put(&mut self, bytes: &[u8]) -> Result<(), PutFault>
        requires { IsTrue (is_some (begun_of self.old.tree)) }
        ensures puts { PutsSurely self.old self.new bytes.now result }
        ensures sure { IsErrOf result PutFault.Failed → ⊥ }
        ensures left { contents self.new.tree ≡ after_put result bytes.now (contents self.old.tree) }
    {
        self.tree.put(bytes)
    }

    ghost rest_same = { λ t. rest_same _ _ _ _ };

    ghost rest_goes_on = { λ x y z p q. rest_joined p q };
}

impl Tree for SureTree {
    ghost use Rattle.std.specs.Prelude.{◌≡◌, None, IsSome, IsErrOf, refl};
    ghost use Rattle.acl_memory.specs.MemoryTrees.{begun_of, files_of, after_list, after_read, after_begin, after_finish};
    ghost use Rattle.acl_memory.specs.SureObjects.{ListsSurely, ReadsSurely, BeginsSurely, FinishesSurely};
    ghost use Rattle.acl_memory.specs.Holding.{begun_is_held};

    ghost files = { λ t. files_of t.tree };

    ghost begun = { λ t. begun_of t.tree };

    ghost list_faults = { λ t. 0 };

    ghost read_faults = { λ t. 0 };

    fn list(&mut self, alloc: Global, dir: &str) -> Result<FileNames, TreeFault>
        ensures lists { ListsSurely self.old self.new dir.now result }
        ensures sure { IsErrOf result TreeFault.Failed → ⊥ }
        ensures left { contents self.new.tree ≡ after_list result (contents self.old.tree) }
    {
        self.tree.list(alloc, dir)
    }

    fn read(&mut self, alloc: Global, path: &str, most: usize) -> Result<Bytes, TreeFault>
        ensures reads { ReadsSurely self.old self.new path.now most result }
        ensures sure { IsErrOf result TreeFault.Failed → ⊥ }
        ensures left { contents self.new.tree ≡ after_read result (contents self.old.tree) }
    {
        self.tree.read(alloc, path, most)
    }

    fn begin(&mut self, path: &str) -> Result<(), WriteFault>
        requires { begun_of self.old.tree ≡ None }
        ensures begins { BeginsSurely self.old self.new path.now result }
        ensures sure { IsErrOf result WriteFault.Failed → ⊥ }
        ensures left { contents self.new.tree
            ≡ after_begin result path.now (contents self.old.tree) }
    {
        self.tree.begin(path)
    }

    fn finish(&mut self) -> Result<(), WriteFault>
        requires { IsSome (begun_of self.old.tree) }
        ensures finishes { FinishesSurely self.old self.new result }
        ensures sure { IsErrOf result WriteFault.Failed → ⊥ }
        ensures no_memory { IsErrOf result WriteFault.Memory → ⊥ }
        ensures left { contents self.new.tree ≡ after_finish result (contents self.old.tree) }
    {
        self.tree.finish()
    }

    ghost open_is = { λ t. refl };

    ghost told_is = { λ t. refl };

    ghost rest_is = { λ s t h. h };

    ghost is_rest = { λ s t h. h };

    ghost distinct = { λ t. t.tree.files.distinct };

    ghost begun_is_held = { λ t. begun_is_held t.tree.begun t.tree.files.items.items };
}
