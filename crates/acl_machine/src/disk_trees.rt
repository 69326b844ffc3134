ghost use Rattle.std.specs.Prelude.{◌≡◌, [], OnOk};
ghost use Rattle.std.specs.Io.KnownBytes.{Appends};

use crate::disk::{bytes_at, names_in};
use crate::gathered::Gathered;
use crate::replacing::{Opened, open_at};
use crate::write_counts::WriteCounts;
use acl_host::{FileNames, Tree, TreeFault, WriteFault};
use acl_text::{Bytes, Out, PutFault};
use std::alloc::Global;
use std::io;
use std::rt::Files;

/// The files of the machine.
///
/// It tells no files. A folder that is not there, that is a file, or in which nothing lies is absent; so is
/// a file that is not there, or that is a folder. What is no regular file in a folder is passed over. `list` fails
/// where a name is not UTF-8, or where the folder holds more than 1,048,576 names. `begin` makes no folder.
///
/// A file is as it was until `finish` answers: it is written beside, and then put into its place in one step.
/// What is no regular file is written in place, and so is a file in a folder that takes no new one.
#[derive(Drop)]
pub struct DiskTree<'a, R: Files> {
    rt: &'a R,
    begun: Option<Begun<R>>,
    counts: WriteCounts,
    list_faults: u64,
    read_faults: u64,
}

// A file that is begun, and the bytes that are on their way there.
#[derive(Drop)]
struct Begun<R: Files> {
    opened: Opened<R>,
    gathered: Gathered,
}

impl<'a, R: Files> DiskTree<'a, R> {
    ghost use Rattle.std.specs.Prelude.{◌≡◌, ◌≤◌, ◌+◌, false, None, IsSome, IsErrOf, OnOk, OnErr, option_map};
    ghost use Rattle.std.specs.String.{string_bytes};
    ghost use Rattle.acl_text.specs.Output.{Rose, has_failed};

    /// The files that the runtime reaches. Nothing is begun, and no call has failed yet.
    pub fn new(rt: &'a R) -> DiskTree<'a, R>
        ensures begun { result.begun ≡ None }
        ensures counts { result.counts.faults + result.counts.refusals + result.list_faults
            + result.read_faults ≡ 0 }
    {
        DiskTree {
            rt,
            begun: None,
            counts: WriteCounts::new(),
            list_faults: 0,
            read_faults: 0,
        }
    }

    // Puts bytes that are many, or have no room beside those that are gathered. It stands apart so that a line that has
    // room needs no more than to be copied.
    #[inline(never)]
    fn put_on(&mut self, bytes: &[u8]) -> Result<(), PutFault>
        requires { IsSome self.old.begun }
        ensures begun { OnOk result (option_map (λ b. string_bytes b.opened.path) self.new.begun
            ≡ option_map (λ b. string_bytes b.opened.path) self.old.begun) }
        ensures given_up { OnErr result (self.new.begun ≡ None) }
        ensures looks { (self.new.list_faults ≡ self.old.list_faults)
            × (self.new.read_faults ≡ self.old.read_faults) }
        ensures faults_grow { self.old.counts.faults ≤ self.new.counts.faults }
        ensures refusals_grow { self.old.counts.refusals ≤ self.new.counts.refusals }
        ensures failed { IsErrOf result PutFault.Failed
            → Rose self.old.counts.faults self.new.counts.faults }
        ensures faults_stay { has_failed result ≡ false
            → self.new.counts.faults ≡ self.old.counts.faults }
        ensures memory { IsErrOf result PutFault.Memory
            → Rose self.old.counts.refusals self.new.counts.refusals }
    {
        let written = match &mut self.begun {
            Some(begun) => begun.gathered.put(&mut begun.opened.file, bytes),
            None => unreachable!(),
        };
        match written {
            Ok(()) => Ok(()),
            Err(error) => {
                self.give_up();
                match self.counts.count(&error) {
                    WriteFault::Failed => Err(PutFault::Failed),
                    WriteFault::Memory => Err(PutFault::Memory),
                }
            }
        }
    }

    // Lets go the file that is begun, and removes what was written beside it.
    fn give_up(&mut self)
        ensures begun { self.new.begun ≡ None }
        ensures counts { self.new.counts ≡ self.old.counts }
        ensures looks { (self.new.list_faults ≡ self.old.list_faults)
            × (self.new.read_faults ≡ self.old.read_faults) }
    {
        if let Some(begun) = &self.begun {
            begun.opened.give_up(self.rt);
        }
        self.begun = None;
    }
}

// Writes what is gathered, and puts the file into its place.
fn end<R: Files>(rt: &R, opened: &mut Opened<R>, gathered: &mut Gathered) -> io::Result<()>
    ensures written { OnOk result (Appends (R.File.contents opened.old.file)
        (R.File.contents opened.new.file) gathered.old) }
    ensures none { gathered.new ≡ [] }
{
    gathered.write_out(&mut opened.file)?;
    opened.settle(rt)
}

impl<R: Files + AllocGlobal + Clone + Drop> Out for DiskTree<'_, R> {
    ghost use Rattle.std.specs.Prelude.{None, is_some, option_map};
    ghost use Rattle.std.specs.String.{string_bytes};
    ghost use Rattle.acl_host.specs.Files.{RestStays};
    ghost use Rattle.acl_host.specs.Resting.{rest_same, rest_joined};

    ghost told = { λ t. None };

    ghost faults = { λ t. t.counts.faults };

    ghost refusals = { λ t. t.counts.refusals };

    ghost is_open = { λ t. is_some (option_map (λ b. string_bytes b.opened.path) t.begun) };

    ghost keeps_rest = { λ s t. RestStays None None (option_map (λ b. string_bytes b.opened.path) s.begun)
        (option_map (λ b. string_bytes b.opened.path) t.begun) s.list_faults t.list_faults s.read_faults
        t.read_faults };

    #[inline]
    fn put(&mut self, bytes: &[u8]) -> Result<(), PutFault> {
        // most bytes are a line, and have room
        let taken = match &mut self.begun {
            Some(begun) => begun.gathered.take(bytes),
            None => unreachable!(),
        };
        if taken {
            return Ok(());
        }
        self.put_on(bytes)
    }

    ghost rest_same = { λ t. rest_same _ _ _ _ };

    ghost rest_goes_on = { λ x y z p q. rest_joined p q };
}

impl<R: Files + AllocGlobal + Clone + Drop> Tree for DiskTree<'_, R> {
    ghost use Rattle.std.specs.Prelude.{None, option_map, refl};
    ghost use Rattle.std.specs.String.{string_bytes};

    ghost files = { λ t. None };

    ghost begun = { λ t. option_map (λ b. string_bytes b.opened.path) t.begun };

    ghost list_faults = { λ t. t.list_faults };

    ghost read_faults = { λ t. t.read_faults };

    fn list(&mut self, alloc: Global, dir: &str) -> Result<FileNames, TreeFault> {
        match names_in(self.rt, alloc, dir) {
            Err(TreeFault::Failed) => {
                self.list_faults = self.list_faults.saturating_add(1);
                Err(TreeFault::Failed)
            }
            answer => answer,
        }
    }

    fn read(&mut self, alloc: Global, path: &str, most: usize) -> Result<Bytes, TreeFault> {
        match bytes_at(self.rt, alloc, path, most) {
            Err(TreeFault::Failed) => {
                self.read_faults = self.read_faults.saturating_add(1);
                Err(TreeFault::Failed)
            }
            answer => answer,
        }
    }

    fn begin(&mut self, path: &str) -> Result<(), WriteFault> {
        match open_at(self.rt, path) {
            Ok(opened) => {
                let gathered = Gathered::new(self.rt.alloc());
                self.begun = Some(Begun { opened, gathered });
                Ok(())
            }
            Err(error) => Err(self.counts.count(&error)),
        }
    }

    fn finish(&mut self) -> Result<(), WriteFault> {
        let ended = match &mut self.begun {
            Some(begun) => end(self.rt, &mut begun.opened, &mut begun.gathered),
            None => unreachable!(),
        };
        match ended {
            // the file is closed when it is let go
            Ok(()) => {
                self.begun = None;
                Ok(())
            }
            Err(error) => {
                self.give_up();
                Err(self.counts.count(&error))
            }
        }
    }

    ghost open_is = { λ t. refl };

    ghost told_is = { λ t. refl };

    ghost rest_is = { λ s t h. h };

    ghost is_rest = { λ s t h. h };

    ghost distinct = { λ t. tt };

    ghost begun_is_held = { λ t. tt };
}
