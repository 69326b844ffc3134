ghost use Rattle.std.specs.Prelude.{◌≡◌, ◌≤◌, ◌<◌, ◌^◌, ◌+◌, length, IfSome, IfOk};
ghost use Rattle.acl_text.specs.Answers.{Gives};
ghost use Rattle.acl_host.specs.WholeFiles.{ListsFolder, ReadsFiles, list_told, listing, read_told, whole_file};

use crate::look_faults::{ListFault, ReadFault};
use crate::trees::{FileNames, Tree, TreeFault};
use acl_text::{Bytes, Code, Fault};
use std::alloc::Global;

/// The names of the files directly under the folder, in byte order.
///
/// `NoFile` where nothing lies under it; `Outside` only where the tree's count of failed listings rose.
#[tactic(auto, unfolding(crate::specs::WholeFiles::listing))]
pub fn listing<T: Tree>(alloc: Global, tree: &mut T, folder: &str) -> Result<FileNames, ListFault>
    ensures gives { IfSome (T.files tree.old) (λ files. Gives list_told result
        (listing folder.now files)) }
    ensures lists { ListsFolder T.Tree tree.old tree.new result }
{
    match tree.list(alloc, folder) {
        Ok(names) => Ok(names),
        Err(TreeFault::Absent) => Err(ListFault::Fault(Fault::of_file(
            alloc,
            Code::NoFile,
            folder,
        )?)),
        Err(TreeFault::Failed) => Err(ListFault::Outside),
        Err(TreeFault::Memory) => Err(ListFault::Memory),
    }
}

/// The bytes of the file at the path, of which there may be so many.
///
/// `NoFile` where there is none, and `longer` where there are more; `Outside` only where the tree's count
/// of failed readings rose.
#[tactic(auto, unfolding(crate::specs::WholeFiles::whole_file))]
pub fn read_whole<T: Tree>(
    alloc: Global,
    tree: &mut T,
    path: &str,
    most: usize,
    longer: Code,
) -> Result<Bytes, ReadFault>
    requires { most + 1 < 2 ^ 64 }
    ensures gives { IfSome (T.files tree.old) (λ files. Gives read_told result
        (whole_file most longer path.now files)) }
    ensures fits { IfOk result (λ bytes. length bytes ≤ most) }
    ensures reads { ReadsFiles T.Tree tree.old tree.new result }
{
    match tree.read(alloc, path, most + 1) {
        Ok(bytes) => {
            if bytes.as_slice().len() > most {
                return Err(ReadFault::Fault(Fault::of_file(alloc, longer, path)?));
            }
            Ok(bytes)
        }
        Err(TreeFault::Absent) => Err(ReadFault::Fault(Fault::of_file(alloc, Code::NoFile, path)?)),
        Err(TreeFault::Failed) => Err(ReadFault::Outside),
        Err(TreeFault::Memory) => Err(ReadFault::Memory),
    }
}
