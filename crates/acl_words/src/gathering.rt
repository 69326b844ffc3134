ghost use Rattle.std.specs.Prelude.{◌≡◌, IfSome, IfOk, OnOk};
ghost use Rattle.std.specs.Str.{IsUtf8};
ghost use Rattle.acl_words.specs.Folders.{folder_of};
ghost use Rattle.acl_words.specs.Splices.{nothing_read};
ghost use Rattle.acl_words.specs.Labels.{IsLabelled};
ghost use Rattle.acl_words.specs.Splicing.{splice_of};
ghost use Rattle.acl_text.specs.Answers.{Gives, Leaves};
ghost use Rattle.acl_host.specs.WholeFiles.{ReadsFiles, read_told};

use crate::folders::folder_of;
use crate::partial_splices::PartialSplice;
use crate::sources::Sources;
use crate::splicing::SplicedFile;
use acl_host::{ReadFault, Tree};
use std::alloc::Global;
use std::str;

/// Why a policy was not gathered: it is at fault, a file was not read, or memory was wanted.
pub type GatherFault = ReadFault;

/// The lines of the policy at the path, with the files that it includes spliced in.
///
/// Where the tree tells its files, this is the splice, or the splice's first fault, unless a reading failed or
/// memory was wanted. The tree is only read. The policy has a label, and so has the file of each line, whatever
/// the tree tells.
pub fn gather<T: Tree>(alloc: Global, tree: &mut T, path: &str) -> Result<Sources, GatherFault>
    ensures gives { IfSome (T.files tree.old) (λ fs. Gives read_told result
        (splice_of fs path.now)) }
    ensures reads { ReadsFiles T.Tree tree.old tree.new result }
    ensures labelled { IfOk result IsLabelled }
{
    let mut splice = PartialSplice::new(alloc);
    gather_into(alloc, tree, path, &mut splice)?;
    Ok(Sources::from_splice(splice))
}

/// The folder of a path, with its slash.
fn folder(path: &str) -> &str
    ensures { result.now ≡ folder_of path.now }
{
    match str::from_utf8(folder_of(path.as_bytes())) {
        Ok(text) => text,
        Err(_) => unreachable!(),
    }
}

#[tactic(auto, using(crate::proofs::LabelLaws::is_labelled), unfolding(crate::specs::Splicing::splice_of))]
fn gather_into<T: Tree>(
    alloc: Global,
    tree: &mut T,
    path: &str,
    sources: &mut PartialSplice,
) -> Result<(), ReadFault>
    requires { sources.old ≡ nothing_read }
    ensures gives { IfSome (T.files tree.old) (λ fs. Leaves read_told sources.new result
        (splice_of fs path.now)) }
    ensures reads { ReadsFiles T.Tree tree.old tree.new result }
    ensures labelled { OnOk result (IsLabelled sources.new) }
{
    let policy = SplicedFile {
        folder: folder(path),
        levels: 8,
        label: path.as_bytes(),
    };
    let bytes = policy.read(alloc, tree, 0, b"", path)?;
    policy.add(alloc, tree, sources, bytes.as_slice())
}
