ghost use Rattle.std.specs.Prelude.{◌≤◌, ◌+◌, length, map, IfSome};
ghost use Rattle.std.specs.String.{string_bytes};
ghost use Rattle.acl_text.specs.Answers.{Gives};
ghost use Rattle.acl_host.specs.WholeFiles.{ReadsFiles, read_told};
ghost use Rattle.acl_load.specs.Loading.{with_file, all_of};

use crate::slips::slip_fault;
use acl_host::{ReadFault, Tree, read_whole};
use acl_naming::{Base, NamingKind, read_networks, read_services};
use acl_text::{Code, Refusal};
use std::alloc::Global;

// The most bytes of a naming file.
const MOST_BYTES: usize = 4_194_304;

// The base with the definitions of the file of this number, which lies at the path.
#[tactic(auto, unfolding(crate::specs::Loading::with_file))]
fn add_file<T: Tree>(
    alloc: Global,
    tree: &mut T,
    paths: &[String],
    kind: NamingKind,
    number: u32,
    path: &str,
    base: Base,
) -> Result<Base, ReadFault>
    ensures gives { IfSome (T.files tree.old) (λ files. Gives read_told result
        (with_file (map string_bytes paths.now) kind number path.now files base)) }
    ensures reads { ReadsFiles T.Tree tree.old tree.new result }
{
    let bytes = read_whole(alloc, tree, path, MOST_BYTES, Code::TooLong)?;
    let read = match kind {
        NamingKind::Networks => read_networks(base, number, bytes.as_slice()),
        NamingKind::Services => read_services(base, number, bytes.as_slice()),
    };
    match read {
        Ok(base) => Ok(base),
        Err(Refusal::Slip(slip)) => Err(ReadFault::Fault(slip_fault(alloc, paths, slip)?)),
        Err(Refusal::Memory) => Err(ReadFault::Memory),
    }
}

/// The base with the definitions of the files, all of one kind, of which the first has this number.
pub(crate) fn add_all<T: Tree>(
    alloc: Global,
    tree: &mut T,
    paths: &[String],
    kind: NamingKind,
    first: u32,
    files: &[String],
    base: Base,
) -> Result<Base, ReadFault>
    requires { first + length files.now ≤ 4096 }
    ensures gives { IfSome (T.files tree.old) (λ held. Gives read_told result
        (all_of (map string_bytes paths.now) kind first (map string_bytes files.now) held base)) }
    ensures reads { ReadsFiles T.Tree tree.old tree.new result }
{
    let mut so_far = base;
    let mut number = first;
    for path in files {
        so_far = add_file(alloc, tree, paths, kind, number, path.as_str(), so_far)?;
        number += 1;
    }
    Ok(so_far)
}
