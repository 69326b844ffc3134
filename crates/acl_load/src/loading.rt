ghost use Rattle.std.specs.Prelude.{◌≡◌, ◌≤◌, ◌+◌, length, map, IfSome, IfOk, Ok};
ghost use Rattle.std.specs.String.{string_bytes};
ghost use Rattle.acl_host.specs.Files.{names_under};
ghost use Rattle.acl_text.specs.Answers.{Answers, Gives, fault_told};
ghost use Rattle.acl_host.specs.WholeFiles.{ReadsFiles, read_told};
ghost use Rattle.acl_load.specs.LoadFaults.{LoadsFiles, load_told};
ghost use Rattle.acl_load.specs.Loading.{AnswersWith, Loads, naming_paths, both_kinds, definitions_of};

use crate::adding::add_all;
use crate::load_faults::LoadFault;
use crate::naming_paths::naming_paths;
use crate::slips::slip_fault;
use acl_host::{ReadFault, Tree, listing};
use acl_naming::{Base, Checked, NamingKind, check_base};
use acl_text::{Code, Fault, Refusal, Rejection};
use std::alloc::Global;

// The most naming files of a folder.
const MOST_FILES: usize = 4096;

/// What the naming files of the folder define together, each name defined and none reaching itself.
///
/// The folder's names are listed once. Those that end in `.net` are read first, in byte order, each whole and
/// before the next, and their networks are defined in this order; then those that end in `.svc`, and their
/// services. The first fault is given: `NoFile` where nothing lies under the folder, `TooManyFiles` at the folder
/// for more than 4,096 naming files, `NoFile` or `TooLong` (past 4,194,304 bytes) at a file, and each slip of
/// `read_networks` and `read_services` at its file and line. Where all files were read, `Undefined` and `Cycle`
/// are the faults of `check`. `List` is given only where the tree's count of failed listings rose, and `Read`
/// only where its count of failed readings did.
pub fn load_definitions<T: Tree>(
    alloc: Global,
    tree: &mut T,
    folder: &str,
) -> Result<Checked, LoadFault>
    ensures loads { IfSome (T.files tree.old) (λ files.
        Answers load_told (λ checked. checked) result (Loads folder.now files)) }
    ensures looks { LoadsFiles T.Tree tree.old tree.new result }
{
    let Definitions { base, paths } = read_definitions(alloc, tree, folder)?;
    Ok(check_definitions(alloc, paths.as_slice(), base)?)
}

// What the naming files of a folder define, and the paths of these files.
#[derive(Drop)]
struct Definitions {
    base: Base,
    paths: Vec<String>,
}

#[tactic(auto, unfolding(crate::specs::Loading::definitions_of))]
fn read_definitions<T: Tree>(
    alloc: Global,
    tree: &mut T,
    folder: &str,
) -> Result<Definitions, LoadFault>
    ensures gives { IfSome (T.files tree.old) (λ files. Answers load_told (λ read. read.base) result
        (λ answer. definitions_of folder.now files ≡ answer)) }
    ensures paths { IfSome (T.files tree.old) (λ files. IfOk result (λ read.
        map string_bytes read.paths.items
        ≡ naming_paths folder.now (names_under folder.now files))) }
    ensures looks { LoadsFiles T.Tree tree.old tree.new result }
{
    let names = listing(alloc, tree, folder)?;
    let paths = naming_paths(alloc, folder, names.as_slice())?;
    if paths.all.len() > MOST_FILES {
        return Err(LoadFault::Fault(Fault::of_file(alloc, Code::TooManyFiles, folder)?));
    }
    let all = paths.all.as_slice();
    let (networks, services) = all.split_at(paths.networks);
    let base = read_all(alloc, tree, all, networks, services)?;
    Ok(Definitions {
        base,
        paths: paths.all,
    })
}

// What the files of networks and those of services define together, both of which stand among all paths.
#[tactic(auto, unfolding(crate::specs::Loading::both_kinds))]
fn read_all<T: Tree>(
    alloc: Global,
    tree: &mut T,
    paths: &[String],
    networks: &[String],
    services: &[String],
) -> Result<Base, ReadFault>
    requires { length networks.now + length services.now ≤ 4096 }
    ensures gives { IfSome (T.files tree.old) (λ files. Gives read_told result
        (both_kinds (map string_bytes paths.now) (map string_bytes networks.now)
        (map string_bytes services.now) files)) }
    ensures reads { ReadsFiles T.Tree tree.old tree.new result }
{
    let empty = Base::new(alloc);
    let base = add_all(alloc, tree, paths, NamingKind::Networks, 0, networks, empty)?;
    let first = networks.len() as u32;
    add_all(
        alloc,
        tree,
        paths,
        NamingKind::Services,
        first,
        services,
        base,
    )
}

// The base, where each of its names is defined and none reaches itself.
fn check_definitions(alloc: Global, paths: &[String], base: Base) -> Result<Checked, Rejection>
    ensures { Answers fault_told (λ checked. checked) result
        (AnswersWith (map string_bytes paths.now) (Ok base)) }
{
    match check_base(base) {
        Ok(checked) => Ok(checked),
        Err(Refusal::Slip(slip)) => Err(Rejection::Fault(slip_fault(alloc, paths, slip)?)),
        Err(Refusal::Memory) => Err(Rejection::Memory),
    }
}
