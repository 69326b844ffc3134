ghost use Rattle.std.specs.Prelude.{◌≡◌, ◌≤◌, IfOk, None};
ghost use Rattle.acl_memory.specs.MemoryTrees.{contents};
ghost use Rattle.acl_job.specs.Works.{AreWritable};
ghost use Rattle.aclgen_core.specs.WorkloadPlans.{MakesWorkload};
ghost use Rattle.aclgen_core.specs.WorkloadFiles.{workload_files};

use crate::workloads::workload;
use acl_host::Day;
use acl_job::{Work, make_work, write_files};
use acl_load::LoadFault;
use acl_memory::MemTree;
use acl_options::Options;
use acl_text::Memory;
use std::alloc::Global;

// 2026-01-01
const TODAY: Day = Day { number: 20_454 };

// The workload's naming files and its policy, as files in memory.
fn workload_tree(alloc: Global, terms: u32) -> Result<MemTree, Memory>
    requires least { 1 ≤ terms }
    requires most { terms ≤ 1024 }
    ensures files { IfOk result (λ tree. (contents tree).files ≡ workload_files terms) }
    ensures begun { IfOk result (λ tree. (contents tree).begun ≡ None) }
{
    let texts = workload(alloc, terms)?;
    let mut tree = MemTree::new(alloc);
    tree.put_file("def/w.net", texts.networks.as_slice())?;
    tree.put_file("def/w.svc", texts.services.as_slice())?;
    tree.put_file("pol/w.pol", texts.policy.as_slice())?;
    Ok(tree)
}

// What is to be written of the workload. It has no fault, and a tree in memory lists and reads: only memory may be wanting.
fn plan_workload(alloc: Global, terms: u32, tree: &mut MemTree) -> Result<Work, Memory>
    requires least { 1 ≤ terms }
    requires most { terms ≤ 1024 }
    requires files { (contents tree.old).files ≡ workload_files terms }
    ensures made { IfOk result (MakesWorkload terms) }
    ensures writable { IfOk result (λ work. AreWritable work.files.items) }
    ensures begun { (contents tree.new).begun ≡ (contents tree.old).begun }
{
    let options = Options {
        policy: "pol/w.pol",
        definitions: "def",
        output: "out",
        date: None,
        exp_info: 2,
        shade_check: false,
    };
    match make_work(alloc, &options, TODAY, tree) {
        Ok(work) => Ok(work),
        Err(LoadFault::Fault(_)) => unreachable!(),
        Err(LoadFault::List | LoadFault::Read | LoadFault::Memory) => Err(Memory),
    }
}

/// The workload of so many terms, 1 to 1024, is compiled in memory: its files are written into a tree of its own. What
/// was written is given, with its report.
pub fn compile_workload(alloc: Global, terms: u32) -> Result<Work, Memory>
    requires least { 1 ≤ terms }
    requires most { terms ≤ 1024 }
    ensures { IfOk result (MakesWorkload terms) }
{
    let mut tree = workload_tree(alloc, terms)?;
    let work = plan_workload(alloc, terms, &mut tree)?;
    match write_files(alloc, &mut tree, work.files.as_slice()) {
        Ok(()) => Ok(work),
        Err(_) => Err(Memory),
    }
}
