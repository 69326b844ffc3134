ghost use Rattle.std.specs.Prelude.{◌≤◌};
ghost use Rattle.acl_run.specs.Worlds.{stream};
ghost use Rattle.aclgen_core.specs.WorkloadRuns.{RunsWorkload};

use crate::compiling::compile_workload;
use crate::fault_lines::outside_line;
use acl_host::Sink;
use acl_run::{Ended, Which, report_on};
use acl_text::Memory;
use std::alloc::Global;

/// The run of the workload of so many terms, 1 to 1024: its texts are compiled in memory, and the report is written.
pub fn run_workload<O: Sink, E: Sink>(alloc: Global, terms: u32, out: &mut O, err: &mut E) -> Ended
    requires least { 1 ≤ terms }
    requires most { terms ≤ 1024 }
    ensures { RunsWorkload terms
        (stream O.Sink out.old) (stream O.Sink out.new)
        (stream E.Sink err.old) (stream E.Sink err.new) result }
{
    match compile_workload(alloc, terms) {
        Ok(work) => report_on(work.report.as_slice(), outside_line(Which::Out), out, err),
        Err(Memory) => Ended::Memory,
    }
}
