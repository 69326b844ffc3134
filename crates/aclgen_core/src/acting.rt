ghost use Rattle.std.specs.Prelude.{◌≡◌, None};
ghost use Rattle.acl_job.specs.Works.{AreWritable};
ghost use Rattle.acl_run.specs.Worlds.{disk, stream};
ghost use Rattle.aclgen_core.specs.ActingSteps.{Acts, ActsAlone};

use crate::fault_lines::outside_line;
use acl_host::{Sink, Tree, WriteFault};
use acl_job::{Work, write_files};
use acl_run::{Ended, Which, report_on, tell_outside};
use std::alloc::Global;

/// Writes the files, and then the report.
pub fn carry_out<T: Tree, O: Sink, E: Sink>(
    alloc: Global,
    work: &Work,
    tree: &mut T,
    out: &mut O,
    err: &mut E,
) -> Ended
    requires begun { T.begun tree.old ≡ None }
    requires writable { AreWritable work.now.files.items }
    ensures acts { Acts work.now
        (disk T.Tree tree.old) (disk T.Tree tree.new)
        (stream O.Sink out.old) (stream O.Sink out.new)
        (stream E.Sink err.old) (stream E.Sink err.new) result }
    ensures alone { ActsAlone (disk T.Tree tree.old) (disk T.Tree tree.new)
        (stream O.Sink out.old) (stream O.Sink out.new)
        (stream E.Sink err.old) (stream E.Sink err.new) result }
{
    match write_files(alloc, tree, work.files.as_slice()) {
        Ok(()) => report_on(work.report.as_slice(), outside_line(Which::Out), out, err),
        Err(WriteFault::Failed) => tell_outside(err, outside_line(Which::Write), Which::Write),
        Err(WriteFault::Memory) => Ended::Memory,
    }
}
