ghost use Rattle.std.specs.Prelude.{◌≡◌, map, None};
ghost use Rattle.std.specs.String.{string_bytes};
ghost use Rattle.aclgen_core.specs.Runs.{Runs};
ghost use Rattle.acl_run.specs.Worlds.{world_of};

use crate::acting::carry_out;
use crate::deciding::decide;
use crate::fault_lines::{outside_line, usage_line};
use crate::workload_runs::run_workload;
use acl_host::{Clock, Sink, Tree};
use acl_options::read_workload;
use acl_run::{Decision, Ended, refuse, tell_outside};
use std::alloc::Global;
use std::mem::forget;

/// The whole job: compiles what the words ask for, or the workload.
///
/// The words are those behind the program's name. Where they are `--workload N`, as `acl_options::read_workload` reads
/// them, the workload of N terms is compiled in memory, and the tree and the clock are not called (`EndsWorkload`). Else
/// they are read as `acl_options::read_options` reads them: naming files and policy are read, the clock is asked where the
/// words name no day, and the filters and the report are written. `Keeps` has what each ending means. The filters are not let
/// go: a program is to end with it.
pub fn aclgen<T: Tree, O: Sink, E: Sink, C: Clock>(
    alloc: Global,
    words: &[String],
    tree: &mut T,
    out: &mut O,
    err: &mut E,
    clock: &mut C,
) -> Ended
    requires { T.begun tree.old ≡ None }
    ensures { Runs (map string_bytes words.now)
        (world_of T.Tree O.Sink E.Sink C.Clock tree.old out.old err.old clock.old)
        (world_of T.Tree O.Sink E.Sink C.Clock tree.new out.new err.new clock.new) result }
{
    if let Some(terms) = read_workload(words) {
        return run_workload(alloc, terms, out, err);
    }
    match decide(alloc, words, tree, clock) {
        Decision::Usage => refuse(err, usage_line().as_bytes(), Ended::Usage),
        Decision::Refused(fault, line) => refuse(err, line.as_slice(), Ended::Rejected(fault)),
        Decision::Planned(work) => {
            let ended = carry_out(alloc, &work, tree, out, err);
            // The process ends next, and the system takes all of its memory at once.
            forget(work);
            ended
        }
        Decision::Outside(which) => tell_outside(err, outside_line(which), which),
        Decision::Memory => Ended::Memory,
    }
}
