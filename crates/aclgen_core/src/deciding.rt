ghost use Rattle.std.specs.Prelude.{map};
ghost use Rattle.std.specs.String.{string_bytes};
ghost use Rattle.acl_job.specs.Works.{AreWritable, IsReady};
ghost use Rattle.acl_run.specs.Deciding.{Decides, IfPlanned, LooksAlone};
ghost use Rattle.acl_run.specs.Worlds.{disk, watch};
ghost use Rattle.aclgen_core.specs.Endings.{asked};

use acl_host::{Clock, Tree};
use acl_job::{Work, make_work};
use acl_options::read_options;
use acl_run::{Decision, Which, day_for, decision_on};
use std::alloc::Global;

/// Decides what the run is to do. It looks at the tree, asks the clock where the words name no day, and changes nothing.
pub fn decide<T: Tree, C: Clock>(
    alloc: Global,
    words: &[String],
    tree: &mut T,
    clock: &mut C,
) -> Decision<Work>
    ensures decides { Decides (asked (map string_bytes words.now)) IsReady
        (disk T.Tree tree.old) (disk T.Tree tree.new)
        (watch C.Clock clock.old) (watch C.Clock clock.new) result }
    ensures writable { IfPlanned result (λ work. AreWritable work.files.items) }
    ensures alone { LooksAlone result (disk T.Tree tree.old) (disk T.Tree tree.new)
        (watch C.Clock clock.old) (watch C.Clock clock.new) }
{
    let options = match read_options(alloc, words) {
        Ok(Some(options)) => options,
        Ok(None) => return Decision::Usage,
        Err(_) => return Decision::Memory,
    };
    let Ok(today) = day_for(options.date, clock) else {
        return Decision::Outside(Which::Clock);
    };
    match make_work(alloc, &options, today, tree) {
        Ok(work) => Decision::Planned(work),
        Err(fault) => decision_on(alloc, fault),
    }
}
