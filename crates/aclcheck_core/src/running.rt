ghost use Rattle.std.specs.Prelude.{◌≡◌, map, None};
ghost use Rattle.std.specs.String.{string_bytes};
ghost use Rattle.aclcheck_core.specs.CheckRuns.{RunsCheck};
ghost use Rattle.acl_run.specs.Worlds.{world_of};

use crate::deciding::decide;
use crate::laws::answers_are_one;
use crate::program::AclCheck;
use acl_host::{Clock, Sink, Tree};
use acl_run::{Ended, finish};
use std::alloc::Global;

/// The whole job: says what a policy, or a section of a file, does to one packet.
///
/// The words are those behind the program's name, read as `acl_options::read_check_command` reads them. For `policy` the
/// naming files and the policy are read, the clock is asked where the words name no day, and a line is written for each
/// target whose families hold the packet's. For `text` one file is read, and a line on its section is written. The lines
/// go to standard output in one write, and no file is written. `RunsCheck` has what each ending means.
pub fn aclcheck<T: Tree, O: Sink, E: Sink, C: Clock>(
    alloc: Global,
    words: &[String],
    tree: &mut T,
    out: &mut O,
    err: &mut E,
    clock: &mut C,
) -> Ended
    requires { T.begun tree.old ≡ None }
    ensures { RunsCheck (map string_bytes words.now)
        (world_of T.Tree O.Sink E.Sink C.Clock tree.old out.old err.old clock.old)
        (world_of T.Tree O.Sink E.Sink C.Clock tree.new out.new err.new clock.new) result }
{
    answers_are_one();
    let decision = decide(alloc, words, tree, clock);
    finish::<AclCheck, O, E>(decision, out, err)
}
