ghost use Rattle.std.specs.Prelude.{◌≡◌, None, map};
ghost use Rattle.std.specs.String.{string_bytes};
ghost use Rattle.aclcheck_core.specs.Programs.{EndsWithoutWords, RunsWithStatus};
ghost use Rattle.acl_run.specs.Worlds.{stream, world_of};

use crate::program::AclCheck;
use crate::running::aclcheck;
use acl_host::{Clock, Sink, Tree};
use acl_run::{Program, end_without_words, status_of};
use std::alloc::Global;

/// The whole run, and the exit status of the program: that of the ending, as `aclcheck` tells it.
pub fn run_status<T: Tree, O: Sink, E: Sink, C: Clock>(
    alloc: Global,
    words: &[String],
    tree: &mut T,
    out: &mut O,
    err: &mut E,
    clock: &mut C,
) -> u8
    requires { T.begun tree.old ≡ None }
    ensures { RunsWithStatus (map string_bytes words.now)
        (world_of T.Tree O.Sink E.Sink C.Clock tree.old out.old err.old clock.old)
        (world_of T.Tree O.Sink E.Sink C.Clock tree.new out.new err.new clock.new) result }
{
    status_of(&aclcheck(alloc, words, tree, out, err, clock))
}

/// The same where the machine gives no words: memory was wanted for them, or some are no text, and then they are no
/// command line.
pub fn status_without_words<E: Sink>(wanted_memory: bool, err: &mut E) -> u8
    ensures { EndsWithoutWords wanted_memory
        (stream E.Sink err.old) (stream E.Sink err.new) result }
{
    status_of(&end_without_words(AclCheck::usage_line(), wanted_memory, err))
}
