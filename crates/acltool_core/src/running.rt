ghost use Rattle.std.specs.Prelude.{◌≡◌, map, None};
ghost use Rattle.std.specs.String.{string_bytes};
ghost use Rattle.acl_run.specs.Worlds.{world_of};
ghost use Rattle.acltool_core.specs.ToolRuns.{RunsTool};

use crate::deciding::decide;
use crate::laws::dead_answers_are_one;
use crate::program::AclTool;
use acl_host::{Clock, Sink, Tree};
use acl_run::{Ended, finish};
use std::alloc::Global;

/// The whole run: the words are read as `acl_options::read_tool_command` reads them, the naming files and the policy are
/// loaded, the clock is asked where the words name no day, and the answer goes to standard output in one write. No file is
/// written. `RunsTool` has what each ending means.
pub fn acltool<T: Tree, O: Sink, E: Sink, C: Clock>(
    alloc: Global,
    words: &[String],
    tree: &mut T,
    out: &mut O,
    err: &mut E,
    clock: &mut C,
) -> Ended
    requires { T.begun tree.old ≡ None }
    ensures { RunsTool (map string_bytes words.now)
        (world_of T.Tree O.Sink E.Sink C.Clock tree.old out.old err.old clock.old)
        (world_of T.Tree O.Sink E.Sink C.Clock tree.new out.new err.new clock.new) result }
{
    dead_answers_are_one();
    let decision = decide(alloc, words, tree, clock);
    finish::<AclTool, O, E>(decision, out, err)
}
