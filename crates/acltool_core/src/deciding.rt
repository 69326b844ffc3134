ghost use Rattle.std.specs.Prelude.{map};
ghost use Rattle.std.specs.String.{string_bytes};
ghost use Rattle.acl_run.specs.Finishing.{IsTextOf};
ghost use Rattle.acl_run.specs.Deciding.{Decides, LooksAlone};
ghost use Rattle.acl_run.specs.Worlds.{disk, watch};
ghost use Rattle.acltool_core.specs.ToolRuns.{MeansAnswer, asked, told_text};

use crate::answering::answer;
use acl_host::{Clock, Tree};
use acl_options::read_tool_command;
use acl_run::{Decision, Which, day_for, decision_on};
use acl_text::Whole;
use std::alloc::Global;

/// Decides what the run is to tell. It looks at the tree, asks the clock where the words name no day, and changes nothing.
pub fn decide<T: Tree, C: Clock>(
    alloc: Global,
    words: &[String],
    tree: &mut T,
    clock: &mut C,
) -> Decision<Option<Whole>>
    ensures decides { Decides (asked (map string_bytes words.now)) (IsTextOf told_text MeansAnswer)
        (disk T.Tree tree.old) (disk T.Tree tree.new)
        (watch C.Clock clock.old) (watch C.Clock clock.new) result }
    ensures alone { LooksAlone result (disk T.Tree tree.old) (disk T.Tree tree.new)
        (watch C.Clock clock.old) (watch C.Clock clock.new) }
{
    let command = match read_tool_command(alloc, words) {
        Ok(Some(command)) => command,
        Ok(None) => return Decision::Usage,
        Err(_) => return Decision::Memory,
    };
    let Ok(today) = day_for(command.date(), clock) else {
        return Decision::Outside(Which::Clock);
    };
    match answer(alloc, &command, today, tree) {
        Ok(text) => Decision::Planned(text),
        Err(fault) => decision_on(alloc, fault),
    }
}
