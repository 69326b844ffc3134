ghost use Rattle.acl_load.specs.LoadFaults.{LoadsFiles};
ghost use Rattle.acl_options.specs.CodeViews.{tool_view};
ghost use Rattle.acl_run.specs.Finishing.{IsTextOf};
ghost use Rattle.acl_run.specs.PolicyAnswers.{Makes};
ghost use Rattle.acltool_core.specs.AnsweringSteps.{IsAskable};
ghost use Rattle.acltool_core.specs.ToolRuns.{Answers, MeansAnswer, told_text};

use crate::dead_telling::tell_dead;
use crate::listing::list_targets;
use crate::restoring::restore;
use acl_host::{Day, Tree};
use acl_load::LoadFault;
use acl_options::ToolCommand;
use acl_text::Whole;
use std::alloc::Global;

/// The text of the answer to a command on that day, or the first fault; nothing where there is nothing to tell.
pub fn answer<T: Tree>(
    alloc: Global,
    command: &ToolCommand<'_>,
    today: Day,
    tree: &mut T,
) -> Result<Option<Whole>, LoadFault>
    requires { IsAskable (tool_view command.now) }
    ensures makes { Makes (Answers (tool_view command.now) today) (IsTextOf told_text MeansAnswer)
        (T.files tree.old) result }
    ensures looks { LoadsFiles T.Tree tree.old tree.new result }
{
    match command {
        ToolCommand::Speedway(inputs, family) => restore(alloc, inputs, *family, today, tree),
        ToolCommand::Dead(inputs) => tell_dead(alloc, inputs, today, tree),
        ToolCommand::Standard(inputs, first) => list_targets(alloc, inputs, *first, today, tree),
    }
}
