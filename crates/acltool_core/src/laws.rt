ghost use Rattle.std.specs.Prelude.{◌≡◌, List, Result};
ghost use Rattle.acl_packet.specs.declared.addresses.Family.{Family};
ghost use Rattle.acl_text.specs.declared.faults.Fault.{Fault};
ghost use Rattle.acl_host.specs.declared.days.Day.{Day};
ghost use Rattle.acl_host.specs.Files.{File};
ghost use Rattle.acl_options.specs.Commands.{Inputs};
ghost use Rattle.acltool_core.specs.DeadLaws.{DeadAnswersAreOne};
ghost use Rattle.acltool_core.specs.ListLaws.{ListAnswersAreOne, ListAnswersAreThere};
ghost use Rattle.acltool_core.specs.RestorePlans.{RestorePlan, Restores};

/// A law: there is one answer at most of `speedway`.
pub fn restored_answers_are_one()
    ensures { (inputs : Inputs) → (family : Family) → (today : Day) → (files : List File)
        → (a : Result RestorePlan Fault) → (b : Result RestorePlan Fault)
        → Restores inputs family today files a → Restores inputs family today files b → a ≡ b }
{}

/// A law: there is an answer of `speedway`, whatever the files are.
pub fn restored_answers_are_there()
    ensures { (inputs : Inputs) → (family : Family) → (today : Day) → (files : List File)
        → (answer : Result RestorePlan Fault) × Restores inputs family today files answer }
{}

/// A law: there is one answer at most of `standard`.
pub fn list_answers_are_one()
    ensures { ListAnswersAreOne }
{}

/// A law: there is an answer of `standard`, whatever the files are.
pub fn list_answers_are_there()
    ensures { ListAnswersAreThere }
{}

/// A law: there is one answer at most of `dead`.
pub fn dead_answers_are_one()
    ensures { DeadAnswersAreOne }
{
    acl_dead::answers_are_one();
}
