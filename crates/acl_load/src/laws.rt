ghost use Rattle.acl_load.specs.LoadedPolicies.{AnswersAreOne, AnswersAreThere, DefinitionsAreThere, LoadedPoliciesStand};

/// A law: a folder of naming files and a policy have at most one answer.
pub fn answers_are_one()
    ensures { AnswersAreOne }
{}

/// A law: a folder of naming files and a policy have an answer, whatever the files hold.
pub fn answers_are_there()
    ensures { AnswersAreThere }
{}

/// A law: a folder of naming files has an answer, whatever the files hold.
pub fn definitions_are_there()
    ensures { DefinitionsAreThere }
{}

/// A law: what is loaded is a policy whose terms have no slip, and each of them is resolved.
pub fn loaded_policies_stand()
    ensures { LoadedPoliciesStand }
{}
