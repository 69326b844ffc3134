ghost use Rattle.aclgen_core.specs.LoadedWorkloads.{WorkloadsAreLoaded};
ghost use Rattle.aclgen_core.specs.WorkloadPlans.{WorkloadsHaveNoFault};

/// A law: a workload of 1 to 1024 terms is loaded, and its filters can be written, whatever the day.
#[tactic(auto, using(crate::proofs::LoadedWorkloads::workloads_loaded))]
pub fn workloads_are_loaded()
    ensures { WorkloadsAreLoaded }
{}

/// A law: the workload of 1 to 1024 terms has a plan, and so no fault.
#[tactic(auto, using(crate::proofs::WorkloadLaws::workloads_planned))]
pub fn workloads_have_no_fault()
    ensures { WorkloadsHaveNoFault }
{}
