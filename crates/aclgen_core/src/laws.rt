ghost use Rattle.std.specs.Prelude.{ℕ, List};
ghost use Rattle.acl_memory.specs.declared.sure_clocks.SureClock.{SureClock};
ghost use Rattle.acl_memory.specs.declared.sure_sinks.SureSink.{SureSink};
ghost use Rattle.acl_memory.specs.declared.sure_trees.SureTree.{SureTree};
ghost use Rattle.acl_run.specs.declared.endings.Ended.TheVariants as ended;
ghost use Rattle.acl_run.specs.declared.endings.Which.{Which};
ghost use Rattle.aclgen_core.specs.Runs.{Runs};
ghost use Rattle.aclgen_core.specs.SureRuns.{sure_world};

/// A law: over the objects in memory that never fail no run ends with a failure of the outside.
pub fn sure_runs_end_inside()
    ensures { (words : List (List ℕ)) → (tree : SureTree) → (tree_then : SureTree) → (out : SureSink)
        → (out_then : SureSink) → (err : SureSink) → (err_then : SureSink) → (clock : SureClock)
        → (clock_then : SureClock) → (w : Which)
        → Runs words (sure_world tree out err clock) (sure_world tree_then out_then err_then clock_then)
        (ended.Outside w) → ⊥ }
{}
