ghost use Rattle.std.specs.Prelude.{◌≡◌, [], IfOk};
ghost use Rattle.std.specs.List.{All};
ghost use Rattle.std.specs.Option.{option_map};
ghost use Rattle.acl_policy.specs.Conditions.{IsPolicy};
ghost use Rattle.acl_load.specs.LoadedPolicies.{AreResolvedIn};
ghost use Rattle.acl_load.specs.LoadFaults.{LoadsFiles};
ghost use Rattle.acl_options.specs.CodeViews.{inputs_view};
ghost use Rattle.acl_run.specs.PolicyAnswers.{Makes};
ghost use Rattle.acl_filters.specs.PlatformFiles.{AreApart};
ghost use Rattle.acltool_core.specs.RestorePlans.{IsReady, Restores};
ghost use Rattle.acl_run.specs.Finishing.{text_in};
ghost use Rattle.acltool_core.specs.RestoringSteps.{AreRestorable, MakesOf, text_if};

use crate::restored_targets::Restored;
use acl_filters::chosen_filters;
use acl_host::{Day, Tree};
use acl_load::{LoadFault, Loaded, load, policy_fault};
use acl_options::Inputs;
use acl_packet::Family;
use acl_platform::{Filter, write_all};
use acl_text::{Memory, Refusal, Rejection, Whole};
use gen_acltool::Speedway;
use std::alloc::Global;

// The text of the filters, where there are some.
fn text_of(alloc: Global, filters: &[Filter]) -> Result<Option<Whole>, Memory>
    requires { AreRestorable filters.now }
    ensures { IfOk result (λ text. text_in text ≡ text_if filters.now) }
{
    if filters.is_empty() {
        return Ok(None);
    }
    let mut text = Whole::new(alloc);
    match write_all(alloc, &Speedway, filters, &mut text) {
        Ok(()) => Ok(Some(text)),
        Err(_) => Err(Memory),
    }
}

// The text of the policy's targets, or the first fault of them.
fn restore_loaded(
    alloc: Global,
    family: Family,
    today: Day,
    loaded: &Loaded,
) -> Result<Option<Whole>, Rejection>
    requires fits { IsPolicy loaded.now.policy }
    requires terms { AreResolvedIn loaded.now.definitions loaded.now.policy.blocks loaded.now.terms }
    ensures { MakesOf family today loaded.now result }
{
    match chosen_filters(alloc, &Restored { family }, today, loaded) {
        Ok(filters) => Ok(text_of(alloc, filters.as_slice())?),
        Err(Refusal::Slip(slip)) => {
            Err(Rejection::Fault(policy_fault(alloc, &loaded.sources, slip)?))
        }
        Err(Refusal::Memory) => Err(Rejection::Memory),
    }
}

/// The text for iptables-restore of the policy's iptables targets of the family on that day, or the first fault; nothing
/// where there is no such target.
pub fn restore<T: Tree>(
    alloc: Global,
    inputs: &Inputs<'_>,
    family: Family,
    today: Day,
    tree: &mut T,
) -> Result<Option<Whole>, LoadFault>
    ensures makes { Makes (Restores (inputs_view inputs.now) family today) IsReady (T.files tree.old) result }
    ensures looks { LoadsFiles T.Tree tree.old tree.new result }
{
    let loaded = load(alloc, tree, inputs.definitions, inputs.policy)?;
    Ok(restore_loaded(alloc, family, today, &loaded)?)
}
