ghost use Rattle.std.specs.Prelude.{◌≡◌, ◌≤◌, IfOk};
ghost use Rattle.acl_policy.specs.Conditions.{IsPolicy};
ghost use Rattle.acl_load.specs.LoadedPolicies.{AreResolvedIn};
ghost use Rattle.acl_load.specs.LoadFaults.{LoadsFiles};
ghost use Rattle.acl_options.specs.CodeViews.{inputs_view};
ghost use Rattle.acl_run.specs.Finishing.{text_in};
ghost use Rattle.acl_run.specs.PolicyAnswers.{Makes};
ghost use Rattle.acltool_core.specs.ListPlans.{IsReady, Lists};
ghost use Rattle.acltool_core.specs.ListingSteps.{AreListable, MakesOf, text_if};

use crate::listed_targets::Listed;
use acl_filters::chosen_filters;
use acl_host::{Day, Tree};
use acl_load::{LoadFault, Loaded, load, policy_fault};
use acl_options::Inputs;
use acl_platform::{Filter, write_all};
use acl_text::{Memory, Refusal, Rejection, Whole};
use gen_acltool::Standard;
use std::alloc::Global;

// The text of the filters, where there are some.
fn text_of(alloc: Global, first: u8, filters: &[Filter]) -> Result<Option<Whole>, Memory>
    requires { AreListable first filters.now }
    ensures { IfOk result (λ text. text_in text ≡ text_if first filters.now) }
{
    if filters.is_empty() {
        return Ok(None);
    }
    let mut text = Whole::new(alloc);
    match write_all(alloc, &Standard { first }, filters, &mut text) {
        Ok(()) => Ok(Some(text)),
        Err(_) => Err(Memory),
    }
}

// The text of the policy's targets, or the first fault of them.
fn list_loaded(
    alloc: Global,
    first: u8,
    today: Day,
    loaded: &Loaded,
) -> Result<Option<Whole>, Rejection>
    requires first { 1 ≤ first }
    requires fits { IsPolicy loaded.now.policy }
    requires terms { AreResolvedIn loaded.now.definitions loaded.now.policy.blocks loaded.now.terms }
    ensures { MakesOf first today loaded.now result }
{
    match chosen_filters(alloc, &Listed { first }, today, loaded) {
        Ok(filters) => Ok(text_of(alloc, first, filters.as_slice())?),
        Err(Refusal::Slip(slip)) => {
            Err(Rejection::Fault(policy_fault(alloc, &loaded.sources, slip)?))
        }
        Err(Refusal::Memory) => Err(Rejection::Memory),
    }
}

/// The text of the standard lists of the policy's Cisco targets of IPv4 on that day, numbered from the first number on, or
/// the first fault; nothing where there is no such target.
pub fn list_targets<T: Tree>(
    alloc: Global,
    inputs: &Inputs<'_>,
    first: u8,
    today: Day,
    tree: &mut T,
) -> Result<Option<Whole>, LoadFault>
    requires { 1 ≤ first }
    ensures makes { Makes (Lists (inputs_view inputs.now) first today) IsReady (T.files tree.old) result }
    ensures looks { LoadsFiles T.Tree tree.old tree.new result }
{
    let loaded = load(alloc, tree, inputs.definitions, inputs.policy)?;
    Ok(list_loaded(alloc, first, today, &loaded)?)
}
