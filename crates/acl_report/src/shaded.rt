ghost use Rattle.std.specs.Prelude.{zip, IfOk, OnOk};
ghost use Rattle.acl_report.specs.ShadedLists.{AddsShadedLists, AreShadedIn};

use acl_host::Day;
use acl_load::{ResolvedPolicy, Terms};
use acl_shade::shaded_places;
use acl_target::Targets;
use acl_text::{Items, Memory};
use std::alloc::Global;

/// For each block of a policy a list of its terms: the place of the first one that shades the term.
pub type ShadedLists = Items<Items<Option<usize>>>;

// Adds the lists of the blocks, of each of which the targets and the terms stand at its place.
fn add_lists(
    alloc: Global,
    today: Day,
    targets: &[Targets],
    lists: &[Terms],
    shaded: &mut ShadedLists,
) -> Result<(), Memory>
    ensures { OnOk result (AddsShadedLists today (zip targets.now lists.now) shaded.old shaded.new) }
{
    let [first, more @ ..] = targets else {
        return Ok(());
    };
    let [terms, others @ ..] = lists else {
        return Ok(());
    };
    shaded.push(shaded_places(alloc, terms.as_slice(), first.as_slice(), today)?)?;
    add_lists(alloc, today, more, others, shaded)
}

/// Which terms of the policy shade others that day. It fails only where memory is wanted.
pub fn shaded_lists(
    alloc: Global,
    policy: &ResolvedPolicy,
    today: Day,
) -> Result<ShadedLists, Memory>
    ensures { IfOk result (AreShadedIn today policy.now) }
{
    let mut shaded = Items::new(alloc);
    let targets = policy.targets.as_slice();
    add_lists(alloc, today, targets, policy.terms.as_slice(), &mut shaded)?;
    Ok(shaded)
}
