ghost use Rattle.std.specs.Prelude.{List, zip};
ghost use Rattle.acl_text.specs.Refusals.{Judges, first_in};
ghost use Rattle.acl_host.specs.declared.days.Day.{Day};
ghost use Rattle.acl_target.specs.declared.targets.Target.{Target};
ghost use Rattle.acl_shade.specs.ShadedPlaces.{AreShadedPlaces};
ghost use Rattle.acl_report.specs.ShadedLists.{AreShadedIn, AreShadedLists};
ghost use Rattle.acl_job.specs.ShadedSlips.{block_shaded, policy_shaded, terms_shaded};

use acl_load::{ResolvedPolicy, Terms};
use acl_report::ShadedLists;
use acl_shade::shading_term;
use acl_target::Targets;
use acl_terms::Term;
use acl_text::{Code, Items, Refusal};
use std::alloc::Global;

// Refuses the first term of a block that an earlier one shades.
fn refuse_in_block(alloc: Global, terms: &[Term], places: &[Option<usize>]) -> Result<(), Refusal>
    ensures { (targets : List Target) (today : Day)
        → AreShadedPlaces targets today terms.now places.now
        → Judges result (terms_shaded targets today terms.now) }
{
    for (place, term) in terms.iter().enumerate() {
        if let Some(other) = shading_term(terms, places, place) {
            return Err(Refusal::at(alloc, Code::Shaded, term.place, other.name.as_slice()));
        }
    }
    Ok(())
}

// The same of each block, of which the targets and the terms stand at its place.
fn refuse_in_blocks(
    alloc: Global,
    targets: &[Targets],
    lists: &[Terms],
    shaded: &[Items<Option<usize>>],
) -> Result<(), Refusal>
    ensures { (today : Day) → AreShadedLists today (zip targets.now lists.now) shaded.now
        → Judges result (first_in (block_shaded today) (zip targets.now lists.now)) }
{
    let [_, more @ ..] = targets else {
        return Ok(());
    };
    let [terms, others @ ..] = lists else {
        return Ok(());
    };
    let [places, rest @ ..] = shaded else {
        return Ok(());
    };
    refuse_in_block(alloc, terms.as_slice(), places.as_slice())?;
    refuse_in_blocks(alloc, more, others, rest)
}

/// Refuses the policy's first term that an earlier one of its block shades that day.
pub fn refuse_shaded(
    alloc: Global,
    policy: &ResolvedPolicy,
    shaded: &ShadedLists,
) -> Result<(), Refusal>
    ensures { (today : Day) → AreShadedIn today policy.now shaded.now
        → Judges result (policy_shaded today policy.now) }
{
    let targets = policy.targets.as_slice();
    refuse_in_blocks(alloc, targets, policy.terms.as_slice(), shaded.as_slice())
}
