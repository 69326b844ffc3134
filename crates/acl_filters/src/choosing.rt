ghost use Rattle.std.specs.Prelude.{◌≡◌, ◌∷◌, [], Bool, List, Option, map, true, OnOk};
ghost use Rattle.std.specs.List.{All};
ghost use Rattle.acl_text.specs.declared.faults.Slip.{Slip};
ghost use Rattle.acl_host.specs.declared.days.Day.{Day as OneDay};
ghost use Rattle.acl_target.specs.TargetData.{IsTarget};
ghost use Rattle.acl_policy.specs.Conditions.{IsBlock, IsPolicy};
ghost use Rattle.acl_policy.specs.RawTerms.{RawTerm};
ghost use Rattle.acl_terms.specs.declared.terms.Term.{Term};
ghost use Rattle.acl_expand.specs.KnownRules.{AreKnown};
ghost use Rattle.acl_filters.specs.AskedFilters.{FilterRequest};
ghost use Rattle.acl_filters.specs.ChoosingSteps.{Adds};
ghost use Rattle.acl_filters.specs.ChosenFilters.{GivesChosen, GivesFilter};
ghost use Rattle.acl_filters.specs.FilterRequests.{request_of, requests_in, requests_of};

use acl_expand::KnownRules;
use acl_host::Day;
use acl_load::{Loaded, Terms};
use acl_platform::Filter;
use acl_policy::{Block, Target};
use acl_terms::Term;
use acl_text::{Items, Refusal};
use std::alloc::Global;

/// Which targets of a policy are to have a filter, and what is wrong with one of them.
pub trait Choice {
    ghost chosen: { Self → FilterRequest → Bool };

    ghost slip: { Self → OneDay → FilterRequest → Option Slip };

    /// Whether the target is to have a filter.
    fn is_chosen(&self, target: &Target) -> bool
        ensures { (written : List RawTerm) (terms : List Term)
            → result ≡ chosen self.now (request_of written terms target.now) };

    /// The filter of the terms on a target that is to have one, or the slip.
    fn filter_on(
        &self,
        alloc: Global,
        today: Day,
        target: &Target,
        terms: &[Term],
        known: &mut KnownRules,
    ) -> Result<Filter, Refusal>
        requires sound { IsTarget target.now }
        requires chosen { chosen self.now (request_of [] terms.now target.now) ≡ true }
        requires known { AreKnown today terms.now known.old }
        ensures gives { (written : List RawTerm) → GivesFilter (slip self.now today) today
            (request_of written terms.now target.now) result }
        ensures known { OnOk result (AreKnown today terms.now known.new) };
}

// Adds the filter of the terms on the target, where it is to have one.
fn add_filter<C: Choice>(
    alloc: Global,
    choice: &C,
    today: Day,
    target: &Target,
    terms: &[Term],
    known: &mut KnownRules,
    filters: &mut Items<Filter>,
) -> Result<(), Refusal>
    requires sound { IsTarget target.now }
    requires known { AreKnown today terms.now known.old }
    ensures adds { (written : List RawTerm) → Adds (C.chosen choice.now) (C.slip choice.now today) today
        (request_of written terms.now target.now ∷ []) filters.old filters.new result }
    ensures known { OnOk result (AreKnown today terms.now known.new) }
{
    if !choice.is_chosen(target) {
        return Ok(());
    }
    let filter = choice.filter_on(alloc, today, target, terms, known)?;
    Ok(filters.push(filter)?)
}

// Adds a filter of the terms for each target that is to have one, in order.
fn add_filters<C: Choice>(
    alloc: Global,
    choice: &C,
    today: Day,
    targets: &[Target],
    terms: &[Term],
    known: &mut KnownRules,
    filters: &mut Items<Filter>,
) -> Result<(), Refusal>
    requires sound { All IsTarget targets.now }
    requires known { AreKnown today terms.now known.old }
    ensures { (written : List RawTerm) → Adds (C.chosen choice.now) (C.slip choice.now today) today
        (map (request_of written terms.now) targets.now) filters.old filters.new result }
{
    match targets {
        [] => Ok(()),
        [target, more @ ..] => {
            add_filter(alloc, choice, today, target, terms, known, filters)?;
            add_filters(alloc, choice, today, more, terms, known, filters)
        }
    }
}

// Adds the filters of each block, whose terms are those of the list at its place.
fn add_blocks<C: Choice>(
    alloc: Global,
    choice: &C,
    today: Day,
    blocks: &[Block],
    lists: &[Terms],
    filters: &mut Items<Filter>,
) -> Result<(), Refusal>
    requires sound { All IsBlock blocks.now }
    ensures { Adds (C.chosen choice.now) (C.slip choice.now today) today
        (requests_in blocks.now lists.now) filters.old filters.new result }
{
    let [block, more @ ..] = blocks else {
        return Ok(());
    };
    let [terms, others @ ..] = lists else {
        return Ok(());
    };
    let targets = block.targets.as_slice();
    let mut known = KnownRules::new(alloc);
    add_filters(
        alloc,
        choice,
        today,
        targets,
        terms.as_slice(),
        &mut known,
        filters,
    )?;
    add_blocks(alloc, choice, today, more, others, filters)
}

/// The filters of the policy's targets that are to have one, in order, or the first slip of one of them.
pub fn chosen_filters<C: Choice>(
    alloc: Global,
    choice: &C,
    today: Day,
    loaded: &Loaded,
) -> Result<Items<Filter>, Refusal>
    requires { IsPolicy loaded.now.policy }
    ensures { GivesChosen (C.chosen choice.now) (C.slip choice.now today) today (requests_of loaded.now) result }
{
    let blocks = loaded.policy.blocks.as_slice();
    let mut filters = Items::new(alloc);
    add_blocks(
        alloc,
        choice,
        today,
        blocks,
        loaded.terms.as_slice(),
        &mut filters,
    )?;
    Ok(filters)
}
