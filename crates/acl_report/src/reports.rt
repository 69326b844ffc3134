ghost use Rattle.std.specs.Prelude.{◌≡◌, ◌++◌, true, flat_map, zip, IfOk, OnOk};
ghost use Rattle.acl_report.specs.Reports.{block_lines, terms_report};
ghost use Rattle.acl_report.specs.ShadedLists.{AreShadedIn, AreShadedLists};

use crate::shaded::ShadedLists;
use crate::term_lines::BlockLines;
use acl_host::Day;
use acl_load::{ResolvedPolicy, Terms};
use acl_target::Targets;
use acl_text::{Items, Memory, PutFault, Whole};
use acl_words::Sources;
use std::alloc::Global;

// Puts the lines on the terms of each block, of which the targets and the terms stand at its place.
#[tactic(auto, unfolding(crate::specs::Reports::block_lines))]
fn put_blocks(
    report: &mut Whole,
    sources: &Sources,
    today: Day,
    weeks: u16,
    targets: &[Targets],
    lists: &[Terms],
    shaded: &[Items<Option<usize>>],
) -> Result<(), PutFault>
    requires open { report.old.is_open ≡ true }
    requires shaded { AreShadedLists today (zip targets.now lists.now) shaded.now }
    ensures text { OnOk result (report.new.bytes ≡ report.old.bytes
        ++ flat_map (block_lines sources.now.labels today weeks) (zip targets.now lists.now)) }
    ensures opened { OnOk result (report.new.is_open ≡ true) }
{
    let [first, more @ ..] = targets else {
        return Ok(());
    };
    let [terms, others @ ..] = lists else {
        return Ok(());
    };
    let [places, rest @ ..] = shaded else {
        return Ok(());
    };
    let lines = BlockLines {
        sources,
        today,
        weeks,
        targets: first.as_slice(),
        terms: terms.as_slice(),
        shaded: places.as_slice(),
    };
    lines.put_into(report)?;
    put_blocks(report, sources, today, weeks, more, others, rest)
}

/// The lines of the report on the terms of the policy, block by block: the first part of the report.
///
/// Of each term it says in this order that it expired, where its day is not later than today; that it expires, where
/// its day is later by at most so many weeks; which earlier term of its block shades it; and on which targets of its
/// block it is live and empty. It fails only where memory is wanted.
pub fn report_terms(
    alloc: Global,
    policy: &ResolvedPolicy,
    shaded: &ShadedLists,
    today: Day,
    weeks: u16,
) -> Result<Whole, Memory>
    requires { AreShadedIn today policy.now shaded.now }
    ensures text { IfOk result (λ report. report.bytes ≡ terms_report today weeks policy.now) }
    ensures opened { IfOk result (λ report. report.is_open ≡ true) }
{
    let mut report = Whole::new(alloc);
    match put_blocks(
        &mut report,
        &policy.sources,
        today,
        weeks,
        policy.targets.as_slice(),
        policy.terms.as_slice(),
        shaded.as_slice(),
    ) {
        Ok(()) => Ok(report),
        Err(_) => Err(Memory),
    }
}
