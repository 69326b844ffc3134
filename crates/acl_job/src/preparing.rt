ghost use Rattle.std.specs.Prelude.{◌≡◌, ◌++◌, ◌∷◌, [], None, true, List, map, IfOk, OnOk};
ghost use Rattle.std.specs.List.{All};
ghost use Rattle.acl_target.specs.TargetData.{IsTarget};
ghost use Rattle.acl_policy.specs.RawTerms.{RawTerm};
ghost use Rattle.acl_policy.specs.declared.blocks.Block.{Block};
ghost use Rattle.acl_load.specs.declared.policy_loading.Loaded.{Loaded};
ghost use Rattle.acl_load.specs.ResolvedPolicies.{resolved_of, targets_in};
ghost use Rattle.acl_expand.specs.KnownRules.{AreKnown};
ghost use Rattle.acl_job.specs.FilterPaths.{path_of};
ghost use Rattle.acl_filters.specs.FilterRequests.{request_of, requests_in};
ghost use Rattle.acl_job.specs.PreparingSteps.{
  Adds,
  AddsOne,
  AreEmptyDrafts,
  AreOpen,
  IsEmptyDraft,
  Prepares,
};

use crate::filter_files::FilterFile;
use crate::filter_paths::path_of;
use acl_expand::KnownRules;
use acl_filters::checked_filter;
use acl_host::Day;
use acl_load::{ResolvedPolicy, Terms};
use acl_platform::Filter;
use acl_report::put_count;
use acl_target::{Kind, Target, Targets};
use acl_terms::Term;
use acl_text::{Items, Memory, Refusal, Whole};
use std::alloc::Global;

/// The file of a platform: its path, its filters in order, and their lines of the report.
pub struct FileDraft {
    pub path: String,
    pub filters: Items<Filter>,
    pub report: Whole,
}

impl FileDraft {
    /// The platform's file, without the report on it.
    pub(crate) fn file(self, kind: Kind) -> FilterFile
        ensures { result ≡ record { kind = kind; path = self.path; filters = self.filters } }
    {
        let FileDraft {
            path,
            filters,
            report,
        } = self;
        drop(report);
        FilterFile {
            kind,
            path,
            filters,
        }
    }
}

impl Drop for FileDraft {
    fn drop(self) {
        let FileDraft {
            path,
            filters,
            report,
        } = self;
        drop(path);
        drop(filters);
        drop(report);
    }
}

/// The files of all platforms. One of a platform that no target names has no filters.
#[derive(Drop)]
pub struct FileDrafts {
    pub cisco: FileDraft,
    pub juniper: FileDraft,
    pub iptables: FileDraft,
    pub nftables: FileDraft,
}

// Adds a filter, and its line of the report.
fn add_to(
    draft: &mut FileDraft,
    target: &Target,
    filter: Filter,
    entries: u64,
) -> Result<(), Memory>
    requires { draft.old.report.is_open ≡ true }
    ensures { OnOk result (AddsOne target.now filter entries draft.old draft.new) }
{
    put_count(&mut draft.report, draft.path.as_bytes(), target, entries)?;
    draft.filters.push(filter)
}

// Adds the filter of the terms on the target to its platform's file.
fn add_filter(
    alloc: Global,
    today: Day,
    target: &Target,
    terms: &[Term],
    known: &mut KnownRules,
    drafts: &mut FileDrafts,
) -> Result<(), Refusal>
    requires sound { IsTarget target.now }
    requires known { AreKnown today terms.now known.old }
    requires open { AreOpen drafts.old }
    ensures adds { Adds today (request_of [] terms.now target.now ∷ []) drafts.old drafts.new result }
    ensures known { OnOk result (AreKnown today terms.now known.new) }
{
    let (filter, entries) = checked_filter(alloc, today, target, terms, known)?;
    match target.kind {
        Kind::Cisco => add_to(&mut drafts.cisco, target, filter, entries)?,
        Kind::Juniper => add_to(&mut drafts.juniper, target, filter, entries)?,
        Kind::Iptables => add_to(&mut drafts.iptables, target, filter, entries)?,
        Kind::Nftables => add_to(&mut drafts.nftables, target, filter, entries)?,
    }
    Ok(())
}

// Adds a filter of the terms for each target, in order.
fn add_filters(
    alloc: Global,
    today: Day,
    targets: &[Target],
    terms: &[Term],
    known: &mut KnownRules,
    drafts: &mut FileDrafts,
) -> Result<(), Refusal>
    requires sound { All IsTarget targets.now }
    requires known { AreKnown today terms.now known.old }
    requires open { AreOpen drafts.old }
    ensures { (written : List RawTerm) → Adds today (map (request_of written terms.now) targets.now)
        drafts.old drafts.new result }
{
    match targets {
        [] => Ok(()),
        [target, more @ ..] => {
            add_filter(alloc, today, target, terms, known, drafts)?;
            add_filters(alloc, today, more, terms, known, drafts)
        }
    }
}

// Adds the filters of each block, of which the targets and the terms stand at its place.
fn add_blocks(
    alloc: Global,
    today: Day,
    targets: &[Targets],
    lists: &[Terms],
    drafts: &mut FileDrafts,
) -> Result<(), Refusal>
    requires sound { All (All IsTarget) targets.now }
    requires open { AreOpen drafts.old }
    ensures { (blocks : List Block) → targets_in blocks ≡ targets.now
        → Adds today (requests_in blocks lists.now) drafts.old drafts.new result }
{
    let [first, more @ ..] = targets else {
        return Ok(());
    };
    let [terms, others @ ..] = lists else {
        return Ok(());
    };
    let first = first.as_slice();
    let mut known = KnownRules::new(alloc);
    add_filters(alloc, today, first, terms.as_slice(), &mut known, drafts)?;
    add_blocks(alloc, today, more, others, drafts)
}

fn no_filters(alloc: Global, kind: Kind, output: &str, policy: &str) -> Result<FileDraft, Memory>
    ensures { IfOk result (IsEmptyDraft (path_of kind output.now policy.now)) }
{
    Ok(FileDraft {
        path: path_of(alloc, kind, output, policy)?,
        filters: Items::new(alloc),
        report: Whole::new(alloc),
    })
}

fn no_files(alloc: Global, output: &str, policy: &str) -> Result<FileDrafts, Memory>
    ensures { IfOk result (AreEmptyDrafts output.now policy.now) }
{
    Ok(FileDrafts {
        cisco: no_filters(alloc, Kind::Cisco, output, policy)?,
        juniper: no_filters(alloc, Kind::Juniper, output, policy)?,
        iptables: no_filters(alloc, Kind::Iptables, output, policy)?,
        nftables: no_filters(alloc, Kind::Nftables, output, policy)?,
    })
}

/// The filters that the policy asks for that day, with their report, each in the file of its platform; or the first
/// slip.
pub fn prepare(
    alloc: Global,
    today: Day,
    output: &str,
    policy: &str,
    resolved: &ResolvedPolicy,
) -> Result<FileDrafts, Refusal>
    requires { All (All IsTarget) resolved.now.targets }
    ensures { (loaded : Loaded) → resolved_of loaded ≡ resolved.now
        → Prepares output.now policy.now today loaded result }
{
    let targets = resolved.targets.as_slice();
    let mut drafts = no_files(alloc, output, policy)?;
    add_blocks(
        alloc,
        today,
        targets,
        resolved.terms.as_slice(),
        &mut drafts,
    )?;
    Ok(drafts)
}
