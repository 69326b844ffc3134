ghost use Rattle.std.specs.Prelude.{◌≡◌, true, IfOk, OnOk};
ghost use Rattle.std.specs.List.{All};
ghost use Rattle.acl_target.specs.TargetData.{IsTarget};
ghost use Rattle.acl_policy.specs.Conditions.{IsPolicy};
ghost use Rattle.acl_load.specs.declared.policy_loading.Loaded.{Loaded};
ghost use Rattle.acl_load.specs.LoadedPolicies.{AreResolvedIn};
ghost use Rattle.acl_load.specs.ResolvedPolicies.{resolved_of};
ghost use Rattle.acl_load.specs.LoadFaults.{LoadsFiles};
ghost use Rattle.acl_report.specs.ShadedLists.{AreShadedIn};
ghost use Rattle.acl_options.specs.CodeViews.{options_view};
ghost use Rattle.acl_job.specs.PreparingSteps.{
  AddsFile,
  IsWorkOf,
  JudgesSo,
  PlansLoaded,
};
ghost use Rattle.acl_job.specs.Works.{MakesWork};

use crate::filter_files::FilterFile;
use crate::preparing::{FileDraft, FileDrafts, prepare};
use crate::shading::refuse_shaded;
use acl_host::{Day, Tree};
use acl_load::{LoadFault, ResolvedPolicy, load, policy_fault, settle};
use acl_options::Options;
use acl_policy::Kind;
use acl_report::{ShadedLists, report_terms, shaded_lists};
use acl_text::{Memory, Out, Refusal, Rejection, Whole};
use std::alloc::Global;

/// What a run is to write: its files, and the report on standard output.
pub struct Work {
    pub files: Vec<FilterFile>,
    pub report: Whole,
}

impl Drop for Work {
    fn drop(self) {
        let Work { files, report } = self;
        drop(files);
        drop(report);
    }
}

// Adds the platform's file, where it has filters, and the report on them.
fn add_file(kind: Kind, draft: FileDraft, work: &mut Work) -> Result<(), Memory>
    requires { work.old.report.is_open ≡ true }
    ensures { OnOk result (AddsFile kind draft work.old work.new) }
{
    if work.report.put(draft.report.as_slice()).is_err() {
        return Err(Memory);
    }
    if draft.filters.as_slice().is_empty() {
        return Ok(());
    }
    work.files.push(draft.file(kind))?;
    Ok(())
}

// The files of the drafts, and the report: what stands there, and then the lines on the files.
fn work_of(alloc: Global, drafts: FileDrafts, report: Whole) -> Result<Work, Memory>
    requires { report.is_open ≡ true }
    ensures { IfOk result (IsWorkOf report.bytes drafts) }
{
    let mut work = Work {
        files: Vec::new(alloc),
        report,
    };
    add_file(Kind::Cisco, drafts.cisco, &mut work)?;
    add_file(Kind::Juniper, drafts.juniper, &mut work)?;
    add_file(Kind::Iptables, drafts.iptables, &mut work)?;
    add_file(Kind::Nftables, drafts.nftables, &mut work)?;
    Ok(work)
}

// The filters of the policy, or the first slip: of a filter, else, where it is asked for, of a shaded term.
fn judge(
    alloc: Global,
    options: &Options<'_>,
    today: Day,
    policy: &ResolvedPolicy,
    shaded: &ShadedLists,
) -> Result<FileDrafts, Refusal>
    requires sound { All (All IsTarget) policy.now.targets }
    requires shaded { AreShadedIn today policy.now shaded.now }
    ensures { (loaded : Loaded) → resolved_of loaded ≡ policy.now
        → JudgesSo (options_view options.now) today loaded result }
{
    let drafts = prepare(alloc, today, options.output, options.policy, policy)?;
    if options.shade_check {
        refuse_shaded(alloc, policy, shaded)?;
    }
    Ok(drafts)
}

// What is to be written of the policy, or the first fault of its filters and of its terms. The lists say which terms are
// shaded.
fn plan_with(
    alloc: Global,
    options: &Options<'_>,
    today: Day,
    policy: &ResolvedPolicy,
    shaded: &ShadedLists,
) -> Result<Work, Rejection>
    requires sound { All (All IsTarget) policy.now.targets }
    requires shaded { AreShadedIn today policy.now shaded.now }
    ensures { (loaded : Loaded) → IsPolicy loaded.policy
        → AreResolvedIn loaded.definitions loaded.policy.blocks loaded.terms → resolved_of loaded ≡ policy.now
        → PlansLoaded (options_view options.now) today loaded result }
{
    match judge(alloc, options, today, policy, shaded) {
        Ok(drafts) => {
            let report = report_terms(alloc, policy, shaded, today, options.exp_info)?;
            Ok(work_of(alloc, drafts, report)?)
        }
        Err(Refusal::Slip(slip)) => {
            Err(Rejection::Fault(policy_fault(alloc, &policy.sources, slip)?))
        }
        Err(Refusal::Memory) => Err(Rejection::Memory),
    }
}

// The same, where it is not known yet which terms are shaded: that is found out once.
fn plan(
    alloc: Global,
    options: &Options<'_>,
    today: Day,
    policy: &ResolvedPolicy,
) -> Result<Work, Rejection>
    requires { All (All IsTarget) policy.now.targets }
    ensures { (loaded : Loaded) → IsPolicy loaded.policy
        → AreResolvedIn loaded.definitions loaded.policy.blocks loaded.terms → resolved_of loaded ≡ policy.now
        → PlansLoaded (options_view options.now) today loaded result }
{
    let shaded = shaded_lists(alloc, policy, today)?;
    plan_with(alloc, options, today, policy, &shaded)
}

/// What is to be written for that day, or the first fault of the files.
pub fn make_work<T: Tree>(
    alloc: Global,
    options: &Options<'_>,
    today: Day,
    tree: &mut T,
) -> Result<Work, LoadFault>
    ensures makes { MakesWork (options_view options.now) today (T.files tree.old) result }
    ensures looks { LoadsFiles T.Tree tree.old tree.new result }
{
    let loaded = load(alloc, tree, options.definitions, options.policy)?;
    let policy = settle(alloc, loaded)?;
    Ok(plan(alloc, options, today, &policy)?)
}
