ghost use Rattle.std.specs.Prelude.{◌≡◌, IfOk};
ghost use Rattle.acl_load.specs.ResolvedPolicies.{resolved_of, targets_in};

use crate::policy_loading::{Loaded, TermLists};
use acl_policy::{Block, copy_target};
use acl_target::{Target, Targets};
use acl_text::{Items, Memory};
use acl_words::Sources;
use std::alloc::Global;

/// A list of targets for each block.
pub type TargetLists = Items<Targets>;

/// What filters and reports are made of: where the lines of the policy come from, and for each of its blocks the
/// targets and the resolved terms.
#[derive(Drop)]
pub struct ResolvedPolicy {
    pub sources: Sources,
    pub targets: TargetLists,
    pub terms: TermLists,
}

fn copy_targets(alloc: Global, targets: &[Target]) -> Result<Targets, Memory>
    ensures { IfOk result (λ copies. copies ≡ targets.now) }
{
    let mut copies = Items::with_capacity(alloc, targets.len())?;
    for target in targets {
        copies.push(copy_target(alloc, target)?)?;
    }
    Ok(copies)
}

fn targets_in(alloc: Global, blocks: &[Block]) -> Result<TargetLists, Memory>
    ensures { IfOk result (λ lists. lists ≡ targets_in blocks.now) }
{
    let mut lists = Items::with_capacity(alloc, blocks.len())?;
    for block in blocks {
        lists.push(copy_targets(alloc, block.targets.as_slice())?)?;
    }
    Ok(lists)
}

/// The policy without what its terms were resolved from: the definitions and the terms as they are written are let go.
/// It fails only where memory is wanted.
pub fn settle(alloc: Global, loaded: Loaded) -> Result<ResolvedPolicy, Memory>
    ensures { IfOk result (λ resolved. resolved ≡ resolved_of loaded) }
{
    let targets = targets_in(alloc, loaded.policy.blocks.as_slice())?;
    Ok(ResolvedPolicy {
        sources: loaded.sources,
        targets,
        terms: loaded.terms,
    })
}
