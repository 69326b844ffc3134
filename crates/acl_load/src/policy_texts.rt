ghost use Rattle.std.specs.Prelude.{◌≡◌, [], IfOk, IfSome, Ok, slice_index_or};
ghost use Rattle.acl_words.specs.Labels.{IsLabelled};
ghost use Rattle.acl_words.specs.Words.{words_of};
ghost use Rattle.acl_policy.specs.Conditions.{IsPolicy};
ghost use Rattle.acl_policy.specs.Policies.{policy_of};
ghost use Rattle.acl_policy.specs.PolicyPlaces.{PolicyStands};
ghost use Rattle.acl_text.specs.Answers.{Gives, fault_told};
ghost use Rattle.acl_text.specs.Refusals.{slip_fault};
ghost use Rattle.acl_host.specs.WholeFiles.{ReadsFiles, read_told};
ghost use Rattle.acl_load.specs.LoadedPolicies.{policy_at, policy_in};

use acl_host::{ReadFault, Tree};
use acl_policy::{Policy, parse};
use acl_text::{BoxedSlip, Fault, Memory, Refusal, Rejection};
use acl_words::{Sources, gather, label};
use std::alloc::Global;

/// A policy as it is read, and its lines with the files from which they come.
#[derive(Drop)]
pub(crate) struct PolicyText {
    pub(crate) sources: Sources,
    pub(crate) policy: Policy,
}

/// The label of the file of this number, and nothing where no file has it.
pub fn label_at(sources: &Sources, file: u32) -> &[u8]
    ensures { result.now ≡ slice_index_or sources.now.labels file [] }
{
    match label(sources, file) {
        Some(label) => label,
        None => b"",
    }
}

/// The fault of a slip in the policy: its label is that of the file in which it stands, empty where no file has
/// that number. It fails only where memory is wanted.
pub fn policy_fault(alloc: Global, sources: &Sources, slip: BoxedSlip) -> Result<Fault, Memory>
    ensures { IfOk result (λ fault. fault ≡ slip_fault sources.now.labels slip) }
{
    let slip = slip.into_inner();
    Fault::of_slip(alloc, label_at(sources, slip.place.file), slip)
}

// The policy in the lines.
#[tactic(auto, unfolding(crate::specs::LoadedPolicies::policy_in))]
fn policy_in(alloc: Global, sources: &Sources) -> Result<Policy, Rejection>
    ensures gives { Gives fault_told result (policy_in sources.now) }
    ensures parsed { IfOk result (λ p. policy_of (words_of sources.now.lines) ≡ Ok p) }
    ensures fits { IfOk result IsPolicy }
    ensures places { IfOk result (PolicyStands sources.now.lines) }
{
    match parse(alloc, sources) {
        Ok(policy) => Ok(policy),
        Err(Refusal::Slip(slip)) => Err(Rejection::Fault(policy_fault(alloc, sources, slip)?)),
        Err(Refusal::Memory) => Err(Rejection::Memory),
    }
}

/// The policy at the path, with the files that it includes, or its first fault.
#[tactic(auto, unfolding(crate::specs::LoadedPolicies::policy_at))]
pub(crate) fn policy_at<T: Tree>(
    alloc: Global,
    tree: &mut T,
    path: &str,
) -> Result<PolicyText, ReadFault>
    ensures gives { IfSome (T.files tree.old) (λ files. Gives read_told result
        (policy_at path.now files)) }
    ensures reads { ReadsFiles T.Tree tree.old tree.new result }
    ensures labelled { IfOk result (λ t. IsLabelled t.sources) }
    ensures parsed { IfOk result (λ t. policy_of (words_of t.sources.lines) ≡ Ok t.policy) }
    ensures fits { IfOk result (λ t. IsPolicy t.policy) }
    ensures places { IfOk result (λ t. PolicyStands t.sources.lines t.policy) }
{
    let sources = gather(alloc, tree, path)?;
    let policy = policy_in(alloc, &sources)?;
    Ok(PolicyText { sources, policy })
}
