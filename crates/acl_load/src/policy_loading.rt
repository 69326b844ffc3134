ghost use Rattle.std.specs.Prelude.{◌≡◌, IfOk, IfSome, Ok};
ghost use Rattle.std.specs.List.{All};
ghost use Rattle.acl_words.specs.Labels.{IsLabelled};
ghost use Rattle.acl_words.specs.Words.{words_of};
ghost use Rattle.acl_policy.specs.Conditions.{IsBlock, IsPolicy, IsRawTerm};
ghost use Rattle.acl_policy.specs.Policies.{policy_of};
ghost use Rattle.acl_policy.specs.PolicyPlaces.{PolicyStands};
ghost use Rattle.acl_text.specs.Answers.{Answers, fault_told};
ghost use Rattle.acl_text.specs.Refusals.{Judges};
ghost use Rattle.acl_load.specs.LoadFaults.{LoadsFiles, load_told};
ghost use Rattle.acl_load.specs.LoadedPolicies.{
  AreResolved,
  AreResolvedIn,
  IsLoadedFrom,
  LoadsPolicy,
  Resolves,
  blocks_slip,
  terms_slip,
};

use crate::load_faults::LoadFault;
use crate::loading::load_definitions;
use crate::policy_texts::{PolicyText, policy_at, policy_fault};
use acl_host::Tree;
use acl_naming::Checked;
use acl_policy::{Block, Policy, RawTerm};
use acl_terms::{KnownAddresses, Term, resolve_with};
use acl_text::{Items, Refusal, Rejection};
use acl_words::Sources;
use std::alloc::Global;

/// The resolved terms of a block.
pub type Terms = Items<Term>;

/// A list of terms for each block.
pub type TermLists = Items<Terms>;

/// A policy that is loaded: the definitions of its names, its lines with the files from which they come, the
/// policy as it is written, and the terms of each of its blocks.
#[derive(Drop)]
pub struct Loaded {
    pub definitions: Checked,
    pub sources: Sources,
    pub policy: Policy,
    pub terms: TermLists,
}

/// The policy at the path, over the naming files of the folder.
///
/// The naming files are loaded first, as `load_definitions` does it; then the policy is read with the files that
/// it includes, its words are judged, and its terms are resolved, block by block. The first fault is given. A slip
/// of the policy or of a term is told with the label of its file, which is the policy's path or the path of an
/// included file. `List` is given only where the tree's count of failed listings rose, and `Read` only where its
/// count of failed readings did. The tree is listed and read, and nothing else.
pub fn load<T: Tree>(
    alloc: Global,
    tree: &mut T,
    folder: &str,
    path: &str,
) -> Result<Loaded, LoadFault>
    ensures loads { IfSome (T.files tree.old) (λ files.
        Answers load_told (λ l. l) result (LoadsPolicy folder.now path.now files)) }
    ensures looks { LoadsFiles T.Tree tree.old tree.new result }
    ensures labelled { IfOk result (λ l. IsLabelled l.sources) }
    ensures parsed { IfOk result (λ l. policy_of (words_of l.sources.lines) ≡ Ok l.policy) }
    ensures fits { IfOk result (λ l. IsPolicy l.policy) }
    ensures places { IfOk result (λ l. PolicyStands l.sources.lines l.policy) }
    ensures terms { IfOk result (λ l. AreResolvedIn l.definitions l.policy.blocks l.terms) }
{
    let definitions = load_definitions(alloc, tree, folder)?;
    let text = policy_at(alloc, tree, path)?;
    Ok(resolve_policy(alloc, definitions, text)?)
}

// The policy with its terms resolved, or the first fault of a term.
fn resolve_policy(
    alloc: Global,
    definitions: Checked,
    text: PolicyText,
) -> Result<Loaded, Rejection>
    requires { IsPolicy text.policy }
    ensures resolves { Answers fault_told (λ l. l) result (Resolves definitions text) }
    ensures loaded { IfOk result (IsLoadedFrom definitions text) }
{
    match resolve_blocks(alloc, &definitions, text.policy.blocks.as_slice()) {
        Ok(terms) => Ok(Loaded {
            definitions,
            sources: text.sources,
            policy: text.policy,
            terms,
        }),
        Err(Refusal::Slip(slip)) => {
            Err(Rejection::Fault(policy_fault(alloc, &text.sources, slip)?))
        }
        Err(Refusal::Memory) => Err(Rejection::Memory),
    }
}

// The terms of the blocks, one list for each. Terms that name the same networks share the sets of their addresses.
fn resolve_blocks(
    alloc: Global,
    definitions: &Checked,
    blocks: &[Block],
) -> Result<TermLists, Refusal>
    requires { All IsBlock blocks.now }
    ensures slip { Judges result (blocks_slip definitions.now blocks.now) }
    ensures terms { IfOk result (AreResolvedIn definitions.now blocks.now) }
{
    let mut known = KnownAddresses::new(alloc, definitions);
    let mut lists = Items::new(alloc);
    for block in blocks {
        let terms = resolve_terms(alloc, block.terms.as_slice(), &mut known)?;
        lists.push(terms)?;
    }
    Ok(lists)
}

// The terms of a block.
fn resolve_terms<'a>(
    alloc: Global,
    raws: &'a [RawTerm],
    known: &mut KnownAddresses<'a>,
) -> Result<Terms, Refusal>
    requires { All IsRawTerm raws.now }
    ensures slip { Judges result (terms_slip known.old raws.now) }
    ensures terms { IfOk result (AreResolved known.old raws.now) }
    ensures same { known.new ≡ known.old }
{
    let mut terms = Items::with_capacity(alloc, raws.len())?;
    for raw in raws {
        let term = resolve_with(alloc, raw, known)?;
        terms.push(term)?;
    }
    Ok(terms)
}
