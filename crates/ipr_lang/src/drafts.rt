ghost use Rattle.std.specs.Prelude.{◌≡◌, OnOk};
ghost use Rattle.acl_text.specs.Cuts.{views};
ghost use Rattle.ipt_lang.specs.ReadingSteps.{ended, no_draft};
ghost use Rattle.ipr_lang.specs.ReadingSteps.{
  is_declaration,
  prepared,
  take_appended,
  take_declared,
  take_restored,
  take_target,
};

use acl_rows::{DocumentDraft, Draft, RowWords};
use acl_text::Memory;
use ipt_lang::{ChainsDraft, Doc, Section, hook_word};
use std::alloc::Global;

/// What has been read of a document's rows. They are read as arguments of iptables are, but for the
/// policy, which a declaration has, and for a chain's name, which is read from the jump to it.
#[derive(Drop)]
pub struct RestoreDraft {
    chains: ChainsDraft,
}

impl Draft for RestoreDraft {
    ghost step = { λ d r. record { chains = take_restored d.chains r } };

    fn take_row(
        &mut self,
        alloc: Global,
        indent: usize,
        words: RowWords<'_>,
    ) -> Result<(), Memory> {
        prepare(&mut self.chains, alloc, words.copy())?;
        self.chains.take_row(alloc, indent, words)
    }
}

impl DocumentDraft<Section> for RestoreDraft {
    ghost empty = { record { chains = no_draft } };

    ghost sections = { λ d. ended d.chains };

    fn new(alloc: Global) -> RestoreDraft {
        RestoreDraft {
            chains: ChainsDraft::new(alloc),
        }
    }

    fn finish(self) -> Result<Doc, Memory> {
        self.chains.finish()
    }
}

// Takes of the words what they do not say among arguments of iptables.
#[tactic(auto, unfolding(crate::specs::ReadingSteps::prepared))]
fn prepare(chains: &mut ChainsDraft, alloc: Global, words: RowWords<'_>) -> Result<(), Memory>
    ensures { OnOk result (chains.new ≡ prepared chains.old words.entry) }
{
    let mut rest = words;
    let Some(first) = rest.next() else {
        return Ok(());
    };
    if first == b"-A".as_slice() {
        take_appended(chains, alloc, rest)
    } else if is_declaration(first) {
        let few = rest.few(alloc)?;
        take_declared(chains, few.as_slice());
        Ok(())
    } else {
        Ok(())
    }
}

fn is_declaration(word: &[u8]) -> bool
    ensures { result ≡ is_declaration word.now }
{
    match word {
        [first, ..] => *first == b':',
        [] => false,
    }
}

#[tactic(auto, unfolding(crate::specs::ReadingSteps::take_declared))]
fn take_declared(chains: &mut ChainsDraft, words: &[&[u8]])
    ensures { chains.new ≡ take_declared chains.old (views words.now) }
{
    if let [policy, _] = words {
        if *policy != b"-".as_slice() {
            chains.set_policy(policy);
        }
    }
}

#[tactic(auto, unfolding(crate::specs::ReadingSteps::take_appended))]
fn take_appended(chains: &mut ChainsDraft, alloc: Global, words: RowWords<'_>) -> Result<(), Memory>
    ensures { OnOk result (chains.new ≡ take_appended chains.old words.entry) }
{
    let mut rest = words;
    let Some(chain) = rest.next() else {
        return Ok(());
    };
    if chain == hook_word(chains.hook()) {
        let few = rest.few(alloc)?;
        take_target(chains, alloc, few.as_slice())
    } else {
        Ok(())
    }
}

#[tactic(auto, unfolding(crate::specs::ReadingSteps::take_target))]
fn take_target(chains: &mut ChainsDraft, alloc: Global, words: &[&[u8]]) -> Result<(), Memory>
    ensures { OnOk result (chains.new ≡ take_target chains.old (views words.now)) }
{
    match words {
        [_, name] => chains.set_name(alloc, name),
        _ => Ok(()),
    }
}
