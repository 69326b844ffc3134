ghost use Rattle.std.specs.Prelude.{◌≡◌, OnOk};
ghost use Rattle.acl_text.specs.Cuts.{views};
ghost use Rattle.acl_rows.specs.FamilyWords.{family_in};
ghost use Rattle.ipt_lang.specs.ReadingSteps.{begin_section, end_chain, ended, hook_in, no_chain, no_draft, no_section, take_appended, take_few, take_name, take_named, take_policy, take_row, take_target, take_words, with_name, with_policy, with_remark, with_rule};

use crate::chain_rows::hook_word;
use crate::documents::{Chain, Doc, Section};
use crate::rule_drafts::rule_of;
use acl_packet::{Family, Hook};
use acl_rows::{DocumentDraft, Draft, RowWords, family_named};
use acl_text::{Bytes, Items, Memory};
use std::alloc::Global;
use std::mem;

/// What has been read of a document's rows: the sections that have ended, the one that has begun, and
/// its next chain.
#[derive(Drop)]
pub struct ChainsDraft {
    sections: Doc,
    begun: bool,
    section: Section,
    chain: Chain,
}

impl Draft for ChainsDraft {
    ghost step = { take_row };

    fn take_row(
        &mut self,
        alloc: Global,
        _indent: usize,
        words: RowWords<'_>,
    ) -> Result<(), Memory> {
        self.take_words(alloc, words)
    }
}

impl DocumentDraft<Section> for ChainsDraft {
    ghost empty = { no_draft };

    ghost sections = { ended };

    fn new(alloc: Global) -> ChainsDraft {
        ChainsDraft {
            sections: Items::new(alloc),
            begun: false,
            section: no_section(alloc),
            chain: no_chain(alloc),
        }
    }

    fn finish(self) -> Result<Doc, Memory> {
        let mut sections = self.sections;
        if self.begun {
            sections.push(self.section)?;
        }
        Ok(sections)
    }
}

impl ChainsDraft {
    /// The hook of the section that has begun.
    pub fn hook(&self) -> Hook
        ensures { result ≡ self.now.section.hook }
    {
        self.section.hook
    }

    #[tactic(auto, unfolding(crate::specs::ReadingSteps::take_words))]
    fn take_words(&mut self, alloc: Global, words: RowWords<'_>) -> Result<(), Memory>
        ensures { OnOk result (self.new ≡ take_words self.old words.entry) }
    {
        let mut rest = words;
        match rest.next() {
            Some(first) => self.take_named(alloc, first, rest),
            None => Ok(()),
        }
    }

    #[tactic(auto, unfolding(crate::specs::ReadingSteps::take_named))]
    fn take_named(&mut self, alloc: Global, first: &[u8], words: RowWords<'_>) -> Result<(), Memory>
        ensures { OnOk result (self.new ≡ take_named self.old first.now words.entry) }
    {
        if first == b"-A".as_slice() {
            self.take_appended(alloc, words)
        } else if first == b"#".as_slice() {
            self.push_remark(Bytes::from_slice(alloc, words.text())?)
        } else {
            let few = words.few(alloc)?;
            self.take_few(alloc, first, few.as_slice())
        }
    }

    #[tactic(auto, unfolding(crate::specs::ReadingSteps::take_few))]
    fn take_few(&mut self, alloc: Global, first: &[u8], words: &[&[u8]]) -> Result<(), Memory>
        ensures { OnOk result (self.new ≡ take_few self.old first.now (views words.now)) }
    {
        if first == b"-N".as_slice() {
            self.take_name(alloc, words)
        } else if first == b"##".as_slice() {
            self.take_target(alloc, words)
        } else if first == b"-P".as_slice() {
            self.take_policy(words);
            Ok(())
        } else {
            Ok(())
        }
    }

    #[tactic(auto, unfolding(crate::specs::ReadingSteps::take_appended))]
    fn take_appended(&mut self, alloc: Global, words: RowWords<'_>) -> Result<(), Memory>
        ensures { OnOk result (self.new ≡ take_appended self.old words.entry) }
    {
        let mut rest = words;
        let Some(chain) = rest.next() else {
            return Ok(());
        };
        if chain == hook_word(self.hook()) {
            self.end_chain(alloc)
        } else {
            let rule = rule_of(alloc, self.section.family, rest)?;
            self.chain.rules.push(rule)
        }
    }

    fn end_chain(&mut self, alloc: Global) -> Result<(), Memory>
        ensures { OnOk result (self.new ≡ end_chain self.old) }
    {
        let chain = mem::replace(&mut self.chain, no_chain(alloc));
        self.section.chains.push(chain)
    }

    fn push_remark(&mut self, text: Bytes) -> Result<(), Memory>
        ensures { OnOk result (self.new ≡ with_remark self.old text) }
    {
        self.chain.remarks.push(text)
    }

    #[tactic(auto, unfolding(crate::specs::ReadingSteps::take_name))]
    fn take_name(&mut self, alloc: Global, words: &[&[u8]]) -> Result<(), Memory>
        ensures { OnOk result (self.new ≡ take_name self.old (views words.now)) }
    {
        match words {
            [word] => self.set_name(alloc, word),
            _ => Ok(()),
        }
    }

    /// The chain that is being read has the name behind the word's first two bytes, which are the hook's
    /// letter and a `_`.
    pub fn set_name(&mut self, alloc: Global, word: &[u8]) -> Result<(), Memory>
        ensures { OnOk result (self.new ≡ with_name self.old word.now) }
    {
        let name = match word {
            [_, _, name @ ..] => name,
            _ => &[],
        };
        self.chain.name = Bytes::from_slice(alloc, name)?;
        Ok(())
    }

    #[tactic(auto, unfolding(crate::specs::ReadingSteps::take_target))]
    fn take_target(&mut self, alloc: Global, words: &[&[u8]]) -> Result<(), Memory>
        ensures { OnOk result (self.new ≡ take_target self.old (views words.now)) }
    {
        match words {
            [_, hook, family] => self.begin_section(alloc, hook, family),
            _ => Ok(()),
        }
    }

    fn begin_section(&mut self, alloc: Global, hook: &[u8], family: &[u8]) -> Result<(), Memory>
        ensures { OnOk result (self.new ≡ begin_section self.old hook.now family.now) }
    {
        let section = Section {
            hook: hook_of(hook),
            family: family_named(family),
            ..no_section(alloc)
        };
        let last = mem::replace(&mut self.section, section);
        if self.begun {
            self.sections.push(last)?;
        }
        self.begun = true;
        self.chain = no_chain(alloc);
        Ok(())
    }

    #[tactic(auto, unfolding(crate::specs::ReadingSteps::take_policy))]
    fn take_policy(&mut self, words: &[&[u8]])
        ensures { self.new ≡ take_policy self.old (views words.now) }
    {
        if let [_, policy] = words {
            self.set_policy(policy);
        }
    }

    /// The policy of the section that has begun is to accept where the word says so, else to drop.
    pub fn set_policy(&mut self, word: &[u8])
        ensures { self.new ≡ with_policy self.old word.now }
    {
        self.section.accept = Some(word == b"ACCEPT".as_slice());
    }
}

fn no_section(alloc: Global) -> Section
    ensures { result ≡ no_section }
{
    Section {
        hook: Hook::Input,
        family: Family::V4,
        accept: None,
        chains: Items::new(alloc),
    }
}

fn no_chain(alloc: Global) -> Chain
    ensures { result ≡ no_chain }
{
    Chain {
        remarks: Items::new(alloc),
        name: Bytes::new(alloc),
        rules: Items::new(alloc),
    }
}

#[tactic(auto, unfolding(crate::specs::ReadingSteps::hook_in))]
pub(crate) fn hook_of(word: &[u8]) -> Hook
    ensures { result ≡ hook_in word.now }
{
    if word == b"OUTPUT".as_slice() {
        Hook::Output
    } else if word == b"FORWARD".as_slice() {
        Hook::Forward
    } else {
        Hook::Input
    }
}
