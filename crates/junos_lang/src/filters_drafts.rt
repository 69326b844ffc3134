ghost use Rattle.std.specs.Prelude.{◌≡◌, ◌∷◌, [], OnOk, IfOk, Some};
ghost use Rattle.acl_text.specs.Cuts.{views};
ghost use Rattle.acl_rows.specs.FamilyWords.{family_in};
ghost use Rattle.junos_lang.specs.ReadingSteps.{no_term, no_section, no_draft, numbers_in, ranges_in, listed_prefix_in, note_in, with_prefix, with_list, with_word, with_pair, end_in, end_term, end_section, take_outer, take_family, take_filter, take_head, take_term, take_part, take_address, take_row};
ghost use Rattle.junos_lang.specs.ScanSteps.{draft_of};

use crate::documents::{Doc, JTerm, JTest, Section};
use acl_packet::{Family, Prefix, Verdict};
use acl_rows::{DocumentDraft, Draft, End, RowWords, family_named};
use acl_text::{Bytes, Items, Memory, read_ports, read_spelled_prefix, read_u8, split_at_byte};
use std::alloc::Global;
use std::mem;

/// What has been read of a document's rows: the sections that have ended, the next one without its
/// next term, that term, and whose addresses come.
#[derive(Drop)]
pub struct FiltersDraft {
    sections: Doc,
    section: Section,
    term: JTerm,
    end: End,
}

impl Draft for FiltersDraft {
    ghost step = { take_row };

    #[tactic(auto, unfolding(crate::specs::ReadingSteps::take_row))]
    fn take_row(
        &mut self,
        alloc: Global,
        indent: usize,
        words: RowWords<'_>,
    ) -> Result<(), Memory> {
        let few = words.few(alloc)?;
        let few = few.as_slice();
        match indent {
            0 => self.take_outer(alloc, few),
            4 => {
                self.take_family(few);
                Ok(())
            }
            8 => self.take_filter(alloc, few),
            12 => self.take_term(alloc, few, words),
            20 => self.take_part(alloc, few, words),
            24 => self.take_address(few),
            _ => Ok(()),
        }
    }
}

impl DocumentDraft<Section> for FiltersDraft {
    ghost empty = { no_draft };

    ghost sections = { λ d. d.sections };

    fn new(alloc: Global) -> FiltersDraft {
        FiltersDraft {
            sections: Items::new(alloc),
            section: no_section(alloc),
            term: no_term(alloc),
            end: End::Source,
        }
    }

    fn finish(self) -> Result<Doc, Memory> {
        Ok(self.sections)
    }
}

impl FiltersDraft {
    /// Nothing has been read of a filter of the family.
    pub(crate) fn of_family(alloc: Global, family: Family) -> FiltersDraft
        ensures { result ≡ draft_of family }
    {
        let mut section = no_section(alloc);
        section.family = family;
        FiltersDraft {
            sections: Items::new(alloc),
            section,
            term: no_term(alloc),
            end: End::Source,
        }
    }

    /// The term whose rows come.
    pub(crate) fn into_term(self) -> JTerm
        ensures { result ≡ self.term }
    {
        self.term
    }

    #[tactic(auto, unfolding(crate::specs::ReadingSteps::take_outer))]
    fn take_outer(&mut self, alloc: Global, words: &[&[u8]]) -> Result<(), Memory>
        ensures { OnOk result (self.new ≡ take_outer self.old (views words.now)) }
    {
        match words {
            [word] if *word == b"}".as_slice() => self.end_section(alloc),
            _ => Ok(()),
        }
    }

    fn end_section(&mut self, alloc: Global) -> Result<(), Memory>
        ensures { OnOk result (self.new ≡ end_section self.old) }
    {
        let section = mem::replace(&mut self.section, no_section(alloc));
        self.sections.push(section)
    }

    fn take_family(&mut self, words: &[&[u8]])
        ensures { self.new ≡ take_family self.old (views words.now) }
    {
        if let [_, family, _] = words {
            self.section.family = family_named(family);
        }
    }

    fn take_filter(&mut self, alloc: Global, words: &[&[u8]]) -> Result<(), Memory>
        ensures { OnOk result (self.new ≡ take_filter self.old (views words.now)) }
    {
        if let [_, _, name, _] = words {
            self.section.name = Bytes::from_slice(alloc, name)?;
        }
        Ok(())
    }

    // Takes the row of the words, of which the first few are at hand.
    fn take_term(&mut self, alloc: Global, few: &[&[u8]], words: RowWords<'_>) -> Result<(), Memory>
        ensures { OnOk result (self.new ≡ take_term self.old (views few.now) words.entry) }
    {
        match few {
            [] => Ok(()),
            [_] => self.end_term(alloc),
            [word, name, ..] => self.take_head(alloc, word, name, words.behind_first().text()),
        }
    }

    fn end_term(&mut self, alloc: Global) -> Result<(), Memory>
        ensures { OnOk result (self.new ≡ end_term self.old) }
    {
        let term = mem::replace(&mut self.term, no_term(alloc));
        self.section.terms.push(term)
    }

    #[tactic(auto, unfolding(crate::specs::ReadingSteps::take_head))]
    fn take_head(
        &mut self,
        alloc: Global,
        word: &[u8],
        name: &[u8],
        text: &[u8],
    ) -> Result<(), Memory>
        ensures { OnOk result (self.new ≡ take_head self.old word.now name.now text.now) }
    {
        if word == b"/*".as_slice() {
            self.term.note = Some(note_of(alloc, text)?);
        } else {
            self.term.name = Bytes::from_slice(alloc, name)?;
        }
        Ok(())
    }

    // Takes the row of the words, of which the first few are at hand.
    fn take_part(&mut self, alloc: Global, few: &[&[u8]], words: RowWords<'_>) -> Result<(), Memory>
        ensures { OnOk result (self.new ≡ take_part self.old (views few.now) words.entry) }
    {
        match few {
            [] => Ok(()),
            [word] => {
                self.term.take_word(word);
                self.end = End::Source;
                Ok(())
            }
            [word, _] => {
                self.term.take_pair(word);
                self.end = end_of(word);
                Ok(())
            }
            [word, ..] => self.term.take_list(alloc, word, words),
        }
    }

    fn take_address(&mut self, words: &[&[u8]]) -> Result<(), Memory>
        ensures { OnOk result (self.new ≡ take_address self.old (views words.now)) }
    {
        match words {
            [word] => {
                let prefix = listed_prefix(self.section.family, word);
                self.term.take_prefix(self.end, prefix)
            }
            _ => Ok(()),
        }
    }
}

impl JTerm {
    #[tactic(auto, unfolding(crate::specs::ReadingSteps::with_word))]
    fn take_word(&mut self, word: &[u8])
        ensures { self.new ≡ with_word self.old word.now }
    {
        if word == b"accept;".as_slice() {
            self.verdict = Verdict::Accept;
        } else if word == b"discard;".as_slice() {
            self.verdict = Verdict::Deny;
        } else if word == b"reject;".as_slice() {
            self.verdict = Verdict::Reject;
        } else if word == b"syslog;".as_slice() {
            self.syslog = true;
        } else if word == b"tcp-established;".as_slice() {
            self.test = Some(JTest::Established);
        } else if word == b"tcp-initial;".as_slice() {
            self.test = Some(JTest::Initial);
        }
    }

    #[tactic(auto, unfolding(crate::specs::ReadingSteps::with_pair))]
    fn take_pair(&mut self, word: &[u8])
        ensures { self.new ≡ with_pair self.old word.now }
    {
        if word == b"reject".as_slice() {
            self.verdict = Verdict::Reset;
        } else if word == b"tcp-flags".as_slice() {
            self.test = Some(JTest::Rst);
        }
    }

    #[tactic(auto, unfolding(crate::specs::ReadingSteps::with_list))]
    fn take_list(&mut self, alloc: Global, word: &[u8], words: RowWords<'_>) -> Result<(), Memory>
        ensures { OnOk result (self.new ≡ with_list self.old word.now words.entry) }
    {
        if word == b"source-port".as_slice() {
            self.sports = ranges_of(alloc, words)?;
        } else if word == b"destination-port".as_slice() {
            self.dports = ranges_of(alloc, words)?;
        } else if word == b"icmp-type".as_slice() {
            self.itypes = numbers_of(alloc, words)?;
        } else if word == b"icmp-code".as_slice() {
            self.icodes = numbers_of(alloc, words)?;
        } else {
            self.protos = numbers_of(alloc, words)?;
        }
        Ok(())
    }

    fn take_prefix(&mut self, end: End, prefix: Option<Prefix>) -> Result<(), Memory>
        ensures { OnOk result (self.new ≡ with_prefix self.old end prefix) }
    {
        match (end, prefix) {
            (_, None) => Ok(()),
            (End::Source, Some(prefix)) => self.src.push(prefix),
            (End::Destination, Some(prefix)) => self.dst.push(prefix),
        }
    }
}

fn no_term(alloc: Global) -> JTerm
    ensures { result ≡ no_term }
{
    JTerm {
        note: None,
        name: Bytes::new(alloc),
        src: Items::new(alloc),
        dst: Items::new(alloc),
        protos: Items::new(alloc),
        sports: Items::new(alloc),
        dports: Items::new(alloc),
        itypes: Items::new(alloc),
        icodes: Items::new(alloc),
        test: None,
        syslog: false,
        verdict: Verdict::Accept,
    }
}

fn no_section(alloc: Global) -> Section
    ensures { result ≡ no_section }
{
    Section {
        family: Family::V4,
        name: Bytes::new(alloc),
        terms: Items::new(alloc),
    }
}

#[tactic(auto, unfolding(crate::specs::ReadingSteps::end_in))]
fn end_of(word: &[u8]) -> End
    ensures { result ≡ end_in word.now }
{
    if word == b"destination-address".as_slice() {
        End::Destination
    } else {
        End::Source
    }
}

// The prefix before a `;`.
#[tactic(auto, unfolding(crate::specs::ReadingSteps::listed_prefix_in))]
fn listed_prefix(family: Family, word: &[u8]) -> Option<Prefix>
    ensures { result ≡ listed_prefix_in family word.now }
{
    let (prefix, _) = split_at_byte(word, b';')?;
    read_spelled_prefix(family, prefix)
}

// The text of a comment, without what ends it.
#[tactic(auto, unfolding(crate::specs::ReadingSteps::note_in))]
fn note_of(alloc: Global, text: &[u8]) -> Result<Bytes, Memory>
    ensures { IfOk result (λ note. note ≡ note_in text.now) }
{
    let end = text.len().saturating_sub(b" */".len());
    Bytes::from_slice(alloc, &text[..end])
}

// The numbers among the words.
#[tactic(auto, unfolding(crate::specs::ReadingSteps::numbers_in))]
fn numbers_of(alloc: Global, words: RowWords<'_>) -> Result<Items<u8>, Memory>
    ensures { IfOk result (λ numbers. numbers ≡ numbers_in words.entry) }
{
    let mut numbers = Items::new(alloc);
    let mut rest = words;
    while let Some(word) = rest.next() {
        if let Some(number) = read_u8(word, 255) {
            numbers.push(number)?;
        }
    }
    Ok(numbers)
}

// The ranges of ports among the words.
#[tactic(auto, unfolding(crate::specs::ReadingSteps::ranges_in))]
fn ranges_of(alloc: Global, words: RowWords<'_>) -> Result<Items<(u16, u16)>, Memory>
    ensures { IfOk result (λ ranges. ranges ≡ ranges_in words.entry) }
{
    let mut ranges = Items::new(alloc);
    let mut rest = words;
    while let Some(word) = rest.next() {
        if let Some(ports) = read_ports(word, b'-') {
            ranges.push(ports)?;
        }
    }
    Ok(ranges)
}
