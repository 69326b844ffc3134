ghost use Rattle.std.specs.Prelude.{◌≡◌, OnOk, IfOk};
ghost use Rattle.acl_text.specs.Cuts.{views};
ghost use Rattle.std_lang.specs.ReadingSteps.{begin_section, ended, entry_in, item_in, no_draft, no_section, take_comment, take_row, take_words};

use crate::documents::{Doc, Entry, Item, Section};
use acl_packet::Family;
use acl_rows::{DocumentDraft, Draft, RowWords};
use acl_text::{Bytes, Items, Memory, read_u8};
use cisco_lang::{next_word, take_place};
use std::alloc::Global;
use std::mem;

/// What has been read of a document's rows: the sections that have ended, and the one that has begun.
#[derive(Drop)]
pub struct NumberedDraft {
    sections: Doc,
    begun: bool,
    section: Section,
}

impl Draft for NumberedDraft {
    ghost step = { take_row };

    fn take_row(
        &mut self,
        alloc: Global,
        _indent: usize,
        words: RowWords<'_>,
    ) -> Result<(), Memory> {
        self.take_words(alloc, words)
    }
}

impl DocumentDraft<Section> for NumberedDraft {
    ghost empty = { no_draft };

    ghost sections = { ended };

    fn new(alloc: Global) -> NumberedDraft {
        NumberedDraft {
            sections: Items::new(alloc),
            begun: false,
            section: no_section(alloc),
        }
    }

    fn finish(self) -> Result<Doc, Memory> {
        let mut sections = self.sections;
        if self.begun {
            sections.push(self.section)?;
        }
        Ok(sections)
    }
}

impl NumberedDraft {
    #[tactic(auto, unfolding(crate::specs::ReadingSteps::take_words))]
    fn take_words(&mut self, alloc: Global, words: RowWords<'_>) -> Result<(), Memory>
        ensures { OnOk result (self.new ≡ take_words self.old words.entry) }
    {
        let (first, rest) = next_word(words);
        if first == b"!".as_slice() {
            let few = rest.few(alloc)?;
            self.take_comment(alloc, few.as_slice())
        } else if first == b"access-list".as_slice() {
            let (_, rest) = next_word(rest);
            let item = item_of(alloc, rest)?;
            self.section.items.push(item)
        } else {
            Ok(())
        }
    }

    #[tactic(auto, unfolding(crate::specs::ReadingSteps::take_comment))]
    fn take_comment(&mut self, alloc: Global, words: &[&[u8]]) -> Result<(), Memory>
        ensures { OnOk result (self.new ≡ take_comment self.old (views words.now)) }
    {
        match words {
            [_, _, number] => self.begin_section(alloc, number),
            _ => Ok(()),
        }
    }

    fn begin_section(&mut self, alloc: Global, word: &[u8]) -> Result<(), Memory>
        ensures { OnOk result (self.new ≡ begin_section self.old word.now) }
    {
        let section = Section {
            number: read_u8(word, 99).unwrap_or(0),
            items: Items::new(alloc),
        };
        let ended = mem::replace(&mut self.section, section);
        if self.begun {
            self.sections.push(ended)?;
        }
        self.begun = true;
        Ok(())
    }
}

fn no_section(alloc: Global) -> Section
    ensures { result ≡ no_section }
{
    Section {
        number: 0,
        items: Items::new(alloc),
    }
}

#[tactic(auto, unfolding(crate::specs::ReadingSteps::item_in))]
fn item_of(alloc: Global, words: RowWords<'_>) -> Result<Item, Memory>
    ensures { IfOk result (λ i. i ≡ item_in words.entry) }
{
    if words.begins_with(b"remark") {
        let text = words.behind_first().text();
        Ok(Item::Remark(Bytes::from_slice(alloc, text)?))
    } else {
        Ok(Item::Entry(entry_of(words)))
    }
}

// The entry of the words, each of which is told by its place. No words are refused.
#[tactic(auto, unfolding(crate::specs::ReadingSteps::entry_in))]
fn entry_of(words: RowWords<'_>) -> Entry
    ensures { result ≡ entry_in words.entry }
{
    let (action, words) = next_word(words);
    let (src, words) = take_place(Family::V4, words);
    let (last, _) = next_word(words);
    Entry {
        permit: action == b"permit".as_slice(),
        src,
        log: last == b"log".as_slice(),
    }
}
