ghost use Rattle.std.specs.Prelude.{◌≡◌, ◌∷◌, [], OnOk, IfOk, true};
ghost use Rattle.acl_text.specs.Cuts.{views};
ghost use Rattle.acl_rows.specs.FamilyWords.{families_in};
ghost use Rattle.cisco_lang.specs.ReadingSteps.{no_list, no_section, item_in, is_last, no_draft, end_section, end_list, begin_list, begin_section, take_four, take_outer, take_inner, take_row};

use crate::documents::{AccessList, Doc, Item, Section};
use crate::entry_reading::entry_of;
use acl_packet::{Families, Family};
use acl_rows::{DocumentDraft, Draft, RowWords, families_of};
use acl_text::{Bytes, Items, Memory};
use std::alloc::Global;
use std::mem;

/// What has been read of a document's rows: the sections that have ended, the next one, and its next
/// list.
#[derive(Drop)]
pub struct ListsDraft {
    sections: Doc,
    section: Section,
    list: AccessList,
}

impl Draft for ListsDraft {
    ghost step = { take_row };

    #[tactic(auto, unfolding(crate::specs::ReadingSteps::take_row))]
    fn take_row(
        &mut self,
        alloc: Global,
        indent: usize,
        words: RowWords<'_>,
    ) -> Result<(), Memory> {
        if indent == 0 {
            let few = words.few(alloc)?;
            self.take_outer(alloc, few.as_slice())
        } else {
            self.take_inner(alloc, words)
        }
    }
}

impl DocumentDraft<Section> for ListsDraft {
    ghost empty = { no_draft };

    ghost sections = { λ d. d.sections };

    fn new(alloc: Global) -> ListsDraft {
        ListsDraft {
            sections: Items::new(alloc),
            section: no_section(alloc),
            list: no_list(alloc),
        }
    }

    fn finish(self) -> Result<Doc, Memory> {
        Ok(self.sections)
    }
}

impl ListsDraft {
    #[tactic(auto, unfolding(crate::specs::ReadingSteps::take_outer))]
    fn take_outer(&mut self, alloc: Global, words: &[&[u8]]) -> Result<(), Memory>
        ensures { OnOk result (self.new ≡ take_outer self.old (views words.now)) }
    {
        match words {
            [word] => self.take_one(alloc, word),
            [_, _, name] => self.begin_list(alloc, Family::V6, name),
            [word, _, name, kind] => self.take_four(alloc, word, name, kind),
            _ => Ok(()),
        }
    }

    #[tactic(auto, unfolding(crate::specs::ReadingSteps::take_outer))]
    fn take_one(&mut self, alloc: Global, word: &[u8]) -> Result<(), Memory>
        ensures { OnOk result (self.new ≡ take_outer self.old (word.now ∷ [])) }
    {
        if word == b"exit".as_slice() {
            self.end_list(alloc)
        } else {
            Ok(())
        }
    }

    fn begin_list(&mut self, alloc: Global, family: Family, name: &[u8]) -> Result<(), Memory>
        ensures { OnOk result (self.new ≡ begin_list self.old family name.now) }
    {
        self.list = AccessList {
            family,
            name: Bytes::from_slice(alloc, name)?,
            items: Items::new(alloc),
        };
        Ok(())
    }

    #[tactic(auto, unfolding(crate::specs::ReadingSteps::take_four))]
    fn take_four(
        &mut self,
        alloc: Global,
        word: &[u8],
        name: &[u8],
        kind: &[u8],
    ) -> Result<(), Memory>
        ensures { OnOk result (self.new ≡ take_four self.old word.now name.now kind.now) }
    {
        if word == b"!".as_slice() {
            self.begin_section(alloc, name, kind)
        } else if word == b"ip".as_slice() {
            self.begin_list(alloc, Family::V4, kind)
        } else {
            Ok(())
        }
    }

    fn begin_section(&mut self, alloc: Global, name: &[u8], kind: &[u8]) -> Result<(), Memory>
        ensures { OnOk result (self.new ≡ begin_section self.old name.now kind.now) }
    {
        self.section = Section {
            name: Bytes::from_slice(alloc, name)?,
            families: families_of(kind),
            lists: Items::new(alloc),
        };
        Ok(())
    }

    #[tactic(auto, unfolding(crate::specs::ReadingSteps::end_list))]
    fn end_list(&mut self, alloc: Global) -> Result<(), Memory>
        ensures { OnOk result (self.new ≡ end_list self.old) }
    {
        let last = is_last(self.section.families, self.list.family);
        let list = mem::replace(&mut self.list, no_list(alloc));
        self.section.lists.push(list)?;
        if last {
            self.end_section(alloc)
        } else {
            Ok(())
        }
    }

    fn end_section(&mut self, alloc: Global) -> Result<(), Memory>
        ensures { OnOk result (self.new ≡ end_section true self.old) }
    {
        let section = mem::replace(&mut self.section, no_section(alloc));
        self.sections.push(section)
    }

    #[tactic(auto, unfolding(crate::specs::ReadingSteps::take_inner))]
    fn take_inner(&mut self, alloc: Global, words: RowWords<'_>) -> Result<(), Memory>
        ensures { OnOk result (self.new ≡ take_inner self.old words.entry) }
    {
        let item = item_of(alloc, self.list.family, words)?;
        self.list.items.push(item)
    }
}

fn no_list(alloc: Global) -> AccessList
    ensures { result ≡ no_list }
{
    AccessList {
        family: Family::V4,
        name: Bytes::new(alloc),
        items: Items::new(alloc),
    }
}

fn no_section(alloc: Global) -> Section
    ensures { result ≡ no_section }
{
    Section {
        name: Bytes::new(alloc),
        families: Families::Inet,
        lists: Items::new(alloc),
    }
}

fn is_last(families: Families, family: Family) -> bool
    ensures { result ≡ is_last families family }
{
    match (families, family) {
        (Families::Mixed, Family::V4) => false,
        _ => true,
    }
}

#[tactic(auto, unfolding(crate::specs::ReadingSteps::item_in))]
fn item_of(alloc: Global, family: Family, words: RowWords<'_>) -> Result<Item, Memory>
    ensures { IfOk result (λ i. i ≡ item_in family words.entry) }
{
    if words.begins_with(b"remark") {
        let text = words.behind_first().text();
        Ok(Item::Remark(Bytes::from_slice(alloc, text)?))
    } else {
        Ok(Item::Entry(entry_of(family, words)))
    }
}
