ghost use Rattle.std.specs.Prelude.{◌≡◌, ◌-◌, ◌^◌, [], OnOk, IfOk};
ghost use Rattle.acl_text.specs.Cuts.{views};
ghost use Rattle.acl_text.specs.SignedNumbers.{below_zero_in, from_zero_in, signed_in};
ghost use Rattle.nft_lang.specs.ReadingSteps.{no_section, hook_in, table_in, priority_in, item_in, begin_section, with_chain, end_section, take_four, take_outer, take_chain, take_inner, take_row, no_draft};

use crate::documents::{Doc, Item, Section};
use crate::rule_drafts::{Rooms, rule_of, up_to};
use acl_packet::{Families, Hook};
use acl_rows::{DocumentDraft, Draft, RowWords, families_of};
use acl_text::{Bytes, Items, Memory, behind, read_number};
use std::alloc::Global;
use std::mem;

/// What has been read of a document's rows: the sections that have ended, and the next one.
#[derive(Drop)]
pub struct TablesDraft {
    sections: Doc,
    section: Section,
}

impl Draft for TablesDraft {
    ghost step = { take_row };

    #[tactic(auto, unfolding(crate::specs::ReadingSteps::take_row))]
    fn take_row(
        &mut self,
        alloc: Global,
        indent: usize,
        words: RowWords<'_>,
    ) -> Result<(), Memory> {
        if indent == 0 {
            let few = words.few(alloc)?;
            self.take_outer(alloc, few.as_slice())
        } else if indent == 8 {
            self.take_inner(alloc, words)
        } else {
            Ok(())
        }
    }
}

impl DocumentDraft<Section> for TablesDraft {
    ghost empty = { no_draft };

    ghost sections = { λ d. d.sections };

    fn new(alloc: Global) -> TablesDraft {
        TablesDraft {
            sections: Items::new(alloc),
            section: no_section(alloc),
        }
    }

    fn finish(self) -> Result<Doc, Memory> {
        Ok(self.sections)
    }
}

impl TablesDraft {
    #[tactic(auto, unfolding(crate::specs::ReadingSteps::take_outer))]
    fn take_outer(&mut self, alloc: Global, words: &[&[u8]]) -> Result<(), Memory>
        ensures { OnOk result (self.new ≡ take_outer self.old (views words.now)) }
    {
        match words {
            [word] if *word == b"}".as_slice() => self.end_section(alloc),
            [word, _, third, fourth] => {
                self.take_four(alloc, word, third, fourth);
                Ok(())
            }
            _ => Ok(()),
        }
    }

    fn end_section(&mut self, alloc: Global) -> Result<(), Memory>
        ensures { OnOk result (self.new ≡ end_section self.old) }
    {
        let section = mem::replace(&mut self.section, no_section(alloc));
        self.sections.push(section)
    }

    #[tactic(auto, unfolding(crate::specs::ReadingSteps::take_four))]
    fn take_four(&mut self, alloc: Global, word: &[u8], third: &[u8], fourth: &[u8])
        ensures { self.new ≡ take_four self.old word.now third.now fourth.now }
    {
        if word == b"##".as_slice() {
            self.begin_section(alloc, third, fourth);
        } else if word == b"table".as_slice() {
            self.section.number = table_of(third);
        }
    }

    fn begin_section(&mut self, alloc: Global, hook: &[u8], families: &[u8])
        ensures { self.new ≡ begin_section self.old hook.now families.now }
    {
        self.section = Section {
            hook: hook_of(hook),
            families: families_of(families),
            ..no_section(alloc)
        };
    }

    #[tactic(auto, unfolding(crate::specs::ReadingSteps::take_inner))]
    fn take_inner(&mut self, alloc: Global, words: RowWords<'_>) -> Result<(), Memory>
        ensures { OnOk result (self.new ≡ take_inner self.old words.entry) }
    {
        if words.begins_with(b"type") {
            let few = words.few(alloc)?;
            self.take_chain(few.as_slice());
            Ok(())
        } else {
            let item = item_of(alloc, self.section.families, words, Rooms::none())?;
            self.section.items.push(item)
        }
    }

    #[tactic(auto, unfolding(crate::specs::ReadingSteps::take_chain))]
    fn take_chain(&mut self, words: &[&[u8]])
        ensures { self.new ≡ take_chain self.old (views words.now) }
    {
        if let [_, _, _, _, _, priority, _, policy] = words {
            self.set_chain(priority, policy);
        }
    }

    fn set_chain(&mut self, priority: &[u8], policy: &[u8])
        ensures { self.new ≡ with_chain self.old priority.now policy.now }
    {
        self.section.priority = priority_of(priority);
        self.section.accept = policy == b"accept;".as_slice();
    }
}

fn no_section(alloc: Global) -> Section
    ensures { result ≡ no_section }
{
    Section {
        hook: Hook::Input,
        families: Families::Inet,
        number: 0,
        priority: 0,
        accept: false,
        items: Items::new(alloc),
    }
}

#[tactic(auto, unfolding(crate::specs::ReadingSteps::hook_in))]
pub(crate) fn hook_of(word: &[u8]) -> Hook
    ensures { result ≡ hook_in word.now }
{
    if word == b"output".as_slice() {
        Hook::Output
    } else if word == b"forward".as_slice() {
        Hook::Forward
    } else {
        Hook::Input
    }
}

#[tactic(auto, unfolding(crate::specs::ReadingSteps::table_in))]
pub(crate) fn table_of(word: &[u8]) -> u32
    ensures { result ≡ table_in word.now }
{
    match behind(word, b"aclgen_") {
        Some(digits) => read_number(digits, u128::from(u32::MAX)).unwrap_or(0) as u32,
        None => 0,
    }
}

#[tactic(auto, unfolding(crate::specs::ReadingSteps::priority_in))]
pub(crate) fn priority_of(word: &[u8]) -> i32
    ensures { result ≡ priority_in word.now }
{
    signed_of(up_to(word, b';')).unwrap_or(0)
}

fn signed_of(word: &[u8]) -> Option<i32>
    ensures { result ≡ signed_in (2 ^ 31) (2 ^ 31 - 1) word.now }
{
    match word {
        [] => None,
        [b'-', digits @ ..] => below_zero(digits),
        [_, ..] => from_zero(word),
    }
}

fn below_zero(digits: &[u8]) -> Option<i32>
    ensures { result ≡ below_zero_in (2 ^ 31) digits.now }
{
    let number = read_number(digits, 0x8000_0000)?;
    if number == 0 {
        return None;
    }
    Some(-1 - (number - 1) as i32)
}

fn from_zero(word: &[u8]) -> Option<i32>
    ensures { result ≡ from_zero_in (2 ^ 31 - 1) word.now }
{
    let number = read_number(word, 0x7fff_ffff)?;
    Some(number as i32)
}

#[tactic(auto, unfolding(crate::specs::ReadingSteps::item_in))]
pub(crate) fn item_of(
    alloc: Global,
    families: Families,
    words: RowWords<'_>,
    rooms: Rooms,
) -> Result<Item, Memory>
    ensures { IfOk result (λ i. i ≡ item_in families words.entry) }
{
    if words.begins_with(b"#") {
        let text = words.behind_first().text();
        Ok(Item::Remark(Bytes::from_slice(alloc, text)?))
    } else {
        Ok(Item::Rule(rule_of(alloc, families, words, rooms)?))
    }
}
