ghost use Rattle.std.specs.Prelude.{◌≡◌, ◌<◌, ◌≤◌, ◌||◌, Bool, true, false, nat_le, is_some, if◌then◌else◌, length, Some, option_map, IfOk, IfSome, OnOk};
ghost use Rattle.acl_text.specs.Answers.{Leaves, slip_told};
ghost use Rattle.acl_text.specs.Cursors.{words_of};
ghost use Rattle.acl_text.specs.Refusals.{IsRefusalBy, slip};
ghost use Rattle.acl_text.specs.declared.faults.Code.TheVariants as codes;
ghost use Rattle.acl_text.specs.AddressTexts.{IsPrefixText, prefix_in};
ghost use Rattle.acl_naming.specs.declared.naming_items.Item.TheVariants.{Name, Network};
ghost use Rattle.acl_naming.specs.Definitions.{index_of};
ghost use Rattle.acl_naming.specs.Fronts.{shown};
ghost use Rattle.acl_naming.specs.LineSteps.{IsOfForm};
ghost use Rattle.acl_naming.specs.NamingFiles.{
  with_items,
  with_definition,
  file_added,
  item_added,
  item_put,
  items_added,
  line_added,
  most,
  opens,
  split_added,
  without_comment,
};

use crate::fronts::Front;
use crate::item_words::{NamingKind, read_block, read_item};
use crate::line_parts::{LineForm, bad_byte, next_line, trimmed, without_comment};
use crate::name_texts::NameText;
use crate::naming_items::{Item, PrefixItem, Reference};
use crate::tables::Table;
use acl_packet::Prefix;
use acl_text::{Code, Place, Refusal, next_word, split_at_byte};
use std::alloc::Global;
use std::simd::prelude::*;

const MOST: usize = 16384;

// Whether there are as many definitions as a kind may have.
fn is_full(table: &Table) -> bool
    ensures { result ≡ nat_le most (length table.now) }
{
    table.len() >= MOST
}

// Reads a line of a file of the kind, which stands at the place.
#[derive(Clone, Copy)]
struct LineReader {
    alloc: Global,
    kind: NamingKind,
    place: Place,
}

impl LineReader {
    #[cold]
    #[inline(never)]
    fn refusal(self, code: Code, word: &[u8]) -> Refusal
        ensures { IsRefusalBy (slip code self.place word.now) result }
    {
        Refusal::at(self.alloc, code, self.place, word)
    }

    // Adds an item that was read, if any.
    #[inline(always)]
    fn put_item(self, table: &mut Table, word: Front<'_>, item: Item) -> Result<(), Refusal>
        requires { 0 < length table.old }
        ensures gives { Leaves slip_told table.new result
            (item_put self.place table.old (shown word.entry) (Some item)) }
        ensures filled { OnOk result (0 < length table.new) }
    {
        if table.items_count() >= MOST {
            return Err(self.refusal(Code::TooMany, word.as_slice()));
        }
        table.push_item(item)?;
        Ok(())
    }

    // Adds the prefix that a word has to be.
    fn add_prefix(self, table: &mut Table, word: Front<'_>) -> Result<(), Refusal>
        requires { 0 < length table.old }
        ensures gives { Leaves slip_told table.new result
            (item_put self.place table.old (shown word.entry)
            (option_map Network (prefix_in (shown word.entry)))) }
        ensures filled { OnOk result (0 < length table.new) }
    {
        match read_block(word.as_slice()) {
            Some(block) => self.put_item(table, word, Item::Network(block)),
            None => Err(self.refusal(Code::BadValue, word.as_slice())),
        }
    }

    #[inline(always)]
    fn add_name(self, table: &mut Table, word: Front<'_>, name: NameText) -> Result<(), Refusal>
        requires some { 0 < length table.old }
        requires own { name ≡ shown word }
        ensures gives { Leaves slip_told table.new result (item_put self.place table.old (shown word.entry)
            (Some (Name (record { place = self.place; name = shown word.entry })))) }
        ensures filled { OnOk result (0 < length table.new) }
    {
        let place = self.place;
        self.put_item(table, word, Item::Name(Reference { place, name }))
    }

    #[tactic(auto, unfolding(crate::specs::NamingFiles::item_added))]
    fn add_any(self, table: &mut Table, word: Front<'_>) -> Result<(), Refusal>
        requires { 0 < length table.old }
        ensures gives { Leaves slip_told table.new result
            (item_added self.kind self.place table.old (shown word.entry)) }
        ensures filled { OnOk result (0 < length table.new) }
    {
        match read_item(self.alloc, self.kind, self.place, word.as_slice())? {
            Some(item) => self.put_item(table, word, item),
            None => Err(self.refusal(Code::BadValue, word.as_slice())),
        }
    }

    // Adds the item that the word of a prefix is. Most items are such.
    #[inline(always)]
    #[tactic(auto, using(crate::proofs::MarkedWords::read_added, crate::proofs::MarkedWords::read_is))]
    fn add_read(self, table: &mut Table, word: Front<'_>, prefix: Prefix) -> Result<(), Refusal>
        requires some { 0 < length table.old }
        requires own { IsPrefixText (shown word) prefix }
        ensures gives { Leaves slip_told table.new result
            (item_added self.kind self.place table.old (shown word.entry)) }
        ensures filled { OnOk result (0 < length table.new) }
    {
        match self.kind {
            NamingKind::Networks => {
                let block = PrefixItem::new(prefix);
                self.put_item(table, word, Item::Network(block))
            }
            NamingKind::Services => self.add_any(table, word),
        }
    }

    // Apart, since it takes much room beside what most names take.
    #[inline(never)]
    #[tactic(auto, using(crate::proofs::MarkedWords::name_added, crate::proofs::MarkedWords::prefix_added))]
    fn add_other(self, table: &mut Table, word: Front<'_>) -> Result<(), Refusal>
        requires { 0 < length table.old }
        ensures gives { Leaves slip_told table.new result
            (item_added self.kind self.place table.old (shown word.entry)) }
        ensures filled { OnOk result (0 < length table.new) }
    {
        if let Some(prefix) = word.prefix() {
            return self.add_read(table, word, prefix);
        }
        match self.kind {
            NamingKind::Networks => match NameText::read_front(self.alloc, word)? {
                Some(name) => self.add_name(table, word, name),
                None => self.add_prefix(table, word),
            },
            NamingKind::Services => self.add_any(table, word),
        }
    }

    // Most words are names or prefixes, which are told apart by the first byte.
    #[inline(always)]
    #[tactic(auto, using(crate::proofs::MarkedWords::name_added, crate::proofs::MarkedWords::read_added, crate::proofs::MarkedWords::read_is))]
    fn add_item(self, table: &mut Table, word: Front<'_>) -> Result<(), Refusal>
        requires { 0 < length table.old }
        ensures gives { Leaves slip_told table.new result
            (item_added self.kind self.place table.old (shown word.entry)) }
        ensures filled { OnOk result (0 < length table.new) }
    {
        if let NamingKind::Networks = self.kind {
            if word.begins_with_number() {
                if let Some(prefix) = word.prefix() {
                    let block = PrefixItem::new(prefix);
                    return self.put_item(table, word, Item::Network(block));
                }
            } else if let Some(name) = NameText::short(word) {
                return self.add_name(table, word, name);
            }
        }
        self.add_other(table, word)
    }

    // Each word is looked for byte by byte.
    #[inline(never)]
    fn add_words(self, table: &mut Table, text: Front<'_>) -> Result<(), Refusal>
        requires { 0 < length table.old }
        ensures gives { Leaves slip_told table.new result
            (items_added self.kind self.place table.old (words_of (shown text.entry))) }
        ensures filled { OnOk result (0 < length table.new) }
    {
        let mut rest = text;
        while let Some((word, behind)) = rest.next_word() {
            self.add_item(table, word)?;
            rest = behind;
        }
        Ok(())
    }

    #[inline(always)]
    fn add_items(self, table: &mut Table, text: Front<'_>) -> Result<(), Refusal>
        requires { 0 < length table.old }
        ensures gives { Leaves slip_told table.new result
            (items_added self.kind self.place table.old (words_of (shown text.entry))) }
        ensures filled { OnOk result (0 < length table.new) }
    {
        let mut rest = text;
        while let Some((word, behind)) = rest.quick_word() {
            self.add_item(table, word)?;
            rest = behind;
        }
        if rest.len() == 0 {
            return Ok(());
        }
        self.add_words(table, rest)
    }

    // What is wrong with a name where there is no room for a definition more.
    fn no_room(self, table: &Table, name: &[u8]) -> Refusal
        ensures { IsRefusalBy (slip (if is_some (index_of table.now name.now) then codes.Twice
            else codes.TooMany) self.place name.now) result }
    {
        if table.index_of(name).is_some() {
            self.refusal(Code::Twice, name)
        } else {
            self.refusal(Code::TooMany, name)
        }
    }

    fn define(self, table: &mut Table, name: Front<'_>, rest: Front<'_>) -> Result<(), Refusal>
        ensures gives { Leaves slip_told table.new result
            (with_definition self.kind self.place table.old (shown name.entry) (shown rest.entry)) }
        ensures filled { OnOk result (0 < length table.new) }
    {
        let Some(text) = NameText::read_front(self.alloc, name)? else {
            return Err(self.refusal(Code::BadName, name.as_slice()));
        };
        if is_full(table) {
            return Err(self.no_room(table, name.as_slice()));
        }
        if !table.add(text, self.place)? {
            return Err(self.refusal(Code::Twice, name.as_slice()));
        }
        self.add_items(table, rest)
    }

    #[inline(always)]
    fn go_on(self, table: &mut Table, is_open: bool, text: &[u8]) -> Result<(), Refusal>
        requires { is_open ≡ true → 0 < length table.old }
        ensures gives { Leaves slip_told table.new result
            (with_items self.kind self.place is_open table.old (words_of text.now)) }
        ensures filled { is_open ≡ true → OnOk result (0 < length table.new) }
    {
        if is_open {
            return self.add_items(table, Front::whole(text));
        }
        match next_word(text, 0) {
            Some((start, end)) => Err(self.refusal(Code::NoDefinition, &text[start..end])),
            None => Ok(()),
        }
    }

    // Whether a definition of the file stands above what follows.
    fn add_split(self, table: &mut Table, is_open: bool, text: &[u8]) -> Result<bool, Refusal>
        requires { is_open ≡ true → 0 < length table.old }
        ensures gives { Leaves slip_told table.new result
            (split_added self.kind self.place is_open table.old text.now) }
        ensures opened { IfOk result (λ o. o ≡ opens is_open text.now) }
        ensures filled { IfOk result (λ o. o ≡ true → 0 < length table.new) }
    {
        match split_at_byte(text, b'=') {
            Some((name, rest)) => {
                self.define(table, Front::whole(trimmed(name)), Front::whole(rest))?;
                Ok(true)
            }
            None => {
                self.go_on(table, is_open, text)?;
                Ok(is_open)
            }
        }
    }

    // The same of a line whose bytes are not looked at yet.
    fn add_line(self, table: &mut Table, is_open: bool, text: &[u8]) -> Result<bool, Refusal>
        requires { is_open ≡ true → 0 < length table.old }
        ensures gives { Leaves slip_told table.new result
            (line_added self.kind self.place is_open table.old text.now) }
        ensures opened { IfOk result (λ o. o ≡ opens is_open text.now) }
        ensures filled { IfOk result (λ o. o ≡ true → 0 < length table.new) }
    {
        match bad_byte(text) {
            Some(byte) => Err(self.refusal(Code::BadByte, &[byte])),
            None => self.add_split(table, is_open, text),
        }
    }

    // The same of a line that may have a comment, and is of the form.
    #[tactic(auto, using(crate::proofs::LineLaws::lone_added, crate::proofs::LineLaws::lone_opens, crate::proofs::ReadLaws::plain_added, crate::proofs::ReadLaws::plain_opens, crate::proofs::ReadLaws::named_added, crate::proofs::ReadLaws::named_opens))]
    fn add_next(
        self,
        table: &mut Table,
        is_open: bool,
        line: &[u8],
        form: LineForm<'_>,
    ) -> Result<bool, Refusal>
        requires opened { is_open ≡ true → 0 < length table.old }
        requires form { IsOfForm line.now form }
        ensures gives { Leaves slip_told table.new result
            (line_added self.kind self.place is_open table.old (without_comment line.now)) }
        ensures opened { IfOk result (λ o. o ≡ opens is_open (without_comment line.now)) }
        ensures filled { IfOk result (λ o. o ≡ true → 0 < length table.new) }
    {
        match form {
            LineForm::Lone(word) if is_open => {
                self.add_item(table, word)?;
                Ok(true)
            }
            LineForm::LonePrefix(word, prefix) if is_open => {
                self.add_read(table, Front::whole(word), prefix)?;
                Ok(true)
            }
            LineForm::Named(name, items) => {
                self.define(table, name, items)?;
                Ok(true)
            }
            LineForm::Plain => {
                self.go_on(table, is_open, line)?;
                Ok(is_open)
            }
            _ => self.add_line(table, is_open, without_comment(line)),
        }
    }
}

fn add_lines(
    alloc: Global,
    table: &mut Table,
    kind: NamingKind,
    file: u32,
    bytes: &[u8],
) -> Result<(), Refusal>
    requires { length bytes.now ≤ 4194304 }
    ensures { Leaves slip_told table.new result (file_added kind file table.old bytes.now) }
{
    let mut rest = bytes;
    let mut number = 0;
    let mut is_open = false;
    while let Some((line, form, behind)) = next_line(rest) {
        number += 1;
        let place = Place { file, line: number };
        let reader = LineReader { alloc, kind, place };
        is_open = reader.add_next(table, is_open, line, form)?;
        rest = behind;
    }
    Ok(())
}

// How many `=` stand in the bytes, of which each definition has one. No contract says so: it only saves memory.
fn begins_in(bytes: &[u8]) -> usize {
    let mut count = 0;
    let mut from = 0;
    while count < MOST && bytes.len() - from >= 64 {
        let equals = u8x64::from_slice(&bytes[from..]).simd_eq(u8x64::splat(b'='));
        count += equals.to_bitmask().count_ones() as usize;
        from += 64;
    }
    let rest = bytes[from..].iter().filter(|byte| **byte == b'=').count();
    MOST.min(count + rest)
}

// An item seldom takes fewer bytes of a file.
const ITEM: usize = 6;

/// Adds the definitions of the file, or tells its first slip.
pub fn add_file(
    alloc: Global,
    table: &mut Table,
    kind: NamingKind,
    file: u32,
    bytes: &[u8],
) -> Result<(), Refusal>
    requires { length bytes.now ≤ 4194304 }
    ensures { Leaves slip_told table.new result (file_added kind file table.old bytes.now) }
{
    table.make_room(alloc, begins_in(bytes), MOST.min(bytes.len() / ITEM))?;
    add_lines(alloc, table, kind, file, bytes)
}
