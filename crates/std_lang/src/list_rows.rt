ghost use Rattle.std.specs.Prelude.{◌∷◌, [], decimal};
ghost use Rattle.std_lang.specs.declared.documents.Item.TheVariants.{Entry as AnEntry, Remark};
ghost use Rattle.std_lang.specs.Texts.{head_rows, item_rows, section_rows};

use crate::documents::{Entry, Item, Section};
use acl_packet::Family;
use acl_rows::{Each, FreeText, LogWord, Number, OneWord, Row, RowForm, Rows, Words};
use acl_text::{Out, PutFault};
use cisco_lang::{AddressWords, action_word};

/// The row of an entry of the list of a number.
#[derive(Drop)]
pub struct EntryRow {
    pub number: u8,
    pub entry: Entry,
}

impl Rows for EntryRow {
    ghost rows = { λ r. item_rows r.number (AnEntry r.entry) };

    fn put_rows<O: Out>(&self, out: &mut O) -> Result<(), PutFault> {
        let action = OneWord {
            piece: action_word(self.entry.permit),
        };
        let source = AddressWords {
            family: Family::V4,
            place: self.entry.src,
        };
        let log = LogWord {
            log: self.entry.log,
        };
        let number = NumberWord {
            number: self.number,
        };
        let row = Row {
            indent: 0,
            first: b"access-list".as_slice(),
            rest: (number, (action, (source, log))),
        };
        row.put_rows(out)
    }
}

/// The row of a remark of the list of a number.
#[derive(Drop)]
pub struct RemarkRow<'a> {
    pub number: u8,
    pub text: &'a [u8],
}

impl<'a> Rows for RemarkRow<'a> {
    ghost rows = { λ r. item_rows r.number (Remark r.text.now) };

    fn put_rows<O: Out>(&self, out: &mut O) -> Result<(), PutFault> {
        let remark = OneWord {
            piece: b"remark".as_slice(),
        };
        let number = NumberWord {
            number: self.number,
        };
        let row = Row {
            indent: 0,
            first: b"access-list".as_slice(),
            rest: (number, (remark, FreeText { text: self.text })),
        };
        row.put_rows(out)
    }
}

/// The rows that begin a section: a comment that names its list, and the removal of an older one.
#[derive(Drop)]
pub struct ListHead {
    pub number: u8,
}

impl Rows for ListHead {
    ghost rows = { λ h. head_rows h.number };

    fn put_rows<O: Out>(&self, out: &mut O) -> Result<(), PutFault> {
        let platform = OneWord {
            piece: b"cisco".as_slice(),
        };
        let form = OneWord {
            piece: b"standard".as_slice(),
        };
        let list = OneWord {
            piece: b"access-list".as_slice(),
        };
        let number = self.number;
        let comment = Row {
            indent: 0,
            first: b"!".as_slice(),
            rest: (platform, (form, NumberWord { number })),
        };
        let removal = Row {
            indent: 0,
            first: b"no".as_slice(),
            rest: (list, NumberWord { number }),
        };
        (comment, removal).put_rows(out)
    }
}

// The number of a list, as a word.
#[derive(Drop)]
struct NumberWord {
    number: u8,
}

impl Words for NumberWord {
    ghost words = { λ w. decimal w.number ∷ [] };

    fn put_spaced<O: Out>(&self, out: &mut O) -> Result<(), PutFault> {
        let number = u128::from(self.number);
        let word = OneWord {
            piece: Number { number },
        };
        word.put_spaced(out)
    }
}

// The items of the list of a number.
#[derive(Drop)]
struct OfList {
    number: u8,
}

impl RowForm<Item> for OfList {
    ghost item_rows = { λ f item. item_rows f.number item };

    #[tactic(auto, unfolding(crate::specs::Texts::item_words))]
    fn put_item<O: Out>(&self, item: &Item, out: &mut O) -> Result<(), PutFault> {
        let number = self.number;
        match item {
            Item::Remark(text) => RemarkRow {
                number,
                text: text.as_slice(),
            }
            .put_rows(out),
            Item::Entry(entry) => EntryRow {
                number,
                entry: *entry,
            }
            .put_rows(out),
        }
    }
}

impl Rows for Section {
    ghost rows = { section_rows };

    #[tactic(auto, unfolding(crate::specs::Texts::section_rows))]
    fn put_rows<O: Out>(&self, out: &mut O) -> Result<(), PutFault> {
        let number = self.number;
        let items = Each {
            items: self.items.as_slice(),
            form: OfList { number },
        };
        (ListHead { number }, items).put_rows(out)
    }
}
