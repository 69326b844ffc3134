ghost use Rattle.std.specs.Prelude.{decimal};
ghost use Rattle.junos_lang.specs.Texts.{condition_rows, from_rows, note_rows, range_word, section_rows, term_rows};

use crate::condition_rows::FromPart;
use crate::documents::{JTerm, Section};
use crate::filter_rows::{NoteRow, SectionEnd, SectionHead, TermEnd, TermHead, ThenRows};
use acl_packet::Family;
use acl_rows::{Each, EachWord, Number, Piece, RangeWords, RowForm, Rows, WordForm};
use acl_text::{Bytes, Out, PutFault};

impl Rows for Section {
    ghost rows = { section_rows };

    #[tactic(auto, unfolding(crate::specs::Texts::section_rows))]
    fn put_rows<O: Out>(&self, out: &mut O) -> Result<(), PutFault> {
        let head = SectionHead {
            family: self.family,
            name: self.name.as_slice(),
        };
        let terms = Each {
            items: self.terms.as_slice(),
            form: OfFamily {
                family: self.family,
            },
        };
        (head, (terms, SectionEnd)).put_rows(out)
    }
}

// The terms of a filter of the family.
#[derive(Drop)]
struct OfFamily {
    family: Family,
}

impl RowForm<JTerm> for OfFamily {
    ghost item_rows = { λ f t. term_rows f.family t };

    #[tactic(auto, unfolding(crate::specs::Texts::term_rows))]
    fn put_item<O: Out>(&self, term: &JTerm, out: &mut O) -> Result<(), PutFault> {
        let note = Note { note: &term.note };
        let head = TermHead {
            name: term.name.as_slice(),
        };
        let conditions = TermConditions {
            family: self.family,
            term,
        };
        let actions = ThenRows {
            syslog: term.syslog,
            verdict: term.verdict,
        };
        (note, (head, (conditions, (actions, TermEnd)))).put_rows(out)
    }
}

/// A term of a filter of the family.
#[derive(Drop)]
pub(crate) struct TermRows<'a> {
    pub(crate) family: Family,
    pub(crate) term: &'a JTerm,
}

impl<'a> Rows for TermRows<'a> {
    ghost rows = { λ t. term_rows t.family t.term.now };

    fn put_rows<O: Out>(&self, out: &mut O) -> Result<(), PutFault> {
        let form = OfFamily {
            family: self.family,
        };
        form.put_item(self.term, out)
    }
}

/// The note of a term, if it has one.
#[derive(Drop)]
pub(crate) struct Note<'a> {
    pub(crate) note: &'a Option<Bytes>,
}

impl<'a> Rows for Note<'a> {
    ghost rows = { λ n. note_rows n.note.now };

    fn put_rows<O: Out>(&self, out: &mut O) -> Result<(), PutFault> {
        match self.note {
            Some(text) => NoteRow {
                text: text.as_slice(),
            }
            .put_rows(out),
            None => Ok(()),
        }
    }
}

// The conditions of a term in their block, or nothing where it has none.
#[derive(Drop)]
struct TermConditions<'a> {
    family: Family,
    term: &'a JTerm,
}

impl<'a> Rows for TermConditions<'a> {
    ghost rows = { λ c. from_rows (condition_rows c.family c.term.now) };

    fn put_rows<O: Out>(&self, out: &mut O) -> Result<(), PutFault> {
        let conditions = FromPart {
            family: self.family,
            src: self.term.src.as_slice(),
            dst: self.term.dst.as_slice(),
            protos: EachWord {
                items: self.term.protos.as_slice(),
                form: InDecimal,
            },
            sports: EachWord {
                items: self.term.sports.as_slice(),
                form: RangeWords { separator: b'-' },
            },
            dports: EachWord {
                items: self.term.dports.as_slice(),
                form: RangeWords { separator: b'-' },
            },
            itypes: EachWord {
                items: self.term.itypes.as_slice(),
                form: InDecimal,
            },
            icodes: EachWord {
                items: self.term.icodes.as_slice(),
                form: InDecimal,
            },
            test: self.term.test,
        };
        conditions.put_rows(out)
    }
}

#[derive(Clone, Copy)]
struct InDecimal;

impl WordForm<u8> for InDecimal {
    ghost item_text = { λ f n. decimal n };

    fn put_item_into<O: Out>(&self, number: &u8, out: &mut O) -> Result<(), PutFault> {
        let number = u128::from(*number);
        Number { number }.put_into(out)
    }
}
