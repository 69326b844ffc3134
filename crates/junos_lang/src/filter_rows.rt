ghost use Rattle.std.specs.Prelude.{◌∷◌, [], IsTrue};
ghost use Rattle.acl_text.specs.Cuts.{views};
ghost use Rattle.acl_text.specs.Puts.{Puts};
ghost use Rattle.acl_rows.specs.Rows.{row, text_of_rows};
ghost use Rattle.junos_lang.specs.Documents.{family_word};
ghost use Rattle.junos_lang.specs.Texts.{closing, end_rows, head_rows, note_row, syslog_rows, term_row, then_rows};

use crate::fixed_rows::FixedRow;
use acl_packet::{Family, Verdict};
use acl_rows::{FreeText, OneWord, Row, Rows};
use acl_text::{Out, PutFault};

// A line of words that are as they are.
#[derive(Drop)]
struct FixedLine<'a> {
    indent: usize,
    first: &'a [u8],
    rest: &'a [&'a [u8]],
}

impl<'a> Rows for FixedLine<'a> {
    ghost rows = { λ l. row l.indent (l.first.now ∷ views l.rest.now) ∷ [] };

    fn put_rows<O: Out>(&self, out: &mut O) -> Result<(), PutFault> {
        let row = Row {
            indent: self.indent,
            first: self.first,
            rest: self.rest,
        };
        row.put_rows(out)
    }
}

// The row that ends a block of a section.
#[derive(Drop)]
struct Closing {
    indent: usize,
}

impl Rows for Closing {
    ghost rows = { λ c. closing c.indent ∷ [] };

    fn put_rows<O: Out>(&self, out: &mut O) -> Result<(), PutFault> {
        let line = FixedLine {
            indent: self.indent,
            first: b"}",
            rest: &[],
        };
        line.put_rows(out)
    }
}

/// The rows that begin a section.
#[derive(Drop)]
pub struct SectionHead<'a> {
    pub family: Family,
    pub name: &'a [u8],
}

impl<'a> Rows for SectionHead<'a> {
    ghost rows = { λ h. head_rows (family_word h.family) h.name.now };

    fn put_rows<O: Out>(&self, out: &mut O) -> Result<(), PutFault> {
        match self.family {
            Family::V4 => put_head(b"inet", self.name, out),
            Family::V6 => put_head(b"inet6", self.name, out),
        }
    }
}

#[tactic(auto, unfolding(crate::specs::Texts::head_rows))]
fn put_head<'a, O: Out>(family: &'a [u8], name: &'a [u8], out: &mut O) -> Result<(), PutFault>
    requires { IsTrue (O.is_open out.old) }
    ensures { Puts O.Out out.old out.new (text_of_rows (head_rows family.now name.now)) result }
{
    let comment = FixedLine {
        indent: 0,
        first: b"/*",
        rest: &[b"juniper", name, family, b"*/"],
    };
    let firewall = FixedLine {
        indent: 0,
        first: b"firewall",
        rest: &[b"{"],
    };
    let of_family = FixedLine {
        indent: 4,
        first: b"family",
        rest: &[family, b"{"],
    };
    let filter = FixedLine {
        indent: 8,
        first: b"replace:",
        rest: &[b"filter", name, b"{"],
    };
    (comment, (firewall, (of_family, filter))).put_rows(out)
}

/// The rows that end a section.
#[derive(Drop)]
pub struct SectionEnd;

impl Rows for SectionEnd {
    ghost rows = { λ e. end_rows };

    fn put_rows<O: Out>(&self, out: &mut O) -> Result<(), PutFault> {
        let outer = (Closing { indent: 4 }, Closing { indent: 0 });
        (Closing { indent: 8 }, outer).put_rows(out)
    }
}

/// The row of a comment before a term.
#[derive(Drop)]
pub struct NoteRow<'a> {
    pub text: &'a [u8],
}

impl<'a> Rows for NoteRow<'a> {
    ghost rows = { λ n. note_row n.text.now ∷ [] };

    #[tactic(auto, unfolding(crate::specs::Texts::note_row))]
    fn put_rows<O: Out>(&self, out: &mut O) -> Result<(), PutFault> {
        let end = OneWord {
            piece: b"*/".as_slice(),
        };
        let row = Row {
            indent: 12,
            first: b"/*".as_slice(),
            rest: (FreeText { text: self.text }, end),
        };
        row.put_rows(out)
    }
}

/// The row that begins a term.
#[derive(Drop)]
pub struct TermHead<'a> {
    pub name: &'a [u8],
}

impl<'a> Rows for TermHead<'a> {
    ghost rows = { λ h. term_row h.name.now ∷ [] };

    fn put_rows<O: Out>(&self, out: &mut O) -> Result<(), PutFault> {
        let name = OneWord { piece: self.name };
        let brace = OneWord {
            piece: b"{".as_slice(),
        };
        let row = Row {
            indent: 12,
            first: b"term".as_slice(),
            rest: (name, brace),
        };
        row.put_rows(out)
    }
}

/// The row that ends a term.
#[derive(Drop)]
pub struct TermEnd;

impl Rows for TermEnd {
    ghost rows = { λ e. closing 12 ∷ [] };

    fn put_rows<O: Out>(&self, out: &mut O) -> Result<(), PutFault> {
        FixedRow::TermEnd.put_rows(out)
    }
}

/// The rows of what a term does.
#[derive(Drop)]
pub struct ThenRows {
    pub syslog: bool,
    pub verdict: Verdict,
}

impl Rows for ThenRows {
    ghost rows = { λ t. then_rows t.syslog t.verdict };

    #[tactic(auto, unfolding(crate::specs::Texts::then_rows))]
    fn put_rows<O: Out>(&self, out: &mut O) -> Result<(), PutFault> {
        let syslog = SyslogRow {
            syslog: self.syslog,
        };
        let verdict = FixedRow::of_verdict(self.verdict);
        (FixedRow::ThenHead, (syslog, (verdict, FixedRow::PartEnd))).put_rows(out)
    }
}

#[derive(Drop)]
struct SyslogRow {
    syslog: bool,
}

impl Rows for SyslogRow {
    ghost rows = { λ s. syslog_rows s.syslog };

    fn put_rows<O: Out>(&self, out: &mut O) -> Result<(), PutFault> {
        if self.syslog {
            FixedRow::Syslog.put_rows(out)
        } else {
            Ok(())
        }
    }
}
