ghost use Rattle.std.specs.Prelude.{◌≡◌, ◌∷◌, [], codes};
ghost use Rattle.acl_rows.specs.Rows.{row, text_of_rows};
ghost use Rattle.junos_lang.specs.FixedRows.{fixed_row};
ghost use Rattle.junos_lang.specs.Texts.{end_word, test_words, verdict_words};

use crate::documents::JTest;
use acl_packet::Verdict;
use acl_rows::{End, Rows};
use acl_text::{Out, PutFault};

/// A row of a term that is the same wherever it stands. Its line is put as it is.
#[derive(Clone, Copy)]
pub(crate) enum FixedRow {
    FromHead,
    ThenHead,
    /// Ends the conditions of a term, or what it does.
    PartEnd,
    TermEnd,
    SourceHead,
    DestinationHead,
    AddressEnd,
    Established,
    Initial,
    Rst,
    Syslog,
    Accept,
    Discard,
    Reject,
    Reset,
}

impl Rows for FixedRow {
    ghost rows = { λ r. fixed_row r ∷ [] };

    #[inline]
    fn put_rows<O: Out>(&self, out: &mut O) -> Result<(), PutFault> {
        out.put(line_of(*self))
    }
}

#[inline]
#[tactic(auto, unfolding(acl_rows::specs::Rows::row_text))]
fn line_of(row: FixedRow) -> &'static [u8]
    ensures { result.now ≡ text_of_rows (fixed_row row ∷ []) }
{
    match row {
        FixedRow::FromHead => b"                from {\n",
        FixedRow::ThenHead => b"                then {\n",
        FixedRow::PartEnd => b"                }\n",
        FixedRow::TermEnd => b"            }\n",
        FixedRow::SourceHead => b"                    source-address {\n",
        FixedRow::DestinationHead => b"                    destination-address {\n",
        FixedRow::AddressEnd => b"                    }\n",
        FixedRow::Established => b"                    tcp-established;\n",
        FixedRow::Initial => b"                    tcp-initial;\n",
        FixedRow::Rst => b"                    tcp-flags \"rst\";\n",
        FixedRow::Syslog => b"                    syslog;\n",
        FixedRow::Accept => b"                    accept;\n",
        FixedRow::Discard => b"                    discard;\n",
        FixedRow::Reject => b"                    reject;\n",
        FixedRow::Reset => b"                    reject tcp-reset;\n",
    }
}

impl FixedRow {
    /// The row that begins the addresses of the end.
    #[inline]
    pub(crate) fn head_of(end: End) -> FixedRow
        ensures { fixed_row result ≡ row 20 (end_word end ∷ codes "{" ∷ []) }
    {
        match end {
            End::Source => FixedRow::SourceHead,
            End::Destination => FixedRow::DestinationHead,
        }
    }

    /// The row of the test.
    #[inline]
    pub(crate) fn of_test(test: JTest) -> FixedRow
        ensures { fixed_row result ≡ row 20 (test_words test) }
    {
        match test {
            JTest::Established => FixedRow::Established,
            JTest::Initial => FixedRow::Initial,
            JTest::Rst => FixedRow::Rst,
        }
    }

    /// The row of the verdict.
    #[inline]
    pub(crate) fn of_verdict(verdict: Verdict) -> FixedRow
        ensures { fixed_row result ≡ row 20 (verdict_words verdict) }
    {
        match verdict {
            Verdict::Accept => FixedRow::Accept,
            Verdict::Deny | Verdict::Left => FixedRow::Discard,
            Verdict::Reject => FixedRow::Reject,
            Verdict::Reset => FixedRow::Reset,
        }
    }
}
