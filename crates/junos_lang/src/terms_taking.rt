ghost use Rattle.std.specs.Prelude.{◌≡◌, IfOk};
ghost use Rattle.acl_text.specs.Cuts.{views};
ghost use Rattle.junos_lang.specs.ScanSteps.{EndsBody, TakesBody, at_end, decided_with};

use crate::documents::JTerm;
use crate::filter_rows::SectionEnd;
use crate::term_taking::take_term;
use crate::walking::{decided_by, term_holds};
use acl_packet::{Family, Outcome, Packet, Verdict};
use acl_rows::{are_distinct_names, rows_behind};
use acl_text::Memory;
use std::alloc::Global;

/// What the terms at the front of a text do to a packet, and what the text has behind the end of
/// their filter.
#[derive(Clone, Copy, Drop)]
pub(crate) struct TakenTerms<'a> {
    pub(crate) outcome: Outcome,
    pub(crate) rest: &'a [u8],
}

/// Takes the terms of a filter of the family that the text begins with, and the rows that end the
/// filter. One term at a time is held, and the names of all. `None` where these are no terms of a
/// filter.
pub(crate) fn take_terms<'a>(
    alloc: Global,
    family: Family,
    text: &'a [u8],
    packet: &Packet,
) -> Result<Option<TakenTerms<'a>>, Memory>
    ensures { IfOk result (TakesBody family text.now packet.now) }
{
    let mut names = Vec::new(alloc);
    let mut decided = None;
    let mut rest = text;
    while let Some(taken) = take_term(alloc, family, rest)? {
        names.push(taken.name)?;
        decided = decided_with(decided, &taken.term, packet);
        rest = taken.rest;
    }
    Ok(end_body(names, decided, rest))
}

// What has been decided, with one more term.
fn decided_with(decided: Option<Outcome>, term: &JTerm, packet: &Packet) -> Option<Outcome>
    ensures { result ≡ decided_with decided term.now packet.now }
{
    match decided {
        Some(outcome) => Some(outcome),
        None if term_holds(term, packet) => Some(decided_by(term)),
        None => None,
    }
}

// Takes the rows that end a filter, whose terms have these names.
fn end_body<'a>(
    names: Vec<&[u8]>,
    decided: Option<Outcome>,
    text: &'a [u8],
) -> Option<TakenTerms<'a>>
    ensures { EndsBody (views names.entry.items) decided text.now result }
{
    let rest = rows_behind(text, &SectionEnd)?;
    if names.is_empty() || !are_distinct_names(names) {
        return None;
    }
    let outcome = at_end(decided);
    Some(TakenTerms { outcome, rest })
}

fn at_end(decided: Option<Outcome>) -> Outcome
    ensures { result ≡ at_end decided }
{
    match decided {
        Some(outcome) => outcome,
        None => Outcome::unlogged(Verdict::Deny),
    }
}
