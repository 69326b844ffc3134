ghost use Rattle.std.specs.Prelude.{◌≡◌, ◌≤◌, ◌++◌, ℕ, IfOk, IfSome, List, OnOk, codes, if◌then◌else◌, length, not};
ghost use Rattle.std.specs.List.{prefix_len};
ghost use Rattle.std.specs.Option.{IsSomeAnd};
ghost use Rattle.acl_rows.specs.RowSteps.{row_in, rows_in};
ghost use Rattle.acl_rows.specs.Rows.{is_space, row, text_of_rows};
ghost use Rattle.junos_lang.specs.Documents.{IsTerm};
ghost use Rattle.junos_lang.specs.ReadingSteps.{take_row};
ghost use Rattle.junos_lang.specs.ScanSteps.{HasTerm, IsTermTaken, TakesTerm, ends_term, is_short, read_term, term_in};
ghost use Rattle.junos_lang.specs.Texts.{note_rows};

use crate::document_rows::{Note, TermRows};
use crate::documents::JTerm;
use crate::filters_drafts::FiltersDraft;
use crate::validity::is_term;
use acl_packet::Family;
use acl_rows::{Draft, RowWords, indent_of, rows_behind};
use acl_text::{Memory, behind, split_at_byte};
use std::alloc::Global;

/// A term that was taken from the front of a text, its name there, and what the text has behind it.
#[derive(Drop)]
pub(crate) struct TakenTerm<'a> {
    pub(crate) term: JTerm,
    pub(crate) name: &'a [u8],
    pub(crate) rest: &'a [u8],
}

/// Takes the term of a filter of the family that the text begins with. `None` where it begins with
/// no valid term.
pub(crate) fn take_term<'a>(
    alloc: Global,
    family: Family,
    text: &'a [u8],
) -> Result<Option<TakenTerm<'a>>, Memory>
    ensures { IfOk result (TakesTerm family text.now) }
{
    // a filter's end is indented less, and nothing behind it is read
    if behind(text, b"            ").is_none() {
        return Ok(None);
    }
    let term = read_term(alloc, family, text)?;
    Ok(taken_term(family, text, term))
}

// The term, where it is valid and the text begins with its rows.
fn taken_term<'a>(family: Family, text: &'a [u8], term: JTerm) -> Option<TakenTerm<'a>>
    ensures some { IfSome result (IsTermTaken family text.now) }
    ensures each { (rest : List ℕ) → IsTerm family term → HasTerm family text.now term rest
        → IsSomeAnd result (λ u. (u.term ≡ term) × (u.rest.now ≡ rest)) }
{
    if !is_term(family, &term) {
        return None;
    }
    let rows = TermRows {
        family,
        term: &term,
    };
    let rest = rows_behind(text, &rows)?;
    let name = name_in(text, &term)?;
    Some(TakenTerm { term, name, rest })
}

// The name of the term that the text begins with, where it stands there.
fn name_in<'a>(text: &'a [u8], term: &JTerm) -> Option<&'a [u8]>
    ensures some { IfSome result (λ name. name.now ≡ term.now.name) }
    ensures each { (rest : List ℕ)
        → text.now ≡ text_of_rows (note_rows term.now.note)
        ++ (codes "            term " ++ (term.now.name ++ rest))
        → IsSomeAnd result (λ name. name.now ≡ term.now.name) }
{
    let head = rows_behind(text, &Note { note: &term.note })?;
    let words = behind(head, b"            term ")?;
    let name = term.name.as_slice();
    let (front, _) = words.split_at_checked(name.len())?;
    if front == name { Some(front) } else { None }
}

// Reads the rows up to one that ends the term.
#[tactic(auto, unfolding(crate::specs::ScanSteps::term_in))]
fn read_term(alloc: Global, family: Family, text: &[u8]) -> Result<JTerm, Memory>
    ensures { IfOk result (λ term. term ≡ term_in family text.now) }
{
    let mut draft = FiltersDraft::of_family(alloc, family);
    take_rows(alloc, &mut draft, text)?;
    Ok(draft.into_term())
}

// Takes the rows up to one that ends the term.
#[tactic(auto, using(acl_rows::proofs::RowLaws::first_row, acl_rows::proofs::RowLaws::last_row, acl_rows::proofs::RowLaws::rest_is_shorter))]
fn take_rows(alloc: Global, draft: &mut FiltersDraft, text: &[u8]) -> Result<(), Memory>
    ensures { OnOk result (draft.new ≡ read_term draft.old (rows_in text.now)) }
{
    let mut rest = text;
    while let Some((line, behind)) = split_at_byte(rest, b'\n') {
        if !take_line(alloc, draft, line)? {
            return Ok(());
        }
        rest = behind;
    }
    take_line(alloc, draft, rest)?;
    Ok(())
}

// Takes the row of the line, unless it ends the term. Whether it was taken.
#[tactic(auto, unfolding(acl_rows::specs::RowSteps::row_in))]
fn take_line(alloc: Global, draft: &mut FiltersDraft, line: &[u8]) -> Result<bool, Memory>
    ensures taken { IfOk result (λ b. b ≡ not (ends_term (row_in line.now))) }
    ensures draft { OnOk result (draft.new ≡ (if ends_term (row_in line.now) then draft.old
        else take_row draft.old (row_in line.now))) }
{
    let indent = indent_of(line);
    let words = RowWords::new(&line[indent..]);
    if ends_term(indent, &words) {
        return Ok(false);
    }
    draft.take_row(alloc, indent, words)?;
    Ok(true)
}

#[tactic(auto, unfolding(crate::specs::ScanSteps::ends_term))]
fn ends_term(indent: usize, words: &RowWords<'_>) -> bool
    ensures { result ≡ ends_term (row indent words.now) }
{
    indent <= 12 && is_short(words)
}

// Whether there is one word, or none.
fn is_short(words: &RowWords<'_>) -> bool
    ensures { result ≡ is_short words.now }
{
    let mut rest = words.copy();
    rest.next();
    rest.next().is_none()
}
