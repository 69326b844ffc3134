ghost use Rattle.std.specs.Prelude.{◌≡◌, true, IfOk, OnOk};
ghost use Rattle.acl_text.specs.Answers.{Gives, Leaves, slip_told};
ghost use Rattle.acl_policy.specs.Keywords.{entry, row_of};
ghost use Rattle.acl_policy.specs.Terms.{
  first_word,
  first_day,
  with_values,
  has_stood,
  item_checked,
  item_behind,
  draft_behind,
};
ghost use Rattle.acl_policy.specs.Values.{ArePlain, takes_words};

use crate::clauses::Clause;
use crate::keywords::{Keyword, KeywordRow, row_named};
use crate::raw_terms::no_word;
use crate::term_drafts::{TermDraft, add_comments};
use crate::values::{check_one, check_values, word_of};
use crate::word_slips::refusal_at;
use acl_host::{Day, read_day};
use acl_text::{Code, Memory, Refusal};
use acl_words::{Token, Word};
use std::alloc::Global;

fn first_word(alloc: Global, values: &[Token<'_>]) -> Result<Word, Memory>
    ensures { IfOk result (λ w. w ≡ first_word values.now) }
{
    match values {
        [] => Ok(no_word(alloc)),
        [value, ..] => word_of(alloc, value),
    }
}

fn first_day(values: &[Token<'_>]) -> Option<Day>
    ensures { result ≡ first_day values.now }
{
    match values {
        [] => None,
        [value, ..] => read_day(value.text()),
    }
}

fn put_action(alloc: Global, draft: &mut TermDraft, values: &[Token<'_>]) -> Result<(), Memory>
    ensures { OnOk result (draft.new ≡ with_values draft.old Keyword.Action values.now) }
{
    draft.term.set_action(first_word(alloc, values)?);
    draft.has_action = true;
    Ok(())
}

/// Puts the values of a keyword into the draft.
fn put_values(
    alloc: Global,
    draft: &mut TermDraft,
    keyword: Keyword,
    values: &[Token<'_>],
) -> Result<(), Memory>
    requires { takes_words (entry keyword).takes ≡ true → ArePlain values.now }
    ensures { OnOk result (draft.new ≡ with_values draft.old keyword values.now) }
{
    match keyword {
        Keyword::Comment => add_comments(draft, values),
        Keyword::Owner => {
            draft.has_owner = true;
            Ok(())
        }
        Keyword::Action => put_action(alloc, draft, values),
        Keyword::Logging => {
            draft.term.set_logging();
            Ok(())
        }
        Keyword::Expiration => {
            draft.term.set_expires(first_day(values));
            Ok(())
        }
        _ => draft.term.push_all(alloc, keyword, values),
    }
}

/// Whether a keyword that stands once has stood.
fn has_stood(draft: &TermDraft, keyword: Keyword) -> bool
    ensures { result ≡ has_stood draft.now keyword }
{
    match keyword {
        Keyword::Owner => draft.has_owner,
        Keyword::Action => draft.has_action,
        Keyword::Logging => draft.term.logging(),
        Keyword::Expiration => draft.term.expires().is_some(),
        _ => false,
    }
}

fn check_item(
    alloc: Global,
    row: KeywordRow,
    draft: &TermDraft,
    clause: &Clause<'_>,
) -> Result<(), Refusal>
    ensures { Gives slip_told result
        (item_checked row draft.now clause.now.keyword.now clause.now.values.now) }
{
    if !row.once {
        return check_values(alloc, row.takes, clause);
    }
    if has_stood(draft, row.keyword) {
        return Err(refusal_at(alloc, Code::Repeated, clause.keyword));
    }
    check_one(alloc, row.takes, clause)
}

#[tactic(auto, unfolding(crate::specs::Terms::item_behind))]
fn judge_item(
    alloc: Global,
    row: KeywordRow,
    draft: &mut TermDraft,
    clause: &Clause<'_>,
) -> Result<(), Refusal>
    requires { row ≡ row_of row.keyword }
    ensures { Leaves slip_told draft.new result
        (item_behind row draft.old clause.now.keyword.now clause.now.values.now) }
{
    check_item(alloc, row, draft, clause)?;
    put_values(alloc, draft, row.keyword, clause.values)?;
    Ok(())
}

/// Judges a keyword of a term with its values, and puts them into the draft.
#[tactic(auto, unfolding(crate::specs::Terms::draft_behind))]
pub(crate) fn judge_term_keyword(
    alloc: Global,
    draft: &mut TermDraft,
    clause: &Clause<'_>,
) -> Result<(), Refusal>
    ensures { Leaves slip_told draft.new result
        (draft_behind draft.old clause.now.keyword.now clause.now.values.now) }
{
    match row_named(clause.keyword.text()) {
        None => Err(refusal_at(alloc, Code::Keyword, clause.keyword)),
        Some(row) => judge_item(alloc, row, draft, clause),
    }
}
