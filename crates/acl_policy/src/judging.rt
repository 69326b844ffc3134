ghost use Rattle.std.specs.Prelude.{◌≡◌, ◌+◌, ◌<◌, OnOk};
ghost use Rattle.acl_text.specs.Answers.{Leaves, slip_told};
ghost use Rattle.acl_policy.specs.Policies.{
  behind_target,
  behind_header_keyword,
  behind_name,
  with_block,
  with_term,
  behind_word,
  behind_words,
  behind_keyword,
  behind_begin,
  behind_end,
  behind_mark,
};

use crate::blocks::Block;
use crate::choices::is_word;
use crate::clashes::{clashes, count_of};
use crate::clauses::Clause;
use crate::copies::copy_target;
use crate::open_terms::OpenTerm;
use crate::states::{Part, PolicyState};
use crate::target_lines::{NamedTarget, read_target_line};
use crate::term_drafts::{TermDraft, draft_of};
use crate::values::{Takes, check_values, is_text, is_value, word_of};
use crate::word_slips::{refusal_at, refusal_for};
use acl_text::{Code, Items, Memory, Refusal};
use acl_words::{Form, Token};
use std::alloc::Global;
use std::mem;

const MOST_TARGETS: usize = 64;

const MOST_TERMS: usize = 1024;

#[tactic(auto, unfolding(crate::specs::Policies::behind_target))]
fn judge_target(
    alloc: Global,
    state: &mut PolicyState,
    keyword: &Token<'_>,
    named: NamedTarget,
) -> Result<(), Refusal>
    ensures { Leaves slip_told state.new result (behind_target state.old keyword.now named) }
{
    let NamedTarget { mut target, place } = named;
    let earlier = state.earlier.as_slice();
    if clashes(earlier, &target) {
        let word = target.name.as_slice();
        return Err(Refusal::at(alloc, Code::FilterTwice, place, word));
    }
    if earlier.len() >= MOST_TARGETS {
        return Err(refusal_at(alloc, Code::TooMany, keyword));
    }
    target.number = count_of(earlier, target.kind) as u32 + 1;
    state.earlier.push(copy_target(alloc, &target)?)?;
    state.targets.push(target)?;
    Ok(())
}

#[tactic(auto, unfolding(crate::specs::Policies::behind_header_keyword))]
fn judge_header_keyword(
    alloc: Global,
    state: &mut PolicyState,
    clause: &Clause<'_>,
) -> Result<(), Refusal>
    ensures { Leaves slip_told state.new result
        (behind_header_keyword state.old clause.now.keyword.now clause.now.values.now) }
{
    if is_text(clause.keyword, b"comment::") {
        check_values(alloc, Takes::String, clause)?;
        Ok(())
    } else if is_text(clause.keyword, b"target::") {
        let named = read_target_line(alloc, clause)?;
        judge_target(alloc, state, clause.keyword, named)
    } else {
        Err(refusal_at(alloc, Code::Keyword, clause.keyword))
    }
}

fn begin_term(state: &mut PolicyState, draft: TermDraft)
    requires { state.old.term_count < 1024 }
    ensures { state.new ≡ record state.old {
      draft = draft;
      term_count = state.old.term_count + 1;
      part = Part.Named;
    } }
{
    state.draft = OpenTerm::begun(draft);
    state.term_count += 1;
    state.part = Part::Named;
}

#[tactic(auto, unfolding(crate::specs::Policies::behind_name))]
fn judge_name(alloc: Global, state: &mut PolicyState, word: &Token<'_>) -> Result<(), Refusal>
    ensures { Leaves slip_told state.new result (behind_name state.old word.now) }
{
    if !is_value(Takes::Name, word) {
        return Err(refusal_for(alloc, Code::Syntax, word));
    }
    if state.terms.have_name(word.text()) {
        return Err(refusal_at(alloc, Code::TermTwice, word));
    }
    if state.term_count >= MOST_TERMS {
        return Err(refusal_at(alloc, Code::TooMany, word));
    }
    begin_term(state, draft_of(alloc, word_of(alloc, word)?));
    Ok(())
}

/// Makes a block of the targets and terms since its header.
pub(crate) fn end_block(alloc: Global, state: &mut PolicyState) -> Result<(), Memory>
    ensures { OnOk result (state.new ≡ with_block state.old) }
{
    let targets = mem::replace(&mut state.targets, Items::new(alloc));
    let terms = state.terms.take(alloc);
    state.blocks.push(Block { targets, terms })
}

fn end_term(alloc: Global, state: &mut PolicyState) -> Result<(), Memory>
    ensures { OnOk result (state.new ≡ with_term state.old) }
{
    let term = state.draft.end(alloc);
    state.terms.push(term)?;
    state.part = Part::TermEnd;
    Ok(())
}

#[tactic(auto, unfolding(crate::specs::Policies::behind_word))]
fn judge_start(alloc: Global, state: &mut PolicyState, word: &Token<'_>) -> Result<(), Refusal>
    ensures { Leaves slip_told state.new result (behind_word Part.Start state.old word.now) }
{
    if is_word(word, b"header") {
        state.part = Part::Header;
        Ok(())
    } else {
        Err(refusal_for(alloc, Code::Syntax, word))
    }
}

#[tactic(auto, unfolding(crate::specs::Policies::behind_word))]
fn judge_behind_header(
    alloc: Global,
    state: &mut PolicyState,
    word: &Token<'_>,
) -> Result<(), Refusal>
    ensures { Leaves slip_told state.new result (behind_word Part.HeaderEnd state.old word.now) }
{
    if is_word(word, b"term") {
        state.part = Part::Term;
        Ok(())
    } else if is_word(word, b"header") {
        Err(Refusal::at(alloc, Code::Missing, word.place(), b"term"))
    } else {
        Err(refusal_for(alloc, Code::Syntax, word))
    }
}

#[tactic(auto, unfolding(crate::specs::Policies::behind_word))]
fn judge_behind_term(
    alloc: Global,
    state: &mut PolicyState,
    word: &Token<'_>,
) -> Result<(), Refusal>
    ensures { Leaves slip_told state.new result (behind_word Part.TermEnd state.old word.now) }
{
    if is_word(word, b"term") {
        state.part = Part::Term;
        Ok(())
    } else if is_word(word, b"header") {
        end_block(alloc, state)?;
        state.part = Part::Header;
        Ok(())
    } else {
        Err(refusal_for(alloc, Code::Syntax, word))
    }
}

#[tactic(auto, unfolding(crate::specs::Policies::behind_word))]
fn judge_word(
    alloc: Global,
    part: Part,
    state: &mut PolicyState,
    word: &Token<'_>,
) -> Result<(), Refusal>
    ensures { Leaves slip_told state.new result (behind_word part state.old word.now) }
{
    match part {
        Part::Start => judge_start(alloc, state, word),
        Part::HeaderEnd => judge_behind_header(alloc, state, word),
        Part::Term => judge_name(alloc, state, word),
        Part::TermEnd => judge_behind_term(alloc, state, word),
        _ => Err(refusal_for(alloc, Code::Syntax, word)),
    }
}

/// Judges words that are no values of a keyword.
pub(crate) fn judge_words(
    alloc: Global,
    state: &mut PolicyState,
    words: &[Token<'_>],
) -> Result<(), Refusal>
    ensures { Leaves slip_told state.new result (behind_words state.old words.now) }
{
    for word in words {
        judge_word(alloc, state.part, state, word)?;
    }
    Ok(())
}

#[tactic(auto, unfolding(crate::specs::Policies::behind_keyword))]
fn judge_keyword(
    alloc: Global,
    part: Part,
    state: &mut PolicyState,
    clause: &Clause<'_>,
) -> Result<(), Refusal>
    ensures { Leaves slip_told state.new result
        (behind_keyword part state.old clause.now.keyword.now clause.now.values.now) }
{
    match part {
        Part::InHeader => judge_header_keyword(alloc, state, clause),
        Part::InTerm => {
            state.draft.judge_keyword(alloc, clause)?;
            Ok(())
        }
        _ => Err(refusal_at(alloc, Code::Syntax, clause.keyword)),
    }
}

#[tactic(auto, unfolding(crate::specs::Policies::behind_begin))]
fn judge_begin(
    alloc: Global,
    part: Part,
    state: &mut PolicyState,
    brace: &Token<'_>,
) -> Result<(), Refusal>
    ensures { Leaves slip_told state.new result (behind_begin part state.old brace.now) }
{
    match part {
        Part::Header => {
            state.part = Part::InHeader;
            Ok(())
        }
        Part::Named => {
            state.part = Part::InTerm;
            Ok(())
        }
        _ => Err(refusal_at(alloc, Code::Syntax, brace)),
    }
}

#[tactic(auto, unfolding(crate::specs::Policies::behind_end))]
fn judge_header_end(
    alloc: Global,
    state: &mut PolicyState,
    brace: &Token<'_>,
) -> Result<(), Refusal>
    ensures { Leaves slip_told state.new result (behind_end Part.InHeader state.old brace.now) }
{
    if state.targets.as_slice().is_empty() {
        return Err(Refusal::at(alloc, Code::Missing, brace.place(), b"target::"));
    }
    state.part = Part::HeaderEnd;
    Ok(())
}

#[tactic(auto, unfolding(crate::specs::Policies::behind_end))]
fn judge_term_end(alloc: Global, state: &mut PolicyState, brace: &Token<'_>) -> Result<(), Refusal>
    ensures { Leaves slip_told state.new result (behind_end Part.InTerm state.old brace.now) }
{
    if !state.draft.has_action() {
        return Err(Refusal::at(alloc, Code::Missing, brace.place(), b"action::"));
    }
    end_term(alloc, state)?;
    Ok(())
}

#[tactic(auto, unfolding(crate::specs::Policies::behind_end))]
fn judge_end(
    alloc: Global,
    part: Part,
    state: &mut PolicyState,
    brace: &Token<'_>,
) -> Result<(), Refusal>
    ensures { Leaves slip_told state.new result (behind_end part state.old brace.now) }
{
    match part {
        Part::InHeader => judge_header_end(alloc, state, brace),
        Part::InTerm => judge_term_end(alloc, state, brace),
        _ => Err(refusal_at(alloc, Code::Syntax, brace)),
    }
}

/// Judges a keyword or a brace with the words behind it up to the next one.
#[tactic(auto, unfolding(crate::specs::Policies::behind_mark))]
pub(crate) fn judge_mark(
    alloc: Global,
    state: &mut PolicyState,
    clause: &Clause<'_>,
) -> Result<(), Refusal>
    ensures { Leaves slip_told state.new result (behind_mark clause.now.keyword.now.form state.old
        clause.now.keyword.now clause.now.values.now) }
{
    match clause.keyword.form() {
        Form::Keyword => judge_keyword(alloc, state.part, state, clause),
        Form::Begin => {
            judge_begin(alloc, state.part, state, clause.keyword)?;
            judge_words(alloc, state, clause.values)
        }
        _ => {
            judge_end(alloc, state.part, state, clause.keyword)?;
            judge_words(alloc, state, clause.values)
        }
    }
}
