ghost use Rattle.std.specs.Prelude.{◌≡◌, [], ◌++◌, IfOk, OnOk};
ghost use Rattle.acl_policy.specs.Terms.{draft_of, no_draft, with_comment, with_comments};

use crate::raw_terms::{RawTerm, no_word};
use acl_text::Memory;
use acl_words::{Token, Word};
use std::alloc::Global;

/// A term whose braces are open, and what stood in it already.
#[derive(Drop)]
pub(crate) struct TermDraft {
    pub(crate) term: RawTerm,
    /// Whether a string of `comment::` stood there: strings may be empty.
    pub(crate) has_comment: bool,
    pub(crate) has_owner: bool,
    pub(crate) has_action: bool,
}

/// The draft of a term of the name, before its first keyword.
pub(crate) fn draft_of(alloc: Global, name: Word) -> TermDraft
    ensures { result ≡ draft_of name }
{
    TermDraft {
        term: RawTerm::new(alloc, name),
        has_comment: false,
        has_owner: false,
        has_action: false,
    }
}

/// What stands where no term is open.
pub(crate) fn no_draft(alloc: Global) -> TermDraft
    ensures { result ≡ no_draft }
{
    draft_of(alloc, no_word(alloc))
}

fn add_comment(draft: &mut TermDraft, text: &[u8]) -> Result<(), Memory>
    ensures { OnOk result (draft.new ≡ with_comment draft.old text.now) }
{
    if draft.has_comment {
        draft.term.push_comment(b" ")?;
    }
    draft.term.push_comment(text)?;
    draft.has_comment = true;
    Ok(())
}

/// Adds the strings to the term's comment.
pub(crate) fn add_comments(draft: &mut TermDraft, values: &[Token<'_>]) -> Result<(), Memory>
    ensures { OnOk result (draft.new ≡ with_comments draft.old values.now) }
{
    for value in values {
        add_comment(draft, value.text())?;
    }
    Ok(())
}
