ghost use Rattle.std.specs.Prelude.{◌≡◌};
ghost use Rattle.acl_text.specs.Answers.{Leaves, slip_told};
ghost use Rattle.acl_policy.specs.Terms.{draft_behind, no_draft};

use crate::clauses::Clause;
use crate::raw_terms::RawTerm;
use crate::term_drafts::{TermDraft, no_draft};
use crate::terms::judge_term_keyword;
use acl_text::Refusal;
use std::alloc::Global;
use std::marker::Model;

/// The term whose braces are open, if any. A contract sees its draft, or that of no name where no term is open.
#[derive(Drop)]
pub(crate) struct OpenTerm {
    draft: Option<TermDraft>,
}

impl Model for OpenTerm {
    ghost use Rattle.std.specs.Option.{option_map_or};
    ghost use Rattle.acl_policy.specs.declared.term_drafts.TermDraft.{TermDraft};
    ghost use Rattle.acl_policy.specs.Terms.{no_draft};

    ghost Value = { TermDraft };

    ghost view = { λ t. option_map_or (λ d. d) t.draft no_draft };
}

impl OpenTerm {
    /// No term is open.
    pub(crate) fn none() -> OpenTerm
        ensures { result ≡ no_draft }
    {
        OpenTerm { draft: None }
    }

    /// The term of the draft is open.
    pub(crate) fn begun(draft: TermDraft) -> OpenTerm
        ensures { result ≡ draft }
    {
        OpenTerm { draft: Some(draft) }
    }

    pub(crate) fn has_action(&self) -> bool
        ensures { result ≡ self.now.has_action }
    {
        match &self.draft {
            Some(draft) => draft.has_action,
            None => false,
        }
    }

    /// Judges a keyword of the term with its values, and puts them into the draft.
    pub(crate) fn judge_keyword(
        &mut self,
        alloc: Global,
        clause: &Clause<'_>,
    ) -> Result<(), Refusal>
        ensures { Leaves slip_told self.new result
            (draft_behind self.old clause.now.keyword.now clause.now.values.now) }
    {
        if let Some(draft) = &mut self.draft {
            return judge_term_keyword(alloc, draft, clause);
        }
        let mut draft = no_draft(alloc);
        judge_term_keyword(alloc, &mut draft, clause)?;
        self.draft = Some(draft);
        Ok(())
    }

    /// The term, which is open no longer.
    pub(crate) fn end(&mut self, alloc: Global) -> RawTerm
        ensures term { result ≡ self.old.term }
        ensures none { self.new ≡ no_draft }
    {
        match self.draft.take() {
            Some(draft) => draft.term,
            None => no_draft(alloc).term,
        }
    }
}
