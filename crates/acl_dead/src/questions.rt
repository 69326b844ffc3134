ghost use Rattle.std.specs.Prelude.{◌≡◌, ◌∷◌, ◌<◌, IfOk, map, length, take, slice_index_or};
ghost use Rattle.std.specs.List.{filter, list_any};
ghost use Rattle.acl_dead.specs.Deciding.{asks_option, is_live_on, question_of, some_option};
ghost use Rattle.acl_dead.specs.QuestionSteps.{question};
ghost use Rattle.acl_terms.specs.Outcomes.{mode_of};

use acl_host::Day;
use acl_target::Target;
use acl_terms::{Mode, Opt, Term, is_live};
use acl_text::Memory;
use std::alloc::Global;

/// The question about a term on a target: `earlier` are the terms before it that are live there.
#[derive(Drop)]
pub(crate) struct Asked<'a> {
    pub(crate) target: &'a Target,
    pub(crate) today: Day,
    pub(crate) earlier: Vec<&'a Term>,
    pub(crate) term: &'a Term,
}

fn live_terms<'a>(
    alloc: Global,
    terms: &'a [Term],
    target: &Target,
    today: Day,
) -> Result<Vec<&'a Term>, Memory>
    ensures { IfOk result (λ v.
        map (λ t. t.now) v.items ≡ filter (λ t. is_live_on target.now today t) terms.now) }
{
    let mut out = Vec::new(alloc);
    for term in terms {
        if is_live(term, target.kind, today) {
            out.push(term)?;
        }
    }
    Ok(out)
}

fn has_option(term: &Term) -> bool
    ensures { result ≡ asks_option term.now.option }
{
    term.option != Opt::Plain
}

impl<'a> Asked<'a> {
    /// The question about a term that stands behind others.
    pub(crate) fn new(
        alloc: Global,
        before: &'a [Term],
        term: &'a Term,
        target: &'a Target,
        today: Day,
    ) -> Result<Asked<'a>, Memory>
        ensures { IfOk result (λ a. question a ≡ question_of target.now today before.now term.now) }
    {
        Ok(Asked {
            target,
            today,
            earlier: live_terms(alloc, before, target, today)?,
            term,
        })
    }

    /// Whether the target knows connections.
    pub(crate) fn mode(&self) -> Mode
        ensures { result ≡ mode_of self.now.target.now }
    {
        if self.target.stateful {
            Mode::Stateful
        } else {
            Mode::Stateless
        }
    }

    /// Whether the term is live on the target.
    pub(crate) fn is_live(&self) -> bool
        ensures { result ≡ is_live_on self.now.target.now self.now.today self.now.term.now }
    {
        is_live(self.term, self.target.kind, self.today)
    }

    /// Whether the term or an earlier one has an option.
    pub(crate) fn has_option(&self) -> bool
        ensures { result ≡ some_option (question self.now) }
    {
        has_option(self.term) || any_option(&self.earlier)
    }
}

fn any_option(terms: &[&Term]) -> bool
    ensures { result ≡ list_any (λ t. asks_option t.now.option) terms.now }
{
    terms.iter().any(|term| has_option(term))
}
