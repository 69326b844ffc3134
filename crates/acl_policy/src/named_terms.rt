ghost use Rattle.std.specs.Prelude.{◌≡◌, ◌++◌, [], ◌∷◌, OnOk, OnErr};
ghost use Rattle.std.specs.List.{list_any};
ghost use Rattle.std.specs.Str.{bytes_eq};

use crate::raw_terms::{RawTerm, RawTerms};
use acl_text::{Items, Memory, SeenNames};
use std::alloc::Global;
use std::marker::Model;
use std::mem;

/// Terms, whose names are found without a look at each. A contract sees their list.
#[derive(Drop)]
pub(crate) struct NamedTerms {
    terms: RawTerms,
    seen: SeenNames,
}

impl Model for NamedTerms {
    ghost use Rattle.std.specs.Prelude.{List};
    ghost use Rattle.std.specs.List.{All};
    ghost use Rattle.acl_policy.specs.RawTerms.{RawTerm};
    ghost use Rattle.acl_policy.specs.NameSlotSteps.{IsSeen};

    ghost Value = { List RawTerm };

    ghost view = { λ t. t.terms };

    ghost invariant = { λ t. All (IsSeen t.seen) t.terms };
}

impl NamedTerms {
    /// No terms.
    pub(crate) fn new(alloc: Global) -> NamedTerms
        ensures { result ≡ [] }
    {
        NamedTerms {
            terms: Items::new(alloc),
            seen: SeenNames::new(),
        }
    }

    /// Whether one of the terms has the name.
    pub(crate) fn have_name(&self, name: &[u8]) -> bool
        ensures { result ≡ list_any (λ t. bytes_eq t.name.text name.now) self.now }
    {
        self.seen.may_have(name) && is_term_name(self.terms.as_slice(), name)
    }

    /// Adds the term at the end, or nothing where memory is wanted.
    pub(crate) fn push(&mut self, term: RawTerm) -> Result<(), Memory>
        ensures ok { OnOk result (self.new ≡ self.old ++ term ∷ []) }
        ensures err { OnErr result (self.new ≡ self.old) }
    {
        self.seen.add(term.name().text.as_slice());
        self.terms.push(term)
    }

    /// The terms, and none is left.
    pub(crate) fn take(&mut self, alloc: Global) -> RawTerms
        ensures taken { result ≡ self.old }
        ensures left { self.new ≡ [] }
    {
        self.seen = SeenNames::new();
        mem::replace(&mut self.terms, Items::new(alloc))
    }
}

fn is_term_name(terms: &[RawTerm], name: &[u8]) -> bool
    ensures { result ≡ list_any (λ t. bytes_eq t.name.text name.now) terms.now }
{
    terms.iter().any(|t| is_name_of(t, name))
}

fn is_name_of(term: &RawTerm, name: &[u8]) -> bool
    ensures { result ≡ bytes_eq term.now.name.text name.now }
{
    term.name().text.as_slice() == name
}
