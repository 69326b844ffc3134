ghost use Rattle.std.specs.Prelude.{◌≡◌, true};
ghost use Rattle.std.specs.List.{AllByRecursion};
ghost use Rattle.acl_expand.specs.KnownRules.{AreAlike, IsAlike, asks_by_mode, class_of};

use crate::rule_making::verdict_on;
use acl_host::Day;
use acl_packet::Families;
use acl_target::{Kind, Target};
use acl_terms::{Opt, Term, is_live};

/// What the rules of terms depend on in a target.
#[derive(Clone, Copy)]
pub(crate) struct TargetClass {
    pub kind: Kind,
    pub families: Families,
    pub stateful: bool,
}

// Whether the option asks other things of a packet where connections are known.
fn asks_by_mode(option: Opt) -> bool
    ensures { result ≡ asks_by_mode option }
{
    match option {
        Opt::Established | Opt::TcpEstablished => true,
        Opt::Plain | Opt::TcpInitial | Opt::Rst => false,
    }
}

impl TargetClass {
    pub(crate) fn of(target: &Target) -> TargetClass
        ensures { result ≡ class_of target.now }
    {
        TargetClass {
            kind: target.kind,
            families: target.families,
            stateful: target.stateful,
        }
    }

    fn is_alike(self, other: TargetClass, today: Day, term: &Term) -> bool
        ensures { result ≡ true → IsAlike self other today term.now }
    {
        is_live(term, self.kind, today) == is_live(term, other.kind, today)
            && verdict_on(self.kind, term.verdict) == verdict_on(other.kind, term.verdict)
            && (self.stateful == other.stateful || !asks_by_mode(term.option))
    }

    fn each_is_alike(self, other: TargetClass, today: Day, terms: &[Term]) -> bool
        ensures { result ≡ true → AllByRecursion (IsAlike self other today) terms.now }
    {
        for term in terms {
            if !self.is_alike(other, today, term) {
                return false;
            }
        }
        true
    }

    /// Whether the terms have the same rules on targets of the other class.
    pub(crate) fn fits(self, other: TargetClass, today: Day, terms: &[Term]) -> bool
        ensures { result ≡ true → AreAlike self other today terms.now }
    {
        self.families == other.families && self.each_is_alike(other, today, terms)
    }
}
