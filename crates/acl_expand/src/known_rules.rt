ghost use Rattle.std.specs.Prelude.{◌≡◌, ◌++◌, ◌∷◌, [], None, IfOk, IfSome, OnOk};
ghost use Rattle.std.specs.List.{AllByRecursion};
ghost use Rattle.acl_text.specs.Refusals.{Judges};
ghost use Rattle.acl_target.specs.TargetData.{IsTarget};
ghost use Rattle.acl_platform.specs.SoundFilters.{IsSound};
ghost use Rattle.acl_expand.specs.Expansions.{DecidesAsTerms, filter_of};
ghost use Rattle.acl_expand.specs.ExpansionSlips.{first_slip};
ghost use Rattle.acl_expand.specs.KnownRules.{AreKnown, IsKnown, class_of};
ghost use Rattle.acl_expand.specs.TermRules.{rules_of};

use crate::expanding::{filter_with, shared_rules};
use crate::target_classes::TargetClass;
use acl_host::Day;
use acl_platform::{Filter, SharedRules};
use acl_target::Target;
use acl_terms::Term;
use acl_text::{Items, Memory, Refusal};
use std::alloc::Global;

// The rules of terms on the targets of a class.
#[derive(Drop)]
struct TargetRules {
    class: TargetClass,
    rules: SharedRules,
}

/// The rules of the same terms on targets so far, for one day.
///
/// Most terms have the same rules on each platform, so the filters of targets with the same families mostly share them.
#[derive(Drop)]
pub struct KnownRules {
    lists: Items<TargetRules>,
}

// The rules of the terms on the target that day, where they are known.
fn rules_for<'a>(
    lists: &'a [TargetRules],
    terms: &[Term],
    target: &Target,
    today: Day,
) -> Option<&'a SharedRules>
    requires { AllByRecursion (IsKnown today terms.now) lists.now }
    ensures { IfSome result (λ rules. (first_slip target.now today terms.now ≡ None)
        × (rules.now ≡ rules_of target.now today terms.now)) }
{
    let class = TargetClass::of(target);
    for list in lists {
        if list.class.fits(class, today, terms) {
            return Some(&list.rules);
        }
    }
    None
}

impl KnownRules {
    /// No rules are known.
    pub fn new(alloc: Global) -> KnownRules
        ensures { result.lists ≡ [] }
    {
        KnownRules {
            lists: Items::new(alloc),
        }
    }

    // The rules of the terms on the target are known from now on.
    fn keep(&mut self, target: &Target, rules: SharedRules) -> Result<(), Memory>
        ensures { OnOk result (self.new.lists
            ≡ self.old.lists ++ record { class = class_of target.now; rules = rules } ∷ []) }
    {
        let class = TargetClass::of(target);
        self.lists.push(TargetRules { class, rules })
    }

    // The rules of the terms on the target, or their first slip there.
    fn rules_of(
        &mut self,
        alloc: Global,
        terms: &[Term],
        target: &Target,
        today: Day,
    ) -> Result<SharedRules, Refusal>
        requires { AreKnown today terms.now self.old }
        ensures judged { Judges result (first_slip target.now today terms.now) }
        ensures rules { IfOk result (λ rules. rules ≡ rules_of target.now today terms.now) }
        ensures known { OnOk result (AreKnown today terms.now self.new) }
    {
        if let Some(rules) = rules_for(self.lists.as_slice(), terms, target, today) {
            return Ok(rules.share()?);
        }
        let rules = shared_rules(alloc, terms, target, today)?;
        self.keep(target, rules.share()?)?;
        Ok(rules)
    }

    /// The filter of the terms on the target that day, or their first slip there, as `expand` gives it.
    ///
    /// The rules have to be known of these terms and of this day. Where the terms have the same rules on a target for
    /// which they are known, the filter has that list, which is not copied.
    pub fn expand(
        &mut self,
        alloc: Global,
        terms: &[Term],
        target: &Target,
        today: Day,
    ) -> Result<Filter, Refusal>
        requires target { IsTarget target.now }
        requires known { AreKnown today terms.now self.old }
        ensures slip { Judges result (first_slip target.now today terms.now) }
        ensures filter { IfOk result (λ f. f ≡ filter_of target.now today terms.now) }
        ensures sound { IfOk result IsSound }
        ensures decides { IfOk result (DecidesAsTerms target.now today terms.now) }
        ensures known { OnOk result (AreKnown today terms.now self.new) }
    {
        let rules = self.rules_of(alloc, terms, target, today)?;
        Ok(filter_with(alloc, target, rules)?)
    }
}
