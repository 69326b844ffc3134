ghost use Rattle.std.specs.Prelude.{◌≡◌, ◌+◌, ◌≤◌, ◌++◌, IfOk, OnOk};
ghost use Rattle.acl_text.specs.Refusals.{Judges};
ghost use Rattle.acl_target.specs.TargetData.{IsTarget};
ghost use Rattle.acl_platform.specs.SoundFilters.{IsSound};
ghost use Rattle.acl_expand.specs.Expansions.{DecidesAsTerms, filter_of, filter_with};
ghost use Rattle.acl_expand.specs.ExpansionSlips.{first_slip, most_prefixes};
ghost use Rattle.acl_expand.specs.SlipSteps.{counted_term, prefixes_with};
ghost use Rattle.acl_expand.specs.TermRules.{rules_of, term_rules};

use crate::rule_making::push_term;
use crate::slips::{check_header, check_prefixes, prefixes_behind};
use acl_host::Day;
use acl_packet::Families;
use acl_platform::{Filter, Rules, SharedRules};
use acl_target::Target;
use acl_terms::Term;
use acl_text::{Bytes, Items, Memory, Refusal};
use std::alloc::Global;

// Adds the rules of the term, and gives the number of prefixes with them.
fn add_term(
    alloc: Global,
    rules: &mut Rules,
    prefixes: u64,
    target: &Target,
    today: Day,
    term: &Term,
) -> Result<u64, Refusal>
    ensures judged { Judges result (counted_term target.now today prefixes term.now) }
    ensures rules { OnOk result (rules.new ≡ rules.old ++ term_rules target.now today term.now) }
    ensures count { IfOk result (λ n. n ≡ prefixes_with target.now today prefixes term.now) }
{
    check_header(alloc, target, today, term)?;
    let before = rules.as_slice().len();
    push_term(alloc, rules, target, today, term)?;
    let total = prefixes_behind(prefixes, &rules.as_slice()[before..]);
    check_prefixes(alloc, term, total)?;
    Ok(total)
}

// Room for the rules of so many terms: most have one in each family.
fn room_for(terms: usize, families: Families) -> usize {
    match families {
        Families::Inet | Families::Inet6 => terms,
        Families::Mixed => terms.saturating_mul(2),
    }
}

/// The rules of the terms, or their first slip.
#[tactic(auto, using(crate::proofs::SlipLaws::first_slip_is_counted))]
pub(crate) fn rules_of(
    alloc: Global,
    terms: &[Term],
    target: &Target,
    today: Day,
) -> Result<Rules, Refusal>
    ensures judged { Judges result (first_slip target.now today terms.now) }
    ensures rules { IfOk result (λ rules. rules ≡ rules_of target.now today terms.now) }
{
    let mut rules = Items::with_capacity(alloc, room_for(terms.len(), target.families))?;
    let mut prefixes = 0;
    for term in terms {
        prefixes = add_term(alloc, &mut rules, prefixes, target, today, term)?;
    }
    Ok(rules)
}

/// The same, which filters can share.
pub(crate) fn shared_rules(
    alloc: Global,
    terms: &[Term],
    target: &Target,
    today: Day,
) -> Result<SharedRules, Refusal>
    ensures judged { Judges result (first_slip target.now today terms.now) }
    ensures rules { IfOk result (λ rules. rules ≡ rules_of target.now today terms.now) }
{
    let rules = rules_of(alloc, terms, target, today)?;
    Ok(SharedRules::new(alloc, rules)?)
}

/// The data of the target, with rules.
pub(crate) fn filter_with(
    alloc: Global,
    target: &Target,
    rules: SharedRules,
) -> Result<Filter, Memory>
    ensures { IfOk result (λ f. f ≡ filter_with target.now rules) }
{
    let name = Bytes::from_slice(alloc, target.name.as_slice())?;
    Ok(Filter {
        place: target.place,
        kind: target.kind,
        name,
        families: target.families,
        hook: target.hook,
        ending: target.ending,
        priority: target.priority,
        verbose: target.verbose,
        number: target.number,
        rules,
    })
}

// The rules of the terms, or their first slip, where no list is known.
fn first_rules(
    alloc: Global,
    terms: &[Term],
    target: &Target,
    today: Day,
) -> Result<SharedRules, Refusal>
    ensures judged { Judges result (first_slip target.now today terms.now) }
    ensures rules { IfOk result (λ rules. rules ≡ rules_of target.now today terms.now) }
{
    shared_rules(alloc, terms, target, today)
}

/// The filter of the terms on the target that day, or their first slip there.
///
/// Each live term becomes one rule for each family of the target, IPv4 first, and for each pair of sides in that family
/// on which it is not empty there: the source before the destination where it names addresses of either, and within
/// each the source port before the destination port where it names ports of either. There are two rules where its
/// option asks different things of TCP and of UDP, and none where the option leaves no port of UDP. Slips, term by term:
/// `ExtensionHeader`, the least number of an extension header that a term for IPv6 names, and `TooManyPrefixes`, the
/// name of the term with whose rules the filter's lists have more than 200,000 prefixes.
pub fn expand(alloc: Global, terms: &[Term], target: &Target, today: Day) -> Result<Filter, Refusal>
    requires { IsTarget target.now }
    ensures slip { Judges result (first_slip target.now today terms.now) }
    ensures filter { IfOk result (λ f. f ≡ filter_of target.now today terms.now) }
    ensures sound { IfOk result IsSound }
    ensures decides { IfOk result (DecidesAsTerms target.now today terms.now) }
{
    let rules = first_rules(alloc, terms, target, today)?;
    Ok(filter_with(alloc, target, rules)?)
}
