ghost use Rattle.std.specs.Prelude.{◌≡◌, slice_get};
ghost use Rattle.acl_text.specs.declared.faults.Code.TheVariants.{Unsupported};
ghost use Rattle.acl_text.specs.Refusals.{IsRefusalBy};
ghost use Rattle.acl_platform.specs.Features.{feature_word};
ghost use Rattle.acl_filters.specs.FilterRequests.{limit_slip, name_word, rule_slip};

use acl_platform::{Feature, Filter, Limit};
use acl_text::{Code, Refusal};
use std::alloc::Global;

// The slip at the rule's term that has the rule's name as its word.
fn name_refusal(alloc: Global, code: Code, filter: &Filter, place: usize) -> Refusal
    ensures { IsRefusalBy (rule_slip code name_word filter.now (slice_get filter.now.rules place)) result }
{
    match filter.rules.as_slice().get(place) {
        Some(rule) => Refusal::at(alloc, code, rule.place, rule.name.as_slice()),
        None => Refusal::at(alloc, code, filter.place, b""),
    }
}

// The slip at the rule's term that has the word for what its platform lacks.
fn unsupported_refusal(alloc: Global, filter: &Filter, place: usize, feature: Feature) -> Refusal
    ensures { IsRefusalBy (rule_slip Unsupported (λ r. feature_word feature) filter.now
        (slice_get filter.now.rules place)) result }
{
    match filter.rules.as_slice().get(place) {
        Some(rule) => Refusal::at(alloc, Code::Unsupported, rule.place, feature.word()),
        None => Refusal::at(alloc, Code::Unsupported, filter.place, b""),
    }
}

/// The slip of a limit that the filter meets: at the term of the rule, or at the target.
pub fn limit_refusal(alloc: Global, filter: &Filter, limit: Limit) -> Refusal
    ensures { IsRefusalBy (limit_slip filter.now limit) result }
{
    match limit {
        Limit::NameLength(place) => name_refusal(alloc, Code::NameLength, filter, place),
        Limit::NameClash(place) => name_refusal(alloc, Code::NameClash, filter, place),
        Limit::Unsupported(place, feature) => { unsupported_refusal(alloc, filter, place, feature) }
        Limit::TooManyEntries => {
            let name = filter.name.as_slice();
            Refusal::at(alloc, Code::TooManyEntries, filter.place, name)
        }
    }
}
