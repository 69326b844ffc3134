ghost use Rattle.std.specs.Prelude.{◌≡◌, ◌≤◌, List, nat_lt};
ghost use Rattle.acl_target.specs.TargetData.{IsTarget};
ghost use Rattle.acl_policy.specs.RawTerms.{RawTerm};
ghost use Rattle.acl_terms.specs.declared.terms.Term.{Term};
ghost use Rattle.acl_filters.specs.FilterRequests.{request_of};
ghost use Rattle.acltool_core.specs.ListMeanings.{number_from};
ghost use Rattle.acltool_core.specs.ListPlans.{is_listed, listed_slip};

use acl_expand::KnownRules;
use acl_filters::{Choice, limit_refusal};
use acl_host::Day;
use acl_packet::Families;
use acl_platform::{Filter, count_within_limits};
use acl_policy::{Kind, Target};
use acl_terms::Term;
use acl_text::{Code, Refusal};
use gen_acltool::Standard;
use std::alloc::Global;

const LAST_NUMBER: u32 = 99;

/// The Cisco targets of IPv4, each of which has to have a number that a standard list may have.
#[derive(Clone, Copy)]
pub struct Listed {
    /// The number of the first list, 1 to 99.
    pub first: u8,
    pub ghost from_one: { 1 ≤ first },
}

// Whether the target is a Cisco one of IPv4.
fn is_listed(target: &Target) -> bool
    ensures { (written : List RawTerm) (terms : List Term) → result ≡ is_listed (request_of written terms target.now) }
{
    target.kind == Kind::Cisco && matches!(target.families, Families::Inet)
}

// Whether the number of the target's list is above those that a standard list may have.
fn is_beyond(first: u8, target: &Target) -> bool
    requires { IsTarget target.now }
    ensures { result ≡ nat_lt 99 (number_from first target.now) }
{
    u32::from(first) + target.number - 1 > LAST_NUMBER
}

impl Choice for Listed {
    ghost chosen = { λ choice. is_listed };

    ghost slip = { λ choice. listed_slip choice.first };

    fn is_chosen(&self, target: &Target) -> bool {
        is_listed(target)
    }

    fn filter_on(
        &self,
        alloc: Global,
        today: Day,
        target: &Target,
        terms: &[Term],
        known: &mut KnownRules,
    ) -> Result<Filter, Refusal> {
        if is_beyond(self.first, target) {
            let name = target.name.as_slice();
            return Err(Refusal::at(alloc, Code::NumberRange, target.place, name));
        }
        let filter = known.expand(alloc, terms, target, today)?;
        match count_within_limits(&Standard { first: self.first }, &filter) {
            Ok(_) => Ok(filter),
            Err(limit) => Err(limit_refusal(alloc, &filter, limit)),
        }
    }
}
