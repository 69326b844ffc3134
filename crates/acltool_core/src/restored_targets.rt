ghost use Rattle.std.specs.Prelude.{◌≡◌, List};
ghost use Rattle.acl_policy.specs.RawTerms.{RawTerm};
ghost use Rattle.acl_terms.specs.declared.terms.Term.{Term};
ghost use Rattle.acl_filters.specs.FilterRequests.{request_of};
ghost use Rattle.gen_acltool.specs.RestoredFilters.{leaves_packets};
ghost use Rattle.acltool_core.specs.RestorePlans.{is_restored, restored_slip};

use acl_expand::KnownRules;
use acl_filters::{Choice, checked_filter};
use acl_host::Day;
use acl_packet::Family;
use acl_platform::Filter;
use acl_policy::{Ending, Kind, Target};
use acl_terms::Term;
use acl_text::{Code, Refusal};
use std::alloc::Global;

/// The targets of iptables of a family, each of which has to name a policy.
#[derive(Clone, Copy)]
pub struct Restored {
    pub family: Family,
}

// Whether the target is one of iptables, of the family.
fn is_restored(family: Family, target: &Target) -> bool
    ensures { (written : List RawTerm) (terms : List Term)
        → result ≡ is_restored family (request_of written terms target.now) }
{
    target.kind == Kind::Iptables && target.families.covers(family)
}

// Whether the packets that no rule decides are left to what stands behind the filter.
fn leaves_packets(ending: Ending) -> bool
    ensures { result ≡ leaves_packets ending }
{
    matches!(ending, Ending::Left)
}

impl Choice for Restored {
    ghost chosen = { λ choice. is_restored choice.family };

    ghost slip = { λ choice. restored_slip };

    fn is_chosen(&self, target: &Target) -> bool {
        is_restored(self.family, target)
    }

    fn filter_on(
        &self,
        alloc: Global,
        today: Day,
        target: &Target,
        terms: &[Term],
        known: &mut KnownRules,
    ) -> Result<Filter, Refusal> {
        if leaves_packets(target.ending) {
            let name = target.name.as_slice();
            return Err(Refusal::at(alloc, Code::NoPolicy, target.place, name));
        }
        let (filter, _) = checked_filter(alloc, today, target, terms, known)?;
        Ok(filter)
    }
}
