ghost use Rattle.std.specs.Prelude.{[], OnOk};
ghost use Rattle.acl_target.specs.TargetData.{IsTarget};
ghost use Rattle.acl_expand.specs.KnownRules.{AreKnown};
ghost use Rattle.acl_filters.specs.CheckedFilters.{Checks};
ghost use Rattle.acl_filters.specs.FilterRequests.{request_of};

use crate::platforms::count_within_limits;
use crate::slips::limit_refusal;
use acl_expand::KnownRules;
use acl_host::Day;
use acl_platform::Filter;
use acl_policy::Target;
use acl_terms::Term;
use acl_text::Refusal;
use std::alloc::Global;

/// The filter of the terms on the target, and the number of its entries; or the first slip, of the terms on it or of a
/// limit that their filter meets.
pub fn checked_filter(
    alloc: Global,
    today: Day,
    target: &Target,
    terms: &[Term],
    known: &mut KnownRules,
) -> Result<(Filter, u64), Refusal>
    requires sound { IsTarget target.now }
    requires known { AreKnown today terms.now known.old }
    ensures checks { Checks today (request_of [] terms.now target.now) result }
    ensures known { OnOk result (AreKnown today terms.now known.new) }
{
    let filter = known.expand(alloc, terms, target, today)?;
    match count_within_limits(&filter) {
        Ok(entries) => Ok((filter, entries)),
        Err(limit) => Err(limit_refusal(alloc, &filter, limit)),
    }
}
