ghost use Rattle.std.specs.Prelude.{◌≡◌};
ghost use Rattle.acl_report.specs.Reports.{expires_within, has_expired, is_empty_in_each, is_empty_on};

use acl_host::Day;
use acl_packet::{Families, Family};
use acl_target::Target;
use acl_terms::{Term, is_empty_in, is_live};

// The days of a week.
const WEEK: i32 = 7;

/// Whether the day is not later than today.
pub(crate) fn has_expired(today: Day, day: Day) -> bool
    ensures { result ≡ has_expired today day }
{
    day.number <= today.number
}

/// Whether the day is later than today, by at most so many weeks.
pub(crate) fn expires_within(today: Day, weeks: u16, day: Day) -> bool
    ensures { result ≡ expires_within today weeks day }
{
    today.number < day.number && day.number <= today.number + WEEK * i32::from(weeks)
}

// Whether the term is empty in each of the families.
fn is_empty_in_each(families: Families, term: &Term) -> bool
    ensures { result ≡ is_empty_in_each families term.now }
{
    match families {
        Families::Inet => is_empty_in(term, Family::V4),
        Families::Inet6 => is_empty_in(term, Family::V6),
        Families::Mixed => is_empty_in(term, Family::V4) && is_empty_in(term, Family::V6),
    }
}

/// Whether the term is live on the target that day, and empty in each of its families.
pub(crate) fn is_empty_on(today: Day, target: &Target, term: &Term) -> bool
    ensures { result ≡ is_empty_on today target.now term.now }
{
    is_live(term, target.kind, today) && is_empty_in_each(target.families, term)
}
