ghost use Rattle.std.specs.Prelude.{ℕ, ℤ, Option};

use crate::days::Day;
use thiserror::Error;

/// Why a clock told no day.
#[derive(Clone, Copy, Debug, PartialEq, Eq, Error)]
pub enum ClockFault {
    #[error("the clock failed")]
    Failed,
}

/// What tells the day.
///
/// A clock tells its day, as a number of days since 1970-01-01, or does not. It counts its faults; the
/// count never falls, and stays where a day is given.
pub trait Clock {
    ghost use Rattle.acl_host.specs.Outside.{Tells};

    ghost day: { Self → Option ℤ };

    ghost faults: { Self → ℕ };

    /// The day.
    fn today(&mut self) -> Result<Day, ClockFault>
        ensures { Tells day faults self.old self.new result };
}
