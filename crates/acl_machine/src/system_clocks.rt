ghost use Rattle.std.specs.Prelude.{pos, ◌≤ℤ◌};

use acl_host::{Clock, ClockFault, Day};
use jiff::Timestamp;
use jiff::tz::Offset;
use std::time;

/// The clock of the machine, which tells the day in UTC. No contract can say which day that is.
#[derive(Drop)]
pub struct SystemClock<'a, C: time::Clock> {
    clock: &'a C,
    faults: u64,
}

impl<'a, C: time::Clock> SystemClock<'a, C> {
    ghost use Rattle.std.specs.Prelude.{◌≡◌};

    /// The clock that the runtime reaches. No call has failed yet.
    pub fn new(clock: &'a C) -> SystemClock<'a, C>
        ensures { result.faults ≡ 0 }
    {
        SystemClock { clock, faults: 0 }
    }
}

// The day in UTC of an instant from 1970 on, as a number of days since 1970-01-01.
fn utc_day(now: Timestamp) -> i32
    requires { pos 0 ≤ℤ now.nanosecond }
    ensures low { pos 0 ≤ℤ result }
    ensures high { result ≤ℤ pos 2932896 }
{
    let date = Offset::UTC.to_datetime(now).date();
    date.to_plain().to_unix_epoch_day()
}

impl<C: time::Clock> Clock for SystemClock<'_, C> {
    ghost use Rattle.std.specs.Prelude.{None};

    ghost day = { λ c. None };

    ghost faults = { λ c. c.faults };

    fn today(&mut self) -> Result<Day, ClockFault> {
        match Timestamp::now(self.clock) {
            Ok(now) => Ok(Day {
                number: utc_day(now),
            }),
            Err(_) => {
                self.faults = self.faults.saturating_add(1);
                Err(ClockFault::Failed)
            }
        }
    }
}
