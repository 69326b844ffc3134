ghost use Rattle.std.specs.Prelude.{◌≡◌, true, Some, is_err};
ghost use Rattle.acl_memory.specs.Memory.{one_more_if};
ghost use Rattle.acl_memory.specs.MemorySinks.{Standing, TellsItsDay};

use acl_host::{Clock, ClockFault, Day};
use std::marker::Model;

/// A clock that stands still at its day, and fails at each call or at none.
#[derive(Drop)]
pub struct FixedClock {
    day: Day,
    fails: bool,
    faults: u64,
}

impl Model for FixedClock {
    ghost Value = { Standing };

    ghost view = { λ c. record { day = c.day.number; fails = c.fails; faults = c.faults } };
}

impl FixedClock {
    /// A clock at the day, which fails where it is to.
    pub fn new(day: Day, fails: bool) -> FixedClock
        ensures { result ≡ record { day = day.number; fails = fails; faults = 0 } }
    {
        FixedClock {
            day,
            fails,
            faults: 0,
        }
    }
}

impl Clock for FixedClock {
    ghost day = { λ c. Some c.day };

    ghost faults = { λ c. c.faults };

    /// The day, or the failure where the clock is to fail.
    fn today(&mut self) -> Result<Day, ClockFault>
        ensures tells { TellsItsDay self.old self.new result }
        ensures fails { is_err result ≡ self.old.fails }
        ensures left { self.new
            ≡ record self.old { faults = one_more_if self.old.fails self.old.faults } }
    {
        if self.fails {
            self.faults = self.faults.saturating_add(1);
            return Err(ClockFault::Failed);
        }
        Ok(self.day)
    }
}
