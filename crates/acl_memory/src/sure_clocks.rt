ghost use Rattle.std.specs.Prelude.{◌≡◌, Some, IsOk};
ghost use Rattle.acl_memory.specs.SureObjects.{TellsSurely};

use acl_host::{Clock, ClockFault, Day};

/// A clock that stands still at its day, and never fails.
#[derive(Drop)]
pub struct SureClock {
    day: Day,
}

impl SureClock {
    /// A clock at the day.
    pub fn new(day: Day) -> SureClock
        ensures { result.day ≡ day }
    {
        SureClock { day }
    }
}

impl Clock for SureClock {
    ghost day = { λ c. Some c.day.number };

    ghost faults = { λ c. 0 };

    /// The day.
    fn today(&mut self) -> Result<Day, ClockFault>
        ensures tells { TellsSurely self.old self.new result }
        ensures sure { IsOk result }
        ensures same { self.new ≡ self.old }
    {
        Ok(self.day)
    }
}
