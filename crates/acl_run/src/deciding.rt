ghost use Rattle.std.specs.Prelude.{◌≡◌, IfOk};
ghost use Rattle.acl_load.specs.FaultLines.{fault_line};
ghost use Rattle.acl_run.specs.Deciding.{FindsDay, FollowsFrom};
ghost use Rattle.acl_run.specs.Worlds.{watch};

use crate::endings::Which;
use acl_host::{Clock, ClockFault, Day};
use acl_load::{LoadFault, put_fault};
use acl_text::{Fault, Memory, Whole};
use std::alloc::Global;

/// What a run is to do, where `W` is a program's own work.
#[derive(Drop)]
pub enum Decision<W: Drop> {
    /// The words are no command line.
    Usage,
    /// The input has this fault, the first one; the line names it.
    Refused(Fault, Whole),
    /// This is to be written.
    Planned(W),
    /// A folder was not listed, a file not read, or the clock told no day.
    Outside(Which),
    /// Memory was wanted and not found.
    Memory,
}

// The line that names a fault.
fn fault_line(alloc: Global, fault: &Fault) -> Result<Whole, Memory>
    ensures { IfOk result (λ line. line.bytes ≡ fault_line fault.now) }
{
    let mut line = Whole::new(alloc);
    match put_fault(&mut line, fault) {
        Ok(()) => Ok(line),
        Err(_) => Err(Memory),
    }
}

/// What a run is to do where there is nothing to write.
pub fn decision_on<W: Drop>(alloc: Global, fault: LoadFault) -> Decision<W>
    ensures { FollowsFrom fault result }
{
    match fault {
        LoadFault::Fault(fault) => match fault_line(alloc, &fault) {
            Ok(line) => Decision::Refused(fault, line),
            Err(_) => Decision::Memory,
        },
        LoadFault::List => Decision::Outside(Which::List),
        LoadFault::Read => Decision::Outside(Which::Read),
        LoadFault::Memory => Decision::Memory,
    }
}

/// The day that the words name, else the clock's.
pub fn day_for<C: Clock>(date: Option<Day>, clock: &mut C) -> Result<Day, ClockFault>
    ensures { FindsDay date (watch C.Clock clock.old) (watch C.Clock clock.new) result }
{
    match date {
        Some(day) => Ok(day),
        None => clock.today(),
    }
}
