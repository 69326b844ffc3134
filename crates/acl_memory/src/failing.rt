ghost use Rattle.std.specs.Prelude.{◌≡◌, OnOk, OnErr};
ghost use Rattle.acl_memory.specs.Memory.{CallsMade, no_calls, next_fails, after_one, with_failing};

use acl_text::Memory;
use std::alloc::Global;
use std::marker::Model;

/// The kinds of calls of a tree that can be made to fail.
#[derive(Clone, Copy, PartialEq, Eq)]
pub enum Op {
    List,
    Read,
    Begin,
    Append,
    Finish,
}

/// The calls of one kind that an object in memory takes, and which of them fail.
#[derive(Drop)]
pub(crate) struct Calls {
    made: u64,
    failing: Vec<u32>,
}

impl Model for Calls {
    ghost Value = { CallsMade };

    ghost view = { λ c. record { made = c.made; failing = c.failing.items } };
}

impl Calls {
    pub(crate) fn new(alloc: Global) -> Calls
        ensures { result ≡ no_calls }
    {
        Calls {
            made: 0,
            failing: Vec::new(alloc),
        }
    }

    /// Counts a call, and tells whether it is to fail.
    pub(crate) fn count(&mut self) -> bool
        ensures fails { result ≡ next_fails self.old }
        ensures counted { self.new ≡ after_one self.old }
    {
        let made = self.made;
        let fails = is_listed(self.failing.as_slice(), made);
        self.made = made.saturating_add(1);
        fails
    }

    /// The call of this number is to fail.
    pub(crate) fn fail(&mut self, nth: u32) -> Result<(), Memory>
        ensures ok { OnOk result (self.new ≡ with_failing nth self.old) }
        ensures err { OnErr result (self.new ≡ self.old) }
    {
        self.failing.push(nth)?;
        Ok(())
    }
}

// Whether the call behind as many as were made is among those that fail.
fn is_listed(failing: &[u32], made: u64) -> bool
    ensures { result ≡ next_fails (record { made = made; failing = failing.now }) }
{
    failing.iter().any(|nth| *nth as u128 == made as u128 + 1)
}
