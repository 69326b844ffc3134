ghost use Rattle.std.specs.Prelude.{◌≡◌, [], ◌++◌, true, false, Some, IsTrue, OnOk, OnErr};
ghost use Rattle.acl_text.specs.Output.{one_more};
ghost use Rattle.acl_text.specs.Wholes.{Gathered, GatheredPuts};

use crate::output::{Out, PutFault};
use crate::texts::{Bytes, Memory};
use std::alloc::Global;
use std::marker::Model;

/// An output into memory, which holds its bytes and nothing else.
///
/// It never fails, and refuses only for memory; from then on nothing more may be put.
#[derive(Drop)]
pub struct Whole {
    bytes: Bytes,
    is_open: bool,
    refusals: u64,
}

impl Model for Whole {
    ghost Value = { Gathered };

    ghost view = { λ w. record { bytes = w.bytes; is_open = w.is_open; refusals = w.refusals } };
}

impl Whole {
    /// No bytes, open, and nothing refused.
    pub fn new(alloc: Global) -> Whole
        ensures { result ≡ record { bytes = []; is_open = true; refusals = 0 } }
    {
        Whole {
            bytes: Bytes::new(alloc),
            is_open: true,
            refusals: 0,
        }
    }

    /// The bytes that were put.
    pub fn as_slice(&self) -> &[u8]
        ensures { result.now ≡ self.now.bytes }
    {
        self.bytes.as_slice()
    }
}

impl Out for Whole {
    ghost told = { λ w. Some w.bytes };

    ghost faults = { λ w. 0 };

    ghost refusals = { λ w. w.refusals };

    ghost is_open = { λ w. w.is_open };

    // it has no rest
    ghost keeps_rest = { λ x y. Unit {0} };

    /// Appends the bytes, or nothing where memory is wanted.
    fn put(&mut self, bytes: &[u8]) -> Result<(), PutFault>
        requires { IsTrue self.old.is_open }
        ensures puts { GatheredPuts self.old self.new bytes.now result }
        ensures ok { OnOk result (self.new
            ≡ record self.old { bytes = self.old.bytes ++ bytes.now }) }
        ensures err { OnErr result (self.new
            ≡ record self.old { is_open = false; refusals = one_more self.old.refusals }) }
    {
        match self.bytes.push_all(bytes) {
            Ok(()) => Ok(()),
            Err(Memory) => {
                self.is_open = false;
                self.refusals = self.refusals.saturating_add(1);
                Err(PutFault::Memory)
            }
        }
    }

    ghost rest_same = { λ x. tt };

    ghost rest_goes_on = { λ x y z p q. tt };
}
