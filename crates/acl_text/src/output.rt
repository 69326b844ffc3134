ghost use Rattle.std.specs.Prelude.{List, ℕ, Option, Bool, IsTrue};
ghost use Rattle.acl_text.specs.Output.{PutsBy};

use thiserror::Error;

/// Why a text was not put.
#[derive(Clone, Copy, Debug, PartialEq, Eq, Error)]
pub enum PutFault {
    #[error("the output failed")]
    Failed,
    #[error("out of memory")]
    Memory,
}

/// What takes text, piece by piece.
///
/// An `Out` tells the bytes that it was given, or does not. It counts the faults and the refusals for
/// memory that it met; a count never falls, one that is at its end stays there, and that of the faults stays
/// at a call that did not fail. It is open or not: `put` needs an open one, and one that refused is not open.
/// It may hold more than its bytes: `keeps_rest` relates an earlier and a later value whose rest is the same.
pub trait Out {
    ghost told: { Self → Option (List ℕ) };

    ghost faults: { Self → ℕ };

    ghost refusals: { Self → ℕ };

    ghost is_open: { Self → Bool };

    ghost keeps_rest: { Self → Self → Type 0 };

    /// Appends the bytes, or a front of them where it refuses.
    fn put(&mut self, bytes: &[u8]) -> Result<(), PutFault>
        requires { IsTrue (is_open self.old) }
        ensures { PutsBy told faults refusals is_open keeps_rest self.old self.new bytes.now result };

    ghost rest_same: { (x : Self) → keeps_rest x x };

    ghost rest_goes_on: { (x y z : Self) → keeps_rest x y → keeps_rest y z → keeps_rest x z };
}
