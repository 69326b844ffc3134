ghost use Rattle.std.specs.Prelude.{ℕ, List, Option};

use thiserror::Error;

/// Why a write, or a call that begins or ends a file, was not carried out.
#[derive(Clone, Copy, Debug, PartialEq, Eq, Error)]
pub enum WriteFault {
    #[error("the write failed")]
    Failed,
    #[error("out of memory")]
    Memory,
}

/// A stream that takes bytes, as standard output.
///
/// A sink tells the bytes that it was given, or does not, and goes on as it began. It counts its faults and
/// its refusals for memory; no count falls, and that of the faults stays at a write that did not fail.
pub trait Sink {
    ghost use Rattle.acl_host.specs.Outside.{Writes};

    ghost told: { Self → Option (List ℕ) };

    ghost faults: { Self → ℕ };

    ghost refusals: { Self → ℕ };

    /// Appends the bytes, or a front of them where it refuses.
    fn write(&mut self, bytes: &[u8]) -> Result<(), WriteFault>
        ensures { Writes told faults refusals self.old self.new bytes.now result };
}
