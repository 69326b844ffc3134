ghost use Rattle.std.specs.Prelude.{◌≡◌};
ghost use Rattle.acl_naming.specs.declared.lookups.Lookup.TheVariants as lookups;

use acl_text::Memory;
use std::alloc::{AllocError, AllocFailed};

/// Why a look-up of a name gives no set.
#[derive(Clone, Copy, PartialEq, Eq)]
pub enum Lookup {
    /// No definition has the name.
    Unknown,
    /// The name reaches no ports of the protocol.
    NoPort,
    /// Memory was wanted and not found.
    Memory,
}

impl From<Memory> for Lookup {
    ghost from_gives = { λ _ lookup. lookup ≡ lookups.Memory };

    fn from(_memory: Memory) -> Lookup {
        Lookup::Memory
    }
}

impl From<AllocError> for Lookup {
    ghost from_gives = { λ _ lookup. lookup ≡ lookups.Memory };

    fn from(_error: AllocError) -> Lookup {
        Lookup::Memory
    }
}

impl<T: Drop> From<AllocFailed<T>> for Lookup {
    ghost from_gives = { λ _ lookup. lookup ≡ lookups.Memory };

    fn from(_error: AllocFailed<T>) -> Lookup {
        Lookup::Memory
    }
}
