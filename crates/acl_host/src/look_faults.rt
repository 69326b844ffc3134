ghost use Rattle.std.specs.Prelude.{◌≡◌};
ghost use Rattle.acl_host.specs.declared.look_faults.ListFault.TheVariants as lists;
ghost use Rattle.acl_host.specs.declared.look_faults.ReadFault.TheVariants as reads;

use acl_text::{Fault, Memory, Rejection};
use std::alloc::AllocError;

/// Why the names in a folder were not given.
#[derive(Drop)]
pub enum ListFault {
    /// The folder has this fault.
    Fault(Fault),
    /// The tree's listing failed.
    Outside,
    /// Memory was wanted and not found.
    Memory,
}

impl From<Memory> for ListFault {
    ghost from_gives = { λ _ fault. fault ≡ lists.Memory };

    fn from(_memory: Memory) -> ListFault {
        ListFault::Memory
    }
}

/// Why what files hold was not given.
#[derive(Drop)]
pub enum ReadFault {
    /// The input has this fault.
    Fault(Fault),
    /// A reading of the tree failed.
    Outside,
    /// Memory was wanted and not found.
    Memory,
}

impl From<Memory> for ReadFault {
    ghost from_gives = { λ _ fault. fault ≡ reads.Memory };

    fn from(_memory: Memory) -> ReadFault {
        ReadFault::Memory
    }
}

impl From<AllocError> for ReadFault {
    ghost from_gives = { λ _ fault. fault ≡ reads.Memory };

    fn from(_error: AllocError) -> ReadFault {
        ReadFault::Memory
    }
}

impl From<Rejection> for ReadFault {
    ghost use Rattle.acl_host.specs.WholeFiles.{read_rejected};

    ghost from_gives = { λ rejection fault. fault ≡ read_rejected rejection };

    fn from(rejection: Rejection) -> ReadFault {
        match rejection {
            Rejection::Fault(fault) => ReadFault::Fault(fault),
            Rejection::Memory => ReadFault::Memory,
        }
    }
}
