use acl_host::{ListFault, ReadFault};
use acl_text::{Fault, Memory, Rejection};
use std::alloc::AllocError;

/// Why nothing was loaded.
#[derive(Drop)]
pub enum LoadFault {
    /// The input has this fault, the first one.
    Fault(Fault),
    /// The folder's names were not listed.
    List,
    /// A file was not read.
    Read,
    /// Memory was wanted and not found.
    Memory,
}

impl From<ListFault> for LoadFault {
    ghost use Rattle.std.specs.Prelude.{◌≡◌};
    ghost use Rattle.acl_load.specs.LoadFaults.{of_listing};

    ghost from_gives = { λ fault given. given ≡ of_listing fault };

    fn from(fault: ListFault) -> LoadFault {
        match fault {
            ListFault::Fault(fault) => LoadFault::Fault(fault),
            ListFault::Outside => LoadFault::List,
            ListFault::Memory => LoadFault::Memory,
        }
    }
}

impl From<ReadFault> for LoadFault {
    ghost use Rattle.std.specs.Prelude.{◌≡◌};
    ghost use Rattle.acl_load.specs.LoadFaults.{of_reading};

    ghost from_gives = { λ fault given. given ≡ of_reading fault };

    fn from(fault: ReadFault) -> LoadFault {
        match fault {
            ReadFault::Fault(fault) => LoadFault::Fault(fault),
            ReadFault::Outside => LoadFault::Read,
            ReadFault::Memory => LoadFault::Memory,
        }
    }
}

impl From<Rejection> for LoadFault {
    ghost use Rattle.std.specs.Prelude.{◌≡◌};
    ghost use Rattle.acl_load.specs.LoadFaults.{of_rejection};

    ghost from_gives = { λ rejection given. given ≡ of_rejection rejection };

    fn from(rejection: Rejection) -> LoadFault {
        match rejection {
            Rejection::Fault(fault) => LoadFault::Fault(fault),
            Rejection::Memory => LoadFault::Memory,
        }
    }
}

impl From<Memory> for LoadFault {
    ghost use Rattle.std.specs.Prelude.{◌≡◌};
    ghost use Rattle.acl_load.specs.declared.load_faults.LoadFault.TheVariants as faults;

    ghost from_gives = { λ _ fault. fault ≡ faults.Memory };

    fn from(_memory: Memory) -> LoadFault {
        LoadFault::Memory
    }
}

impl From<AllocError> for LoadFault {
    ghost use Rattle.std.specs.Prelude.{◌≡◌};
    ghost use Rattle.acl_load.specs.declared.load_faults.LoadFault.TheVariants as faults;

    ghost from_gives = { λ _ fault. fault ≡ faults.Memory };

    fn from(_error: AllocError) -> LoadFault {
        LoadFault::Memory
    }
}
