ghost use Rattle.std.specs.Prelude.{◌≡◌, ◌+◌, ◌≤◌};
ghost use Rattle.acl_text.specs.Output.{Rose};

use crate::disk::is_memory;
use acl_host::WriteFault;
use std::io;

/// How many writing calls failed, and for how many memory was wanted.
#[derive(Drop)]
pub(crate) struct WriteCounts {
    pub(crate) faults: u64,
    pub(crate) refusals: u64,
}

impl WriteCounts {
    /// No call has failed yet.
    pub(crate) fn new() -> WriteCounts
        ensures { result.faults + result.refusals ≡ 0 }
    {
        WriteCounts {
            faults: 0,
            refusals: 0,
        }
    }

    /// Counts a call that ended in this error.
    pub(crate) fn count(&mut self, error: &io::Error) -> WriteFault
        ensures faults_grow { self.old.faults ≤ self.new.faults }
        ensures refusals_grow { self.old.refusals ≤ self.new.refusals }
        ensures failed { result ≡ WriteFault.Failed → Rose self.old.faults self.new.faults }
        ensures failed_alone { result ≡ WriteFault.Failed → self.new.refusals ≡ self.old.refusals }
        ensures memory { result ≡ WriteFault.Memory → Rose self.old.refusals self.new.refusals }
        ensures memory_alone { result ≡ WriteFault.Memory → self.new.faults ≡ self.old.faults }
    {
        if is_memory(error) {
            self.refusals = self.refusals.saturating_add(1);
            return WriteFault::Memory;
        }
        self.faults = self.faults.saturating_add(1);
        WriteFault::Failed
    }
}
