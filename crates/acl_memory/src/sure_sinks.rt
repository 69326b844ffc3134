ghost use Rattle.std.specs.Prelude.{◌≡◌, [], Some, IsErrOf};
ghost use Rattle.acl_memory.specs.Memory.{failing-prop};
ghost use Rattle.acl_memory.specs.MemorySinks.{after_write};

use crate::mem_sinks::MemSink;
use acl_host::{Sink, WriteFault};
use std::alloc::Global;

/// A stream into memory, whose bytes can be read, and of which no write fails.
#[derive(Drop)]
pub struct SureSink {
    sink: MemSink,
    ghost never_fails: { sink.writes.failing ≡ [] } by { failing-prop sink.writes.failing },
}

impl SureSink {
    /// No bytes.
    pub fn new(alloc: Global) -> SureSink
        ensures bytes { result.sink.bytes ≡ [] }
        ensures refusals { result.sink.refusals ≡ 0 }
    {
        SureSink {
            sink: MemSink::new(alloc),
        }
    }

    /// The bytes that were written.
    pub fn as_slice(&self) -> &[u8]
        ensures { result.now ≡ self.now.sink.bytes }
    {
        self.sink.as_slice()
    }
}

impl Sink for SureSink {
    ghost use Rattle.acl_memory.specs.SureObjects.{WritesSurely};

    ghost told = { λ s. Some s.sink.bytes };

    ghost faults = { λ s. 0 };

    ghost refusals = { λ s. s.sink.refusals };

    /// Appends the bytes, or nothing where memory is wanted.
    fn write(&mut self, bytes: &[u8]) -> Result<(), WriteFault>
        ensures writes { WritesSurely self.old self.new bytes.now result }
        ensures sure { IsErrOf result WriteFault.Failed → ⊥ }
        ensures left { self.new.sink ≡ after_write result bytes.now self.old.sink }
    {
        self.sink.write(bytes)
    }
}
