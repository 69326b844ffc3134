ghost use Rattle.std.specs.Prelude.{◌≡◌, ◌↔◌, [], true, Some, OnOk, OnErr, IsErrOf};
ghost use Rattle.acl_memory.specs.Memory.{no_calls, next_fails, with_failing};
ghost use Rattle.acl_memory.specs.MemorySinks.{Written, WritesInMemory, after_write};

use crate::failing::Calls;
use acl_host::{Sink, WriteFault};
use acl_text::{Bytes, Memory};
use std::alloc::Global;
use std::marker::Model;

/// A stream into memory, whose bytes can be read, and of which chosen writes fail.
pub struct MemSink {
    bytes: Bytes,
    writes: Calls,
    faults: u64,
    refusals: u64,
}

// Where a sink is let go, that is one step, whatever it holds.
impl Drop for MemSink {
    fn drop(self) {
        let MemSink {
            bytes,
            writes,
            faults: _,
            refusals: _,
        } = self;
        drop(bytes);
        drop(writes);
    }
}

impl Model for MemSink {
    ghost Value = { Written };

    ghost view = { λ s. record {
      bytes = s.bytes;
      writes = s.writes;
      faults = s.faults;
      refusals = s.refusals;
    } };
}

impl MemSink {
    /// No bytes, and no write that fails.
    pub fn new(alloc: Global) -> MemSink
        ensures { result ≡ record { bytes = []; writes = no_calls; faults = 0; refusals = 0 } }
    {
        MemSink {
            bytes: Bytes::new(alloc),
            writes: Calls::new(alloc),
            faults: 0,
            refusals: 0,
        }
    }

    /// The bytes that were written.
    pub fn as_slice(&self) -> &[u8]
        ensures { result.now ≡ self.now.bytes }
    {
        self.bytes.as_slice()
    }

    /// The write of this number, counted from 1, is to fail.
    pub fn fail(&mut self, nth: u32) -> Result<(), Memory>
        ensures ok { OnOk result (self.new
            ≡ record self.old { writes = with_failing nth self.old.writes }) }
        ensures err { OnErr result (self.new ≡ self.old) }
    {
        self.writes.fail(nth)
    }
}

impl Sink for MemSink {
    ghost told = { λ s. Some s.bytes };

    ghost faults = { λ s. s.faults };

    ghost refusals = { λ s. s.refusals };

    /// Appends the bytes. A write that is to fail appends nothing, and neither does one that wants memory.
    fn write(&mut self, bytes: &[u8]) -> Result<(), WriteFault>
        ensures writes { WritesInMemory self.old self.new bytes.now result }
        ensures fails { IsErrOf result WriteFault.Failed ↔ (next_fails self.old.writes ≡ true) }
        ensures left { self.new ≡ after_write result bytes.now self.old }
    {
        if self.writes.count() {
            self.faults = self.faults.saturating_add(1);
            return Err(WriteFault::Failed);
        }
        match self.bytes.push_all(bytes) {
            Ok(()) => Ok(()),
            Err(Memory) => {
                self.refusals = self.refusals.saturating_add(1);
                Err(WriteFault::Memory)
            }
        }
    }
}
