use crate::whole_writes::write_through;
use crate::write_counts::WriteCounts;
use acl_host::{Sink, WriteFault};
use std::io::Write;

/// A stream of the machine, as standard output. It tells no bytes.
#[derive(Drop)]
pub struct StdSink<W: Write + Drop> {
    writer: W,
    counts: WriteCounts,
}

impl<W: Write + Drop> StdSink<W> {
    ghost use Rattle.std.specs.Prelude.{◌≡◌, ◌+◌};

    /// A sink that writes there. No call has failed yet.
    pub fn new(writer: W) -> StdSink<W>
        ensures { result.counts.faults + result.counts.refusals ≡ 0 }
    {
        StdSink {
            writer,
            counts: WriteCounts::new(),
        }
    }
}

impl<W: Write + Drop> Sink for StdSink<W> {
    ghost use Rattle.std.specs.Prelude.{None};

    ghost told = { λ s. None };

    ghost faults = { λ s. s.counts.faults };

    ghost refusals = { λ s. s.counts.refusals };

    fn write(&mut self, bytes: &[u8]) -> Result<(), WriteFault> {
        match write_through(&mut self.writer, bytes) {
            Ok(()) => Ok(()),
            Err(error) => Err(self.counts.count(&error)),
        }
    }
}
