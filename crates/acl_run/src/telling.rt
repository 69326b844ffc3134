ghost use Rattle.std.specs.Prelude.{◌≡◌};
ghost use Rattle.acl_run.specs.Telling.{Refuses, ReportsOn, RunsWithoutWords, TriesLine};
ghost use Rattle.acl_run.specs.Worlds.{stream};

use crate::endings::{Ended, Which};
use acl_host::{Sink, WriteFault};

/// Writes the line of a refusal. The ending is the one that is asked for, unless the line was not written whole.
pub fn refuse<E: Sink>(err: &mut E, line: &[u8], asked: Ended) -> Ended
    ensures { Refuses line.now asked (stream E.Sink err.old) (stream E.Sink err.new) result }
{
    match err.write(line) {
        Ok(()) => asked,
        Err(WriteFault::Failed) => Ended::Outside(Which::Err),
        Err(WriteFault::Memory) => Ended::Memory,
    }
}

/// The whole run where the machine gives no words: memory was wanted for them, or some are no text, and so they are no
/// command line. The line says how the program is called.
pub fn end_without_words<E: Sink>(usage: &str, wanted_memory: bool, err: &mut E) -> Ended
    ensures { RunsWithoutWords usage.now wanted_memory (stream E.Sink err.old) (stream E.Sink err.new) result }
{
    if wanted_memory {
        return Ended::Memory;
    }
    refuse(err, usage.as_bytes(), Ended::Usage)
}

/// Tries to write the line that says what failed. A refusal of it changes nothing in the ending.
pub fn tell_outside<E: Sink>(err: &mut E, line: &str, which: Which) -> Ended
    ensures told { TriesLine line.now (stream E.Sink err.old) (stream E.Sink err.new) }
    ensures ending { result ≡ Ended.Outside which }
{
    let _ = err.write(line.as_bytes());
    Ended::Outside(which)
}

/// Writes a text to standard output. Where that fails, the line says so.
pub fn report_on<O: Sink, E: Sink>(text: &[u8], line: &str, out: &mut O, err: &mut E) -> Ended
    ensures { ReportsOn line.now text.now
        (stream O.Sink out.old) (stream O.Sink out.new)
        (stream E.Sink err.old) (stream E.Sink err.new)
        result }
{
    match out.write(text) {
        Ok(()) => Ended::Done,
        Err(WriteFault::Failed) => tell_outside(err, line, Which::Out),
        Err(WriteFault::Memory) => Ended::Memory,
    }
}
