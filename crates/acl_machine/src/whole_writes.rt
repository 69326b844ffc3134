ghost use Rattle.std.specs.Prelude.{ℕ, IfOk, OnOk, OnErr, take};
ghost use Rattle.std.specs.Io.{WritesAtMost};
ghost use Rattle.std.specs.Io.KnownBytes.{Appends, Keeps};

use std::io;
use std::io::{ErrorKind, Write};

/// Writes all the bytes, or a front of them where it fails. A write that is interrupted goes on.
pub(crate) fn write_whole<W: Write>(writer: &mut W, bytes: &[u8]) -> io::Result<()>
    ensures ok { OnOk result (Appends (W.contents writer.old) (W.contents writer.new) bytes.now) }
    ensures err { OnErr result ((n : ℕ)
        × Appends (W.contents writer.old) (W.contents writer.new) (take n bytes.now)) }
{
    let mut written = 0;
    while written < bytes.len() {
        match write_some(writer, &bytes[written..]) {
            Ok(0) => return Err(ErrorKind::WriteZero.into()),
            Ok(n) => written += n,
            Err(error) => return Err(error),
        }
    }
    Ok(())
}

// One write, tried again where it is interrupted. Apart from the loop above for the reason that `read_once` is.
#[inline(never)]
fn write_some<W: Write>(writer: &mut W, bytes: &[u8]) -> io::Result<usize>
    ensures bound { WritesAtMost result bytes.now }
    ensures ok { IfOk result (λ n. Appends (W.contents writer.old) (W.contents writer.new)
        (take n bytes.now)) }
    ensures err { OnErr result (Keeps (W.contents writer.old) (W.contents writer.new)) }
{
    for _ in 0..u64::MAX {
        match writer.write(bytes) {
            Ok(n) => return Ok(n),
            Err(error) => {
                if error.kind() != ErrorKind::Interrupted {
                    return Err(error);
                }
            }
        }
    }
    Err(ErrorKind::TimedOut.into())
}

/// Writes all the bytes, and passes them on.
pub(crate) fn write_through<W: Write>(writer: &mut W, bytes: &[u8]) -> io::Result<()>
    ensures { OnOk result (Appends (W.contents writer.old) (W.contents writer.new) bytes.now) }
{
    write_whole(writer, bytes)?;
    writer.flush()
}
