ghost use Rattle.std.specs.Prelude.{◌≡◌, ◌++◌, [], OnOk, if◌then◌else◌};
ghost use Rattle.std.specs.Io.KnownBytes.{Appends, append_known};

use crate::whole_writes::write_whole;
use acl_text::copy_bytes;
use std::alloc::Global;
use std::io;
use std::io::Write;
use std::marker::Model;

// So many bytes are gathered at most.
const MOST_ROOM: usize = 65_536;

// So much room is taken at once.
const MORE_ROOM: [u8; 4096] = [0; 4096];

/// Bytes on their way to a file, gathered so that many small pieces are few writes. A contract sees the bytes.
///
/// The room grows with what is gathered, so a short file takes little. Where there is no memory for more room, more
/// is written sooner.
#[derive(Drop)]
pub(crate) struct Gathered {
    room: Vec<u8>,
    end: usize,
}

impl Model for Gathered {
    ghost use Rattle.std.specs.Prelude.{◌≤◌, ℕ, List, length, take};

    ghost Value = { List ℕ };

    ghost view = { λ g. take g.end g.room.items };

    ghost invariant = { λ g. g.end ≤ length g.room.items };
}

impl Gathered {
    /// Nothing is gathered.
    pub(crate) fn new(alloc: Global) -> Gathered
        ensures { result ≡ [] }
    {
        Gathered {
            room: Vec::new(alloc),
            end: 0,
        }
    }

    /// Takes the bytes behind those that are gathered, and writes what has no room.
    pub(crate) fn put<W: Write>(&mut self, writer: &mut W, bytes: &[u8]) -> io::Result<()>
        ensures { OnOk result (Appends (append_known (W.contents writer.old) self.old)
            (append_known (W.contents writer.new) self.new) bytes.now) }
    {
        if self.take(bytes) {
            return Ok(());
        }
        self.widen();
        if self.take(bytes) {
            return Ok(());
        }
        self.write_out(writer)?;
        if self.take(bytes) {
            return Ok(());
        }
        write_whole(writer, bytes)
    }

    /// Writes what is gathered. Nothing is gathered then, also where it fails.
    pub(crate) fn write_out<W: Write>(&mut self, writer: &mut W) -> io::Result<()>
        ensures written { OnOk result (Appends (W.contents writer.old) (W.contents writer.new)
            self.old) }
        ensures none { self.new ≡ [] }
    {
        let written = write_whole(writer, &self.room[..self.end]);
        self.clear();
        written
    }

    // Takes more room, unless there is the most, or no memory for it.
    fn widen(&mut self)
        ensures { self.new ≡ self.old }
    {
        if self.room.len() < MOST_ROOM {
            let _wider = self.room.extend_from_slice(&MORE_ROOM);
        }
    }

    /// Lets go what is gathered.
    pub(crate) fn clear(&mut self)
        ensures { self.new ≡ [] }
    {
        self.end = 0;
    }

    /// Takes the bytes behind those that are gathered, or none where they have no room.
    #[inline(always)]
    pub(crate) fn take(&mut self, bytes: &[u8]) -> bool
        ensures { self.new ≡ (if result then self.old ++ bytes.now
            else self.old) }
    {
        if bytes.len() > self.room.len() - self.end {
            return false;
        }
        let end = self.end + bytes.len();
        copy_bytes(&mut self.room[self.end..end], bytes);
        self.end = end;
        true
    }
}
