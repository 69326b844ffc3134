ghost use Rattle.std.specs.Prelude.{◌≡◌, ◌+◌, ◌≤◌, [], true, false, Some, IsTrue, take, length, if◌then◌else◌};

use acl_text::{Out, PutFault, copy_bytes};

// So many bytes have room: more than a row of a device has, and few enough to be cleared in no time.
const ROOM: usize = 192;

/// The text of a line that is put together before it is put.
///
/// It refuses what it has no room for, and from then on nothing more may be put.
#[derive(Clone, Copy)]
pub(crate) struct LineText {
    bytes: [u8; ROOM],
    end: usize,
    is_open: bool,
    ghost fits: { end ≤ 192 },
}

impl LineText {
    #[inline]
    pub(crate) fn new() -> LineText
        ensures text { take result.end result.bytes ≡ [] }
        ensures open { result.is_open ≡ true }
    {
        LineText {
            bytes: [0; ROOM],
            end: 0,
            is_open: true,
        }
    }

    /// A text that takes nothing.
    #[inline]
    pub(crate) fn closed() -> LineText
        ensures { result.is_open ≡ false }
    {
        LineText {
            bytes: [0; ROOM],
            end: 0,
            is_open: false,
        }
    }

    #[inline]
    pub(crate) fn is_open(&self) -> bool
        ensures { result ≡ self.now.is_open }
    {
        self.is_open
    }

    #[inline]
    pub(crate) fn as_slice(&self) -> &[u8]
        ensures { result.now ≡ take self.now.end self.now.bytes }
    {
        &self.bytes[..self.end]
    }

    /// Where the text ends.
    #[inline]
    pub(crate) fn end(&self) -> usize
        ensures exact { result ≡ self.now.end }
        ensures size { length (take self.now.end self.now.bytes) ≡ result }
    {
        self.end
    }

    /// Takes nothing more.
    #[inline]
    pub(crate) fn close(&mut self)
        ensures { self.new.is_open ≡ false }
    {
        self.is_open = false;
    }

    /// Lets go what stands behind an end that it had, and takes bytes again.
    #[inline]
    pub(crate) fn cut_back(&mut self, end: usize)
        requires { end ≤ self.old.end }
        ensures text { take self.new.end self.new.bytes ≡ take end self.old.bytes }
        ensures open { self.new.is_open ≡ true }
    {
        self.end = end;
        self.is_open = true;
    }
}

impl Out for LineText {
    ghost told = { λ t. Some (take t.end t.bytes) };

    ghost faults = { λ t. if t.is_open then 0 else 1 };

    ghost refusals = { λ t. 0 };

    ghost is_open = { λ t. t.is_open };

    // it has no rest
    ghost keeps_rest = { λ x y. Unit {0} };

    #[inline(always)]
    fn put(&mut self, bytes: &[u8]) -> Result<(), PutFault> {
        if bytes.len() > ROOM - self.end {
            self.is_open = false;
            return Err(PutFault::Failed);
        }
        let end = self.end + bytes.len();
        copy_bytes(&mut self.bytes[self.end..end], bytes);
        self.end = end;
        Ok(())
    }

    ghost rest_same = { λ x. tt };

    ghost rest_goes_on = { λ x y z p q. tt };
}
