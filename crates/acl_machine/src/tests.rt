use crate::disk::front_of;
use acl_host::TreeFault;
use std::io;
use std::io::{ErrorKind, Read};

// Gives a byte a call, and fails once, at the call behind so many.
#[derive(Drop)]
struct FailsOnce {
    bytes: &'static [u8],
    before: Option<usize>,
    kind: ErrorKind,
}

impl Read for FailsOnce {
    fn read(&mut self, buf: &mut [u8]) -> io::Result<usize> {
        if self.before == Some(0) {
            self.before = None;
            return Err(self.kind.into());
        }
        self.before = self.before.map(|n| n.saturating_sub(1));
        if self.bytes.is_empty() || buf.is_empty() {
            return Ok(0);
        }
        buf[0] = self.bytes[0];
        self.bytes = &self.bytes[1..];
        Ok(1)
    }
}

fn abc(kind: ErrorKind) -> FailsOnce {
    FailsOnce {
        bytes: b"abc",
        before: Some(2),
        kind,
    }
}

#[test]
fn an_interrupted_read_goes_on(rt: HostRuntime) {
    match front_of(&mut abc(ErrorKind::Interrupted), rt.alloc(), 9) {
        Ok(bytes) => assert_eq!(rt; bytes.as_slice(), b"abc".as_slice()),
        Err(_) => panic!(rt; "a fault"),
    }
    let failed = front_of(&mut abc(ErrorKind::Other), rt.alloc(), 9);
    assert!(rt; failed.err() == Some(TreeFault::Failed));
}
