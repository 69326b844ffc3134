//! aclgen: makes the real files, streams and clock, and runs the whole job on them.
#![tactic(auto)]

use acl_machine::{DiskTree, StdSink, SystemClock, keep_large_blocks};
use aclgen_core::{run_status, status_without_words};
use std::io::ErrorKind;
use std::process::ExitCode;
use std::{env, io};

// The words behind the program's name.
fn words_of(rt: &HostRuntime) -> io::Result<Vec<String>> {
    Ok(env::args(rt)?.skip(1).collect(rt.alloc())?)
}

fn main(rt: HostRuntime) -> ExitCode {
    keep_large_blocks(rt.alloc());
    let mut out = StdSink::new(rt.stdout());
    let mut err = StdSink::new(rt.stderr());
    let status = match words_of(&rt) {
        Ok(words) => {
            let mut tree = DiskTree::new(&rt);
            let mut clock = SystemClock::new(&rt);
            let words = words.as_slice();
            run_status(rt.alloc(), words, &mut tree, &mut out, &mut err, &mut clock)
        }
        Err(error) => status_without_words(error.kind() == ErrorKind::OutOfMemory, &mut err),
    };
    ExitCode::from(status)
}
