use crate::tests::runs::{Calls, Left, Program, keeps_inputs, left_by, tree_of};
use acl_text::Memory;
use std::alloc::Global;

// A run of acltool, and what it is to leave: its status and what stands on the two streams.
#[derive(Clone, Copy)]
pub(crate) struct Case {
    // The words behind the program's name, each behind a space.
    pub(crate) words: &'static str,
    pub(crate) policy: &'static [u8],
    pub(crate) status: u8,
    pub(crate) out: &'static [u8],
    pub(crate) err: &'static [u8],
}

fn is_left(left: &Left, case: &Case) -> bool {
    left.status == case.status
        && left.out.as_slice() == case.out
        && left.err.as_slice() == case.err
        && keeps_inputs(&left.tree, case.policy)
}

// Whether the run leaves what it is to leave, where these calls fail. The policy stays as it was.
pub(crate) fn leaves(alloc: Global, case: &Case, calls: &Calls) -> Result<bool, Memory> {
    let tree = tree_of(alloc, case.policy)?;
    let left = left_by(Program::Acltool, alloc, tree, case.words, calls)?;
    Ok(is_left(&left, case))
}
