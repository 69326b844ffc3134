ghost use Rattle.std.specs.Prelude.{◌≡◌, IfOk, None};
ghost use Rattle.acl_memory.specs.MemoryTrees.{contents};

use crate::tests::runs::{Calls, Left, Program, keeps_inputs, left_by, tree_of};
use acl_memory::MemTree;
use acl_text::Memory;
use std::alloc::Global;

const POLICY: &[u8] = b"header {
  target:: cisco edge-in extended
  target:: juniper edge-in
  target:: iptables INPUT DROP
  target:: nftables inet input
}
term web {
  destination-address:: WEB
  destination-port:: HTTP
  protocol:: tcp
  action:: accept
}
";

// What lies on a router.
const LIST: &[u8] = b"! cisco edge-in extended
no ip access-list extended edge-in
ip access-list extended edge-in
 remark web
 permit tcp any host 192.0.2.10 eq 80
exit
";

pub(crate) const USAGE: &[u8] = b"usage: aclcheck COMMAND OPTIONS\n";

// The tree of the policy, in which the list lies too.
fn tree_with_list(alloc: Global) -> Result<MemTree, Memory>
    ensures { IfOk result (λ t. (contents t).begun ≡ None) }
{
    let mut tree = tree_of(alloc, POLICY)?;
    tree.put_file("out/a.acl", LIST)?;
    Ok(tree)
}

// The words of a run of aclcheck, each behind a bar, since a packet is one word; the calls that fail in it, the status
// that it ends with, and what is written on the two streams.
#[derive(Clone, Copy)]
pub(crate) struct Case {
    pub(crate) words: &'static str,
    pub(crate) calls: Calls,
    pub(crate) status: u8,
    pub(crate) told: &'static [u8],
    pub(crate) line: &'static [u8],
}

// Whether the run left just that, and the files as they were.
fn is_left(left: &Left, case: &Case) -> bool {
    left.status == case.status
        && left.out.as_slice() == case.told
        && left.err.as_slice() == case.line
        && left.tree.file("out/a.acl") == Some(LIST)
        && keeps_inputs(&left.tree, POLICY)
}

pub(crate) fn leaves(alloc: Global, case: &Case) -> Result<bool, Memory> {
    let tree = tree_with_list(alloc)?;
    let left = left_by(Program::Aclcheck, alloc, tree, case.words, &case.calls)?;
    Ok(is_left(&left, case))
}
