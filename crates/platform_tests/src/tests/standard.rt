use crate::tests::generators::are_written;
use crate::tests::samples::{HEAD, Head, filter};
use acl_platform::{Rules, count_within_limits};
use acl_target::{Ending, Kind};
use acl_text::Memory;
use gen_acltool::Standard;
use std::alloc::Global;

// The first two of a policy.
const EDGE_HEAD: Head = Head {
    kind: Kind::Cisco,
    name: b"edge",
    ending: Ending::Neighbours,
    ..HEAD
};

const TWO_HEAD: Head = Head {
    name: b"two",
    number: 2,
    ..EDGE_HEAD
};

const EMPTY: &str = "! cisco standard 98
no access-list 98
access-list 98 deny any
! cisco standard 99
no access-list 99
access-list 99 deny any
";

fn lists_are_written(alloc: Global) -> Result<bool, Memory> {
    let platform = Standard { first: 98 };
    let edge = filter(alloc, &EDGE_HEAD, Rules::new(alloc))?;
    let two = filter(alloc, &TWO_HEAD, Rules::new(alloc))?;
    if count_within_limits(&platform, &edge) != Ok(1) {
        return Ok(false);
    }
    are_written(alloc, &platform, &[edge, two], EMPTY)
}

#[test]
fn writes_one_section_after_another(rt: HostRuntime) {
    assert!(rt; lists_are_written(rt.alloc()) == Ok(true));
}
