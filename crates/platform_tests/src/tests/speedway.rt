use crate::tests::generators::are_written;
use crate::tests::samples::{HEAD, Head, filter};
use acl_packet::Families;
use acl_platform::{Rules, count_within_limits};
use acl_target::Ending;
use acl_text::Memory;
use gen_acltool::Speedway;
use std::alloc::Global;

// A chain of IPv4 that drops, and one of IPv6 that accepts.
const DENYING: Head = Head {
    ending: Ending::Deny,
    ..HEAD
};

const OF_SIX: Head = Head {
    families: Families::Inet6,
    ending: Ending::Accept,
    ..HEAD
};

const EMPTY: &str = "## iptables INPUT inet
*filter
:INPUT DROP [0:0]
COMMIT
## iptables INPUT inet6
*filter
:INPUT ACCEPT [0:0]
COMMIT
";

fn chains_are_written(alloc: Global) -> Result<bool, Memory> {
    let own = filter(alloc, &DENYING, Rules::new(alloc))?;
    let other = filter(alloc, &OF_SIX, Rules::new(alloc))?;
    if count_within_limits(&Speedway, &own) != Ok(0) {
        return Ok(false);
    }
    are_written(alloc, &Speedway, &[own, other], EMPTY)
}

#[test]
fn writes_one_section_after_another(rt: HostRuntime) {
    assert!(rt; chains_are_written(rt.alloc()) == Ok(true));
}
