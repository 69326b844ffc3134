use crate::tests::runs::{Calls, DATED, Left, NONE, UNDATED, USAGE, keeps_inputs, left_by_aclgen};
use acl_memory::Op;
use acl_text::Memory;
use std::alloc::Global;

// A run over a policy, the status that it ends with, and the bytes that it leaves: the file of Cisco where there is
// one, and what was written on the two streams.
#[derive(Clone, Copy)]
struct Case {
    policy: &'static [u8],
    words: &'static str,
    calls: Calls,
    status: u8,
    file: Option<&'static [u8]>,
    report: &'static [u8],
    line: &'static [u8],
}

const TWO_BLOCKS: &[u8] = b"header { target:: cisco edge mixed target:: cisco low extended }
term old { expiration:: 2026-01-15 action:: accept }
term web { destination-address:: WEB protocol:: tcp action:: accept logging:: true }
header { target:: cisco sums extended }
term a { source-address:: LOW HIGH action:: reject }
";

const SECTIONS: &[u8] = b"! cisco edge mixed
no ip access-list extended edge
ip access-list extended edge
 remark web
 permit tcp any host 192.0.2.10 log
exit
no ipv6 access-list ipv6-edge
ipv6 access-list ipv6-edge
 permit icmp any any 136
 permit icmp any any 135
 deny ipv6 any any
exit
! cisco low extended
no ip access-list extended low
ip access-list extended low
 remark web
 permit tcp any host 192.0.2.10 log
exit
! cisco sums extended
no ip access-list extended sums
ip access-list extended sums
 remark a
 deny ip 10.0.0.0 0.0.0.255 any
exit
";

const CODES: &[u8] = b"! cisco edge extended
no ip access-list extended edge
ip access-list extended edge
 remark u
 permit icmp any any 3 3
 permit icmp any any 3 4
exit
";

const REPORT: &[u8] = b"pol/a.pol:2: term old expired on 2026-01-15
out/a.acl: cisco edge mixed: entries 4
out/a.acl: cisco low extended: entries 1
out/a.acl: cisco sums extended: entries 1
";

// The text of the rules of the third is what was kept of the second.
const THREE_ALIKE: &[u8] =
    b"header { target:: cisco edge mixed target:: cisco rim mixed target:: cisco shore mixed }\nterm t { action:: accept }\n";

const ALIKE_SECTIONS: &[u8] = b"! cisco edge mixed
no ip access-list extended edge
ip access-list extended edge
 remark t
 permit ip any any
exit
no ipv6 access-list ipv6-edge
ipv6 access-list ipv6-edge
 remark t
 permit ipv6 any any
exit
! cisco rim mixed
no ip access-list extended rim
ip access-list extended rim
 remark t
 permit ip any any
exit
no ipv6 access-list ipv6-rim
ipv6 access-list ipv6-rim
 remark t
 permit ipv6 any any
exit
! cisco shore mixed
no ip access-list extended shore
ip access-list extended shore
 remark t
 permit ip any any
exit
no ipv6 access-list ipv6-shore
ipv6 access-list ipv6-shore
 remark t
 permit ipv6 any any
exit
";

const ALIKE_REPORT: &[u8] = b"out/a.acl: cisco edge mixed: entries 2
out/a.acl: cisco rim mixed: entries 2
out/a.acl: cisco shore mixed: entries 2
";

const TWO_TERMS: &[u8] = b"out/w.acl: cisco w mixed: entries 8
out/w.jcl: juniper w inet: entries 10
out/w.ipt: iptables FORWARD inet: entries 6
out/w.nft: nftables forward mixed: entries 24
";

const CASE: Case = Case {
    policy: THREE_ALIKE,
    words: DATED,
    calls: NONE,
    status: 0,
    file: None,
    report: b"",
    line: b"",
};

// Neither the tree nor the clock is called.
const QUIET: Calls = Calls {
    tree: Some((Op::List, 1)),
    clock: 1,
    ..NONE
};

const WORKLOAD: Case = Case {
    words: " --workload 2",
    calls: QUIET,
    ..CASE
};

static CASES: [Case; 10] = [
    Case {
        policy: TWO_BLOCKS,
        file: Some(SECTIONS),
        report: REPORT,
        ..CASE
    },
    Case {
        words: UNDATED,
        file: Some(ALIKE_SECTIONS),
        report: ALIKE_REPORT,
        ..CASE
    },
    Case {
        policy: b"header { target:: cisco edge extended }\nterm t { source-address:: NOWHERE action:: accept }",
        status: 1,
        line: b"pol/a.pol:2: F31 UnknownName NOWHERE\n",
        ..CASE
    },
    Case {
        policy: b"header { target:: cisco edge extended }\nterm u { protocol:: icmp icmp-type:: unreachable icmp-code:: 4 3 action:: accept }\n",
        file: Some(CODES),
        report: b"out/a.acl: cisco edge extended: entries 2\n",
        ..CASE
    },
    Case {
        policy: b"header { target:: cisco edge extended }\nterm t { protocol:: icmp\nicmp-code:: 4 action:: accept }\n",
        status: 1,
        line: b"pol/a.pol:3: F46 IcmpCode 4\n",
        ..CASE
    },
    Case {
        policy: b"header { target:: juniper a }\nterm t { protocol:: tcp udp option:: established action:: accept }\nterm t-udp { action:: deny }",
        status: 1,
        line: b"pol/a.pol:3: F42 NameClash t-udp\n",
        ..CASE
    },
    Case {
        policy: b"header { target:: cisco edge extended }\nterm a { action:: accept }\nterm b { protocol:: tcp action:: deny }\n",
        words: " --policy_file pol/a.pol --definitions_directory def --output_directory out --shade_check",
        status: 1,
        line: b"pol/a.pol:3: F50 Shaded a\n",
        ..CASE
    },
    Case {
        words: " --policy_file pol/a.pol --definitions_directory def --output_directory out --date 2026-02-30",
        status: 2,
        line: USAGE,
        ..CASE
    },
    Case {
        report: TWO_TERMS,
        ..WORKLOAD
    },
    Case {
        calls: Calls { out: 1, ..QUIET },
        status: 3,
        line: b"aclgen: output failed\n",
        ..WORKLOAD
    },
];

fn is_left(left: &Left, case: &Case) -> bool {
    left.status == case.status
        && left.tree.file("out/a.acl") == case.file
        && left.out.as_slice() == case.report
        && left.err.as_slice() == case.line
        && keeps_inputs(&left.tree, case.policy)
}

fn leaves(alloc: Global, case: &Case) -> Result<bool, Memory> {
    let left = left_by_aclgen(alloc, case.policy, case.words, &case.calls)?;
    Ok(is_left(&left, case))
}

#[test]
fn runs_leave_their_files_and_lines(rt: HostRuntime) {
    for (place, case) in CASES.iter().enumerate() {
        assert!(rt; leaves(rt.alloc(), case) == Ok(true), "case {place}");
    }
}
