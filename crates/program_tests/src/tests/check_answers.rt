use crate::tests::check_runs::{Case, USAGE, leaves};
use crate::tests::runs::NONE;

const ANSWERED: Case = Case {
    words: "",
    calls: NONE,
    status: 0,
    told: b"",
    line: b"",
};

const REJECTED: Case = Case {
    status: 1,
    ..ANSWERED
};

const REFUSED: Case = Case {
    status: 2,
    line: USAGE,
    ..ANSWERED
};

static CASES: [Case; 10] = [
    Case {
        words: "|policy|--policy_file|pol/a.pol|--definitions_directory|def|--packet|198.51.100.7 192.0.2.10 6 40000 80 2 0 0 new|--date|2026-01-15",
        told: b"cisco edge-in extended: accept by web
juniper edge-in inet: accept by web
iptables INPUT inet: accept by web
nftables input inet: accept by web
",
        ..ANSWERED
    },
    Case {
        words: "|policy|--policy_file|pol/a.pol|--definitions_directory|def|--packet|198.51.100.7 192.0.2.10 6 40000 81 2 0 0 new",
        told: b"cisco edge-in extended: deny by default
juniper edge-in inet: deny by default
iptables INPUT inet: deny by default
nftables input inet: deny by default
",
        ..ANSWERED
    },
    Case {
        words: "|policy|--policy_file|pol/b.pol|--definitions_directory|def|--packet|198.51.100.7 192.0.2.10 6 40000 80 2 0 0 new",
        line: b"pol/b.pol: F20 NoFile\n",
        ..REJECTED
    },
    Case {
        words: "|text|--text|out/a.acl|--platform|cisco|--section|1|--packet|198.51.100.7 192.0.2.10 6 40000 80 2 0 0 new",
        told: b"out/a.acl: section 1: accept\n",
        ..ANSWERED
    },
    Case {
        words: "|text|--text|out/a.acl|--platform|cisco|--section|2|--packet|198.51.100.7 192.0.2.10 6 40000 80 2 0 0 new",
        line: b"out/a.acl: F49 NoSection 2\n",
        ..REJECTED
    },
    Case {
        words: "|text|--text|out/a.acl|--platform|juniper|--section|1|--packet|198.51.100.7 192.0.2.10 6 40000 80 2 0 0 new",
        line: b"out/a.acl: F48 NoDocument\n",
        ..REJECTED
    },
    Case {
        words: "|text|--text|out/b.acl|--platform|cisco|--section|1|--packet|198.51.100.7 192.0.2.10 6 40000 80 2 0 0 new",
        line: b"out/b.acl: F20 NoFile\n",
        ..REJECTED
    },
    // a packet of ICMP has no ports
    Case {
        words: "|text|--text|out/a.acl|--platform|cisco|--section|1|--packet|198.51.100.7 192.0.2.10 1 40000 80 2 0 0 new",
        ..REFUSED
    },
    Case {
        words: "|text|--text|out/a.acl|--platform|cisco|--section|01|--packet|198.51.100.7 192.0.2.10 6 40000 80 2 0 0 new",
        ..REFUSED
    },
    REFUSED,
];

#[test]
fn packets_are_asked_of_policies_and_texts(rt: HostRuntime) {
    for (place, case) in CASES.iter().enumerate() {
        assert!(rt; leaves(rt.alloc(), case) == Ok(true), "case {place}");
    }
}
