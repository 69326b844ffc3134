use crate::tests::check_runs::{Case, leaves};
use crate::tests::runs::{Calls, NONE};
use acl_memory::Op;

const OF_POLICY: Case = Case {
    words: "|policy|--policy_file|pol/a.pol|--definitions_directory|def|--packet|198.51.100.7 192.0.2.10 6 40000 80 2 0 0 new",
    calls: NONE,
    status: 3,
    told: b"",
    line: b"",
};

const OF_TEXT: Case = Case {
    words: "|text|--text|out/a.acl|--platform|cisco|--section|1|--packet|198.51.100.7 192.0.2.10 6 40000 80 2 0 0 new",
    ..OF_POLICY
};

static CASES: [Case; 8] = [
    Case {
        calls: Calls {
            tree: Some((Op::List, 1)),
            ..NONE
        },
        line: b"aclcheck: list failed\n",
        ..OF_POLICY
    },
    Case {
        calls: Calls {
            tree: Some((Op::Read, 3)),
            ..NONE
        },
        line: b"aclcheck: read failed\n",
        ..OF_POLICY
    },
    Case {
        calls: Calls { clock: 1, ..NONE },
        line: b"aclcheck: clock failed\n",
        ..OF_POLICY
    },
    Case {
        calls: Calls { out: 1, ..NONE },
        line: b"aclcheck: output failed\n",
        ..OF_POLICY
    },
    Case {
        calls: Calls {
            tree: Some((Op::Read, 1)),
            ..NONE
        },
        line: b"aclcheck: read failed\n",
        ..OF_TEXT
    },
    Case {
        calls: Calls { out: 1, ..NONE },
        line: b"aclcheck: output failed\n",
        ..OF_TEXT
    },
    // no folder is listed and no clock is asked
    Case {
        calls: Calls {
            tree: Some((Op::List, 1)),
            clock: 1,
            ..NONE
        },
        status: 0,
        told: b"out/a.acl: section 1: accept\n",
        ..OF_TEXT
    },
    // standard error fails where a fault is to be told
    Case {
        words: "|text|--text|out/b.acl|--platform|cisco|--section|1|--packet|198.51.100.7 192.0.2.10 6 40000 80 2 0 0 new",
        calls: Calls { err: 1, ..NONE },
        ..OF_TEXT
    },
];

#[test]
fn a_failed_call_is_told(rt: HostRuntime) {
    for (place, case) in CASES.iter().enumerate() {
        assert!(rt; leaves(rt.alloc(), case) == Ok(true), "case {place}");
    }
}
