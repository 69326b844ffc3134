use crate::tests::runs::{Calls, NONE};
use crate::tests::tool_runs::{Case, leaves};
use acl_memory::Op;
use acl_text::Memory;
use std::alloc::Global;

const RESTORE: &str =
    " speedway --policy_file pol/a.pol --definitions_directory def --family inet --date 2026-01-15";

const RESTORE_SIX: &str =
    " speedway --policy_file pol/a.pol --definitions_directory def --family inet6";

const DEAD: &str = " dead --policy_file pol/a.pol --definitions_directory def --date 2026-01-15";

const STANDARD: &str =
    " standard --policy_file pol/a.pol --definitions_directory def --first_number 10 --date 2026-01-15";

const STANDARD_LAST: &str =
    " standard --policy_file pol/a.pol --definitions_directory def --first_number 99";

const WEB: &[u8] = b"header {
  target:: cisco edge-in extended
  target:: iptables INPUT DROP
}
term web {
  destination-address:: WEB
  destination-port:: HTTP
  protocol:: tcp
  action:: accept
}
";

const SOURCES: &[u8] = b"header {
  target:: cisco edge extended
}
term a {
  source-address:: LOW HIGH
  action:: deny
}
";

// The first target is passed over, and has a number all the same.
const NUMBERED: &[u8] = b"header {
  target:: cisco six inet6
  target:: cisco edge extended
  target:: cisco two extended
}
term a {
  source-address:: LOW
  action:: accept
  logging:: true
}
";

const TWICE: &[u8] = b"header {
  target:: cisco edge extended
  target:: juniper edge inet
}
term a {
  protocol:: tcp
  action:: accept
}
term b {
  protocol:: tcp
  action:: deny
}
";

const RESTORED: &[u8] = b"## iptables INPUT inet
*filter
:INPUT DROP [0:0]
:I_web - [0:0]
# web
-A I_web -p tcp -d 192.0.2.10/32 --dport 80 -j ACCEPT
-A INPUT -j I_web
COMMIT
";

const LISTED: &[u8] = b"! cisco standard 10
no access-list 10
access-list 10 remark a
access-list 10 deny 10.0.0.0 0.0.0.255
";

static CASES: [Case; 12] = [
    Case {
        words: RESTORE,
        policy: WEB,
        status: 0,
        out: RESTORED,
        err: b"",
    },
    Case {
        words: RESTORE_SIX,
        policy: WEB,
        status: 0,
        out: b"",
        err: b"",
    },
    Case {
        words: RESTORE,
        policy: b"header {
  target:: iptables INPUT
}
term m {
  destination-port:: MANY
  protocol:: tcp
  action:: accept
}
",
        status: 1,
        out: b"",
        err: b"pol/a.pol:2: F47 NoPolicy INPUT\n",
    },
    Case {
        words: DEAD,
        policy: TWICE,
        status: 0,
        out: b"pol/a.pol:5: term a on cisco edge extended: decides 0.0.0.0 0.0.0.0 6 0 0 0 0 0 new
pol/a.pol:5: term a on juniper edge inet: decides 0.0.0.0 0.0.0.0 6 0 0 0 0 0 new
pol/a.pol:9: term b on cisco edge extended: dead
pol/a.pol:9: term b on juniper edge inet: dead
",
        err: b"",
    },
    // the term has a name and ports that speedway and standard would not take: no limit is judged
    Case {
        words: DEAD,
        policy: WEB,
        status: 0,
        out: b"pol/a.pol:5: term web on cisco edge-in extended: decides 0.0.0.0 192.0.2.10 6 0 80 0 0 0 new
pol/a.pol:5: term web on iptables INPUT inet: decides 0.0.0.0 192.0.2.10 6 0 80 0 0 0 new
",
        err: b"",
    },
    Case {
        words: DEAD,
        policy: b"header {
  target:: cisco edge extended
}
term a {
  source-address:: NONE
  action:: accept
}
",
        status: 1,
        out: b"",
        err: b"pol/a.pol:5: F31 UnknownName NONE\n",
    },
    Case {
        words: STANDARD,
        policy: SOURCES,
        status: 0,
        out: LISTED,
        err: b"",
    },
    Case {
        words: STANDARD,
        policy: NUMBERED,
        status: 0,
        out: b"! cisco standard 11
no access-list 11
access-list 11 remark a
access-list 11 permit 10.0.0.0 0.0.0.127 log
! cisco standard 12
no access-list 12
access-list 12 remark a
access-list 12 permit 10.0.0.0 0.0.0.127 log
",
        err: b"",
    },
    Case {
        words: STANDARD,
        policy: b"header {
  target:: juniper edge inet
}
term a {
  source-address:: LOW
  action:: accept
}
",
        status: 0,
        out: b"",
        err: b"",
    },
    Case {
        words: STANDARD,
        policy: WEB,
        status: 1,
        out: b"",
        err: b"pol/a.pol:5: F43 Unsupported standard\n",
    },
    Case {
        words: STANDARD_LAST,
        policy: NUMBERED,
        status: 1,
        out: b"",
        err: b"pol/a.pol:3: F51 NumberRange edge\n",
    },
    // the number of a target is judged before its terms, and behind those of the targets before it
    Case {
        words: STANDARD_LAST,
        policy: b"header {
  target:: cisco edge extended
  target:: cisco two extended
}
term a {
  source-address:: LOW
  protocol:: tcp
  action:: accept
}
",
        status: 1,
        out: b"",
        err: b"pol/a.pol:5: F43 Unsupported standard\n",
    },
];

#[test]
fn each_command_answers(rt: HostRuntime) {
    for (place, case) in CASES.iter().enumerate() {
        assert!(rt; leaves(rt.alloc(), case, &NONE) == Ok(true), "case {place}");
    }
}

// A run of each command.
static RUNS: [(&str, &[u8]); 3] = [(RESTORE, WEB), (DEAD, TWICE), (STANDARD, SOURCES)];

// Whether the run ends by this line where these calls fail.
fn is_cut_off(
    alloc: Global,
    words: &'static str,
    policy: &'static [u8],
    calls: &Calls,
    err: &'static [u8],
) -> Result<bool, Memory> {
    let case = Case {
        words,
        policy,
        status: 3,
        out: b"",
        err,
    };
    leaves(alloc, &case, calls)
}

const UNREAD: Calls = Calls {
    tree: Some((Op::Read, 1)),
    ..NONE
};

const UNTOLD: Calls = Calls { out: 1, ..NONE };

#[test]
fn a_failure_outside_is_told(rt: HostRuntime) {
    for (words, policy) in &RUNS {
        let alloc = rt.alloc();
        assert!(rt;
            is_cut_off(alloc, *words, *policy, &UNREAD, b"acltool: read failed\n") == Ok(true),
            "{words}"
        );
        assert!(rt;
            is_cut_off(alloc, *words, *policy, &UNTOLD, b"acltool: output failed\n") == Ok(true),
            "{words}"
        );
    }
}
