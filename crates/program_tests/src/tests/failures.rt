ghost use Rattle.std.specs.Prelude.{◌≡◌, IfOk, None};
ghost use Rattle.acl_memory.specs.MemoryTrees.{contents};

use crate::tests::runs::{
    Calls, DATED, DEFINITIONS, Left, NONE, UNDATED, USAGE, WITHOUT_POLICY, WRONG, aclgen_status,
    keeps_inputs, left_by_aclgen, sink_with, words_of,
};
use acl_host::Day;
use acl_memory::{MemTree, Op, SureClock, SureSink, SureTree};
use acl_text::Memory;
use aclgen_core::status_without_words;
use std::alloc::Global;

// A policy whose rules have each part that a rule may have, but for the flags. Of Cisco and of Junos it has
// two targets that are alike: the rules of the second are put from a text that is kept.
const POLICY: &[u8] = b"header {
  target:: cisco edge-in extended
  target:: cisco rim-in extended
  target:: juniper edge-in
  target:: juniper rim-in
  target:: iptables INPUT DROP
  target:: nftables inet input
}
term web {
  comment:: \"Not ours.\"
  source-address:: LOW WEB
  destination-address:: WEB
  destination-port:: PORTS
  protocol:: tcp
  action:: accept
  logging:: true
}
term ping { protocol:: icmp icmp-type:: 0 8 action:: reject }
term est { protocol:: tcp udp option:: established action:: accept }
";

// The files in the order in which they are written.
static FILES: [(&str, &[u8]); 4] = [
    (
        "out/a.acl",
        b"! cisco edge-in extended
no ip access-list extended edge-in
ip access-list extended edge-in
 remark web
 remark Not ours.
 permit tcp 10.0.0.0 0.0.0.127 host 192.0.2.10 eq 80 log
 permit tcp 10.0.0.0 0.0.0.127 host 192.0.2.10 range 8000 8080 log
 permit tcp host 192.0.2.10 host 192.0.2.10 eq 80 log
 permit tcp host 192.0.2.10 host 192.0.2.10 range 8000 8080 log
 remark ping
 deny icmp any any 0
 deny icmp any any 8
 remark est-tcp
 permit tcp any any established
 remark est-udp
 permit udp any any range 1024 65535
exit
! cisco rim-in extended
no ip access-list extended rim-in
ip access-list extended rim-in
 remark web
 remark Not ours.
 permit tcp 10.0.0.0 0.0.0.127 host 192.0.2.10 eq 80 log
 permit tcp 10.0.0.0 0.0.0.127 host 192.0.2.10 range 8000 8080 log
 permit tcp host 192.0.2.10 host 192.0.2.10 eq 80 log
 permit tcp host 192.0.2.10 host 192.0.2.10 range 8000 8080 log
 remark ping
 deny icmp any any 0
 deny icmp any any 8
 remark est-tcp
 permit tcp any any established
 remark est-udp
 permit udp any any range 1024 65535
exit
",
    ),
    (
        "out/a.jcl",
        b"/* juniper edge-in inet */
firewall {
    family inet {
        replace: filter edge-in {
            /* Not ours. */
            term web {
                from {
                    source-address {
                        10.0.0.0/25;
                        192.0.2.10/32;
                    }
                    destination-address {
                        192.0.2.10/32;
                    }
                    protocol [ 6 ];
                    destination-port [ 80 8000-8080 ];
                }
                then {
                    syslog;
                    accept;
                }
            }
            term ping {
                from {
                    protocol [ 1 ];
                    icmp-type [ 0 8 ];
                }
                then {
                    reject;
                }
            }
            term est-tcp {
                from {
                    protocol [ 6 ];
                    tcp-established;
                }
                then {
                    accept;
                }
            }
            term est-udp {
                from {
                    protocol [ 17 ];
                    destination-port [ 1024-65535 ];
                }
                then {
                    accept;
                }
            }
        }
    }
}
/* juniper rim-in inet */
firewall {
    family inet {
        replace: filter rim-in {
            /* Not ours. */
            term web {
                from {
                    source-address {
                        10.0.0.0/25;
                        192.0.2.10/32;
                    }
                    destination-address {
                        192.0.2.10/32;
                    }
                    protocol [ 6 ];
                    destination-port [ 80 8000-8080 ];
                }
                then {
                    syslog;
                    accept;
                }
            }
            term ping {
                from {
                    protocol [ 1 ];
                    icmp-type [ 0 8 ];
                }
                then {
                    reject;
                }
            }
            term est-tcp {
                from {
                    protocol [ 6 ];
                    tcp-established;
                }
                then {
                    accept;
                }
            }
            term est-udp {
                from {
                    protocol [ 17 ];
                    destination-port [ 1024-65535 ];
                }
                then {
                    accept;
                }
            }
        }
    }
}
",
    ),
    (
        "out/a.ipt",
        b"## iptables INPUT inet
-P INPUT DROP
# web
# Not ours.
-N I_web
-A I_web -p tcp -s 10.0.0.0/25 -d 192.0.2.10/32 -m multiport --dports 80,8000:8080 -j LOG
-A I_web -p tcp -s 10.0.0.0/25 -d 192.0.2.10/32 -m multiport --dports 80,8000:8080 -j ACCEPT
-A I_web -p tcp -s 192.0.2.10/32 -d 192.0.2.10/32 -m multiport --dports 80,8000:8080 -j LOG
-A I_web -p tcp -s 192.0.2.10/32 -d 192.0.2.10/32 -m multiport --dports 80,8000:8080 -j ACCEPT
-A INPUT -j I_web
# ping
-N I_ping
-A I_ping -p icmp --icmp-type 0 -j REJECT
-A I_ping -p icmp --icmp-type 8 -j REJECT
-A INPUT -j I_ping
# est
-N I_est
-A I_est -p tcp -m state --state ESTABLISHED,RELATED -j ACCEPT
-A I_est -p udp -m state --state ESTABLISHED,RELATED -j ACCEPT
-A INPUT -j I_est
",
    ),
    (
        "out/a.nft",
        b"## nftables input inet
add table ip aclgen_1
delete table ip aclgen_1
table ip aclgen_1 {
    chain input {
        type filter hook input priority 0; policy drop;
        # web
        # Not ours.
        meta l4proto 6 ip saddr { 10.0.0.0/25, 192.0.2.10/32 } ip daddr { 192.0.2.10/32 } tcp dport { 80, 8000-8080 } log accept
        # ping
        meta l4proto 1 icmp type { 0, 8 } reject
        # est
        meta l4proto 6 ct state { established, related } accept
        meta l4proto 17 ct state { established, related } accept
    }
}
",
    ),
];

const REPORT: &[u8] = b"out/a.acl: cisco edge-in extended: entries 8
out/a.acl: cisco rim-in extended: entries 8
out/a.jcl: juniper edge-in inet: entries 16
out/a.jcl: juniper rim-in inet: entries 16
out/a.ipt: iptables INPUT inet: entries 11
out/a.nft: nftables input inet: entries 11
";

// Whether so many files are whole, and of the others at most the next one is there, where one was begun.
fn are_whole(tree: &MemTree, whole: usize, begun: bool) -> bool {
    for (place, (path, text)) in FILES.iter().enumerate() {
        let file = tree.file(path);
        let stands = if place < whole {
            file == Some(*text)
        } else {
            file.is_none() || (begun && place == whole)
        };
        if !stands {
            return false;
        }
    }
    true
}

// The calls that fail in a run, the status that it ends with, and what it leaves: how many files are whole, whether one
// more was begun, and what was written on the two streams.
#[derive(Clone, Copy)]
struct Case {
    words: &'static str,
    calls: Calls,
    status: u8,
    whole: usize,
    begun: bool,
    report: &'static [u8],
    line: &'static [u8],
}

const DONE: Case = Case {
    words: DATED,
    calls: NONE,
    status: 0,
    whole: 4,
    begun: false,
    report: REPORT,
    line: b"",
};

const FAILED: Case = Case {
    status: 3,
    whole: 0,
    report: b"",
    ..DONE
};

fn is_left(left: &Left, case: &Case) -> bool {
    left.status == case.status
        && left.out.as_slice() == case.report
        && left.err.as_slice() == case.line
        && are_whole(&left.tree, case.whole, case.begun)
        && keeps_inputs(&left.tree, POLICY)
}

// Calls before the writing, with the line: no file is made. Then calls that a run does not make: nothing is called again,
// neither behind a failure nor else, and the clock is asked only where the words name no day. Where two calls would fail,
// or a call and the words or the policy, the first in the order of the work is told.
static CASES: [Case; 21] = [
    Case {
        calls: Calls {
            tree: Some((Op::List, 1)),
            ..NONE
        },
        line: b"aclgen: list failed\n",
        ..FAILED
    },
    Case {
        calls: Calls {
            tree: Some((Op::Read, 1)),
            ..NONE
        },
        line: b"aclgen: read failed\n",
        ..FAILED
    },
    Case {
        calls: Calls {
            tree: Some((Op::Read, 2)),
            ..NONE
        },
        line: b"aclgen: read failed\n",
        ..FAILED
    },
    Case {
        calls: Calls {
            tree: Some((Op::Read, 3)),
            ..NONE
        },
        line: b"aclgen: read failed\n",
        ..FAILED
    },
    Case {
        words: UNDATED,
        calls: Calls { clock: 1, ..NONE },
        line: b"aclgen: clock failed\n",
        ..FAILED
    },
    // the clock is asked before the folder is listed
    Case {
        words: UNDATED,
        calls: Calls {
            tree: Some((Op::List, 1)),
            clock: 1,
            ..NONE
        },
        line: b"aclgen: clock failed\n",
        ..FAILED
    },
    // the words are read before the clock is asked, and before the folder is listed
    Case {
        words: WRONG,
        calls: Calls { clock: 1, ..NONE },
        status: 2,
        line: USAGE,
        ..FAILED
    },
    Case {
        words: WRONG,
        calls: Calls {
            tree: Some((Op::List, 1)),
            ..NONE
        },
        status: 2,
        line: USAGE,
        ..FAILED
    },
    // a file whose reading fails may be one that is not there
    Case {
        words: WITHOUT_POLICY,
        calls: Calls {
            tree: Some((Op::Read, 3)),
            ..NONE
        },
        line: b"aclgen: read failed\n",
        ..FAILED
    },
    // the files are written before the report
    Case {
        calls: Calls {
            tree: Some((Op::Finish, 4)),
            out: 1,
            ..NONE
        },
        whole: 3,
        begun: true,
        line: b"aclgen: write failed\n",
        ..FAILED
    },
    Case {
        calls: Calls { out: 1, ..NONE },
        whole: 4,
        line: b"aclgen: output failed\n",
        ..FAILED
    },
    Case {
        words: WITHOUT_POLICY,
        calls: Calls { err: 1, ..NONE },
        ..FAILED
    },
    // the line on a failure fails too
    Case {
        calls: Calls {
            tree: Some((Op::Read, 2)),
            err: 1,
            ..NONE
        },
        ..FAILED
    },
    Case {
        words: WITHOUT_POLICY,
        calls: Calls { err: 2, ..NONE },
        status: 1,
        line: b"pol/b.pol: F20 NoFile\n",
        ..FAILED
    },
    Case {
        calls: Calls {
            tree: Some((Op::List, 2)),
            clock: 1,
            ..NONE
        },
        ..DONE
    },
    Case {
        calls: Calls {
            tree: Some((Op::Read, 4)),
            ..NONE
        },
        ..DONE
    },
    Case {
        calls: Calls {
            tree: Some((Op::Begin, 5)),
            ..NONE
        },
        ..DONE
    },
    Case {
        calls: Calls {
            tree: Some((Op::Finish, 5)),
            ..NONE
        },
        ..DONE
    },
    Case {
        calls: Calls { out: 2, ..NONE },
        ..DONE
    },
    Case {
        calls: Calls { err: 1, ..NONE },
        ..DONE
    },
    Case {
        words: UNDATED,
        calls: Calls { clock: 2, ..NONE },
        ..DONE
    },
];

fn leaves(alloc: Global, case: &Case) -> Result<bool, Memory> {
    let left = left_by_aclgen(alloc, POLICY, case.words, &case.calls)?;
    Ok(is_left(&left, case))
}

#[test]
fn each_call_outside_fails_once(rt: HostRuntime) {
    for (place, case) in CASES.iter().enumerate() {
        assert!(rt; leaves(rt.alloc(), case) == Ok(true), "case {place}");
    }
}

// What is left where the writing of a file fails behind so many whole ones.
fn cut_off(op: Op, nth: u32, whole: usize) -> Case {
    Case {
        calls: Calls {
            tree: Some((op, nth)),
            ..NONE
        },
        whole,
        begun: true,
        line: b"aclgen: write failed\n",
        ..FAILED
    }
}

#[test]
fn each_file_is_begun_and_finished_once(rt: HostRuntime) {
    for before in 0..4u32 {
        let begin = cut_off(Op::Begin, before + 1, before as usize);
        assert!(rt;
            leaves(rt.alloc(), &begin) == Ok(true),
            "begun behind {before}"
        );
        let finish = cut_off(Op::Finish, before + 1, before as usize);
        assert!(rt;
            leaves(rt.alloc(), &finish) == Ok(true),
            "finished behind {before}"
        );
    }
}

// Behind how many whole files a run was cut off.
fn files_before_the_cut(left: &Left, case: &Case) -> Option<usize> {
    for whole in 0..4usize {
        if is_left(left, &Case { whole, ..*case }) {
            return Some(whole);
        }
    }
    None
}

// How much there is of the file behind so many whole ones, where it was cut off where a line begins.
fn cut_at_a_line(tree: &MemTree, whole: usize) -> Option<usize> {
    let (path, _) = FILES.get(whole)?;
    let text = tree.file(path)?;
    if text.is_empty() || text.ends_with(b"\n") {
        Some(text.len())
    } else {
        None
    }
}

fn count_lines() -> usize {
    let mut count = 0usize;
    for (_, text) in &FILES {
        for byte in *text {
            if *byte == b'\n' {
                count = count.saturating_add(1);
            }
        }
    }
    count
}

// A run of which the append of that number fails.
#[derive(Clone, Copy)]
enum Appended {
    // It has no such append, and is done.
    Done,
    // It was cut off behind so many whole files. How much there is of the next one, where it ends with a line.
    Cut(usize, Option<usize>),
    // It left something else.
    Other,
}

fn what_came_of_it(left: &Left, case: &Case) -> Appended {
    if is_left(left, &DONE) {
        return Appended::Done;
    }
    match files_before_the_cut(left, case) {
        Some(whole) => Appended::Cut(whole, cut_at_a_line(&left.tree, whole)),
        None => Appended::Other,
    }
}

fn run_to_append(alloc: Global, nth: u32) -> Option<Appended> {
    let case = cut_off(Op::Append, nth, 0);
    let left = left_by_aclgen(alloc, POLICY, case.words, &case.calls).ok()?;
    Some(what_came_of_it(&left, &case))
}

// The place of a cut behind `last`, where a line begins there that did not begin at `last`.
fn next_line(cut: Appended, last: (usize, usize)) -> Option<(usize, usize)> {
    match cut {
        Appended::Cut(whole, Some(length)) if (whole, length) != last => Some((whole, length)),
        _ => None,
    }
}

// Whether the cut is behind as many whole files as the last one, or behind one more.
fn goes_on(cut: Appended, before: usize) -> Option<usize> {
    match cut {
        Appended::Cut(whole, _) if whole == before || whole == before.saturating_add(1) => {
            Some(whole)
        }
        _ => None,
    }
}

// Appends are counted upwards until none of that number is made. Each line begins with one of its own: no append has
// bytes of two lines.
#[test]
fn each_append_fails_once(rt: HostRuntime) {
    let mut before = 0usize;
    let mut lines = 0usize;
    let mut last = (usize::MAX, 0usize);
    for nth in 1..10_000u32 {
        let cut = run_to_append(rt.alloc(), nth).unwrap_or(Appended::Other);
        if let Appended::Done = cut {
            assert!(rt; before == 3 && lines == count_lines(), "append {nth}");
            return;
        }
        let whole = goes_on(cut, before);
        assert!(rt; whole.is_some(), "append {nth}");
        before = whole.unwrap_or(before);
        if let Some(place) = next_line(cut, last) {
            lines = lines.saturating_add(1);
            last = place;
        }
    }
    assert!(rt; false, "each run failed");
}

// The same files, in a tree of which no call fails.
fn sure_tree(alloc: Global) -> Result<SureTree, Memory>
    ensures { IfOk result (λ t. (contents t.tree).begun ≡ None) }
{
    let mut tree = SureTree::new(alloc);
    let [(networks, of_networks), (services, of_services)] = DEFINITIONS;
    tree.put_file(networks, of_networks)?;
    tree.put_file(services, of_services)?;
    tree.put_file("pol/a.pol", POLICY)?;
    Ok(tree)
}

fn has_files(tree: &SureTree) -> bool {
    for (path, text) in &FILES {
        if tree.file(path) != Some(*text) {
            return false;
        }
    }
    true
}

fn is_done_surely(alloc: Global) -> Result<bool, Memory> {
    let words = words_of(alloc, UNDATED)?;
    let mut tree = sure_tree(alloc)?;
    let mut out = SureSink::new(alloc);
    let mut err = SureSink::new(alloc);
    let mut clock = SureClock::new(Day { number: 20468 });
    let status = aclgen_status(
        alloc,
        words.as_slice(),
        &mut tree,
        &mut out,
        &mut err,
        &mut clock,
    );
    let streams = out.as_slice() == REPORT && err.as_slice().is_empty();
    Ok(status == 0 && streams && has_files(&tree))
}

#[test]
fn a_run_over_objects_that_never_fail_is_done(rt: HostRuntime) {
    assert!(rt; is_done_surely(rt.alloc()) == Ok(true));
}

// Whether this is the status and the line where the machine gives no words.
fn ends_without_words(
    alloc: Global,
    wanted_memory: bool,
    failing: u32,
    status: u8,
    line: &[u8],
) -> Result<bool, Memory> {
    let mut err = sink_with(alloc, failing)?;
    let found = status_without_words(wanted_memory, &mut err);
    Ok(found == status && err.as_slice() == line)
}

#[test]
fn words_that_are_no_text_are_no_command_line(rt: HostRuntime) {
    assert!(rt; ends_without_words(rt.alloc(), false, 0, 2, USAGE) == Ok(true));
    assert!(rt; ends_without_words(rt.alloc(), false, 1, 3, b"") == Ok(true));
    assert!(rt; ends_without_words(rt.alloc(), true, 0, 4, b"") == Ok(true));
}
