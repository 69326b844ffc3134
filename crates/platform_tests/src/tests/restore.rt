use crate::tests::languages::{
    ACCEPTED, ACK, Change, DENIED, LOGGED, PACKET, PING, SOLICITATION, Walk, expect_changes,
    expect_walks,
};
use acl_packet::{Conn, Outcome, Packet};
use acl_rows::{Language, read_document};
use acl_text::{Memory, PutFault, Whole};
use ipr_lang::{Restore, read_restore};
use ipt_lang::{Doc, Iptables, Section};
use std::alloc::Global;

const DOCUMENT: &str = "## iptables INPUT inet
*filter
:INPUT DROP [0:0]
:I_web - [0:0]
:I_rest - [0:0]
# web servers
-A I_web -p tcp -d 192.0.2.10/32 -m multiport --dports 80,443,8000:8089 -m state --state ESTABLISHED,RELATED -j LOG
-A I_web -p icmp --icmp-type 8 -j ACCEPT
-A INPUT -j I_web
-A I_rest -j LOG
-A INPUT -j I_rest
COMMIT
";

// Small changes of the document, each of which is read: what stands in it, and what in its place.
static READ: [Change; 7] = [
    (":INPUT DROP", ":INPUT ACCEPT"),
    ("# web servers\n", ""),
    ("# web servers", "# :I_web -\n# -A INPUT -j I_rest"),
    ("-A I_rest -j LOG\n", ""),
    (
        "-A I_rest -j LOG\n",
        "-A I_rest -j LOG\n-A I_rest -j ACCEPT\n",
    ),
    ("I_rest", "I_INPUT"),
    (
        "COMMIT\n",
        "COMMIT\n## iptables OUTPUT inet\n*filter\n:OUTPUT ACCEPT [0:0]\nCOMMIT\n",
    ),
];

// Small changes of it that are refused.
static REFUSED: [Change; 36] = [
    // a section has its rows, each once and in their order
    ("## iptables INPUT inet\n", ""),
    ("*filter\n", ""),
    ("*filter", "*mangle"),
    ("*filter", "* filter"),
    ("COMMIT\n", ""),
    ("COMMIT\n", "COMMIT"),
    ("COMMIT\n", "COMMIT\nCOMMIT\n"),
    ("COMMIT\n", "COMMIT\n# more\n"),
    ("COMMIT\n", "COMMIT\n-A INPUT -j I_web\n"),
    ("## iptables", "# aclgen\n## iptables"),
    (
        "COMMIT\n",
        "COMMIT\n## iptables INPUT inet\n*filter\n:INPUT DROP [0:0]\nCOMMIT\n",
    ),
    (
        "COMMIT\n",
        "## iptables OUTPUT inet\n:OUTPUT DROP [0:0]\nCOMMIT\n",
    ),
    // it says its hook's policy
    (":INPUT DROP [0:0]\n", ""),
    (":INPUT DROP", ":INPUT -"),
    (":INPUT DROP", ":INPUT REJECT"),
    (":INPUT DROP", ":OUTPUT DROP"),
    (":INPUT DROP [0:0]", "-P INPUT DROP"),
    (
        ":INPUT DROP [0:0]\n",
        ":INPUT DROP [0:0]\n:INPUT DROP [0:0]\n",
    ),
    // counters are nothing
    ("DROP [0:0]", "DROP [1:0]"),
    ("DROP [0:0]", "DROP"),
    ("- [0:0]", "- [0:1]"),
    ("- [0:0]", "-  [0:0]"),
    // each chain is declared, once and in order, before the rules
    (":I_rest - [0:0]\n", ""),
    (":I_rest - [0:0]\n", ":I_rest - [0:0]\n:I_rest - [0:0]\n"),
    (":I_rest - [0:0]\n", ":I_rest - [0:0]\n:I_more - [0:0]\n"),
    (
        ":I_web - [0:0]\n:I_rest - [0:0]\n",
        ":I_rest - [0:0]\n:I_web - [0:0]\n",
    ),
    (
        ":I_rest - [0:0]\n# web servers\n",
        "# web servers\n:I_rest - [0:0]\n",
    ),
    (":I_rest - [0:0]", ":I_rest DROP [0:0]"),
    (":I_rest - [0:0]", "-N I_rest"),
    (":I_rest", ": I_rest"),
    ("-A INPUT -j I_web\n", ""),
    // what is wrong among arguments of iptables
    ("I_rest", "O_rest"),
    ("I_rest", "I_web"),
    ("-p icmp", "-p 1"),
    ("-j ACCEPT", "-j  ACCEPT"),
    ("*filter\n", "*filter\r\n"),
];

static WALKS: [Walk; 5] = [
    // what is logged goes on, at last to the policy
    (DOCUMENT, 0, PING, Some(ACCEPTED)),
    (
        DOCUMENT,
        0,
        Packet {
            conn: Conn::Related,
            ..ACK
        },
        Some(Outcome {
            logged: true,
            ..DENIED
        }),
    ),
    (LOGGING, 0, PACKET, Some(LOGGED)),
    (DOCUMENT, 0, SOLICITATION, None),
    (DOCUMENT, 1, PACKET, None),
];

const LOGGING: &str = "## iptables INPUT inet
*filter
:INPUT ACCEPT [0:0]
:I_log - [0:0]
-A I_log -j LOG
-A INPUT -j I_log
COMMIT
";

#[test]
fn texts_are_read_refused_and_walked(rt: HostRuntime) {
    expect_changes::<Restore>(&rt, rt.alloc(), DOCUMENT, &READ, true);
    expect_changes::<Restore>(&rt, rt.alloc(), DOCUMENT, &REFUSED, false);
    expect_walks::<Restore>(&rt, rt.alloc(), &WALKS);
}

// One filter in both languages.
const RESTORED: &[u8] = b"## iptables INPUT inet
*filter
:INPUT DROP [0:0]
:I_web - [0:0]
# web
-A I_web -p tcp -d 192.0.2.10/32 --dport 80 -j ACCEPT
-A INPUT -j I_web
COMMIT
";

const ARGUMENTS: &[u8] = b"## iptables INPUT inet
-P INPUT DROP
# web
-N I_web
-A I_web -p tcp -d 192.0.2.10/32 --dport 80 -j ACCEPT
-A INPUT -j I_web
";

// Whether the document is one section, which has this text in the language.
fn is_text_in<L: Language<Section = Section>>(
    alloc: Global,
    doc: &Option<Doc>,
    text: &[u8],
) -> Result<bool, PutFault> {
    let mut out = Whole::new(alloc);
    if let Some(doc) = doc {
        if let [section] = doc.as_slice() {
            L::put_section(section, &mut out)?;
        }
    }
    Ok(out.as_slice() == text)
}

fn restored_is_put(alloc: Global) -> Option<bool> {
    let restored = read_restore(alloc, RESTORED).ok()?;
    is_text_in::<Iptables>(alloc, &restored, ARGUMENTS).ok()
}

fn is_not_restored(alloc: Global) -> Result<bool, Memory> {
    Ok(read_restore(alloc, ARGUMENTS)?.is_none())
}

#[test]
fn what_is_restored_is_put_as_arguments(rt: HostRuntime) {
    assert!(rt; restored_is_put(rt.alloc()) == Some(true));
    assert!(rt; is_not_restored(rt.alloc()) == Ok(true));
}

fn arguments_are_put(alloc: Global) -> Option<bool> {
    let arguments = read_document::<Iptables>(alloc, ARGUMENTS).ok()?;
    is_text_in::<Restore>(alloc, &arguments, RESTORED).ok()
}

fn are_no_arguments(alloc: Global) -> Result<bool, Memory> {
    Ok(read_document::<Iptables>(alloc, RESTORED)?.is_none())
}

#[test]
fn arguments_are_put_as_what_is_restored(rt: HostRuntime) {
    assert!(rt; arguments_are_put(rt.alloc()) == Some(true));
    assert!(rt; are_no_arguments(rt.alloc()) == Ok(true));
}
