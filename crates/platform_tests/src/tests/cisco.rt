use crate::tests::languages::{
    ACCEPTED, ACK, Change, DENIED, LOGGED, PACKET, PACKET_OF_SIX, PING, SOLICITATION, SYN, Walk,
    expect_changes, expect_scans, expect_walks,
};
use acl_packet::{Outcome, Packet};
use cisco_lang::Cisco;

const DOCUMENT: &str = "! cisco edge mixed
no ip access-list extended edge
ip access-list extended edge
 remark web servers
 permit tcp any host 192.0.2.10 eq 80 established log
 deny udp 10.0.0.0 0.255.255.255 any range 5000 5010
 permit icmp any any 8
 permit icmp any any 3 4
 deny tcp any any match-all +syn -ack
 permit 47 any any
exit
no ipv6 access-list ipv6-edge
ipv6 access-list ipv6-edge
 permit icmp any host 2001:db8::10 128
 deny ipv6 2001:db8::/32 any log
exit
";

// Small changes of the document, each of which is read: what stands in it, and what in its place.
static READ: [Change; 12] = [
    (
        "edge",
        "aaaaaaaaaaaaaaaaaaaaaaaaaaaaaaaaaaaaaaaaaaaaaaaaaaaaaaaaaaaaaaaa",
    ),
    (" remark web servers\n", ""),
    (
        "web servers",
        "xxxxxxxxxxxxxxxxxxxxxxxxxxxxxxxxxxxxxxxxxxxxxxxxxxxxxxxxxxxxxxxxxxxxxxxxxxxxxxxxxxxxxxxxxxxxxxxxxxxxxxxxxxxxxxxxxxxxxxxxxxxxxxxx",
    ),
    ("host 192.0.2.10", "10.0.0.0 0.0.255.255"),
    ("range 5000 5010", "range 0 65535"),
    ("any any 8", "any any 254"),
    ("any any 8", "any any 8 0"),
    ("any any 3 4", "any any 3"),
    ("any any 3 4", "any any 254 255"),
    ("permit 47", "permit 58"),
    (" deny ipv6 2001:db8::/32 any log\n", ""),
    (
        "any log\nexit\n",
        "any log\nexit\n! cisco core inet6\nno ipv6 access-list core\nipv6 access-list core\nexit\n",
    ),
];

// Small changes of it that are refused.
static REFUSED: [Change; 46] = [
    // sections and lists
    ("! cisco edge mixed\n", ""),
    ("! cisco edge mixed", "! cisco edge both"),
    ("! cisco edge mixed", "! cisco edge extended"),
    ("edge", "1edge"),
    (
        "edge",
        "aaaaaaaaaaaaaaaaaaaaaaaaaaaaaaaaaaaaaaaaaaaaaaaaaaaaaaaaaaaaaaaaa",
    ),
    ("no ip access-list extended edge\n", ""),
    ("edge\n remark", "edges\n remark"),
    ("ipv6-edge", "ipv4-edge"),
    ("exit\nno ipv6", "no ipv6"),
    ("exit\nno ipv6", "exit\n\nno ipv6"),
    ("exit\nno ipv6", "exit\r\nno ipv6"),
    ("any log\nexit\n", "any log\nexit"),
    (
        "any log\nexit\n",
        "any log\nexit\n! cisco ipv6-edge extended\nno ip access-list extended ipv6-edge\nip access-list extended ipv6-edge\nexit\n",
    ),
    // remarks
    (" remark web", "remark web"),
    (" remark web", "  remark web"),
    ("web servers", "web  servers"),
    ("web servers", "web servers "),
    ("web servers", "web; servers"),
    (
        "web servers",
        "xxxxxxxxxxxxxxxxxxxxxxxxxxxxxxxxxxxxxxxxxxxxxxxxxxxxxxxxxxxxxxxxxxxxxxxxxxxxxxxxxxxxxxxxxxxxxxxxxxxxxxxxxxxxxxxxxxxxxxxxxxxxxxxxx",
    ),
    // words
    ("permit tcp", "allow tcp"),
    ("permit tcp", "permit  tcp"),
    ("permit tcp", "permit 6"),
    ("permit 47", "permit 0"),
    ("permit 47", "permit\t47"),
    ("established log", "log established"),
    (" deny ipv6", " deny ip"),
    // addresses
    ("any host", "0.0.0.0 255.255.255.255 host"),
    ("host 192.0.2.10", "192.0.2.10 0.0.0.0"),
    ("10.0.0.0 0.255.255.255", "10.0.0.1 0.255.255.255"),
    ("10.0.0.0 0.255.255.255", "10.0.0.0 0.255.255.254"),
    ("2001:db8::/32", "2001:DB8::/32"),
    ("2001:db8::/32", "2001:0db8::/32"),
    // ports, types, codes and flags
    ("eq 80", "eq 080"),
    ("eq 80", "range 80 80"),
    ("range 5000 5010", "range 5010 5000"),
    ("range 5000 5010", "range 5000 65536"),
    ("deny udp", "deny ip"),
    ("any any 8", "any any 255"),
    ("permit icmp any any 8", "permit udp any any 8"),
    ("any any 3 4", "any any 255 4"),
    ("any any 3 4", "any any 3 256"),
    ("any any 3 4", "any any 3 04"),
    ("any any 3 4", "any any 3 4 5"),
    ("match-all +syn -ack", "match-all +syn"),
    ("deny tcp any any match-all", "deny udp any any match-all"),
    (
        " permit icmp any host",
        " permit tcp any any match-all +syn -ack\n permit icmp any host",
    ),
];

const SIX: &str =
    "! cisco six inet6\nno ipv6 access-list six\nipv6 access-list six\n permit tcp any host 2001:db8::10\nexit\n";

const REMARKS: &str =
    "! cisco e extended\nno ip access-list extended e\nip access-list extended e\n remark old\nexit\n";

static WALKS: [Walk; 18] = [
    (DOCUMENT, 0, ACK, Some(LOGGED)),
    (DOCUMENT, 0, SYN, Some(DENIED)),
    (
        DOCUMENT,
        0,
        Packet {
            src: 0x0a00_0001,
            proto: 17,
            dport: 5010,
            ..PACKET
        },
        Some(DENIED),
    ),
    (DOCUMENT, 0, PING, Some(ACCEPTED)),
    (DOCUMENT, 0, Packet { icode: 1, ..PING }, Some(ACCEPTED)),
    (
        DOCUMENT,
        0,
        Packet {
            itype: 3,
            icode: 4,
            ..PING
        },
        Some(ACCEPTED),
    ),
    (
        DOCUMENT,
        0,
        Packet {
            itype: 3,
            icode: 3,
            ..PING
        },
        Some(DENIED),
    ),
    (
        DOCUMENT,
        0,
        Packet {
            proto: 47,
            ..PACKET
        },
        Some(ACCEPTED),
    ),
    (
        DOCUMENT,
        0,
        Packet {
            proto: 58,
            ..PACKET
        },
        Some(DENIED),
    ),
    // neighbours are looked for where no entry says otherwise
    (DOCUMENT, 0, SOLICITATION, Some(ACCEPTED)),
    (DOCUMENT, 0, PACKET_OF_SIX, Some(DENIED)),
    (
        DOCUMENT,
        0,
        Packet {
            src: 0x2001_0db8_0000_0000_0000_0000_0000_0001,
            ..SOLICITATION
        },
        Some(Outcome {
            logged: true,
            ..DENIED
        }),
    ),
    (DOCUMENT, 1, SOLICITATION, None),
    (SIX, 0, SOLICITATION, Some(ACCEPTED)),
    (
        SIX,
        0,
        Packet {
            icode: 1,
            ..SOLICITATION
        },
        Some(ACCEPTED),
    ),
    (
        SIX,
        0,
        Packet {
            itype: 137,
            ..SOLICITATION
        },
        Some(DENIED),
    ),
    (SIX, 0, PACKET, None),
    // remarks are no entries
    (REMARKS, 0, PACKET, Some(ACCEPTED)),
];

#[test]
fn texts_are_read_refused_and_walked(rt: HostRuntime) {
    expect_changes::<Cisco>(&rt, rt.alloc(), DOCUMENT, &READ, true);
    expect_changes::<Cisco>(&rt, rt.alloc(), DOCUMENT, &REFUSED, false);
    expect_walks::<Cisco>(&rt, rt.alloc(), &WALKS);
    expect_scans::<Cisco>(&rt, rt.alloc(), DOCUMENT, &READ, &REFUSED, &WALKS);
}
