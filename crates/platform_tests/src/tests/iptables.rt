use crate::tests::languages::{
    ACCEPTED, ACK, Change, DENIED, LOGGED, PACKET, PACKET_OF_SIX, PING, REJECTED, RESET,
    SOLICITATION, SYN, Walk, expect_changes, expect_scans, expect_walks,
};
use acl_packet::{Conn, Outcome, Packet, Verdict};
use ipt_lang::Iptables;

const DOCUMENT: &str = "## iptables INPUT inet
-P INPUT DROP
# web servers
-N I_web
-A I_web -p tcp -d 192.0.2.10/32 -m multiport --dports 80,443,8000:8089 -m state --state ESTABLISHED,RELATED -j LOG
-A I_web -p udp -s 10.0.0.0/8 -d 192.0.2.10/32 --sport 1024:65535 --dport 53 -j ACCEPT
-A I_web -p icmp --icmp-type 8 -j REJECT
-A I_web -p tcp --tcp-flags SYN,ACK SYN -j REJECT --reject-with tcp-reset
-A INPUT -j I_web
-N I_rest
-A I_rest -p 47 -j DROP
-A INPUT -j I_rest
";

// Small changes of the document, each of which is read: what stands in it, and what in its place.
static READ: [Change; 12] = [
    ("-P INPUT DROP\n", ""),
    ("# web servers\n", ""),
    ("# web servers", "# not ours\n# at all"),
    (
        "web servers",
        "xxxxxxxxxxxxxxxxxxxxxxxxxxxxxxxxxxxxxxxxxxxxxxxxxxxxxxxxxxxxxxxxxxxxxxxxxxxxxxxxxxxxxxxxxxxxxxxxxxxxxxxxxxxxxxxxxxxxxxxxxxxxxxxx",
    ),
    ("I_rest", "I_aaaaaaaaaaaaaaaaaaaaaaaa"),
    ("80,443,8000:8089", "1,2,3,4,5,6,7,8,9,10,11,12,13,14,15"),
    (
        "--dports 80,443,8000:8089",
        "--sports 53 -m multiport --dports 53,67:68",
    ),
    ("-p 47", "-p 58"),
    ("--icmp-type 8", "--icmp-type 8/0"),
    ("--icmp-type 8", "--icmp-type 254/255"),
    ("-A I_rest -p 47 -j DROP\n", ""),
    (
        "-A INPUT -j I_rest\n",
        "-A INPUT -j I_rest\n## iptables INPUT inet6\n-P INPUT ACCEPT\n",
    ),
];

// Small changes of it that are refused.
static REFUSED: [Change; 60] = [
    // a name again, behind another
    (
        "-A INPUT -j I_rest\n",
        "-A INPUT -j I_rest\n-N I_web\n-A INPUT -j I_web\n",
    ),
    // sections and chains
    ("## iptables INPUT inet\n", ""),
    ("INPUT inet", "INPUT mixed"),
    ("## iptables INPUT", "## iptables OUTPUT"),
    ("-P INPUT DROP", "-P INPUT REJECT"),
    ("-P INPUT DROP", "-P OUTPUT DROP"),
    ("-P INPUT DROP", "-P INPUT DROP\n-P INPUT DROP"),
    (
        "-A INPUT -j I_rest\n",
        "-A INPUT -j I_rest\n-P INPUT DROP\n",
    ),
    (
        "-A INPUT -j I_rest\n",
        "-A INPUT -j I_rest\n## iptables INPUT inet\n",
    ),
    ("-A INPUT -j I_rest\n", "-A INPUT -j I_rest"),
    ("-N I_rest\n", ""),
    ("-A INPUT -j I_web\n", ""),
    ("-A I_rest -p", "-A I_web -p"),
    ("I_rest", "O_rest"),
    ("I_rest", "I_web"),
    ("I_rest", "I_"),
    ("I_rest", "I_aaaaaaaaaaaaaaaaaaaaaaaaa"),
    // remarks
    ("# web servers", "#  web servers"),
    ("# web servers", " # web servers"),
    ("# web servers", "# web servers "),
    (
        "web servers",
        "xxxxxxxxxxxxxxxxxxxxxxxxxxxxxxxxxxxxxxxxxxxxxxxxxxxxxxxxxxxxxxxxxxxxxxxxxxxxxxxxxxxxxxxxxxxxxxxxxxxxxxxxxxxxxxxxxxxxxxxxxxxxxxxxx",
    ),
    // protocols and addresses
    ("-p 47", "-p 6"),
    ("-p 47", "-p 0"),
    ("-p 47", "-p 047"),
    ("-p 47", "-p gre"),
    ("-p icmp", "-p 1"),
    ("-s 10.0.0.0/8", "-s 10.0.0.0"),
    ("-s 10.0.0.0/8", "-s 10.0.0.1/8"),
    ("-s 10.0.0.0/8", "-s 0.0.0.0/0"),
    ("-s 10.0.0.0/8", "-s 2001:db8::/32"),
    (
        "-s 10.0.0.0/8 -d 192.0.2.10/32",
        "-d 192.0.2.10/32 -s 10.0.0.0/8",
    ),
    // ports
    ("-p udp -s", "-s"),
    ("-p udp", "-p 47"),
    ("80,443,8000:8089", "80"),
    ("80,443,8000:8089", "80, 443"),
    ("80,443,8000:8089", "1,2,3,4,5,6,7,8,9,10,11,12,13,14,15,16"),
    ("80,443,8000:8089", "1,2,3,4,5,6,7,8,9,10,11,12,13,14,20:30"),
    ("--dport 53", "--dport 53,67"),
    ("--dport 53", "--dport 053"),
    ("--dport 53", "-m multiport --dports 53,67"),
    ("1024:65535", "65535:1024"),
    ("1024:65535", "1024:1024"),
    // types and codes, flags, state and acts
    ("--icmp-type 8", "--icmp-type 255"),
    ("--icmp-type 8", "--icmp-type 255/0"),
    ("--icmp-type 8", "--icmp-type /0"),
    ("--icmp-type 8", "--icmp-type 8/"),
    ("--icmp-type 8", "--icmp-type 8/256"),
    ("--icmp-type 8", "--icmp-type 8/00"),
    ("--icmp-type 8", "--icmp-type 8/0/0"),
    ("-p icmp --icmp-type 8", "-p 47 --icmp-type 8/0"),
    ("--icmp-type 8", "--icmpv6-type 8"),
    ("SYN,ACK SYN", "FIN FIN"),
    ("-p tcp --tcp-flags", "-p udp --tcp-flags"),
    ("ESTABLISHED,RELATED", "ESTABLISHED"),
    ("-j LOG", "-j LOG --reject-with tcp-reset"),
    (
        "--reject-with tcp-reset",
        "--reject-with icmp-port-unreachable",
    ),
    ("-j ACCEPT", "-j RETURN"),
    ("-j ACCEPT", "-j  ACCEPT"),
    ("-j ACCEPT", "-j ACCEPT\r"),
    ("-p 47 -j", "-p 47\t-j"),
];

const MANY: &str = "## iptables FORWARD inet6
# log all
-N F_log
-A F_log -j LOG
-A FORWARD -j F_log
-N F_m
-A F_m -p tcp -m multiport --dports 1,3,5,7,9,11,13,15,17,19,21,23,25,27 -j ACCEPT
-A F_m -p tcp -s 2001:db8::/32 --sport 1024:65535 --tcp-flags SYN,ACK SYN -j REJECT --reject-with tcp-reset
-A F_m -p icmpv6 --icmpv6-type 135 -m state --state ESTABLISHED,RELATED -j REJECT
-A FORWARD -j F_m
";

const CODES: &str = "## iptables INPUT inet
-P INPUT DROP
-N I_u
-A I_u -p icmp --icmp-type 3/3 -j ACCEPT
-A I_u -p icmp --icmp-type 3/4 -j LOG
-A I_u -p icmp --icmp-type 3/4 -j ACCEPT
-A I_u -p icmp --icmp-type 11 -j REJECT
-A INPUT -j I_u
## iptables INPUT inet6
-N I_six
-A I_six -p icmpv6 --icmpv6-type 1/4 -j REJECT
-A INPUT -j I_six
";

static WALKS: [Walk; 19] = [
    // what is logged goes on
    (
        DOCUMENT,
        0,
        Packet {
            conn: Conn::Related,
            ..ACK
        },
        Some(Outcome {
            logged: true,
            ..DENIED
        }),
    ),
    (DOCUMENT, 0, Packet { dport: 8089, ..ACK }, Some(DENIED)),
    (DOCUMENT, 0, SYN, Some(RESET)),
    (
        DOCUMENT,
        0,
        Packet {
            src: 0x0a00_0001,
            proto: 17,
            sport: 1024,
            dport: 53,
            ..PACKET
        },
        Some(ACCEPTED),
    ),
    (DOCUMENT, 0, PING, Some(REJECTED)),
    (
        DOCUMENT,
        0,
        Packet {
            proto: 47,
            ..PACKET
        },
        Some(DENIED),
    ),
    (DOCUMENT, 0, SOLICITATION, None),
    (DOCUMENT, 1, PACKET, None),
    // without a policy a packet goes on
    (
        MANY,
        0,
        Packet {
            dport: 7,
            ..PACKET_OF_SIX
        },
        Some(LOGGED),
    ),
    (
        MANY,
        0,
        Packet {
            src: 0x2001_0db8_0000_0000_0000_0000_0000_0001,
            sport: 1024,
            flags: 2,
            ..PACKET_OF_SIX
        },
        Some(Outcome {
            logged: true,
            ..RESET
        }),
    ),
    (
        MANY,
        0,
        Packet {
            conn: Conn::Related,
            ..SOLICITATION
        },
        Some(Outcome {
            logged: true,
            ..REJECTED
        }),
    ),
    (
        MANY,
        0,
        SOLICITATION,
        Some(Outcome {
            verdict: Verdict::Left,
            ..LOGGED
        }),
    ),
    // a code is one of its type, and a type alone is all of its codes
    (
        CODES,
        0,
        Packet {
            icode: 3,
            ..UNREACHABLE
        },
        Some(ACCEPTED),
    ),
    (
        CODES,
        0,
        Packet {
            icode: 4,
            ..UNREACHABLE
        },
        Some(LOGGED),
    ),
    (CODES, 0, UNREACHABLE, Some(DENIED)),
    (
        CODES,
        0,
        Packet {
            itype: 11,
            icode: 1,
            ..PING
        },
        Some(REJECTED),
    ),
    (CODES, 0, Packet { icode: 3, ..PING }, Some(DENIED)),
    (
        CODES,
        1,
        Packet {
            itype: 1,
            icode: 4,
            ..SOLICITATION
        },
        Some(REJECTED),
    ),
    (
        CODES,
        1,
        Packet {
            itype: 1,
            ..SOLICITATION
        },
        Some(Outcome {
            verdict: Verdict::Left,
            ..ACCEPTED
        }),
    ),
];

// What a packet was sent to is not reached.
const UNREACHABLE: Packet = Packet { itype: 3, ..PING };

#[test]
fn texts_are_read_refused_and_walked(rt: HostRuntime) {
    expect_changes::<Iptables>(&rt, rt.alloc(), DOCUMENT, &READ, true);
    expect_changes::<Iptables>(&rt, rt.alloc(), DOCUMENT, &REFUSED, false);
    expect_walks::<Iptables>(&rt, rt.alloc(), &WALKS);
    expect_scans::<Iptables>(&rt, rt.alloc(), DOCUMENT, &READ, &REFUSED, &WALKS);
}
