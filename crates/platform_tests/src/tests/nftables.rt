use crate::tests::languages::{
    ACCEPTED, ACK, Change, DENIED, PACKET, PACKET_OF_SIX, PING, REJECTED, RESET, SOLICITATION, SYN,
    Walk, expect_changes, expect_scans, expect_walks,
};
use acl_packet::{Conn, Outcome, Packet};
use nft_lang::Nftables;

const DOCUMENT: &str = "## nftables forward mixed
add table inet aclgen_2
delete table inet aclgen_2
table inet aclgen_2 {
    chain forward {
        type filter hook forward priority -5; policy accept;
        # web servers
        meta nfproto ipv4 meta l4proto 6 ip saddr { 192.0.2.0/24, 10.0.0.0/8 } tcp sport { 22, 1024-65535 } tcp flags & (syn | ack) == syn log reject with tcp reset
        meta nfproto ipv6 meta l4proto 58 icmpv6 type { 136, 135 } ct state { established, related } drop
        meta nfproto ipv4 meta l4proto 1 icmp type { 3 } icmp code { 3, 4 } reject
        meta nfproto ipv4 meta l4proto 132 sctp dport { 0-65535 } reject
        meta nfproto ipv4 meta l4proto 17 udp dport { 53, 67-68 } accept
        meta nfproto ipv6 ip6 daddr { 2001:db8::/32 } drop
    }
}
";

// Small changes of the document, each of which is read: what stands in it, and what in its place.
static READ: [Change; 14] = [
    ("        # web servers\n", ""),
    (
        "web servers",
        "xxxxxxxxxxxxxxxxxxxxxxxxxxxxxxxxxxxxxxxxxxxxxxxxxxxxxxxxxxxxxxxxxxxxxxxxxxxxxxxxxxxxxxxxxxxxxxxxxxxxxxxxxxxxxxxxxxxxxxxxxxxxxxxx",
    ),
    ("aclgen_2", "aclgen_4294967295"),
    ("priority -5", "priority -2147483648"),
    ("policy accept", "policy drop"),
    ("22, 1024-65535", "1024-65535, 22"),
    // sets in any order
    (
        "192.0.2.0/24, 10.0.0.0/8",
        "10.2.0.0/16, 192.0.2.0/24, 10.0.0.0/16",
    ),
    ("53, 67-68", "90, 60-70, 53"),
    ("136, 135", "8, 3, 0"),
    ("code { 3, 4 }", "code { 4, 0, 255 }"),
    (" icmp code { 3, 4 }", ""),
    ("67-68 } accept", "67-68 } log accept"),
    (" ip6 daddr { 2001:db8::/32 } drop", " drop"),
    (
        "    }\n}\n",
        "    }\n}\n## nftables input inet\nadd table ip aclgen_3\ndelete table ip aclgen_3\ntable ip aclgen_3 {\n    chain input {\n        type filter hook input priority 0; policy drop;\n    }\n}\n",
    ),
];

// Small changes of it that are refused.
static REFUSED: [Change; 58] = [
    // sets whose elements meet, far apart in the text
    (
        "192.0.2.0/24, 10.0.0.0/8",
        "10.2.0.0/16, 192.0.2.0/24, 10.0.0.0/8",
    ),
    ("53, 67-68", "60-70, 90, 65"),
    ("136, 135", "8, 0, 8"),
    // sections
    ("## nftables forward mixed\n", ""),
    ("## nftables", "# nftables"),
    ("nftables forward", "nftables input"),
    ("forward mixed", "forward inet"),
    ("add table inet aclgen_2\n", ""),
    ("add table inet aclgen_2", "add table inet aclgen_3"),
    ("aclgen_2 {", "aclgen_2{"),
    ("aclgen_2", "aclgen_02"),
    ("aclgen_2", "aclgen_4294967296"),
    ("priority -5", "priority -0"),
    ("priority -5", "priority +5"),
    ("priority -5", "priority 2147483648"),
    ("policy accept;", "policy accept"),
    ("policy accept", "policy reject"),
    ("    }\n}\n", "    }\n"),
    ("    }\n}\n", "    }\n}"),
    (
        "    }\n}\n",
        "    }\n}\n## nftables input inet\nadd table ip aclgen_2\ndelete table ip aclgen_2\ntable ip aclgen_2 {\n    chain input {\n        type filter hook input priority 0; policy drop;\n    }\n}\n",
    ),
    // remarks
    ("web servers", "web  servers"),
    ("web servers", "web servers "),
    (
        "web servers",
        "xxxxxxxxxxxxxxxxxxxxxxxxxxxxxxxxxxxxxxxxxxxxxxxxxxxxxxxxxxxxxxxxxxxxxxxxxxxxxxxxxxxxxxxxxxxxxxxxxxxxxxxxxxxxxxxxxxxxxxxxxxxxxxxxx",
    ),
    ("        # web", "       # web"),
    ("        # web", "\t# web"),
    // families and protocols
    ("meta nfproto ipv4 meta l4proto 17", "meta l4proto 17"),
    (
        "meta nfproto ipv4 meta l4proto 17",
        "meta l4proto 17 meta nfproto ipv4",
    ),
    ("meta l4proto 17 udp", "udp"),
    ("l4proto 17", "l4proto 017"),
    ("17 udp", "17 tcp"),
    ("58 icmpv6", "1 icmp"),
    ("ip6 daddr { 2001:db8::/32 }", "ip daddr { 10.0.0.0/8 }"),
    // sets
    ("192.0.2.0/24, 10.0.0.0/8", "10.0.0.0/8, 10.1.0.0/16"),
    ("192.0.2.0/24, 10.0.0.0/8", "0.0.0.0/0"),
    ("192.0.2.0/24, 10.0.0.0/8", "192.0.2.1/24"),
    ("{ 2001:db8::/32 }", "{ }"),
    ("22, 1024-65535", "22,1024-65535"),
    ("{ 53, 67-68 }", "53"),
    ("{ 53, 67-68 }", "{53, 67-68}"),
    ("53, 67-68", "053, 67-68"),
    ("67-68", "68-67"),
    ("67-68", "67-67"),
    ("53, 67-68", "67, 60-70"),
    ("136, 135", "136, 136"),
    ("136, 135", "255"),
    // codes of other than one type
    ("type { 3 } icmp code", "code"),
    ("type { 3 }", "type { 3, 11 }"),
    (
        "type { 3 } icmp code { 3, 4 }",
        "code { 3, 4 } icmp type { 3 }",
    ),
    ("icmp code", "icmpv6 code"),
    ("{ 3, 4 }", "{ 3, 256 }"),
    ("{ 3, 4 }", "{ 3, 3 }"),
    ("{ 3, 4 }", "{ 3-4 }"),
    // flags, state and what is done
    ("(syn | ack)", "(syn|ack)"),
    ("{ established, related }", "{ established }"),
    ("log reject with tcp reset", "reject with tcp reset log"),
    ("{ 0-65535 } reject", "{ 0-65535 } reject with tcp reset"),
    ("67-68 } accept", "67-68 }"),
    ("67-68 } accept", "67-68 } accept\r"),
];

const WEB: &str = "## nftables input inet
add table ip aclgen_7
delete table ip aclgen_7
table ip aclgen_7 {
    chain input {
        type filter hook input priority 0; policy drop;
        # web
        meta l4proto 6 ip daddr { 192.0.2.10/32 } tcp dport { 80 } accept
    }
}
";

// All addresses but the last, whose prefixes were printed by Python's `ipaddress`.
const ALL_BUT_ONE: &str = "## nftables input inet6
add table ip6 aclgen_1
delete table ip6 aclgen_1
table ip6 aclgen_1 {
    chain input {
        type filter hook input priority 0; policy drop;
        ip6 saddr { ::/1, 8000::/2, c000::/3, e000::/4, f000::/5, f800::/6, fc00::/7, fe00::/8, ff00::/9, ff80::/10, ffc0::/11, ffe0::/12, fff0::/13, fff8::/14, fffc::/15, fffe::/16, ffff::/17, ffff:8000::/18, ffff:c000::/19, ffff:e000::/20, ffff:f000::/21, ffff:f800::/22, ffff:fc00::/23, ffff:fe00::/24, ffff:ff00::/25, ffff:ff80::/26, ffff:ffc0::/27, ffff:ffe0::/28, ffff:fff0::/29, ffff:fff8::/30, ffff:fffc::/31, ffff:fffe::/32, ffff:ffff::/33, ffff:ffff:8000::/34, ffff:ffff:c000::/35, ffff:ffff:e000::/36, ffff:ffff:f000::/37, ffff:ffff:f800::/38, ffff:ffff:fc00::/39, ffff:ffff:fe00::/40, ffff:ffff:ff00::/41, ffff:ffff:ff80::/42, ffff:ffff:ffc0::/43, ffff:ffff:ffe0::/44, ffff:ffff:fff0::/45, ffff:ffff:fff8::/46, ffff:ffff:fffc::/47, ffff:ffff:fffe::/48, ffff:ffff:ffff::/49, ffff:ffff:ffff:8000::/50, ffff:ffff:ffff:c000::/51, ffff:ffff:ffff:e000::/52, ffff:ffff:ffff:f000::/53, ffff:ffff:ffff:f800::/54, ffff:ffff:ffff:fc00::/55, ffff:ffff:ffff:fe00::/56, ffff:ffff:ffff:ff00::/57, ffff:ffff:ffff:ff80::/58, ffff:ffff:ffff:ffc0::/59, ffff:ffff:ffff:ffe0::/60, ffff:ffff:ffff:fff0::/61, ffff:ffff:ffff:fff8::/62, ffff:ffff:ffff:fffc::/63, ffff:ffff:ffff:fffe::/64, ffff:ffff:ffff:ffff::/65, ffff:ffff:ffff:ffff:8000::/66, ffff:ffff:ffff:ffff:c000::/67, ffff:ffff:ffff:ffff:e000::/68, ffff:ffff:ffff:ffff:f000::/69, ffff:ffff:ffff:ffff:f800::/70, ffff:ffff:ffff:ffff:fc00::/71, ffff:ffff:ffff:ffff:fe00::/72, ffff:ffff:ffff:ffff:ff00::/73, ffff:ffff:ffff:ffff:ff80::/74, ffff:ffff:ffff:ffff:ffc0::/75, ffff:ffff:ffff:ffff:ffe0::/76, ffff:ffff:ffff:ffff:fff0::/77, ffff:ffff:ffff:ffff:fff8::/78, ffff:ffff:ffff:ffff:fffc::/79, ffff:ffff:ffff:ffff:fffe::/80, ffff:ffff:ffff:ffff:ffff::/81, ffff:ffff:ffff:ffff:ffff:8000::/82, ffff:ffff:ffff:ffff:ffff:c000::/83, ffff:ffff:ffff:ffff:ffff:e000::/84, ffff:ffff:ffff:ffff:ffff:f000::/85, ffff:ffff:ffff:ffff:ffff:f800::/86, ffff:ffff:ffff:ffff:ffff:fc00::/87, ffff:ffff:ffff:ffff:ffff:fe00::/88, ffff:ffff:ffff:ffff:ffff:ff00::/89, ffff:ffff:ffff:ffff:ffff:ff80::/90, ffff:ffff:ffff:ffff:ffff:ffc0::/91, ffff:ffff:ffff:ffff:ffff:ffe0::/92, ffff:ffff:ffff:ffff:ffff:fff0::/93, ffff:ffff:ffff:ffff:ffff:fff8::/94, ffff:ffff:ffff:ffff:ffff:fffc::/95, ffff:ffff:ffff:ffff:ffff:fffe::/96, ffff:ffff:ffff:ffff:ffff:ffff::/97, ffff:ffff:ffff:ffff:ffff:ffff:8000:0/98, ffff:ffff:ffff:ffff:ffff:ffff:c000:0/99, ffff:ffff:ffff:ffff:ffff:ffff:e000:0/100, ffff:ffff:ffff:ffff:ffff:ffff:f000:0/101, ffff:ffff:ffff:ffff:ffff:ffff:f800:0/102, ffff:ffff:ffff:ffff:ffff:ffff:fc00:0/103, ffff:ffff:ffff:ffff:ffff:ffff:fe00:0/104, ffff:ffff:ffff:ffff:ffff:ffff:ff00:0/105, ffff:ffff:ffff:ffff:ffff:ffff:ff80:0/106, ffff:ffff:ffff:ffff:ffff:ffff:ffc0:0/107, ffff:ffff:ffff:ffff:ffff:ffff:ffe0:0/108, ffff:ffff:ffff:ffff:ffff:ffff:fff0:0/109, ffff:ffff:ffff:ffff:ffff:ffff:fff8:0/110, ffff:ffff:ffff:ffff:ffff:ffff:fffc:0/111, ffff:ffff:ffff:ffff:ffff:ffff:fffe:0/112, ffff:ffff:ffff:ffff:ffff:ffff:ffff:0/113, ffff:ffff:ffff:ffff:ffff:ffff:ffff:8000/114, ffff:ffff:ffff:ffff:ffff:ffff:ffff:c000/115, ffff:ffff:ffff:ffff:ffff:ffff:ffff:e000/116, ffff:ffff:ffff:ffff:ffff:ffff:ffff:f000/117, ffff:ffff:ffff:ffff:ffff:ffff:ffff:f800/118, ffff:ffff:ffff:ffff:ffff:ffff:ffff:fc00/119, ffff:ffff:ffff:ffff:ffff:ffff:ffff:fe00/120, ffff:ffff:ffff:ffff:ffff:ffff:ffff:ff00/121, ffff:ffff:ffff:ffff:ffff:ffff:ffff:ff80/122, ffff:ffff:ffff:ffff:ffff:ffff:ffff:ffc0/123, ffff:ffff:ffff:ffff:ffff:ffff:ffff:ffe0/124, ffff:ffff:ffff:ffff:ffff:ffff:ffff:fff0/125, ffff:ffff:ffff:ffff:ffff:ffff:ffff:fff8/126, ffff:ffff:ffff:ffff:ffff:ffff:ffff:fffc/127, ffff:ffff:ffff:ffff:ffff:ffff:ffff:fffe/128 } accept
    }
}
";

// A destination is unreachable, since the packet was too great.
const FRAGMENTATION_NEEDED: Packet = Packet {
    itype: 3,
    icode: 4,
    ..PING
};

static WALKS: [Walk; 17] = [
    (
        DOCUMENT,
        0,
        Packet { sport: 22, ..SYN },
        Some(Outcome {
            logged: true,
            ..RESET
        }),
    ),
    (DOCUMENT, 0, Packet { sport: 1023, ..SYN }, Some(ACCEPTED)),
    (DOCUMENT, 0, Packet { sport: 22, ..ACK }, Some(ACCEPTED)),
    (
        DOCUMENT,
        0,
        Packet {
            conn: Conn::Related,
            ..SOLICITATION
        },
        Some(DENIED),
    ),
    (DOCUMENT, 0, SOLICITATION, Some(ACCEPTED)),
    (DOCUMENT, 0, FRAGMENTATION_NEEDED, Some(REJECTED)),
    (
        DOCUMENT,
        0,
        Packet {
            icode: 1,
            ..FRAGMENTATION_NEEDED
        },
        Some(ACCEPTED),
    ),
    (
        DOCUMENT,
        0,
        Packet {
            itype: 11,
            ..FRAGMENTATION_NEEDED
        },
        Some(ACCEPTED),
    ),
    (
        DOCUMENT,
        0,
        Packet {
            proto: 132,
            ..PACKET
        },
        Some(REJECTED),
    ),
    (
        DOCUMENT,
        0,
        Packet {
            proto: 132,
            ..PACKET_OF_SIX
        },
        Some(ACCEPTED),
    ),
    (
        DOCUMENT,
        0,
        Packet {
            dst: 0x2001_0db8_0000_0000_0000_0000_0000_0010,
            ..SOLICITATION
        },
        Some(DENIED),
    ),
    (DOCUMENT, 1, PACKET, None),
    (WEB, 0, ACK, Some(ACCEPTED)),
    (WEB, 0, PING, Some(DENIED)),
    (WEB, 0, SOLICITATION, None),
    (
        ALL_BUT_ONE,
        0,
        Packet {
            src: 0,
            ..PACKET_OF_SIX
        },
        Some(ACCEPTED),
    ),
    (
        ALL_BUT_ONE,
        0,
        Packet {
            src: u128::MAX,
            ..PACKET_OF_SIX
        },
        Some(DENIED),
    ),
];

#[test]
fn texts_are_read_refused_and_walked(rt: HostRuntime) {
    expect_changes::<Nftables>(&rt, rt.alloc(), DOCUMENT, &READ, true);
    expect_changes::<Nftables>(&rt, rt.alloc(), DOCUMENT, &REFUSED, false);
    expect_walks::<Nftables>(&rt, rt.alloc(), &WALKS);
    expect_scans::<Nftables>(&rt, rt.alloc(), DOCUMENT, &READ, &REFUSED, &WALKS);
}
