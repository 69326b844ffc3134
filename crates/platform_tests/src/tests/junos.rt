use crate::tests::languages::{
    ACCEPTED, ACK, Change, DENIED, LOGGED, PACKET, PING, REJECTED, RESET, SOLICITATION, SYN, Walk,
    expect_changes, expect_scans, expect_walks,
};
use acl_packet::Packet;
use junos_lang::Junos;

const DOCUMENT: &str = "/* juniper edge inet */
firewall {
    family inet {
        replace: filter edge {
            /* Not ours. */
            term bogon {
                from {
                    source-address {
                        10.0.0.0/8;
                        172.16.0.0/12;
                    }
                }
                then {
                    discard;
                }
            }
            term web {
                from {
                    destination-address {
                        192.0.2.10/32;
                    }
                    protocol [ 6 ];
                    destination-port [ 80 8000-8080 ];
                    tcp-established;
                }
                then {
                    syslog;
                    accept;
                }
            }
            term dns {
                from {
                    protocol [ 6 17 ];
                    source-port [ 53 ];
                }
                then {
                    accept;
                }
            }
            term ping {
                from {
                    protocol [ 1 ];
                    icmp-type [ 8 0 ];
                }
                then {
                    reject;
                }
            }
            term unreachable {
                from {
                    protocol [ 1 ];
                    icmp-type [ 3 ];
                    icmp-code [ 4 13 ];
                }
                then {
                    accept;
                }
            }
            term reset {
                from {
                    protocol [ 6 ];
                    tcp-flags \"rst\";
                }
                then {
                    reject tcp-reset;
                }
            }
            term rest {
                then {
                    discard;
                }
            }
        }
    }
}
";

// Small changes of the document, each of which is read: what stands in it, and what in its place.
static READ: [Change; 11] = [
    (
        "edge",
        "aaaaaaaaaaaaaaaaaaaaaaaaaaaaaaaaaaaaaaaaaaaaaaaaaaaaaaaaaaaaaaaa",
    ),
    ("            /* Not ours. */\n", ""),
    (
        "Not ours.",
        "xxxxxxxxxxxxxxxxxxxxxxxxxxxxxxxxxxxxxxxxxxxxxxxxxxxxxxxxxxxxxxxxxxxxxxxxxxxxxxxxxxxxxxxxxxxxxxxxxxxxxxxxxxxxxxxxxxxxxxxxxxxxxxxx",
    ),
    ("10.0.0.0/8;", "10.0.0.0/9;"),
    ("protocol [ 6 17 ];", "protocol [ 17 6 17 ];"),
    ("icmp-type [ 8 0 ];", "icmp-type [ 254 ];"),
    ("icmp-code [ 4 13 ];", "icmp-code [ 255 0 ];"),
    ("                    icmp-code [ 4 13 ];\n", ""),
    ("tcp-established;", "tcp-initial;"),
    ("reject;", "syslog;\n                    reject;"),
    (
        "        }\n    }\n}\n",
        "        }\n    }\n}\n/* juniper edge inet6 */\nfirewall {\n    family inet6 {\n        replace: filter edge {\n            term rest {\n                then {\n                    discard;\n                }\n            }\n        }\n    }\n}\n",
    ),
];

// Small changes of it that are refused.
static REFUSED: [Change; 53] = [
    // sections
    ("/* juniper edge inet */\n", ""),
    ("/* juniper edge inet */", "/* juniper edge inet6 */"),
    ("/* juniper edge inet */", "/* juniper edge mixed */"),
    ("family inet {", "family inet6 {"),
    ("edge", "-edge"),
    (
        "edge",
        "aaaaaaaaaaaaaaaaaaaaaaaaaaaaaaaaaaaaaaaaaaaaaaaaaaaaaaaaaaaaaaaaa",
    ),
    ("filter edge {", "filter edges {"),
    ("replace: filter", "filter"),
    ("firewall {", "firewall  {"),
    ("        }\n    }\n}\n", "        }\n    }\n"),
    ("        }\n    }\n}\n", "        }\n    }\n}"),
    (
        "        }\n    }\n}\n",
        "        }\n    }\n}\n/* juniper edge inet */\nfirewall {\n    family inet {\n        replace: filter edge {\n            term rest {\n                then {\n                    discard;\n                }\n            }\n        }\n    }\n}\n",
    ),
    // notes and names of terms
    ("Not ours.", "Not  ours."),
    (" Not ours. ", " "),
    (" Not ours. ", " Not ours."),
    (
        "Not ours.",
        "xxxxxxxxxxxxxxxxxxxxxxxxxxxxxxxxxxxxxxxxxxxxxxxxxxxxxxxxxxxxxxxxxxxxxxxxxxxxxxxxxxxxxxxxxxxxxxxxxxxxxxxxxxxxxxxxxxxxxxxxxxxxxxxxx",
    ),
    (
        "Not ours. */",
        "Not ours. */ term x { then accept; } /* x */",
    ),
    ("            /* Not", "           /* Not"),
    ("ours. */\n", "ours. */\n            /* at all */\n"),
    ("term dns {", "term web {"),
    ("term dns {", "term d.ns {"),
    // addresses
    ("10.0.0.0/8;", "10.0.0.0/8"),
    ("10.0.0.0/8;", "10.0.0.0/08;"),
    ("10.0.0.0/8;", "10.0.0.1/8;"),
    ("10.0.0.0/8;", "0.0.0.0/0;"),
    ("10.0.0.0/8;", "2001:db8::/32;"),
    ("                        192.0.2.10/32;\n", ""),
    // numbers
    ("protocol [ 1 ];", "protocol [ 01 ];"),
    ("protocol [ 6 17 ];", "protocol [ 6  17 ];"),
    ("protocol [ 6 17 ];", "protocol [6 17];"),
    ("protocol [ 6 17 ];", "protocol [ 6 132 ];"),
    ("protocol [ 6 17 ];", "next-header [ 6 17 ];"),
    ("                    protocol [ 6 17 ];\n", ""),
    ("protocol [ 1 ];", "protocol [ 1 6 ];"),
    ("source-port [ 53 ];", "source-port [ ];"),
    ("8000-8080", "8080-8000"),
    ("8000-8080", "8000-8000"),
    ("icmp-type [ 8 0 ];", "icmp-type [ 255 ];"),
    ("                    icmp-type [ 3 ];\n", ""),
    ("icmp-type [ 3 ];", "icmp-type [ 3 5 ];"),
    ("icmp-code [ 4 13 ];", "icmp-code [ ];"),
    ("icmp-code [ 4 13 ];", "icmp-code [ 256 ];"),
    ("icmp-code [ 4 13 ];", "icmp-code [ 04 13 ];"),
    (
        "icmp-type [ 3 ];\n                    icmp-code [ 4 13 ];",
        "icmp-code [ 4 13 ];\n                    icmp-type [ 3 ];",
    ),
    // what holds, and what is done
    (
        "tcp-established;",
        "tcp-established;\n                    tcp-initial;",
    ),
    ("tcp-established;", "\ttcp-established;"),
    ("tcp-flags \"rst\";", "tcp-flags rst;"),
    (
        "term rest {\n",
        "term rest {\n                from {\n                }\n",
    ),
    (
        "syslog;\n                    accept;",
        "accept;\n                    syslog;",
    ),
    ("reject;", "reject tcp-reset;"),
    ("reject;", "next term;"),
    ("reject;", "reject; "),
    ("reject;", "reject;\r"),
];

const SIX: &str = "/* juniper six inet6 */
firewall {
    family inet6 {
        replace: filter six {
            term ping {
                from {
                    source-address {
                        2001:db8::/32;
                    }
                    destination-address {
                        2001:db8::10/128;
                    }
                    next-header [ 58 ];
                    icmp-type [ 128 129 ];
                }
                then {
                    accept;
                }
            }
        }
    }
}
";

static WALKS: [Walk; 16] = [
    (
        DOCUMENT,
        0,
        Packet {
            src: 0x0a01_0203,
            ..ACK
        },
        Some(DENIED),
    ),
    (DOCUMENT, 0, ACK, Some(LOGGED)),
    (
        DOCUMENT,
        0,
        Packet {
            dport: 8080,
            flags: 4,
            ..PACKET
        },
        Some(LOGGED),
    ),
    (
        DOCUMENT,
        0,
        Packet {
            dport: 8081,
            flags: 4,
            ..PACKET
        },
        Some(RESET),
    ),
    (DOCUMENT, 0, Packet { dport: 8081, ..ACK }, Some(DENIED)),
    (DOCUMENT, 0, Packet { dport: 80, ..SYN }, Some(DENIED)),
    (
        DOCUMENT,
        0,
        Packet {
            proto: 17,
            sport: 53,
            ..PACKET
        },
        Some(ACCEPTED),
    ),
    (DOCUMENT, 0, PING, Some(REJECTED)),
    (DOCUMENT, 0, Packet { icode: 7, ..PING }, Some(REJECTED)),
    (DOCUMENT, 0, Packet { itype: 3, ..PING }, Some(DENIED)),
    (
        DOCUMENT,
        0,
        Packet {
            itype: 3,
            icode: 4,
            ..PING
        },
        Some(ACCEPTED),
    ),
    (
        DOCUMENT,
        0,
        Packet {
            itype: 3,
            icode: 5,
            ..PING
        },
        Some(DENIED),
    ),
    (DOCUMENT, 1, PACKET, None),
    (DOCUMENT, 0, SOLICITATION, None),
    (SIX, 0, SOLICITATION, Some(DENIED)),
    (
        SIX,
        0,
        Packet {
            src: 0x2001_0db8_0000_0000_0000_0000_0000_0001,
            dst: 0x2001_0db8_0000_0000_0000_0000_0000_0010,
            itype: 129,
            ..SOLICITATION
        },
        Some(ACCEPTED),
    ),
];

#[test]
fn texts_are_read_refused_and_walked(rt: HostRuntime) {
    expect_changes::<Junos>(&rt, rt.alloc(), DOCUMENT, &READ, true);
    expect_changes::<Junos>(&rt, rt.alloc(), DOCUMENT, &REFUSED, false);
    expect_walks::<Junos>(&rt, rt.alloc(), &WALKS);
    expect_scans::<Junos>(&rt, rt.alloc(), DOCUMENT, &READ, &REFUSED, &WALKS);
}
