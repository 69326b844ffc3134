use acl_packet::{Family, icmp_number, protocol_number};

static PROTOCOLS: [(&str, Option<u8>); 11] = [
    ("icmp", Some(1)),
    ("tcp", Some(6)),
    ("sctp", Some(132)),
    ("1", Some(1)),
    ("255", Some(255)),
    ("0", None),
    ("256", None),
    ("017", None),
    ("TCP", None),
    ("+6", None),
    ("", None),
];

#[test]
fn protocols_by_word_and_by_number(rt: HostRuntime) {
    for (word, number) in &PROTOCOLS {
        assert!(rt; protocol_number(word.as_bytes()) == *number, "{word}");
    }
}

static TYPES: [(Family, &str, Option<u8>); 9] = [
    (Family::V4, "unreachable", Some(3)),
    (Family::V6, "unreachable", None),
    (Family::V4, "echo-request", Some(8)),
    (Family::V6, "echo-request", Some(128)),
    (Family::V6, "redirect-message", Some(137)),
    (Family::V4, "0", Some(0)),
    (Family::V6, "254", Some(254)),
    (Family::V4, "255", None),
    (Family::V6, "00", None),
];

#[test]
fn types_are_those_of_the_family(rt: HostRuntime) {
    for (family, word, number) in &TYPES {
        assert!(rt; icmp_number(*family, word.as_bytes()) == *number, "{word}");
    }
}
