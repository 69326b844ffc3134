use crate::tests::languages::{
    ACCEPTED, Change, DENIED, PACKET, PACKET_OF_SIX, Walk, expect_changes, expect_walks,
};
use acl_packet::{Outcome, Packet, is_packet};
use acl_text::Memory;
use std::alloc::Global;
use std_lang::{Standard, outcome, read};

const DOCUMENT: &str = "! cisco standard 10
no access-list 10
access-list 10 remark web servers
access-list 10 permit host 192.0.2.10 log
access-list 10 deny 10.0.0.0 0.255.255.255
access-list 10 deny 192.0.2.0 0.0.0.255 log
access-list 10 permit any
";

// Small changes of the document, each of which is read: what stands in it, and what in its place.
static READ: [Change; 10] = [
    (" 10", " 1"),
    (" 10", " 99"),
    ("access-list 10 remark web servers\n", ""),
    ("web servers", "permit any"),
    (
        "web servers",
        "xxxxxxxxxxxxxxxxxxxxxxxxxxxxxxxxxxxxxxxxxxxxxxxxxxxxxxxxxxxxxxxxxxxxxxxxxxxxxxxxxxxxxxxxxxxxxxxxxxxxxxxxxxxxxxxxxxxxxxxxxxxxxxxx",
    ),
    (
        "web servers\n",
        "web servers\naccess-list 10 remark web servers\n",
    ),
    ("10.0.0.0 0.255.255.255", "10.0.0.0 0.0.0.1"),
    ("10.0.0.0 0.255.255.255", "0.0.0.0 127.255.255.255"),
    ("permit any\n", "permit any log\naccess-list 10 deny any\n"),
    (
        "permit any\n",
        "permit any\n! cisco standard 11\nno access-list 11\n! cisco standard 9\nno access-list 9\n",
    ),
];

// Small changes of it that are refused.
static REFUSED: [Change; 40] = [
    // a section has its rows, each once and in their order
    ("! cisco standard 10\n", ""),
    (
        "! cisco standard 10\n",
        "! cisco standard 10\n! cisco standard 10\n",
    ),
    ("no access-list 10\n", ""),
    (
        "no access-list 10\n",
        "no access-list 10\nno access-list 10\n",
    ),
    ("permit any\n", "permit any\nno access-list 10\n"),
    ("permit any\n", "permit any"),
    ("permit any\n", "permit any\n\n"),
    ("permit any\n", "permit any\r\n"),
    ("permit any\n", "permit any\nexit\n"),
    ("! cisco", "# cisco"),
    ("! cisco", "!cisco"),
    ("cisco standard", "cisco extended"),
    ("standard 10", "standard 10 extended"),
    ("no access-list", "no ip access-list"),
    // a number is 1 to 99, is the same in each row, and is that of one list
    (" 10", " 0"),
    (" 10", " 100"),
    (" 10", " 1300"),
    (" 10", " 010"),
    (" 10", " ten"),
    ("standard 10", "standard 11"),
    ("no access-list 10", "no access-list 11"),
    ("10 permit any", "11 permit any"),
    ("10 remark", "11 remark"),
    (
        "permit any\n",
        "permit any\n! cisco standard 10\nno access-list 10\n",
    ),
    // remarks
    ("web servers", "web  servers"),
    ("web servers", " web servers"),
    ("web servers", "web; servers"),
    ("remark web servers", "remark"),
    (
        "web servers",
        "xxxxxxxxxxxxxxxxxxxxxxxxxxxxxxxxxxxxxxxxxxxxxxxxxxxxxxxxxxxxxxxxxxxxxxxxxxxxxxxxxxxxxxxxxxxxxxxxxxxxxxxxxxxxxxxxxxxxxxxxxxxxxxxxx",
    ),
    // words
    ("permit any", "allow any"),
    ("permit any", "permit  any"),
    ("permit any", " permit any"),
    ("192.0.2.10 log", "192.0.2.10 log log"),
    ("access-list 10 permit any", " access-list 10 permit any"),
    // sources
    ("host 192.0.2.10", "192.0.2.10"),
    ("host 192.0.2.10", "192.0.2.10 0.0.0.0"),
    ("permit any", "permit 0.0.0.0 255.255.255.255"),
    ("10.0.0.0 0.255.255.255", "10.0.0.1 0.255.255.255"),
    ("10.0.0.0 0.255.255.255", "10.0.0.0 0.255.255.254"),
    ("permit any", "permit ip any any"),
];

const REMARKS: &str = "! cisco standard 1
no access-list 1
access-list 1 remark old
";

const DENYING: &str = "! cisco standard 99
no access-list 99
access-list 99 permit 10.0.0.0 0.0.0.255
";

static WALKS: [Walk; 11] = [
    // the first entry decides that has the source, wherever the packet goes
    (
        DOCUMENT,
        0,
        Packet {
            src: 0xc000_020a,
            ..PACKET
        },
        Some(Outcome {
            logged: true,
            ..ACCEPTED
        }),
    ),
    (
        DOCUMENT,
        0,
        PACKET,
        Some(Outcome {
            logged: true,
            ..DENIED
        }),
    ),
    (
        DOCUMENT,
        0,
        Packet {
            src: 0x0aff_ffff,
            ..PACKET
        },
        Some(DENIED),
    ),
    (
        DOCUMENT,
        0,
        Packet {
            src: 0x0b00_0000,
            ..PACKET
        },
        Some(ACCEPTED),
    ),
    // the end denies
    (DENYING, 0, PACKET, Some(DENIED)),
    (
        DENYING,
        0,
        Packet {
            src: 0x0a00_00ff,
            ..PACKET
        },
        Some(ACCEPTED),
    ),
    (
        DENYING,
        0,
        Packet {
            src: 0x0a00_0100,
            ..PACKET
        },
        Some(DENIED),
    ),
    // a list without entries accepts
    (REMARKS, 0, PACKET, Some(ACCEPTED)),
    (DOCUMENT, 0, PACKET_OF_SIX, None),
    (REMARKS, 0, PACKET_OF_SIX, None),
    (DOCUMENT, 1, PACKET, None),
];

#[test]
fn texts_are_read_refused_and_walked(rt: HostRuntime) {
    expect_changes::<Standard>(&rt, rt.alloc(), DOCUMENT, &READ, true);
    expect_changes::<Standard>(&rt, rt.alloc(), DOCUMENT, &REFUSED, false);
    expect_walks::<Standard>(&rt, rt.alloc(), &WALKS);
}

// What the text's section does to the packet. `None` also for what is no text and no packet.
fn told(
    alloc: Global,
    text: &str,
    which: usize,
    packet: &Packet,
) -> Result<Option<Outcome>, Memory> {
    match read(alloc, text.as_bytes())? {
        Some(doc) if is_packet(packet) => Ok(outcome(&doc, which, packet)),
        _ => Ok(None),
    }
}

fn is_refused(alloc: Global, text: &[u8]) -> Result<bool, Memory> {
    Ok(read(alloc, text)?.is_none())
}

#[test]
fn a_document_is_told(rt: HostRuntime) {
    let alloc = rt.alloc();
    assert!(rt; told(alloc, DENYING, 0, &PACKET) == Ok(Some(DENIED)));
    assert!(rt; told(alloc, REMARKS, 0, &PACKET) == Ok(Some(ACCEPTED)));
    assert!(rt; told(alloc, REMARKS, 0, &PACKET_OF_SIX) == Ok(None));
    assert!(rt; told(alloc, REMARKS, 1, &PACKET) == Ok(None));
    assert!(rt; is_refused(alloc, b"access-list 10 permit any\n") == Ok(true));
}
