use acl_options::{put_packet, read_packet};
use acl_packet::{Conn, Family, Packet};
use acl_text::Whole;
use std::alloc::Global;

const WEB: Packet = Packet {
    src: 0xc633_6407,
    dst: 0xc000_020a,
    sport: 40000,
    dport: 80,
    family: Family::V4,
    proto: 6,
    flags: 2,
    itype: 0,
    icode: 0,
    conn: Conn::New,
};

#[test]
fn nine_words_are_a_packet(rt: HostRuntime) {
    let read = read_packet(b"198.51.100.7 192.0.2.10 6 40000 80 2 0 0 new");
    assert!(rt; read == Some(WEB));
}

// Whether the text is read, and the packet's text is put as this one.
fn is_put_as(alloc: Global, text: &str, put: &str) -> bool {
    let mut whole = Whole::new(alloc);
    let answer = read_packet(text.as_bytes()).map(|packet| put_packet(&mut whole, &packet));
    answer == Some(Ok(())) && whole.as_slice() == put.as_bytes()
}

// A text, and the one that its packet has.
static SPELLINGS: [(&str, &str); 5] = [
    (
        "1.2.3.4 0.0.0.0 1 0 0 0 3 4 related",
        "1.2.3.4 0.0.0.0 1 0 0 0 3 4 related",
    ),
    (
        "2001:DB8:0:0:0:0:0:1 ::192.0.2.1 132 65535 0 0 0 0 established",
        "2001:db8::1 ::c000:201 132 65535 0 0 0 0 established",
    ),
    (
        ":: 1:2:3:4:5:6:7:: 58 0 0 0 255 255 invalid",
        ":: 1:2:3:4:5:6:7:0 58 0 0 0 255 255 invalid",
    ),
    (
        "1.1.1.1 1.1.1.1 0 0 0 0 0 0 new",
        "1.1.1.1 1.1.1.1 0 0 0 0 0 0 new",
    ),
    ("::1 ::2 50 0 0 0 0 0 new", "::1 ::2 50 0 0 0 0 0 new"),
];

#[test]
fn each_spelling_is_put_in_one(rt: HostRuntime) {
    for (text, put) in &SPELLINGS {
        assert!(rt; is_put_as(rt.alloc(), text, put), "{text}");
    }
}

static OTHERS: [&str; 29] = [
    "",
    "1.1.1.1 ::1 17 0 0 0 0 0 new",
    "1.1.1.1/32 1.1.1.1 17 0 0 0 0 0 new",
    "1.1.1.1 1.1.1 17 0 0 0 0 0 new",
    "1.1.1.1 1.1.1.1 1 40000 80 0 0 0 new",
    "1.1.1.1 1.1.1.1 17 0 0 2 0 0 new",
    "1.1.1.1 1.1.1.1 6 0 0 64 0 0 new",
    "1.1.1.1 1.1.1.1 58 0 0 0 128 0 new",
    "::1 ::1 1 0 0 0 8 0 new",
    "1.1.1.1 1.1.1.1 17 0 65536 0 0 0 new",
    "1.1.1.1 1.1.1.1 256 0 0 0 0 0 new",
    "1.1.1.1 1.1.1.1 tcp 0 0 0 0 0 new",
    "1.1.1.1 1.1.1.1 017 0 0 0 0 0 new",
    "1.1.1.1  1.1.1.1 17 0 0 0 0 0 new",
    " 1.1.1.1 1.1.1.1 17 0 0 0 0 0 new",
    "1.1.1.1 1.1.1.1 17 0 0 0 0 0 new ",
    "1.1.1.1 1.1.1.1 17 0 0 0 0 0 NEW",
    "1.1.1.1 1.1.1.1 17 0 0 0 0 new",
    "1.1.1.1 1.1.1.1 17 0 0 0 0 0 0 new",
    "1.1.1.1 1.1.1.1 17 0 0 0 0 0",
    "::1 ::1 0 0 0 0 0 0 new",
    "::1 ::1 43 0 0 0 0 0 new",
    "::1 ::1 44 0 0 0 0 0 new",
    "::1 ::1 51 0 0 0 0 0 new",
    "::1 ::1 59 0 0 0 0 0 new",
    "::1 ::1 60 0 0 0 0 0 new",
    "::1 ::1 135 0 0 0 0 0 new",
    "::1 ::1 139 0 0 0 0 0 new",
    "::1 ::1 140 0 0 0 0 0 new",
];

#[test]
fn other_words_are_none(rt: HostRuntime) {
    for text in &OTHERS {
        assert!(rt; read_packet(text.as_bytes()).is_none(), "{text}");
    }
}
