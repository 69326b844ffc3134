ghost use Rattle.std.specs.Prelude.{◌≡◌, true};

use acl_packet::{Family, Prefix};
use acl_text::{
    Bytes, Cursor, Items, Memory, Place, PutFault, Whole, ahead, behind, contains_byte, copy_bytes,
    next_word, prefix_front, put_address, put_number, put_pieces, put_prefix, put_prefix_between,
    put_wildcard, read_address, read_number, read_ports, read_prefix, read_signed,
    read_spelled_prefix, skip_white, split_at_byte,
};
use std::alloc::Global;

fn has_pushed_bytes(alloc: Global) -> Result<bool, Memory> {
    let mut bytes = Bytes::from_slice(alloc, b"ab")?;
    bytes.push_all(b"c")?;
    Ok(bytes.as_slice() == b"abc".as_slice())
}

#[test]
fn keeps_bytes(rt: HostRuntime) {
    assert!(rt; has_pushed_bytes(rt.alloc()) == Ok(true));
}

fn has_pushed_item(alloc: Global) -> Result<bool, Memory> {
    let mut numbers = Items::new(alloc);
    numbers.push(6)?;
    Ok(numbers.as_slice() == [6].as_slice())
}

#[test]
fn keeps_items(rt: HostRuntime) {
    assert!(rt; has_pushed_item(rt.alloc()) == Ok(true));
}

static NUMBERS: [(&str, u128, Option<u128>); 10] = [
    ("0", 0, Some(0)),
    ("7", 9, Some(7)),
    ("65535", 65535, Some(65535)),
    ("65536", 65535, None),
    (
        "340282366920938463463374607431768211455",
        u128::MAX,
        Some(u128::MAX),
    ),
    ("340282366920938463463374607431768211456", u128::MAX, None),
    ("080", 255, None),
    ("00", 255, None),
    ("+1", 255, None),
    ("", 255, None),
];

#[test]
fn reads_numbers(rt: HostRuntime) {
    for (word, max, number) in &NUMBERS {
        assert!(rt; read_number(word.as_bytes(), *max) == *number, "{word}");
    }
}

// Puts the least number and the greatest one, and what stands between.
fn put_two(out: &mut Whole) -> Result<(), PutFault>
    requires { out.old.is_open ≡ true }
{
    put_number(out, 0)?;
    put_pieces(out, &[b" ", b"and "])?;
    put_number(out, u128::MAX)
}

#[test]
fn puts_numbers(rt: HostRuntime) {
    let mut out = Whole::new(rt.alloc());
    assert!(rt; put_two(&mut out).is_ok());
    assert!(rt; out.as_slice() == b"0 and 340282366920938463463374607431768211455".as_slice());
}

// The examples of RFC 4291 section 2.2 and of RFC 5952 sections 4 and 5, the latter without a dotted tail.
static PRINTED: [(&str, &str); 24] = [
    (
        "ABCD:EF01:2345:6789:ABCD:EF01:2345:6789",
        "abcd:ef01:2345:6789:abcd:ef01:2345:6789/128",
    ),
    (
        "2001:DB8:0:0:8:800:200C:417A",
        "2001:db8::8:800:200c:417a/128",
    ),
    ("FF01:0:0:0:0:0:0:101", "ff01::101/128"),
    ("0:0:0:0:0:0:0:1", "::1/128"),
    ("0:0:0:0:0:0:0:0", "::/128"),
    ("FF01::101", "ff01::101/128"),
    ("::1", "::1/128"),
    ("::", "::/128"),
    ("0:0:0:0:0:0:13.1.68.3", "::d01:4403/128"),
    ("0:0:0:0:0:FFFF:129.144.52.38", "::ffff:8190:3426/128"),
    ("::13.1.68.3", "::d01:4403/128"),
    ("::FFFF:129.144.52.38", "::ffff:8190:3426/128"),
    ("2001:0db8::0001", "2001:db8::1/128"),
    ("2001:db8:0:0:0:0:2:1", "2001:db8::2:1/128"),
    ("2001:db8::1:1:1:1:1", "2001:db8:0:1:1:1:1:1/128"),
    ("2001:0:0:1:0:0:0:1", "2001:0:0:1::1/128"),
    ("2001:db8:0:0:1:0:0:1", "2001:db8::1:0:0:1/128"),
    (
        "2001:db8:aaaa:bbbb:cccc:dddd:eeee:AAAA",
        "2001:db8:aaaa:bbbb:cccc:dddd:eeee:aaaa/128",
    ),
    ("::ffff:192.0.2.1", "::ffff:c000:201/128"),
    ("1:2:3:4:5:6:7::", "1:2:3:4:5:6:7:0/128"),
    ("2001:db8:ffff::/33", "2001:db8:8000::/33"),
    ("10.1.2.3/8", "10.0.0.0/8"),
    ("192.0.2.255", "192.0.2.255/32"),
    ("255.255.255.255/0", "0.0.0.0/0"),
];

// Whether the word is a prefix with this text, which is its one spelling.
fn is_printed_as(alloc: Global, word: &str, text: &str) -> Result<bool, PutFault> {
    let Some(prefix) = read_prefix(word.as_bytes()) else {
        return Ok(false);
    };
    let mut out = Whole::new(alloc);
    put_prefix(&mut out, &prefix)?;
    let again = read_spelled_prefix(prefix.family, text.as_bytes());
    Ok(out.as_slice() == text.as_bytes() && again == Some(prefix))
}

#[test]
fn prints_examples(rt: HostRuntime) {
    for (word, text) in &PRINTED {
        assert!(rt; is_printed_as(rt.alloc(), word, text) == Ok(true), "{word}");
    }
}

// Whether the prefix of the word is put so between a comma and the end of a row.
fn is_put_between(alloc: Global, word: &str, text: &str) -> Result<bool, PutFault> {
    let Some(prefix) = read_prefix(word.as_bytes()) else {
        return Ok(false);
    };
    let mut out = Whole::new(alloc);
    put_prefix_between(&mut out, b", ", &prefix, b";\n")?;
    Ok(out.as_slice() == text.as_bytes())
}

#[test]
fn puts_prefixes_between_bytes(rt: HostRuntime) {
    assert!(rt; is_put_between(rt.alloc(), "10.20.0.0/16", ", 10.20.0.0/16;\n") == Ok(true));
    assert!(rt; is_put_between(rt.alloc(), "2001:db8::/32", ", 2001:db8::/32;\n") == Ok(true));
}

static REFUSED: [&str; 26] = [
    "1:2:3:4:5:6:7:8::",
    "1::2:3:4:5:6:7:8",
    ":::",
    "1::2::3",
    "12345::",
    "::1%eth0",
    ":1",
    "1:",
    "1:2:3:4:5:6:7",
    "1.2.3.4::",
    "::1.2.3",
    "::g",
    "1.2.3.04",
    "1.2.3",
    "1.2.3.4.5",
    "1.2.3.256",
    "1.2..4",
    "1.2.3.4/33",
    "1.2.3.4/08",
    "1.2.3.4/",
    "1.2.3.4/ 8",
    "1.2.3.4/8/8",
    "::/129",
    "/8",
    "10/8",
    "",
];

#[test]
fn refuses_other_words(rt: HostRuntime) {
    for word in &REFUSED {
        assert!(rt; read_prefix(word.as_bytes()).is_none(), "{word}");
    }
}

// Whether the text begins with the word, which spells the prefix that is told, and goes on with the rest.
fn begins_with_prefix(text: &str, word: &str, rest: &str) -> bool {
    match prefix_front(text.as_bytes()) {
        Some((prefix, behind)) => {
            read_prefix(word.as_bytes()) == Some(prefix) && behind == rest.as_bytes()
        }
        None => false,
    }
}

#[test]
fn reads_fronts_of_texts(rt: HostRuntime) {
    assert!(rt; begins_with_prefix("10.1.2.3/8 x", "10.1.2.3/8", " x"));
    assert!(rt; begins_with_prefix("10.1.2.255", "10.1.2.255", ""));
    assert!(rt; prefix_front(b"10.1.2.3/33").is_none());
    assert!(rt; begins_with_prefix("2001:db8::1:2/64;", "2001:db8::1:2/64", ";"));
    assert!(rt; prefix_front(b"2001:db8::/129").is_none());
    assert!(rt; prefix_front(b"web").is_none());
}

// Whether the bytes are copied into room for as many, and nothing else.
fn is_copied(bytes: &[u8]) -> bool {
    let mut room = [b'-'; 200];
    let count = bytes.len();
    if count > room.len() {
        return false;
    }
    copy_bytes(&mut room[..count], bytes);
    &room[..count] == bytes && room[count..].iter().all(|byte| *byte == b'-')
}

static LETTERS: [u8; 160] =
    *b"abcdefghijklmnopqrstuvwxyzabcdefghijklmnopqrstuvwxyzabcdefghijklmnopqrstuvwxyzabcdefghijklmnopqrstuvwxyzabcdefghijklmnopqrstuvwxyzabcdefghijklmnopqrstuvwxyzabcd";

#[test]
fn copies_few_bytes_and_many(rt: HostRuntime) {
    for count in 0..LETTERS.len() {
        assert!(rt; is_copied(&LETTERS[..count]), "{count}");
    }
}

static SPELLED: [(Family, &str, Option<u128>); 9] = [
    (Family::V4, "1.2.3.4", Some(0x0102_0304)),
    (Family::V4, "01.2.3.4", None),
    (Family::V4, "::1", None),
    (Family::V6, "1.2.3.4", None),
    (Family::V6, "::1", Some(1)),
    (Family::V6, "0::1", None),
    (Family::V6, "::A", None),
    (Family::V6, "::0.0.0.1", None),
    (Family::V6, "1::2:0:0:0:0", None),
];

#[test]
fn reads_the_printed_text_alone(rt: HostRuntime) {
    for (family, word, address) in &SPELLED {
        assert!(rt;
            read_address(*family, word.as_bytes()) == *address,
            "{word}"
        );
    }
}

const TEN: Prefix = Prefix {
    family: Family::V4,
    first: 0x0a00_0000,
    len: 8,
};

fn is_spelled_once() -> bool {
    read_spelled_prefix(Family::V4, b"10.0.0.0/8") == Some(TEN)
        && read_spelled_prefix(Family::V6, b"10.0.0.0/8").is_none()
        && read_spelled_prefix(Family::V4, b"10.1.2.3/8").is_none()
        && read_spelled_prefix(Family::V4, b"10.0.0.0").is_none()
}

fn put_addresses(out: &mut Whole) -> Result<(), PutFault>
    requires { out.old.is_open ≡ true }
{
    put_address(out, Family::V4, 0x0102_0304)?;
    put_address(out, Family::V6, 1)
}

#[test]
fn puts_an_address_of_each_family(rt: HostRuntime) {
    let mut out = Whole::new(rt.alloc());
    assert!(rt; put_addresses(&mut out).is_ok());
    assert!(rt; out.as_slice() == b"1.2.3.4::1".as_slice());
}

static WILDCARDS: [(u8, &str); 4] = [
    (0, "255.255.255.255"),
    (9, "0.127.255.255"),
    (31, "0.0.0.1"),
    (32, "0.0.0.0"),
];

fn is_wildcard(alloc: Global, len: u8, text: &str) -> Result<bool, PutFault> {
    let mut out = Whole::new(alloc);
    if len <= 32 {
        put_wildcard(&mut out, len)?;
    }
    Ok(out.as_slice() == text.as_bytes())
}

#[test]
fn puts_wildcards(rt: HostRuntime) {
    for (len, text) in &WILDCARDS {
        assert!(rt; is_wildcard(rt.alloc(), *len, text) == Ok(true), "{len}");
    }
}

// The lines of a text, and how many were taken behind each.
static LINES: [(Option<&[u8]>, u32); 4] = [
    (Some(b"a b\r"), 1),
    (Some(b""), 2),
    (Some(b"last"), 3),
    (None, 3),
];

#[test]
fn gives_each_line_once(rt: HostRuntime) {
    let mut cursor = Cursor::new(3, b"a b\r\n\nlast");
    for (text, line) in &LINES {
        let place = Place {
            file: 3,
            line: *line,
        };
        assert!(rt; cursor.line() == *text && cursor.place() == place, "{line}");
    }
}

static WORDS: [(usize, Option<(usize, usize)>); 3] = [
    (0, Some((1, 3))),
    (3, Some((5, 6))),
    (6, None),
];

#[test]
fn gives_the_bounds_of_words(rt: HostRuntime) {
    let line = b" ab\t c\r";
    for (from, word) in &WORDS {
        assert!(rt;
            *from <= line.len() && next_word(line, *from) == *word,
            "{from}"
        );
    }
    assert!(rt; next_word(b"", 0).is_none());
}

fn is_cut_at_a_byte() -> bool {
    split_at_byte(b"A = B = C", b'=') == Some((b"A ".as_slice(), b" B = C".as_slice()))
        && split_at_byte(b"A B", b'=').is_none()
        && contains_byte(b"A = B", b'=')
        && !contains_byte(b"A B", b'=')
}

fn is_cut_at_its_ends() -> bool {
    behind(b"no list", b"no ") == Some(b"list".as_slice())
        && ahead(b"80;", b";") == Some(b"80".as_slice())
        && ahead(b"80", b";").is_none()
        && skip_white(b" \t\rx ") == b"x ".as_slice()
}

fn are_ports_read() -> bool {
    read_ports(b"80-443", b'-') == Some((80, 443))
        && read_ports(b"65535", b':') == Some((65_535, 65_535))
        && read_ports(b"443-80", b'-').is_none()
}

#[test]
fn cuts_and_reads_short_texts(rt: HostRuntime) {
    assert!(rt; is_spelled_once());
    assert!(rt; is_cut_at_a_byte());
    assert!(rt; is_cut_at_its_ends());
    assert!(rt; are_ports_read());
}

static SIGNED: [(&str, Option<i32>); 3] = [
    ("-32768", Some(-32_768)),
    ("32768", None),
    ("-0", None),
];

#[test]
fn reads_signed_numbers(rt: HostRuntime) {
    for (word, number) in &SIGNED {
        let read = read_signed(word.as_bytes(), 32_768, 32_767);
        assert!(rt; read == *number, "{word}");
    }
}
