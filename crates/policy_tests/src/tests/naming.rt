use crate::tests::range_lists::has_just;
use acl_naming::{
    Base, Checked, Lookup, check_base, networks_of, ports_of, read_networks, read_services,
};
use acl_packet::Family;
use acl_sets::{Range, RangeSet};
use acl_text::{Code, Place, Refusal};
use std::alloc::{AllocError, Global};
use std::test::Fail;

const MOST_BYTES: usize = 4_194_304;

/// A text, and the slip that is told of it: code, line and word.
struct Case {
    text: &'static [u8],
    code: Code,
    line: u32,
    word: &'static [u8],
}

static NETWORKS: [Case; 12] = [
    Case {
        text: b"BAD NAME = 192.0.2.1",
        code: Code::BadName,
        line: 1,
        word: b"BAD NAME",
    },
    Case {
        text: b"10.0.0.0/8",
        code: Code::NoDefinition,
        line: 1,
        word: b"10.0.0.0/8",
    },
    Case {
        text: b"A = 10.0.0.256",
        code: Code::BadValue,
        line: 1,
        word: b"10.0.0.256",
    },
    Case {
        text: b"A = 192.0.2.1\nA = 192.0.2.1\n",
        code: Code::Twice,
        line: 2,
        word: b"A",
    },
    Case {
        text: b"A = 192.0.2.1\n\n\x0b\n",
        code: Code::BadByte,
        line: 3,
        word: b"\x0b",
    },
    Case {
        text: b" \t= 1.2.3.4",
        code: Code::BadName,
        line: 1,
        word: b"",
    },
    Case {
        text: b"A = B = C",
        code: Code::BadValue,
        line: 1,
        word: b"=",
    },
    Case {
        text: b"A = 10/8",
        code: Code::BadValue,
        line: 1,
        word: b"10/8",
    },
    Case {
        text: b"A =\n  B 1.2.3.4/08",
        code: Code::BadValue,
        line: 2,
        word: b"1.2.3.4/08",
    },
    Case {
        text: b"A = \"x\"",
        code: Code::BadValue,
        line: 1,
        word: b"\"x\"",
    },
    Case {
        text: b"A = 1.2.3.999 \x7f",
        code: Code::BadByte,
        line: 1,
        word: b"\x7f",
    },
    Case {
        text: b"# A = 1\nA = ! B\nA = 10/8",
        code: Code::BadValue,
        line: 2,
        word: b"!",
    },
];

static SERVICES: [Case; 8] = [
    Case {
        text: b"A = 080/tcp",
        code: Code::BadValue,
        line: 1,
        word: b"080/tcp",
    },
    Case {
        text: b"A = 90-80/tcp",
        code: Code::BadValue,
        line: 1,
        word: b"90-80/tcp",
    },
    Case {
        text: b"A = 80/0",
        code: Code::BadValue,
        line: 1,
        word: b"80/0",
    },
    Case {
        text: b"A = 65536/tcp",
        code: Code::BadValue,
        line: 1,
        word: b"65536/tcp",
    },
    Case {
        text: b"A = 80-80/udp 80/icmp\n80/tcp/x",
        code: Code::BadValue,
        line: 2,
        word: b"80/tcp/x",
    },
    Case {
        text: b"A = 1-2-3/tcp",
        code: Code::BadValue,
        line: 1,
        word: b"1-2-3/tcp",
    },
    Case {
        text: b"A = 192.0.2.1",
        code: Code::BadValue,
        line: 1,
        word: b"192.0.2.1",
    },
    Case {
        text: b"\r\n 80/tcp",
        code: Code::NoDefinition,
        line: 2,
        word: b"80/tcp",
    },
];

static NAMES: [Case; 8] = [
    Case {
        text: b"A = B\nB = C\nC = A\nD = NOWHERE\n",
        code: Code::Undefined,
        line: 4,
        word: b"NOWHERE",
    },
    Case {
        text: b"A = B\nB = C\nC = A\n",
        code: Code::Cycle,
        line: 1,
        word: b"A",
    },
    Case {
        text: b"A = B\nB = C\nC = B\n",
        code: Code::Cycle,
        line: 2,
        word: b"B",
    },
    Case {
        text: b"B = 1.2.3.4\nA = A\n",
        code: Code::Cycle,
        line: 2,
        word: b"A",
    },
    Case {
        text: b"A = B F\nB = C\nC = D\nD = E\nE = C\nF = 1.2.3.4\n",
        code: Code::Cycle,
        line: 3,
        word: b"C",
    },
    // the first definition leads from one ring to another, and stands in none
    Case {
        text: b"A = D\nB = C A\nC = B\nD = D\n",
        code: Code::Cycle,
        line: 2,
        word: b"B",
    },
    Case {
        text: b"A = D\nD = E\nE = D\nB = C A\nC = B\n",
        code: Code::Cycle,
        line: 2,
        word: b"D",
    },
    Case {
        text: b"A = B C\nB = D\nC = D\nD = E B 1.2.3.4\nE = 1.2.3.4\n",
        code: Code::Cycle,
        line: 2,
        word: b"B",
    },
];

// Whether the answer is this slip.
fn is_slip<T>(answer: &Result<T, Refusal>, file: u32, code: Code, line: u32, word: &[u8]) -> bool {
    match answer {
        Err(Refusal::Slip(slip)) => {
            let slip = slip.as_slip();
            slip.code == code && slip.place == Place { file, line } && slip.word.as_slice() == word
        }
        _ => false,
    }
}

fn networks(base: Base, file: u32, text: &[u8]) -> Result<Base, Refusal> {
    if text.len() > MOST_BYTES {
        return Err(Refusal::Memory);
    }
    read_networks(base, file, text)
}

fn services(base: Base, file: u32, text: &[u8]) -> Result<Base, Refusal> {
    if text.len() > MOST_BYTES {
        return Err(Refusal::Memory);
    }
    read_services(base, file, text)
}

fn slips_in_networks(alloc: Global, case: &Case) -> bool {
    let answer = networks(Base::new(alloc), 3, case.text);
    is_slip(&answer, 3, case.code, case.line, case.word)
}

fn slips_in_services(alloc: Global, case: &Case) -> bool {
    let answer = services(Base::new(alloc), 4, case.text);
    is_slip(&answer, 4, case.code, case.line, case.word)
}

fn checked(alloc: Global, text: &[u8]) -> Result<Checked, Refusal> {
    check_base(networks(Base::new(alloc), 5, text)?)
}

// Whether the networks slip by this name.
fn slips_at(alloc: Global, text: &[u8], code: Code, line: u32, word: &[u8]) -> bool {
    is_slip(&checked(alloc, text), 5, code, line, word)
}

fn example(alloc: Global, first: &[u8], second: &[u8]) -> Result<Checked, Refusal> {
    let base = networks(Base::new(alloc), 0, first)?;
    check_base(services(base, 1, second)?)
}

// Whether these are the ranges of a name. It has no answer where its file is refused.
fn has_ranges(answer: &Option<Result<RangeSet, Lookup>>, ranges: &[Range]) -> bool {
    match answer {
        Some(Ok(set)) => has_just(set, ranges),
        _ => false,
    }
}

fn is_refused(answer: &Option<Result<RangeSet, Lookup>>, lookup: Lookup) -> bool {
    match answer {
        Some(Err(found)) => *found == lookup,
        _ => false,
    }
}

#[test]
fn slips_of_networks(rt: HostRuntime) {
    for (place, case) in NETWORKS.iter().enumerate() {
        assert!(rt; slips_in_networks(rt.alloc(), case), "case {place}");
    }
}

#[test]
fn slips_of_services(rt: HostRuntime) {
    for (place, case) in SERVICES.iter().enumerate() {
        assert!(rt; slips_in_services(rt.alloc(), case), "case {place}");
    }
}

#[test]
fn an_undefined_name_comes_before_a_cycle(rt: HostRuntime) {
    for (place, case) in NAMES.iter().enumerate() {
        let slips = slips_at(rt.alloc(), case.text, case.code, case.line, case.word);
        assert!(rt; slips, "case {place}");
    }
}

// A text, and the slip that is told of it behind another file, which defines A.
static SECONDS: [Case; 2] = [
    Case {
        text: b"\nC = B\n A = 1.2.3.4",
        code: Code::Twice,
        line: 3,
        word: b"A",
    },
    Case {
        text: b"# A\n1.2.3.5\n",
        code: Code::NoDefinition,
        line: 2,
        word: b"1.2.3.5",
    },
];

// The networks of two files.
fn two_files(alloc: Global, first: &[u8], second: &[u8]) -> Result<Base, Refusal> {
    networks(networks(Base::new(alloc), 0, first)?, 2, second)
}

#[test]
fn files_are_read_one_after_the_other(rt: HostRuntime) {
    for (place, case) in SECONDS.iter().enumerate() {
        let answer = two_files(rt.alloc(), b"A = 1.2.3.4", case.text);
        assert!(rt;
            is_slip(&answer, 2, case.code, case.line, case.word),
            "case {place}"
        );
    }
}

static FIRST: &[u8] =
    b"ALL = WEB # \xff\x00 = \r\n\r\n\tDB\r\nWEB = 192.0.2.10 2001:db8::10\r\nDB =\r\n  192.0.2.11/32\r\nNONE =";

static SECOND: &[u8] = b"DNS = 53/tcp 53/udp\nWEB = 80-81/tcp DNS\n";

const HOST: Range = Range {
    low: 0xc000_020a,
    high: 0xc000_020a,
};

const HOSTS: Range = Range {
    high: 0xc000_020b,
    ..HOST
};

// A name, its family, and the addresses.
static ADDRESSES: [(Family, &[u8], &[Range]); 4] = [
    (Family::V4, b"WEB", &[HOST]),
    (Family::V4, b"ALL", &[HOSTS]),
    (Family::V6, b"DB", &[]),
    (Family::V4, b"NONE", &[]),
];

// The addresses of the name in the example. `None` where it is refused.
fn addresses(alloc: Global, family: Family, name: &[u8]) -> Option<Result<RangeSet, Lookup>> {
    let base = example(alloc, FIRST, SECOND).ok()?;
    Some(networks_of(alloc, &base, family, name))
}

fn has_addresses(alloc: Global, family: Family, name: &[u8], ranges: &[Range]) -> bool {
    has_ranges(&addresses(alloc, family, name), ranges)
}

fn ports(alloc: Global, proto: u8, name: &[u8]) -> Option<Result<RangeSet, Lookup>> {
    let base = example(alloc, FIRST, SECOND).ok()?;
    Some(ports_of(alloc, &base, proto, name))
}

#[test]
fn addresses_of_names(rt: HostRuntime) {
    for (place, (family, name, ranges)) in ADDRESSES.iter().enumerate() {
        let has = has_addresses(rt.alloc(), *family, name, ranges);
        assert!(rt; has, "name {place}");
    }
    let answer = addresses(rt.alloc(), Family::V4, b"DNS");
    assert!(rt; is_refused(&answer, Lookup::Unknown));
}

const DNS: Range = Range { low: 53, high: 53 };

const WEB: Range = Range { low: 80, high: 81 };

// A name, a protocol, and the ports.
static PORTS: [(u8, &[u8], &[Range]); 2] = [(17, b"DNS", &[DNS]), (6, b"WEB", &[DNS, WEB])];

// A name, a protocol, and why it has no ports.
static NO_PORTS: [(u8, &[u8], Lookup); 2] = [
    (132, b"DNS", Lookup::NoPort),
    (6, b"ALL", Lookup::Unknown),
];

#[test]
fn ports_of_names(rt: HostRuntime) {
    for (place, (proto, name, ranges)) in PORTS.iter().enumerate() {
        let answer = ports(rt.alloc(), *proto, name);
        assert!(rt; has_ranges(&answer, ranges), "name {place}");
    }
}

#[test]
fn names_without_ports(rt: HostRuntime) {
    for (place, (proto, name, lookup)) in NO_PORTS.iter().enumerate() {
        let answer = ports(rt.alloc(), *proto, name);
        assert!(rt; is_refused(&answer, *lookup), "name {place}");
    }
}

fn many(alloc: Global, count: usize, front: &[u8], each: &[u8]) -> Result<Vec<u8>, AllocError> {
    let mut text = Vec::from_slice(alloc, front)?;
    for _ in 0..count {
        text.extend_from_slice(each)?;
    }
    Ok(text)
}

// Adds a name that stands twice for the other.
fn add_double(alloc: Global, text: &mut Vec<u8>, name: u32, other: u32) -> Result<(), AllocError> {
    let line = format!(in alloc; "N{name} = N{other} N{other}\n")?;
    text.extend_from_slice(line.as_bytes())
}

// Adds a name that stands for the word.
fn add_word(alloc: Global, text: &mut Vec<u8>, name: u32, word: &str) -> Result<(), AllocError> {
    let line = format!(in alloc; "N{name} = {word}\n")?;
    text.extend_from_slice(line.as_bytes())
}

// Each name stands twice for the next one, and the last one for the word.
fn falling(alloc: Global, word: &str) -> Result<Vec<u8>, AllocError> {
    let mut text = Vec::new(alloc);
    for i in 0..8000u32 {
        add_double(alloc, &mut text, i, i + 1)?;
    }
    add_word(alloc, &mut text, 8000, word)?;
    Ok(text)
}

// The first name stands for the word, and each other one twice for the one before it.
fn rising(alloc: Global, word: &str) -> Result<Vec<u8>, AllocError> {
    let mut text = Vec::new(alloc);
    add_word(alloc, &mut text, 0, word)?;
    for before in 0..8000u32 {
        add_double(alloc, &mut text, before + 1, before)?;
    }
    Ok(text)
}

const LAST: Range = Range {
    low: 0xc000_0201,
    high: 0xc000_0201,
};

// What the name stands for in the networks. `None` where they are refused.
fn chained(alloc: Global, text: &[u8], name: &[u8]) -> Option<Result<RangeSet, Lookup>> {
    let base = example(alloc, text, b"").ok()?;
    Some(networks_of(alloc, &base, Family::V4, name))
}

// Whether the name stands for the last address.
fn is_chained(alloc: Global, text: &[u8], name: &[u8]) -> bool {
    has_ranges(&chained(alloc, text, name), &[LAST])
}

// The chain and the name at its far end, whichever way it goes.
#[test]
fn a_long_chain_is_followed_to_its_end(rt: HostRuntime) -> Result<(), Fail> {
    let up = rising(rt.alloc(), "192.0.2.1")?;
    assert!(rt; is_chained(rt.alloc(), &up, b"N8000"));
    let down = falling(rt.alloc(), "192.0.2.1")?;
    assert!(rt; is_chained(rt.alloc(), &down, b"N0"));
    Ok(())
}

#[test]
fn a_ring_behind_a_long_chain_is_found(rt: HostRuntime) -> Result<(), Fail> {
    let text = falling(rt.alloc(), "N7999")?;
    assert!(rt; slips_at(rt.alloc(), &text, Code::Cycle, 8000, b"N7999"));
    Ok(())
}

// All names are one ring, and a name behind it is defined nowhere.
#[test]
fn a_ring_of_all_names_is_found(rt: HostRuntime) -> Result<(), Fail> {
    let mut text = rising(rt.alloc(), "N8000")?;
    assert!(rt; slips_at(rt.alloc(), &text, Code::Cycle, 1, b"N0"));
    text.extend_from_slice(b"Z = Z0\n")?;
    assert!(rt; slips_at(rt.alloc(), &text, Code::Undefined, 8002, b"Z0"));
    Ok(())
}

fn has_no_name_behind(alloc: Global, text: &[u8]) -> bool {
    let answer = two_files(alloc, text, b"B =\n = \n");
    is_slip(&answer, 2, Code::BadName, 2, b"")
}

fn has_too_many(alloc: Global, text: &[u8]) -> bool {
    let answer = networks(Base::new(alloc), 0, text);
    is_slip(&answer, 0, Code::TooMany, 16386, b"B")
}

// As many items as there may be, and a text behind them that slips; then one item more.
#[test]
fn items_up_to_the_limit(rt: HostRuntime) -> Result<(), Fail> {
    let full = many(rt.alloc(), 16384, b"A =", b" 1.2.3.4")?;
    assert!(rt; has_no_name_behind(rt.alloc(), &full));
    let over = many(rt.alloc(), 16385, b"A =", b"\n B")?;
    assert!(rt; has_too_many(rt.alloc(), &over));
    Ok(())
}
