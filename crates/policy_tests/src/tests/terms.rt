ghost use Rattle.std.specs.List.{All};
ghost use Rattle.acl_policy.specs.Conditions.{IsBlock, IsRawTerm};

use crate::tests::reading::{TODAY, base, policy_of, shown_slip};
use acl_naming::Checked;
use acl_packet::{Conn, Family, Packet};
use acl_policy::{Block, RawTerm};
use acl_target::Kind;
use acl_terms::{Mode, Term, is_empty_in, is_live, is_pair_empty, matches, pairs_of, resolve};
use acl_text::{Memory, Refusal};
use std::alloc::Global;

fn first_of(alloc: Global, base: &Checked, raws: &[RawTerm]) -> Result<Term, Refusal>
    requires { All IsRawTerm raws.now }
{
    match raws {
        [] => Err(Refusal::Memory),
        [raw, ..] => resolve(alloc, base, raw),
    }
}

fn first_in(alloc: Global, base: &Checked, blocks: &[Block]) -> Result<Term, Refusal>
    requires { All IsBlock blocks.now }
{
    match blocks {
        [] => Err(Refusal::Memory),
        [block, ..] => first_of(alloc, base, block.terms.as_slice()),
    }
}

fn term_over(alloc: Global, base: &Checked, items: &str) -> Result<Term, Refusal> {
    let text = format!(in alloc; "header {{ target:: cisco e }} term t {{\n{items} }}\n")?;
    let policy = policy_of(alloc, text.as_bytes())?;
    first_in(alloc, base, policy.blocks.as_slice())
}

// The term of these items, which begin in line 2, as `parse` and `resolve` give it.
fn term_of(alloc: Global, items: &str) -> Result<Term, Refusal> {
    term_over(alloc, &base(alloc)?, items)
}

// The first slip of a term, where there is one.
fn shown(alloc: Global, refusal: &Option<Refusal>) -> Result<String, Memory> {
    match refusal {
        None => Ok(String::from_str(alloc, "none")?),
        Some(Refusal::Slip(slip)) => shown_slip(alloc, slip),
        Some(Refusal::Memory) => Err(Memory),
    }
}

// Items, and the first of their slips by its line, code and word.
static SLIPS: [(&str, &str); 32] = [
    (
        "destination-address:: D\nsource-exclude:: E\naction:: deny",
        "3 UnknownName E",
    ),
    (
        "source-port:: HTTP\nsource-address:: A\naction:: deny",
        "3 UnknownName A",
    ),
    (
        "source-port:: A\nprotocol:: icmp\naction:: deny",
        "2 PortProtocol A",
    ),
    (
        "destination-port:: HTTP\naction:: deny",
        "2 PortProtocol HTTP",
    ),
    (
        "destination-port:: A\nsource-port:: B\nprotocol:: tcp\naction:: deny",
        "3 UnknownName B",
    ),
    (
        "source-port:: HTTP A\nprotocol:: udp\naction:: deny",
        "2 NoPortForProtocol HTTP",
    ),
    (
        "source-port:: A HTTP\nprotocol:: udp\naction:: deny",
        "2 UnknownName A",
    ),
    (
        "source-port:: HTTP\nprotocol:: tcp udp\naction:: deny",
        "2 NoPortForProtocol HTTP",
    ),
    (
        "icmp-type:: 8\nsource-port:: HTTP\nprotocol:: udp\naction:: deny",
        "3 NoPortForProtocol HTTP",
    ),
    (
        "option:: rst tcp-initial\nicmp-type:: 8\naction:: deny",
        "3 IcmpProtocol 8",
    ),
    (
        "protocol:: icmp\nicmp-type:: 8 router-solicit\naction:: deny",
        "3 IcmpProtocol router-solicit",
    ),
    (
        "protocol:: udp\noption:: rst rst tcp-initial\naction:: deny",
        "3 OptionClash tcp-initial",
    ),
    (
        "action:: reject-with-tcp-rst\noption:: rst\nprotocol:: udp",
        "3 OptionProtocol rst",
    ),
    (
        "protocol:: tcp sctp\noption:: established\naction:: deny",
        "3 OptionProtocol established",
    ),
    (
        "protocol:: udp\naction:: reject-with-tcp-rst",
        "3 ResetProtocol reject-with-tcp-rst",
    ),
    (
        "protocol:: tcp 6\noption:: rst\naction:: reject-with-tcp-rst",
        "none",
    ),
    // of either side
    (
        "address:: D\ndestination-exclude:: E\naction:: deny",
        "3 UnknownName E",
    ),
    (
        "port:: A\naddress:: D\nprotocol:: icmp\naction:: deny",
        "3 UnknownName D",
    ),
    (
        "port:: HTTP\ndestination-port:: A\nprotocol:: icmp\naction:: deny",
        "3 PortProtocol A",
    ),
    ("port:: HTTP\naction:: deny", "2 PortProtocol HTTP"),
    (
        "port:: A\ndestination-port:: B\nprotocol:: tcp\naction:: deny",
        "3 UnknownName B",
    ),
    (
        "port:: A\nsource-port:: HTTP\nprotocol:: udp\naction:: deny",
        "3 NoPortForProtocol HTTP",
    ),
    (
        "port:: DNS HTTP A\nprotocol:: tcp udp\naction:: deny",
        "2 NoPortForProtocol HTTP",
    ),
    (
        "icmp-type:: 8\nport:: A\nprotocol:: udp\naction:: deny",
        "3 UnknownName A",
    ),
    (
        "address:: WEB\nport:: BOTH\nprotocol:: tcp udp\naction:: deny",
        "none",
    ),
    // codes of ICMP
    (
        "protocol:: icmp\nicmp-type:: unreachable\nicmp-code:: 4 3\naction:: deny",
        "none",
    ),
    (
        "protocol:: icmp\nicmp-type:: unreachable 3\nicmp-code:: 0\naction:: deny",
        "none",
    ),
    (
        "protocol:: icmp\nicmp-code:: 4 3\nicmp-type:: unreachable redirect\naction:: deny",
        "3 IcmpCode 4",
    ),
    (
        "protocol:: icmp\nicmp-code:: 4\naction:: deny",
        "3 IcmpCode 4",
    ),
    ("icmp-code:: 4\naction:: deny", "2 IcmpCode 4"),
    (
        "protocol:: icmp\nicmp-code:: 4\nicmp-type:: 3 packet-too-big\naction:: deny",
        "4 IcmpProtocol packet-too-big",
    ),
    (
        "option:: rst tcp-initial\nicmp-code:: 4\naction:: deny",
        "3 IcmpCode 4",
    ),
];

fn slips(alloc: Global, items: &str, slip: &str) -> Result<bool, Memory> {
    Ok(shown(alloc, &term_of(alloc, items).err())?.as_str() == slip)
}

#[test]
fn the_first_slip_is_told(rt: HostRuntime) {
    for (items, slip) in &SLIPS {
        assert!(rt; slips(rt.alloc(), items, slip) == Ok(true), "at {items}");
    }
}

const TEN: u128 = 0x0a00_0001;

const WEB: u128 = 0xc000_020a;

// An address in no network but ALL.
const FAR: u128 = 0x0808_0808;

const UDP: Packet = Packet {
    family: Family::V4,
    src: TEN,
    dst: FAR,
    proto: 17,
    sport: 9,
    dport: 9,
    flags: 0,
    itype: 0,
    icode: 0,
    conn: Conn::New,
};

const ACK: Packet = Packet {
    proto: 6,
    flags: 16,
    ..UDP
};

const SIX: Packet = Packet {
    family: Family::V6,
    proto: 58,
    ..UDP
};

const UNREACHABLE: Packet = Packet {
    proto: 1,
    sport: 0,
    dport: 0,
    itype: 3,
    ..UDP
};

// From 10.0.0.1 to the address in no network, and back.
const BACK: Packet = Packet {
    src: FAR,
    dst: TEN,
    ..UDP
};

const WITHIN: Packet = Packet { dst: TEN, ..UDP };

const FROM_53: Packet = Packet { sport: 53, ..UDP };

const TO_53: Packet = Packet { dport: 53, ..UDP };

// Items, how connections are known, a packet, and whether the term matches it.
static MATCHES: [(&str, Mode, Packet, bool); 46] = [
    // by protocols, families and each side's addresses
    ("action:: deny", Mode::Stateless, SIX, true),
    (
        "protocol:: icmp icmpv6 action:: deny",
        Mode::Stateless,
        SIX,
        true,
    ),
    (
        "protocol:: icmp icmpv6 action:: deny",
        Mode::Stateless,
        Packet { proto: 58, ..UDP },
        false,
    ),
    (
        "protocol:: tcp 17 destination-port:: BOTH action:: deny",
        Mode::Stateless,
        Packet { dport: 53, ..ACK },
        true,
    ),
    (
        "source-address:: TEN WEB action:: deny",
        Mode::Stateless,
        UDP,
        true,
    ),
    (
        "source-address:: TEN source-exclude:: TEN action:: deny",
        Mode::Stateless,
        UDP,
        false,
    ),
    (
        "source-exclude:: ALL action:: deny",
        Mode::Stateless,
        SIX,
        false,
    ),
    // by options
    (FREE, Mode::Stateless, Packet { dport: 53, ..ACK }, true),
    (NAMED, Mode::Stateless, Packet { dport: 53, ..ACK }, true),
    (FREE, Mode::Stateless, Packet { flags: 2, ..ACK }, false),
    (FREE, Mode::Stateless, TO_53, false),
    (NAMED, Mode::Stateless, TO_53, true),
    (FREE, Mode::Stateless, Packet { dport: 1024, ..UDP }, true),
    (NAMED, Mode::Stateless, Packet { dport: 1024, ..UDP }, false),
    (NAMED, Mode::Stateful, TO_53, false),
    (
        FREE,
        Mode::Stateful,
        Packet {
            conn: Conn::Related,
            ..TO_53
        },
        true,
    ),
    (
        NAMED,
        Mode::Stateful,
        Packet {
            conn: Conn::Established,
            ..TO_53
        },
        true,
    ),
    // by either address
    ("address:: TEN action:: deny", Mode::Stateless, UDP, true),
    ("address:: TEN action:: deny", Mode::Stateless, BACK, true),
    ("address:: TEN action:: deny", Mode::Stateless, WITHIN, true),
    (
        "address:: TEN action:: deny",
        Mode::Stateless,
        Packet { src: WEB, ..BACK },
        true,
    ),
    (
        "address:: TEN action:: deny",
        Mode::Stateless,
        Packet { dst: WEB, ..BACK },
        false,
    ),
    (
        "address:: TEN source-address:: WEB action:: deny",
        Mode::Stateless,
        Packet { src: WEB, ..BACK },
        true,
    ),
    (
        "address:: TEN source-address:: WEB action:: deny",
        Mode::Stateless,
        Packet { dst: WEB, ..UDP },
        false,
    ),
    (
        "address:: TEN source-exclude:: TEN action:: deny",
        Mode::Stateless,
        UDP,
        false,
    ),
    (
        "address:: TEN source-exclude:: TEN action:: deny",
        Mode::Stateless,
        BACK,
        true,
    ),
    (
        "address:: TEN source-exclude:: TEN action:: deny",
        Mode::Stateless,
        WITHIN,
        false,
    ),
    (
        "address:: TEN destination-exclude:: TEN action:: deny",
        Mode::Stateless,
        UDP,
        true,
    ),
    (
        "address:: TEN destination-exclude:: TEN action:: deny",
        Mode::Stateless,
        BACK,
        false,
    ),
    ("address:: ALL action:: deny", Mode::Stateless, UDP, true),
    ("address:: SIX action:: deny", Mode::Stateless, UDP, false),
    // by either port
    (
        "protocol:: udp port:: DNS action:: deny",
        Mode::Stateless,
        FROM_53,
        true,
    ),
    (
        "protocol:: udp port:: DNS action:: deny",
        Mode::Stateless,
        TO_53,
        true,
    ),
    (
        "protocol:: udp port:: DNS action:: deny",
        Mode::Stateless,
        UDP,
        false,
    ),
    (
        "protocol:: udp source-port:: DNS port:: DNS action:: deny",
        Mode::Stateless,
        TO_53,
        false,
    ),
    // of each service one protocol alone has the port
    (
        "protocol:: tcp udp port:: BOTH action:: deny",
        Mode::Stateless,
        Packet { dport: 80, ..UDP },
        true,
    ),
    // the port is asked of either side, so that no destination port is named
    (
        EITHER,
        Mode::Stateless,
        Packet {
            dport: 1024,
            ..FROM_53
        },
        true,
    ),
    (
        EITHER,
        Mode::Stateless,
        Packet {
            dport: 1023,
            ..FROM_53
        },
        false,
    ),
    (
        EITHER,
        Mode::Stateless,
        Packet {
            sport: 1024,
            ..TO_53
        },
        false,
    ),
    (EITHER, Mode::Stateless, Packet { dport: 53, ..ACK }, true),
    (
        EITHER,
        Mode::Stateless,
        Packet { dport: 1024, ..ACK },
        false,
    ),
    // by codes of ICMP
    (CODES, Mode::Stateless, UNREACHABLE, false),
    (
        CODES,
        Mode::Stateless,
        Packet {
            icode: 3,
            ..UNREACHABLE
        },
        true,
    ),
    (
        CODES,
        Mode::Stateless,
        Packet {
            icode: 4,
            ..UNREACHABLE
        },
        true,
    ),
    (
        CODES,
        Mode::Stateless,
        Packet {
            itype: 5,
            icode: 4,
            ..UNREACHABLE
        },
        false,
    ),
    (
        "protocol:: icmp icmp-type:: unreachable action:: deny",
        Mode::Stateless,
        Packet {
            icode: 255,
            ..UNREACHABLE
        },
        true,
    ),
];

// Known connections: to no port that is named, to one, and from or to one.
const FREE: &str = "protocol:: 6 17 option:: established action:: deny";

const NAMED: &str = "protocol:: 6 17 option:: established destination-port:: DNS action:: deny";

const EITHER: &str =
    "address:: TEN protocol:: tcp udp port:: DNS option:: established action:: deny";

const CODES: &str = "protocol:: icmp icmp-type:: unreachable icmp-code:: 4 3 action:: deny";

// Whether the term of these items matches the packet. `None` where there is no such term.
fn is_matched(alloc: Global, items: &str, mode: Mode, packet: &Packet) -> Option<bool> {
    let term = term_of(alloc, items).ok()?;
    Some(matches(&term, mode, packet))
}

#[test]
fn packets_are_matched(rt: HostRuntime) {
    for (place, (items, mode, packet, expected)) in MATCHES.iter().enumerate() {
        let found = is_matched(rt.alloc(), items, *mode, packet);
        assert!(rt; found == Some(*expected), "row {place} at {items}");
    }
}

// The items of a term with the first so many codes of a type.
fn with_codes(alloc: Global, count: u16) -> Result<String, Memory> {
    let mut items = String::from_str(
        alloc,
        "protocol:: icmp icmp-type:: 3 action:: deny icmp-code::",
    )?;
    for code in 0..count {
        let word = format!(in alloc; " {code}")?;
        items.push_str(word.as_str())?;
    }
    Ok(items)
}

fn code_term(alloc: Global, count: u16) -> Result<Term, Refusal> {
    term_of(alloc, with_codes(alloc, count)?.as_str())
}

// Whether a term with the first so many codes has all. `None` where there is no such term.
fn has_all_codes(alloc: Global, count: u16) -> Option<bool> {
    Some(code_term(alloc, count).ok()?.icodes.is_all())
}

#[test]
fn all_codes_are_all(rt: HostRuntime) {
    assert!(rt; has_all_codes(rt.alloc(), 255) == Some(false));
    assert!(rt; has_all_codes(rt.alloc(), 256) == Some(true));
}

fn mark(is_so: bool) -> &'static str {
    if is_so { "x" } else { "-" }
}

// A mark for each of the pairs of sides, in order: whether it is empty in IPv4.
fn marked_pairs(alloc: Global, term: &Term) -> Result<String, Memory> {
    let mut pairs = String::new(alloc);
    for pair in pairs_of(term) {
        pairs.push_str(mark(is_pair_empty(term, Family::V4, *pair)))?;
    }
    Ok(pairs)
}

// The marks of a term in a text: of its pairs; whether it is empty in IPv4 and in IPv6; and whether it is live today for
// Cisco and for Juniper.
fn is_marked(alloc: Global, term: &Term, text: &str) -> Result<bool, Memory> {
    let pairs = marked_pairs(alloc, term)?;
    let shown = format!(in alloc;
        "{pairs} {}{} {}{}",
        mark(is_empty_in(term, Family::V4)),
        mark(is_empty_in(term, Family::V6)),
        mark(is_live(term, Kind::Cisco, TODAY)),
        mark(is_live(term, Kind::Juniper, TODAY))
    )?;
    Ok(shown.as_str() == text)
}

// Whether these are the marks of the term of these items. `None` where there is no such term.
fn has_marks(alloc: Global, items: &str, text: &str) -> Option<bool> {
    let term = term_of(alloc, items).ok()?;
    is_marked(alloc, &term, text).ok()
}

// Source and source port, source and destination port, destination and source port, both destinations.
static SIDES: [(&str, &str); 25] = [
    ("action:: deny", "- -- xx"),
    ("source-address:: WEB action:: deny", "- -x xx"),
    ("source-address:: SIX action:: deny", "x x- xx"),
    (
        "destination-address:: WEB SIX destination-exclude:: WEB action:: deny",
        "x x- xx",
    ),
    ("protocol:: icmpv6 action:: deny", "x x- xx"),
    ("protocol:: icmp icmpv6 action:: deny", "- -- xx"),
    ("address:: TEN action:: deny", "-- -x xx"),
    ("address:: SIX action:: deny", "xx x- xx"),
    ("address:: ALL action:: deny", "-- -- xx"),
    (
        "address:: TEN source-exclude:: TEN action:: deny",
        "x- -x xx",
    ),
    (
        "address:: TEN destination-address:: WEB action:: deny",
        "-x -x xx",
    ),
    (
        "address:: WEB SIX source-exclude:: WEB action:: deny",
        "x- -- xx",
    ),
    (
        "address:: WEB source-exclude:: WEB destination-exclude:: WEB action:: deny",
        "xx xx xx",
    ),
    ("protocol:: icmp address:: SIX action:: deny", "xx xx xx"),
    (
        "protocol:: tcp source-port:: HTTP port:: DNS action:: deny",
        "x- -- xx",
    ),
    (
        "protocol:: tcp destination-port:: HTTP port:: DNS action:: deny",
        "-x -- xx",
    ),
    (
        "protocol:: tcp source-port:: HTTP destination-port:: HTTP port:: DNS action:: deny",
        "xx xx xx",
    ),
    (
        "address:: TEN protocol:: tcp port:: DNS action:: deny",
        "---- -x xx",
    ),
    (
        "address:: TEN source-exclude:: TEN protocol:: tcp source-port:: HTTP port:: DNS action:: deny",
        "xxx- -x xx",
    ),
    (
        "address:: TEN destination-exclude:: TEN protocol:: tcp destination-port:: HTTP port:: DNS action:: deny",
        "-xxx -x xx",
    ),
    // platforms and days
    ("platform:: arista action:: deny", "- -- --"),
    ("platform:: juniper arista action:: deny", "- -- -x"),
    (
        "platform-exclude:: cisco platform:: cisco action:: deny",
        "- -- --",
    ),
    ("expiration:: 2026-01-15 action:: deny", "- -- --"),
    ("expiration:: 2026-01-16 action:: deny", "- -- xx"),
];

#[test]
fn sides_are_empty_and_terms_live(rt: HostRuntime) {
    for (items, expected) in &SIDES {
        assert!(rt;
            has_marks(rt.alloc(), items, expected) == Some(true),
            "at {items}"
        );
    }
}
