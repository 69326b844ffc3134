ghost use Rattle.acl_packet.specs.Packets.{IsPacket};

use crate::tests::runs::{DATED, Left, NONE, left_by_aclgen};
use acl_packet::{Conn, Family, Outcome, Packet, Verdict, is_packet};
use acl_target::Kind;
use acl_text::Memory;
use std::alloc::Global;
use std::str;

const REMARK: &str = "__ _ term x _ then accept_ _ __";

// A term whose comment has the marks of all languages.
fn hostile_policy(alloc: Global, target: &str, action: &str) -> Result<String, Memory> {
    let text = format!(in alloc;
        "header {{
  target:: {target}
}}
term t {{
  comment:: \"*/ }} term x {{ then accept; }} /*\"
  action:: {action}
}}
"
    )?;
    Ok(text)
}

// What the text's section does to the packet, where it is a text of one section.
fn outcome_of(
    alloc: Global,
    kind: Kind,
    text: &[u8],
    packet: &Packet,
) -> Result<Option<Outcome>, Memory>
    requires { IsPacket packet.now }
{
    match acl_filters::sections(alloc, kind, text)? {
        Some(1) => acl_filters::outcome(alloc, kind, text, 0, packet),
        _ => Ok(None),
    }
}

// The first packet of a connection of TCP from 192.0.2.1 to 192.0.2.10.
const PACKET: Packet = Packet {
    family: Family::V4,
    src: 0xc000_0201,
    dst: 0xc000_020a,
    proto: 6,
    sport: 1024,
    dport: 80,
    flags: 2,
    itype: 0,
    icode: 0,
    conn: Conn::New,
};

static PACKETS: [Packet; 3] = [
    PACKET,
    Packet {
        proto: 17,
        flags: 0,
        conn: Conn::Established,
        ..PACKET
    },
    Packet {
        src: 0,
        dst: 0xffff_ffff,
        proto: 1,
        sport: 0,
        dport: 0,
        flags: 0,
        itype: 255,
        conn: Conn::Invalid,
        ..PACKET
    },
];

// Whether the text is one section with the remark, and does that to each of the packets.
fn decides(alloc: Global, kind: Kind, text: &[u8], verdict: Verdict) -> Result<bool, Memory> {
    for packet in &PACKETS {
        if !is_packet(packet)
            || outcome_of(alloc, kind, text, packet)? != Some(Outcome::unlogged(verdict))
        {
            return Ok(false);
        }
    }
    match str::from_utf8(text) {
        Ok(text) => Ok(text.contains(REMARK)),
        Err(_) => Ok(false),
    }
}

static PLATFORMS: [(Kind, &str, &str); 4] = [
    (Kind::Cisco, "cisco edge extended", "out/a.acl"),
    (Kind::Juniper, "juniper edge", "out/a.jcl"),
    (Kind::Iptables, "iptables INPUT", "out/a.ipt"),
    (Kind::Nftables, "nftables inet input", "out/a.nft"),
];

static ACTIONS: [(&str, Verdict); 2] = [("accept", Verdict::Accept), ("deny", Verdict::Deny)];

// Whether the run is done, and what its file does to packets is this.
fn is_decided(
    alloc: Global,
    left: &Left,
    kind: Kind,
    path: &str,
    verdict: Verdict,
) -> Result<bool, Memory> {
    match left.tree.file(path) {
        Some(text) => Ok(left.status == 0 && decides(alloc, kind, text, verdict)?),
        None => Ok(false),
    }
}

// What the platform's file does is what the term does, whatever its comment says.
fn is_of_the_term_alone(
    alloc: Global,
    platform: &(Kind, &str, &str),
    action: &(&str, Verdict),
) -> Result<bool, Memory> {
    let (kind, target, path) = *platform;
    let (word, verdict) = *action;
    let policy = hostile_policy(alloc, target, word)?;
    let left = left_by_aclgen(alloc, policy.as_bytes(), DATED, &NONE)?;
    is_decided(alloc, &left, kind, path, verdict)
}

#[test]
fn a_hostile_comment_is_a_remark(rt: HostRuntime) {
    for platform in &PLATFORMS {
        for action in &ACTIONS {
            assert!(rt;
                is_of_the_term_alone(rt.alloc(), platform, action) == Ok(true),
                "{} {}",
                platform.1,
                action.0
            );
        }
    }
}
