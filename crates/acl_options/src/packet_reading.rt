ghost use Rattle.std.specs.Prelude.{◌≡◌, IfNone, IfSome, option_map};
ghost use Rattle.acl_packet.specs.declared.packets.Packet.{Packet as PacketData};
ghost use Rattle.acl_options.specs.PacketTexts.{IsPacketText};
ghost use Rattle.acl_options.specs.PacketTextSteps.{
  address_ahead,
  alone_in,
  conn_in,
  if_fits,
  number_ahead,
  packet_behind,
  packet_in,
};

use acl_packet::{Conn, Family, Packet, Prefix, is_packet};
use acl_text::{contains_byte, read_prefix, read_u8, read_u16, split_at_byte};

/// The packet that the text spells: nine words with one space between.
///
/// They are the source and the destination, addresses of one family without a length, in any spelling that
/// `acl_text::read_prefix` takes; the protocol, the source port, the destination port, the flags of TCP, the type and the
/// code of ICMP, as numbers in decimal digits; and `new`, `established`, `related` or `invalid`. None where they are not,
/// or where the fields are those of no packet (`acl_packet::is_packet`). What `put_packet` puts of a packet is read as that
/// packet. No memory is taken.
pub fn read_packet(text: &[u8]) -> Option<Packet>
    ensures some { IfSome result (λ p. IsPacketText text.now p) }
    ensures none { IfNone result ((p : PacketData) → IsPacketText text.now p → ⊥) }
    ensures exact { result ≡ packet_in text.now }
{
    packet_of(text)
}

#[tactic(auto, unfolding(crate::specs::PacketTextSteps::packet_in))]
fn packet_of(text: &[u8]) -> Option<Packet>
    ensures { result ≡ packet_in text.now }
{
    let (source, rest) = address_ahead(text)?;
    let (destination, rest) = address_ahead(rest)?;
    if source.family == destination.family {
        packet_behind(source.family, source.first, destination.first, rest)
    } else {
        None
    }
}

#[tactic(auto, unfolding(crate::specs::PacketTextSteps::packet_behind))]
fn packet_behind(family: Family, src: u128, dst: u128, text: &[u8]) -> Option<Packet>
    ensures { result ≡ packet_behind family src dst text.now }
{
    let (proto, rest) = byte_ahead(text)?;
    let (sport, rest) = port_ahead(rest)?;
    let (dport, rest) = port_ahead(rest)?;
    let (flags, rest) = byte_ahead(rest)?;
    let (itype, rest) = byte_ahead(rest)?;
    let (icode, rest) = byte_ahead(rest)?;
    let conn = read_conn(rest)?;
    if_fits(Packet {
        src,
        dst,
        sport,
        dport,
        family,
        proto,
        flags,
        itype,
        icode,
        conn,
    })
}

fn if_fits(packet: Packet) -> Option<Packet>
    ensures { result ≡ if_fits packet }
{
    if is_packet(&packet) {
        Some(packet)
    } else {
        None
    }
}

// An address without a length, as the prefix of it alone.
#[tactic(auto, unfolding(crate::specs::PacketTextSteps::alone_in))]
fn read_alone(word: &[u8]) -> Option<Prefix>
    ensures { result ≡ alone_in word.now }
{
    if contains_byte(word, b'/') {
        None
    } else {
        read_prefix(word)
    }
}

// The address in front of a space, and what stands behind it.
#[tactic(auto, unfolding(crate::specs::PacketTextSteps::address_ahead))]
fn address_ahead(text: &[u8]) -> Option<(Prefix, &[u8])>
    ensures { option_map (λ p. (p.0, p.1.now)) result ≡ address_ahead text.now }
{
    let (word, rest) = split_at_byte(text, b' ')?;
    let address = read_alone(word)?;
    Some((address, rest))
}

// The number of 8 bits in front of a space, and what stands behind it.
#[tactic(auto, unfolding(crate::specs::PacketTextSteps::number_ahead))]
fn byte_ahead(text: &[u8]) -> Option<(u8, &[u8])>
    ensures { option_map (λ p. (p.0, p.1.now)) result ≡ number_ahead 255 text.now }
{
    let (word, rest) = split_at_byte(text, b' ')?;
    let number = read_u8(word, 255)?;
    Some((number, rest))
}

// The number of 16 bits in front of a space, and what stands behind it.
#[tactic(auto, unfolding(crate::specs::PacketTextSteps::number_ahead))]
fn port_ahead(text: &[u8]) -> Option<(u16, &[u8])>
    ensures { option_map (λ p. (p.0, p.1.now)) result ≡ number_ahead 65535 text.now }
{
    let (word, rest) = split_at_byte(text, b' ')?;
    let number = read_u16(word, 65535)?;
    Some((number, rest))
}

#[tactic(auto, unfolding(crate::specs::PacketTextSteps::conn_in))]
fn read_conn(word: &[u8]) -> Option<Conn>
    ensures { result ≡ conn_in word.now }
{
    if word == b"new".as_slice() {
        Some(Conn::New)
    } else if word == b"established".as_slice() {
        Some(Conn::Established)
    } else if word == b"related".as_slice() {
        Some(Conn::Related)
    } else if word == b"invalid".as_slice() {
        Some(Conn::Invalid)
    } else {
        None
    }
}
