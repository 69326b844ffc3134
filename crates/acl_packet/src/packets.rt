ghost use Rattle.std.specs.Prelude.{◌≡◌, ◌<◌, ◌↔◌, ◌^◌, IsTrue};
ghost use Rattle.acl_packet.specs.Addresses.{width_of};
ghost use Rattle.acl_packet.specs.Packets.{
  IsPacket,
  has_flag,
  has_ports,
  is_extension_header,
  is_icmp,
};

use crate::addresses::Family;
use crate::packet_fields::are_fitting;

/// What connection tracking says of a packet's connection.
#[derive(Clone, Copy, PartialEq, Eq)]
pub enum Conn {
    New,
    Established,
    Related,
    Invalid,
}

impl Conn {
    ghost use Rattle.acl_packet.specs.Packets.{is_tracked};

    /// Whether the connection is known already, or one that is known asked for it (nftables(8), "ct state").
    pub fn is_tracked(self) -> bool
        ensures { result ≡ is_tracked self }
    {
        matches!(self, Conn::Established | Conn::Related)
    }
}

/// What a filter sees of a packet that is no fragment.
///
/// Addresses are numbers. `proto` is the number in the IPv4 header, or the IPv6 header's next header.
/// `flags` has FIN 1, SYN 2, RST 4, PSH 8, ACK 16 and URG 32. A field that the packet has not is 0.
#[derive(Clone, Copy, PartialEq, Eq)]
pub struct Packet {
    pub src: u128,
    pub dst: u128,
    pub sport: u16,
    pub dport: u16,
    pub family: Family,
    pub proto: u8,
    pub flags: u8,
    pub itype: u8,
    pub icode: u8,
    pub conn: Conn,
}

impl Packet {
    ghost use Rattle.acl_packet.specs.Packets.{has_ack_or_rst, is_initial, is_neighbour_discovery};

    /// Whether ACK or RST is set: the packet does not open a connection of TCP (RFC 9293 section 3.5).
    pub fn has_ack_or_rst(&self) -> bool
        ensures { result ≡ has_ack_or_rst self.now }
    {
        has_flag(self.flags, 16) || has_flag(self.flags, 4)
    }

    /// Whether SYN is set and ACK is not: the packet opens a connection of TCP.
    pub fn is_initial(&self) -> bool
        ensures { result ≡ is_initial self.now }
    {
        has_flag(self.flags, 2) && !has_flag(self.flags, 16)
    }

    /// Whether a packet of IPv6 is a neighbour solicitation or advertisement (RFC 4861 sections 4.3 and 4.4).
    pub fn is_neighbour_discovery(&self) -> bool
        ensures { result ≡ is_neighbour_discovery self.now }
    {
        self.proto == 58 && (self.itype == 136 || self.itype == 135)
    }
}

/// Whether the fields are those of a packet: the addresses are of its family, no extension header stands
/// for its protocol, and each field that its protocol has not is 0.
pub fn is_packet(p: &Packet) -> bool
    ensures { IsTrue result ↔ IsPacket p.now }
{
    let Packet {
        src,
        dst,
        sport: _,
        dport: _,
        family,
        proto,
        flags,
        itype: _,
        icode: _,
        conn: _,
    } = *p;
    if !is_address(family, src) || !is_address(family, dst) {
        return false;
    }
    if family == Family::V6 && is_extension_header(proto) {
        return false;
    }
    if flags >= 64 || (proto != 6 && flags != 0) {
        return false;
    }
    are_fitting(p)
}

/// Whether the flag, one of the bits of `Packet::flags`, is set among the flags.
pub fn has_flag(flags: u8, flag: u8) -> bool
    ensures { result ≡ has_flag flags flag }
{
    flags & flag != 0
}

fn is_address(family: Family, address: u128) -> bool
    ensures { IsTrue result ↔ (address < 2 ^ width_of family) }
{
    match family {
        Family::V4 => address <= 0xffff_ffff,
        Family::V6 => true,
    }
}

/// Whether packets of the protocol have ports: TCP, UDP and SCTP (RFC 9293, RFC 768, RFC 9260).
pub fn has_ports(proto: u8) -> bool
    ensures { result ≡ has_ports proto }
{
    proto == 6 || proto == 17 || proto == 132
}

/// Whether packets of the protocol are ICMP of the family.
pub(crate) fn is_icmp(family: Family, proto: u8) -> bool
    ensures { result ≡ is_icmp family proto }
{
    proto == family.icmp_number()
}

fn is_extension_header(proto: u8) -> bool
    ensures { result ≡ is_extension_header proto }
{
    matches!(proto, 0 | 43 | 44 | 51 | 59 | 60 | 135 | 139 | 140)
}
