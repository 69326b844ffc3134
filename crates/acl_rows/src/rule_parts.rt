ghost use Rattle.std.specs.Prelude.{◌≡◌};
ghost use Rattle.std.specs.List.{list_any};
ghost use Rattle.acl_packet.specs.Addresses.{has_address};
ghost use Rattle.acl_rows.specs.RuleParts.{
  addresses_hold,
  has_port,
  has_port_proto,
  is_empty,
  is_proto,
  log_words,
  number_fits,
  number_holds,
  ports_hold,
  set_holds,
  state_holds,
};

use crate::pieces::{Words, put_words};
use acl_packet::{Conn, Packet, Prefix, any_has, has_ports};
use acl_text::{Out, PutFault};

/// The bit of SYN among TCP's flags (RFC 9293 section 3.1).
pub const SYN: u8 = 2;

/// The bit of RST.
pub const RST: u8 = 4;

/// The bit of ACK.
pub const ACK: u8 = 16;

/// The end of the packets that addresses and ports are of.
#[derive(Clone, Copy)]
pub enum End {
    Source,
    Destination,
}

/// Whether the protocol is asked for.
pub fn is_proto(proto: Option<u8>, number: u8) -> bool
    ensures { result ≡ is_proto proto number }
{
    match proto {
        Some(proto) => proto == number,
        None => false,
    }
}

/// Whether a protocol that has ports is asked for: TCP, UDP or SCTP.
pub fn has_port_proto(proto: Option<u8>) -> bool
    ensures { result ≡ has_port_proto proto }
{
    match proto {
        Some(proto) => has_ports(proto),
        None => false,
    }
}

/// Whether the number is the wanted one, where one is wanted.
pub fn number_holds(wanted: Option<u8>, number: u8) -> bool
    ensures { result ≡ number_holds wanted number }
{
    match wanted {
        Some(wanted) => number == wanted,
        None => true,
    }
}

/// Whether the number, where one is written, is neither below the least nor above the most.
pub fn number_fits(least: u8, most: u8, number: Option<u8>) -> bool
    ensures { result ≡ number_fits least most number }
{
    match number {
        Some(number) => least <= number && number <= most,
        None => true,
    }
}

/// Whether the prefixes have the packet's addresses, end by end, where they are written.
pub fn admit_addresses(src: &[Prefix], dst: &[Prefix], packet: &Packet) -> bool
    ensures { result ≡ addresses_hold src.now dst.now packet.now }
{
    admits_address(src, packet.src) && admits_address(dst, packet.dst)
}

// Whether one of the prefixes has the address, or none is written.
fn admits_address(prefixes: &[Prefix], address: u128) -> bool
    ensures { result ≡ set_holds has_address prefixes.now address }
{
    is_empty(prefixes) || any_has(prefixes, address)
}

/// Whether the ranges have the packet's ports, end by end, where they are written.
pub fn admit_ports(sports: &[(u16, u16)], dports: &[(u16, u16)], packet: &Packet) -> bool
    ensures { result ≡ ports_hold sports.now dports.now packet.now }
{
    admits_port(sports, packet.sport) && admits_port(dports, packet.dport)
}

// Whether one of the ranges has the port, or none is written.
fn admits_port(ranges: &[(u16, u16)], port: u16) -> bool
    ensures { result ≡ set_holds has_port ranges.now port }
{
    is_empty(ranges) || any_has_port(ranges, port)
}

fn any_has_port(ranges: &[(u16, u16)], port: u16) -> bool
    ensures { result ≡ list_any (λ e. has_port e port) ranges.now }
{
    ranges
        .iter()
        .any(|range| range.0 <= port && port <= range.1)
}

/// Whether nothing is written.
pub fn is_empty<T>(items: &[T]) -> bool
    ensures { result ≡ is_empty items.now }
{
    items.is_empty()
}

/// Whether the packet belongs to a known connection, where one is asked for.
pub fn state_holds(wanted: bool, conn: Conn) -> bool
    ensures { result ≡ state_holds wanted conn }
{
    !wanted || conn.is_tracked()
}

/// The word `log`, where a log is asked for.
#[derive(Clone, Copy)]
pub struct LogWord {
    pub log: bool,
}

impl Words for LogWord {
    ghost words = { λ l. log_words l.log };

    #[tactic(auto, unfolding(crate::specs::RuleParts::log_words))]
    #[inline]
    fn put_spaced<O: Out>(&self, out: &mut O) -> Result<(), PutFault> {
        if self.log {
            put_words(&[b"log"], out)
        } else {
            Ok(())
        }
    }
}
