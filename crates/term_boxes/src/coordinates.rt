ghost use Rattle.std.specs.Prelude.{◌≡◌, ◌<◌, ◌≤◌};
ghost use Rattle.std.specs.Int.{bit_at};
ghost use Rattle.term_boxes.specs.Coordinates.{AreWithin, connection_at, flags_at, packet_at, tops_of};

use acl_packet::{Conn, Family, Packet};

fn bit_at(number: u8, place: u8) -> u8
    requires { place < 8 }
    ensures exact { result ≡ bit_at number place }
    ensures small { result ≤ 1 }
{
    (number >> place) & 1
}

// The flags of a place: those of options count most there.
fn flags_at(place: u8) -> u8
    ensures { result ≡ flags_at place }
{
    32 * bit_at(place, 2)
        + 16 * bit_at(place, 5)
        + 8 * bit_at(place, 1)
        + 4 * bit_at(place, 4)
        + 2 * bit_at(place, 3)
        + bit_at(place, 0)
}

fn connection_at(place: u8) -> Conn
    ensures { result ≡ connection_at place }
{
    match place {
        0 => Conn::New,
        1 => Conn::Invalid,
        2 => Conn::Established,
        _ => Conn::Related,
    }
}

/// The packet of the family with the nine numbers: source, destination, protocol, source port, destination port, type,
/// code, flags and connection.
///
/// Flags are told by a place among 64: ACK counts 32 there, RST 16, SYN 8, URG 4, PSH 2 and FIN 1. A connection is
/// told by its place in the order New, Invalid, Established, Related.
pub fn packet_at(family: Family, numbers: &[u128]) -> Packet
    requires { AreWithin (tops_of family) numbers.now }
    ensures { result ≡ packet_at family numbers.now }
{
    Packet {
        src: numbers[0],
        dst: numbers[1],
        sport: numbers[3] as u16,
        dport: numbers[4] as u16,
        family,
        proto: numbers[2] as u8,
        flags: flags_at(numbers[7] as u8),
        itype: numbers[5] as u8,
        icode: numbers[6] as u8,
        conn: connection_at(numbers[8] as u8),
    }
}
