ghost use Rattle.std.specs.Prelude.{◌≡◌, [], ◌∷◌, IsTrue, decimal};
ghost use Rattle.acl_rows.specs.Rows.{spaced};
ghost use Rattle.acl_text.specs.AddressTexts.{address_text};
ghost use Rattle.acl_text.specs.Puts.{Puts};
ghost use Rattle.acl_options.specs.PacketTexts.{conn_text, packet_text, words_behind};

use acl_packet::{Conn, Packet};
use acl_rows::{Address, Number, OneWord, Words};
use acl_text::{Out, PutFault, put_address};

fn conn_text(conn: Conn) -> &'static [u8]
    ensures { result.now ≡ conn_text conn }
{
    match conn {
        Conn::New => b"new",
        Conn::Established => b"established",
        Conn::Related => b"related",
        Conn::Invalid => b"invalid",
    }
}

fn number(number: u16) -> OneWord<Number>
    ensures { result.piece.number ≡ number }
{
    OneWord {
        piece: Number {
            number: u128::from(number),
        },
    }
}

// Puts the words behind the source, each behind a space.
fn put_behind<O: Out>(out: &mut O, packet: &Packet) -> Result<(), PutFault>
    requires { IsTrue (O.is_open out.old) }
    ensures { Puts O.Out out.old out.new
        (spaced (address_text packet.now.family packet.now.dst ∷ words_behind packet.now)) result }
{
    let destination = OneWord {
        piece: Address {
            family: packet.family,
            address: packet.dst,
        },
    };
    let ports = (number(packet.sport), number(packet.dport));
    let icmp = (
        number(u16::from(packet.itype)),
        number(u16::from(packet.icode)),
    );
    let conn = OneWord {
        piece: conn_text(packet.conn),
    };
    let behind_ports = (number(u16::from(packet.flags)), (icmp, conn));
    let words = (
        destination,
        (number(u16::from(packet.proto)), (ports, behind_ports)),
    );
    words.put_spaced(out)
}

/// Puts the text of the packet: nine words with one space between, as `read_packet` reads them, with the addresses as
/// `acl_text::put_address` puts them. It refuses only as a `put` did, and takes no memory of its own.
#[tactic(auto, unfolding(crate::specs::PacketTexts::packet_text))]
pub fn put_packet<O: Out>(out: &mut O, packet: &Packet) -> Result<(), PutFault>
    requires { IsTrue (O.is_open out.old) }
    ensures { Puts O.Out out.old out.new (packet_text packet.now) result }
{
    put_address(out, packet.family, packet.src)?;
    put_behind(out, packet)
}
