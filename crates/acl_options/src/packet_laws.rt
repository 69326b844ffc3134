ghost use Rattle.std.specs.Prelude.{◌≡◌, ℕ, List, Some};
ghost use Rattle.acl_packet.specs.Packets.{IsPacket};
ghost use Rattle.acl_packet.specs.declared.packets.Packet.{Packet};
ghost use Rattle.acl_options.specs.PacketTexts.{IsPacketText, packet_text};
ghost use Rattle.acl_options.specs.PacketTextSteps.{packet_in};

/// What `put_packet` puts of a packet is read as that packet.
pub fn packets_are_read_again()
    ensures spelled { (p : Packet) → IsPacket p → IsPacketText (packet_text p) p }
    ensures read { (p : Packet) → IsPacket p → packet_in (packet_text p) ≡ Some p }
{}

/// A text is that of one packet at most.
pub fn texts_have_one_packet()
    ensures { (text : List ℕ) (p q : Packet) → IsPacketText text p → IsPacketText text q → p ≡ q }
{}
