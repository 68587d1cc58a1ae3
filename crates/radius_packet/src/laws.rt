//! Laws of packets.

ghost use Rattle.std.specs.Prelude.{◌≡◌, ℕ, List};
ghost use Rattle.radius_packet.specs.Packet.{PacketParts, IsPacket};

/// Octets are a packet in one way at most.
pub fn one_reading()
    ensures { (octets : List ℕ) (p q : PacketParts) → IsPacket octets p → IsPacket octets q
        → p ≡ q }
{}
