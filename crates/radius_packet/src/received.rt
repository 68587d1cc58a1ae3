//! A packet that was received.

ghost use Rattle.std.specs.Prelude.{◌≡◌, ◌≤◌, ◌↔◌, ℕ, IfOk, Ok, Err, length, drop};
ghost use Rattle.std.specs.List.{AllByRecursion};
ghost use Rattle.std.specs.Result.{result_err};
ghost use Rattle.radius_packet.specs.Packet.{PacketParts, IsPacket, attributes_text, packet_text, whole, BreaksAt, read_packet, read_attributes};
ghost use Rattle.radius_packet.specs.Faults.{IsShort, HasBadLength, HasBadAttribute};

use crate::attribute_list::Attributes;
use crate::fault::PacketFault;
use crate::sizes::{HEADER, MOST};
use std::marker::Model;
use wire_core::get_u16;

/// A packet in the octets of a datagram. Contracts see it as its parts.
#[derive(Drop)]
pub struct Packet<'a> {
    octets: &'a [u8],
}

impl<'a> Model for Packet<'a> {
    ghost use Rattle.radius_packet.specs.Packet.{PacketParts, IsPacket, packet_in};

    ghost Value = { PacketParts };

    ghost view = { λ p. packet_in p.octets.now };

    ghost invariant = { λ p. IsPacket p.octets.now (packet_in p.octets.now) };
}

/// The place of the first attribute that is not whole.
fn check_attributes(octets: &[u8]) -> Result<(), PacketFault>
    ensures { result_err result ≡ result_err (read_attributes (drop 20 octets.now) 0 20) }
{
    let mut place = HEADER;
    while place < octets.len() {
        if octets.len() - place < 2 {
            return Err(PacketFault::BadAttribute { place });
        }
        let size = octets[place + 1] as usize;
        if size < 2 || octets.len() - place < size {
            return Err(PacketFault::BadAttribute { place });
        }
        place += size;
    }
    Ok(())
}

impl<'a> Packet<'a> {
    /// Reads the packet at the front of a datagram. Octets past its Length are padding.
    pub fn parse(octets: &'a [u8]) -> Result<Packet<'a>, PacketFault>
        // What is read is a packet, and a packet is read.
        ensures found { IfOk result (λ p. IsPacket (whole octets.now) p) }
        ensures only { (p : PacketParts) → IsPacket (whole octets.now) p → result ≡ Ok p }
        // Which fault it is, and at which place.
        ensures place { (place : ℕ) → result ≡ Err (PacketFault.BadAttribute place)
            → BreaksAt (whole octets.now) place }
        ensures exact { result ≡ read_packet octets.now }
        // Exactly when each fault comes.
        ensures short { (result ≡ Err PacketFault.Short) ↔ IsShort octets.now }
        ensures bad_length { (result ≡ Err PacketFault.BadLength) ↔ HasBadLength octets.now }
        ensures bad_attribute { (place : ℕ)
            → (result ≡ Err (PacketFault.BadAttribute place)) ↔ HasBadAttribute octets.now place }
    {
        Packet::read(octets)
    }

    fn read(octets: &'a [u8]) -> Result<Packet<'a>, PacketFault>
        ensures found { IfOk result (λ p. IsPacket (whole octets.now) p) }
        ensures exact { result ≡ read_packet octets.now }
    {
        if octets.len() < HEADER {
            return Err(PacketFault::Short);
        }
        let length = get_u16(octets, 2) as usize;
        if length < HEADER || MOST < length {
            return Err(PacketFault::BadLength);
        }
        if octets.len() < length {
            return Err(PacketFault::Short);
        }
        let octets = &octets[..length];
        check_attributes(octets)?;
        Ok(Packet { octets })
    }

    /// The code.
    pub fn code(&self) -> u8
        ensures { result ≡ self.now.code }
    {
        self.octets[0]
    }

    /// The identifier.
    pub fn id(&self) -> u8
        ensures { result ≡ self.now.id }
    {
        self.octets[1]
    }

    /// The authenticator.
    pub fn authenticator(&self) -> [u8; 16]
        ensures { result ≡ self.now.authenticator }
    {
        let mut authenticator = [0; 16];
        authenticator.copy_from_slice(&self.octets[4..HEADER]);
        authenticator
    }

    /// The octets up to Length.
    pub fn whole(&self) -> &'a [u8]
        ensures value { result.now ≡ packet_text self.now }
        ensures packet { IsPacket result.now self.now }
    {
        self.octets
    }

    /// The attributes, in order.
    pub fn attributes(&self) -> Attributes<'a>
        ensures value { result ≡ self.now.attributes }
        ensures count { length self.now.attributes ≤ 2038 }
        ensures size { length (attributes_text self.now.attributes) ≤ 4076 }
        ensures values { AllByRecursion (λ a. length a.value ≤ 253) self.now.attributes }
    {
        Attributes::new(&self.octets[HEADER..])
    }
}
