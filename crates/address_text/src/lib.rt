//! IPv4 addresses as text (profile).
#![tactic(auto)]

ghost use Rattle.std.specs.Prelude.{◌≡◌};
ghost use Rattle.address_text.specs.Address.{address_in};

use std::net::Ipv4Addr;
use wire_core::get_u32;

/// The IPv4 address that a text is: four decimal numbers up to 255, without leading zeros, with dots between them.
pub fn read_address(text: &[u8]) -> Option<u32>
    ensures { result ≡ address_in text.now }
{
    match Ipv4Addr::parse_ascii(text) {
        Ok(address) => Some(get_u32(&address.octets(), 0)),
        Err(_) => None,
    }
}
