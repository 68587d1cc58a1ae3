//! Values in the attributes of a packet.

ghost use Rattle.std.specs.Prelude.{◌≡◌};
ghost use Rattle.std.specs.Option.{option_copied};
ghost use Rattle.accounting_map.specs.Numbers as specs;

use radius_packet::Packet;
use wire_core::get_u32;

/// The number in four octets, else 0.
pub(crate) fn number_in(value: &[u8]) -> u32
    ensures { result ≡ specs.number_in value.now }
{
    if value.len() == 4 {
        get_u32(value, 0)
    } else {
        0
    }
}

/// The value of the first attribute of a type.
pub(crate) fn first_value<'a>(packet: &Packet<'a>, code: u8) -> Option<&'a [u8]>
    ensures { option_copied result ≡ specs.first_value code packet.now.attributes }
{
    for attribute in packet.attributes() {
        if attribute.code == code {
            return Some(attribute.value);
        }
    }
    None
}

/// The number in the first attribute of a type.
pub(crate) fn first_number(packet: &Packet<'_>, code: u8) -> Option<u32>
    ensures { result ≡ specs.first_number code packet.now.attributes }
{
    match first_value(packet, code) {
        Some(value) => Some(number_in(value)),
        None => None,
    }
}
