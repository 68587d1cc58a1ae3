//! The EAP packet of an Access-Request.

ghost use Rattle.std.specs.Prelude.{◌≡◌, ◌≤◌, [], ◌∷◌, ◌++◌, length, IfOk, OnOk};
ghost use Rattle.diameter_avp.specs.Avps.{avps_text};
ghost use Rattle.diameter_message.specs.PlainAvps.{plain_avp};
ghost use Rattle.diameter_message.specs.Writer.{with_avps};
ghost use Rattle.eap_map.specs.Requests as specs;

use diameter_message::MessageWriter;
use diameter_message::avp_codes::EAP_PAYLOAD;
use radius_packet::Packet;
use std::alloc::Global;
use translation::is_eap;
use wire_core::NoMemory;

/// What the EAP-Messages of the packet hold, joined.
fn eap_packet(alloc: Global, packet: &Packet<'_>) -> Result<Vec<u8>, NoMemory>
    ensures { IfOk result (λ v. v.items ≡ specs.eap_packet packet.now.attributes) }
{
    let mut joined = Vec::new(alloc);
    for attribute in packet.attributes() {
        if is_eap(&attribute) {
            joined.extend_from_slice(attribute.value)?;
        }
    }
    Ok(joined)
}

/// Puts the EAP-Payload, which has room.
pub(crate) fn put_payload(
    alloc: Global,
    writer: &mut MessageWriter,
    packet: &Packet<'_>,
) -> Result<(), NoMemory>
    requires { length (avps_text (writer.old.avps.list
        ++ plain_avp 462 (specs.eap_packet packet.now.attributes) ∷ [])) ≤ 65516 }
    ensures { OnOk result (writer.new
        ≡ with_avps writer.old (plain_avp 462 (specs.eap_packet packet.now.attributes) ∷ [])) }
{
    let packet = eap_packet(alloc, packet)?;
    writer.put_with_room(EAP_PAYLOAD, None, true, packet.as_slice())
}
