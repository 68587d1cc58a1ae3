//! The Diameter-EAP-Request of an Access-Request (RFC 4072, section 3.1; RFC 4005, section 9).

ghost use Rattle.std.specs.Prelude.{◌≡◌, ◌≤◌, ◌++◌, length, None, IsTrue, IfOk, IfSome, OnOk};
ghost use Rattle.radius_packet.specs.Views.{attribute_view};
ghost use Rattle.diameter_avp.specs.Avps.{avps_text};
ghost use Rattle.diameter_message.specs.Message.{IsMessage};
ghost use Rattle.diameter_message.specs.Writer.{list_length, with_avps};
ghost use Rattle.session_carrier.specs.Route.{route_view};
ghost use Rattle.agent_settings.specs.Config.{ClientInLimits};
ghost use Rattle.translation.specs.declared.direction.Direction.TheVariants.{Access};
ghost use Rattle.translation.specs.Values.{is_good, first_bad};
ghost use Rattle.eap_map.specs.Passing as passing;
ghost use Rattle.eap_map.specs.Requests.{eap_image, pieces, request_avps, request_header};

use crate::payload::put_payload;
use crate::seen::EapSeen;
use agent_settings::Client;
use diameter_message::applications::EAP;
use diameter_message::command_codes::DIAMETER_EAP;
use diameter_message::command_flags::{PROXIABLE, REQUEST};
use diameter_message::{Header, MessageWriter};
use radius_packet::{Attribute, Packet};
use session_carrier::{Numbers, Route};
use std::alloc::Global;
use translation::{Direction, is_eap, put_auth_head, put_common};
use wire_core::{NoMemory, Octets};

/// Puts what an attribute gives, and notes that it was seen.
#[tactic(auto, unfolding(crate::specs::Passing::piece_after, crate::specs::Passing::noted))]
fn put_piece(
    alloc: Global,
    writer: &mut MessageWriter,
    packet: &Packet<'_>,
    attribute: &Attribute<'_>,
    seen: &mut EapSeen,
) -> Result<(), NoMemory>
    requires value { IsTrue (is_good Access (attribute_view attribute.now)) }
    requires room { length (avps_text (writer.old.avps.list
        ++ passing.piece_after packet.now seen.old (attribute_view attribute.now))) ≤ 65516 }
    ensures put { OnOk result (writer.new ≡ with_avps writer.old
        (passing.piece_after packet.now seen.old (attribute_view attribute.now))) }
    ensures noted { OnOk result (seen.new ≡ passing.noted seen.old (attribute_view attribute.now)) }
{
    if !is_eap(attribute) {
        return put_common(
            writer,
            Direction::Access,
            packet,
            attribute,
            &mut seen.common,
        );
    }
    if seen.eap {
        return Ok(());
    }
    seen.eap = true;
    put_payload(alloc, writer, packet)
}

/// Puts what the attributes give, in order.
fn put_pieces(
    alloc: Global,
    writer: &mut MessageWriter,
    packet: &Packet<'_>,
) -> Result<(), NoMemory>
    requires few { list_length writer.old ≤ 1500 }
    requires values { first_bad Access packet.now.attributes ≡ None }
    ensures { OnOk result (writer.new ≡ with_avps writer.old (pieces packet.now)) }
{
    let mut seen = EapSeen::nothing();
    for attribute in packet.attributes() {
        put_piece(alloc, writer, packet, &attribute, &mut seen)?;
    }
    Ok(())
}

/// The Diameter-EAP-Request of an Access-Request in which no value is bad: the AVPs of its head, and then what its
/// attributes give, in order.
pub fn request(
    alloc: Global,
    client: &Client,
    packet: &Packet<'_>,
    route: &Route<'_>,
    numbers: Numbers,
) -> Result<Octets, NoMemory>
    requires values { first_bad Access packet.now.attributes ≡ None }
    requires session { length (route_view route.now).session ≤ 244 }
    requires realm { length (route_view route.now).realm ≤ 255 }
    requires host { IfSome (route_view route.now).host (λ host. length host ≤ 255) }
    requires client { ClientInLimits client.now }
    ensures text { IfOk result
        (λ o. o ≡ eap_image client.now packet.now (route_view route.now) numbers) }
    // It is a message, so it can be sent again.
    ensures message { IfOk result (λ o. IsMessage o (request_header numbers)
        (avps_text (request_avps client.now packet.now (route_view route.now)))) }
{
    let header = Header {
        flags: REQUEST | PROXIABLE,
        command: DIAMETER_EAP,
        application: EAP,
        hop: numbers.hop,
        end: numbers.end,
    };
    let mut writer = MessageWriter::new(alloc, header)?;
    put_auth_head(&mut writer, EAP, client, packet, route)?;
    put_pieces(alloc, &mut writer, packet)?;
    Ok(writer.finish())
}
