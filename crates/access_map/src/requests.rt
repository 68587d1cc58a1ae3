//! The AA-Request of an Access-Request (RFC 4005, sections 3.1 and 9).

ghost use Rattle.std.specs.Prelude.{◌≡◌, ◌≤◌, ◌++◌, length, false, None, IsTrue, IfOk, IfSome, OnOk};
ghost use Rattle.std.specs.List.{list_any};
ghost use Rattle.radius_packet.specs.Views.{attribute_view};
ghost use Rattle.diameter_avp.specs.Avps.{avps_text};
ghost use Rattle.diameter_message.specs.Message.{IsMessage};
ghost use Rattle.diameter_message.specs.Writer.{list_length, with_avps};
ghost use Rattle.session_carrier.specs.Route.{route_view};
ghost use Rattle.session_carrier.specs.declared.kept.Kind2.TheVariants as kind;
ghost use Rattle.agent_settings.specs.Config.{ClientInLimits};
ghost use Rattle.translation.specs.declared.direction.Direction.TheVariants.{Access};
ghost use Rattle.translation.specs.Values.{is_good, first_bad};
ghost use Rattle.access_map.specs.Passing as passing;
ghost use Rattle.access_map.specs.Requests.{access_image, pieces, request_avps, request_header};
ghost use Rattle.access_map.specs.Verdict.{is_bad_password, IsJudged};

use crate::codes::{CHAP_PASSWORD, USER_PASSWORD};
use crate::passwords::{put_chap_password, put_password};
use agent_settings::Client;
use diameter_message::applications::NASREQ;
use diameter_message::command_codes::AA;
use diameter_message::command_flags::{PROXIABLE, REQUEST};
use diameter_message::{Header, MessageWriter};
use radius_packet::{Attribute, Packet};
use session_carrier::{Numbers, Route};
use std::alloc::Global;
use translation::{Direction, Seen, put_auth_head, put_common};
use wire_core::{NoMemory, Octets};

/// Puts what an attribute gives, and notes that it was seen.
#[tactic(auto, unfolding(crate::specs::Passing::piece_after, crate::specs::Passing::noted))]
fn put_piece(
    writer: &mut MessageWriter,
    client: &Client,
    packet: &Packet<'_>,
    authenticator: &[u8; 16],
    attribute: &Attribute<'_>,
    seen: &mut Seen,
) -> Result<(), NoMemory>
    requires authenticator { authenticator.now ≡ packet.now.authenticator }
    requires value { IsTrue (is_good Access (attribute_view attribute.now)) }
    requires password { is_bad_password (attribute_view attribute.now) ≡ false }
    requires room { length (avps_text (writer.old.avps.list ++ passing.piece_after client.now
        packet.now seen.old (attribute_view attribute.now))) ≤ 65516 }
    ensures put { OnOk result (writer.new ≡ with_avps writer.old
        (passing.piece_after client.now packet.now seen.old (attribute_view attribute.now))) }
    ensures noted { OnOk result (seen.new ≡ passing.noted seen.old (attribute_view attribute.now)) }
{
    match attribute.code {
        USER_PASSWORD => {
            let secret = client.secret.as_slice();
            put_password(writer, secret, authenticator, attribute.value)
        }
        CHAP_PASSWORD => put_chap_password(writer, packet, authenticator, attribute.value),
        _ => put_common(writer, Direction::Access, packet, attribute, seen),
    }
}

/// Puts what the attributes give, in order.
fn put_pieces(
    writer: &mut MessageWriter,
    client: &Client,
    packet: &Packet<'_>,
) -> Result<(), NoMemory>
    requires few { list_length writer.old ≤ 1500 }
    requires values { first_bad Access packet.now.attributes ≡ None }
    requires passwords { list_any is_bad_password packet.now.attributes ≡ false }
    ensures { OnOk result (writer.new ≡ with_avps writer.old (pieces client.now packet.now)) }
{
    let authenticator = packet.authenticator();
    let mut seen = Seen::nothing();
    for attribute in packet.attributes() {
        put_piece(
            writer,
            client,
            packet,
            &authenticator,
            &attribute,
            &mut seen,
        )?;
    }
    Ok(())
}

/// The AA-Request of an Access-Request that `judge` gives Access for: the AVPs of its head, and then what its attributes give, in order.
pub fn request(
    alloc: Global,
    client: &Client,
    packet: &Packet<'_>,
    route: &Route<'_>,
    numbers: Numbers,
) -> Result<Octets, NoMemory>
    requires judged { IsJudged client.now packet.now kind.Access }
    requires session { length (route_view route.now).session ≤ 244 }
    requires realm { length (route_view route.now).realm ≤ 255 }
    requires host { IfSome (route_view route.now).host (λ host. length host ≤ 255) }
    requires client { ClientInLimits client.now }
    ensures text { IfOk result
        (λ o. o ≡ access_image client.now packet.now (route_view route.now) numbers) }
    // It is a message, so it can be sent again.
    ensures message { IfOk result (λ o. IsMessage o (request_header numbers)
        (avps_text (request_avps client.now packet.now (route_view route.now)))) }
{
    let header = Header {
        flags: REQUEST | PROXIABLE,
        command: AA,
        application: NASREQ,
        hop: numbers.hop,
        end: numbers.end,
    };
    let mut writer = MessageWriter::new(alloc, header)?;
    put_auth_head(&mut writer, NASREQ, client, packet, route)?;
    put_pieces(&mut writer, client, packet)?;
    Ok(writer.finish())
}
