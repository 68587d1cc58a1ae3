//! What requests to authenticate begin with (RFC 4005, section 3.1; RFC 4072, section 3.1).

ghost use Rattle.std.specs.Prelude.{◌≡◌, ◌≤◌, length, IfSome, OnOk};
ghost use Rattle.radius_packet.specs.Views.{attribute_view};
ghost use Rattle.diameter_message.specs.Writer.{list_length, Puts};
ghost use Rattle.session_carrier.specs.Route.{route_view};
ghost use Rattle.agent_settings.specs.Config.{ClientInLimits};
ghost use Rattle.translation.specs.Heads as specs;

use crate::codes::{CHAP_PASSWORD, EAP_MESSAGE, USER_PASSWORD};
use crate::names::put_host;
use agent_settings::Client;
use diameter_message::MessageWriter;
use diameter_message::avp_codes::{
    AUTH_APPLICATION_ID, AUTH_REQUEST_TYPE, DESTINATION_REALM, ORIGIN_AAA_PROTOCOL, SESSION_ID,
};
use radius_packet::{Attribute, Packet};
use session_carrier::Route;
use wire_core::NoMemory;

/// Auth-Request-Types (RFC 6733, section 8.7).
const AUTHORIZE_ONLY: u32 = 2;

const AUTHORIZE_AUTHENTICATE: u32 = 3;

/// The Origin-AAA-Protocol of RFC 4005, section 9.3.6.
const RADIUS: u32 = 1;

/// Puts the names that a request begins with.
fn put_auth_names(
    writer: &mut MessageWriter,
    application: u32,
    client: &Client,
    route: &Route<'_>,
) -> Result<(), NoMemory>
    requires empty { list_length writer.old ≡ 0 }
    requires session { length (route_view route.now).session ≤ 244 }
    requires realm { length (route_view route.now).realm ≤ 255 }
    requires origin_host { length client.now.origin_host ≤ 64 }
    requires origin_realm { length client.now.origin_realm ≤ 64 }
    ensures { OnOk result (Puts writer.old writer.new
        (specs.auth_names application client.now (route_view route.now)) 900) }
{
    writer.put_plain(SESSION_ID, route.session)?;
    writer.put_number(AUTH_APPLICATION_ID, application)?;
    writer.put_origin(
        client.origin_host.as_slice(),
        client.origin_realm.as_slice(),
    )?;
    writer.put_plain(DESTINATION_REALM, route.realm)
}

/// Whether this is an EAP-Message (RFC 3579, section 3.1).
pub fn is_eap(attribute: &Attribute<'_>) -> bool
    ensures { result ≡ specs.is_eap (attribute_view attribute.now) }
{
    attribute.code == EAP_MESSAGE
}

fn is_credential(attribute: &Attribute<'_>) -> bool
    ensures { result ≡ specs.is_credential (attribute_view attribute.now) }
{
    attribute.code == USER_PASSWORD || attribute.code == CHAP_PASSWORD || is_eap(attribute)
}

/// The Auth-Request-Type.
fn request_type(packet: &Packet<'_>) -> u32
    ensures { result ≡ specs.request_type packet.now }
{
    if packet.attributes().any(|a| is_credential(&a)) {
        AUTHORIZE_AUTHENTICATE
    } else {
        AUTHORIZE_ONLY
    }
}

/// Puts the AVPs that stand before the images in a request of an application that authenticates.
#[tactic(auto, using(crate::proofs::ClientLimits::host_is_short, crate::proofs::ClientLimits::realm_is_short))]
pub fn put_auth_head(
    writer: &mut MessageWriter,
    application: u32,
    client: &Client,
    packet: &Packet<'_>,
    route: &Route<'_>,
) -> Result<(), NoMemory>
    requires empty { list_length writer.old ≡ 0 }
    requires session { length (route_view route.now).session ≤ 244 }
    requires realm { length (route_view route.now).realm ≤ 255 }
    requires host { IfSome (route_view route.now).host (λ host. length host ≤ 255) }
    requires client { ClientInLimits client.now }
    ensures { OnOk result (Puts writer.old writer.new
        (specs.auth_head application client.now packet.now (route_view route.now)) 1500) }
{
    put_auth_names(writer, application, client, route)?;
    put_host(writer, route.host)?;
    writer.put_number(AUTH_REQUEST_TYPE, request_type(packet))?;
    writer.put_number(ORIGIN_AAA_PROTOCOL, RADIUS)
}
