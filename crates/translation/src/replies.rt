//! Packets that answer requests (RFC 2865, section 4; RFC 2866, section 4.2).

ghost use Rattle.std.specs.Prelude.{◌≡◌, ◌≤◌, ◌&&◌, length, false, not, Some, is_none, IfOk};
ghost use Rattle.radius_packet.specs.Packet.{attributes_in, attributes_text};
ghost use Rattle.session_carrier.specs.Session.{class_text, state_text};
ghost use Rattle.translation.specs.AvpList.{list_view};
ghost use Rattle.translation.specs.Replies as specs;
ghost use Rattle.translation.specs.Reading as reading;
ghost use Rattle.translation.specs.Answers as answers;
ghost use Rattle.translation.specs.Attempts as attempts;

use crate::answer_reading::first_identity;
use crate::class::Class;
use crate::codes::{ACCESS_ACCEPT, ACCESS_CHALLENGE, ACCESS_REJECT};
use crate::pushing::{Unfit, push_all};
use crate::service::Service;
use agent_settings::Client;
use diameter_avp::Avp;
use diameter_message::avp_codes::{ORIGIN_HOST, ORIGIN_REALM};
use radius_packet::Reply;
use session_carrier::{CarrierFault, Kept, class_of, state_of};
use std::alloc::Global;
use wire_core::{NoMemory, Octets};

fn reply_code(class: Class) -> u8
    ensures { result ≡ specs.reply_code class }
{
    match class {
        Class::Success => ACCESS_ACCEPT,
        Class::Challenge => ACCESS_CHALLENGE,
        Class::Refusal | Class::Bad => ACCESS_REJECT,
    }
}

/// The packet of this code with the Proxy-States of the request alone (RFC 2865, section 5.33).
#[tactic(auto, unfolding(crate::specs::Replies::bare_reply))]
pub fn bare_reply(
    alloc: Global,
    client: &Client,
    kept: &Kept,
    code: u8,
    sealed: bool,
) -> Result<Octets, NoMemory>
    requires whole { kept.now.proxy ≡ attributes_text (attributes_in kept.now.proxy) }
    requires proxy { length kept.now.proxy ≤ 2048 }
    ensures { IfOk result (λ o. o ≡ specs.bare_reply client.now kept.now code sealed) }
{
    let mut reply = Reply::new(alloc, code, kept.id, kept.authenticator, sealed)?;
    reply.push_joined(kept.proxy.as_slice()).unwrap();
    Ok(reply.finish(client.secret.as_slice()))
}

/// The Class of a session.
fn class_value(alloc: Global, session: &[u8]) -> Result<Option<Octets>, NoMemory>
    requires { length session.now ≤ 244 }
    ensures { IfOk result (λ value. value ≡ Some (class_text session.now)) }
{
    match class_of(alloc, session) {
        Ok(class) => Ok(Some(class)),
        Err(CarrierFault::NoMemory) => Err(NoMemory),
        Err(CarrierFault::TooLong) => unreachable!(),
    }
}

/// The State of these parts, where it fits.
fn short_state(
    alloc: Global,
    host: &[u8],
    realm: &[u8],
    session: &[u8],
) -> Result<Option<Octets>, NoMemory>
    ensures { IfOk result
        (λ value. value ≡ reading.short_value (state_text host.now realm.now session.now)) }
{
    match state_of(alloc, host, realm, session) {
        Ok(state) => Ok(Some(state)),
        Err(CarrierFault::NoMemory) => Err(NoMemory),
        Err(CarrierFault::TooLong) => Ok(None),
    }
}

/// The State that the answer to a challenge brings back, where it can be made.
fn state_value(alloc: Global, session: &[u8], list: &[Avp<'_>]) -> Result<Option<Octets>, NoMemory>
    ensures { IfOk result (λ value. value ≡ reading.state_value session.now (list_view list.now)) }
{
    let Some(host) = first_identity(list, ORIGIN_HOST) else {
        return Ok(None);
    };
    let Some(realm) = first_identity(list, ORIGIN_REALM) else {
        return Ok(None);
    };
    short_state(alloc, host, realm, session)
}

/// What carries the session in a reply of this class: none in a refusal, nor where the State of a challenge can't be made.
pub fn carrier_value(
    alloc: Global,
    class: Class,
    session: &[u8],
    list: &[Avp<'_>],
) -> Result<Option<Octets>, NoMemory>
    requires { length session.now ≤ 244 }
    ensures { IfOk result
        (λ value. value ≡ specs.carrier_value class session.now (list_view list.now)) }
{
    match class {
        Class::Success => class_value(alloc, session),
        Class::Challenge => state_value(alloc, session, list),
        Class::Refusal | Class::Bad => Ok(None),
    }
}

/// Whether this is a challenge without State.
fn is_stateless(class: Class, carrier: &Option<Octets>) -> bool
    ensures { result ≡ (reading.is_challenge class && is_none carrier.now) }
{
    class == Class::Challenge && carrier.is_none()
}

/// The reply of this class. None where it can't be made: a challenge without State, a packet that would pass 4096
/// octets, and with `strict` a fault in an AVP with M set.
pub(crate) fn reply(
    alloc: Global,
    service: Service,
    class: Class,
    client: &Client,
    kept: &Kept,
    list: &[Avp<'_>],
    strict: bool,
) -> Result<Option<Octets>, NoMemory>
    requires session { length kept.now.session ≤ 244 }
    requires whole { kept.now.proxy ≡ attributes_text (attributes_in kept.now.proxy) }
    ensures { IfOk result
        (λ o. o ≡ attempts.reply_in service class client.now kept.now (list_view list.now) strict) }
{
    let carrier = carrier_value(alloc, class, kept.session.as_slice(), list)?;
    if is_stateless(class, &carrier) {
        return Ok(None);
    }
    let mut reply = Reply::new(alloc, reply_code(class), kept.id, kept.authenticator, true)?;
    let proxy = kept.proxy.as_slice();
    match push_all(&mut reply, service, class, &carrier, list, proxy, strict) {
        Ok(()) => Ok(Some(reply.finish(client.secret.as_slice()))),
        Err(Unfit) => Ok(None),
    }
}

/// Whether the reply of this class has more octets than a packet may have, with what is at fault left out.
pub fn is_too_long(
    alloc: Global,
    service: Service,
    class: Class,
    client: &Client,
    kept: &Kept,
    list: &[Avp<'_>],
) -> Result<bool, NoMemory>
    requires session { length kept.now.session ≤ 244 }
    requires whole { kept.now.proxy ≡ attributes_text (attributes_in kept.now.proxy) }
    requires carrier { answers.is_stateless class kept.now (list_view list.now) ≡ false }
    ensures { IfOk result (λ long. long ≡ not
        (specs.fits_packet (specs.reply_attributes service class kept.now (list_view list.now)))) }
{
    let reply = reply(alloc, service, class, client, kept, list, false)?;
    Ok(reply.is_none())
}
