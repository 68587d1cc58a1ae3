//! What an answer to a request for access causes (RFC 4005, sections 3.2 and 9; RFC 4072, section 3.2).

ghost use Rattle.std.specs.Prelude.{◌≡◌, ◌≤◌, not, length, IfOk};
ghost use Rattle.radius_packet.specs.Packet.{attributes_in, attributes_text};
ghost use Rattle.diameter_message.specs.View.{message_view};
ghost use Rattle.diameter_message.specs.Results as results;
ghost use Rattle.agent_settings.specs.Config.{ClientInLimits};
ghost use Rattle.translation.specs.AvpList.{list_view};
ghost use Rattle.translation.specs.Replies as replies;
ghost use Rattle.translation.specs.Answers as specs;
ghost use Rattle.translation.specs.Attempts as attempts;
ghost use Rattle.translation.specs.declared.class.Class.TheVariants.{Bad};

use crate::answer_reading::{
    first_identity, has_bad_payload, has_key, has_own_session, has_unknown, kind_of,
};
use crate::avp_list::{first_number, read};
use crate::class::Class;
use crate::codes::ACCESS_REJECT;
use crate::replies::{bare_reply, reply};
use crate::service::Service;
use crate::terminations::termination;
use agent_settings::Client;
use diameter_avp::Avp;
use diameter_message::applications::{EAP, NASREQ};
use diameter_message::avp_codes::{ORIGIN_HOST, RESULT_CODE};
use diameter_message::command_flags::ERROR;
use diameter_message::{Header, Message, is_success};
use session_carrier::{Kept, Numbers, Outcome};
use std::alloc::Global;
use wire_core::{NoMemory, Octets};

/// DIAMETER_BAD_ANSWER (RFC 6733, section 8.15).
const BAD_ANSWER: u32 = 3;

/// Whether flag E is set (RFC 6733, section 3).
pub fn is_error(header: &Header) -> bool
    ensures { result ≡ specs.is_error header.now }
{
    header.flags & ERROR != 0
}

/// The first Result-Code of four octets, else 0.
pub fn result_code(list: &[Avp<'_>]) -> u32
    ensures { result ≡ results.result_code (list_view list.now) }
{
    first_number(list, RESULT_CODE).unwrap_or(0)
}

/// Whether there is a key that the client may not get, in a success.
fn has_refused_key(client: &Client, list: &[Avp<'_>]) -> bool
    ensures { result ≡ specs.has_refused_key client.now (list_view list.now) }
{
    !client.omit_keys && is_success(result_code(list)) && has_key(list)
}

/// The class of an answer without flag E, as far as it is known before its reply is written.
fn first_kind(
    kind: Class,
    service: Service,
    client: &Client,
    kept: &Kept,
    list: &[Avp<'_>],
) -> Class
    ensures { result ≡ attempts.first_kind kind service client.now kept.now (list_view list.now) }
{
    if !has_own_session(list, kept.session.as_slice()) {
        return Class::Bad;
    }
    if has_unknown(list) {
        return Class::Bad;
    }
    if has_refused_key(client, list) {
        return Class::Bad;
    }
    if has_bad_payload(service, kind, list) {
        return Class::Bad;
    }
    kind
}

fn first_class(
    service: Service,
    client: &Client,
    kept: &Kept,
    header: &Header,
    list: &[Avp<'_>],
) -> Class
    ensures { result
        ≡ attempts.first_class service client.now kept.now header.now (list_view list.now) }
{
    if is_error(header) {
        Class::Refusal
    } else {
        first_kind(kind_of(result_code(list)), service, client, kept, list)
    }
}

/// The reply, unless the answer is bad.
fn sound_reply(
    alloc: Global,
    service: Service,
    client: &Client,
    kept: &Kept,
    header: &Header,
    list: &[Avp<'_>],
) -> Result<Option<Octets>, NoMemory>
    requires session { length kept.now.session ≤ 244 }
    requires whole { kept.now.proxy ≡ attributes_text (attributes_in kept.now.proxy) }
    ensures { let avps = list_view list.now in let class = specs.class_of service client.now
        kept.now header.now avps in
        IfOk result (λ o. o
        ≡ attempts.unless_bad class (replies.access_reply service class client.now kept.now avps)) }
{
    let strict = !is_error(header);
    match first_class(service, client, kept, header, list) {
        Class::Bad => Ok(None),
        class => reply(alloc, service, class, client, kept, list, strict),
    }
}

fn application_of(service: Service) -> u32
    ensures { result ≡ specs.application_of service }
{
    match service {
        Service::Nasreq => NASREQ,
        Service::Eap => EAP,
    }
}

/// The request that ends the session of a bad answer, where the server granted it.
fn bad_follow(
    alloc: Global,
    service: Service,
    client: &Client,
    kept: &Kept,
    list: &[Avp<'_>],
    numbers: Numbers,
) -> Result<Option<Octets>, NoMemory>
    requires client { ClientInLimits client.now }
    requires realm { length kept.now.realm ≤ 255 }
    requires session { length kept.now.session ≤ 1024 }
    ensures { IfOk result
        (λ o. o ≡ specs.bad_follow service client.now kept.now (list_view list.now) numbers) }
{
    if !is_success(result_code(list)) {
        return Ok(None);
    }
    let application = application_of(service);
    let host = first_identity(list, ORIGIN_HOST);
    let request = termination(alloc, client, kept, application, BAD_ANSWER, host, numbers)?;
    Ok(Some(request))
}

fn bad_outcome(
    alloc: Global,
    service: Service,
    client: &Client,
    kept: &Kept,
    list: &[Avp<'_>],
    numbers: Numbers,
) -> Result<Outcome, NoMemory>
    requires client { ClientInLimits client.now }
    requires realm { length kept.now.realm ≤ 255 }
    requires session { length kept.now.session ≤ 1024 }
    requires whole { kept.now.proxy ≡ attributes_text (attributes_in kept.now.proxy) }
    requires proxy { length kept.now.proxy ≤ 2048 }
    ensures { IfOk result
        (λ o. o ≡ specs.outcome_of Bad service client.now kept.now (list_view list.now) numbers) }
{
    let reply = bare_reply(alloc, client, kept, ACCESS_REJECT, true)?;
    let follow = bad_follow(alloc, service, client, kept, list, numbers)?;
    Ok(Outcome {
        reply: Some(reply),
        follow,
    })
}

/// What the answer to a request for access causes: the Access-Accept, Access-Challenge or Access-Reject, and for a bad
/// answer that granted the session the request that ends it (RFC 4005, section 9; RFC 4072, section 3.2).
pub fn answer(
    alloc: Global,
    service: Service,
    client: &Client,
    kept: &Kept,
    message: &Message<'_>,
    numbers: Numbers,
) -> Result<Outcome, NoMemory>
    requires client { ClientInLimits client.now }
    requires realm { length kept.now.realm ≤ 255 }
    requires session { length kept.now.session ≤ 244 }
    requires whole { kept.now.proxy ≡ attributes_text (attributes_in kept.now.proxy) }
    requires proxy { length kept.now.proxy ≤ 2048 }
    ensures { IfOk result
        (λ o. o ≡ specs.outcome service client.now kept.now (message_view message.now) numbers) }
{
    let Some(list) = read(alloc, message.avps)? else {
        return bad_outcome(alloc, service, client, kept, &[], numbers);
    };
    let list = list.as_slice();
    match sound_reply(alloc, service, client, kept, &message.header, list)? {
        Some(reply) => Ok(Outcome {
            reply: Some(reply),
            follow: None,
        }),
        None => bad_outcome(alloc, service, client, kept, list, numbers),
    }
}
