//! Answers to requests for access.

ghost use Rattle.std.specs.Prelude.{◌≡◌, ◌≤◌, length, find, option_map, IfOk};
ghost use Rattle.radius_packet.specs.Packet.{attributes_in, attributes_text};
ghost use Rattle.diameter_avp.specs.View.{avp_view};
ghost use Rattle.translation.specs.AvpList.{list_view};
ghost use Rattle.attribute_table.specs.Rows as rows;
ghost use Rattle.translation.specs.Answers as answers;
ghost use Rattle.translation.specs.Pushing as pushing;
ghost use Rattle.translation.specs.Reading as reading;
ghost use Rattle.answer_causes.specs.Causes as specs;

use crate::cause::Cause;
use agent_settings::Client;
use attribute_table::{backward, row_of_avp};
use diameter_avp::Avp;
use diameter_message::{Header, is_success};
use session_carrier::Kept;
use std::alloc::Global;
use translation::{
    Class, Service, carrier_value, goes_back, has_bad_payload, has_own_session, holds_key,
    is_bad_timeout, is_error, is_group, is_too_long, is_unknown, kind_of, result_code,
};
use tunnel_map::check_group;
use wire_core::NoMemory;

/// The first AVP that must be understood and isn't.
fn first_unknown<'a>(list: &[Avp<'a>]) -> Option<Avp<'a>>
    ensures { option_map avp_view result ≡ find reading.is_unknown (list_view list.now) }
{
    list.iter().find(|avp| is_unknown(avp)).copied()
}

/// The first key, or group with a key.
fn first_key<'a>(list: &[Avp<'a>]) -> Option<Avp<'a>>
    ensures { option_map avp_view result ≡ find reading.holds_key (list_view list.now) }
{
    list.iter().find(|avp| holds_key(avp)).copied()
}

/// The case of an AVP that must be understood and isn't.
pub(crate) fn unknown(list: &[Avp<'_>]) -> Option<Cause>
    ensures { result ≡ specs.unknown (list_view list.now) }
{
    match first_unknown(list) {
        Some(Avp { code, vendor, .. }) => Some(Cause::UnknownAvp { code, vendor }),
        None => None,
    }
}

/// The case of a key that the client doesn't get.
fn refused_key(client: &Client, list: &[Avp<'_>]) -> Option<Cause>
    ensures { result ≡ specs.refused_key client.now (list_view list.now) }
{
    if !is_success(result_code(list)) || client.omit_keys {
        return None;
    }
    match first_key(list) {
        Some(Avp { code, .. }) => Some(Cause::KeyRefused { code }),
        None => None,
    }
}

/// Whether the value of an AVP of a row can't be an attribute of this reply.
fn is_bad_value(class: Class, avp: &Avp<'_>) -> bool
    ensures { result ≡ reading.is_bad_value class (rows.row_of_avp avp.now.code) avp.now.body.now }
{
    match row_of_avp(avp.code) {
        Some(row) => goes_back(class, &row) && backward(&row, avp.body).is_err(),
        None => false,
    }
}

/// Whether a group can't be attributes of this reply.
fn is_bad_group(class: Class, number: u8, avp: &Avp<'_>) -> bool
    ensures { result ≡ reading.is_bad_group class number (avp_view avp.now) }
{
    class == Class::Success && is_group(avp) && check_group(avp.body, number).is_err()
}

/// Whether an AVP can't be attributes of this reply.
fn is_faulty(class: Class, number: u8, avp: &Avp<'_>) -> bool
    ensures { result ≡ reading.is_faulty class number (avp_view avp.now) }
{
    avp.vendor.is_none()
        && (is_bad_timeout(class, avp)
            || is_bad_value(class, avp)
            || is_bad_group(class, number, avp))
}

fn next_number(number: u8, avp: &Avp<'_>) -> u8
    ensures { result ≡ pushing.next_number number (avp_view avp.now) }
{
    if is_group(avp) {
        number.saturating_add(1)
    } else {
        number
    }
}

/// The first AVP that must become attributes of this reply and can't.
fn bad_value(class: Class, list: &[Avp<'_>]) -> Option<Cause>
    ensures { result ≡ specs.bad_value class (list_view list.now) }
{
    let mut number = 1;
    for avp in list {
        if avp.mandatory && is_faulty(class, number, avp) {
            return Some(Cause::BadValue { code: avp.code });
        }
        number = next_number(number, avp);
    }
    None
}

/// The first of these cases that stands by an AVP.
fn avp_cause(kind: Class, client: &Client, list: &[Avp<'_>]) -> Option<Cause>
    ensures { result ≡ specs.avp_cause kind client.now (list_view list.now) }
{
    if let Some(cause) = unknown(list) {
        return Some(cause);
    }
    if let Some(cause) = refused_key(client, list) {
        return Some(cause);
    }
    bad_value(kind, list)
}

/// Whether the State of a challenge can't be made.
fn is_stateless(alloc: Global, kind: Class, kept: &Kept, list: &[Avp<'_>]) -> Result<bool, NoMemory>
    requires session { length kept.now.session ≤ 244 }
    ensures { IfOk result
        (λ stateless. stateless ≡ answers.is_stateless kind kept.now (list_view list.now)) }
{
    let carrier = carrier_value(alloc, kind, kept.session.as_slice(), list)?;
    Ok(kind == Class::Challenge && carrier.is_none())
}

/// Why an answer without flag E is bad, or a State or a reply can't be made.
fn kind_cause(
    alloc: Global,
    kind: Class,
    service: Service,
    client: &Client,
    kept: &Kept,
    list: &[Avp<'_>],
) -> Result<Option<Cause>, NoMemory>
    requires session { length kept.now.session ≤ 244 }
    requires whole { kept.now.proxy ≡ attributes_text (attributes_in kept.now.proxy) }
    ensures { IfOk result
        (λ cause. cause ≡ specs.kind_cause kind service client.now kept.now (list_view list.now)) }
{
    if !has_own_session(list, kept.session.as_slice()) {
        return Ok(Some(Cause::OtherSession));
    }
    if let Some(cause) = avp_cause(kind, client, list) {
        return Ok(Some(cause));
    }
    if has_bad_payload(service, kind, list) {
        return Ok(Some(Cause::EapPayload));
    }
    if is_stateless(alloc, kind, kept, list)? {
        return Ok(Some(Cause::NoState));
    }
    if is_too_long(alloc, service, kind, client, kept, list)? {
        return Ok(Some(Cause::TooLong));
    }
    Ok(None)
}

/// Why the answer to a request for access is bad.
pub(crate) fn access_cause(
    alloc: Global,
    service: Service,
    client: &Client,
    kept: &Kept,
    header: &Header,
    list: &[Avp<'_>],
) -> Result<Option<Cause>, NoMemory>
    requires session { length kept.now.session ≤ 244 }
    requires whole { kept.now.proxy ≡ attributes_text (attributes_in kept.now.proxy) }
    ensures { IfOk result (λ cause. cause
        ≡ specs.access_cause service client.now kept.now header.now (list_view list.now)) }
{
    if !is_error(header) {
        return kind_cause(
            alloc,
            kind_of(result_code(list)),
            service,
            client,
            kept,
            list,
        );
    }
    if is_too_long(alloc, service, Class::Refusal, client, kept, list)? {
        return Ok(Some(Cause::TooLong));
    }
    Ok(None)
}
