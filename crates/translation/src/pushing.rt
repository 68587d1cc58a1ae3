//! The attributes of a reply, pushed where nothing is at fault.

ghost use Rattle.std.specs.Prelude.{◌≡◌, ◌+◌, ◌≤◌, true, not, ◌&&◌, ◌||◌, [], ◌∷◌, ◌++◌, length, is_ok, is_err, is_some, IfSome};
ghost use Rattle.wire_core.specs.Numbers.{u32 as text32};
ghost use Rattle.radius_packet.specs.Packet.{attributes_in, attributes_text};
ghost use Rattle.radius_packet.specs.Seals.{reply_length};
ghost use Rattle.diameter_avp.specs.Avps.{is_mandatory};
ghost use Rattle.diameter_avp.specs.View.{avp_view};
ghost use Rattle.attribute_table.specs.Rows as rows;
ghost use Rattle.attribute_table.specs.Images.{backward_image};
ghost use Rattle.tunnel_map.specs.Groups.{group_fault};
ghost use Rattle.translation.specs.AvpList.{list_view};
ghost use Rattle.translation.specs.Reading as reading;
ghost use Rattle.translation.specs.Replies as replies;
ghost use Rattle.translation.specs.Replies.{attribute, optional};
ghost use Rattle.translation.specs.Pushing as specs;
ghost use Rattle.translation.specs.Pushing.{Pushes};

use crate::answer_reading::{fits_vendor, goes_back, is_bad_timeout, is_group, is_key_avp};
use crate::avp_list::{first, first_number};
use crate::class::Class;
use crate::codes::{
    CLASS, EAP_MESSAGE, SESSION_TIMEOUT, STATE, TERMINATION_ACTION, VENDOR_SPECIFIC,
};
use crate::service::Service;
use attribute_table::{Row, backward, row_of_avp};
use diameter_avp::Avp;
use diameter_message::avp_codes;
use radius_packet::{Full, Reply};
use tunnel_map::{check_group, push_group};
use wire_core::{Octets, put_u32};

/// How many octets the value of an attribute has at most (RFC 2865, section 5).
const MOST_VALUE: usize = 253;

/// RADIUS-Request (RFC 2865, section 5.29): at the end of the session a new Access-Request is made.
const RADIUS_REQUEST: u32 = 1;

/// A value is at fault, or the packet would pass 4096 octets.
#[derive(Clone, Copy)]
pub struct Unfit;

/// Pushes an attribute, where the packet has room for it.
pub fn push(reply: &mut Reply, code: u8, value: &[u8]) -> Result<(), Unfit>
    requires value { length value.now ≤ 253 }
    ensures { Pushes reply.old reply.new (is_ok result) true (attribute code value.now ∷ []) }
{
    match reply.push(code, value) {
        Ok(()) => Ok(()),
        Err(Full) => Err(Unfit),
    }
}

fn push_number(reply: &mut Reply, code: u8, value: u32) -> Result<(), Unfit>
    ensures { Pushes reply.old reply.new (is_ok result) true (attribute code (text32 value) ∷ []) }
{
    push(reply, code, &value.to_be_bytes())
}

/// Refuses a fault that can't be passed over.
pub fn pass_over(must: bool) -> Result<(), Unfit>
    ensures { is_ok result ≡ not must }
{
    if must { Err(Unfit) } else { Ok(()) }
}

/// Pushes the value that the AVP of a row has in RADIUS. A value at fault is passed over, or with `must` refused.
pub fn push_value(reply: &mut Reply, row: &Row, body: &[u8], must: bool) -> Result<(), Unfit>
    requires short { reply_length reply.old ≤ 4096 }
    ensures { let image = backward_image row.now body.now in
        Pushes reply.old reply.new (is_ok result) (not (must && is_err image))
        (replies.value_attributes row.now.code image) }
{
    match backward(row, body) {
        Ok(image) => push(reply, row.code, image.octets()),
        Err(_) => pass_over(must),
    }
}

/// Pushes the attribute of an AVP that has a row of this reply.
fn push_row(reply: &mut Reply, class: Class, avp: &Avp<'_>, must: bool) -> Result<(), Unfit>
    requires short { reply_length reply.old ≤ 4096 }
    ensures { let row = rows.row_of_avp avp.now.code in
        Pushes reply.old reply.new (is_ok result)
        (not (must && reading.is_bad_value class row avp.now.body.now))
        (replies.row_attributes class row avp.now.body.now) }
{
    match row_of_avp(avp.code) {
        Some(row) if goes_back(class, &row) => push_value(reply, &row, avp.body, must),
        _ => Ok(()),
    }
}

/// Pushes the attributes of a group, tagged with its number.
fn push_tagged(reply: &mut Reply, body: &[u8], number: u8, must: bool) -> Result<(), Unfit>
    requires short { reply_length reply.old ≤ 4096 }
    ensures { let fault = group_fault number body.now in
        Pushes reply.old reply.new (is_ok result) (not (must && is_some fault))
        (replies.sound_group fault number body.now) }
{
    if check_group(body, number).is_err() {
        return pass_over(must);
    }
    match push_group(reply, body, number) {
        Ok(()) => Ok(()),
        Err(Full) => Err(Unfit),
    }
}

fn takes_groups(class: Class) -> bool
    ensures { result ≡ reading.takes_groups class }
{
    match class {
        Class::Success => true,
        Class::Challenge | Class::Refusal | Class::Bad => false,
    }
}

/// Pushes the attributes of an AVP that is a group of this reply.
fn push_tunnel(
    reply: &mut Reply,
    class: Class,
    avp: &Avp<'_>,
    number: u8,
    must: bool,
) -> Result<(), Unfit>
    requires short { reply_length reply.old ≤ 4096 }
    ensures { let a = avp_view avp.now in
        Pushes reply.old reply.new (is_ok result)
        (not (must && reading.is_bad_group class number a))
        (replies.tunnel_attributes class number a) }
{
    if takes_groups(class) && is_group(avp) {
        push_tagged(reply, avp.body, number, must)
    } else {
        Ok(())
    }
}

/// Whether the reply has the attributes of vendors.
pub fn takes_vendors(class: Class) -> bool
    ensures { result ≡ replies.takes_vendors class }
{
    match class {
        Class::Success | Class::Challenge => true,
        Class::Refusal | Class::Bad => false,
    }
}

/// Pushes the AVP of a vendor as a Vendor-Specific attribute.
pub fn push_fitting(reply: &mut Reply, vendor: u32, avp: &Avp<'_>) -> Result<(), Unfit>
    requires code { avp.now.code ≤ 255 }
    requires body { length avp.now.body.now ≤ 247 }
    ensures { Pushes reply.old reply.new (is_ok result) true
        (attribute 26 (replies.vendor_value vendor (avp_view avp.now)) ∷ []) }
{
    let mut value = [0; MOST_VALUE];
    let end = 6 + avp.body.len();
    put_u32(&mut value, 0, vendor);
    value[4] = avp.code as u8;
    value[5] = avp.body.len() as u8 + 2;
    value[6..end].copy_from_slice(avp.body);
    push(reply, VENDOR_SPECIFIC, &value[..end])
}

/// Pushes the attribute of an AVP of a vendor, where this reply has such ones; keys are left out.
fn push_vendor(reply: &mut Reply, class: Class, vendor: u32, avp: &Avp<'_>) -> Result<(), Unfit>
    requires short { reply_length reply.old ≤ 4096 }
    ensures { Pushes reply.old reply.new (is_ok result) true
        (replies.vendor_attributes class vendor (avp_view avp.now)) }
{
    if takes_vendors(class) && !is_key_avp(avp) && fits_vendor(avp) {
        push_fitting(reply, vendor, avp)
    } else {
        Ok(())
    }
}

/// Refuses a bad number of seconds that can't be passed over.
fn check_timeout(class: Class, avp: &Avp<'_>, must: bool) -> Result<(), Unfit>
    ensures { is_ok result ≡ not (must && reading.is_bad_timeout class (avp_view avp.now)) }
{
    if must && is_bad_timeout(class, avp) {
        Err(Unfit)
    } else {
        Ok(())
    }
}

/// Pushes the attributes of an AVP without a vendor.
fn push_plain(
    reply: &mut Reply,
    class: Class,
    avp: &Avp<'_>,
    number: u8,
    must: bool,
) -> Result<(), Unfit>
    requires short { reply_length reply.old ≤ 4096 }
    ensures { let a = avp_view avp.now in
        Pushes reply.old reply.new (is_ok result)
        (not (must && reading.is_plain_faulty class number a))
        (replies.plain_attributes class number a) }
{
    check_timeout(class, avp, must)?;
    push_row(reply, class, avp, must)?;
    push_tunnel(reply, class, avp, number, must)
}

/// Whether a fault in this AVP refuses the reply, and doesn't just leave the AVP out.
fn must_fit(avp: &Avp<'_>, strict: bool) -> bool
    ensures { result ≡ (strict && is_mandatory (avp_view avp.now)) }
{
    strict && avp.mandatory
}

/// Pushes the attributes of an AVP. With `strict` a fault refuses the reply where M is set.
fn push_image(
    reply: &mut Reply,
    class: Class,
    avp: &Avp<'_>,
    number: u8,
    strict: bool,
) -> Result<(), Unfit>
    requires short { reply_length reply.old ≤ 4096 }
    ensures { let a = avp_view avp.now in
        Pushes reply.old reply.new (is_ok result)
        (not ((strict && is_mandatory a) && reading.is_faulty class number a))
        (replies.image class number a) }
{
    match avp.vendor {
        Some(vendor) => push_vendor(reply, class, vendor, avp),
        None => push_plain(reply, class, avp, number, must_fit(avp, strict)),
    }
}

fn next_number(number: u8, avp: &Avp<'_>) -> u8
    ensures { result ≡ specs.next_number number (avp_view avp.now) }
{
    if is_group(avp) {
        number.saturating_add(1)
    } else {
        number
    }
}

/// Pushes the attributes of all AVPs in order. With `strict` a fault in an AVP with M set refuses the reply.
fn push_images(reply: &mut Reply, class: Class, list: &[Avp<'_>], strict: bool) -> Result<(), Unfit>
    requires short { reply_length reply.old ≤ 4096 }
    ensures { let avps = list_view list.now in
        Pushes reply.old reply.new (is_ok result) (not (strict && reading.has_fault class avps))
        (replies.images class avps) }
{
    let mut number = 1;
    for avp in list {
        push_image(reply, class, avp, number, strict)?;
        number = next_number(number, avp);
    }
    Ok(())
}

fn push_timeout(reply: &mut Reply, seconds: Option<u32>) -> Result<(), Unfit>
    requires short { reply_length reply.old ≤ 4096 }
    ensures { Pushes reply.old reply.new (is_ok result) true (replies.session_timeout seconds) }
{
    match seconds {
        Some(seconds) => push_number(reply, SESSION_TIMEOUT, seconds),
        None => Ok(()),
    }
}

/// Pushes the seconds after which the session is to be authorized again.
fn push_lifetime(reply: &mut Reply, seconds: u32) -> Result<(), Unfit>
    ensures { Pushes reply.old reply.new (is_ok result) true (replies.lifetime seconds) }
{
    push_number(reply, SESSION_TIMEOUT, seconds)?;
    push_number(reply, TERMINATION_ACTION, RADIUS_REQUEST)
}

fn push_success_timeouts(
    reply: &mut Reply,
    timeout: Option<u32>,
    authorized: Option<u32>,
) -> Result<(), Unfit>
    requires short { reply_length reply.old ≤ 4096 }
    ensures { Pushes reply.old reply.new (is_ok result) true
        (replies.success_timeouts timeout authorized) }
{
    let Some(authorized) = authorized else {
        return push_timeout(reply, timeout);
    };
    match timeout {
        Some(timeout) => push_lifetime(reply, timeout.min(authorized)),
        None => push_lifetime(reply, authorized),
    }
}

/// Pushes the seconds that a session, or the answer to a challenge, may take.
fn push_timeouts(reply: &mut Reply, class: Class, list: &[Avp<'_>]) -> Result<(), Unfit>
    requires short { reply_length reply.old ≤ 4096 }
    ensures { Pushes reply.old reply.new (is_ok result) true
        (replies.timeouts class (list_view list.now)) }
{
    match class {
        Class::Success => {
            let timeout = first_number(list, avp_codes::SESSION_TIMEOUT);
            let authorized = first_number(list, avp_codes::AUTHORIZATION_LIFETIME);
            push_success_timeouts(reply, timeout, authorized)
        }
        Class::Challenge => {
            push_timeout(reply, first_number(list, avp_codes::MULTI_ROUND_TIME_OUT))
        }
        Class::Refusal | Class::Bad => Ok(()),
    }
}

/// Pushes the pieces of an EAP packet.
fn push_pieces(reply: &mut Reply, body: &[u8]) -> Result<(), Unfit>
    requires short { reply_length reply.old ≤ 4096 }
    ensures { Pushes reply.old reply.new (is_ok result) true (replies.eap_pieces body.now) }
{
    for piece in body.chunks(MOST_VALUE) {
        push(reply, EAP_MESSAGE, piece)?;
    }
    Ok(())
}

/// Pushes the EAP packet of the answer.
fn push_payload(
    reply: &mut Reply,
    service: Service,
    class: Class,
    list: &[Avp<'_>],
) -> Result<(), Unfit>
    requires short { reply_length reply.old ≤ 4096 }
    ensures { Pushes reply.old reply.new (is_ok result) true
        (replies.eap_messages service class (list_view list.now)) }
{
    if service != Service::Eap || class == Class::Bad {
        return Ok(());
    }
    match first(list, avp_codes::EAP_PAYLOAD) {
        Some(avp) => push_pieces(reply, avp.body),
        None => Ok(()),
    }
}

fn session_code(class: Class) -> u8
    ensures { result ≡ replies.session_code class }
{
    match class {
        Class::Success => CLASS,
        Class::Challenge | Class::Refusal | Class::Bad => STATE,
    }
}

/// Pushes what carries the session.
fn push_carrier(reply: &mut Reply, class: Class, carrier: &Option<Octets>) -> Result<(), Unfit>
    requires short { reply_length reply.old ≤ 4096 }
    requires carrier { IfSome carrier.now (λ value. length value ≤ 253) }
    ensures { Pushes reply.old reply.new (is_ok result) true
        (optional (replies.session_code class) carrier.now) }
{
    match carrier {
        Some(value) => push(reply, session_code(class), value.as_slice()),
        None => Ok(()),
    }
}

/// Pushes attributes that are joined.
fn push_joined(reply: &mut Reply, attributes: &[u8]) -> Result<(), Unfit>
    requires whole { attributes.now ≡ attributes_text (attributes_in attributes.now) }
    ensures { Pushes reply.old reply.new (is_ok result) true (attributes_in attributes.now) }
{
    match reply.push_joined(attributes) {
        Ok(()) => Ok(()),
        Err(Full) => Err(Unfit),
    }
}

/// Pushes all attributes of a reply behind the Message-Authenticator. With `strict` a fault in an AVP with M set
/// refuses it.
pub(crate) fn push_all(
    reply: &mut Reply,
    service: Service,
    class: Class,
    carrier: &Option<Octets>,
    list: &[Avp<'_>],
    proxy: &[u8],
    strict: bool,
) -> Result<(), Unfit>
    requires short { reply_length reply.old ≤ 4096 }
    requires carrier { IfSome carrier.now (λ value. length value ≤ 253) }
    requires whole { proxy.now ≡ attributes_text (attributes_in proxy.now) }
    ensures { let avps = list_view list.now in
        Pushes reply.old reply.new (is_ok result) (not (strict && reading.has_fault class avps))
        (optional (replies.session_code class) carrier.now ++ replies.images class avps
        ++ replies.timeouts class avps
        ++ replies.eap_messages service class avps ++ attributes_in proxy.now) }
{
    push_carrier(reply, class, carrier)?;
    push_images(reply, class, list, strict)?;
    push_timeouts(reply, class, list)?;
    push_payload(reply, service, class, list)?;
    push_joined(reply, proxy)
}
