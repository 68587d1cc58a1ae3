//! What a Diameter request is answered (RFC 4005, section 9.2).

ghost use Rattle.std.specs.Prelude.{◌≡◌, ◌≤◌, ◌<◌, ◌^◌, length, false, IsTrue, IsSome, IfOk};
ghost use Rattle.diameter_avp.specs.Avps.{avps_text};
ghost use Rattle.diameter_message.specs.Message.{IsMessage};
ghost use Rattle.diameter_message.specs.View.{message_view};
ghost use Rattle.reverse_map.specs.Answers as specs;
ghost use Rattle.reverse_map.specs.Asked.{asked_in, request_in, ForAsked, ForRequest};

use crate::codes::{ACCESS_CHALLENGE, ACCESS_REJECT};
use crate::heads::begin;
use crate::images::{class_of, has_key, put_images};
use crate::own::Reverse;
use diameter_message::{Message, parse};
use radius_packet::Packet;
use std::alloc::Global;
use wire_core::{NoMemory, Octets};

/// Result-Codes (RFC 6733, section 7.1).
const MULTI_ROUND: u32 = 1001;

const SUCCESS: u32 = 2001;

const REJECTED: u32 = 4001;

const UNABLE_TO_COMPLY: u32 = 5012;

/// What a reply with this code and no key says.
fn result_of(code: u8) -> u32
    ensures { result ≡ specs.result_of code }
{
    match code {
        ACCESS_CHALLENGE => MULTI_ROUND,
        ACCESS_REJECT => REJECTED,
        _ => SUCCESS,
    }
}

/// The answer with this Result-Code and no images.
fn refusal(
    alloc: Global,
    own: &Reverse,
    message: &Message<'_>,
    code: u32,
) -> Result<Octets, NoMemory>
    requires command { message.now.header.command < 2 ^ 24 }
    requires asked { IsSome (asked_in (message_view message.now)) }
    requires host { length own.now.host ≤ 64 }
    requires realm { length own.now.realm ≤ 64 }
    ensures exact { ForAsked (message_view message.now)
        (λ q. IfOk result (λ o. o ≡ specs.refusal own.now q code)) }
    ensures message { ForAsked (message_view message.now) (λ q.
        IfOk result (λ o. IsMessage o (specs.answer_header q.header code)
        (avps_text (specs.answer_head own.now q code)))) }
{
    let writer = begin(alloc, own, message, code)?;
    Ok(writer.finish())
}

/// The answer that a reply without a key gives.
fn keyless_answer(
    alloc: Global,
    own: &Reverse,
    message: &Message<'_>,
    reply: &Packet<'_>,
) -> Result<Octets, NoMemory>
    requires keyless { specs.has_key reply.now ≡ false }
    requires command { message.now.header.command < 2 ^ 24 }
    requires asked { IsSome (asked_in (message_view message.now)) }
    requires host { length own.now.host ≤ 64 }
    requires realm { length own.now.realm ≤ 64 }
    ensures exact { ForAsked (message_view message.now)
        (λ q. IfOk result (λ o. o ≡ specs.answer_of own.now q reply.now)) }
    ensures message { ForAsked (message_view message.now) (λ q.
        IfOk result (λ o. IsMessage o (specs.answer_header q.header (specs.reply_result reply.now))
        (avps_text (specs.answer_avps own.now q reply.now)))) }
{
    let code = reply.code();
    let mut writer = begin(alloc, own, message, result_of(code))?;
    put_images(&mut writer, class_of(code), reply)?;
    Ok(writer.finish())
}

/// The answer that a reply gives to a message.
fn answer_to(
    alloc: Global,
    own: &Reverse,
    message: &Message<'_>,
    reply: &Packet<'_>,
) -> Result<Octets, NoMemory>
    requires command { message.now.header.command < 2 ^ 24 }
    requires asked { IsSome (asked_in (message_view message.now)) }
    requires host { length own.now.host ≤ 64 }
    requires realm { length own.now.realm ≤ 64 }
    ensures exact { ForAsked (message_view message.now)
        (λ q. IfOk result (λ o. o ≡ specs.answer_of own.now q reply.now)) }
    ensures message { ForAsked (message_view message.now) (λ q.
        IfOk result (λ o. IsMessage o (specs.answer_header q.header (specs.reply_result reply.now))
        (avps_text (specs.answer_avps own.now q reply.now)))) }
{
    if has_key(reply) {
        refusal(alloc, own, message, UNABLE_TO_COMPLY)
    } else {
        keyless_answer(alloc, own, message, reply)
    }
}

/// The answer that a reply of the RADIUS server gives to an AA-Request or an Accounting-Request. A reply with a key isn't
/// handed on: the answer is DIAMETER_UNABLE_TO_COMPLY.
pub fn answer(
    alloc: Global,
    own: &Reverse,
    request: &[u8],
    reply: &Packet<'_>,
) -> Result<Octets, NoMemory>
    requires asked { IsSome (request_in request.now) }
    requires code { ForRequest request.now
        (λ q. IsTrue (specs.is_reply_code q.header reply.now.code)) }
    requires host { length own.now.host ≤ 64 }
    requires realm { length own.now.realm ≤ 64 }
    ensures exact { ForRequest request.now
        (λ q. IfOk result (λ o. o ≡ specs.answer_of own.now q reply.now)) }
    // It is a message, so it can be sent again.
    ensures message { ForRequest request.now (λ q.
        IfOk result (λ o. IsMessage o (specs.answer_header q.header (specs.reply_result reply.now))
        (avps_text (specs.answer_avps own.now q reply.now)))) }
{
    let Ok(message) = parse(request) else {
        unreachable!();
    };
    answer_to(alloc, own, &message, reply)
}

/// The answer with this Result-Code to an AA-Request or an Accounting-Request of which no reply says anything.
pub fn refuse(alloc: Global, own: &Reverse, request: &[u8], code: u32) -> Result<Octets, NoMemory>
    requires asked { IsSome (request_in request.now) }
    requires host { length own.now.host ≤ 64 }
    requires realm { length own.now.realm ≤ 64 }
    ensures exact { ForRequest request.now
        (λ q. IfOk result (λ o. o ≡ specs.refusal own.now q code)) }
    // It is a message, so it can be sent again.
    ensures message { ForRequest request.now (λ q.
        IfOk result (λ o. IsMessage o (specs.answer_header q.header code)
        (avps_text (specs.answer_head own.now q code)))) }
{
    let Ok(message) = parse(request) else {
        unreachable!();
    };
    refusal(alloc, own, &message, code)
}
