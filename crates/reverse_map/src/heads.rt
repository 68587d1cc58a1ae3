//! What an answer begins with (RFC 4005, section 3.2; RFC 6733, sections 6.2 and 9.7.2).

ghost use Rattle.std.specs.Prelude.{◌≡◌, ◌≤◌, ◌<◌, ◌^◌, length, IsSome, IfOk, OnOk};
ghost use Rattle.diameter_avp.specs.Avps.{readable_avps};
ghost use Rattle.diameter_message.specs.Finding.{first_number};
ghost use Rattle.diameter_message.specs.View.{message_view};
ghost use Rattle.diameter_message.specs.Writer.{begun, list_length, KeepsFront, Puts};
ghost use Rattle.reverse_map.specs.Answers as specs;
ghost use Rattle.reverse_map.specs.Asked.{asked_in, ForAsked};

use crate::own::Reverse;
use diameter_message::applications::NASREQ;
use diameter_message::avp_codes::{
    ACCOUNTING_RECORD_NUMBER, ACCOUNTING_RECORD_TYPE, AUTH_APPLICATION_ID, AUTH_REQUEST_TYPE,
    RESULT_CODE, SESSION_ID,
};
use diameter_message::command_codes::AA;
use diameter_message::command_flags::{ERROR, PROXIABLE};
use diameter_message::{Header, Message, MessageWriter, find_number, find_only};
use std::alloc::Global;
use wire_core::NoMemory;

fn is_protocol_error(code: u32) -> bool
    ensures { result ≡ specs.is_protocol_error code }
{
    3000 <= code && code < 4000
}

fn error_flag(code: u32) -> u8
    ensures { result ≡ specs.error_flag code }
{
    if is_protocol_error(code) { ERROR } else { 0 }
}

/// The header of an answer with this Result-Code.
fn answer_header(header: &Header, code: u32) -> Header
    ensures { result ≡ specs.answer_header header.now code }
{
    Header {
        flags: (header.flags & PROXIABLE) | error_flag(code),
        command: header.command,
        application: header.application,
        hop: header.hop,
        end: header.end,
    }
}

/// Puts Session-Id, Result-Code, Origin-Host and Origin-Realm.
fn put_names(
    writer: &mut MessageWriter,
    own: &Reverse,
    session: &[u8],
    code: u32,
) -> Result<(), NoMemory>
    requires empty { list_length writer.old ≡ 0 }
    requires session { length session.now ≤ 4096 }
    requires host { length own.now.host ≤ 64 }
    requires realm { length own.now.realm ≤ 64 }
    ensures { OnOk result (Puts writer.old writer.new (specs.names own.now session.now code) 4272) }
{
    writer.put_plain(SESSION_ID, session)?;
    writer.put_number(RESULT_CODE, code)?;
    writer.put_origin(own.host.as_slice(), own.realm.as_slice())
}

/// Puts the number in the first AVP of this code that has one.
fn put_first(writer: &mut MessageWriter, avps: &[u8], code: u32) -> Result<(), NoMemory>
    requires { list_length writer.old ≤ 60000 }
    ensures { OnOk result (Puts writer.old writer.new
        (specs.number_avps code (first_number code (readable_avps avps.now))) 15) }
{
    match find_number(avps, code) {
        Some(number) => writer.put_number(code, number),
        None => Ok(()),
    }
}

/// Puts what is repeated of a request with this header and these AVPs.
fn put_repeated(writer: &mut MessageWriter, header: &Header, avps: &[u8]) -> Result<(), NoMemory>
    requires { list_length writer.old ≤ 5000 }
    ensures { OnOk result
        (Puts writer.old writer.new (specs.repeated header.now (readable_avps avps.now)) 30) }
{
    if header.command == AA {
        writer.put_number(AUTH_APPLICATION_ID, NASREQ)?;
        put_first(writer, avps, AUTH_REQUEST_TYPE)
    } else {
        put_first(writer, avps, ACCOUNTING_RECORD_TYPE)?;
        put_first(writer, avps, ACCOUNTING_RECORD_NUMBER)
    }
}

/// An answer with this Result-Code, as far as it is the same for all replies.
pub(crate) fn begin(
    alloc: Global,
    own: &Reverse,
    message: &Message<'_>,
    code: u32,
) -> Result<MessageWriter, NoMemory>
    requires command { message.now.header.command < 2 ^ 24 }
    requires asked { IsSome (asked_in (message_view message.now)) }
    requires host { length own.now.host ≤ 64 }
    requires realm { length own.now.realm ≤ 64 }
    ensures list { ForAsked (message_view message.now) (λ q.
        IfOk result
        (λ w. w ≡ begun (specs.answer_header q.header code) (specs.answer_head own.now q code))) }
    ensures front { IfOk result (λ w. KeepsFront w) }
    ensures few { IfOk result (λ w. list_length w ≤ 4302) }
{
    let Some(session) = find_only(message.avps, SESSION_ID) else {
        unreachable!();
    };
    let mut writer = MessageWriter::new(alloc, answer_header(&message.header, code))?;
    put_names(&mut writer, own, session, code)?;
    put_repeated(&mut writer, &message.header, message.avps)?;
    Ok(writer)
}
