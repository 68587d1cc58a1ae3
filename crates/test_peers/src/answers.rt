//! The answers of the home server.

ghost use Rattle.std.specs.Prelude.{◌≡◌, ◌≤◌, ◌<◌, ◌^◌, [], ◌∷◌, None, false, codes, IfOk, OnOk};
ghost use Rattle.diameter_avp.specs.Avps.{made, readable_avps};
ghost use Rattle.diameter_message.specs.View.{message_view};
ghost use Rattle.diameter_message.specs.Writer.{list_length, Puts};
ghost use Rattle.test_peers.specs.Answers as specs;
ghost use Rattle.test_peers.specs.Finding as finding;

use crate::finding::{first_avp, is_welcome};
use crate::users::User;
use diameter_message::applications::{BASE_ACCOUNTING, NASREQ};
use diameter_message::avp_codes::{
    ACCOUNTING_RECORD_NUMBER, ACCOUNTING_RECORD_TYPE, ACCT_APPLICATION_ID, AUTH_APPLICATION_ID,
    AUTH_REQUEST_TYPE, HOST_IP_ADDRESS, PRODUCT_NAME, RESULT_CODE, SESSION_ID, VENDOR_ID,
};
use diameter_message::command_codes::{
    AA, ACCOUNTING, CAPABILITIES_EXCHANGE, DEVICE_WATCHDOG, DISCONNECT_PEER, SESSION_TERMINATION,
};
use diameter_message::command_flags::{ERROR, PROXIABLE, REQUEST};
use diameter_message::{Header, Message, MessageWriter, find_avp};
use std::alloc::Global;
use wire_core::{NoMemory, Octets};

/// The home server's identity and its realm.
const HOST: &[u8] = b"home.example";

const REALM: &[u8] = b"example";

/// 127.0.0.1, as an address of IPv4 (RFC 6733, section 4.3.1).
const ADDRESS: &[u8] = b"\x00\x01\x7f\x00\x00\x01";

/// The longest Session-Id that an answer repeats (profile).
const LONGEST_SESSION: usize = 4096;

/// Result-Codes (RFC 6733, section 7.1; RFC 4005, section 9.1).
const SUCCESS: u32 = 2001;

const COMMAND_UNSUPPORTED: u32 = 3001;

const AUTHENTICATION_REJECTED: u32 = 4001;

fn login_result(welcome: bool) -> u32
    ensures { result ≡ specs.login_result welcome }
{
    if welcome {
        SUCCESS
    } else {
        AUTHENTICATION_REJECTED
    }
}

/// The result of a request.
fn result_of(users: &[User], command: u32, avps: &[u8]) -> u32
    ensures { result ≡ specs.result_of users.now command (readable_avps avps.now) }
{
    match command {
        AA => login_result(is_welcome(users, avps)),
        CAPABILITIES_EXCHANGE
        | DEVICE_WATCHDOG
        | DISCONNECT_PEER
        | ACCOUNTING
        | SESSION_TERMINATION => SUCCESS,
        _ => COMMAND_UNSUPPORTED,
    }
}

/// Puts the request's Session-Id, where it has one that is short enough.
fn put_session(writer: &mut MessageWriter, avps: &[u8]) -> Result<(), NoMemory>
    requires { list_length writer.old ≤ 40000 }
    ensures { OnOk result (Puts writer.old writer.new
        (specs.session_avps (finding.first_avp 263 (readable_avps avps.now))) 4107) }
{
    match first_avp(avps, SESSION_ID) {
        Some(avp) => {
            if avp.body.len() <= LONGEST_SESSION {
                writer.put_plain(SESSION_ID, avp.body)
            } else {
                Ok(())
            }
        }
        None => Ok(()),
    }
}

/// Puts the first number of this code that the request has, where it has one.
fn put_same_number(writer: &mut MessageWriter, avps: &[u8], code: u32) -> Result<(), NoMemory>
    requires { list_length writer.old ≤ 40100 }
    ensures { OnOk result
        (Puts writer.old writer.new (specs.same_number code (readable_avps avps.now)) 15) }
{
    match find_avp(avps, code, 4, 4) {
        Some(avp) => writer.put_plain(code, avp.body),
        None => Ok(()),
    }
}

/// Puts the product's name, which is not mandatory.
fn put_product_name(writer: &mut MessageWriter) -> Result<(), NoMemory>
    requires { list_length writer.old ≤ 40100 }
    ensures { OnOk result
        (Puts writer.old writer.new (made 269 None false (codes "home") ∷ []) 15) }
{
    writer.put_with_room(PRODUCT_NAME, None, false, b"home")
}

/// Puts what the home server is: its address, no vendor, and its product's name.
fn put_product(writer: &mut MessageWriter) -> Result<(), NoMemory>
    requires { list_length writer.old ≤ 40000 }
    ensures { OnOk result (Puts writer.old writer.new specs.product 47) }
{
    writer.put_plain(HOST_IP_ADDRESS, ADDRESS)?;
    writer.put_number(VENDOR_ID, 0)?;
    put_product_name(writer)
}

/// Puts what the home server is and what it can do.
fn put_capabilities(writer: &mut MessageWriter) -> Result<(), NoMemory>
    requires { list_length writer.old ≤ 40000 }
    ensures { OnOk result (Puts writer.old writer.new specs.capabilities 77) }
{
    put_product(writer)?;
    writer.put_number(AUTH_APPLICATION_ID, NASREQ)?;
    writer.put_number(ACCT_APPLICATION_ID, BASE_ACCOUNTING)
}

/// Puts what stands after Origin-Realm.
fn put_details(writer: &mut MessageWriter, command: u32, avps: &[u8]) -> Result<(), NoMemory>
    requires { list_length writer.old ≤ 40000 }
    ensures { OnOk result
        (Puts writer.old writer.new (specs.details command (readable_avps avps.now)) 77) }
{
    match command {
        CAPABILITIES_EXCHANGE => put_capabilities(writer),
        AA => {
            writer.put_number(AUTH_APPLICATION_ID, NASREQ)?;
            put_same_number(writer, avps, AUTH_REQUEST_TYPE)
        }
        ACCOUNTING => {
            put_same_number(writer, avps, ACCOUNTING_RECORD_TYPE)?;
            put_same_number(writer, avps, ACCOUNTING_RECORD_NUMBER)
        }
        _ => Ok(()),
    }
}

fn error_flag(code: u32) -> u8
    ensures { result ≡ specs.error_flag code }
{
    if code == COMMAND_UNSUPPORTED {
        ERROR
    } else {
        0
    }
}

/// The header of an answer: the request's, with its P flag alone, and E where the command isn't known.
fn answer_header(header: &Header, code: u32) -> Header
    ensures { result ≡ specs.answer_header header.now code }
{
    Header {
        flags: (header.flags & PROXIABLE) | error_flag(code),
        command: header.command,
        application: header.application,
        hop: header.hop,
        end: header.end,
    }
}

/// Whether a message is a request (RFC 6733, section 3).
pub(crate) fn is_request(header: &Header) -> bool
    ensures { result ≡ specs.is_request header.now }
{
    header.flags >= REQUEST
}

/// The answer to a request.
pub(crate) fn write_answer(
    alloc: Global,
    users: &[User],
    request: &Message<'_>,
) -> Result<Octets, NoMemory>
    requires { request.now.header.command < 2 ^ 24 }
    ensures { IfOk result (λ o. o ≡ specs.answer_text users.now (message_view request.now)) }
{
    let command = request.header.command;
    let code = result_of(users, command, request.avps);
    let mut writer = MessageWriter::new(alloc, answer_header(&request.header, code))?;
    put_session(&mut writer, request.avps)?;
    writer.put_number(RESULT_CODE, code)?;
    writer.put_origin(HOST, REALM)?;
    put_details(&mut writer, command, request.avps)?;
    Ok(writer.finish())
}
