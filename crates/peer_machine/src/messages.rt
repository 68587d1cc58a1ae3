//! The messages that the link makes (RFC 6733, sections 5.3 to 5.5 and 6.2).

ghost use Rattle.std.specs.Prelude.{◌≡◌, ◌+◌, ◌≤◌, ◌<◌, ◌^◌, [], ◌∷◌, length, find, IfOk, OnOk};
ghost use Rattle.diameter_avp.specs.Avps.{readable_avps};
ghost use Rattle.diameter_message.specs.Finding.{has_size};
ghost use Rattle.diameter_message.specs.PlainAvps.{plain_avp};
ghost use Rattle.diameter_message.specs.View.{message_view};
ghost use Rattle.diameter_message.specs.Writer.{list_length, Puts};
ghost use Rattle.peer_machine.specs.Messages as specs;
ghost use Rattle.peer_machine.specs.Messages.{answer_text, request_text};

use crate::words::BaseRequest;
use diameter_message::applications::{BASE_ACCOUNTING, COMMON, EAP, NASREQ};
use diameter_message::avp_codes::{
    ACCT_APPLICATION_ID, AUTH_APPLICATION_ID, DISCONNECT_CAUSE, HOST_IP_ADDRESS, ORIGIN_STATE_ID,
    PRODUCT_NAME, RESULT_CODE, SESSION_ID, VENDOR_ID,
};
use diameter_message::command_codes::{CAPABILITIES_EXCHANGE, DEVICE_WATCHDOG, DISCONNECT_PEER};
use diameter_message::command_flags::{ERROR, PROXIABLE, REQUEST};
use diameter_message::{Header, Message, MessageWriter, find_avp};
use std::alloc::Global;
use wire_core::{NoMemory, Octets, put_u32};

/// The longest Session-Id that an answer repeats (profile).
const LONGEST_SESSION: usize = 4096;

/// Who the agent is to its peer: its identity and realm, its IPv4 address, and its Origin-State-Id.
#[derive(Drop)]
pub struct Names {
    pub host: Octets,
    pub realm: Octets,
    pub address: u32,
    pub boot: u32,
}

/// Puts the address of the agent: its family, 1 for IPv4, and its octets (RFC 6733, section 4.3.1).
fn put_address(writer: &mut MessageWriter, address: u32) -> Result<(), NoMemory>
    requires { list_length writer.old ≤ 5600 }
    ensures { OnOk result
        (Puts writer.old writer.new (plain_avp 257 (specs.address_body address) ∷ []) 17) }
{
    let mut octets = [0, 1, 0, 0, 0, 0];
    put_u32(&mut octets, 2, address);
    writer.put_plain(HOST_IP_ADDRESS, &octets)
}

/// Puts the applications that the agent speaks: those of RFC 4005 and RFC 4072, and accounting.
fn put_applications(writer: &mut MessageWriter) -> Result<(), NoMemory>
    requires { list_length writer.old ≤ 6000 }
    ensures { OnOk result (Puts writer.old writer.new specs.applications 45) }
{
    writer.put_number(AUTH_APPLICATION_ID, NASREQ)?;
    writer.put_number(AUTH_APPLICATION_ID, EAP)?;
    writer.put_number(ACCT_APPLICATION_ID, BASE_ACCOUNTING)
}

/// Puts the product's name, which is not mandatory.
fn put_product_name(writer: &mut MessageWriter) -> Result<(), NoMemory>
    requires { list_length writer.old ≤ 5700 }
    ensures { OnOk result (Puts writer.old writer.new (specs.product_name ∷ []) 19) }
{
    writer.put_with_room(PRODUCT_NAME, None, false, b"rd-agent")
}

/// Puts what the agent is: its address, no vendor, and its product's name.
fn put_product(writer: &mut MessageWriter, names: &Names) -> Result<(), NoMemory>
    requires { list_length writer.old ≤ 5600 }
    ensures { OnOk result (Puts writer.old writer.new (specs.product names.now) 51) }
{
    put_address(writer, names.address)?;
    writer.put_number(VENDOR_ID, 0)?;
    put_product_name(writer)
}

/// Puts what the agent is and what it can do.
fn put_capabilities(writer: &mut MessageWriter, names: &Names) -> Result<(), NoMemory>
    requires { list_length writer.old ≤ 5600 }
    ensures { OnOk result (Puts writer.old writer.new (specs.capabilities names.now) 130) }
{
    put_product(writer, names)?;
    writer.put_number(ORIGIN_STATE_ID, names.boot)?;
    put_applications(writer)
}

/// Puts what stands in a request after the names.
fn put_details(
    writer: &mut MessageWriter,
    names: &Names,
    request: BaseRequest,
) -> Result<(), NoMemory>
    requires { list_length writer.old ≤ 5600 }
    ensures { OnOk result (Puts writer.old writer.new (specs.details names.now request) 130) }
{
    match request {
        BaseRequest::CapabilitiesExchange => put_capabilities(writer, names),
        BaseRequest::DeviceWatchdog => writer.put_number(ORIGIN_STATE_ID, names.boot),
        BaseRequest::DisconnectPeer => writer.put_number(DISCONNECT_CAUSE, 0),
    }
}

fn command_of(request: BaseRequest) -> u32
    ensures number { result ≡ specs.command_of request }
    ensures small { result < 2 ^ 24 }
{
    match request {
        BaseRequest::CapabilitiesExchange => CAPABILITIES_EXCHANGE,
        BaseRequest::DeviceWatchdog => DEVICE_WATCHDOG,
        BaseRequest::DisconnectPeer => DISCONNECT_PEER,
    }
}

/// A request of the base protocol.
pub(crate) fn write_request(
    alloc: Global,
    names: &Names,
    request: BaseRequest,
    hop: u32,
    end: u32,
) -> Result<Octets, NoMemory>
    requires host { length names.now.host ≤ 255 }
    requires realm { length names.now.realm ≤ 255 }
    ensures { IfOk result (λ o. o ≡ request_text names.now request hop end) }
{
    let header = Header {
        flags: REQUEST,
        command: command_of(request),
        application: COMMON,
        hop,
        end,
    };
    let mut writer = MessageWriter::new(alloc, header)?;
    writer.put_origin(names.host.as_slice(), names.realm.as_slice())?;
    put_details(&mut writer, names, request)?;
    Ok(writer.finish())
}

fn error_flag(error: bool) -> u8
    ensures { result ≡ specs.error_flag error }
{
    if error { ERROR } else { 0 }
}

/// The header of an answer: the request's, with its P flag alone, and E where there is an error.
fn answer_header(header: &Header, error: bool) -> Header
    ensures { result ≡ specs.answer_header header.now error }
{
    Header {
        flags: (header.flags & PROXIABLE) | error_flag(error),
        command: header.command,
        application: header.application,
        hop: header.hop,
        end: header.end,
    }
}

/// Puts the Session-Id of a request, where it has one that is short enough.
fn put_session(writer: &mut MessageWriter, avps: &[u8]) -> Result<(), NoMemory>
    requires { list_length writer.old ≡ 0 }
    ensures { OnOk result (Puts writer.old writer.new
        (specs.session_avps (find (has_size 263 0 4096) (readable_avps avps.now))) 4107) }
{
    match find_avp(avps, SESSION_ID, 0, LONGEST_SESSION) {
        Some(avp) => writer.put_plain(SESSION_ID, avp.body),
        None => Ok(()),
    }
}

/// The answer to a request (RFC 6733, section 6.2).
pub(crate) fn write_answer(
    alloc: Global,
    names: &Names,
    message: &Message<'_>,
    code: u32,
    error: bool,
) -> Result<Octets, NoMemory>
    requires command { message.now.header.command < 2 ^ 24 }
    requires host { length names.now.host ≤ 255 }
    requires realm { length names.now.realm ≤ 255 }
    ensures { IfOk result (λ o. o ≡ answer_text names.now (message_view message.now) code error) }
{
    let mut writer = MessageWriter::new(alloc, answer_header(&message.header, error))?;
    put_session(&mut writer, message.avps)?;
    writer.put_number(RESULT_CODE, code)?;
    writer.put_origin(names.host.as_slice(), names.realm.as_slice())?;
    Ok(writer.finish())
}
