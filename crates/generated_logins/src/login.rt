//! One login of a generated transcript: its request, its answer, and their lines.

ghost use Rattle.std.specs.Prelude.{◌≡◌, ◌≤◌, ◌<◌, ◌++◌, length, IfOk, OnOk};
ghost use Rattle.std.specs.String.{string_bytes};
ghost use Rattle.radius_packet.specs.Packet.{attribute_text, attributes_text};
ghost use Rattle.diameter_message.specs.Writer.{list_length, Puts};
ghost use Rattle.generated_logins.specs.Generator as specs;

use diameter_message::applications::NASREQ;
use diameter_message::avp_codes::{
    AUTH_APPLICATION_ID, AUTH_REQUEST_TYPE, RESULT_CODE, SESSION_ID,
};
use diameter_message::command_codes::AA;
use diameter_message::command_flags::PROXIABLE;
use diameter_message::{Header, MessageWriter};
use printed_lines::push_digits;
use std::alloc::Global;
use wire_core::{NoMemory, Octets};

/// The code of an Access-Request (RFC 2865, section 4.1).
const ACCESS_REQUEST: u8 = 1;

/// The types of the attributes (RFC 2865, sections 5.1 and 5.5).
const USER_NAME: u8 = 1;

const NAS_PORT: u8 = 5;

/// The Auth-Request-Type AUTHORIZE_ONLY (RFC 6733, section 8.7).
const AUTHORIZE_ONLY: u32 = 2;

/// The Result-Codes of the answers (RFC 6733, section 7.1).
const SUCCESS: u32 = 2001;

const AUTHENTICATION_REJECTED: u32 = 4001;

/// How many milliseconds after a login the next one comes (profile).
const PACE: u64 = 20;

/// The number that is drawn after this one.
pub(crate) fn next_draw(number: u32) -> u32
    ensures { result ≡ specs.next_draw number }
{
    number.wrapping_mul(1_664_525).wrapping_add(1_013_904_223)
}

/// Whether the bit at this place is set, counted from the least.
pub(crate) fn has_bit(number: u32, place: u32) -> bool
    requires { place < 32 }
    ensures { result ≡ specs.has_bit place number }
{
    (number >> place) % 2 == 1
}

/// The name of the user who logs in.
fn user_name(alloc: Global, number: u32) -> Result<String, NoMemory>
    ensures name { IfOk result (λ name. string_bytes name ≡ specs.user_name number) }
    ensures short { IfOk result (λ name. length (string_bytes name) ≤ 7) }
{
    let account = number % 1000;
    Ok(format!(in alloc; "user{account}")?)
}

/// Appends an attribute: its type, its length, its value.
fn push_attribute(octets: &mut Vec<u8>, code: u8, value: &[u8]) -> Result<(), NoMemory>
    requires { length value.now ≤ 253 }
    ensures { OnOk result (octets.new.items
        ≡ octets.old.items ++ attribute_text (record { code = code; value = value.now })) }
{
    octets.extend_from_slice(&[code, value.len() as u8 + 2])?;
    octets.extend_from_slice(value)?;
    Ok(())
}

/// The attributes of the request.
fn request_attributes(alloc: Global, number: u32) -> Result<Vec<u8>, NoMemory>
    ensures attributes { IfOk result
        (λ octets. octets.items ≡ attributes_text (specs.request_attributes number)) }
    ensures short { IfOk result (λ octets. length octets.items ≤ 15) }
{
    let name = user_name(alloc, number)?;
    let mut octets = Vec::new(alloc);
    push_attribute(&mut octets, USER_NAME, name.as_bytes())?;
    push_attribute(&mut octets, NAS_PORT, &number.to_be_bytes())?;
    Ok(octets)
}

/// The authenticator of the request: the number, four times.
#[tactic(auto, unfolding(wire_core::specs::Numbers::u32))]
fn authenticator(number: u32) -> [u8; 16]
    ensures { result ≡ specs.authenticator number }
{
    let [a, b, c, d] = number.to_be_bytes();
    [a, b, c, d, a, b, c, d, a, b, c, d, a, b, c, d]
}

/// The request, as octets.
fn request_octets(alloc: Global, number: u32) -> Result<Vec<u8>, NoMemory>
    ensures { IfOk result (λ octets. octets.items ≡ specs.request_octets number) }
{
    let attributes = request_attributes(alloc, number)?;
    let length = 20 + attributes.len() as u16;
    let id = (number % 256) as u8;
    let mut octets = Vec::new(alloc);
    octets.extend_from_slice(&[ACCESS_REQUEST, id])?;
    octets.extend_from_slice(&length.to_be_bytes())?;
    octets.extend_from_slice(&authenticator(number))?;
    octets.extend_from_slice(attributes.as_slice())?;
    Ok(octets)
}

/// The Session-Id of the answer.
fn session_id(alloc: Global, number: u32) -> Result<String, NoMemory>
    ensures name { IfOk result (λ session. string_bytes session ≡ specs.session_id number) }
    ensures short { IfOk result (λ session. length (string_bytes session) ≤ 26) }
{
    Ok(format!(in alloc; "agent.example;0;{number}")?)
}

/// The header of the answer: a request's with flag R clear, and both its identifiers the login's number.
fn answer_header(number: u32) -> Header
    ensures { result ≡ specs.answer_header number }
{
    Header {
        flags: PROXIABLE,
        command: AA,
        application: NASREQ,
        hop: number,
        end: number,
    }
}

/// The Result-Code of the answer.
fn result_code(drawn: u32) -> u32
    ensures { result ≡ specs.result_code drawn }
{
    if has_bit(drawn, 17) {
        AUTHENTICATION_REJECTED
    } else {
        SUCCESS
    }
}

/// Puts the session that is answered, and what was asked for.
fn put_session(writer: &mut MessageWriter, session: &[u8]) -> Result<(), NoMemory>
    requires empty { list_length writer.old ≡ 0 }
    requires short { length session.now ≤ 26 }
    ensures { OnOk result (Puts writer.old writer.new (specs.session_avps session.now) 67) }
{
    writer.put_plain(SESSION_ID, session)?;
    writer.put_number(AUTH_APPLICATION_ID, NASREQ)?;
    writer.put_number(AUTH_REQUEST_TYPE, AUTHORIZE_ONLY)
}

/// The answer, as octets.
fn answer_octets(alloc: Global, number: u32, drawn: u32) -> Result<Octets, NoMemory>
    ensures { IfOk result (λ octets. octets ≡ specs.answer_octets number drawn) }
{
    let session = session_id(alloc, number)?;
    let mut writer = MessageWriter::new(alloc, answer_header(number))?;
    put_session(&mut writer, session.as_bytes())?;
    writer.put_number(RESULT_CODE, result_code(drawn))?;
    writer.put_origin(b"home.example", b"example")?;
    Ok(writer.finish())
}

/// When the login comes, in milliseconds.
fn moment_of(number: u32) -> u64
    ensures { result ≡ specs.moment number }
{
    PACE * u64::from(number)
}

/// The line of the request.
pub(crate) fn request_line(alloc: Global, number: u32) -> Result<Vec<u8>, NoMemory>
    ensures { IfOk result (λ line. line.items ≡ specs.request_line number) }
{
    let moment = moment_of(number);
    let octets = request_octets(alloc, number)?;
    let mut line = format!(in alloc; "{moment} auth 10.0.0.1 1812 ")?.into_bytes();
    push_digits(&mut line, octets.as_slice())?;
    Ok(line)
}

/// The line of the answer.
pub(crate) fn answer_line(alloc: Global, number: u32, drawn: u32) -> Result<Vec<u8>, NoMemory>
    ensures { IfOk result (λ line. line.items ≡ specs.answer_line number drawn) }
{
    let moment = moment_of(number);
    let octets = answer_octets(alloc, number, drawn)?;
    let mut line = format!(in alloc; "{moment} link ")?.into_bytes();
    push_digits(&mut line, octets.as_slice())?;
    Ok(line)
}

/// The line of the drain after them.
pub(crate) fn drain_line(alloc: Global, number: u32) -> Result<Vec<u8>, NoMemory>
    ensures { IfOk result (λ line. line.items ≡ specs.drain_line number) }
{
    let moment = moment_of(number);
    Ok(format!(in alloc; "{moment} drain")?.into_bytes())
}
