//! What is read of messages and packets for the book.

ghost use Rattle.std.specs.Prelude.{◌≡◌, ◌≤◌, ◌<◌, ◌^◌, length, option_copied, option_map, IfSome};
ghost use Rattle.diameter_message.specs.Message.{read_message};
ghost use Rattle.accounting_map.specs.Numbers as values;
ghost use Rattle.session_book.specs.Reading as specs;
ghost use Rattle.session_book.specs.State as state;

use crate::aborts::Asked;
use crate::values::LONGEST_SESSION;
use diameter_message::avp_codes::{ORIGIN_HOST, SESSION_ID};
use diameter_message::command_codes::ABORT_SESSION;
use diameter_message::command_flags::REQUEST;
use diameter_message::{Header, find_avp, find_only, parse};
use radius_packet::Packet;
use wire_core::get_u32;

/// RFC 2865, section 3.
const ACCOUNTING_REQUEST: u8 = 4;

/// RFC 2866, section 5.1.
const ACCT_STATUS_TYPE: u8 = 40;

/// An Abort-Session-Request: who asks, and which session is to end (RFC 6733, section 8.5.1).
#[derive(Clone, Copy)]
pub(crate) struct Ask<'a> {
    pub(crate) asked: Asked,
    pub(crate) session: &'a [u8],
    pub(crate) host: &'a [u8],
}

fn is_abort(header: &Header) -> bool
    ensures { result ≡ specs.is_abort header.now }
{
    REQUEST <= header.flags && header.command == ABORT_SESSION
}

/// What these octets ask, where they are an Abort-Session-Request with exactly one Session-Id and one Origin-Host.
pub(crate) fn read_ask(octets: &[u8]) -> Option<Ask<'_>>
    ensures { option_map specs.ask_view result ≡ specs.ask_of (read_message octets.now) }
{
    let Ok(message) = parse(octets) else {
        return None;
    };
    if !is_abort(&message.header) {
        return None;
    }
    let Some(session) = find_only(message.avps, SESSION_ID) else {
        return None;
    };
    let Some(host) = find_only(message.avps, ORIGIN_HOST) else {
        return None;
    };
    let asked = Asked {
        flags: message.header.flags,
        application: message.header.application,
        hop: message.header.hop,
        end: message.header.end,
    };
    Some(Ask {
        asked,
        session,
        host,
    })
}

/// The first Session-Id of at most 1,024 octets in a message that was sent. In the request of an accounting record it is
/// the first of all.
pub(crate) fn short_session(octets: &[u8]) -> Option<&[u8]>
    ensures exact { option_copied result ≡ state.short_session octets.now }
    ensures short { IfSome result (λ s. length s.now ≤ 1024) }
{
    let Ok(message) = parse(octets) else {
        return None;
    };
    match find_avp(message.avps, SESSION_ID, 0, LONGEST_SESSION) {
        Some(avp) => Some(avp.body),
        None => None,
    }
}

/// The value of the first attribute of a type.
pub(crate) fn first_value<'a>(packet: &Packet<'a>, code: u8) -> Option<&'a [u8]>
    ensures exact { option_copied result ≡ values.first_value code packet.now.attributes }
    ensures short { IfSome result (λ v. length v.now ≤ 253) }
{
    for attribute in packet.attributes() {
        if attribute.code == code {
            return Some(attribute.value);
        }
    }
    None
}

/// The Acct-Status-Type of an Accounting-Request, else 0, which no status has.
pub(crate) fn status(packet: &Packet<'_>) -> u32
    ensures { result ≡ specs.status packet.now }
{
    if packet.code() != ACCOUNTING_REQUEST {
        return 0;
    }
    match first_value(packet, ACCT_STATUS_TYPE) {
        Some(value) => {
            if value.len() == 4 {
                get_u32(value, 0)
            } else {
                0
            }
        }
        None => 0,
    }
}
