//! What a message says to the link (RFC 6733, sections 5.3 to 5.5).

ghost use Rattle.std.specs.Prelude.{◌≡◌};
ghost use Rattle.diameter_message.specs.View.{message_view};
ghost use Rattle.peer_machine.specs.Reading as specs;

use crate::words::Said;
use diameter_message::avp_codes::DISCONNECT_CAUSE;
use diameter_message::command_codes::{
    AA, ABORT_SESSION, ACCOUNTING, CAPABILITIES_EXCHANGE, DEVICE_WATCHDOG, DIAMETER_EAP,
    DISCONNECT_PEER, RE_AUTH, SESSION_TERMINATION,
};
use diameter_message::command_flags::REQUEST;
use diameter_message::{Header, Message, find_number, result_code};

/// The hop of the Capabilities-Exchange-Request of each link (profile).
const FIRST_HOP: u32 = 0x8000_0000;

#[tactic(auto, unfolding(crate::specs::Reading::request_said))]
fn request_said(command: u32, avps: &[u8]) -> Said
    ensures { result ≡ specs.request_said command avps.now }
{
    match command {
        CAPABILITIES_EXCHANGE => Said::CapabilitiesRequest,
        DEVICE_WATCHDOG => Said::WatchdogRequest,
        DISCONNECT_PEER => Said::DisconnectRequest {
            cause: find_number(avps, DISCONNECT_CAUSE).unwrap_or(0),
        },
        RE_AUTH | ABORT_SESSION => Said::SessionRequest,
        _ => Said::OtherRequest,
    }
}

#[tactic(auto, unfolding(crate::specs::Reading::answer_said))]
fn answer_said(header: &Header, avps: &[u8]) -> Said
    ensures { result ≡ specs.answer_said header.now avps.now }
{
    match header.command {
        CAPABILITIES_EXCHANGE if header.hop == FIRST_HOP => Said::CapabilitiesAnswer {
            result: result_code(avps),
        },
        DEVICE_WATCHDOG => Said::WatchdogAnswer,
        DISCONNECT_PEER => Said::DisconnectAnswer,
        AA | DIAMETER_EAP | ACCOUNTING | SESSION_TERMINATION => Said::ApplicationAnswer,
        _ => Said::OtherAnswer,
    }
}

/// What a message says.
#[tactic(auto, unfolding(crate::specs::Reading::said_in))]
pub(crate) fn said_in(message: &Message<'_>) -> Said
    ensures { result ≡ specs.said_in (message_view message.now) }
{
    if message.header.flags < REQUEST {
        answer_said(&message.header, message.avps)
    } else {
        request_said(message.header.command, message.avps)
    }
}
