//! What is read of requests.

ghost use Rattle.std.specs.Prelude.{◌≡◌, option_map, IfOk};
ghost use Rattle.std.specs.Option.{option_copied};
ghost use Rattle.diameter_message.specs.View.{message_view};
ghost use Rattle.reverse_map.specs.Asked as asking;
ghost use Rattle.reverse_core.specs.Keys as keys;

use crate::key::Key;
use diameter_message::avp_codes::{ORIGIN_HOST, SESSION_ID};
use diameter_message::command_codes::{AA, ACCOUNTING};
use diameter_message::command_flags::REQUEST;
use diameter_message::{Header, Message, find_only};
use std::alloc::Global;
use wire_core::{NoMemory, Octets};

/// The longest Session-Id of a request (profile).
const LONGEST_SESSION: usize = 4096;

/// Whether this is an AA-Request or an Accounting-Request.
pub(crate) fn is_served(header: &Header) -> bool
    ensures { result ≡ asking.is_served header.now }
{
    REQUEST <= header.flags && (header.command == AA || header.command == ACCOUNTING)
}

/// The one Origin-Host of a request with one Session-Id.
fn asking_host<'a>(message: &Message<'a>) -> Option<&'a [u8]>
    ensures { option_copied result
        ≡ option_map (λ q. q.host) (asking.asked_in (message_view message.now)) }
{
    let session = find_only(message.avps, SESSION_ID)?;
    let host = find_only(message.avps, ORIGIN_HOST)?;
    if session.len() <= LONGEST_SESSION {
        Some(host)
    } else {
        None
    }
}

/// The key of a request, where it has one Session-Id and one Origin-Host.
pub(crate) fn key_of(alloc: Global, message: &Message<'_>) -> Result<Option<Key>, NoMemory>
    ensures { IfOk result
        (λ k. k ≡ option_map keys.key_of (asking.asked_in (message_view message.now))) }
{
    match asking_host(message) {
        None => Ok(None),
        Some(host) => Ok(Some(Key {
            host: Octets::copy(alloc, host)?,
            end: message.header.end,
        })),
    }
}
