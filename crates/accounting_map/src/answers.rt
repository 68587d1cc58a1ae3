//! What an Accounting-Answer causes (RFC 4005, section 9; RFC 2866, section 4.2).

ghost use Rattle.std.specs.Prelude.{◌≡◌, ◌≤◌, IfOk, IfSome, length};
ghost use Rattle.std.specs.Option.{option_copied};
ghost use Rattle.radius_packet.specs.Packet.{attributes_in, attributes_text};
ghost use Rattle.diameter_message.specs.View.{message_view};
ghost use Rattle.agent_settings.specs.Config.{ClientInLimits};
ghost use Rattle.translation.specs.Acceptance as acceptance;
ghost use Rattle.translation.specs.Termination.{termination_text};
ghost use Rattle.accounting_map.specs.Answers as specs;

use agent_settings::Client;
use diameter_message::Message;
use diameter_message::applications::NASREQ;
use session_carrier::{Kept, Kind2, Numbers, Outcome};
use std::alloc::Global;
use translation::{bare_reply, is_accepted};
use wire_core::{NoMemory, Octets};

/// An Accounting-Response (RFC 2866, section 3).
const ACCOUNTING_RESPONSE: u8 = 5;

/// The Session-Termination-Request of this application for the session of a request, with this Termination-Cause and,
/// where there is one, this Destination-Host (RFC 6733, section 8.4.1).
pub fn termination(
    alloc: Global,
    client: &Client,
    kept: &Kept,
    application: u32,
    cause: u32,
    host: Option<&[u8]>,
    numbers: Numbers,
) -> Result<Octets, NoMemory>
    requires client { ClientInLimits client.now }
    requires realm { length kept.now.realm ≤ 255 }
    requires session { length kept.now.session ≤ 1024 }
    requires host { IfSome (option_copied host) (λ host. length host ≤ 255) }
    ensures { IfOk result (λ o. o ≡ termination_text client.now kept.now application cause
        (option_copied host.entry) numbers) }
{
    translation::termination(alloc, client, kept, application, cause, host, numbers)
}

/// The Accounting-Response, where the home server took the record.
fn response(
    alloc: Global,
    client: &Client,
    kept: &Kept,
    message: &Message<'_>,
) -> Result<Option<Octets>, NoMemory>
    requires whole { kept.now.proxy ≡ attributes_text (attributes_in kept.now.proxy) }
    requires proxy { length kept.now.proxy ≤ 2048 }
    ensures { IfOk result (λ o. o ≡ specs.reply_if
        (acceptance.is_accepted kept.now (message_view message.now)) client.now kept.now) }
{
    if !is_accepted(alloc, kept, message)? {
        return Ok(None);
    }
    let response = bare_reply(alloc, client, kept, ACCOUNTING_RESPONSE, false)?;
    Ok(Some(response))
}

/// The request that ends the session behind a Stop.
fn follow(
    alloc: Global,
    client: &Client,
    kept: &Kept,
    numbers: Numbers,
) -> Result<Option<Octets>, NoMemory>
    requires client { ClientInLimits client.now }
    requires realm { length kept.now.realm ≤ 255 }
    requires session { length kept.now.session ≤ 1024 }
    ensures { IfOk result (λ o. o ≡ specs.follow_of kept.now.kind client.now kept.now numbers) }
{
    match kept.kind {
        Kind2::Stop => {
            let request = termination(alloc, client, kept, NASREQ, kept.cause, None, numbers)?;
            Ok(Some(request))
        }
        Kind2::Start | Kind2::Interim | Kind2::Access | Kind2::Eap => Ok(None),
    }
}

/// What an Accounting-Answer causes: an Accounting-Response where the home server took the record, else no reply; and
/// behind a Stop in both cases the request that ends the session.
#[tactic(auto, unfolding(crate::specs::Answers::outcome))]
pub fn answer(
    alloc: Global,
    client: &Client,
    kept: &Kept,
    message: &Message<'_>,
    numbers: Numbers,
) -> Result<Outcome, NoMemory>
    requires client { ClientInLimits client.now }
    requires realm { length kept.now.realm ≤ 255 }
    requires session { length kept.now.session ≤ 1024 }
    requires whole { kept.now.proxy ≡ attributes_text (attributes_in kept.now.proxy) }
    requires proxy { length kept.now.proxy ≤ 2048 }
    ensures { IfOk result
        (λ o. o ≡ specs.outcome client.now kept.now (message_view message.now) numbers) }
{
    let reply = response(alloc, client, kept, message)?;
    let follow = follow(alloc, client, kept, numbers)?;
    Ok(Outcome { reply, follow })
}
