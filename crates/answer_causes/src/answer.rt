//! Answers to all requests.

ghost use Rattle.std.specs.Prelude.{◌≡◌, ◌≤◌, length, IfOk};
ghost use Rattle.radius_packet.specs.Packet.{attributes_in, attributes_text};
ghost use Rattle.diameter_message.specs.View.{message_view};
ghost use Rattle.translation.specs.AvpList.{list_view};
ghost use Rattle.answer_causes.specs.Causes as specs;

use crate::access::access_cause;
use crate::accounting::accounting_cause;
use crate::cause::Cause;
use agent_settings::Client;
use diameter_avp::Avp;
use diameter_message::{Header, Message};
use session_carrier::{Kept, Kind2};
use std::alloc::Global;
use translation::Service;
use translation::avp_list::read;
use wire_core::NoMemory;

/// The cause by the kind of the request.
fn cause_by_kind(
    alloc: Global,
    client: &Client,
    kept: &Kept,
    header: &Header,
    list: &[Avp<'_>],
) -> Result<Option<Cause>, NoMemory>
    requires session { length kept.now.session ≤ specs.longest_session kept.now.kind }
    requires whole { kept.now.proxy ≡ attributes_text (attributes_in kept.now.proxy) }
    ensures { IfOk result (λ cause. cause
        ≡ specs.cause_by_kind kept.now.kind client.now kept.now header.now (list_view list.now)) }
{
    match kept.kind {
        Kind2::Access => access_cause(alloc, Service::Nasreq, client, kept, header, list),
        Kind2::Eap => access_cause(alloc, Service::Eap, client, kept, header, list),
        Kind2::Start | Kind2::Interim | Kind2::Stop => Ok(accounting_cause(kept, header, list)),
    }
}

/// Why the answer to a request of which this was kept doesn't give what it says: an Access-Reject in its place, or no
/// Accounting-Response. None where it does.
#[tactic(auto, unfolding(crate::specs::Causes::cause))]
pub fn cause_of(
    alloc: Global,
    client: &Client,
    kept: &Kept,
    message: &Message<'_>,
) -> Result<Option<Cause>, NoMemory>
    requires session { length kept.now.session ≤ specs.longest_session kept.now.kind }
    requires whole { kept.now.proxy ≡ attributes_text (attributes_in kept.now.proxy) }
    ensures { IfOk result
        (λ cause. cause ≡ specs.cause client.now kept.now (message_view message.now)) }
{
    match read(alloc, message.avps)? {
        Some(list) => cause_by_kind(alloc, client, kept, &message.header, list.as_slice()),
        None => Ok(Some(Cause::RottenAvps)),
    }
}
