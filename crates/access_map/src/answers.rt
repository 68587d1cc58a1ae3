//! The packet that answers an Access-Request (RFC 4005, sections 3.2 and 9).

ghost use Rattle.std.specs.Prelude.{◌≡◌, ◌≤◌, IfOk, length};
ghost use Rattle.radius_packet.specs.Packet.{attributes_in, attributes_text};
ghost use Rattle.diameter_message.specs.View.{message_view};
ghost use Rattle.agent_settings.specs.Config.{ClientInLimits};
ghost use Rattle.translation.specs.Answers.{outcome};
ghost use Rattle.translation.specs.declared.service.Service.TheVariants.{Nasreq};

use agent_settings::Client;
use diameter_message::Message;
use session_carrier::{Kept, Numbers, Outcome};
use std::alloc::Global;
use translation::Service;
use wire_core::NoMemory;

/// What an AA-Answer causes: an Access-Accept, an Access-Challenge or an Access-Reject, and for a bad answer that granted
/// the session the request that ends it.
pub fn answer(
    alloc: Global,
    client: &Client,
    kept: &Kept,
    message: &Message<'_>,
    numbers: Numbers,
) -> Result<Outcome, NoMemory>
    requires client { ClientInLimits client.now }
    requires realm { length kept.now.realm ≤ 255 }
    requires session { length kept.now.session ≤ 244 }
    requires whole { kept.now.proxy ≡ attributes_text (attributes_in kept.now.proxy) }
    requires proxy { length kept.now.proxy ≤ 2048 }
    ensures { IfOk result
        (λ o. o ≡ outcome Nasreq client.now kept.now (message_view message.now) numbers) }
{
    translation::answer(alloc, Service::Nasreq, client, kept, message, numbers)
}
