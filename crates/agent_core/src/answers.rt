//! What an answer gives the request that it matches.

ghost use Rattle.std.specs.Prelude.{◌≡◌, ◌≤◌, IfOk, length};
ghost use Rattle.radius_packet.specs.Packet.{attributes_in, attributes_text};
ghost use Rattle.diameter_message.specs.View.{message_view};
ghost use Rattle.agent_settings.specs.Config.{ClientInLimits};
ghost use Rattle.agent_core.specs.History as history;
ghost use Rattle.agent_core.specs.Fits.{longest_session};

use agent_settings::Client;
use diameter_message::Message;
use session_carrier::{Kept, Kind2, Numbers, Outcome};
use std::alloc::Global;
use wire_core::NoMemory;

/// The reply to a request of which this was kept, and the further request, by the map of its kind.
pub(crate) fn outcome(
    alloc: Global,
    client: &Client,
    kept: &Kept,
    message: &Message<'_>,
    numbers: Numbers,
) -> Result<Outcome, NoMemory>
    requires client { ClientInLimits client.now }
    requires session { length kept.now.session ≤ longest_session kept.now.kind }
    requires realm { length kept.now.realm ≤ 255 }
    requires proxy { kept.now.proxy ≡ attributes_text (attributes_in kept.now.proxy) }
    requires few { length kept.now.proxy ≤ 2048 }
    ensures { IfOk result (λ o. o
        ≡ history.outcome kept.now.kind client.now kept.now (message_view message.now) numbers) }
{
    match kept.kind {
        Kind2::Access => access_map::answer(alloc, client, kept, message, numbers),
        Kind2::Eap => eap_map::answer(alloc, client, kept, message, numbers),
        Kind2::Start | Kind2::Interim | Kind2::Stop => {
            accounting_map::answer(alloc, client, kept, message, numbers)
        }
    }
}
