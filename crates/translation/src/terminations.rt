//! The request that ends a session (RFC 6733, section 8.4.1).

ghost use Rattle.std.specs.Prelude.{◌≡◌, ◌≤◌, length, IfOk, IfSome, OnOk};
ghost use Rattle.std.specs.Option.{option_copied};
ghost use Rattle.agent_settings.specs.Config.{ClientInLimits};
ghost use Rattle.diameter_message.specs.Writer.{list_length, Puts};
ghost use Rattle.translation.specs.Termination as specs;

use crate::names::{put_host, put_names};
use agent_settings::Client;
use diameter_message::avp_codes::{AUTH_APPLICATION_ID, TERMINATION_CAUSE};
use diameter_message::command_codes::SESSION_TERMINATION;
use diameter_message::command_flags::{PROXIABLE, REQUEST};
use diameter_message::{Header, MessageWriter};
use session_carrier::{Kept, Numbers};
use std::alloc::Global;
use wire_core::{NoMemory, Octets};

/// Puts all AVPs.
#[tactic(auto, using(crate::proofs::ClientLimits::host_is_short, crate::proofs::ClientLimits::realm_is_short))]
fn put_termination(
    writer: &mut MessageWriter,
    client: &Client,
    kept: &Kept,
    application: u32,
    cause: u32,
    host: Option<&[u8]>,
) -> Result<(), NoMemory>
    requires empty { list_length writer.old ≡ 0 }
    requires client { ClientInLimits client.now }
    requires realm { length kept.now.realm ≤ 255 }
    requires session { length kept.now.session ≤ 1024 }
    requires host { IfSome (option_copied host) (λ host. length host ≤ 255) }
    ensures { OnOk result (Puts writer.old writer.new (specs.termination_avps client.now kept.now
        application cause (option_copied host.entry)) 1796) }
{
    put_names(
        writer,
        client,
        kept.session.as_slice(),
        kept.realm.as_slice(),
    )?;
    writer.put_number(AUTH_APPLICATION_ID, application)?;
    writer.put_number(TERMINATION_CAUSE, cause)?;
    put_host(writer, host)
}

/// The Session-Termination-Request of this application for the session of a request, with this Termination-Cause and,
/// where there is one, this Destination-Host (RFC 6733, section 8.4.1).
pub fn termination(
    alloc: Global,
    client: &Client,
    kept: &Kept,
    application: u32,
    cause: u32,
    host: Option<&[u8]>,
    numbers: Numbers,
) -> Result<Octets, NoMemory>
    requires client { ClientInLimits client.now }
    requires realm { length kept.now.realm ≤ 255 }
    requires session { length kept.now.session ≤ 1024 }
    requires host { IfSome (option_copied host) (λ host. length host ≤ 255) }
    ensures { IfOk result (λ o. o ≡ specs.termination_text client.now kept.now application cause
        (option_copied host.entry) numbers) }
{
    let header = Header {
        flags: REQUEST | PROXIABLE,
        command: SESSION_TERMINATION,
        application,
        hop: numbers.hop,
        end: numbers.end,
    };
    let mut writer = MessageWriter::new(alloc, header)?;
    put_termination(&mut writer, client, kept, application, cause, host)?;
    Ok(writer.finish())
}
