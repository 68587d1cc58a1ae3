//! The names in a request: of its session, of where it comes from and of where it goes.

ghost use Rattle.std.specs.Prelude.{◌≡◌, ◌≤◌, length, IfSome, OnOk};
ghost use Rattle.std.specs.Option.{option_copied};
ghost use Rattle.diameter_message.specs.Writer.{list_length, Puts};
ghost use Rattle.translation.specs.Names as specs;

use agent_settings::Client;
use diameter_message::MessageWriter;
use diameter_message::avp_codes::{DESTINATION_HOST, DESTINATION_REALM, SESSION_ID};
use wire_core::NoMemory;

/// Puts the Session-Id, the client's Origin-Host and Origin-Realm, and the Destination-Realm.
pub fn put_names(
    writer: &mut MessageWriter,
    client: &Client,
    session: &[u8],
    realm: &[u8],
) -> Result<(), NoMemory>
    requires empty { list_length writer.old ≡ 0 }
    requires session { length session.now ≤ 1024 }
    requires realm { length realm.now ≤ 255 }
    requires origin_host { length client.now.origin_host ≤ 64 }
    requires origin_realm { length client.now.origin_realm ≤ 64 }
    ensures { OnOk result
        (Puts writer.old writer.new (specs.names client.now session.now realm.now) 1500) }
{
    writer.put_plain(SESSION_ID, session)?;
    writer.put_origin(
        client.origin_host.as_slice(),
        client.origin_realm.as_slice(),
    )?;
    writer.put_plain(DESTINATION_REALM, realm)
}

/// Puts the Destination-Host where there is one.
pub(crate) fn put_host(writer: &mut MessageWriter, host: Option<&[u8]>) -> Result<(), NoMemory>
    requires few { list_length writer.old ≤ 1600 }
    requires host { IfSome (option_copied host) (λ host. length host ≤ 255) }
    ensures { OnOk result
        (Puts writer.old writer.new (specs.host_avps (option_copied host.entry)) 266) }
{
    match host {
        Some(host) => writer.put_plain(DESTINATION_HOST, host),
        None => Ok(()),
    }
}
