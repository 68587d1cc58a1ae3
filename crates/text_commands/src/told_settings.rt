//! Settings as the lines of a transcript tell them.

ghost use Rattle.std.specs.Prelude.{◌≡◌, None, IfSome, IfErr, OnOk, option_map};
ghost use Rattle.agent_settings.specs.Config.{find_address, with_client};

use agent_settings::{Client, Config};
use agent_status::Status;

/// A further client of the settings, where some were told.
pub fn join_client(told: &mut Option<Config>, client: Client) -> Result<(), Status>
    requires { IfSome told.old (λ config. find_address client.address config.clients ≡ None) }
    ensures joins { OnOk result
        (told.new ≡ option_map (λ config. with_client config client) told.old) }
    ensures memory { IfErr result (λ status. status ≡ Status.OutOfMemory) }
{
    match told {
        None => Ok(()),
        Some(config) => match config.clients.push(client) {
            Ok(()) => Ok(()),
            Err(_) => Err(Status::OutOfMemory),
        },
    }
}
