//! Clients of settings, gathered in their order.

ghost use Rattle.std.specs.Prelude.{◌≡◌, ◌≢◌, ◌≤◌, length, None, Some, IfOk, IfErr};
ghost use Rattle.agent_config.specs.Twice.{twice};
ghost use Rattle.agent_settings.specs.declared.fault.ConfigFault.TheVariants as fault;

use agent_settings::{Client, Clients, ConfigFault};
use std::alloc::Global;

/// The clients of a `Vec`. `TwiceAddress` where two have one address, with the place, counted
/// from 1, of the first client whose address an earlier one has.
pub fn clients_from(alloc: Global, clients: Vec<Client>) -> Result<Clients, ConfigFault>
    requires { length clients.items ≤ 1024 }
    ensures ok { IfOk result (λ made. (twice clients.items ≡ None) × (made ≡ clients.items)) }
    ensures err { IfErr result (λ e. e ≢ fault.NoMemory → twice clients.items ≡ Some e) }
{
    let mut made = Clients::new(alloc);
    for client in clients {
        if made.by_address(client.address).is_some() {
            return Err(ConfigFault::TwiceAddress {
                client: made.len() as u32 + 1,
            });
        }
        made.push(client)?;
    }
    Ok(made)
}
