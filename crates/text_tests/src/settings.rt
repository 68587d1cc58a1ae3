//! Settings as values.

use crate::printers::is_line;
use agent_config::{ConfigFault, clients_from, read, read_address};
use agent_settings::{Client, Clients, Config, is_client_in_limits, is_in_limits};
use printed_lines::print_settings;
use std::alloc::Global;
use std::test::Fail;

/// Settings without a boot, with one client that has further addresses.
const SETTINGS: &str = "\
host='a'
realm='b'
address='1.2.3.4'
[[clients]]
name='d'
address='10.0.0.1'
secret='e'
origin_host='f'
origin_realm='g'
nas_addresses=['10.0.0.9','10.0.0.8']
";

/// The lines that they are printed as.
const SETTINGS_LINES: &str = "\
agent a b b 1.2.3.4 0 30000 4096 4096 30000 30000
client d 10.0.0.1 65 f g plain refuse 10.0.0.9,10.0.0.8
";

/// Whether the top table was read.
fn has_top(config: &Config) -> bool {
    Some(config.address) == read_address(b"1.2.3.4")
        && config.address == 0x0102_0304
        && config.boot.is_none()
        && is_in_limits(config)
}

/// Whether a client was read.
fn is_client(client: &Client) -> bool {
    client.nas.as_slice() == [0x0a00_0009, 0x0a00_0008].as_slice() && is_client_in_limits(client)
}

/// Whether the one client is found by its address alone.
fn is_found(clients: &Clients) -> bool {
    clients.len() == 1
        && matches!(clients.by_address(0x0a00_0001), Some((0, _)))
        && clients.by_address(0x0a00_0009).is_none()
        && is_client(clients.at(0))
}

/// Whether a list has the client when it was pushed.
fn is_pushed(alloc: Global, client: &Client) -> bool {
    let mut clients = Clients::new(alloc);
    match client.clone() {
        Ok(copy) => clients.push(copy).is_ok() && is_found(&clients),
        Err(_) => false,
    }
}

/// Puts a copy at the end: whether there was memory for it.
fn has_room(clients: &mut Vec<Client>, client: &Client) -> bool {
    match client.clone() {
        Ok(copy) => clients.push(copy).is_ok(),
        Err(_) => false,
    }
}

/// Whether the second client has the address of an earlier one.
fn is_second_refused(alloc: Global, clients: Vec<Client>) -> bool {
    clients.len() <= 2
        && matches!(
            clients_from(alloc, clients),
            Err(ConfigFault::TwiceAddress { client: 2 })
        )
}

/// Whether a list that has the client twice is refused.
fn is_refused_twice(alloc: Global, client: &Client) -> bool {
    let mut clients = Vec::new(alloc);
    has_room(&mut clients, client)
        && has_room(&mut clients, client)
        && is_second_refused(alloc, clients)
}

/// Whether the settings are printed.
fn is_printed(alloc: Global, config: &Config) -> bool {
    is_line(&print_settings(alloc, config), SETTINGS_LINES)
}

/// Whether the settings, and lists of their client, are as they are to be.
fn is_usual(alloc: Global, config: &Config) -> bool {
    config.clients.len() == 1
        && has_top(config)
        && is_found(&config.clients)
        && is_pushed(alloc, config.clients.at(0))
        && is_refused_twice(alloc, config.clients.at(0))
        && is_printed(alloc, config)
}

#[test]
fn values_of_settings(rt: HostRuntime) -> Result<(), Fail> {
    let config = read(rt.alloc(), SETTINGS.as_bytes())?;
    assert!(rt; is_usual(rt.alloc(), &config));
    Ok(())
}
