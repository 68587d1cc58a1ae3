//! Settings as a TOML document has them.

ghost use Rattle.std.specs.Prelude.{◌≡◌, ◌≢◌, ◌≤◌, ◌^◌, ◌<◌, ◌+◌, None, Some, Ok, Err, [], length, map, codes, unwrap_or, IsSome, IfOk, IfErr};
ghost use Rattle.toml.specs.Data.{as_table};
ghost use Rattle.toml.specs.View.{items_view, table_view};
ghost use Rattle.agent_config.specs.Values.{each, number_of, tables_of};
ghost use Rattle.agent_config.specs.Settings.{allowed, at, client_faults, client_of, clients_faults, first, identity_faults, name_faults, number_faults, origin_faults, rule_faults, settings_in, settled, tables_in, top_faults, top_of};
ghost use Rattle.agent_settings.specs.declared.fault.ConfigFault.TheVariants as fault;

use crate::gathering::clients_from;
use crate::keys::{
    address, addresses, client_tables, flag, keys_choice, name, name_or_none, no_others, number,
    secret,
};
use agent_settings::{AddressList, Client, Clients, Config, ConfigFault};
use std::alloc::Global;
use toml::{Table, Value};
use wire_core::Octets;

/// The keys of the top table.
const TOP_KEYS: [&str; 11] = [
    "host",
    "realm",
    "home_realm",
    "address",
    "boot",
    "retention_ms",
    "capacity",
    "backlog",
    "watchdog_ms",
    "patience_ms",
    "clients",
];

/// The keys of a client's table.
const CLIENT_KEYS: [&str; 8] = [
    "name",
    "address",
    "secret",
    "origin_host",
    "origin_realm",
    "require_seal",
    "session_keys",
    "nas_addresses",
];

/// Who a client is.
#[derive(Drop)]
struct Identity {
    name: Octets,
    address: u32,
    secret: Octets,
}

/// The peer that a client is in Diameter.
#[derive(Drop)]
struct Origin {
    host: Octets,
    realm: Octets,
}

/// What holds for a client.
#[derive(Drop)]
struct Rules {
    require_seal: bool,
    omit_keys: bool,
    nas: AddressList,
}

/// Who the client of a table is.
#[tactic(auto, using(crate::proofs::FaultLemmas::first_passed, crate::proofs::FaultLemmas::first_stops), unfolding(crate::specs::Settings::client_of))]
fn read_identity(alloc: Global, table: &Table, client: u32) -> Result<Identity, ConfigFault>
    ensures ok { IfOk result (λ i. (first (identity_faults client (table_view table.now)) ≡ None)
        × (i.name ≡ (client_of (table_view table.now)).name)
        × (i.address ≡ (client_of (table_view table.now)).address)
        × (i.secret ≡ (client_of (table_view table.now)).secret)) }
    ensures err { IfErr result
        (λ e. e ≢ fault.NoMemory → first (identity_faults client (table_view table.now)) ≡ Some e) }
{
    Ok(Identity {
        name: name(alloc, table, client, "name")?,
        address: address(alloc, table, client, "address")?,
        secret: secret(alloc, table, client, "secret")?,
    })
}

/// The peer that the client of a table is.
#[tactic(auto, using(crate::proofs::FaultLemmas::first_passed, crate::proofs::FaultLemmas::first_stops), unfolding(crate::specs::Settings::client_of))]
fn read_origin(alloc: Global, table: &Table, client: u32) -> Result<Origin, ConfigFault>
    ensures ok { IfOk result (λ o. (first (origin_faults client (table_view table.now)) ≡ None)
        × (o.host ≡ (client_of (table_view table.now)).origin_host)
        × (o.realm ≡ (client_of (table_view table.now)).origin_realm)) }
    ensures err { IfErr result
        (λ e. e ≢ fault.NoMemory → first (origin_faults client (table_view table.now)) ≡ Some e) }
{
    Ok(Origin {
        host: name(alloc, table, client, "origin_host")?,
        realm: name(alloc, table, client, "origin_realm")?,
    })
}

/// What holds for the client of a table.
#[tactic(auto, using(crate::proofs::FaultLemmas::first_passed, crate::proofs::FaultLemmas::first_stops), unfolding(crate::specs::Settings::client_of))]
fn read_rules(alloc: Global, table: &Table, client: u32) -> Result<Rules, ConfigFault>
    ensures ok { IfOk result (λ r. (first (rule_faults client (table_view table.now)) ≡ None)
        × (r.require_seal ≡ (client_of (table_view table.now)).require_seal)
        × (r.omit_keys ≡ (client_of (table_view table.now)).omit_keys)
        × (r.nas ≡ (client_of (table_view table.now)).nas)) }
    ensures err { IfErr result
        (λ e. e ≢ fault.NoMemory → first (rule_faults client (table_view table.now)) ≡ Some e) }
{
    Ok(Rules {
        require_seal: flag(alloc, table, client, "require_seal")?.unwrap_or(false),
        omit_keys: keys_choice(alloc, table, client, "session_keys")?.unwrap_or(false),
        nas: addresses(alloc, table, client, "nas_addresses")?,
    })
}

/// The client of a table.
#[tactic(auto, using(crate::proofs::FaultLemmas::first_passed, crate::proofs::FaultLemmas::front_passed, crate::proofs::FaultLemmas::front_stops), unfolding(crate::specs::Settings::client_faults))]
fn read_client(alloc: Global, table: &Table, client: u32) -> Result<Client, ConfigFault>
    ensures ok { IfOk result (λ c. (first (client_faults client (table_view table.now)) ≡ None)
        × (c ≡ client_of (table_view table.now))) }
    ensures err { IfErr result
        (λ e. e ≢ fault.NoMemory → first (client_faults client (table_view table.now)) ≡ Some e) }
{
    let identity = read_identity(alloc, table, client)?;
    let origin = read_origin(alloc, table, client)?;
    let rules = read_rules(alloc, table, client)?;
    no_others(alloc, table, client, &CLIENT_KEYS)?;
    Ok(Client {
        name: identity.name,
        address: identity.address,
        secret: identity.secret,
        origin_host: origin.host,
        origin_realm: origin.realm,
        require_seal: rules.require_seal,
        omit_keys: rules.omit_keys,
        nas: rules.nas,
    })
}

/// A number of the top table below 2^32, in a range, that may be missing.
fn small_number(
    alloc: Global,
    table: &Table,
    key: &str,
    low: u32,
    high: u32,
) -> Result<Option<u32>, ConfigFault>
    ensures ok { IfOk result
        (λ n. (allowed 0 key.now (number_of low high) (table_view table.now) ≡ None)
        × (at key.now (number_of low high) (table_view table.now) ≡ n)) }
    ensures err { IfErr result (λ e. e ≢ fault.NoMemory
        → allowed 0 key.now (number_of low high) (table_view table.now) ≡ Some e) }
{
    match number(alloc, table, key, u64::from(low), u64::from(high))? {
        Some(number) => Ok(Some(number as u32)),
        None => Ok(None),
    }
}

/// The names of the top table, and its address.
#[derive(Drop)]
struct Names {
    host: Octets,
    realm: Octets,
    home_realm: Octets,
    address: u32,
}

/// The numbers of the top table.
#[derive(Clone, Copy)]
struct Figures {
    boot: Option<u32>,
    retention: u64,
    capacity: u32,
    backlog: u32,
    watchdog: u64,
    patience: u64,
}

/// The names of the top table, and its address.
#[tactic(auto, using(crate::proofs::FaultLemmas::first_passed, crate::proofs::FaultLemmas::first_stops), unfolding(crate::specs::Settings::top_of))]
fn read_names(alloc: Global, table: &Table) -> Result<Names, ConfigFault>
    ensures ok { IfOk result (λ n. (first (name_faults (table_view table.now)) ≡ None)
        × (n.host ≡ (top_of (table_view table.now)).host)
        × (n.realm ≡ (top_of (table_view table.now)).realm)
        × (n.home_realm ≡ (top_of (table_view table.now)).home_realm)
        × (n.address ≡ (top_of (table_view table.now)).address)) }
    ensures err { IfErr result
        (λ e. e ≢ fault.NoMemory → first (name_faults (table_view table.now)) ≡ Some e) }
{
    let host = name(alloc, table, 0, "host")?;
    let realm = name(alloc, table, 0, "realm")?;
    let home_realm = match name_or_none(alloc, table, 0, "home_realm")? {
        Some(home_realm) => home_realm,
        None => Octets::copy(alloc, realm.as_slice())?,
    };
    let address = address(alloc, table, 0, "address")?;
    Ok(Names {
        host,
        realm,
        home_realm,
        address,
    })
}

/// The numbers of the top table.
#[tactic(auto, using(crate::proofs::FaultLemmas::first_passed, crate::proofs::FaultLemmas::first_stops), unfolding(crate::specs::Settings::top_of))]
fn read_figures(alloc: Global, table: &Table) -> Result<Figures, ConfigFault>
    ensures ok { IfOk result (λ f. (first (number_faults (table_view table.now)) ≡ None)
        × (f.boot ≡ (top_of (table_view table.now)).boot)
        × (f.retention ≡ (top_of (table_view table.now)).retention)
        × (f.patience ≡ (top_of (table_view table.now)).patience)
        × (f.capacity ≡ (top_of (table_view table.now)).capacity)
        × (f.backlog ≡ (top_of (table_view table.now)).backlog)
        × (f.watchdog ≡ (top_of (table_view table.now)).watchdog)) }
    ensures err { IfErr result
        (λ e. e ≢ fault.NoMemory → first (number_faults (table_view table.now)) ≡ Some e) }
{
    let boot = small_number(alloc, table, "boot", 0, u32::MAX)?;
    let retention = number(alloc, table, "retention_ms", 1_000, 300_000)?.unwrap_or(30_000);
    let capacity = small_number(alloc, table, "capacity", 1, 65_536)?.unwrap_or(4_096);
    let backlog = small_number(alloc, table, "backlog", 2, 65_536)?.unwrap_or(4_096);
    let watchdog = number(alloc, table, "watchdog_ms", 6_000, 600_000)?.unwrap_or(30_000);
    let patience = number(alloc, table, "patience_ms", 1_000, 300_000)?.unwrap_or(retention);
    Ok(Figures {
        boot,
        retention,
        capacity,
        backlog,
        watchdog,
        patience,
    })
}

/// The settings of the top table, with no clients yet, and the tables of the clients.
#[tactic(auto, using(crate::proofs::FaultLemmas::first_passed, crate::proofs::FaultLemmas::front_passed, crate::proofs::FaultLemmas::front_stops), unfolding(crate::specs::Settings::top_faults, crate::specs::Settings::top_of))]
fn read_top(alloc: Global, table: &Table) -> Result<(Config, &[Value]), ConfigFault>
    ensures ok { IfOk result (λ read. (first (top_faults (table_view table.now)) ≡ None)
        × (read.0 ≡ top_of (table_view table.now))) }
    ensures tables { IfOk result (λ read. at (codes "clients") tables_of (table_view table.now)
        ≡ each as_table (items_view read.1.now)) }
    ensures some { IfOk result (λ read. IsSome (each as_table (items_view read.1.now))) }
    ensures few { IfOk result (λ read. length read.1.now ≤ 1024) }
    ensures err { IfErr result
        (λ e. e ≢ fault.NoMemory → first (top_faults (table_view table.now)) ≡ Some e) }
{
    let names = read_names(alloc, table)?;
    let figures = read_figures(alloc, table)?;
    let tables = client_tables(alloc, table)?;
    no_others(alloc, table, 0, &TOP_KEYS)?;
    let config = Config {
        host: names.host,
        realm: names.realm,
        home_realm: names.home_realm,
        address: names.address,
        boot: figures.boot,
        retention: figures.retention,
        patience: figures.patience,
        capacity: figures.capacity,
        backlog: figures.backlog,
        watchdog: figures.watchdog,
        clients: Clients::new(alloc),
    };
    Ok((config, tables))
}

/// The clients of some tables.
fn read_clients(alloc: Global, tables: &[Value]) -> Result<Vec<Client>, ConfigFault>
    requires some { IsSome (each as_table (items_view tables.now)) }
    requires few { length tables.now ≤ 1024 }
    ensures ok { IfOk result
        (λ clients. (first (clients_faults 1 (tables_in (items_view tables.now))) ≡ None)
        × (clients.items ≡ map client_of (tables_in (items_view tables.now)))) }
    ensures few { IfOk result (λ clients. length clients.items ≤ 1024) }
    ensures err { IfErr result (λ e. e ≢ fault.NoMemory
        → first (clients_faults 1 (tables_in (items_view tables.now))) ≡ Some e) }
{
    let mut clients = Vec::new(alloc);
    for (place, value) in tables.iter().enumerate() {
        let Some(table) = value.as_table() else {
            unreachable!();
        };
        clients.push(read_client(alloc, table, place as u32 + 1)?)?;
    }
    Ok(clients)
}

/// The settings of a document.
fn read_table(alloc: Global, table: &Table) -> Result<Config, ConfigFault>
    ensures ok { IfOk result (λ config. settled (table_view table.now) ≡ Ok config) }
    ensures err { IfErr result (λ e. e ≢ fault.NoMemory → settled (table_view table.now) ≡ Err e) }
{
    let (mut config, tables) = read_top(alloc, table)?;
    let clients = read_clients(alloc, tables)?;
    config.clients = clients_from(alloc, clients)?;
    Ok(config)
}

/// The settings of a TOML document, or the first of its faults. They are looked for in one order:
/// whether the text is TOML in UTF-8; for each key that settings have, whether it is there and what
/// it holds; other keys, by their octets; each client likewise; an address that an earlier client
/// has (profile).
pub fn read(alloc: Global, text: &[u8]) -> Result<Config, ConfigFault>
    ensures ok { IfOk result (λ config. settings_in text.now ≡ Ok config) }
    ensures err { IfErr result (λ e. e ≢ fault.NoMemory → settings_in text.now ≡ Err e) }
{
    match toml::table_from_slice(alloc, text) {
        Ok(table) => read_table(alloc, &table),
        Err(e) => {
            if e.is_memory() {
                Err(ConfigFault::NoMemory)
            } else {
                Err(ConfigFault::NotToml)
            }
        }
    }
}
