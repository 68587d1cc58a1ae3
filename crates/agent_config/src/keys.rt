//! The keys of a table, each as settings read it.

ghost use Rattle.std.specs.Prelude.{◌≡◌, ◌≢◌, ◌≤◌, None, Some, [], length, codes, unwrap_or, IsSome, IfOk, IfErr, IfSome, map, option_map, option_copied};
ghost use Rattle.std.specs.List.{list_any};
ghost use Rattle.std.specs.Str.{bytes_eq};
ghost use Rattle.toml.specs.Data.{as_bool, as_table, get_member};
ghost use Rattle.toml.specs.View.{view, items_view, table_view};
ghost use Rattle.agent_config.specs.Values as values;
ghost use Rattle.agent_config.specs.Settings.{at, needed, allowed, first_unknown, unknown};
ghost use Rattle.agent_settings.specs.declared.fault.ConfigFault.TheVariants as fault;

use crate::values::{
    address_in, addresses_in, keys_choice_in, name_in, number_in, secret_in, tables_in,
};
use agent_settings::{AddressList, ConfigFault};
use std::alloc::Global;
use toml::{Table, Value};
use wire_core::Octets;

/// The value of a key.
fn look<'a>(table: &'a Table, key: &str) -> Option<&'a Value>
    ensures { option_map (λ v. view v.now) result ≡ get_member key.now (table_view table.now) }
{
    table.get(key)
}

/// That a key isn't there.
fn missing(alloc: Global, client: u32, key: &str) -> ConfigFault
    ensures { result ≢ fault.NoMemory → result ≡ fault.Missing client key.now }
{
    match Octets::copy(alloc, key.as_bytes()) {
        Ok(key) => ConfigFault::Missing { client, key },
        Err(_) => ConfigFault::NoMemory,
    }
}

/// That the value of a key can't be read.
fn bad_value(alloc: Global, client: u32, key: &str) -> ConfigFault
    ensures { result ≢ fault.NoMemory → result ≡ fault.BadValue client key.now }
{
    match Octets::copy(alloc, key.as_bytes()) {
        Ok(key) => ConfigFault::BadValue { client, key },
        Err(_) => ConfigFault::NoMemory,
    }
}

/// A name that has to be there.
pub(crate) fn name(
    alloc: Global,
    table: &Table,
    client: u32,
    key: &str,
) -> Result<Octets, ConfigFault>
    ensures ok { IfOk result
        (λ o. (needed client key.now values.name_of (table_view table.now) ≡ None)
        × (at key.now values.name_of (table_view table.now) ≡ Some o)) }
    ensures err { IfErr result (λ e. e ≢ fault.NoMemory
        → needed client key.now values.name_of (table_view table.now) ≡ Some e) }
{
    match look(table, key) {
        None => Err(missing(alloc, client, key)),
        Some(value) => match name_in(value) {
            Some(text) => Ok(Octets::copy(alloc, text)?),
            None => Err(bad_value(alloc, client, key)),
        },
    }
}

/// A name that may be missing.
pub(crate) fn name_or_none(
    alloc: Global,
    table: &Table,
    client: u32,
    key: &str,
) -> Result<Option<Octets>, ConfigFault>
    ensures ok { IfOk result
        (λ o. (allowed client key.now values.name_of (table_view table.now) ≡ None)
        × (at key.now values.name_of (table_view table.now) ≡ o)) }
    ensures err { IfErr result (λ e. e ≢ fault.NoMemory
        → allowed client key.now values.name_of (table_view table.now) ≡ Some e) }
{
    match look(table, key) {
        None => Ok(None),
        Some(value) => match name_in(value) {
            Some(text) => Ok(Some(Octets::copy(alloc, text)?)),
            None => Err(bad_value(alloc, client, key)),
        },
    }
}

/// A secret that has to be there.
pub(crate) fn secret(
    alloc: Global,
    table: &Table,
    client: u32,
    key: &str,
) -> Result<Octets, ConfigFault>
    ensures ok { IfOk result
        (λ o. (needed client key.now values.secret_of (table_view table.now) ≡ None)
        × (at key.now values.secret_of (table_view table.now) ≡ Some o)) }
    ensures err { IfErr result (λ e. e ≢ fault.NoMemory
        → needed client key.now values.secret_of (table_view table.now) ≡ Some e) }
{
    match look(table, key) {
        None => Err(missing(alloc, client, key)),
        Some(value) => match secret_in(value) {
            Some(text) => Ok(Octets::copy(alloc, text)?),
            None => Err(bad_value(alloc, client, key)),
        },
    }
}

/// An address that has to be there.
pub(crate) fn address(
    alloc: Global,
    table: &Table,
    client: u32,
    key: &str,
) -> Result<u32, ConfigFault>
    ensures ok { IfOk result
        (λ a. (needed client key.now values.address_of (table_view table.now) ≡ None)
        × (at key.now values.address_of (table_view table.now) ≡ Some a)) }
    ensures err { IfErr result (λ e. e ≢ fault.NoMemory
        → needed client key.now values.address_of (table_view table.now) ≡ Some e) }
{
    match look(table, key) {
        None => Err(missing(alloc, client, key)),
        Some(value) => match address_in(value) {
            Some(address) => Ok(address),
            None => Err(bad_value(alloc, client, key)),
        },
    }
}

/// A number of the top table, in a range, that may be missing.
pub(crate) fn number(
    alloc: Global,
    table: &Table,
    key: &str,
    low: u64,
    high: u64,
) -> Result<Option<u64>, ConfigFault>
    ensures ok { IfOk result
        (λ n. (allowed 0 key.now (values.number_of low high) (table_view table.now) ≡ None)
        × (at key.now (values.number_of low high) (table_view table.now) ≡ n)) }
    ensures small { IfOk result (λ n. IfSome n (λ number. number ≤ high)) }
    ensures err { IfErr result (λ e. e ≢ fault.NoMemory
        → allowed 0 key.now (values.number_of low high) (table_view table.now) ≡ Some e) }
{
    match look(table, key) {
        None => Ok(None),
        Some(value) => match number_in(value, low, high) {
            Some(number) => Ok(Some(number)),
            None => Err(bad_value(alloc, 0, key)),
        },
    }
}

/// A boolean that may be missing.
pub(crate) fn flag(
    alloc: Global,
    table: &Table,
    client: u32,
    key: &str,
) -> Result<Option<bool>, ConfigFault>
    ensures ok { IfOk result (λ b. (allowed client key.now as_bool (table_view table.now) ≡ None)
        × (at key.now as_bool (table_view table.now) ≡ b)) }
    ensures err { IfErr result (λ e. e ≢ fault.NoMemory
        → allowed client key.now as_bool (table_view table.now) ≡ Some e) }
{
    match look(table, key) {
        None => Ok(None),
        Some(value) => match value.as_bool() {
            Some(flag) => Ok(Some(flag)),
            None => Err(bad_value(alloc, client, key)),
        },
    }
}

/// Whether key attributes are left out, which may be missing.
pub(crate) fn keys_choice(
    alloc: Global,
    table: &Table,
    client: u32,
    key: &str,
) -> Result<Option<bool>, ConfigFault>
    ensures ok { IfOk result
        (λ b. (allowed client key.now values.keys_choice_of (table_view table.now) ≡ None)
        × (at key.now values.keys_choice_of (table_view table.now) ≡ b)) }
    ensures err { IfErr result (λ e. e ≢ fault.NoMemory
        → allowed client key.now values.keys_choice_of (table_view table.now) ≡ Some e) }
{
    match look(table, key) {
        None => Ok(None),
        Some(value) => match keys_choice_in(value) {
            Some(omit) => Ok(Some(omit)),
            None => Err(bad_value(alloc, client, key)),
        },
    }
}

/// Addresses, none where the key is missing.
pub(crate) fn addresses(
    alloc: Global,
    table: &Table,
    client: u32,
    key: &str,
) -> Result<AddressList, ConfigFault>
    ensures ok { IfOk result
        (λ a. (allowed client key.now values.addresses_of (table_view table.now) ≡ None)
        × (unwrap_or (at key.now values.addresses_of (table_view table.now)) [] ≡ a)) }
    ensures err { IfErr result (λ e. e ≢ fault.NoMemory
        → allowed client key.now values.addresses_of (table_view table.now) ≡ Some e) }
{
    match look(table, key) {
        None => Ok(AddressList::from_vec(Vec::new(alloc))),
        Some(value) => match addresses_in(alloc, value)? {
            Some(addresses) => Ok(addresses),
            None => Err(bad_value(alloc, client, key)),
        },
    }
}

/// The clients, which have to be there: at most 1,024 tables.
pub(crate) fn client_tables(alloc: Global, table: &Table) -> Result<&[Value], ConfigFault>
    ensures ok { IfOk result
        (λ tables. (needed 0 (codes "clients") values.tables_of (table_view table.now) ≡ None)
        × (at (codes "clients") values.tables_of (table_view table.now)
        ≡ values.each as_table (items_view tables.now))) }
    ensures tables { IfOk result (λ tables. IsSome (values.each as_table (items_view tables.now))) }
    ensures few { IfOk result (λ tables. length tables.now ≤ 1024) }
    ensures err { IfErr result (λ e. e ≢ fault.NoMemory
        → needed 0 (codes "clients") values.tables_of (table_view table.now) ≡ Some e) }
{
    match look(table, "clients") {
        None => Err(missing(alloc, 0, "clients")),
        Some(value) => match tables_in(value) {
            Some(tables) => Ok(tables),
            None => Err(bad_value(alloc, 0, "clients")),
        },
    }
}

/// Whether this is one of the known keys.
fn is_known(known: &[&str], key: &str) -> bool
    ensures { result ≡ list_any (bytes_eq key.now) (map (λ k. k.now) known.now) }
{
    for other in known {
        if key == *other {
            return true;
        }
    }
    false
}

/// The first key that isn't known, in the order of octets.
fn unknown_key<'a>(table: &'a Table, known: &[&str]) -> Option<&'a str>
    ensures { option_copied result
        ≡ first_unknown (map (λ k. k.now) known.now) (table_view table.now) }
{
    for key in table.keys() {
        if !is_known(known, key.as_str()) {
            return Some(key.as_str());
        }
    }
    None
}

/// Each key of the table has to be known.
pub(crate) fn no_others(
    alloc: Global,
    table: &Table,
    client: u32,
    known: &[&str],
) -> Result<(), ConfigFault>
    ensures ok { IfOk result
        (λ _. unknown client (map (λ k. k.now) known.now) (table_view table.now) ≡ None) }
    ensures err { IfErr result (λ e. e ≢ fault.NoMemory
        → unknown client (map (λ k. k.now) known.now) (table_view table.now) ≡ Some e) }
{
    match unknown_key(table, known) {
        None => Ok(()),
        Some(key) => Err(bad_value(alloc, client, key)),
    }
}
