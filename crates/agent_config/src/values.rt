//! What a value of a TOML document stands for.

ghost use Rattle.std.specs.Prelude.{◌≡◌, ◌≤◌, None, length, is_some, IsSome, IfOk, IfSome, IfNone, option_map, option_copied};
ghost use Rattle.toml.specs.Data.{as_table};
ghost use Rattle.toml.specs.View.{view, items_view};
ghost use Rattle.agent_config.specs.Values as values;

use address_text::read_address;
use agent_settings::{AddressList, is_name};
use std::alloc::Global;
use toml::Value;
use wire_core::NoMemory;

/// How many addresses a list has at most.
const MOST_ADDRESSES: usize = 64;

/// How many clients there are at most.
const MOST_CLIENTS: usize = 1_024;

/// A name.
pub(crate) fn name_in(value: &Value) -> Option<&[u8]>
    ensures { option_copied result ≡ values.name_of (view value.now) }
{
    let text = value.as_str()?.as_bytes();
    if is_name(text) { Some(text) } else { None }
}

/// A secret, 1 to 128 octets.
pub(crate) fn secret_in(value: &Value) -> Option<&[u8]>
    ensures { option_copied result ≡ values.secret_of (view value.now) }
{
    let text = value.as_str()?.as_bytes();
    if (1..=128).contains(&text.len()) {
        Some(text)
    } else {
        None
    }
}

/// An IPv4 address.
pub(crate) fn address_in(value: &Value) -> Option<u32>
    ensures { result ≡ values.address_of (view value.now) }
{
    read_address(value.as_str()?.as_bytes())
}

/// A number of a range.
pub(crate) fn number_in(value: &Value, low: u64, high: u64) -> Option<u64>
    ensures exact { result ≡ values.number_of low high (view value.now) }
    ensures small { IfSome result (λ n. n ≤ high) }
{
    let number = u64::try_from(value.as_integer()?).ok()?;
    if (low..=high).contains(&number) {
        Some(number)
    } else {
        None
    }
}

/// Whether key attributes are left out: `omit`, or `refuse`.
pub(crate) fn keys_choice_in(value: &Value) -> Option<bool>
    ensures { result ≡ values.keys_choice_of (view value.now) }
{
    let text = value.as_str()?.as_bytes();
    if text == b"refuse".as_slice() {
        Some(false)
    } else if text == b"omit".as_slice() {
        Some(true)
    } else {
        None
    }
}

/// The addresses of some values, where each is one.
fn each_address(alloc: Global, array: &[Value]) -> Result<Option<AddressList>, NoMemory>
    ensures { IfOk result (λ read. read ≡ values.each values.address_of (items_view array.now)) }
{
    let mut addresses = Vec::new(alloc);
    for value in array {
        match address_in(value) {
            Some(address) => addresses.push(address)?,
            None => return Ok(None),
        }
    }
    Ok(Some(AddressList::from_vec(addresses)))
}

/// The items of an array, at most so many.
#[tactic(auto, using(crate::proofs::ValueLemmas::count_view))]
fn items_up_to(value: &Value, limit: usize) -> Option<&[Value]>
    ensures exact { option_map (λ items. items_view items.now) result
        ≡ values.items_up_to limit (view value.now) }
    ensures few { IfSome result (λ items. length items.now ≤ limit) }
{
    let items = value.as_array()?.as_slice();
    if items.len() <= limit {
        Some(items)
    } else {
        None
    }
}

/// At most 64 addresses.
pub(crate) fn addresses_in(alloc: Global, value: &Value) -> Result<Option<AddressList>, NoMemory>
    ensures { IfOk result (λ read. read ≡ values.addresses_of (view value.now)) }
{
    match items_up_to(value, MOST_ADDRESSES) {
        Some(items) => each_address(alloc, items),
        None => Ok(None),
    }
}

/// Whether each value is a table.
fn are_tables(array: &[Value]) -> bool
    ensures { result ≡ is_some (values.each as_table (items_view array.now)) }
{
    for value in array {
        if !value.is_table() {
            return false;
        }
    }
    true
}

/// At most 1,024 tables.
pub(crate) fn tables_in(value: &Value) -> Option<&[Value]>
    ensures some { IfSome result (λ tables. values.tables_of (view value.now)
        ≡ values.each as_table (items_view tables.now)) }
    ensures tables { IfSome result
        (λ tables. IsSome (values.each as_table (items_view tables.now))) }
    ensures few { IfSome result (λ tables. length tables.now ≤ 1024) }
    ensures none { IfNone result (values.tables_of (view value.now) ≡ None) }
{
    let tables = items_up_to(value, MOST_CLIENTS)?;
    if are_tables(tables) {
        Some(tables)
    } else {
        None
    }
}
