//! Settings as lines of a transcript.

ghost use Rattle.std.specs.Prelude.{◌≡◌, [], ◌∷◌, ◌++◌, IfOk, OnOk};
ghost use Rattle.std.specs.List.{flat_map};
ghost use Rattle.printed_lines.specs.SettingsText as settings;
ghost use Rattle.printed_lines.specs.Text as text;

use crate::printing::push_digits;
use agent_settings::{Client, Config};
use std::alloc::{AllocError, Global};
use wire_core::{NoMemory, Octets};

/// Appends a word and a space.
fn push_word(line: &mut Vec<u8>, word: &[u8]) -> Result<(), AllocError>
    ensures { OnOk result (line.new.items ≡ line.old.items ++ word.now ++ 32 ∷ []) }
{
    line.extend_from_slice(word)?;
    line.push(b' ')?;
    Ok(())
}

/// Appends a word of octets in hex, or `-` for none, and a space.
fn push_hex_word(line: &mut Vec<u8>, octets: &[u8]) -> Result<(), AllocError>
    ensures { OnOk result (line.new.items ≡ line.old.items ++ text.hex_text octets.now ++ 32 ∷ []) }
{
    if octets.is_empty() {
        line.push(b'-')?;
    } else {
        push_digits(line, octets)?;
    }
    line.push(b' ')?;
    Ok(())
}

#[tactic(auto, unfolding(wire_core::specs::Numbers::u32))]
fn address_word(alloc: Global, address: u32) -> Result<Vec<u8>, NoMemory>
    ensures { IfOk result (λ word. word.items ≡ text.address_text address) }
{
    let [a, b, c, d] = address.to_be_bytes();
    let word = format!(in alloc; "{a}.{b}.{c}.{d}")?;
    Ok(word.into_bytes())
}

/// Appends addresses, each behind a `,`.
fn push_further(alloc: Global, word: &mut Vec<u8>, addresses: &[u32]) -> Result<(), NoMemory>
    ensures { OnOk result
        (word.new.items ≡ word.old.items ++ flat_map settings.further_text addresses.now) }
{
    for address in addresses {
        word.push(b',')?;
        word.extend_from_slice(address_word(alloc, *address)?.as_slice())?;
    }
    Ok(())
}

/// Addresses separated by `,`, or `-` for none.
fn addresses_word(alloc: Global, addresses: &[u32]) -> Result<Vec<u8>, NoMemory>
    ensures { IfOk result (λ word. word.items ≡ settings.addresses_text addresses.now) }
{
    if addresses.is_empty() {
        return Ok(Vec::from_slice(alloc, b"-")?);
    }
    let mut word = address_word(alloc, addresses[0])?;
    push_further(alloc, &mut word, &addresses[1..])?;
    Ok(word)
}

/// The line `agent HOST REALM HOME ADDRESS BOOT RETENTION CAPACITY BACKLOG WATCHDOG PATIENCE` of these settings, without
/// their clients. A boot that isn't set stands as 0; times are milliseconds.
fn agent_line(alloc: Global, config: &Config) -> Result<Vec<u8>, NoMemory>
    ensures { IfOk result (λ line. line.items ≡ settings.agent_text config.now) }
{
    let address = address_word(alloc, config.address)?;
    let boot = config.boot.unwrap_or(0);
    let retention = config.retention;
    let capacity = config.capacity;
    let backlog = config.backlog;
    let watchdog = config.watchdog;
    let patience = config.patience;
    let mut line = Vec::from_slice(alloc, b"agent ")?;
    push_word(&mut line, config.host.as_slice())?;
    push_word(&mut line, config.realm.as_slice())?;
    push_word(&mut line, config.home_realm.as_slice())?;
    push_word(&mut line, address.as_slice())?;
    let end = format!(in alloc; "{boot} {retention} {capacity} {backlog} {watchdog} {patience}\n")?;
    line.extend_from_slice(end.as_bytes())?;
    Ok(line)
}

fn seal_name(require_seal: bool) -> &'static str
    ensures { result.now ≡ settings.seal_name require_seal }
{
    if require_seal { "seal" } else { "plain" }
}

fn keys_name(omit_keys: bool) -> &'static str
    ensures { result.now ≡ settings.keys_name omit_keys }
{
    if omit_keys { "omit" } else { "refuse" }
}

/// The line `client NAME ADDRESS SECRET OHOST OREALM SEAL KEYS NAS` of a client, with its secret in hex.
fn client_line(alloc: Global, client: &Client) -> Result<Vec<u8>, NoMemory>
    ensures { IfOk result (λ line. line.items ≡ settings.client_text client.now) }
{
    let address = address_word(alloc, client.address)?;
    let nas = addresses_word(alloc, client.nas.as_slice())?;
    let mut line = Vec::from_slice(alloc, b"client ")?;
    push_word(&mut line, client.name.as_slice())?;
    push_word(&mut line, address.as_slice())?;
    push_hex_word(&mut line, client.secret.as_slice())?;
    push_word(&mut line, client.origin_host.as_slice())?;
    push_word(&mut line, client.origin_realm.as_slice())?;
    push_word(&mut line, seal_name(client.require_seal).as_bytes())?;
    push_word(&mut line, keys_name(client.omit_keys).as_bytes())?;
    line.extend_from_slice(nas.as_slice())?;
    line.push(b'\n')?;
    Ok(line)
}

/// The agent line of these settings, and then the line of each client in order (profile).
pub fn print_settings(alloc: Global, config: &Config) -> Result<Octets, NoMemory>
    ensures { IfOk result (λ lines. lines ≡ settings.settings_text config.now) }
{
    let mut lines = agent_line(alloc, config)?;
    for place in 0..config.clients.len() {
        let client = config.clients.at(place);
        lines.extend_from_slice(client_line(alloc, client)?.as_slice())?;
    }
    Ok(Octets::from_vec(lines))
}
