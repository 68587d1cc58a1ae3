//! The settings that an agent line and a client line tell.

ghost use Rattle.std.specs.Prelude.{◌≡◌, None, Some, [], IfOk, IfErr, IfSome, IfNone};
ghost use Rattle.std.specs.Option.{option_copied};
ghost use Rattle.text_lines.specs.Reads.{Fails, Reads};
ghost use Rattle.text_lines.specs.Views.{plain};
ghost use Rattle.transcript.specs.Lines as lines;
ghost use Rattle.transcript.specs.Views.{client_told, settings_told};

use agent_settings::{AddressList, Client, Clients, Config, is_client_in_limits, is_in_limits};
use std::alloc::Global;
use text_lines::WordFault;
use text_lines::words::{
    read_address, read_addresses, read_choice, read_hex, read_number, read_u32,
};
use wire_core::{NoMemory, Octets};

/// The words after `agent`.
#[derive(Clone, Copy)]
struct AgentWords<'a> {
    host: &'a [u8],
    realm: &'a [u8],
    home_realm: &'a [u8],
    address: &'a [u8],
    boot: &'a [u8],
    retention: &'a [u8],
    capacity: &'a [u8],
    backlog: &'a [u8],
    watchdog: &'a [u8],
    patience: Option<&'a [u8]>,
}

/// The numbers among the words after `agent`.
#[derive(Clone, Copy)]
struct AgentFigures {
    address: u32,
    boot: u32,
    retention: u64,
    capacity: u32,
    backlog: u32,
    watchdog: u64,
    patience: u64,
}

/// The words after `client`.
#[derive(Clone, Copy)]
struct ClientWords<'a> {
    name: &'a [u8],
    address: &'a [u8],
    secret: &'a [u8],
    origin_host: &'a [u8],
    origin_realm: &'a [u8],
    seal: &'a [u8],
    keys: &'a [u8],
    nas: &'a [u8],
}

/// How a client has access, and what holds for it.
#[derive(Drop)]
struct ClientAccess {
    address: u32,
    secret: Octets,
    require_seal: bool,
    omit_keys: bool,
    nas: AddressList,
}

/// The names of a client.
#[derive(Drop)]
struct ClientNames {
    name: Octets,
    origin_host: Octets,
    origin_realm: Octets,
}

fn first_word<'a>(words: &[&'a [u8]]) -> Option<&'a [u8]>
    ensures { option_copied result ≡ lines.first_of (plain words.now) }
{
    match words {
        [] => None,
        [word, ..] => Some(*word),
    }
}

fn agent_words<'a>(words: &[&'a [u8]]) -> Option<AgentWords<'a>>
    ensures some { IfSome result
        (λ found. lines.settings_of (plain words.now) ≡ settings_told found) }
    ensures none { IfNone result (lines.settings_of (plain words.now) ≡ None) }
{
    let [
        _,
        host,
        realm,
        home_realm,
        address,
        boot,
        retention,
        capacity,
        backlog,
        watchdog,
        more @ ..,
    ] = words
    else {
        return None;
    };
    Some(AgentWords {
        host,
        realm,
        home_realm,
        address,
        boot,
        retention,
        capacity,
        backlog,
        watchdog,
        patience: first_word(more),
    })
}

/// The patience is the retention where no word tells it.
fn read_patience(retention: u64, word: Option<&[u8]>) -> Result<u64, WordFault>
    ensures { Reads result (lines.patience_of retention (option_copied word.entry)) }
{
    match word {
        None => Ok(retention),
        Some(patience) => read_number(patience, u64::MAX),
    }
}

/// The numbers of an agent line.
fn read_agent_figures(words: &AgentWords<'_>) -> Result<AgentFigures, WordFault>
    ensures ok { IfOk result (λ f. settings_told words.now ≡ lines.in_limits (record {
      host = words.now.host.now;
      realm = words.now.realm.now;
      home_realm = words.now.home_realm.now;
      address = f.address;
      boot = Some f.boot;
      retention = f.retention;
      patience = f.patience;
      capacity = f.capacity;
      backlog = f.backlog;
      watchdog = f.watchdog;
      clients = [];
    })) }
    ensures err { IfErr result (λ fault. Fails fault (settings_told words.now)) }
{
    let address = read_address(words.address)?;
    let boot = read_u32(words.boot)?;
    let retention = read_number(words.retention, u64::MAX)?;
    let capacity = read_u32(words.capacity)?;
    let backlog = read_u32(words.backlog)?;
    let watchdog = read_number(words.watchdog, u64::MAX)?;
    let patience = read_patience(retention, words.patience)?;
    Ok(AgentFigures {
        address,
        boot,
        retention,
        capacity,
        backlog,
        watchdog,
        patience,
    })
}

/// The settings of these words and their numbers.
fn agent_with_names(
    alloc: Global,
    words: &AgentWords<'_>,
    figures: AgentFigures,
) -> Result<Config, NoMemory>
    ensures { IfOk result (λ config. config ≡ record {
      host = words.now.host.now;
      realm = words.now.realm.now;
      home_realm = words.now.home_realm.now;
      address = figures.address;
      boot = Some figures.boot;
      retention = figures.retention;
      patience = figures.patience;
      capacity = figures.capacity;
      backlog = figures.backlog;
      watchdog = figures.watchdog;
      clients = [];
    }) }
{
    Ok(Config {
        host: Octets::copy(alloc, words.host)?,
        realm: Octets::copy(alloc, words.realm)?,
        home_realm: Octets::copy(alloc, words.home_realm)?,
        address: figures.address,
        boot: Some(figures.boot),
        retention: figures.retention,
        capacity: figures.capacity,
        backlog: figures.backlog,
        watchdog: figures.watchdog,
        patience: figures.patience,
        clients: Clients::new(alloc),
    })
}

fn read_agent_words(alloc: Global, words: &AgentWords<'_>) -> Result<Config, WordFault>
    ensures { Reads result (settings_told words.now) }
{
    let figures = read_agent_figures(words)?;
    let config = agent_with_names(alloc, words, figures)?;
    if is_in_limits(&config) {
        Ok(config)
    } else {
        Err(WordFault::Bad)
    }
}

/// The settings of an agent line, still without clients.
pub(crate) fn read_settings(alloc: Global, words: &[&[u8]]) -> Result<Config, WordFault>
    ensures { Reads result (lines.settings_of (plain words.now)) }
{
    match agent_words(words) {
        Some(words) => read_agent_words(alloc, &words),
        None => Err(WordFault::Bad),
    }
}

fn client_words<'a>(words: &[&'a [u8]]) -> Option<ClientWords<'a>>
    ensures some { IfSome result (λ found. lines.client_of (plain words.now) ≡ client_told found) }
    ensures none { IfNone result (lines.client_of (plain words.now) ≡ None) }
{
    let [
        _,
        name,
        address,
        secret,
        origin_host,
        origin_realm,
        seal,
        keys,
        nas,
    ] = words
    else {
        return None;
    };
    Some(ClientWords {
        name,
        address,
        secret,
        origin_host,
        origin_realm,
        seal,
        keys,
        nas,
    })
}

/// How a client has access.
fn read_client_access(alloc: Global, words: &ClientWords<'_>) -> Result<ClientAccess, WordFault>
    ensures ok { IfOk result (λ a. client_told words.now ≡ lines.client_in_limits (record {
      name = words.now.name.now;
      address = a.address;
      secret = a.secret;
      origin_host = words.now.origin_host.now;
      origin_realm = words.now.origin_realm.now;
      require_seal = a.require_seal;
      omit_keys = a.omit_keys;
      nas = a.nas;
    })) }
    ensures err { IfErr result (λ fault. Fails fault (client_told words.now)) }
{
    Ok(ClientAccess {
        address: read_address(words.address)?,
        secret: read_hex(alloc, words.secret)?,
        require_seal: read_choice(words.seal, b"seal", b"plain")?,
        omit_keys: read_choice(words.keys, b"omit", b"refuse")?,
        nas: read_addresses(alloc, words.nas)?,
    })
}

/// The names of a client.
fn client_names(alloc: Global, words: &ClientWords<'_>) -> Result<ClientNames, NoMemory>
    ensures { IfOk result (λ n. n ≡ record {
      name = words.now.name.now;
      origin_host = words.now.origin_host.now;
      origin_realm = words.now.origin_realm.now;
    }) }
{
    Ok(ClientNames {
        name: Octets::copy(alloc, words.name)?,
        origin_host: Octets::copy(alloc, words.origin_host)?,
        origin_realm: Octets::copy(alloc, words.origin_realm)?,
    })
}

fn read_client_words(alloc: Global, words: &ClientWords<'_>) -> Result<Client, WordFault>
    ensures { Reads result (client_told words.now) }
{
    let access = read_client_access(alloc, words)?;
    let names = client_names(alloc, words)?;
    let client = Client {
        name: names.name,
        address: access.address,
        secret: access.secret,
        origin_host: names.origin_host,
        origin_realm: names.origin_realm,
        require_seal: access.require_seal,
        omit_keys: access.omit_keys,
        nas: access.nas,
    };
    if is_client_in_limits(&client) {
        Ok(client)
    } else {
        Err(WordFault::Bad)
    }
}

/// The client of a client line.
pub(crate) fn read_client(alloc: Global, words: &[&[u8]]) -> Result<Client, WordFault>
    ensures { Reads result (lines.client_of (plain words.now)) }
{
    match client_words(words) {
        Some(words) => read_client_words(alloc, &words),
        None => Err(WordFault::Bad),
    }
}
