//! The settings.

ghost use Rattle.std.specs.Prelude.{◌≡◌, ◌&&◌};
ghost use Rattle.agent_settings.specs.Config as specs;

use crate::client::is_name;
use crate::clients::Clients;
use wire_core::Octets;

/// The settings of an agent.
#[derive(Drop)]
pub struct Config {
    /// The Origin-Host of the agent's own messages.
    pub host: Octets,
    /// The Origin-Realm of the agent's own messages.
    pub realm: Octets,
    /// The Destination-Realm of a request that names none.
    pub home_realm: Octets,
    /// The agent's IPv4 address.
    pub address: u32,
    /// A number that rises with each start of the agent, where it is set.
    pub boot: Option<u32>,
    /// How long an entry lives, in milliseconds.
    pub retention: u64,
    /// How long an entry waits for its answer, in milliseconds.
    pub patience: u64,
    /// How many entries live at once.
    pub capacity: u32,
    /// How many messages wait for the link at once.
    pub backlog: u32,
    /// How long the peer may be silent, in milliseconds.
    pub watchdog: u64,
    pub clients: Clients,
}

/// Whether the names are names that settings may hold.
fn has_good_names(config: &Config) -> bool
    ensures { result ≡ (specs.is_name config.now.host && specs.is_name config.now.realm &&
        specs.is_name config.now.home_realm) }
{
    is_name(config.host.as_slice())
        && is_name(config.realm.as_slice())
        && is_name(config.home_realm.as_slice())
}

/// Whether the names and how long entries live are within their limits.
fn has_good_lives(config: &Config) -> bool
    ensures { result ≡ (specs.is_name config.now.host && specs.is_name config.now.realm &&
        specs.is_name config.now.home_realm
        && specs.is_between 1000 300000 config.now.retention && specs.is_between 1000 300000
        config.now.patience) }
{
    has_good_names(config)
        && (1_000..=300_000).contains(&config.retention)
        && (1_000..=300_000).contains(&config.patience)
}

/// Whether the settings, but for the clients, are within the limits: names of at most 64 octets, a
/// retention and a patience of 1,000 to 300,000 ms, a capacity of 1 to 65,536, a backlog of 2 to
/// 65,536 and a watchdog of 6,000 to 600,000 ms.
#[tactic(auto, unfolding(crate::specs::Config::are_settings_in_limits))]
pub fn is_in_limits(config: &Config) -> bool
    ensures { result ≡ specs.are_settings_in_limits config.now }
{
    has_good_lives(config)
        && (1..=65_536).contains(&config.capacity)
        && (2..=65_536).contains(&config.backlog)
        && (6_000..=600_000).contains(&config.watchdog)
}
