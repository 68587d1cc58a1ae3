//! The settings of the agent, read from TOML.
#![tactic(auto)]

mod gathering;
mod keys;
mod laws;
mod reading;
mod values;

pub use address_text::read_address;
pub use agent_settings::{
    AddressList, Client, Clients, Config, ConfigFault, client_keeps_limits, clients_are_in_limits,
    found_stands_at_place, is_client_in_limits, is_in_limits,
};
pub use gathering::clients_from;
pub use laws::{distinct_unless_twice, settings_are_in_limits};
pub use reading::read;
