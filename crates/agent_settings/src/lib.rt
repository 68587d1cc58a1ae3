//! What settings hold, and their limits.
#![tactic(auto)]

mod address_list;
mod client;
mod clients;
mod config;
mod fault;
mod laws;

pub use address_list::AddressList;
pub use client::{Client, is_client_in_limits, is_name};
pub use clients::Clients;
pub use config::{Config, is_in_limits};
pub use fault::ConfigFault;
pub use laws::{client_keeps_limits, clients_are_in_limits, found_stands_at_place};
