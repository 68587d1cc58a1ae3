//! The clients, by address.

ghost use Rattle.std.specs.Prelude.{◌≡◌, ◌≢◌, ◌≤◌, [], ◌∷◌, ◌++◌, length, slice_get, ◌<◌, None, Some, IfOk, IfErr, OnOk, OnErr, option_map};
ghost use Rattle.agent_settings.specs.Config.{find_address};

use crate::client::Client;
use indexmap::IndexMap;
use std::alloc::Global;
use std::marker::Model;
use wire_core::NoMemory;

/// Clients in their order, no two with one address. Contracts see them as the list.
#[derive(Drop)]
pub struct Clients {
    /// The key of each client is its address.
    clients: IndexMap<u32, Client>,
}

impl Model for Clients {
    ghost use Rattle.std.specs.Prelude.{List};
    ghost use Rattle.indexmap.specs.IndexMap.{values};
    ghost use Rattle.agent_settings.specs.declared.client.Client.{Client};
    ghost use Rattle.agent_settings.specs.Keyed.{IsKeyed};

    ghost Value = { List Client };

    ghost view = { λ c. values c.clients };

    ghost invariant = { λ c. IsKeyed c.clients.entries };
}

impl Clients {
    /// No clients, which takes no memory yet.
    pub fn new(alloc: Global) -> Clients
        ensures { result ≡ [] }
    {
        Clients {
            clients: IndexMap::new(alloc),
        }
    }

    /// How many clients there are.
    pub fn len(&self) -> usize
        ensures { result ≡ length self.now }
    {
        self.clients.len()
    }

    /// The client at a place.
    pub fn at(&self, place: usize) -> &Client
        requires { place < length self.now }
        ensures { Some result.now ≡ slice_get self.now place }
    {
        &self.clients[place]
    }

    /// Appends a client whose address no other has.
    pub fn push(&mut self, client: Client) -> Result<(), NoMemory>
        requires { find_address client.address self.old ≡ None }
        ensures ok { OnOk result (self.new ≡ self.old ++ client ∷ []) }
        ensures err { OnErr result (self.new ≡ self.old) }
    {
        self.clients.insert(client.address, client)?;
        Ok(())
    }

    /// The client with this address, and its place.
    pub fn by_address(&self, address: u32) -> Option<(u32, &Client)>
        requires { length self.now ≤ 1024 }
        ensures { option_map (λ found. (found.0, found.1.now)) result
            ≡ find_address address self.now }
    {
        match self.clients.get_full(&address) {
            Some((place, _, client)) => Some((place as u32, client)),
            None => None,
        }
    }
}
