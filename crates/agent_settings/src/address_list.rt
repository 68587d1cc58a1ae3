//! A list of addresses.

ghost use Rattle.std.specs.Prelude.{◌≡◌};

use std::marker::Model;

/// IPv4 addresses. Contracts see them as the list.
#[derive(Clone, Drop)]
pub struct AddressList {
    addresses: Vec<u32>,
}

impl Model for AddressList {
    ghost use Rattle.std.specs.Prelude.{List, ℕ};

    ghost Value = { List ℕ };

    ghost view = { λ l. l.addresses.items };
}

impl AddressList {
    /// The addresses of a `Vec`, which takes no memory.
    pub fn from_vec(addresses: Vec<u32>) -> AddressList
        ensures { result ≡ addresses.items }
    {
        AddressList { addresses }
    }

    /// The addresses.
    pub fn as_slice(&self) -> &[u32]
        ensures { result.now ≡ self.now }
    {
        self.addresses.as_slice()
    }
}
