//! Why settings can't be read.

use std::alloc::AllocFailed;
use wire_core::{NoMemory, Octets};

/// Why a text gives no settings (profile). Clients count from 1; 0 stands for the top table.
#[derive(Clone, Debug, Drop, PartialEq, Eq)]
pub enum ConfigFault {
    /// The text is no UTF-8, or no TOML.
    NotToml,
    /// The table lacks a key that it needs.
    Missing { client: u32, key: Octets },
    /// The value of a key isn't of its kind or its range, or the key is unknown.
    BadValue { client: u32, key: Octets },
    /// The first client whose address an earlier one has.
    TwiceAddress { client: u32 },
    /// Memory ran out.
    NoMemory,
}

impl From<NoMemory> for ConfigFault {
    ghost use Rattle.std.specs.Prelude.{◌≡◌};
    ghost use Rattle.agent_settings.specs.declared.fault.ConfigFault.TheVariants as faults;

    ghost from_gives = { λ _ e. e ≡ faults.NoMemory };

    fn from(_e: NoMemory) -> ConfigFault {
        ConfigFault::NoMemory
    }
}

impl<T: Drop> From<AllocFailed<T>> for ConfigFault {
    ghost use Rattle.std.specs.Prelude.{◌≡◌};
    ghost use Rattle.agent_settings.specs.declared.fault.ConfigFault.TheVariants as faults;

    ghost from_gives = { λ _ e. e ≡ faults.NoMemory };

    fn from(_e: AllocFailed<T>) -> ConfigFault {
        ConfigFault::NoMemory
    }
}
