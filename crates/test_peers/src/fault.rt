//! Why a list of users can't be read.

use std::alloc::AllocFailed;
use wire_core::NoMemory;

/// Why a text names no users (profile).
#[derive(Clone, Copy, PartialEq, Eq)]
pub enum HomeFault {
    /// The first line that is no user's, counted from 1, and the first reason that stands: 1, it has more than 140,000
    /// octets; 2, it hasn't two words; 3, a word isn't of its kind.
    BadLine { line: u64, reason: u32 },
    /// Memory ran out.
    NoMemory,
}

impl From<NoMemory> for HomeFault {
    ghost use Rattle.std.specs.Prelude.{◌≡◌};
    ghost use Rattle.test_peers.specs.declared.fault.HomeFault.TheVariants as faults;

    ghost from_gives = { λ _ e. e ≡ faults.NoMemory };

    fn from(_e: NoMemory) -> HomeFault {
        HomeFault::NoMemory
    }
}

impl<T: Drop> From<AllocFailed<T>> for HomeFault {
    ghost use Rattle.std.specs.Prelude.{◌≡◌};
    ghost use Rattle.test_peers.specs.declared.fault.HomeFault.TheVariants as faults;

    ghost from_gives = { λ _ e. e ≡ faults.NoMemory };

    fn from(_e: AllocFailed<T>) -> HomeFault {
        HomeFault::NoMemory
    }
}
