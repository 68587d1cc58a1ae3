//! Why a transcript wasn't generated to its end.

use std::alloc::AllocFailed;
use wire_core::NoMemory;

/// Why a transcript wasn't generated to its end.
#[derive(Clone, Copy, PartialEq, Eq)]
pub enum GenerateFault {
    /// The sink failed.
    Write,
    NoMemory,
}

impl From<NoMemory> for GenerateFault {
    ghost use Rattle.std.specs.Prelude.{◌≡◌};
    ghost use Rattle.generated_logins.specs.declared.generate_fault.GenerateFault.TheVariants as faults;

    ghost from_gives = { λ _ e. e ≡ faults.NoMemory };

    fn from(_e: NoMemory) -> GenerateFault {
        GenerateFault::NoMemory
    }
}

impl<T: Drop> From<AllocFailed<T>> for GenerateFault {
    ghost use Rattle.std.specs.Prelude.{◌≡◌};
    ghost use Rattle.generated_logins.specs.declared.generate_fault.GenerateFault.TheVariants as faults;

    ghost from_gives = { λ _ e. e ≡ faults.NoMemory };

    fn from(_e: AllocFailed<T>) -> GenerateFault {
        GenerateFault::NoMemory
    }
}
