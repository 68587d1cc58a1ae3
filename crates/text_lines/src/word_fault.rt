//! Why words can't be read.

use std::alloc::AllocFailed;
use wire_core::NoMemory;

/// Why words can't be read.
#[derive(Clone, Copy)]
pub enum WordFault {
    /// They have another form.
    Bad,
    NoMemory,
}

impl From<NoMemory> for WordFault {
    ghost use Rattle.std.specs.Prelude.{◌≡◌};
    ghost use Rattle.text_lines.specs.declared.word_fault.WordFault.TheVariants as faults;

    ghost from_gives = { λ _ e. e ≡ faults.NoMemory };

    fn from(_e: NoMemory) -> WordFault {
        WordFault::NoMemory
    }
}

impl<T: Drop> From<AllocFailed<T>> for WordFault {
    ghost use Rattle.std.specs.Prelude.{◌≡◌};
    ghost use Rattle.text_lines.specs.declared.word_fault.WordFault.TheVariants as faults;

    ghost from_gives = { λ _ e. e ≡ faults.NoMemory };

    fn from(_e: AllocFailed<T>) -> WordFault {
        WordFault::NoMemory
    }
}
