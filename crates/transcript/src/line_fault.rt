//! Why a line can't be read.

use wire_core::NoMemory;

/// Why a line can't be read.
#[derive(Clone, Copy, Debug, PartialEq, Eq)]
pub enum LineFault {
    /// The source failed.
    Read,
    /// The line with this number, counted from 1, may not stand where it stands. The reason is 1 where it has more
    /// than 140,000 octets, 2 where its count of words and its fixed words are those of no line that may stand there,
    /// 3 where a word isn't of its kind or not within its limits, and 4 where a client's address came before.
    Bad { line: u64, reason: u32 },
    /// The source has more than 2^40 octets.
    Long,
    NoMemory,
}

impl From<NoMemory> for LineFault {
    ghost use Rattle.std.specs.Prelude.{◌≡◌};
    ghost use Rattle.transcript.specs.declared.line_fault.LineFault.TheVariants as faults;

    ghost from_gives = { λ _ e. e ≡ faults.NoMemory };

    fn from(_e: NoMemory) -> LineFault {
        LineFault::NoMemory
    }
}
