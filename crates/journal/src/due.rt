//! The lines of a journal that are due.

ghost use Rattle.std.specs.Prelude.{◌≡◌, ◌==◌, ◌≤◌, ◌∷◌, [], ◌++◌, List, ℕ, OnErr, length, drop};
ghost use Rattle.text_lines.specs.Streams.{IsUnended};
ghost use Rattle.journal.specs.Checking as checking;
ghost use Rattle.journal.specs.Due.{TakesDue};

use crate::block::{GIVEN, LONGEST_LINE, SAID, SEAL};
use std::alloc::Global;
use std::marker::Model;
use text_lines::first_piece;

/// Whether the line begins with one of the marks.
fn is_marked(line: &[u8]) -> bool
    ensures { result ≡ checking.is_marked line.now }
{
    line.starts_with(SAID) || line.starts_with(GIVEN) || line.starts_with(SEAL)
}

/// Why a line isn't the one that is due.
fn reason_of(due: &[u8], line: &[u8]) -> u32
    ensures { result ≡ checking.reason_of due.now line.now }
{
    if line.len() > LONGEST_LINE || !is_marked(line) {
        1
    } else if line.starts_with(GIVEN) || due.starts_with(GIVEN) {
        2
    } else {
        3
    }
}

/// Lines that are due, one after another.
#[derive(Drop)]
pub(crate) struct Due {
    text: Vec<u8>,
    start: usize,
}

impl Model for Due {
    ghost use Rattle.std.specs.Prelude.{◌≤◌, List, ℕ, length, drop};

    ghost Value = { List ℕ };

    ghost view = { λ due. drop due.start due.text.items };

    ghost invariant = { λ due. due.start ≤ length due.text.items };
}

impl Due {
    /// None.
    pub(crate) fn none(alloc: Global) -> Due
        ensures { result ≡ [] }
    {
        Due {
            text: Vec::new(alloc),
            start: 0,
        }
    }

    /// The lines of this text behind its first octets.
    pub(crate) fn behind(text: Vec<u8>, start: usize) -> Due
        requires { start ≤ length text.items }
        ensures { result ≡ drop start text.items }
    {
        Due { text, start }
    }

    /// Whether none is due.
    pub(crate) fn is_empty(&self) -> bool
        ensures { result ≡ (length self.now == 0) }
    {
        self.start == self.text.len()
    }

    /// Takes this line where it is the next one. An `Err` is why it isn't.
    pub(crate) fn take(&mut self, line: &[u8]) -> Result<(), u32>
        ensures kept { OnErr result (self.new ≡ self.old) }
        ensures takes { (due rest : List ℕ) → IsUnended due → self.old ≡ due ++ 10 ∷ rest
            → TakesDue result due line.now rest self.new }
    {
        let (due, ends) = first_piece(&self.text[self.start..]);
        if line != due {
            return Err(reason_of(due, line));
        }
        self.start += due.len() + usize::from(ends);
        Ok(())
    }
}
