//! What a record is made of, and the device that writes it.

ghost use Rattle.std.specs.Prelude.{◌≡◌, ℕ, List, [], ◌∷◌, ◌++◌, true, false, IfOk, IfErr};
ghost use Rattle.wire_core.specs.Counts.{Counts};
ghost use Rattle.wire_core.specs.Sink.{PutFailed};

use agent_events::Input;
use std::marker::Model;
use wire_core::Put;

/// An input that was entered.
#[derive(Drop)]
pub struct Entry {
    /// When it was entered, in milliseconds.
    pub moment: u64,
    pub input: Input,
}

/// Entries, in order. Contracts see it as the list of them.
#[derive(Drop)]
pub struct Entries {
    entries: Vec<Entry>,
}

impl Model for Entries {
    ghost use Rattle.std.specs.Prelude.{List};
    ghost use Rattle.run_record.specs.declared.entry.Entry.{Entry};

    ghost Value = { List Entry };

    ghost view = { λ e. e.entries.items };
}

impl Entries {
    pub fn from_vec(entries: Vec<Entry>) -> Entries
        ensures { result ≡ entries.items }
    {
        Entries { entries }
    }

    pub fn as_slice(&self) -> &[Entry]
        ensures { result.now ≡ self.now }
    {
        self.entries.as_slice()
    }

    /// Puts an entry behind the others. Without memory it comes back.
    pub(crate) fn push(&mut self, entry: Entry) -> Result<(), Entry>
        ensures kept { IfOk result (λ _. self.new ≡ self.old ++ entry ∷ []) }
        ensures same { IfErr result (λ back. (self.new ≡ self.old) × (back ≡ entry)) }
    {
        self.entries.push(entry).map_err(|failed| failed.value)
    }

    /// Puts these behind the others. It says whether there was memory, and gives the room of these, empty.
    pub(crate) fn append(&mut self, more: Entries) -> (bool, Entries)
        ensures kept { result.0 ≡ true → self.new ≡ self.old ++ more }
        ensures same { result.0 ≡ false → self.new ≡ self.old }
        ensures room { result.1 ≡ [] }
    {
        let mut entries = more.entries;
        let appended = self.entries.append(&mut entries).is_ok();
        (appended, Entries { entries }.cleared())
    }

    /// The room of these, empty.
    pub(crate) fn cleared(self) -> Entries
        ensures { result ≡ [] }
    {
        let mut entries = self.entries;
        entries.clear();
        Entries { entries }
    }
}

/// Writes the entries of a record.
pub trait EntryWriter {
    ghost use Rattle.run_record.specs.declared.entry.Entry.{Entry};

    type Base;

    /// That it was given these entries to write, from this base on.
    ghost stands: { Self → Self.Base → List Entry → Type 0 };

    /// How many writes failed.
    ghost faults: { Self → ℕ };

    /// Writes these entries behind those before. After a write that failed it isn't called again.
    fn write(&mut self, entries: &[Entry]) -> Put
        ensures counts { Counts (PutFailed result) (faults self.old) (faults self.new) }
        ensures wrote { (base : Self.Base) (before : List Entry) → stands self.old base before
            → stands self.new base (before ++ entries.now) };

    /// Pauses a short while, so that entries gather.
    fn rest(&mut self)
        ensures faults { faults self.new ≡ faults self.old }
        ensures rested { (base : Self.Base) (before : List Entry) → stands self.old base before
            → stands self.new base before };
}
