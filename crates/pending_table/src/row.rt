//! An entry beside its key, as the stores keep it.

ghost use Rattle.std.specs.Prelude.{◌≡◌, IfOk};
ghost use Rattle.pending_table.specs.Relinked.{with_number};
ghost use Rattle.pending_table.specs.Stores.{number_of};

use crate::stores::Number;
use crate::{Answer, Entry, Key};
use std::alloc::Global;
use std::marker::Model;
use std::mem;
use wire_core::{NoMemory, SharedKey};

/// An entry beside its key. Both are on the heap, so that a row that goes from one store to another isn't copied.
#[derive(Drop)]
pub(crate) struct Row {
    parts: Box<(SharedKey<'static, Key>, Entry), Global>,
}

impl Model for Row {
    ghost use Rattle.pending_table.specs.declared.key.Key.{Key};
    ghost use Rattle.pending_table.specs.declared.entry.Entry.{Entry};

    ghost Value = { Key × Entry };

    ghost view = { λ r. r.parts.value };
}

impl Row {
    pub(crate) fn new(
        alloc: Global,
        key: SharedKey<'static, Key>,
        entry: Entry,
    ) -> Result<Row, NoMemory>
        ensures { IfOk result (λ r. r ≡ (key.entry, entry)) }
    {
        Ok(Row {
            parts: Box::new(alloc, (key, entry))?,
        })
    }

    fn parts(&self) -> &(SharedKey<'static, Key>, Entry)
        ensures { result.now ≡ self.now }
    {
        &self.parts
    }

    /// Its key, as the index has it.
    pub(crate) fn key(&self) -> &SharedKey<'static, Key>
        ensures { result.now ≡ self.now.0 }
    {
        &self.parts().0
    }

    pub(crate) fn entry(&self) -> &Entry
        ensures { result.now ≡ self.now.1 }
    {
        &self.parts().1
    }

    /// What the answer to it names.
    pub(crate) fn number(&self) -> Number
        ensures { result ≡ number_of self.now }
    {
        let entry = self.entry();
        Number {
            link: entry.link,
            number: entry.number,
        }
    }

    /// Gives it another answer, and returns the one that it had.
    pub(crate) fn set_answer(&mut self, answer: Answer) -> Answer
        ensures row { self.new ≡ (self.old.0, record self.old.1 { answer = answer }) }
        ensures earlier { result ≡ self.old.1.answer }
    {
        mem::replace(&mut self.parts.1.answer, answer)
    }

    /// It is sent anew over this link with this number.
    pub(crate) fn set_number(&mut self, link: u64, number: u32)
        ensures { self.new ≡ with_number self.old link number }
    {
        let entry = &mut self.parts.1;
        entry.link = link;
        entry.number = number;
    }
}
