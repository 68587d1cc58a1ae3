//! The end of a queue that entries are put into.

ghost use Rattle.std.specs.Prelude.{◌≡◌, [], ◌∷◌, ◌++◌};
ghost use Rattle.std.specs.Arc.{arc_value};
ghost use Rattle.std.specs.Option.{option_to_list};

use crate::entry::{Entries, Entry};
use crate::queue::{Asked, Given, Queue, ask, first_moment};
use std::alloc::Global;
use std::marker::Model;
use std::mem;
use std::sync::{Arc, Wait};
use turnstile::{Pass, Turnstile};

/// So many entries are put into the queue at once, which spares visits.
const BATCH: usize = 32;

/// An entry that came so many milliseconds before a further one is put into the queue with it.
const MOST_HELD: u64 = 100;

/// Puts entries into the queue of a record, many at once. Contracts see it as the entries that it was given, with the queue.
#[derive(Drop)]
pub struct EntrySender {
    pub(crate) turnstile: Arc<Turnstile<Queue>, Global>,
    pub(crate) pass: Pass<Queue>,
    pub(crate) alloc: Global,
    /// Those of the entries given that aren't in the queue yet.
    pub(crate) held: Entries,
}

impl Model for EntrySender {
    ghost use Rattle.std.specs.Prelude.{◌++◌};
    ghost use Rattle.std.specs.Arc.{arc_value};
    ghost use Rattle.turnstile.specs.Passes.{known};
    ghost use Rattle.turnstile.specs.Turns.{of};
    ghost use Rattle.run_record.specs.Queues.{puts};
    ghost use Rattle.run_record.specs.Recordings.{IsSender, Sending};

    ghost Value = { Sending };

    ghost view = { λ s. record {
      told = puts (of 0 (known s.pass).seen) ++ s.held;
      held = s.held;
      queue = arc_value s.turnstile;
    } };

    ghost invariant = { λ s. IsSender (arc_value s.turnstile) s.pass };
}

impl EntrySender {
    /// Whether an entry of this moment is put into the queue, with those that are held.
    fn is_due(&self, moment: u64) -> bool {
        let held = self.held.as_slice();
        let waited = match first_moment(held) {
            Some(first) => moment.saturating_sub(first),
            None => 0,
        };
        held.len() + 1 >= BATCH || waited >= MOST_HELD
    }

    /// Puts what is held into the queue, and this entry behind it.
    fn put<R: Wait>(&mut self, rt: &R, last: Option<Entry>)
        ensures told { self.new.told ≡ self.old.told ++ option_to_list last }
        ensures queue { self.new.queue ≡ self.old.queue }
        ensures held { self.new.held ≡ [] }
    {
        let none = Entries::from_vec(Vec::new(self.alloc));
        let entries = mem::replace(&mut self.held, none);
        let asked = Asked::Put { entries, last };
        let Given { entries, over: _ } = ask(rt, &self.turnstile, &mut self.pass, asked);
        self.held = entries.cleared();
    }

    /// Gives an entry to be recorded. It waits for no writing. The entry may be held back until more come or `flush` is
    /// called.
    pub fn send<R: Wait>(&mut self, rt: &R, entry: Entry)
        ensures told { self.new.told ≡ self.old.told ++ entry ∷ [] }
        ensures queue { self.new.queue ≡ self.old.queue }
    {
        if self.is_due(entry.moment) {
            self.put(rt, Some(entry));
        } else if let Err(entry) = self.held.push(entry) {
            self.put(rt, Some(entry));
        }
    }

    /// Holds back no entry any longer.
    pub fn flush<R: Wait>(&mut self, rt: &R)
        ensures told { self.new.told ≡ self.old.told }
        ensures queue { self.new.queue ≡ self.old.queue }
        ensures held { self.new.held ≡ [] }
    {
        if !self.held.as_slice().is_empty() {
            self.put(rt, None);
        }
    }

    /// Says that no further entry comes.
    pub(crate) fn end<R: Wait>(&mut self, rt: &R)
        ensures told { self.new.told ≡ self.old.told }
        ensures queue { self.new.queue ≡ self.old.queue }
        ensures held { self.new.held ≡ [] }
    {
        self.flush(rt);
        let _ = ask(rt, &self.turnstile, &mut self.pass, Asked::End);
    }
}
