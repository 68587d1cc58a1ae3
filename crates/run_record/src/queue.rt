//! The queue of entries that are still to be written.

ghost use Rattle.std.specs.Prelude.{◌≡◌, ◌≢◌, ◌++◌, [], ◌∷◌, None, true};
ghost use Rattle.std.specs.Option.{option_to_list};
ghost use Rattle.turnstile.specs.Passes.{known, table_of};
ghost use Rattle.run_record.specs.Queues.{Acts, HoldsFor};
ghost use Rattle.run_record.specs.Recordings.{Asks};

use crate::entry::{Entries, Entry};
use agent_events::Input;
use std::alloc::Global;
use std::mem;
use std::sync::Wait;
use turnstile::{Desk, Pass, Turnstile};

/// So many octets of entries may wait for their writing, those that are being written with them.
pub const MOST_OCTETS: usize = 64 * 1024 * 1024;

/// What an entry takes beside the octets of its input.
const ENTRY: usize = 64;

/// What is asked of the queue.
#[derive(Drop)]
pub enum Asked {
    /// Puts these entries behind the others, and then the last one.
    Put {
        entries: Entries,
        last: Option<Entry>,
    },
    /// Takes all that wait, which shows that those taken before were written. `room` is where further ones are kept.
    Take {
        room: Entries,
    },
    /// No further entry is kept, since this one couldn't be written.
    Stop {
        moment: u64,
    },
    /// No further entry comes.
    End,
}

/// What the queue answers.
#[derive(Drop)]
pub struct Given {
    /// At a Take, all that waited. Else none, at a Put in the room of those that were put in.
    pub entries: Entries,
    /// Whether no further entry comes.
    pub over: bool,
}

/// The queue. Once an entry isn't kept, since it would pass the bound, memory is wanting or a write failed, none is.
#[derive(Drop)]
pub struct Queue {
    alloc: Global,
    entries: Entries,
    /// How many octets these take, and those that were taken last.
    waiting: usize,
    writing: usize,
    /// The moment of the first entry that wasn't kept or written.
    closed: Option<u64>,
    over: bool,
}

/// How many octets an entry takes.
fn size_of(entry: &Entry) -> usize {
    match &entry.input {
        Input::Datagram { octets, .. } | Input::Message { octets } => {
            octets.len().saturating_add(ENTRY)
        }
        _ => ENTRY,
    }
}

/// How many octets these take.
fn size_of_all(entries: &[Entry]) -> usize {
    let mut size = 0usize;
    for entry in entries {
        size = size.saturating_add(size_of(entry));
    }
    size
}

/// The moment of the first of these.
pub(crate) fn first_moment(entries: &[Entry]) -> Option<u64>
    ensures { result ≡ None → entries.now ≡ [] }
{
    entries.first().map(|entry| entry.moment)
}

impl Queue {
    /// An empty queue, which isn't closed.
    pub(crate) fn new(alloc: Global) -> Queue
        ensures holds { HoldsFor result [] }
    {
        Queue {
            alloc,
            entries: Entries::from_vec(Vec::new(alloc)),
            waiting: 0,
            writing: 0,
            closed: None,
            over: false,
        }
    }

    /// The moment of the first entry that wasn't kept, written or taken.
    pub(crate) fn first_lost(&self) -> Option<u64>
        ensures { result ≡ None → (self.now.closed ≡ None) × (self.now.entries ≡ []) }
    {
        match self.closed {
            Some(moment) => Some(moment),
            None => first_moment(self.entries.as_slice()),
        }
    }

    /// Whether an entry of this size may be kept.
    fn has_room(&self, size: usize) -> bool
        ensures { result ≡ true → self.now.closed ≡ None }
    {
        let used = self.waiting.saturating_add(self.writing);
        self.closed.is_none() && used.saturating_add(size) <= MOST_OCTETS
    }

    /// Keeps nothing more, from this moment on, unless it is closed already.
    fn close(&mut self, moment: u64)
        ensures closed { self.new.closed ≢ None }
        ensures entries { self.new.entries ≡ self.old.entries }
    {
        if self.closed.is_none() {
            self.closed = Some(moment);
        }
    }

    /// Puts entries behind the others, or closes. It gives their room, empty.
    fn put(&mut self, entries: Entries) -> Entries
        ensures kept { self.new.closed ≡ None
            → (self.old.closed ≡ None) × (self.new.entries ≡ self.old.entries ++ entries) }
        ensures begins { self.new.closed ≢ None → self.new.entries ≡ self.old.entries }
        ensures room { result ≡ [] }
    {
        let Some(moment) = first_moment(entries.as_slice()) else {
            return entries.cleared();
        };
        let size = size_of_all(entries.as_slice());
        if !self.has_room(size) {
            self.close(moment);
            return entries.cleared();
        }
        let (appended, room) = self.entries.append(entries);
        if appended {
            self.waiting = self.waiting.saturating_add(size);
        } else {
            self.close(moment);
        }
        room
    }

    /// Puts entries and a last one behind the others, or closes. It gives their room, empty.
    fn put_with(&mut self, mut entries: Entries, last: Option<Entry>) -> Entries
        ensures kept { self.new.closed ≡ None → (self.old.closed ≡ None)
            × (self.new.entries ≡ self.old.entries ++ (entries ++ option_to_list last)) }
        ensures begins { self.new.closed ≢ None → self.new.entries ≡ self.old.entries }
        ensures room { result ≡ [] }
    {
        if let Some(entry) = last {
            if let Err(entry) = entries.push(entry) {
                self.close(first_moment(entries.as_slice()).unwrap_or(entry.moment));
                return entries.cleared();
            }
        }
        self.put(entries)
    }

    /// Gives all that wait, and keeps further ones in this room.
    fn take(&mut self, room: Entries) -> Entries
        ensures taken { (result ≡ self.old.entries) × (self.new.entries ≡ []) }
        ensures closed { self.new.closed ≡ self.old.closed }
    {
        self.writing = self.waiting;
        self.waiting = 0;
        mem::replace(&mut self.entries, room.cleared())
    }

    /// Does what is asked, and gives what is taken.
    fn act(&mut self, ask: Asked) -> Entries
        ensures { Acts ask result self.old self.new }
    {
        match ask {
            Asked::Put { entries, last } => return self.put_with(entries, last),
            Asked::Take { room } => return self.take(room),
            Asked::Stop { moment } => self.close(moment),
            Asked::End => self.over = true,
        }
        Entries::from_vec(Vec::new(self.alloc))
    }
}

impl Desk for Queue {
    type Ask = Asked;

    type Answer = Given;

    type Refusal = ();

    type Base = ();

    ghost stands = { λ queue base turns. HoldsFor queue turns };

    ghost refuses = { λ ask refusal. ⊥ };

    fn step<R: Wait>(&mut self, _rt: &R, ask: Asked) -> Result<Given, ()> {
        let entries = self.act(ask);
        Ok(Given {
            entries,
            over: self.over,
        })
    }
}

/// Waits for the queue, and asks this.
pub(crate) fn ask<R: Wait>(
    rt: &R,
    turnstile: &Turnstile<Queue>,
    pass: &mut Pass<Queue>,
    asked: Asked,
) -> Given
    requires { table_of pass.old ≡ turnstile.now }
    ensures table { table_of pass.new ≡ table_of pass.old }
    ensures asked { Asks asked result (known pass.old) (known pass.new) }
{
    match turnstile.visit(rt, pass, asked) {
        Ok(given) => given,
        Err(()) => unreachable!(),
    }
}
