//! The table.

ghost use Rattle.std.specs.Prelude.{◌≡◌, ◌≢◌, ◌==◌, ◌<◌, ◌≤◌, false, [], ◌∷◌, ◌++◌, All, IfOk, IsSome, None, OnErr, OnOk, filter, find, length, option_copied, option_map};
ghost use Rattle.std.specs.Bool.{OnFalse};
ghost use Rattle.pending_table.specs.Table as parts;

use crate::garbage::Garbage;
use crate::row::Row;
use crate::stores::Stores;
use crate::{Answer, Entry, Found, Key, Sends};
use session_carrier::Kept;
use std::alloc::Global;
use std::hash::RandomState;
use std::marker::Model;
use wire_core::{NoMemory, Octets};

/// The entries in their order of taking, each with its key, at most `capacity` many that live. Contracts see it as `TableParts`.
#[derive(Drop)]
pub struct Table {
    stores: Stores,
    capacity: u32,
    garbage: Garbage,
}

impl Model for Table {
    ghost use Rattle.std.specs.Prelude.{◌<◌, ◌≤◌, ◌^◌, length};
    ghost use Rattle.pending_table.specs.Table.{TableParts};
    ghost use Rattle.pending_table.specs.Stores.{all, IsKept, IsWhole};

    ghost Value = { TableParts };

    ghost view = { λ t. record { capacity = t.capacity; patience = t.stores.patience; retention = t.stores.retention; entries = all t.stores } };

    // The indexes lead to the entries, which fit in, and a count of them fits a u32.
    ghost invariant = { λ t. IsKept t.stores × IsWhole t.stores × (length (all t.stores) ≤ t.capacity) × (t.capacity < 2 ^ 32) };
}

impl Table {
    /// An empty table that keeps up to `capacity` live entries, each for `patience` milliseconds from its taking while it waits, and
    /// for `retention` milliseconds from when it was settled.
    pub fn new(
        alloc: Global,
        random: RandomState,
        capacity: u32,
        patience: u64,
        retention: u64,
    ) -> Result<Table, NoMemory>
        ensures { IfOk result (λ t. t ≡ record
            { capacity = capacity; patience = patience; retention = retention; entries = [] }) }
    {
        let stores = Stores::new(alloc, random, capacity, patience, retention)?;
        let garbage = Garbage::new(alloc)?;
        Ok(Table {
            stores,
            capacity,
            garbage,
        })
    }

    /// The live entry with this key.
    fn row_of_key(&self, key: &Key, moment: u64) -> Option<&Row>
        ensures { option_copied result ≡ parts.find_key self.now key.now moment }
    {
        match self.stores.by_key(key) {
            None => None,
            Some(row) => self.stores.is_live(row, moment).then_some(row),
        }
    }

    /// What the table has of the request with this key.
    pub fn look(&self, key: &Key, moment: u64) -> Found<'_>
        ensures { parts.told_by result ≡ parts.told (parts.find_key self.now key.now moment) }
    {
        match self.row_of_key(key, moment) {
            None => Found::New,
            Some(row) => row.entry().found(),
        }
    }

    /// Whether there are as many live entries as the table may keep.
    pub fn is_full(&self, moment: u64) -> bool
        ensures exact { result ≡ (length (parts.live self.now moment) == self.now.capacity) }
        ensures room { OnFalse result (length (parts.live self.now moment) < self.now.capacity) }
    {
        self.len(moment) == self.capacity
    }

    /// How many live entries there are.
    pub fn len(&self, moment: u64) -> u32
        ensures exact { result ≡ length (parts.live self.now moment) }
        ensures within { result ≤ self.now.capacity }
    {
        (self.stores.count_waiting(moment) + self.stores.count_settled(moment)) as u32
    }

    /// How many live entries have no answer yet.
    pub fn waiting(&self, moment: u64) -> u32
        ensures exact { result ≡ length (parts.waiting self.now moment) }
        ensures within { result ≤ length (parts.live self.now moment) }
    {
        self.stores.count_waiting(moment) as u32
    }

    /// The live entry that waits for the answer with this number on this link.
    fn row_of_number(&self, link: u64, number: u32, moment: u64) -> Option<&Row>
        ensures { option_copied result ≡ parts.find_number self.now link number moment }
    {
        match self.stores.by_number(link, number) {
            None => None,
            Some(row) => self.stores.is_live(row, moment).then_some(row),
        }
    }

    /// The live request that waits for the answer with this number on this link.
    pub fn find(&self, link: u64, number: u32, moment: u64) -> Option<&Entry>
        ensures entry { option_copied result
            ≡ option_map (λ r. r.1) (parts.find_number self.now link number moment) }
        ensures found { IsSome result → IsSome (parts.find_number self.now link number moment) }
    {
        match self.row_of_number(link, number, moment) {
            None => None,
            Some(row) => Some(row.entry()),
        }
    }

    /// What the k-th of the live requests that wait sent, counted from 0 in the order of taking.
    pub fn sent_at(&self, k: u32, moment: u64) -> Option<&Octets>
        ensures { option_copied result ≡ parts.sent_at self.now k moment }
    {
        match self.stores.nth_waiting(k as usize, moment) {
            None => None,
            Some(row) => row.entry().sent(),
        }
    }

    /// What the live requests that wait sent, in the order of taking.
    pub fn sends(&self, moment: u64) -> Sends<'_>
        ensures { result ≡ parts.sends self.now moment }
    {
        Sends::new(self.stores.live_waiting(moment))
    }

    /// Drops the dead entries and takes up a request, which then waits. After an `Err` the table is as it was.
    pub fn admit(
        &mut self,
        key: Key,
        link: u64,
        number: u32,
        kept: Kept,
        sent: Octets,
        moment: u64,
    ) -> Result<(), NoMemory>
        requires unknown { parts.find_key self.old key moment ≡ None }
        requires room { length (parts.live self.old moment) < self.old.capacity }
        requires unused { All (λ r. parts.has_number link number r.1 ≡ false)
            (parts.live self.old moment) }
        requires in_order { All (λ r. parts.IsBy moment r.1) (parts.live self.old moment) }
        ensures ok { OnOk result (self.new ≡ record self.old {
          entries = parts.live self.old moment
              ++ (key, parts.new_entry key link number kept sent moment) ∷ [];
        }) }
        ensures err { OnErr result (self.new ≡ self.old) }
    {
        let entry = Entry::waiting(&key, link, number, kept, sent, moment);
        self.garbage.free_row();
        self.stores.admit(key, entry, moment, &mut self.garbage)
    }

    /// Gives the live request that waits for the answer with this number on this link its `reply`, or silence.
    pub fn settle(&mut self, link: u64, number: u32, moment: u64, reply: Option<Octets>)
        requires awaited { IsSome (parts.find_number self.old link number moment) }
        requires in_order { All (λ r. parts.IsBy moment r.1) (parts.live self.old moment) }
        ensures { self.new
            ≡ record self.old { entries = parts.settled self.old link number moment reply } }
    {
        self.garbage.free_reply();
        let answer = Answer::given(moment, reply);
        self.stores.settle(link, number, answer, &mut self.garbage);
    }

    /// Gives the live requests that wait this link and the numbers 0, 1, 2 and so on, in the order of taking.
    pub fn relink(&mut self, link: u64, moment: u64)
        requires unused { All (λ r. r.1.link ≢ link) self.old.entries }
        ensures { self.new ≡ record self.old { entries = parts.relinked self.old link moment } }
    {
        self.stores.relink(link, moment);
    }

    /// Drops the dead entries, at the end of a step.
    pub fn purge(&mut self, moment: u64)
        ensures { self.new ≡ record self.old { entries = parts.live self.old moment } }
    {
        self.stores.purge_waiting(moment);
        self.stores.purge_settled(moment, &mut self.garbage);
        self.garbage.pass();
    }
}
