//! The entries in two stores, those that wait and the settled ones, each with its indexes.

ghost use Rattle.std.specs.Prelude.{◌≡◌, ◌≢◌, ◌+◌, ◌%◌, ◌<◌, ◌≤◌, ◌^◌, ◌&&◌, if◌then◌else◌, false, [], ◌∷◌, ◌++◌, filter, drop, length, slice_get, option_copied, option_and_then, IfOk, IsSome, OnOk, OnErr};
ghost use Rattle.std.specs.List.{AllByRecursion};
ghost use Rattle.indexmap.specs.IndexMap.{get, spare, IsEmpty};
ghost use Rattle.std.specs.BTreeMap.{values, btree_map_len};
ghost use Rattle.pending_table.specs.Table as parts;
ghost use Rattle.pending_table.specs.Merged.{Pairs, rows, renumbered};
ghost use Rattle.pending_table.specs.Relinked.{with_number, HasOtherNumber, LeadsTo};
ghost use Rattle.pending_table.specs.Stores.{row_at, settled_at, waiting_at, by_key, by_number, same_number, is_live, ends_before, is_first_dead, waits, all, drafts, IsKept, IsWhole, KeepsRest, HasSameRows, HasSameIndexes, HasSameTimes, HasSameList, HasRoom, IsPrepared, IsDraft, CanJoin, KeepsSettled};

use crate::garbage::Garbage;
use crate::row::Row;
use crate::{Answer, Entry, Key};
use indexmap::IndexMap;
use std::alloc::Global;
use std::collections::btree_map::Values;
use std::collections::{BTreeMap, VecDeque};
use std::hash::RandomState;
use wire_core::{NoMemory, SharedKey};

/// Where the row of a key stands: among those that wait, by its serial number, or among the settled ones, by how many were settled
/// before it.
#[derive(Clone, Copy)]
pub(crate) enum RowPlace {
    Waiting { serial: u64 },
    Settled { count: u64 },
}

/// What an answer names: a link and a number on it.
#[derive(Clone, Copy, PartialEq, Eq, Hash)]
pub(crate) struct Number {
    pub(crate) link: u64,
    pub(crate) number: u32,
}

type KeyIndex = IndexMap<SharedKey<'static, Key>, RowPlace, RandomState>;

type NumberIndex = IndexMap<Number, u64, RandomState>;

/// The rows that wait, by serial number, so in the order of taking, and the settled ones, in the order of settling.
#[derive(Drop)]
pub(crate) struct Stores {
    pub(crate) alloc: Global,
    pub(crate) keys: KeyIndex,
    pub(crate) numbers: NumberIndex,
    pub(crate) waiting: BTreeMap<u64, Row>,
    pub(crate) settled: VecDeque<(u64, Row)>,
    pub(crate) patience: u64,
    pub(crate) retention: u64,
    /// How many settled ones were dropped.
    pub(crate) dropped: u64,
    /// The serial number of the next row.
    pub(crate) next: u64,
}

impl Stores {
    /// No rows, with room for this many live ones.
    pub(crate) fn new(
        alloc: Global,
        random: RandomState,
        capacity: u32,
        patience: u64,
        retention: u64,
    ) -> Result<Stores, NoMemory>
        ensures kept { IfOk result IsKept }
        ensures whole { IfOk result IsWhole }
        ensures empty { IfOk result (λ s. all s ≡ []) }
        ensures times { IfOk result (λ s. (s.patience ≡ patience) × (s.retention ≡ retention)) }
    {
        // One place more: a row goes in before the dead ones go out.
        let room = capacity as usize + 1;
        let settled = VecDeque::with_capacity(alloc, room)?;
        let (keys, numbers) = indexes(alloc, random, room)?;
        Ok(Stores {
            alloc,
            keys,
            numbers,
            waiting: BTreeMap::new(alloc),
            settled,
            patience,
            retention,
            dropped: 0,
            next: 0,
        })
    }

    /// The row at this place.
    fn at(&self, place: RowPlace) -> Option<&Row>
        ensures { option_copied result ≡ row_at self.now place }
    {
        match place {
            RowPlace::Waiting { serial } => self.waiting.get(&serial),
            RowPlace::Settled { count } => self.settled_at(count),
        }
    }

    /// The settled row before which this many were settled.
    fn settled_at(&self, count: u64) -> Option<&Row>
        ensures { option_copied result ≡ settled_at self.now count }
    {
        if count < self.dropped {
            return None;
        }
        match self.settled.get((count - self.dropped) as usize) {
            None => None,
            Some(held) => Some(&held.1),
        }
    }

    /// The row to which the index of keys leads.
    fn hinted_by_key(&self, key: &Key) -> Option<&Row>
        ensures { option_copied result
            ≡ option_and_then (row_at self.now) (get parts.same_key self.now.keys key.now) }
    {
        let place = self.keys.get(&SharedKey::lent(key)).copied()?;
        self.at(place)
    }

    /// The row of this key.
    pub(crate) fn by_key(&self, key: &Key) -> Option<&Row>
        ensures { option_copied result ≡ by_key self.now key.now }
    {
        match self.hinted_by_key(key) {
            Some(row) if *row.key().get() == *key => Some(row),
            _ => None,
        }
    }

    /// The row to which the index of numbers leads.
    fn hinted_by_number(&self, number: Number) -> Option<&Row>
        ensures { option_copied result
            ≡ option_and_then (waiting_at self.now) (get same_number self.now.numbers number) }
    {
        match self.numbers.get(&number) {
            None => None,
            Some(serial) => self.waiting.get(serial),
        }
    }

    /// The row that waits for the answer with this number on this link.
    pub(crate) fn by_number(&self, link: u64, number: u32) -> Option<&Row>
        ensures { option_copied result ≡ by_number self.now link number }
    {
        match self.hinted_by_number(Number { link, number }) {
            Some(row) if row.entry().has_number(link, number) => Some(row),
            _ => None,
        }
    }

    /// Whether the row lives at this moment.
    pub(crate) fn is_live(&self, row: &Row, moment: u64) -> bool
        ensures { result ≡ is_live self.now moment row.now }
    {
        row.entry().is_live(self.patience, self.retention, moment)
    }

    /// How many rows that wait are dead.
    #[tactic(auto, using(crate::proofs::Kept::live_on))]
    fn dead_waiting(&self, moment: u64) -> usize
        requires { Pairs (ends_before self.now) (values self.now.waiting) }
        ensures { result + length (filter (is_live self.now moment) (values self.now.waiting))
            ≡ btree_map_len self.now.waiting }
    {
        let mut dead = 0;
        for row in self.waiting.values() {
            if self.is_live(row, moment) {
                return dead;
            }
            dead += 1;
        }
        dead
    }

    /// How many settled rows are dead.
    #[tactic(auto, using(crate::proofs::Kept::live_on))]
    fn dead_settled(&self, moment: u64) -> usize
        requires { Pairs (ends_before self.now) (rows self.now.settled.items) }
        ensures { result + length (filter (is_live self.now moment) (rows self.now.settled.items))
            ≡ length self.now.settled.items }
    {
        let mut dead = 0;
        for held in self.settled.iter() {
            if self.is_live(&held.1, moment) {
                return dead;
            }
            dead += 1;
        }
        dead
    }

    /// How many rows that wait are live.
    pub(crate) fn count_waiting(&self, moment: u64) -> usize
        requires { Pairs (ends_before self.now) (values self.now.waiting) }
        ensures { result ≡ length (filter (is_live self.now moment) (values self.now.waiting)) }
    {
        self.waiting.len() - self.dead_waiting(moment)
    }

    /// How many settled rows are live.
    pub(crate) fn count_settled(&self, moment: u64) -> usize
        requires { Pairs (ends_before self.now) (rows self.now.settled.items) }
        ensures { result ≡ length (filter (is_live self.now moment) (rows self.now.settled.items)) }
    {
        // This says that the count is the length of the list.
        let _ = self.settled.as_slices();
        self.settled.len() - self.dead_settled(moment)
    }

    /// The k-th row that waits and lives, counted from 0.
    pub(crate) fn nth_waiting(&self, k: usize, moment: u64) -> Option<&Row>
        ensures { option_copied result
            ≡ slice_get (filter (is_live self.now moment) (values self.now.waiting)) k }
    {
        let mut left = k;
        for row in self.waiting.values() {
            if self.is_live(row, moment) {
                if left == 0 {
                    return Some(row);
                }
                left -= 1;
            }
        }
        None
    }

    /// The rows that wait and live, in the order of taking.
    pub(crate) fn live_waiting(&self, moment: u64) -> Values<'_, u64, Row>
        requires { Pairs (ends_before self.now) (values self.now.waiting) }
        ensures { result ≡ filter (is_live self.now moment) (values self.now.waiting) }
    {
        let mut rows = self.waiting.values();
        // The dead ones come first.
        for _ in 0..self.dead_waiting(moment) {
            rows.next();
        }
        rows
    }

    /// Whether the first row that waits is dead at this moment.
    #[tactic(auto, using(crate::proofs::Dropping::first_waits))]
    fn is_first_waiting_dead(&self, moment: u64) -> bool
        requires { IsKept self.now }
        ensures { result ≡ is_first_dead self.now moment (waits self.now) }
    {
        match self.waiting.first_key_value() {
            None => false,
            Some((serial, row)) => *serial < self.next && !self.is_live(row, moment),
        }
    }

    /// Drops the first row that waits.
    fn drop_waiting(&mut self)
        requires kept { IsKept self.old }
        requires some { 0 < length (waits self.old) }
        ensures kept { IsKept self.new }
        ensures rest { KeepsRest self.old self.new }
        ensures dropped { waits self.new ≡ drop 1 (waits self.old) }
        ensures settled { self.new.settled.items ≡ self.old.settled.items }
    {
        if let Some((_, row)) = self.waiting.pop_first() {
            self.keys.swap_remove(row.key());
            self.numbers.swap_remove(&row.number());
        }
    }

    /// Drops the first settled row.
    fn drop_settled(&mut self, garbage: &mut Garbage)
        requires { IsKept self.old }
        ensures kept { IsKept self.new }
        ensures rest { KeepsRest self.old self.new }
        ensures dropped { self.new.settled.items ≡ drop 1 self.old.settled.items }
        ensures waiting { waits self.new ≡ waits self.old }
    {
        if let Some((_, row)) = self.settled.pop_front() {
            self.keys.swap_remove(row.key());
            self.dropped += 1;
            garbage.take_row(row);
        }
    }

    /// Whether the first settled row is dead at this moment.
    fn is_first_settled_dead(&self, moment: u64) -> bool
        ensures { result ≡ is_first_dead self.now moment self.now.settled.items }
    {
        match self.settled.front() {
            None => false,
            Some(held) => !self.is_live(&held.1, moment),
        }
    }

    /// Drops the dead ones of the rows that wait.
    pub(crate) fn purge_waiting(&mut self, moment: u64)
        requires { IsKept self.old }
        ensures kept { IsKept self.new }
        ensures rest { KeepsRest self.old self.new }
        ensures live { waits self.new ≡ filter (λ p. is_live self.old moment p.1) (waits self.old) }
        ensures settled { self.new.settled.items ≡ self.old.settled.items }
    {
        while self.is_first_waiting_dead(moment) {
            self.drop_waiting();
        }
    }

    /// Drops the dead ones of the settled rows.
    pub(crate) fn purge_settled(&mut self, moment: u64, garbage: &mut Garbage)
        requires { IsKept self.old }
        ensures kept { IsKept self.new }
        ensures rest { KeepsRest self.old self.new }
        ensures live { self.new.settled.items
            ≡ filter (λ x. is_live self.old moment x.1) self.old.settled.items }
        ensures waiting { waits self.new ≡ waits self.old }
    {
        while self.is_first_settled_dead(moment) {
            self.drop_settled(garbage);
        }
    }

    /// Makes room for one more row in the indexes and among the settled ones.
    fn reserve(&mut self) -> Result<(), NoMemory>
        requires { IsKept self.old }
        ensures rows { HasSameRows self.old self.new }
        ensures kept { IsKept self.new }
        ensures room { OnOk result (HasRoom self.new) }
    {
        // This says that the count is the length of the list.
        let _ = self.settled.as_slices();
        self.keys.reserve(1)?;
        self.numbers.reserve(1)?;
        self.settled.reserve(self.waiting.len() + 1)?;
        Ok(())
    }

    /// Puts in a row that waits, under the next serial number, but not yet among those that wait.
    fn draft(&mut self, row: Row) -> Result<(), NoMemory>
        requires kept { IsKept self.old }
        requires whole { IsWhole self.old }
        ensures kept { IsKept self.new }
        ensures rest { HasSameIndexes self.old self.new }
        ensures waits { waits self.new ≡ waits self.old }
        ensures ok { OnOk result (drafts self.new ≡ (self.old.next, row) ∷ []) }
        ensures err { OnErr result (IsWhole self.new) }
    {
        self.waiting.insert(self.next, row)?;
        Ok(())
    }

    /// Puts in the draft of a row that waits and drops the dead rows. After an `Err` the rows are as they were.
    fn prepare(&mut self, row: Row, moment: u64, garbage: &mut Garbage) -> Result<(), NoMemory>
        requires kept { IsKept self.old }
        requires whole { IsWhole self.old }
        ensures kept { IsKept self.new }
        ensures times { HasSameTimes self.old self.new }
        ensures next { self.new.next ≡ self.old.next }
        ensures ok { OnOk result (IsPrepared self.old moment row self.new) }
        ensures err { OnErr result (HasSameList self.old self.new) }
    {
        self.reserve()?;
        self.draft(row)?;
        self.purge_waiting(moment);
        self.purge_settled(moment, garbage);
        Ok(())
    }

    /// Puts the draft among the rows that wait.
    fn enter(&mut self, key: SharedKey<'static, Key>, number: Number)
        requires kept { IsKept self.old }
        requires draft { IsDraft self.old key number }
        requires room { HasRoom self.old }
        requires serial { self.old.next + 1 < 2 ^ 64 }
        ensures kept { IsKept self.new }
        ensures whole { IsWhole self.new }
        ensures waits { waits self.new ≡ waits self.old ++ drafts self.old }
        ensures rest { KeepsSettled self.old self.new }
    {
        let place = RowPlace::Waiting { serial: self.next };
        // There is room for both, so neither is refused.
        let _ = self.numbers.insert(number, self.next);
        let _ = self.keys.insert(key, place);
        self.next += 1;
    }

    /// Drops the dead rows and puts in one that waits. After an `Err` the rows are as they were.
    pub(crate) fn admit(
        &mut self,
        key: Key,
        entry: Entry,
        moment: u64,
        garbage: &mut Garbage,
    ) -> Result<(), NoMemory>
        requires kept { IsKept self.old }
        requires whole { IsWhole self.old }
        requires fits { CanJoin self.old moment (key, entry) }
        ensures kept { IsKept self.new }
        ensures whole { IsWhole self.new }
        ensures times { HasSameTimes self.old self.new }
        ensures ok { OnOk result
            (all self.new ≡ filter (is_live self.old moment) (all self.old) ++ (key, entry) ∷ []) }
        ensures err { OnErr result (all self.new ≡ all self.old) }
    {
        // As many rows are never taken up.
        if self.next == u64::MAX {
            return Err(NoMemory);
        }
        let (key, row) = shared_row(self.alloc, key, entry)?;
        let number = row.number();
        self.prepare(row, moment, garbage)?;
        self.enter(key, number);
        Ok(())
    }

    /// Gives the row that waits for the answer with this number on this link its answer. It goes among the settled ones.
    pub(crate) fn settle(&mut self, link: u64, number: u32, answer: Answer, garbage: &mut Garbage)
        requires kept { IsKept self.old }
        requires whole { IsWhole self.old }
        requires found { IsSome (by_number self.old link number) }
        requires answered { parts.is_waiting answer ≡ false }
        requires last { AllByRecursion
            (λ r. parts.ends self.old.patience self.old.retention r.1.taken r.1.answer
            ≤ parts.ends self.old.patience self.old.retention 0 answer)
            (rows self.old.settled.items) }
        ensures kept { IsKept self.new }
        ensures whole { IsWhole self.new }
        ensures times { HasSameTimes self.old self.new }
        ensures rows { all self.new
            ≡ parts.update_first (λ e. parts.is_waiting e.answer && parts.has_number link number e)
            (λ e. record e { answer = answer })
            (all self.old) }
    {
        let Some(serial) = self.numbers.swap_remove(&Number { link, number }) else {
            return;
        };
        let Some(mut row) = self.waiting.remove(&serial) else {
            return;
        };
        // This says that the count is the length of the list.
        let _ = self.settled.as_slices();
        let count = self.dropped + self.settled.len() as u64;
        let Some(place) = self.keys.get_mut(row.key()) else {
            return;
        };
        *place = RowPlace::Settled { count };
        garbage.take_sent(row.set_answer(answer));
        self.settled.push_back_reserved((serial, row));
    }

    /// Gives the live rows that wait this link and the numbers from 0 on, in their order.
    pub(crate) fn relink(&mut self, link: u64, moment: u64)
        requires kept { IsKept self.old }
        requires whole { IsWhole self.old }
        requires unused { AllByRecursion (λ r. r.1.link ≢ link) (rows (waits self.old)) }
        requires few { length (waits self.old) < 2 ^ 32 }
        ensures kept { IsKept self.new }
        ensures whole { IsWhole self.new }
        ensures times { HasSameTimes self.old self.new }
        ensures rows { all self.new ≡ parts.numbered (parts.is_live_waiting self.old.patience
            self.old.retention moment) link 0 (all self.old) }
    {
        renumber(
            &mut self.waiting,
            self.patience,
            self.retention,
            link,
            moment,
        );
        self.numbers.clear();
        refill(&mut self.numbers, &self.waiting);
    }
}

/// An index by key and one by number, both empty, each with this room.
fn indexes(
    alloc: Global,
    random: RandomState,
    room: usize,
) -> Result<(KeyIndex, NumberIndex), NoMemory>
    ensures { IfOk result (λ both. IsEmpty both.0 × IsEmpty both.1) }
{
    let keys = KeyIndex::with_capacity_and_hasher(alloc, room, random)?;
    let numbers = NumberIndex::with_capacity_and_hasher(alloc, room, random)?;
    Ok((keys, numbers))
}

/// The row of this key and entry, and the key, which is one with the row's, for the index.
fn shared_row(
    alloc: Global,
    key: Key,
    entry: Entry,
) -> Result<(SharedKey<'static, Key>, Row), NoMemory>
    ensures { IfOk result (λ made. (made.0 ≡ key) × (made.1 ≡ (key, entry))) }
{
    let key = SharedKey::new(alloc, key)?;
    let row = Row::new(alloc, key.share()?, entry)?;
    Ok((key, row))
}

/// Gives the live ones of the rows that wait this link and the numbers from 0 on, in their order.
fn renumber(waiting: &mut BTreeMap<u64, Row>, patience: u64, retention: u64, link: u64, moment: u64)
    requires { length waiting.old.entries < 2 ^ 32 }
    ensures { waiting.new.entries
        ≡ renumbered (parts.is_live_waiting patience retention moment) link 0 waiting.old.entries }
{
    let mut next: u32 = 0;
    // All rows stay. `retain` lends each of them in turn, to be written.
    waiting.retain(|_, row: &mut Row| {
        let anew = row.entry().is_live_waiting(patience, retention, moment);
        next = number_if(anew, row, link, next);
        true
    });
}

/// Gives a row this link and this number if it is to be sent anew, and returns the next number.
fn number_if(anew: bool, row: &mut Row, link: u64, number: u32) -> u32
    ensures row { row.new ≡ (if anew then with_number row.old link number else row.old) }
    ensures next { result ≡ (if anew then (number + 1) % 2 ^ 32 else number) }
{
    if !anew {
        return number;
    }
    row.set_number(link, number);
    // After the last number there is no further row.
    number.wrapping_add(1)
}

/// Puts the number of each row that waits into the empty index.
fn refill(numbers: &mut NumberIndex, waiting: &BTreeMap<u64, Row>)
    requires empty { IsEmpty numbers.old }
    requires room { length waiting.now.entries ≤ spare numbers.old }
    requires apart { Pairs HasOtherNumber waiting.now.entries }
    ensures { LeadsTo waiting.now.entries numbers.new }
{
    for (serial, row) in waiting.iter() {
        // There is room for it, so it is not refused.
        let _ = numbers.insert(row.number(), *serial);
    }
}
