//! The open requests, each in a slot of its identifier.

ghost use Rattle.std.specs.Prelude.{◌≡◌, ◌+◌, ◌-◌, ◌%◌, ◌<◌, ◌≤◌, ◌^◌, ◌==◌, ◌++◌, [], ◌∷◌, ℕ, true, false, None, map, filter, find, not, length, take, drop, option_map, option_to_list, slice_set, IfOk, IfSome, IfNone};
ghost use Rattle.std.specs.List.{AllByRecursion};
ghost use Rattle.std.specs.Option.{option_copied};
ghost use Rattle.std.specs.VecDeque.{deque_capacity};
ghost use Rattle.reverse_core.specs.History.{has_identifier};
ghost use Rattle.reverse_core.specs.Requests as specs;
ghost use Rattle.reverse_core.specs.Windows as windows;
ghost use Rattle.reverse_core.specs.Windows.{filled, numbers, slot_at, HasLengths, IsNumbered, IsSent, IsSentBefore, KeepsSent, Pairs, TakesOut};

use crate::requests::{OpenRequest, Sent, Taken};
use std::alloc::Global;
use std::collections::VecDeque;
use std::marker::Model;
use wire_core::NoMemory;

/// How many identifiers there are.
const IDENTIFIERS: usize = 256;

/// Slots of requests with consecutive numbers; that of a request that isn't open any more is empty.
pub(crate) type Slots = VecDeque<Option<OpenRequest>>;

/// The open requests in the order of taking, and the number of the next one. They lie in a window over their numbers, with a
/// slot for each number from `first` on, so that there is at most one slot for an identifier. Those whose packets were sent
/// more often come first, and of those that were sent as often the one that was sent longest ago: what falls due stands at
/// the front of each of the three queues.
#[derive(Drop)]
pub(crate) struct OpenRequests {
    pub(crate) thrice: Slots,
    pub(crate) twice: Slots,
    pub(crate) once: Slots,
    first: u64,
    count: usize,
}

impl Model for OpenRequests {
    ghost use Rattle.std.specs.Prelude.{◌+◌, ◌++◌, length};
    ghost use Rattle.std.specs.VecDeque.{deque_capacity};
    ghost use Rattle.reverse_core.specs.Windows.{OpenParts, filled, IsWindow};

    ghost Value = { OpenParts };

    ghost view = { λ w. record {
      list = filled (w.thrice.items ++ w.twice.items ++ w.once.items);
      next = w.first + length (w.thrice.items ++ w.twice.items ++ w.once.items);
    } };

    ghost invariant = { λ w. IsWindow w.first w.thrice.items w.twice.items w.once.items w.count
        (deque_capacity w.thrice) (deque_capacity w.twice) (deque_capacity w.once) };
}

impl OpenRequests {
    /// None, with room for as many as there are identifiers.
    pub(crate) fn new(alloc: Global) -> Result<OpenRequests, NoMemory>
        ensures { IfOk result (λ w. w ≡ record { list = []; next = 0 }) }
    {
        Ok(OpenRequests {
            thrice: VecDeque::with_capacity(alloc, IDENTIFIERS)?,
            twice: VecDeque::with_capacity(alloc, IDENTIFIERS)?,
            once: VecDeque::with_capacity(alloc, IDENTIFIERS)?,
            first: 0,
            count: 0,
        })
    }

    /// The number of the next request.
    pub(crate) fn next(&self) -> u64
        ensures { result ≡ self.now.next }
    {
        self.first + slots_in(&self.thrice, &self.twice, &self.once) as u64
    }

    /// How many are open.
    pub(crate) fn len(&self) -> usize
        ensures { result ≡ length self.now.list }
    {
        self.count
    }

    /// The open request whose packet has this identifier.
    pub(crate) fn find(&self, id: u8) -> Option<&OpenRequest>
        ensures { option_copied result ≡ find (has_identifier id) self.now.list }
    {
        let place = place_of(self.first, id);
        peek_in(&self.thrice, &self.twice, &self.once, place)
    }

    /// Puts in the next request, whose packet is sent now.
    pub(crate) fn push(&mut self, taken: Taken, moment: u64)
        requires numbered { taken.number ≡ self.old.next }
        requires free { find (has_identifier (self.old.next % 256)) self.old.list ≡ None }
        requires fits { self.old.next + 1 < 2 ^ 64 }
        requires late { AllByRecursion (λ o. o.sent.last ≤ moment) self.old.list }
        ensures list { self.new.list
            ≡ self.old.list ++ record { taken = taken; sent = specs.first_sent moment } ∷ [] }
        ensures next { self.new.next ≡ self.old.next + 1 }
    {
        self.first = free_slot(
            &mut self.thrice,
            &mut self.twice,
            &mut self.once,
            self.first,
        );
        let sent = Sent::first(moment);
        push_slot(&mut self.once, Some(OpenRequest { taken, sent }));
        self.count += 1;
    }

    /// Takes out the open request whose packet has this identifier.
    pub(crate) fn remove(&mut self, id: u8) -> Option<OpenRequest>
        ensures found { result ≡ find (has_identifier id) self.old.list }
        ensures some { IfSome result (λ o. TakesOut o self.old.list self.new.list) }
        ensures others { IfSome result (λ o. self.new.list
            ≡ filter (λ x. not (x.taken.number == o.taken.number)) self.old.list) }
        ensures none { IfNone result (self.new.list ≡ self.old.list) }
        ensures next { self.new.next ≡ self.old.next }
    {
        let place = place_of(self.first, id);
        match take_in(&mut self.thrice, &mut self.twice, &mut self.once, place) {
            Some(found) => {
                self.count -= 1;
                Some(found)
            }
            None => None,
        }
    }

    /// Takes out the first request whose packet was sent three times and whose answer is overdue, which is the first of all.
    pub(crate) fn pop_spent(&mut self, moment: u64) -> Option<OpenRequest>
        ensures some { IfSome result
            (λ o. (self.old.list ≡ o ∷ self.new.list) × (specs.is_spent moment o ≡ true)) }
        ensures none { IfNone result ((self.new.list ≡ self.old.list)
            × (filter (specs.is_spent moment) self.old.list ≡ [])) }
        ensures next { self.new.next ≡ self.old.next }
    {
        let before = slots_of(&self.thrice);
        match pop_due(&mut self.thrice, moment) {
            Some(found) => {
                self.first += (before - slots_of(&self.thrice)) as u64;
                self.count -= 1;
                Some(found)
            }
            None => {
                self.first += (before - slots_of(&self.thrice)) as u64;
                None
            }
        }
    }

    /// Notes of those whose answers are overdue, and that were sent less often than three times, that they were sent again.
    pub(crate) fn renew(&mut self, moment: u64)
        requires { AllByRecursion (λ o. o.sent.last ≤ moment) self.old.list }
        ensures list { self.new.list ≡ map (specs.renewed moment) self.old.list }
        ensures next { self.new.next ≡ self.old.next }
    {
        promote(&mut self.twice, &mut self.thrice, moment);
        promote(&mut self.once, &mut self.twice, moment);
    }
}

/// Which slot, from that of the number `first` on, has this identifier.
fn place_of(first: u64, id: u8) -> usize
    ensures below { result < 256 }
    ensures identifier { (first + result) % 256 ≡ id }
{
    ((id as u64 + 256 - first % 256) % 256) as usize
}

/// How many slots there are.
fn slots_of(slots: &Slots) -> usize
    ensures { result ≡ length slots.now.items }
{
    // This says that the count is the length of the list.
    let _ = slots.as_slices();
    slots.len()
}

/// How many slots there are in these three queues.
fn slots_in(thrice: &Slots, twice: &Slots, once: &Slots) -> usize
    requires { length thrice.now.items + length twice.now.items + length once.now.items ≤ 256 }
    ensures { result ≡ length (thrice.now.items ++ twice.now.items ++ once.now.items) }
{
    slots_of(thrice) + slots_of(twice) + slots_of(once)
}

/// Puts in a slot, for which there is room.
fn push_slot(slots: &mut Slots, slot: Option<OpenRequest>)
    requires { length slots.old.items < deque_capacity slots.old }
    ensures items { slots.new.items ≡ slots.old.items ++ slot ∷ [] }
    ensures capacity { deque_capacity slots.new ≡ deque_capacity slots.old }
{
    // This says that the count is the length of the list.
    let _ = slots.as_slices();
    slots.push_back_reserved(slot);
}

/// What is in the slot at this place, where there is one.
fn peek(slots: &Slots, place: usize) -> Option<&OpenRequest>
    ensures { option_copied result ≡ slot_at slots.now.items place }
{
    match slots.get(place) {
        Some(slot) => slot.as_ref(),
        None => None,
    }
}

/// The same, of the slots of three queues.
fn peek_in<'a>(
    thrice: &'a Slots,
    twice: &'a Slots,
    once: &'a Slots,
    place: usize,
) -> Option<&'a OpenRequest>
    ensures { option_copied result
        ≡ slot_at (thrice.now.items ++ twice.now.items ++ once.now.items) place }
{
    if place < slots_of(thrice) {
        return peek(thrice, place);
    }
    let place = place - slots_of(thrice);
    if place < slots_of(twice) {
        peek(twice, place)
    } else {
        peek(once, place - slots_of(twice))
    }
}

/// What is in the slot at this place, where there is one; the slot is empty afterwards.
fn take_at(slots: &mut Slots, place: usize) -> Option<OpenRequest>
    ensures taken { result ≡ slot_at slots.old.items place }
    ensures items { slots.new.items ≡ slice_set slots.old.items place None }
    ensures sent { KeepsSent slots.old.items slots.new.items }
    ensures capacity { deque_capacity slots.new ≡ deque_capacity slots.old }
{
    match slots.get_mut(place) {
        Some(slot) => slot.take(),
        None => None,
    }
}

/// The same of the slots of three queues.
fn take_in(
    thrice: &mut Slots,
    twice: &mut Slots,
    once: &mut Slots,
    place: usize,
) -> Option<OpenRequest>
    ensures taken { result ≡ slot_at (thrice.old.items ++ twice.old.items ++ once.old.items) place }
    ensures items { thrice.new.items ++ twice.new.items ++ once.new.items
        ≡ slice_set (thrice.old.items ++ twice.old.items ++ once.old.items) place None }
    ensures lengths { HasLengths thrice.new.items twice.new.items once.new.items
        (length thrice.old.items) (length twice.old.items) (length once.old.items) }
    ensures thrice { KeepsSent thrice.old.items thrice.new.items }
    ensures twice { KeepsSent twice.old.items twice.new.items }
    ensures once { KeepsSent once.old.items once.new.items }
    ensures rooms { (deque_capacity thrice.new ≡ deque_capacity thrice.old)
        × (deque_capacity twice.new ≡ deque_capacity twice.old)
        × (deque_capacity once.new ≡ deque_capacity once.old) }
{
    if place < slots_of(thrice) {
        return take_at(thrice, place);
    }
    let place = place - slots_of(thrice);
    if place < slots_of(twice) {
        take_at(twice, place)
    } else {
        take_at(once, place - slots_of(twice))
    }
}

/// Drops the first slot of a queue.
fn drop_first(slots: &mut Slots)
    ensures items { slots.new.items ≡ drop 1 slots.old.items }
    ensures sent { KeepsSent slots.old.items slots.new.items }
    ensures capacity { deque_capacity slots.new ≡ deque_capacity slots.old }
{
    slots.pop_front();
}

/// Drops the first slot of three queues.
fn drop_first_in(thrice: &mut Slots, twice: &mut Slots, once: &mut Slots)
    ensures items { thrice.new.items ++ twice.new.items ++ once.new.items
        ≡ drop 1 (thrice.old.items ++ twice.old.items ++ once.old.items) }
    ensures thrice { KeepsSent thrice.old.items thrice.new.items }
    ensures twice { KeepsSent twice.old.items twice.new.items }
    ensures once { KeepsSent once.old.items once.new.items }
    ensures rooms { (deque_capacity thrice.new ≡ deque_capacity thrice.old)
        × (deque_capacity twice.new ≡ deque_capacity twice.old)
        × (deque_capacity once.new ≡ deque_capacity once.old) }
{
    if !thrice.is_empty() {
        drop_first(thrice);
    } else if !twice.is_empty() {
        drop_first(twice);
    } else {
        drop_first(once);
    }
}

/// Drops the first slot, which is that of this number, where there are as many as identifiers. It is empty, since the next
/// number's identifier is free. Gives the number of the first slot that is left.
fn free_slot(thrice: &mut Slots, twice: &mut Slots, once: &mut Slots, first: u64) -> u64
    requires window { IsNumbered first (thrice.old.items ++ twice.old.items ++ once.old.items) }
    requires few { length thrice.old.items + length twice.old.items + length once.old.items ≤ 256 }
    requires free { find (has_identifier
        ((first + length (thrice.old.items ++ twice.old.items ++ once.old.items)) % 256))
        (filled (thrice.old.items ++ twice.old.items ++ once.old.items)) ≡ None }
    requires fits { first + length (thrice.old.items ++ twice.old.items ++ once.old.items)
        < 2 ^ 64 }
    ensures window { IsNumbered result (thrice.new.items ++ twice.new.items ++ once.new.items) }
    ensures room { length (thrice.new.items ++ twice.new.items ++ once.new.items) < 256 }
    ensures next { result + length (thrice.new.items ++ twice.new.items ++ once.new.items)
        ≡ first + length (thrice.old.items ++ twice.old.items ++ once.old.items) }
    ensures same { filled (thrice.new.items ++ twice.new.items ++ once.new.items)
        ≡ filled (thrice.old.items ++ twice.old.items ++ once.old.items) }
    ensures thrice { KeepsSent thrice.old.items thrice.new.items }
    ensures twice { KeepsSent twice.old.items twice.new.items }
    ensures once { KeepsSent once.old.items once.new.items }
    ensures rooms { (deque_capacity thrice.new ≡ deque_capacity thrice.old)
        × (deque_capacity twice.new ≡ deque_capacity twice.old)
        × (deque_capacity once.new ≡ deque_capacity once.old) }
{
    if slots_in(thrice, twice, once) < IDENTIFIERS {
        return first;
    }
    drop_first_in(thrice, twice, once);
    first + 1
}

/// Whether the first slot is empty, or that of a request whose answer is overdue.
fn is_first_passed(slots: &Slots, moment: u64) -> bool
    ensures { result ≡ windows.is_first_passed moment slots.now.items }
{
    match slots.front() {
        None => false,
        Some(None) => true,
        Some(Some(one)) => one.sent.is_due(moment),
    }
}

/// Takes the first request out of a queue, where its answer is overdue, with the slots before it.
fn pop_due(slots: &mut Slots, moment: u64) -> Option<OpenRequest>
    ensures some { IfSome result (λ o. (filled slots.old.items ≡ o ∷ filled slots.new.items)
        × (specs.is_due moment o.sent ≡ true)) }
    ensures none { IfNone result ((filled slots.new.items ≡ filled slots.old.items)
        × (windows.is_first_passed moment slots.new.items ≡ false)) }
    ensures dropped { (k : ℕ) × (k ≤ length slots.old.items)
        × (slots.new.items ≡ drop k slots.old.items) }
    ensures capacity { deque_capacity slots.new ≡ deque_capacity slots.old }
{
    while is_first_passed(slots, moment) {
        if let Some(Some(found)) = slots.pop_front() {
            return Some(found);
        }
    }
    None
}

/// What is in a slot, sent again.
fn again(slot: Option<OpenRequest>, moment: u64) -> Option<OpenRequest>
    ensures { result ≡ option_map (specs.renewed moment) slot }
{
    match slot {
        None => None,
        Some(one) => Some(OpenRequest {
            sent: one.sent.again(moment),
            taken: one.taken,
        }),
    }
}

/// Moves those whose answers are overdue from the front of a queue to the end of that of packets that were sent once more
/// often.
fn promote(from: &mut Slots, to: &mut Slots, moment: u64)
    requires rising { Pairs IsSentBefore (filled from.old.items) }
    requires late { AllByRecursion (λ o. o.sent.last ≤ moment) (filled to.old.items) }
    requires room { length to.old.items + length from.old.items ≤ deque_capacity to.old }
    ensures list { filled to.new.items ++ filled from.new.items
        ≡ filled to.old.items ++ map (specs.renewed moment) (filled from.old.items) }
    ensures numbers { numbers (to.new.items ++ from.new.items)
        ≡ numbers (to.old.items ++ from.old.items) }
    ensures sent { (n : ℕ) → n < 3 → IsSent n from.old.items → IsSent (n + 1) to.old.items
        → IsSent (n + 1) to.new.items × IsSent n from.new.items }
    ensures rooms { (deque_capacity from.new ≡ deque_capacity from.old)
        × (deque_capacity to.new ≡ deque_capacity to.old) }
{
    while is_first_passed(from, moment) {
        if let Some(slot) = from.pop_front() {
            push_slot(to, again(slot, moment));
        }
    }
}
