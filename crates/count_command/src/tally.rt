//! Counts in the order of their lines.

ghost use Rattle.std.specs.Prelude.{◌≡◌, ◌<◌, ◌≤◌, [], true, false, List, ℕ, length, IfSome, OnOk};
ghost use Rattle.count_command.specs.Tally as specs;

use std::alloc::Global;
use std::marker::Model;
use wire_core::{NoMemory, Octets};

/// The numbers by which lines are ordered: that of the metric, and those that stand for its labels.
#[derive(Clone, Copy)]
pub struct Order {
    pub metric: u32,
    pub first: u32,
    pub second: u32,
    pub third: u32,
}

/// A line of a block: its order, what stands before its value, and the value.
#[derive(Drop)]
pub struct Count {
    pub order: Order,
    pub head: Octets,
    pub value: u64,
}

/// Counts in order. Contracts see them as the list.
#[derive(Drop)]
pub struct Tally {
    counts: Vec<Count>,
}

impl Model for Tally {
    ghost use Rattle.std.specs.Prelude.{List};
    ghost use Rattle.count_command.specs.declared.tally.Count.{Count};

    ghost Value = { List Count };

    ghost view = { λ t. t.counts.items };
}

/// Whether a line of the first order stands before one of the other.
fn comes_before(order: Order, other: Order) -> bool
    ensures { result ≡ specs.comes_before order other }
{
    let Order {
        metric,
        first,
        second,
        third,
    } = order;
    metric < other.metric
        || (metric == other.metric
            && (first < other.first
                || (first == other.first
                    && (second < other.second || (second == other.second && third < other.third)))))
}

impl Tally {
    /// No counts.
    pub fn new(alloc: Global) -> Tally
        ensures { result ≡ [] }
    {
        Tally {
            counts: Vec::new(alloc),
        }
    }

    pub fn as_slice(&self) -> &[Count]
        ensures { result.now ≡ self.now }
    {
        self.counts.as_slice()
    }

    /// Where the first count stands that doesn't come before this order.
    fn first_not_before(&self, order: Order) -> Option<usize>
        ensures place { result ≡ specs.first_not_before order self.now }
        ensures within { IfSome result (λ place. place < length self.now) }
    {
        self.counts
            .iter()
            .position(|count| !comes_before(count.order, order))
    }

    /// Where a count of this order stands, or would stand.
    fn place_of(&self, order: Order) -> usize
        ensures place { result ≡ specs.place_of order self.now }
        ensures within { result ≤ length self.now }
    {
        match self.first_not_before(order) {
            Some(place) => place,
            None => self.counts.len(),
        }
    }

    /// Adds to the count of this order, where there is one.
    pub fn raise(&mut self, order: Order, amount: u64) -> bool
        ensures raised { result ≡ true → (head : List ℕ) → self.new
            ≡ specs.added self.old (record { order = order; head = head; amount = amount }) }
        ensures unknown { result ≡ false → specs.stands order self.old ≡ false }
        ensures same { result ≡ false → self.new ≡ self.old }
    {
        let place = self.place_of(order);
        match self.counts.get_mut(place) {
            Some(count) if !comes_before(order, count.order) => {
                count.value = count.value.saturating_add(amount);
                true
            }
            _ => false,
        }
    }

    /// Puts a count where none of its order stands.
    pub fn insert(&mut self, order: Order, head: Octets, amount: u64) -> Result<(), NoMemory>
        requires { specs.stands order self.old ≡ false }
        ensures { OnOk result (self.new
            ≡ specs.added self.old (record { order = order; head = head; amount = amount })) }
    {
        let place = self.place_of(order);
        self.counts.insert(
            place,
            Count {
                order,
                head,
                value: amount,
            },
        )?;
        Ok(())
    }
}
