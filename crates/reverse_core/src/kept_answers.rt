//! The answers that are kept.

ghost use Rattle.std.specs.Prelude.{◌≡◌, ◌+◌, ◌<◌, ◌≤◌, ◌^◌, ◌++◌, [], ◌∷◌, false, not, filter, length, nat_lt, IfOk, IfSome, IfNone};
ghost use Rattle.std.specs.Option.{option_copied};
ghost use Rattle.reverse_core.specs.Windows.{kept_at, is_first, IsNoLater, Pairs};

use crate::requests::KeptAnswer;
use std::alloc::Global;
use std::collections::VecDeque;
use std::marker::Model;
use wire_core::NoMemory;

/// How many requests are open or kept at once, at most (profile).
pub(crate) const MOST: usize = 4096;

/// The answers in the order of answering, and how many earlier ones were dropped.
#[derive(Drop)]
pub(crate) struct KeptAnswers {
    list: VecDeque<KeptAnswer>,
    dropped: u64,
}

impl Model for KeptAnswers {
    ghost use Rattle.std.specs.Prelude.{◌≤◌};
    ghost use Rattle.std.specs.VecDeque.{deque_capacity};
    ghost use Rattle.reverse_core.specs.Windows.{KeptParts};

    ghost Value = { KeptParts };

    ghost view = { λ k. record { dropped = k.dropped; list = k.list.items } };

    ghost invariant = { λ k. 4096 ≤ deque_capacity k.list };
}

impl KeptAnswers {
    /// None, with room for as many as are kept at once.
    pub(crate) fn new(alloc: Global) -> Result<KeptAnswers, NoMemory>
        ensures { IfOk result (λ k. k ≡ record { dropped = 0; list = [] }) }
    {
        Ok(KeptAnswers {
            list: VecDeque::with_capacity(alloc, MOST)?,
            dropped: 0,
        })
    }

    /// The answer before which this many were given.
    pub(crate) fn get(&self, count: u64) -> Option<&KeptAnswer>
        ensures { option_copied result ≡ kept_at self.now count }
    {
        if count < self.dropped {
            return None;
        }
        self.list.get((count - self.dropped) as usize)
    }

    /// How many answers were given.
    pub(crate) fn given(&self) -> u64
        requires { self.now.dropped + length self.now.list < 2 ^ 64 }
        ensures { result ≡ self.now.dropped + length self.now.list }
    {
        // This says that the count is the length of the list.
        let _ = self.list.as_slices();
        self.dropped + self.list.len() as u64
    }

    /// How many are still to be kept.
    pub(crate) fn count(&self, retention: u64, moment: u64) -> usize
        requires { Pairs IsNoLater self.now.list }
        ensures { result ≡ length (filter (λ k. nat_lt moment (k.at + retention)) self.now.list) }
    {
        // This says that the count is the length of the list.
        let _ = self.list.as_slices();
        self.list.len() - count_past(&self.list, retention, moment)
    }

    /// Puts in one more, for which there is room.
    pub(crate) fn push(&mut self, answer: KeptAnswer)
        requires { length self.old.list < 4096 }
        ensures { self.new
            ≡ record { dropped = self.old.dropped; list = self.old.list ++ answer ∷ [] } }
    {
        // This says that the count is the length of the list.
        let _ = self.list.as_slices();
        self.list.push_back_reserved(answer);
    }

    /// Whether the first is past its time.
    fn is_first_past(&self, retention: u64, moment: u64) -> bool
        ensures { result ≡ is_first (λ k. not (nat_lt moment (k.at + retention))) self.now.list }
    {
        match self.list.front() {
            None => false,
            Some(held) => !held.is_kept(retention, moment),
        }
    }

    /// Takes out the first, where it is past its time.
    pub(crate) fn pop_past(&mut self, retention: u64, moment: u64) -> Option<KeptAnswer>
        requires { self.old.dropped + length self.old.list < 2 ^ 64 }
        ensures some { IfSome result (λ k. (self.old.list ≡ k ∷ self.new.list) × (nat_lt moment
            (k.at + retention) ≡ false) × (self.new.dropped ≡ self.old.dropped + 1)) }
        ensures none { IfNone result ((self.new ≡ self.old)
            × (is_first (λ k. not (nat_lt moment (k.at + retention))) self.old.list ≡ false)) }
    {
        // This says that the count is the length of the list.
        let _ = self.list.as_slices();
        if !self.is_first_past(retention, moment) {
            return None;
        }
        let first = self.list.pop_front();
        self.dropped += 1;
        first
    }
}

/// How many are past their time.
#[tactic(auto, using(crate::proofs::KeptLemmas::kept_on))]
fn count_past(list: &VecDeque<KeptAnswer>, retention: u64, moment: u64) -> usize
    requires { Pairs IsNoLater list.now.items }
    ensures { result + length (filter (λ k. nat_lt moment (k.at + retention)) list.now.items)
        ≡ length list.now.items }
{
    let mut past = 0;
    for held in list.iter() {
        if held.is_kept(retention, moment) {
            return past;
        }
        past += 1;
    }
    past
}
