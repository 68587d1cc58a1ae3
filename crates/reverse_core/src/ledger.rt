//! What is kept of the inputs so far.

ghost use Rattle.std.specs.Prelude.{◌≡◌, ◌+◌, ◌<◌, ◌≤◌, ◌^◌, ◌++◌, [], ◌∷◌, Some, length, filter, find, cond, IfOk, IsSome, OnOk, OnErr};
ghost use Rattle.indexmap.specs.IndexMap.{get, spare, IsEmpty};
ghost use Rattle.reverse_core.specs.declared.events.ReverseOutput.TheVariants.{Send};
ghost use Rattle.reverse_core.specs.declared.key.Key.{Key};
ghost use Rattle.reverse_core.specs.declared.requests.OpenRequest.{OpenRequest};
ghost use Rattle.reverse_core.specs.History.{has_identifier};
ghost use Rattle.reverse_core.specs.Keys.{same_key};
ghost use Rattle.reverse_core.specs.Requests.{Takes, Closes, first_sent, kept_answer, is_kept};
ghost use Rattle.reverse_core.specs.State.{state_of, kept_in, Does, IsSound, MayTake};

use crate::events::{ReverseOutput, ReverseOutputs};
use crate::kept_answers::{KeptAnswers, MOST};
use crate::key::Key;
use crate::open_requests::OpenRequests;
use crate::requests::{KeptAnswer, Taken};
use crate::values::Headed;
use indexmap::IndexMap;
use reverse_map::Reverse;
use std::alloc::Global;
use std::hash::{BuildHasherDefault, FoldHasher};
use wire_core::{NoMemory, Octets, SharedKey};

/// Where the request of a key stands: among the open ones, or among the kept answers, by how many were given before it.
#[derive(Clone, Copy)]
pub enum Standing {
    Open,
    Kept { count: u64 },
}

pub(crate) type Index = IndexMap<SharedKey<'static, Key>, Standing, BuildHasherDefault<FoldHasher>>;

/// What is kept of the inputs so far.
#[derive(Drop)]
pub struct Ledger {
    pub(crate) own: Reverse,
    pub(crate) index: Index,
    pub(crate) open_ones: OpenRequests,
    pub(crate) kept: KeptAnswers,
    /// The greatest moment so far.
    pub(crate) moment: u64,
}

/// One output.
pub(crate) fn one(alloc: Global, output: ReverseOutput) -> Result<ReverseOutputs, NoMemory>
    ensures { IfOk result (λ o. o ≡ output ∷ []) }
{
    let mut outputs = Vec::new(alloc);
    outputs.push(output)?;
    Ok(ReverseOutputs::from_vec(outputs))
}

/// What is kept before anything came in.
fn nothing(alloc: Global) -> Result<(KeptAnswers, OpenRequests, Index), NoMemory>
    ensures kept { IfOk result (λ p. p.0 ≡ record { dropped = 0; list = [] }) }
    ensures open_ones { IfOk result (λ p. p.1 ≡ record { list = []; next = 0 }) }
    ensures index { IfOk result (λ p. IsEmpty p.2) }
{
    let kept = KeptAnswers::new(alloc)?;
    let open_ones = OpenRequests::new(alloc)?;
    // One place more, so that no more room is made later.
    let room = MOST + 1;
    let index = IndexMap::with_capacity_and_hasher(alloc, room, BuildHasherDefault::new())?;
    Ok((kept, open_ones, index))
}

/// Keeps the answer to a request that was open.
pub(crate) fn keep(
    index: &mut Index,
    kept: &mut KeptAnswers,
    taken: Taken,
    moment: u64,
    answer: Headed,
)
    requires known { IsSome (get same_key index.old taken.key) }
    requires room { length kept.old.list < 4096 }
    requires fits { kept.old.dropped + length kept.old.list < 2 ^ 64 }
    ensures index { (q : Key) → get same_key index.new q
        ≡ cond (same_key taken.key q) (Some
        (Standing.Kept (kept.old.dropped + length kept.old.list))) (get same_key index.old q) }
    ensures kept { kept.new ≡ record {
      dropped = kept.old.dropped;
      list = kept.old.list
          ++ kept_answer taken moment answer ∷ [];
    } }
{
    let count = kept.given();
    if let Some(standing) = index.get_mut(&taken.key) {
        *standing = Standing::Kept { count };
    }
    kept.push(KeptAnswer {
        number: taken.number,
        key: taken.key,
        at: moment,
        answer,
    });
}

impl Ledger {
    /// Nothing came in yet.
    pub(crate) fn new(alloc: Global, own: Reverse) -> Result<Ledger, NoMemory>
        requires host { length own.host ≤ 64 }
        requires realm { length own.realm ≤ 64 }
        ensures sound { IfOk result IsSound }
        ensures empty { IfOk result (λ l. state_of l
            ≡ record { own = own; count = 0; open_ones = []; kept = []; moment = 0 }) }
    {
        let (kept, open_ones, index) = nothing(alloc)?;
        Ok(Ledger {
            own,
            index,
            open_ones,
            kept,
            moment: 0,
        })
    }

    /// Drops the answers that are past their time.
    pub(crate) fn purge(&mut self, moment: u64)
        requires { IsSound self.old }
        ensures sound { IsSound self.new }
        ensures own { self.new.own ≡ self.old.own }
        ensures open_ones { self.new.open_ones ≡ self.old.open_ones }
        ensures kept { self.new.kept.list
            ≡ filter (is_kept self.old.own moment) self.old.kept.list }
        ensures moment { self.new.moment ≡ self.old.moment }
        ensures room { spare self.old.index ≤ spare self.new.index }
    {
        let retention = self.own.retention;
        while let Some(past) = self.kept.pop_past(retention, moment) {
            self.index.swap_remove(&past.key);
        }
    }

    /// Puts in a request that is taken up, for which there is room.
    fn enter(&mut self, key: SharedKey<'static, Key>, taken: Taken, moment: u64)
        requires sound { IsSound self.old }
        requires key { key ≡ taken.key }
        requires may { MayTake self.old.open_ones.list self.old.kept.list self.old.open_ones.next
            taken }
        requires room { 0 < spare self.old.index }
        requires fits { self.old.open_ones.next + 1 < 2 ^ 64 }
        requires late { self.old.moment ≤ moment }
        ensures sound { IsSound self.new }
        ensures own { self.new.own ≡ self.old.own }
        ensures open_ones { self.new.open_ones.list
            ≡ self.old.open_ones.list ++ record { taken = taken; sent = first_sent moment } ∷ [] }
        ensures next { self.new.open_ones.next ≡ self.old.open_ones.next + 1 }
        ensures kept { self.new.kept ≡ self.old.kept }
        ensures moment { self.new.moment ≡ moment }
    {
        self.open_ones.push(taken, moment);
        self.moment = moment;
        // There is room for it, so it is not refused.
        let _ = self.index.insert(key, Standing::Open);
    }

    /// Makes room for a request and gives what it takes to take it up: its key once more, for the index, and the output that
    /// sends its packet.
    fn prepare(
        &mut self,
        alloc: Global,
        taken: &Taken,
    ) -> Result<(SharedKey<'static, Key>, ReverseOutputs), NoMemory>
        requires { IsSound self.old }
        ensures key { IfOk result (λ p. p.0 ≡ taken.now.key) }
        ensures outputs { IfOk result (λ p. p.1 ≡ Send taken.now.sent ∷ []) }
        ensures room { OnOk result (0 < spare self.new.index) }
        ensures fits { OnOk result (self.old.open_ones.next + 1 < 2 ^ 64) }
        ensures sound { IsSound self.new }
        ensures same { state_of self.new ≡ state_of self.old }
    {
        // As many are never taken up.
        if self.open_ones.next() == u64::MAX {
            return Err(NoMemory);
        }
        self.index.reserve(1)?;
        let octets = Octets::copy(alloc, taken.sent.as_slice())?;
        let outputs = one(alloc, ReverseOutput::Send { octets })?;
        Ok((taken.key.share()?, outputs))
    }

    /// Takes up a request.
    pub(crate) fn take(
        &mut self,
        alloc: Global,
        moment: u64,
        taken: Taken,
    ) -> Result<ReverseOutputs, NoMemory>
        requires sound { IsSound self.old }
        requires late { self.old.moment ≤ moment }
        requires may { MayTake self.old.open_ones.list (kept_in (state_of self.old) moment)
            self.old.open_ones.next taken }
        ensures outputs { IfOk result (λ o. o ≡ Send taken.sent ∷ []) }
        ensures state { OnOk result
            (Does moment (Takes taken) (state_of self.old) (state_of self.new)) }
        ensures sound { IsSound self.new }
        ensures err { OnErr result (state_of self.new ≡ state_of self.old) }
    {
        let (key, outputs) = self.prepare(alloc, &taken)?;
        self.purge(moment);
        self.enter(key, taken, moment);
        Ok(outputs)
    }

    /// Closes the open request whose packet has this identifier, with this answer.
    pub(crate) fn close(&mut self, id: u8, moment: u64, answer: Headed)
        requires sound { IsSound self.old }
        requires late { self.old.moment ≤ moment }
        requires found { IsSome (find (has_identifier id) self.old.open_ones.list) }
        ensures sound { IsSound self.new }
        ensures state { (o : OpenRequest)
            → find (has_identifier id) self.old.open_ones.list ≡ Some o
            → Does moment (Closes o.taken answer) (state_of self.old) (state_of self.new) }
    {
        if let Some(found) = self.open_ones.remove(id) {
            keep(&mut self.index, &mut self.kept, found.taken, moment, answer);
            self.moment = moment;
        }
    }
}
