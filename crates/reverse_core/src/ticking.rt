//! What a Tick leads to.

ghost use Rattle.std.specs.Prelude.{◌≡◌, ◌≤◌, ◌++◌, ◌∷◌, [], List, ℕ, length, map, filter, not, if◌then◌else◌, IfOk, OnOk, OnErr};
ghost use Rattle.std.specs.List.{flat_map};
ghost use Rattle.reverse_core.specs.History as history;
ghost use Rattle.reverse_core.specs.Requests as specs;
ghost use Rattle.reverse_core.specs.State.{state_of, IsSound, Leads};
ghost use Rattle.reverse_core.specs.Ticking.{silences};
ghost use Rattle.reverse_core.specs.Windows.{filled, IsSentBefore, Pairs};

use crate::events::{ReverseOutput, ReverseOutputs};
use crate::ledger::{Ledger, keep};
use crate::open_requests::{OpenRequests, Slots};
use crate::requests::{OpenRequest, Taken};
use crate::values::Headed;
use reverse_map::{Reverse, refuse};
use std::alloc::Global;
use wire_core::{NoMemory, Octets};

/// RFC 6733, section 7.1.3.
const UNABLE_TO_DELIVER: u32 = 3002;

/// What goes out for those whose answers are overdue.
#[derive(Drop)]
pub(crate) struct Overdue {
    outputs: Vec<ReverseOutput>,
    /// The answers to those that are given up, to be kept.
    answers: Vec<Headed>,
}

/// The answer to a request that the RADIUS server doesn't answer.
fn silence(alloc: Global, own: &Reverse, taken: &Taken) -> Result<Octets, NoMemory>
    requires host { length own.now.host ≤ 64 }
    requires realm { length own.now.realm ≤ 64 }
    ensures answer { IfOk result (λ o. o ≡ specs.silence own.now taken.now) }
    ensures long { IfOk result (λ o. 20 ≤ length o) }
{
    refuse(alloc, own, taken.request.as_slice(), UNABLE_TO_DELIVER)
}

/// Puts in what goes out for a request whose answer is overdue.
fn push_overdue(
    overdue: &mut Overdue,
    alloc: Global,
    own: &Reverse,
    one: &OpenRequest,
) -> Result<(), NoMemory>
    requires host { length own.now.host ≤ 64 }
    requires realm { length own.now.realm ≤ 64 }
    ensures outputs { OnOk result (overdue.new.outputs.items
        ≡ overdue.old.outputs.items ++ history.sent_overdue own.now one.now ∷ []) }
    ensures answers { OnOk result (overdue.new.answers.items ≡ overdue.old.answers.items
        ++ (if specs.is_last one.now.sent then specs.silence own.now one.now.taken ∷ [] else [])) }
{
    if one.sent.is_last() {
        let octets = silence(alloc, own, &one.taken)?;
        overdue
            .answers
            .push(Headed::copy(alloc, octets.as_slice())?)?;
        overdue.outputs.push(ReverseOutput::Answer { octets })?;
    } else {
        let octets = Octets::copy(alloc, one.taken.sent.as_slice())?;
        overdue.outputs.push(ReverseOutput::Send { octets })?;
    }
    Ok(())
}

/// Puts in what goes out for those at the front of a queue whose answers are overdue.
fn push_queue(
    overdue: &mut Overdue,
    alloc: Global,
    own: &Reverse,
    moment: u64,
    slots: &Slots,
) -> Result<(), NoMemory>
    requires host { length own.now.host ≤ 64 }
    requires realm { length own.now.realm ≤ 64 }
    requires rising { Pairs IsSentBefore (filled slots.now.items) }
    ensures outputs { OnOk result (overdue.new.outputs.items ≡ overdue.old.outputs.items
        ++ flat_map (history.overdue own.now moment) (filled slots.now.items)) }
    ensures answers { OnOk result (overdue.new.answers.items
        ≡ overdue.old.answers.items ++ silences own.now moment (filled slots.now.items)) }
{
    for slot in slots.iter() {
        if let Some(one) = slot {
            if !one.sent.is_due(moment) {
                return Ok(());
            }
            push_overdue(overdue, alloc, own, one)?;
        }
    }
    Ok(())
}

impl OpenRequests {
    /// What goes out for those whose answers are overdue, in the order of taking.
    fn overdue(&self, alloc: Global, own: &Reverse, moment: u64) -> Result<Overdue, NoMemory>
        requires host { length own.now.host ≤ 64 }
        requires realm { length own.now.realm ≤ 64 }
        ensures outputs { IfOk result
            (λ d. d.outputs.items ≡ flat_map (history.overdue own.now moment) self.now.list) }
        ensures answers { IfOk result
            (λ d. d.answers.items ≡ silences own.now moment self.now.list) }
    {
        let mut overdue = Overdue {
            outputs: Vec::new(alloc),
            answers: Vec::new(alloc),
        };
        push_queue(&mut overdue, alloc, own, moment, &self.thrice)?;
        push_queue(&mut overdue, alloc, own, moment, &self.twice)?;
        push_queue(&mut overdue, alloc, own, moment, &self.once)?;
        Ok(overdue)
    }
}

impl Ledger {
    /// Closes the requests of which no answer is awaited any more, with these answers in the order of taking.
    fn give_up(&mut self, moment: u64, answers: Vec<Headed>)
        requires sound { IsSound self.old }
        requires now { self.old.moment ≡ moment }
        requires answers { answers.items ≡ silences self.old.own moment self.old.open_ones.list }
        ensures sound { IsSound self.new }
        ensures own { self.new.own ≡ self.old.own }
        ensures open_ones { self.new.open_ones.list
            ≡ filter (λ o. not (specs.is_spent moment o)) self.old.open_ones.list }
        ensures next { self.new.open_ones.next ≡ self.old.open_ones.next }
        ensures kept { self.new.kept.list ≡ self.old.kept.list ++ map (specs.given_up self.old.own
            moment) (filter (specs.is_spent moment) self.old.open_ones.list) }
        ensures moment { self.new.moment ≡ moment }
    {
        for answer in answers {
            if let Some(found) = self.open_ones.pop_spent(moment) {
                keep(&mut self.index, &mut self.kept, found.taken, moment, answer);
            }
        }
    }

    /// Time passes.
    pub(crate) fn tick(&mut self, alloc: Global, moment: u64) -> Result<ReverseOutputs, NoMemory>
        requires sound { IsSound self.old }
        requires late { self.old.moment ≤ moment }
        ensures ok { IfOk result (Leads moment (history.on_tick self.old.own self.old.open_ones.list
            moment) (state_of self.old) (state_of self.new)) }
        ensures sound { IsSound self.new }
        ensures err { OnErr result (state_of self.new ≡ state_of self.old) }
    {
        let Overdue { outputs, answers } = self.open_ones.overdue(alloc, &self.own, moment)?;
        self.moment = moment;
        self.give_up(moment, answers);
        self.open_ones.renew(moment);
        self.purge(moment);
        Ok(ReverseOutputs::from_vec(outputs))
    }
}
