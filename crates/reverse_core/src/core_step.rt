//! One step of the core.

ghost use Rattle.std.specs.Prelude.{◌≡◌, ◌≤◌, ◌++◌, [], ◌∷◌, List, length, max, IfOk, OnOk, OnErr};
ghost use Rattle.reverse_core.specs.History.{outputs_after};
ghost use Rattle.reverse_core.specs.History as history;
ghost use Rattle.reverse_core.specs.Places.{ReverseEvent};
ghost use Rattle.reverse_core.specs.Standing.{ReverseStandsFor};
ghost use Rattle.reverse_core.specs.State.{state_of, kept_in, outcome_of, IsSound, Leads};

use crate::considering::Considered;
use crate::events::{ReverseInput, ReverseOutputs};
use crate::ledger::Ledger;
use reverse_map::Reverse;
use std::alloc::Global;
use std::marker::Model;
use wire_core::NoMemory;

/// The reverse way. Contracts see what it keeps, and say for which history it stands.
#[derive(Drop)]
pub struct ReverseCore {
    ledger: Ledger,
}

impl Model for ReverseCore {
    ghost use Rattle.reverse_core.specs.Standing.{ReverseState};
    ghost use Rattle.reverse_core.specs.State.{state_of, IsSound};

    ghost Value = { ReverseState };

    ghost view = { λ c. state_of c.ledger };

    ghost invariant = { λ c. IsSound c.ledger };
}

impl Ledger {
    /// A message of a client.
    fn request(
        &mut self,
        alloc: Global,
        moment: u64,
        octets: &[u8],
        random: [u8; 16],
    ) -> Result<ReverseOutputs, NoMemory>
        requires sound { IsSound self.old }
        requires late { self.old.moment ≤ moment }
        ensures ok { IfOk result (Leads moment (history.on_request self.old.own
            self.old.open_ones.list (kept_in (state_of self.old) moment)
            self.old.open_ones.next octets.now random) (state_of self.old) (state_of self.new)) }
        ensures sound { IsSound self.new }
        ensures err { OnErr result (state_of self.new ≡ state_of self.old) }
    {
        match self.considered(alloc, moment, octets, random)? {
            Considered::Says { output } => self.say(alloc, moment, output),
            Considered::Takes { taken } => self.take(alloc, moment, taken),
        }
    }

    /// One step: the effective moment is the greatest so far. After an `Err` everything is as it was.
    fn step(
        &mut self,
        alloc: Global,
        moment: u64,
        input: &ReverseInput,
    ) -> Result<ReverseOutputs, NoMemory>
        requires { IsSound self.old }
        ensures ok { let at = max self.old.moment moment in
            IfOk result (Leads at (outcome_of (state_of self.old) at input.now) (state_of self.old)
            (state_of self.new)) }
        ensures sound { IsSound self.new }
        ensures err { OnErr result (state_of self.new ≡ state_of self.old) }
    {
        let now = self.moment.max(moment);
        match input {
            ReverseInput::Request { octets, random } => {
                self.request(alloc, now, octets.as_slice(), *random)
            }
            ReverseInput::Reply { octets } => self.reply(alloc, now, octets.as_slice()),
            ReverseInput::Tick => self.tick(alloc, now),
        }
    }
}

impl ReverseCore {
    /// A core before anything came in.
    pub fn new(alloc: Global, own: Reverse) -> Result<ReverseCore, NoMemory>
        requires host { length own.host ≤ 64 }
        requires realm { length own.realm ≤ 64 }
        ensures own { IfOk result (λ c. c.own ≡ own) }
        ensures stands { IfOk result (λ c. ReverseStandsFor c []) }
    {
        Ok(ReverseCore {
            ledger: Ledger::new(alloc, own)?,
        })
    }

    /// One step: what goes out for an input that comes at `moment`, in milliseconds, after a history. The effective moment is
    /// the greatest so far. After an `Err` the core is as it was.
    pub fn step(
        &mut self,
        alloc: Global,
        moment: u64,
        input: &ReverseInput,
    ) -> Result<ReverseOutputs, NoMemory>
        ensures answers { (H : List ReverseEvent) → ReverseStandsFor self.old H
            → IfOk result (λ o. o
            ≡ outputs_after self.old.own H (record { moment = moment; input = input.now })) }
        ensures stands { (H : List ReverseEvent) → ReverseStandsFor self.old H
            → OnOk result
            (ReverseStandsFor self.new (H ++ record { moment = moment; input = input.now } ∷ [])) }
        ensures own { self.new.own ≡ self.old.own }
        ensures err { OnErr result (self.new ≡ self.old) }
    {
        self.ledger.step(alloc, moment, input)
    }

    /// The settings.
    pub fn own(&self) -> &Reverse
        ensures { result.now ≡ self.now.own }
    {
        &self.ledger.own
    }
}
