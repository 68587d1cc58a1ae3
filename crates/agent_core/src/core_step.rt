//! The core: one step of the agent.

ghost use Rattle.std.specs.Prelude.{◌≡◌, ◌≤◌, ◌++◌, [], ◌∷◌, List, IfOk, IfSome, OnOk, OnErr, length, max, option_map, slice_get, ℕ, Ok, Some};
ghost use Rattle.std.specs.Option.{option_copied};
ghost use Rattle.agent_settings.specs.Config.{InLimits};
ghost use Rattle.pending_table.specs.Table as table;
ghost use Rattle.agent_core.specs.Places.{Event};
ghost use Rattle.agent_core.specs.Places as places;
ghost use Rattle.diameter_message.specs.Message.{read_message};
ghost use Rattle.diameter_message.specs.View.{message_view};
ghost use Rattle.agent_events.specs.declared.events.Input.TheVariants as inputs;
ghost use Rattle.agent_core.specs.History.{outputs_after, past, place};
ghost use Rattle.agent_core.specs.Standing.{StandsFor, entry_of};
ghost use Rattle.agent_core.specs.Fits.{KeptFits};
ghost use Rattle.agent_core.specs.Promise.{AreBytes, IsReal};

use crate::ledger::Ledger;
use agent_events::{Input, Outputs};
use agent_settings::Config;
use diameter_message::Message;
use peer_machine::Phase;
use pending_table::Entry;
use std::alloc::Global;
use std::hash::RandomState;
use std::marker::Model;
use wire_core::NoMemory;

/// The agent's state. Contracts see what it keeps, and say for which history it stands.
#[derive(Drop)]
pub struct Core {
    /// On the heap, so that a core that is handed on isn't copied.
    ledger: Box<Ledger, Global>,
}

impl Model for Core {
    ghost use Rattle.agent_core.specs.declared.ledger.Ledger.{Ledger};
    ghost use Rattle.agent_core.specs.Promise.{IsCore};

    ghost Value = { Ledger };

    ghost view = { λ c. c.ledger.value };

    ghost invariant = { λ c. IsCore c.ledger.value };
}

/// Each of these is an octet.
fn are_octets(octets: &[u8])
    ensures { AreBytes octets.now }
{}

/// A datagram has octets.
fn has_octets(input: &Input)
    ensures { IsReal input.now }
{
    if let Input::Datagram { octets, .. } = input {
        are_octets(octets.as_slice());
    }
}

impl Core {
    /// A core before anything came in. A boot that isn't set is 0. `random` is for a table that hashes its keys.
    pub fn new(alloc: Global, random: RandomState, config: Config) -> Result<Core, NoMemory>
        requires { InLimits config }
        ensures config { IfOk result (λ c. c.config ≡ config) }
        ensures stands { IfOk result (λ c. StandsFor c []) }
    {
        let ledger = Ledger::new(alloc, random, config)?;
        let boxed = Box::new(alloc, ledger)?;
        Ok(Core { ledger: boxed })
    }

    fn ledger(&self) -> &Ledger
        ensures { result.now ≡ self.now }
    {
        &self.ledger
    }

    /// One step: what goes out for an input that comes at `moment`, in milliseconds, after a history. The
    /// effective moment is the greatest so far. After an `Err` the core is as it was.
    pub fn step(&mut self, alloc: Global, moment: u64, input: &Input) -> Result<Outputs, NoMemory>
        ensures answers { (H : List Event) → StandsFor self.old H → IfOk result (λ o. o
            ≡ outputs_after self.old.config H (record { moment = moment; input = input.now })) }
        ensures stands { (H : List Event) → StandsFor self.old H
            → OnOk result
            (StandsFor self.new (H ++ record { moment = moment; input = input.now } ∷ [])) }
        // At most half the largest backlog is sent again, and the link says three things.
        ensures few { IfOk result (λ o. length o ≤ 32771) }
        ensures config { self.new.config ≡ self.old.config }
        ensures err { OnErr result (self.new ≡ self.old) }
    {
        agent_settings::found_stands_at_place();
        agent_settings::clients_are_in_limits();
        session_carrier::fresh_sessions_are_short();
        has_octets(input);
        self.ledger.step(alloc, moment, input)
    }

    /// The settings.
    pub fn config(&self) -> &Config
        ensures value { result.now ≡ self.now.config }
        ensures limits { InLimits result.now }
    {
        let ledger = &*self.ledger;
        &ledger.config
    }

    /// Where the link to the home server stands.
    pub fn phase(&self) -> Phase
        ensures kept { result ≡ self.now.peer.link.phase }
        ensures rule { (H : List Event) → StandsFor self.now H
            → result ≡ (places.link (past self.now.config H)).phase }
    {
        self.ledger().peer.phase()
    }

    /// Whether this input begins a link: an Up or a Ready, while the link is closed and fewer than 2^64 - 1 began.
    pub fn begins(&self, input: &Input) -> bool
        ensures rule { (H : List Event) → StandsFor self.now H
            → result ≡ places.begins (past self.now.config H) input.now }
    {
        matches!(input, Input::Up | Input::Ready) && self.ledger().may_begin()
    }

    /// The entry of the request that this message would answer, if it came at `moment`.
    pub fn awaited(&self, moment: u64, message: &Message<'_>) -> Option<&Entry>
        ensures rule { (H : List Event) (octets : List ℕ) → StandsFor self.now H
            → read_message octets ≡ Ok (message_view message.now)
            → option_copied result ≡ option_map (entry_of (past self.now.config H))
            (place self.now.config (past self.now.config H)
            (record { moment = moment; input = inputs.Message octets })).matched }
        ensures client { (H : List Event) (octets : List ℕ) → StandsFor self.now H
            → read_message octets ≡ Ok (message_view message.now)
            → IfSome (place self.now.config (past self.now.config H)
            (record { moment = moment; input = inputs.Message octets })).matched
            (λ t. slice_get self.now.config.clients t.kept.client ≡ Some t.settings) }
        ensures kept { IfSome result (λ entry. KeptFits self.now.config entry.now.kept) }
    {
        agent_settings::found_stands_at_place();
        agent_settings::clients_are_in_limits();
        session_carrier::fresh_sessions_are_short();
        let ledger = &*self.ledger;
        ledger.awaited(moment, message)
    }

    /// What was sent on the link since the last Drain.
    pub fn outbox(&self) -> u32
        ensures kept { result ≡ self.now.outbox }
        ensures rule { (H : List Event) → StandsFor self.now H
            → result ≡ places.outbox (past self.now.config H) }
    {
        self.ledger().outbox
    }

    /// How many requests live at `moment`, or at the greatest moment so far where that is later.
    pub fn live(&self, moment: u64) -> u32
        ensures kept { result ≡ length (table.live self.now.table (max self.now.moment moment)) }
        ensures rule { (H : List Event) → StandsFor self.now H → result
            ≡ length (places.live self.now.config (past self.now.config H)
            (max (places.now (past self.now.config H)) moment)) }
    {
        let ledger = self.ledger();
        ledger.table.len(ledger.moment.max(moment))
    }

    /// How many of those wait for their answer.
    pub fn waiting(&self, moment: u64) -> u32
        ensures kept { result ≡ length (table.waiting self.now.table (max self.now.moment moment)) }
        ensures rule { (H : List Event) → StandsFor self.now H → result
            ≡ length (places.waiting self.now.config (past self.now.config H)
            (max (places.now (past self.now.config H)) moment)) }
    {
        let ledger = self.ledger();
        ledger.table.waiting(ledger.moment.max(moment))
    }
}
