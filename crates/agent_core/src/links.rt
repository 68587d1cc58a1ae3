//! What an input of the link leads to. Memory is taken before the link's step, and nothing behind it is refused.

ghost use Rattle.std.specs.Prelude.{◌≡◌, ◌≢◌, ◌==◌, ◌&&◌, ◌+◌, ◌%◌, ◌≤◌, nat_lt, [], ◌++◌, All, IfOk, OnOk, OnErr, is_some, length, map, option_to_list, vec_len, vec_capacity, if◌then◌else◌};
ghost use Rattle.diameter_avp.specs.Avps.{read_avps};
ghost use Rattle.diameter_message.specs.Results.{is_success, result_in};
ghost use Rattle.diameter_message.specs.View.{message_view};
ghost use Rattle.pending_table.specs.Table as table;
ghost use Rattle.peer_machine.specs.Reading.{said_in};
ghost use Rattle.peer_machine.specs.Rules as rules;
ghost use Rattle.peer_machine.specs.Step.{HasCommand, event_of, message_in};
ghost use Rattle.agent_core.specs.History as history;
ghost use Rattle.agent_core.specs.Links as known;
ghost use Rattle.agent_core.specs.Places as places;
ghost use Rattle.agent_core.specs.Machine as machine;
ghost use Rattle.agent_core.specs.Standing.{IsSteady};

use crate::ledger::Ledger;
use agent_events::{Output, Outputs};
use diameter_message::command_codes::CAPABILITIES_EXCHANGE;
use diameter_message::command_flags::REQUEST;
use diameter_message::{Header, Message};
use peer_machine::{PeerInput, PeerOutput, Phase};
use std::alloc::Global;
use wire_core::NoMemory;

/// The hop of the Capabilities-Exchange-Request of each link (profile).
const FIRST_HOP: u32 = 0x8000_0000;

/// What the link itself says to one input: a message, that it is closed, and that nothing is done.
const LINK_OUTPUTS: usize = 3;

/// Puts an output, where there is one, into room that is there.
fn put(outputs: &mut Vec<Output>, output: Option<Output>)
    requires { vec_len outputs.old + 1 ≤ vec_capacity outputs.old }
    ensures items { outputs.new.items ≡ outputs.old.items ++ option_to_list output }
    ensures len { vec_len outputs.new ≤ vec_len outputs.old + 1 }
    ensures capacity { vec_capacity outputs.new ≡ vec_capacity outputs.old }
{
    match output {
        None => {}
        Some(output) => outputs.push_reserved(output),
    }
}

/// What the link says, in room that is there.
fn said(mut outputs: Vec<Output>, said: PeerOutput) -> Outputs
    requires empty { (vec_len outputs ≡ 0) × (outputs.items ≡ []) }
    requires room { 3 ≤ vec_capacity outputs }
    ensures { result ≡ history.link_outputs said }
{
    put(
        &mut outputs,
        said.send.map(|octets| Output::Send { octets }),
    );
    put(
        &mut outputs,
        said.closed.map(|cause| Output::Closed { cause }),
    );
    put(
        &mut outputs,
        said.dropped.map(|reason| Output::Dropped { reason }),
    );
    Outputs::from_vec(outputs)
}

/// Whether the link opened.
fn opens(before: Phase, after: Phase) -> bool
    ensures { result ≡ places.opens before after }
{
    !matches!(before, Phase::Serving) && matches!(after, Phase::Serving)
}

/// Whether this header and these AVPs are those of an answer of success to a link's Capabilities-Exchange-Request.
fn has_grant(header: &Header, avps: &[u8]) -> bool
    ensures { result ≡
        (nat_lt header.now.flags 128 && (header.now.command == 257 && header.now.hop == 2147483648)
        && is_success (result_in (read_avps avps.now))) }
{
    header.flags < REQUEST
        && (header.command == CAPABILITIES_EXCHANGE && header.hop == FIRST_HOP)
        && diameter_message::is_success(diameter_message::result_code(avps))
}

/// Whether this is an answer of success to the link's Capabilities-Exchange-Request.
fn is_grant(message: &Message<'_>) -> bool
    ensures { result ≡ known.is_grant (said_in (message_view message.now)) }
{
    has_grant(&message.header, message.avps)
}

impl Ledger {
    /// Whether a link may begin.
    pub(crate) fn may_begin(&self) -> bool
        ensures { result ≡ rules.may_begin self.now.peer.link.phase self.now.peer.link.number }
    {
        matches!(self.peer.phase(), Phase::Closed) && self.peer.link() < u64::MAX
    }

    /// Whether this input begins a link.
    fn begins(&self, input: PeerInput<'_>) -> bool
        ensures { result ≡ machine.begins_by self.now.peer.link (event_of input.entry) }
    {
        match input {
            PeerInput::Up | PeerInput::Ready => self.may_begin(),
            PeerInput::Message(_)
            | PeerInput::Broken(_)
            | PeerInput::Down
            | PeerInput::Tick
            | PeerInput::Leave => false,
        }
    }

    /// Whether one more message of the link's own has room.
    pub(crate) fn spare(&self, input: PeerInput<'_>) -> bool
        ensures { result ≡ machine.keeps_spare self.now (event_of input.entry) }
    {
        let outbox = if self.begins(input) { 0 } else { self.outbox };
        let waiting = self.table.waiting(self.moment);
        (outbox as u64 + waiting as u64) < self.config.backlog as u64 + 64
    }

    /// Whether this input opens the link. So nothing is copied that isn't sent.
    fn may_open(&self, input: PeerInput<'_>) -> bool
        ensures { result ≡ machine.may_open self.now.peer.link.phase (event_of input.entry) }
    {
        match self.peer.phase() {
            Phase::Closed => matches!(input, PeerInput::Ready),
            Phase::Greeting => match input {
                PeerInput::Message(message) => is_grant(message),
                PeerInput::Up
                | PeerInput::Ready
                | PeerInput::Broken(_)
                | PeerInput::Down
                | PeerInput::Tick
                | PeerInput::Leave => false,
            },
            Phase::Serving | Phase::Closing => false,
        }
    }

    /// What the waiting requests send again.
    fn copies(&self, alloc: Global) -> Result<Outputs, NoMemory>
        requires { IsSteady self.now }
        ensures { IfOk result (λ o. o ≡ machine.kept_resends self.now) }
    {
        let mut outputs = Outputs::new(alloc);
        let mut hop: u32 = 0;
        for sent in self.table.sends(self.moment) {
            let octets = diameter_message::again(alloc, sent.as_slice(), hop)?;
            outputs.push(Output::Send { octets })?;
            hop += 1;
        }
        Ok(outputs)
    }

    /// The same where the link opens, else nothing.
    fn resends(&self, alloc: Global, input: PeerInput<'_>) -> Result<Outputs, NoMemory>
        requires { IsSteady self.now }
        ensures { IfOk result
            (λ o. o ≡ (if machine.may_open self.now.peer.link.phase (event_of input.entry)
            then machine.kept_resends self.now else [])) }
    {
        if self.may_open(input) {
            self.copies(alloc)
        } else {
            Ok(Outputs::new(alloc))
        }
    }

    /// The counts behind what the link says. A link that begins counts anew.
    fn count(&mut self, begins: bool, said: &PeerOutput)
        requires { (if begins then 0 else self.old.outbox) + 1 ≤ 4294967295 }
        ensures { self.new ≡ record self.old {
          used = if begins then 0 else self.old.used;
          outbox = (if begins then 0 else self.old.outbox) + machine.count_of
              (is_some said.now.send);
          total = (self.old.total + machine.count_of said.now.request) % 4294967296;
        } }
    {
        if begins {
            self.used = 0;
            self.outbox = 0;
        }
        self.outbox += if said.send.is_some() { 1 } else { 0 };
        self.total = self.total.wrapping_add(if said.request { 1 } else { 0 });
    }

    /// The waiting requests were sent over the link that opened.
    fn relinked(&mut self)
        requires unused { All (λ r. r.1.link ≢ self.old.peer.link.number)
            (table.live self.old.table self.old.moment) }
        requires used { self.old.used + length (machine.kept_waiting self.old) ≤ 4294967295 }
        requires outbox { self.old.outbox + length (machine.kept_waiting self.old) ≤ 4294967295 }
        ensures { self.new ≡ record self.old {
          used = self.old.used + length (machine.kept_waiting self.old);
          outbox = self.old.outbox + length (machine.kept_waiting self.old);
          table = machine.table_relinked self.old.table self.old.peer.link.number self.old.moment;
        } }
    {
        let waiting = self.table.waiting(self.moment);
        self.used += waiting;
        self.outbox += waiting;
        self.table.purge(self.moment);
        self.table.relink(self.peer.link(), self.moment);
    }

    /// An input of the link came.
    pub(crate) fn linked(
        &mut self,
        alloc: Global,
        input: PeerInput<'_>,
    ) -> Result<Outputs, NoMemory>
        requires steady { IsSteady self.old }
        requires command { HasCommand (message_in input) }
        ensures outputs { IfOk result (λ o. o
            ≡ (machine.on_link self.old (event_of input.entry) (message_in input.entry)).outputs) }
        ensures ledger { OnOk result (self.new
            ≡ (machine.on_link self.old (event_of input.entry) (message_in input.entry)).ledger) }
        ensures err { OnErr result (self.new ≡ self.old) }
    {
        let before = self.peer.phase();
        let begins = self.begins(input);
        let spare = self.spare(input);
        let end = self.numbers().end;
        let resends = self.resends(alloc, input)?;
        let outputs = Vec::with_capacity(alloc, LINK_OUTPUTS)?;
        let step = self.peer.step(alloc, self.moment, input, spare, end)?;
        self.count(begins, &step);
        if opens(before, self.peer.phase()) {
            self.relinked();
            Ok(resends)
        } else {
            Ok(said(outputs, step))
        }
    }
}
