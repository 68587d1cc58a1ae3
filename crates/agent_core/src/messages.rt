//! What a message of the link leads to.

ghost use Rattle.std.specs.Prelude.{◌≡◌, ◌<◌, ◌+◌, ◌≤◌, ◌^◌, ◌&&◌, nat_lt, All, IfOk, IfSome, IsSome, OnOk, OnErr, true};
ghost use Rattle.std.specs.Option.{option_copied};
ghost use Rattle.diameter_message.specs.Message.{read_message};
ghost use Rattle.diameter_message.specs.View.{message_view};
ghost use Rattle.agent_settings.specs.Config.{InLimits};
ghost use Rattle.pending_table.specs.Table as table;
ghost use Rattle.peer_machine.specs.Reading.{is_application_command};
ghost use Rattle.agent_core.specs.History as history;
ghost use Rattle.agent_core.specs.Machine as machine;
ghost use Rattle.agent_core.specs.Fits.{KeptFits};
ghost use Rattle.agent_core.specs.Standing.{IsSteady};
ghost use Rattle.agent_core.specs.Matching.{Answers, Matches};

use crate::answers::outcome;
use crate::ledger::{Ledger, dropped};
use agent_events::{Output, Outputs};
use diameter_message::command_codes::{AA, ACCOUNTING, DIAMETER_EAP, SESSION_TERMINATION};
use diameter_message::command_flags::REQUEST;
use diameter_message::{Header, Message};
use peer_machine::{PeerInput, Phase};
use pending_table::Entry;
use radius_packet::Reason;
use session_carrier::{Kind2, Outcome};
use std::alloc::Global;
use wire_core::{NoMemory, Octets};

/// What an answer leads to.
#[derive(Drop)]
pub(crate) enum AnswerEffect {
    /// Nothing but these outputs.
    Says(Outputs),
    /// The request that it matches gets this reply, or silence; a further request may follow; and these outputs go out.
    Settles {
        outputs: Outputs,
        reply: Option<Octets>,
        follows: bool,
    },
}

/// The command of the answer to a request of this kind.
fn command_of(kind: Kind2) -> u32
    ensures { result ≡ history.command_of kind }
{
    match kind {
        Kind2::Access => AA,
        Kind2::Eap => DIAMETER_EAP,
        Kind2::Start | Kind2::Interim | Kind2::Stop => ACCOUNTING,
    }
}

/// A copy of a reply, where there is one. It has its own size.
fn copy_of(alloc: Global, reply: &Option<Octets>) -> Result<Option<Octets>, NoMemory>
    ensures { IfOk result (λ o. o ≡ reply.now) }
{
    match reply {
        None => Ok(None),
        Some(reply) => Ok(Some(Octets::copy(alloc, reply.as_slice())?)),
    }
}

/// The reply, to where the request came from, and then the further request.
fn outcome_outputs(alloc: Global, entry: &Entry, outcome: Outcome) -> Result<Outputs, NoMemory>
    ensures { IfOk result (λ o. o ≡ history.outcome_outputs (machine.reply_key entry.now) outcome) }
{
    let Outcome { reply, follow } = outcome;
    let mut outputs = Outputs::new(alloc);
    if let Some(octets) = reply {
        outputs.push(Output::Reply {
            via: entry.via,
            address: entry.address,
            port: entry.port,
            octets,
        })?;
    }
    if let Some(octets) = follow {
        outputs.push(Output::Send { octets })?;
    }
    Ok(outputs)
}

/// What an answer gets that matches no request. The answer to a Session-Termination-Request needs nothing more.
fn unmatched(alloc: Global, header: &Header) -> Result<Outputs, NoMemory>
    ensures { IfOk result (λ o. o ≡ machine.unmatched_outputs header.now) }
{
    if header.command == SESSION_TERMINATION {
        Ok(Outputs::new(alloc))
    } else {
        dropped(alloc, Reason::Unmatched)
    }
}

/// Whether this is an answer to a request that the link's caller sends.
fn is_application_answer(header: &Header) -> bool
    ensures { result ≡ (nat_lt header.now.flags 128 && is_application_command header.now.command) }
{
    header.flags < REQUEST
        && (header.command == AA
            || header.command == DIAMETER_EAP
            || header.command == ACCOUNTING
            || header.command == SESSION_TERMINATION)
}

impl Ledger {
    /// Whether this message is an answer that the link hands on.
    fn passes(&self, message: &Message<'_>) -> bool
        ensures { result ≡ machine.passes self.now (message_view message.now) }
    {
        match self.peer.phase() {
            Phase::Closed => false,
            Phase::Greeting => false,
            Phase::Serving => is_application_answer(&message.header),
            Phase::Closing => is_application_answer(&message.header),
        }
    }

    /// What an answer gives the request that it matches.
    fn answered(
        &self,
        alloc: Global,
        entry: &Entry,
        message: &Message<'_>,
    ) -> Result<AnswerEffect, NoMemory>
        requires limits { InLimits self.now.config }
        requires kept { KeptFits self.now.config entry.now.kept }
        ensures { IfOk result (λ h. Answers self.now entry.now (message_view message.now) h) }
    {
        agent_settings::clients_are_in_limits();
        let client = self.config.clients.at(entry.kept.client as usize);
        let outcome = outcome(alloc, client, &entry.kept, message, self.numbers())?;
        let follows = outcome.follow.is_some();
        // What goes out has room for the longest packet. The copy that is kept has its own size.
        let reply = copy_of(alloc, &outcome.reply)?;
        let outputs = outcome_outputs(alloc, entry, outcome)?;
        Ok(AnswerEffect::Settles {
            outputs,
            reply,
            follows,
        })
    }

    /// What an answer leads to, by the waiting request with its number on this link.
    fn matched(&self, alloc: Global, message: &Message<'_>) -> Result<AnswerEffect, NoMemory>
        requires { IsSteady self.now }
        ensures { IfOk result (λ h. Matches self.now (message_view message.now) h) }
    {
        let header = &message.header;
        match self.table.find(self.peer.link(), header.hop, self.moment) {
            None => Ok(AnswerEffect::Says(unmatched(alloc, header)?)),
            Some(entry) => {
                if header.command == command_of(entry.kept.kind) {
                    self.answered(alloc, entry, message)
                } else {
                    Ok(AnswerEffect::Says(unmatched(alloc, header)?))
                }
            }
        }
    }

    /// The entry that this message would settle, if it came at this moment.
    #[tactic(auto, using(crate::proofs::AnswerLemmas::AwaitedLemmas::passes_later))]
    pub(crate) fn awaited(&self, moment: u64, message: &Message<'_>) -> Option<&Entry>
        requires { IsSteady self.now }
        ensures entry { option_copied result
            ≡ machine.awaited_by (machine.at_moment self.now moment) (message_view message.now) }
        ensures kept { IfSome result (λ entry. KeptFits self.now.config entry.now.kept) }
    {
        if !self.passes(message) {
            return None;
        }
        let header = &message.header;
        match self
            .table
            .find(self.peer.link(), header.hop, self.moment.max(moment))
        {
            Some(entry) if header.command == command_of(entry.kept.kind) => Some(entry),
            _ => None,
        }
    }

    /// Gives the waiting request its reply, or silence, and counts what follows.
    fn settle(&mut self, hop: u32, reply: Option<Octets>, follows: bool)
        requires awaited { IsSome
            (table.find_number self.old.table self.old.peer.link.number hop self.old.moment) }
        requires in_order { All (λ r. table.IsBy self.old.moment r.1)
            (table.live self.old.table self.old.moment) }
        requires room { (self.old.used + 1 ≤ 4294967295) × (self.old.outbox + 1 ≤ 4294967295) }
        ensures { self.new ≡ machine.settled_at self.old hop reply follows }
    {
        self.table.settle(self.peer.link(), hop, self.moment, reply);
        let count = if follows { 1 } else { 0 };
        self.used += count;
        self.outbox += count;
        self.total = self.total.wrapping_add(count);
    }

    /// An answer came that the link hands on.
    fn passed(&mut self, alloc: Global, message: &Message<'_>) -> Result<Outputs, NoMemory>
        requires steady { IsSteady self.old }
        requires passes { machine.passes self.old (message_view message.now) ≡ true }
        requires command { message.now.header.command < 2 ^ 24 }
        ensures outputs { IfOk result
            (λ o. o ≡ (machine.on_answer self.old (message_view message.now)).outputs) }
        ensures ledger { OnOk result
            (self.new ≡ (machine.on_answer self.old (message_view message.now)).ledger) }
        ensures err { OnErr result (self.new ≡ self.old) }
    {
        let input = PeerInput::Message(message);
        let heard = self.matched(alloc, message)?;
        let spare = self.spare(input);
        let end = self.numbers().end;
        self.peer.step(alloc, self.moment, input, spare, end)?;
        match heard {
            AnswerEffect::Says(outputs) => Ok(outputs),
            AnswerEffect::Settles {
                outputs,
                reply,
                follows,
            } => {
                self.settle(message.header.hop, reply, follows);
                Ok(outputs)
            }
        }
    }

    /// A message came.
    pub(crate) fn message(&mut self, alloc: Global, octets: &[u8]) -> Result<Outputs, NoMemory>
        requires { IsSteady self.old }
        ensures outputs { IfOk result
            (λ o. o ≡ (machine.on_message self.old (read_message octets.now)).outputs) }
        ensures ledger { OnOk result
            (self.new ≡ (machine.on_message self.old (read_message octets.now)).ledger) }
        ensures err { OnErr result (self.new ≡ self.old) }
    {
        let Ok(message) = diameter_message::parse(octets) else {
            return dropped(alloc, Reason::BadMessage);
        };
        if self.passes(&message) {
            self.passed(alloc, &message)
        } else {
            self.linked(alloc, PeerInput::Message(&message))
        }
    }
}
