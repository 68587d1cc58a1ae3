//! The link to the home server, step by step.

ghost use Rattle.std.specs.Prelude.{◌≡◌, ◌<◌, ◌≤◌, ◌^◌, length, IfOk, OnOk, OnErr, IsTrue, option_map};
ghost use Rattle.wire_core.specs.Words as words;
ghost use Rattle.peer_machine.specs.Step as specs;
ghost use Rattle.peer_machine.specs.Step.{HasCommand, fresh_peer, message_in, output_at, peer_after};

use crate::messages::{Names, write_answer, write_request};
use crate::reading::said_in;
use crate::rules::{act_on, after, if_room, noted};
use crate::words::{Act, Event, LinkState};
use crate::{LinkCause, Phase};
use diameter_message::{FrameFault, Message};
use radius_packet::Reason;
use std::alloc::Global;
use std::marker::Model;
use wire_core::{NoMemory, Octets};

/// What comes in.
#[derive(Clone, Copy)]
pub enum PeerInput<'a> {
    /// The link is there; its capabilities are still to be exchanged.
    Up,
    /// The link is there, and its capabilities have been exchanged.
    Ready,
    /// A message of the link.
    Message(&'a Message<'a>),
    /// The octets of the link are no messages from here on.
    Broken(FrameFault),
    /// The link is gone.
    Down,
    /// Time passed.
    Tick,
    /// The agent wants to end.
    Leave,
}

/// What goes out.
#[derive(Drop)]
pub struct PeerOutput {
    /// A message for the link.
    pub send: Option<Octets>,
    /// Whether it is a request, which took the End-to-End Identifier.
    pub request: bool,
    /// The link is closed, after the message.
    pub closed: Option<LinkCause>,
    /// Nothing is done about the input.
    pub dropped: Option<Reason>,
    /// The message is an answer to a request that the caller sent.
    pub application: bool,
}

/// The link to the home server. Contracts see the agent's names, the watchdog's time and the link's state.
#[derive(Drop)]
pub struct Peer {
    names: Names,
    watchdog: u64,
    link: LinkState,
}

impl Model for Peer {
    ghost use Rattle.peer_machine.specs.Step.{PeerParts, IsPeer};

    ghost Value = { PeerParts };

    ghost view = { λ p. record { names = p.names; watchdog = p.watchdog; link = p.link } };

    ghost invariant = { λ p. IsPeer p.names p.link };
}

fn event_of(input: PeerInput<'_>) -> Event
    ensures { result ≡ specs.event_of input.entry }
{
    match input {
        PeerInput::Up => Event::Opens,
        PeerInput::Ready => Event::Serves,
        PeerInput::Message(message) => Event::Says {
            said: said_in(message),
        },
        PeerInput::Broken(fault) => Event::Breaks { fault },
        PeerInput::Down => Event::Ends,
        PeerInput::Tick => Event::Ticks,
        PeerInput::Leave => Event::Leaves,
    }
}

/// The answer to the message that came in, where one did.
fn answered(
    alloc: Global,
    names: &Names,
    input: PeerInput<'_>,
    code: u32,
    error: bool,
) -> Result<Option<Octets>, NoMemory>
    requires command { HasCommand (message_in input) }
    requires host { length names.now.host ≤ 255 }
    requires realm { length names.now.realm ≤ 255 }
    ensures { IfOk result (λ o. o
        ≡ specs.base_answer names.now (message_in input.entry) code error) }
{
    match input {
        PeerInput::Message(message) => Ok(Some(write_answer(alloc, names, message, code, error)?)),
        PeerInput::Up
        | PeerInput::Ready
        | PeerInput::Broken(_)
        | PeerInput::Down
        | PeerInput::Tick
        | PeerInput::Leave => Ok(None),
    }
}

/// The octets that are sent.
fn sent(
    alloc: Global,
    names: &Names,
    link: LinkState,
    end: u32,
    input: PeerInput<'_>,
    act: Act,
) -> Result<Option<Octets>, NoMemory>
    requires command { HasCommand (message_in input) }
    requires host { length names.now.host ≤ 255 }
    requires realm { length names.now.realm ≤ 255 }
    requires few { link.requests < 2 ^ 31 }
    ensures { IfOk result (λ o. o ≡ specs.sent names.now link end (message_in input.entry) act) }
{
    match act {
        Act::Request { request } => {
            let hop = 0x8000_0000 + link.requests;
            Ok(Some(write_request(alloc, names, request, hop, end)?))
        }
        Act::Answer { code, error } => answered(alloc, names, input, code, error),
        Act::AnswerAndClose { code, .. } => answered(alloc, names, input, code, false),
        Act::Nothing | Act::Serve | Act::Discard { .. } | Act::Pass | Act::Close { .. } => Ok(None),
    }
}

fn closed_by(act: Act) -> Option<LinkCause>
    ensures { result ≡ specs.closed_by act }
{
    match act {
        Act::Close { cause } | Act::AnswerAndClose { cause, .. } => Some(cause),
        _ => None,
    }
}

fn dropped_by(act: Act) -> Option<Reason>
    ensures { result ≡ specs.dropped_by act }
{
    match act {
        Act::Discard { reason } => Some(reason),
        _ => None,
    }
}

fn is_request(act: Act) -> bool
    ensures { result ≡ specs.is_request act }
{
    matches!(act, Act::Request { .. })
}

fn is_pass(act: Act) -> bool
    ensures { result ≡ specs.is_pass act }
{
    matches!(act, Act::Pass)
}

fn output_of(send: Option<Octets>, act: Act) -> PeerOutput
    ensures { result ≡ specs.output_of send act }
{
    PeerOutput {
        send,
        request: is_request(act),
        closed: closed_by(act),
        dropped: dropped_by(act),
        application: is_pass(act),
    }
}

impl Peer {
    /// A closed link of an agent with this identity, realm, IPv4 address and Origin-State-Id. A link that says
    /// nothing for `watchdog` milliseconds is asked, and closed when it says nothing for as long again.
    pub fn new(
        alloc: Global,
        host: &[u8],
        realm: &[u8],
        address: u32,
        boot: u32,
        watchdog: u64,
    ) -> Result<Peer, NoMemory>
        requires host { IsTrue (words.is_identity host.now) }
        requires realm { IsTrue (words.is_identity realm.now) }
        ensures { IfOk result (λ p. p ≡ fresh_peer host.now realm.now address boot watchdog) }
    {
        let names = Names {
            host: Octets::copy(alloc, host)?,
            realm: Octets::copy(alloc, realm)?,
            address,
            boot,
        };
        let link = LinkState {
            phase: Phase::Closed,
            number: 0,
            heard: 0,
            asked: None,
            leave: 0,
            requests: 0,
        };
        Ok(Peer {
            names,
            watchdog,
            link,
        })
    }

    /// Where the link stands.
    pub fn phase(&self) -> Phase
        ensures { result ≡ self.now.link.phase }
    {
        self.link.phase
    }

    /// How many links began, up to 2^64 - 1. The present one has this number.
    pub fn link(&self) -> u64
        ensures { result ≡ self.now.link.number }
    {
        self.link.number
    }

    /// One step: what goes out for an input at the effective moment `moment`, in milliseconds. `spare` says that one
    /// more message has room; without it, a message of the link's own closes the link as stalled. A request that is
    /// sent has `end` as its End-to-End Identifier. After an `Err` the link is as it was.
    pub fn step(
        &mut self,
        alloc: Global,
        moment: u64,
        input: PeerInput<'_>,
        spare: bool,
        end: u32,
    ) -> Result<PeerOutput, NoMemory>
        requires { HasCommand (message_in input) }
        ensures output { IfOk result (λ o. o ≡ output_at self.old moment input.entry spare end) }
        ensures peer { OnOk result (self.new ≡ peer_after self.old moment input.entry spare) }
        ensures err { OnErr result (self.new ≡ self.old) }
    {
        let event = event_of(input);
        let act = if_room(spare, act_on(self.link, self.watchdog, moment, event));
        let link = noted(self.link, moment, event);
        let send = sent(alloc, &self.names, link, end, input, act)?;
        self.link = after(link, moment, act);
        Ok(output_of(send, act))
    }
}
