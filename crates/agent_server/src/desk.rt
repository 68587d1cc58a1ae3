//! One core behind a clock, at which threads take turns.

ghost use Rattle.std.specs.Prelude.{◌≡◌, ◌==◌, ◌&&◌, ◌+◌, ◌<◌, ◌≤◌, ◌++◌, [], ◌∷◌, List, ℕ, length, map, vec_capacity, vec_len, true, false, IfOk, OnErr, Some, None};
ghost use Rattle.wire_core.specs.Counts.{one_more};
ghost use Rattle.agent_core.specs.Places.{Event, begins as begins_link, is_serving, now, waiting, link};
ghost use Rattle.agent_events.specs.Kinds.{is_drain as drain_test};
ghost use Rattle.agent_core.specs.History.{outputs_after, past};
ghost use Rattle.agent_core.specs.Standing.{StandsFor};
ghost use Rattle.agent_core.specs.LawsOfSends.{leaves_all};
ghost use Rattle.agent_server.specs.Desks.{Enters, HasRead, HasRoom, IsCalm, IsSame, StandsBy, Tells};
ghost use Rattle.agent_server.specs.Runs.{closed_with, handed_over, is_send as send_test, last_cause, others_in, sends_in};
ghost use Rattle.agent_events.specs.Kinds.{is_leave as leave_test};

use agent_core::Core;
use agent_events::{Input, Output, Outputs};
use peer_machine::{LinkCause, Phase};
use run_record::{Entry, EntrySender};
use server_workers::{Heard, RunBase};
use std::alloc::Global;
use std::mem;
use std::sync::Wait;
use turnstile::Desk;
use wire_core::NoMemory;
use wire_devices::Clock;

/// How many things go out for one event beside what is sent again.
const MOST_OUTPUTS: usize = 3;

/// One core behind a clock, and what was sent on the link and is to be handed over. Where the run is recorded, each entry
/// that isn't idle is given to the sender of the record in its own turn. Contracts say for which turns a desk stands.
#[derive(Drop)]
pub struct AgentDesk<C> {
    alloc: Global,
    core: Core,
    clock: C,
    until: u64,
    /// The greatest moment so far.
    moment: u64,
    send_queue: Vec<Output>,
    closed: Option<LinkCause>,
    /// Whether the agent wanted to end.
    left: bool,
    entries: u64,
    sender: Option<EntrySender>,
}

fn is_send(output: &Output) -> bool
    ensures { result ≡ send_test output.now }
{
    matches!(output, Output::Send { .. })
}

fn is_drain(input: &Input) -> bool
    ensures { result ≡ drain_test input.now }
{
    matches!(input, Input::Drain)
}

fn is_leave(input: &Input) -> bool
    ensures { result ≡ leave_test input.now }
{
    matches!(input, Input::Leave)
}

/// Whether an entry may be left out of the record: a Tick, or a Drain where nothing is to be handed over, at which nothing
/// goes out. `outbox` is how much was to be handed over before it.
fn is_idle(input: &Input, outbox: u32, outputs: &[Output]) -> bool
    ensures { result ≡ (leaves_all input.now outbox && length outputs.now == 0) }
{
    let calm = match input {
        Input::Tick => true,
        Input::Drain => outbox == 0,
        _ => false,
    };
    calm && outputs.is_empty()
}

/// Puts an output behind others, where there is room for it.
fn put(output: Output, outputs: &mut Vec<Output>)
    ensures items { vec_len outputs.old < vec_capacity outputs.old
        → outputs.new.items ≡ outputs.old.items ++ output ∷ [] }
    ensures capacity { vec_capacity outputs.old ≤ vec_capacity outputs.new }
{
    let _ = outputs.push(output);
}

/// Puts what is sent on the link behind `sends`, and all else behind `others`, where there is room for all of them.
fn sort(all: Vec<Output>, sends: &mut Vec<Output>, others: &mut Vec<Output>)
    ensures sends { length sends.old.items + length all.items ≤ vec_capacity sends.old
        → sends.new.items ≡ sends.old.items ++ sends_in all.items }
    ensures others { length others.old.items + length all.items ≤ vec_capacity others.old
        → others.new.items ≡ others.old.items ++ others_in all.items }
{
    for output in all {
        if is_send(&output) {
            put(output, sends);
        } else {
            put(output, others);
        }
    }
}

/// The cause of the last Closed.
fn last_cause_in(outputs: &[Output]) -> Option<LinkCause>
    ensures { result ≡ last_cause outputs.now }
{
    let mut last = None;
    for output in outputs {
        if let Output::Closed { cause } = output {
            last = Some(*cause);
        }
    }
    last
}

impl<C: Clock> AgentDesk<C> {
    /// A desk before any turn, which ends its run at the moment `until`, in milliseconds. The core is new, and so is the
    /// sender of a record.
    pub fn new(
        alloc: Global,
        core: Core,
        clock: C,
        until: u64,
        sender: Option<EntrySender>,
    ) -> AgentDesk<C>
        ensures { (base : RunBase) → StandsFor core [] → core.config ≡ base.config
            → until ≡ base.until
            → HasRead (C.readings clock) base.before [] → sender ≡ base.sender
            → StandsBy C.readings result base [] }
    {
        AgentDesk {
            alloc,
            core,
            clock,
            until,
            moment: 0,
            send_queue: Vec::new(alloc),
            closed: None,
            left: false,
            entries: 0,
            sender,
        }
    }
}

/// At a Drain, what was sent on the link, and from then on nothing.
fn hand_over(alloc: Global, send_queue: &mut Vec<Output>, drained: bool) -> Vec<Output>
    ensures sends { result.items ≡ handed_over drained send_queue.old.items }
    ensures drained { drained ≡ true → send_queue.new.items ≡ [] }
    ensures kept { drained ≡ false → send_queue.new ≡ send_queue.old }
{
    if drained {
        mem::replace(send_queue, Vec::new(alloc))
    } else {
        Vec::new(alloc)
    }
}

/// The cause of the last Closed, unless a link began after it.
fn next_cause(begun: bool, before: Option<LinkCause>, outputs: &[Output]) -> Option<LinkCause>
    ensures { result ≡ closed_with begun before outputs.now }
{
    match last_cause_in(outputs) {
        Some(cause) => Some(cause),
        None => { if begun { None } else { before } }
    }
}

/// What a desk is given, and gives back at the end.
pub(crate) struct Tools<C> {
    pub clock: C,
    /// Where the run is recorded.
    pub sender: Option<EntrySender>,
}

/// What is left of a desk.
pub(crate) struct DeskEnd<C> {
    pub tools: Tools<C>,
    /// How many turns had an answer. It stops at 2^64 - 1.
    pub entries: u64,
    /// Why the link was closed, where it was and none began since.
    pub closed: Option<LinkCause>,
}

impl<C> AgentDesk<C> {
    pub(crate) fn into_end(self) -> DeskEnd<C>
        ensures { result ≡ record {
          tools = record { clock = self.clock; sender = self.sender };
          entries = self.entries;
          closed = self.closed;
        } }
    {
        DeskEnd {
            tools: Tools {
                clock: self.clock,
                sender: self.sender,
            },
            entries: self.entries,
            closed: self.closed,
        }
    }

    /// How many things may go out for an event at this moment.
    fn most_outputs(&self, moment: u64) -> usize
        ensures { (H : List Event) → StandsFor self.now.core H → (e : Event) → e.moment ≡ moment
            → length (outputs_after self.now.core.config H e) ≤ result }
    {
        agent_core::outputs_are_few();
        match self.core.phase() {
            Phase::Serving => MOST_OUTPUTS,
            _ => MOST_OUTPUTS + self.core.waiting(moment) as usize,
        }
    }

    /// Makes room for what may go out for an event at this moment: in the send queue, and besides.
    fn make_room(&mut self, moment: u64) -> Result<Vec<Output>, NoMemory>
        ensures none { IfOk result (λ room. room.items ≡ []) }
        ensures room { IfOk result
            (λ room. (H : List Event) → StandsFor self.old.core H → (e : Event) → e.moment ≡ moment
            → HasRoom (length self.new.send_queue.items) (vec_capacity self.new.send_queue)
            (vec_capacity room) (outputs_after self.old.core.config H e)) }
        ensures same { IsSame self.old self.new }
    {
        let most = self.most_outputs(moment);
        self.send_queue.reserve(most)?;
        Ok(Vec::with_capacity(self.alloc, most)?)
    }

    /// Enters what the core gave for an input, where there is room for all of it.
    fn enter(
        &mut self,
        moment: u64,
        ask: &Input,
        begun: bool,
        all: Vec<Output>,
        room: Vec<Output>,
    ) -> Heard
        ensures { room.items ≡ []
            → HasRoom (length self.old.send_queue.items) (vec_capacity self.old.send_queue)
            (vec_capacity room) all.items → IsCalm (drain_test ask.now) begun all.items
            → Enters self.old self.new moment ask.now begun all.items result }
    {
        let drained = is_drain(ask);
        let sends = hand_over(self.alloc, &mut self.send_queue, drained);
        self.closed = next_cause(begun, self.closed, all.as_slice());
        if begun {
            self.send_queue.clear();
        }
        let mut others = room;
        sort(all, &mut self.send_queue, &mut others);
        self.left |= is_leave(ask);
        self.moment = moment;
        self.entries = self.entries.saturating_add(1);
        Heard {
            moment,
            outputs: Outputs::from_vec(others),
            sends: Outputs::from_vec(sends),
            finished: self.left || self.until <= moment,
            closed: self.closed,
        }
    }

    /// Gives an entry to the record, where there is one, unless it is idle.
    fn tell<R: Wait>(&mut self, rt: &R, moment: u64, input: Input, idle: bool)
        ensures { Tells self.old self.new moment input idle }
    {
        let Some(sender) = &mut self.sender else {
            return;
        };
        match input {
            // Nothing comes at the moment, so what came isn't held back.
            Input::Tick if idle => sender.flush(rt),
            _ if idle => {}
            input => sender.send(rt, Entry { moment, input }),
        }
    }
}

impl<C: Clock> Desk for AgentDesk<C> {
    type Ask = Input;

    type Answer = Heard;

    type Refusal = NoMemory;

    type Base = RunBase;

    ghost stands = { StandsBy C.readings };

    ghost refuses = { λ ask refusal. Unit {0} };

    fn step<R: Wait>(&mut self, rt: &R, ask: Input) -> Result<Heard, NoMemory> {
        agent_core::past_goes_on();
        let moment = self.moment.max(self.clock.now());
        let room = self.make_room(moment)?;
        let begun = self.core.begins(&ask);
        let outbox = self.core.outbox();
        let all = self.core.step(self.alloc, moment, &ask)?;
        let idle = is_idle(&ask, outbox, all.as_slice());
        let heard = self.enter(moment, &ask, begun, all.into_vec(), room);
        self.tell(rt, moment, ask, idle);
        Ok(heard)
    }
}
