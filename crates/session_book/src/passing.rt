//! What the core is given, and what the book does about it.

ghost use Rattle.std.specs.Prelude.{◌≡◌, ◌+◌, ◌<◌, ◌≤◌, [], ◌∷◌, ◌++◌, if◌then◌else◌, List, ℕ, map, max, length, option_copied, option_to_list, IfOk, IfSome, OnOk, OnErr, vec_len, vec_capacity};
ghost use Rattle.std.specs.List.{flat_map, list_any};
ghost use Rattle.indexmap.specs.IndexMap.{spare};
ghost use Rattle.agent_settings.specs.Config.{InLimits};
ghost use Rattle.agent_core.specs.Places as places;
ghost use Rattle.agent_core.specs.History as rule;
ghost use Rattle.agent_core.specs.Standing as core;
ghost use Rattle.agent_core.specs.LawsOfSends.{most_resent};
ghost use Rattle.agent_core.specs.Promise.{AreBytes, IsReal};
ghost use Rattle.session_book.specs.declared.events.BookOutput.{BookOutput};
ghost use Rattle.session_book.specs.declared.events.BookOutput.TheVariants as book_output;
ghost use Rattle.session_book.specs.Aborts as deeds;
ghost use Rattle.session_book.specs.History as history;
ghost use Rattle.session_book.specs.Planned.{planned, planned_for};
ghost use Rattle.session_book.specs.State.{state_of, sends_session, place_after, Changes, Does, Passes};
ghost use Rattle.session_book.specs.Planned.{IsPrepared};

use crate::aborts::{Aborts, OpenAbort};
use crate::events::{BookOutput, BookOutputs};
use crate::ledger::{Ledger, UNABLE_TO_COMPLY, answer, control};
use crate::plans::{Plan, plan_for};
use crate::reading::short_session;
use crate::sessions::Sessions;
use agent_events::{Input, Output, Outputs};
use agent_settings::Config;
use peer_machine::Phase;
use std::alloc::Global;
use wire_core::NoMemory;

/// How many outputs the core has at most, besides the requests that are sent again.
const FEW: usize = 3;

/// The session of the request that a datagram led to.
fn sent_session(outputs: &[Output]) -> Option<&[u8]>
    ensures exact { option_copied result ≡ sends_session outputs.now }
    ensures short { IfSome result (λ s. length s.now ≤ 1024) }
{
    match outputs {
        [Output::Send { octets }, ..] => short_session(octets.as_slice()),
        _ => None,
    }
}

fn is_closing(output: &Output) -> bool
    ensures { result ≡ history.is_closing output.now }
{
    matches!(output, Output::Closed { .. })
}

/// Whether the link is closed.
fn is_closed(outputs: &[Output]) -> bool
    ensures { result ≡ list_any history.is_closing outputs.now }
{
    outputs.iter().any(|output| is_closing(output))
}

/// What goes out where the Disconnect-Request of an abort is overdue.
fn overdue(
    alloc: Global,
    config: &Config,
    moment: u64,
    held: &OpenAbort,
) -> Result<Option<BookOutput>, NoMemory>
    requires { InLimits config.now }
    ensures { IfOk result (λ o. option_to_list o ≡ history.overdue config.now moment held.now) }
{
    if !held.sent.is_due(moment) {
        return Ok(None);
    }
    let abort = &held.abort;
    if held.sent.is_last() {
        let session = abort.session.as_slice();
        let output = answer(alloc, config, &abort.asked, session, UNABLE_TO_COMPLY)?;
        Ok(Some(output))
    } else {
        Ok(Some(control(alloc, abort)?))
    }
}

/// Puts an output at the end, where there is one.
fn push_if(outputs: &mut Vec<BookOutput>, output: Option<BookOutput>) -> Result<(), NoMemory>
    ensures { OnOk result (outputs.new.items ≡ outputs.old.items ++ option_to_list output) }
{
    if let Some(output) = output {
        outputs.push(output)?;
    }
    Ok(())
}

/// What goes out for all of these, in order.
fn overdue_outputs(
    alloc: Global,
    config: &Config,
    moment: u64,
    held: &[OpenAbort],
) -> Result<Vec<BookOutput>, NoMemory>
    requires { InLimits config.now }
    ensures { IfOk result (λ v. v.items ≡ flat_map (history.overdue config.now moment) held.now) }
{
    let mut outputs = Vec::new(alloc);
    for one in held {
        push_if(&mut outputs, overdue(alloc, config, moment, one)?)?;
    }
    Ok(outputs)
}

/// Does what is planned, where this is the session of a request that was taken up.
fn apply(sessions: &mut Sessions, capacity: u32, plan: Plan, session: Option<&[u8]>)
    requires room { 0 < spare sessions.old.map }
    requires short { IfSome (option_copied session) (λ s. length s ≤ 1024) }
    ensures { Changes capacity (planned_for plan (option_copied session.entry))
        sessions.old.map.entries sessions.new.map.entries }
{
    let Some(session) = session else {
        return;
    };
    match plan {
        Plan::Nothing => {}
        Plan::Start { room, entry } => sessions.append(capacity, session, room, entry),
        Plan::Stop => sessions.remove(session),
    }
}

/// Ends all aborts where the link is closed; else a Tick ages them.
fn pass(aborts: &mut Aborts, closed: bool, input: &Input, moment: u64)
    ensures { aborts.new ≡ deeds.after (if closed then deeds.Ends else history.tick_deed input.now)
        moment aborts.old }
{
    if closed {
        aborts.clear();
    } else if matches!(input, Input::Tick) {
        aborts.age(moment);
    }
}

/// Puts the core's outputs at the end, for which there is room.
fn wrap(outputs: &mut Vec<BookOutput>, from_core: Outputs)
    requires { vec_len outputs.old + length from_core ≤ vec_capacity outputs.old }
    ensures items { outputs.new.items ≡ outputs.old.items ++ map book_output.Core from_core }
    ensures capacity { vec_capacity outputs.new ≡ vec_capacity outputs.old }
    ensures len { vec_len outputs.new ≡ vec_len outputs.old + length from_core }
{
    for output in from_core.into_vec() {
        outputs.push_reserved(BookOutput::Core { output });
    }
}

/// What a slice holds are octets.
fn are_octets(octets: &[u8])
    ensures { AreBytes octets.now }
{}

/// A datagram has octets.
fn has_octets(input: &Input)
    ensures { IsReal input.now }
{
    if let Input::Datagram { octets, .. } = input {
        are_octets(octets.as_slice());
    }
}

/// What stands ready before the core's step.
#[derive(Drop)]
pub(crate) struct Prepared {
    plan: Plan,
    /// What goes out for the open aborts where the link isn't closed.
    own: Vec<BookOutput>,
    /// Empty, with room for all that goes out.
    outputs: Vec<BookOutput>,
}

impl Ledger {
    /// What goes out for the open aborts where the link isn't closed.
    fn own_outputs(
        &self,
        alloc: Global,
        moment: u64,
        input: &Input,
    ) -> Result<Vec<BookOutput>, NoMemory>
        requires { InLimits self.now.core.config }
        ensures { IfOk result (λ v. v.items ≡ history.deed_outputs self.now.core.config moment
            (history.tick_deed input.now) self.now.aborts) }
    {
        if matches!(input, Input::Tick) {
            overdue_outputs(alloc, self.core.config(), moment, self.aborts.as_slice())
        } else {
            Ok(Vec::new(alloc))
        }
    }

    /// How many outputs the core's next step has at most: all that wait are sent again where the link opens.
    fn room(&self, moment: u64) -> usize
        ensures few { result ≤ 4294967298 }
        ensures room { (H : List places.Event) → core.StandsFor self.now.core H
            → 3 + most_resent self.now.core.config (rule.past self.now.core.config H)
            (max (places.now (rule.past self.now.core.config H)) moment) ≤ result }
    {
        match self.core.phase() {
            Phase::Serving => FEW,
            Phase::Closed | Phase::Greeting | Phase::Closing => {
                self.core.waiting(moment) as usize + FEW
            }
        }
    }
}

impl Ledger {
    /// Takes the memory of all that goes out, and of what is put into the book.
    fn prepare(&mut self, alloc: Global, moment: u64, input: &Input) -> Result<Prepared, NoMemory>
        requires { InLimits self.old.core.config }
        ensures state { state_of self.new ≡ state_of self.old }
        ensures prepared { (H : List places.Event) → core.StandsFor self.old.core H
            → IfOk result (IsPrepared (state_of self.old) moment input.now
            (3 + most_resent self.old.core.config (rule.past self.old.core.config H)
            (max (places.now (rule.past self.old.core.config H)) moment))) }
        ensures room { OnOk result (0 < spare self.new.sessions.map) }
    {
        let plan = plan_for(alloc, input)?;
        let own = self.own_outputs(alloc, moment, input)?;
        let room = self.room(moment).saturating_add(own.len());
        let outputs = Vec::with_capacity(alloc, room)?;
        self.sessions.reserve()?;
        Ok(Prepared { plan, own, outputs })
    }

    /// What the book does about the core's step, which takes no memory.
    fn follow(
        &mut self,
        moment: u64,
        input: &Input,
        prepared: Prepared,
        from_core: Outputs,
    ) -> BookOutputs
        requires prepared { IsPrepared (state_of self.old) moment input.now (length from_core)
            prepared }
        requires room { 0 < spare self.old.sessions.map }
        ensures outputs { result ≡ history.passed_outputs self.old.core.config moment input.now
            from_core self.old.aborts }
        ensures state { Does moment (history.taken_change input.now (sends_session from_core))
            (history.passed_deed input.now from_core)
            (state_of self.old) (state_of self.new) }
        ensures core { self.new.core ≡ self.old.core }
    {
        let Prepared {
            plan,
            mut own,
            mut outputs,
        } = prepared;
        let capacity = self.core.config().capacity;
        let closed = is_closed(from_core.as_slice());
        let session = sent_session(from_core.as_slice());
        apply(&mut self.sessions, capacity, plan, session);
        pass(&mut self.aborts, closed, input, moment);
        self.moment = moment;
        wrap(&mut outputs, from_core);
        if !closed {
            // There is room for them, so this is not refused.
            let _ = outputs.append(&mut own);
        }
        BookOutputs::from_vec(outputs)
    }

    /// An input that the core is given.
    pub(crate) fn passed(
        &mut self,
        alloc: Global,
        moment: u64,
        input: &Input,
    ) -> Result<BookOutputs, NoMemory>
        requires limits { InLimits self.old.core.config }
        requires stands { (H : List places.Event) × core.StandsFor self.old.core H }
        ensures outputs { (H : List places.Event) → core.StandsFor self.old.core H
            → IfOk result (λ o. o
            ≡ history.passed_outputs self.old.core.config moment input.now
            (place_after self.old.core H moment input.now).outputs self.old.aborts) }
        ensures state { (H : List places.Event) → core.StandsFor self.old.core H
            → OnOk result (Passes H moment input.now (state_of self.old) (state_of self.new)) }
        ensures err { OnErr result (state_of self.new ≡ state_of self.old) }
    {
        agent_core::outputs_are_few();
        has_octets(input);
        let prepared = self.prepare(alloc, moment, input)?;
        let from_core = self.core.step(alloc, moment, input)?;
        Ok(self.follow(moment, input, prepared, from_core))
    }
}
