//! What is kept: the core, the book's entries and the open aborts.

ghost use Rattle.std.specs.Prelude.{◌≡◌, ◌+◌, ◌<◌, ◌≤◌, ◌^◌, [], ◌∷◌, ◌++◌, false, true, map, length, IfOk, IfSome, OnOk, OnErr, option_copied, option_map, vec_len, vec_capacity};
ghost use Rattle.std.specs.List.{flat_map, list_any};
ghost use Rattle.agent_settings.specs.Config.{InLimits};
ghost use Rattle.agent_core.specs.Places as places;
ghost use Rattle.agent_core.specs.History as rule;
ghost use Rattle.session_book.specs.History as history;
ghost use Rattle.session_book.specs.Aborts as aborts;
ghost use Rattle.session_book.specs.Answers as answers;
ghost use Rattle.session_book.specs.Book.{entry_of};
ghost use Rattle.session_book.specs.Reading.{ask_view};
ghost use Rattle.session_book.specs.State.{state_of, own_by, asked_of, own_on_control, DoesOwn, MayOpen};

use crate::aborts::{Abort, Aborts, Asked, MOST_OPEN, OpenAbort};
use crate::answers::write_answer;
use crate::events::{BookOutput, BookOutputs, BookReason};
use crate::reading::Ask;
use crate::sessions::{Entry, Sessions};
use crate::values::DisconnectRequest;
use agent_core::Core;
use agent_events::Output;
use agent_settings::{Client, Config};
use disconnect_map::{disconnect, verdict};
use std::alloc::Global;
use std::hash::RandomState;
use wire_core::{NoMemory, Octets};

/// Where an access server takes Disconnect-Requests (RFC 5176, section 2.1).
const CONTROL_PORT: u16 = 3799;

/// Result-Codes (RFC 6733, section 7.1).
const SUCCESS: u32 = 2001;

const UNKNOWN_SESSION_ID: u32 = 5002;

pub(crate) const UNABLE_TO_COMPLY: u32 = 5012;

/// What is kept of the inputs so far.
#[derive(Drop)]
pub struct Ledger {
    pub(crate) core: Core,
    pub(crate) sessions: Sessions,
    pub(crate) aborts: Aborts,
    /// How many aborts were opened.
    pub(crate) opened: u64,
    /// The greatest moment so far.
    pub(crate) moment: u64,
}

/// What an Abort-Session-Request leads to.
#[derive(Drop)]
pub(crate) enum Considered {
    /// Nothing but this output.
    Says { output: BookOutput },
    /// An abort is opened, and its Disconnect-Request goes out.
    Opens { abort: Abort },
}

/// One output.
pub(crate) fn one(alloc: Global, output: BookOutput) -> Result<BookOutputs, NoMemory>
    ensures { IfOk result (λ o. o ≡ output ∷ []) }
{
    let mut outputs = Vec::new(alloc);
    outputs.push(output)?;
    Ok(BookOutputs::from_vec(outputs))
}

/// The Disconnect-Request of an abort, as it goes out.
pub(crate) fn control(alloc: Global, abort: &Abort) -> Result<BookOutput, NoMemory>
    ensures { IfOk result (λ o. o ≡ history.control abort.now) }
{
    Ok(BookOutput::Control {
        address: abort.address,
        port: CONTROL_PORT,
        octets: Octets::copy(alloc, abort.request.as_slice())?,
    })
}

/// An answer to the home server.
pub(crate) fn answer(
    alloc: Global,
    config: &Config,
    asked: &Asked,
    session: &[u8],
    code: u32,
) -> Result<BookOutput, NoMemory>
    requires { InLimits config.now }
    ensures { IfOk result (λ o. o ≡ BookOutput.Core (Output.Send
        (answers.answer_text config.now.host config.now.realm asked.now session.now code))) }
{
    let octets = write_answer(
        alloc,
        config.host.as_slice(),
        config.realm.as_slice(),
        asked,
        session,
        code,
    )?;
    Ok(BookOutput::Core {
        output: Output::Send { octets },
    })
}

/// The client at an address.
fn client_at(config: &Config, address: u32) -> Option<&Client>
    requires { InLimits config.now }
    ensures { option_copied result ≡ history.client_at config.now address }
{
    match config.clients.by_address(address) {
        Some((_, client)) => Some(client),
        None => None,
    }
}

/// A copy of a value, where there is one.
fn user_of(entry: &Entry) -> Option<&[u8]>
    ensures value { option_copied result ≡ entry.now.user }
    ensures short { IfSome result (λ v. length v.now ≤ 253) }
{
    match &entry.user {
        Some(user) => Some(user.as_slice()),
        None => None,
    }
}

/// Whether an Abort-Session-Request came before, and its abort is still open.
fn is_repeat(ask: &Ask<'_>, held: &OpenAbort) -> bool
    ensures { result ≡ history.is_repeat (ask_view ask.now) held.now }
{
    held.abort.host.as_slice() == ask.host && held.abort.asked.end == ask.asked.end
}

/// Whether this one stands in the way of an abort of this number.
fn is_in_the_way(ask: &Ask<'_>, number: u64, held: &OpenAbort) -> bool
    ensures { result ≡ history.is_in_the_way (ask_view ask.now) number held.now }
{
    held.abort.session.as_slice() == ask.session || held.abort.number % 256 == number % 256
}

/// Whether one of these stands in its way. There are few open ones.
fn are_in_the_way(ask: &Ask<'_>, number: u64, held: &[OpenAbort]) -> bool
    ensures { result ≡ list_any (history.is_in_the_way (ask_view ask.now) number) held.now }
{
    held.iter().any(|one| is_in_the_way(ask, number, one))
}

/// Whether an abort of this number may be opened.
fn may_open(held: &[OpenAbort], ask: &Ask<'_>, number: u64) -> bool
    ensures exact { result ≡ history.may_open held.now (ask_view ask.now) number }
    ensures room { result ≡ true → length held.now < 64 }
{
    held.len() < MOST_OPEN && !are_in_the_way(ask, number, held)
}

/// The abort of this number, which asks this client.
fn abort_of(
    alloc: Global,
    ask: &Ask<'_>,
    number: u64,
    entry: &Entry,
    client: &Client,
) -> Result<Abort, NoMemory>
    ensures { IfOk result
        (λ a. a ≡ history.abort_of (ask_view ask.now) number entry.now client.now) }
{
    let id = (number % 256) as u8;
    let octets = disconnect(alloc, client, id, user_of(entry), entry.acct.as_slice())?;
    Ok(Abort {
        number,
        asked: ask.asked,
        host: Octets::copy(alloc, ask.host)?,
        session: Octets::copy(alloc, ask.session)?,
        address: entry.address,
        request: DisconnectRequest::new(octets),
    })
}

/// What a datagram of this source says to the Disconnect-Request of an abort.
fn said_to(config: &Config, address: u32, port: u16, octets: &[u8], abort: &Abort) -> Option<bool>
    requires { InLimits config.now }
    ensures { result ≡ history.said_to config.now address port octets.now abort.now }
{
    if abort.address != address || port != CONTROL_PORT {
        return None;
    }
    match client_at(config, address) {
        Some(client) => verdict(client, abort.request.as_slice(), octets),
        None => None,
    }
}

/// The first abort to whose Disconnect-Request a datagram is the answer, and whether the session was ended. There are few
/// open ones.
pub(crate) fn first_answered<'a>(
    config: &Config,
    held: &'a [OpenAbort],
    address: u32,
    port: u16,
    octets: &[u8],
) -> Option<(&'a Abort, bool)>
    requires { InLimits config.now }
    ensures { option_map (λ f. (f.0.now, f.1)) result
        ≡ history.first_answered (history.said_to config.now address port octets.now) held.now }
{
    for one in held {
        match said_to(config, address, port, octets, &one.abort) {
            Some(ended) => return Some((&one.abort, ended)),
            None => {}
        }
    }
    None
}

pub(crate) fn code_of(ended: bool) -> u32
    ensures { result ≡ history.code_of ended }
{
    if ended { SUCCESS } else { UNABLE_TO_COMPLY }
}

/// Whether one of these is the abort of an Abort-Session-Request that comes again.
fn are_repeats(ask: &Ask<'_>, held: &[OpenAbort]) -> bool
    ensures { result ≡ list_any (history.is_repeat (ask_view ask.now)) held.now }
{
    held.iter().any(|one| is_repeat(ask, one))
}

impl Ledger {
    /// Nothing is known.
    pub(crate) fn new(
        alloc: Global,
        random: RandomState,
        core: Core,
        capacity: u32,
    ) -> Result<Ledger, NoMemory>
        ensures { IfOk result (λ l. state_of l
            ≡ record { core = core; rows = []; aborts = []; opened = 0; moment = 0 }) }
    {
        Ok(Ledger {
            core,
            sessions: Sessions::new(alloc, random, capacity)?,
            aborts: Aborts::new(alloc)?,
            opened: 0,
            moment: 0,
        })
    }

    /// An answer to an Abort-Session-Request that opens no abort.
    fn refuse(&self, alloc: Global, ask: &Ask<'_>, code: u32) -> Result<Considered, NoMemory>
        requires { InLimits self.now.core.config }
        ensures { IfOk result (λ c. own_by c
            ≡ history.says (history.answer self.now.core.config (ask_view ask.now) code)) }
    {
        let output = answer(alloc, self.core.config(), &ask.asked, ask.session, code)?;
        Ok(Considered::Says { output })
    }

    /// The abort that an Abort-Session-Request opens, by the entry of its session.
    fn opening(&self, alloc: Global, ask: &Ask<'_>, entry: &Entry) -> Result<Considered, NoMemory>
        requires { InLimits self.now.core.config }
        ensures { IfOk result (λ c. own_by c
            ≡ history.opening self.now.core.config (ask_view ask.now) self.now.opened entry.now
            (history.client_at self.now.core.config entry.now.address)) }
    {
        match client_at(self.core.config(), entry.address) {
            None => self.refuse(alloc, ask, UNABLE_TO_COMPLY),
            Some(client) => Ok(Considered::Opens {
                abort: abort_of(alloc, ask, self.opened, entry, client)?,
            }),
        }
    }

    /// What an Abort-Session-Request of a session leads to that has this entry, or none.
    fn known(
        &self,
        alloc: Global,
        ask: &Ask<'_>,
        entry: Option<&Entry>,
    ) -> Result<Considered, NoMemory>
        requires { InLimits self.now.core.config }
        ensures own { IfOk result (λ c. own_by c
            ≡ history.on_session self.now.core.config self.now.aborts (ask_view ask.now)
            self.now.opened (option_copied entry.entry)) }
        ensures room { IfOk result (λ c. MayOpen self.now.aborts c) }
    {
        let Some(entry) = entry else {
            return self.refuse(alloc, ask, UNKNOWN_SESSION_ID);
        };
        if may_open(self.aborts.as_slice(), ask, self.opened) {
            self.opening(alloc, ask, entry)
        } else {
            self.refuse(alloc, ask, UNABLE_TO_COMPLY)
        }
    }

    /// What an Abort-Session-Request leads to. Nothing is changed yet.
    fn considered(&self, alloc: Global, ask: &Ask<'_>) -> Result<Considered, NoMemory>
        requires { InLimits self.now.core.config }
        ensures own { IfOk result
            (λ c. own_by c ≡ asked_of (state_of self.now) (ask_view ask.now)) }
        ensures room { IfOk result (λ c. MayOpen self.now.aborts c) }
    {
        if are_repeats(ask, self.aborts.as_slice()) {
            return Ok(Considered::Says {
                output: BookOutput::Dropped {
                    reason: BookReason::AbortOpen,
                },
            });
        }
        self.known(alloc, ask, self.sessions.get(ask.session))
    }

    /// An Abort-Session-Request that the core isn't given.
    pub(crate) fn asked(
        &mut self,
        alloc: Global,
        moment: u64,
        ask: &Ask<'_>,
    ) -> Result<BookOutputs, NoMemory>
        requires { InLimits self.old.core.config }
        ensures outputs { IfOk result
            (λ o. o ≡ (asked_of (state_of self.old) (ask_view ask.now)).outputs) }
        ensures state { OnOk result (DoesOwn moment (asked_of (state_of self.old)
            (ask_view ask.now)) (state_of self.old) (state_of self.new)) }
        ensures err { OnErr result (self.new ≡ self.old) }
    {
        // As many are never opened.
        if self.opened == u64::MAX {
            return Err(NoMemory);
        }
        match self.considered(alloc, ask)? {
            Considered::Says { output } => {
                let outputs = one(alloc, output)?;
                self.moment = moment;
                Ok(outputs)
            }
            Considered::Opens { abort } => {
                let outputs = one(alloc, control(alloc, &abort)?)?;
                self.aborts.push(abort, moment);
                self.opened += 1;
                self.moment = moment;
                Ok(outputs)
            }
        }
    }

    /// A datagram at the port of the book's own requests.
    pub(crate) fn control(
        &mut self,
        alloc: Global,
        moment: u64,
        address: u32,
        port: u16,
        octets: &[u8],
    ) -> Result<BookOutputs, NoMemory>
        requires { InLimits self.old.core.config }
        ensures outputs { IfOk result
            (λ o. o ≡ (own_on_control (state_of self.old) address port octets.now).outputs) }
        ensures state { OnOk result (DoesOwn moment (own_on_control (state_of self.old) address port
            octets.now) (state_of self.old) (state_of self.new)) }
        ensures err { OnErr result (self.new ≡ self.old) }
    {
        let config = self.core.config();
        let Some((abort, ended)) = first_answered(
            config,
            self.aborts.as_slice(),
            address,
            port,
            octets,
        ) else {
            let outputs = one(
                alloc,
                BookOutput::Dropped {
                    reason: BookReason::StrangeControl,
                },
            )?;
            self.moment = moment;
            return Ok(outputs);
        };
        let session = abort.session.as_slice();
        let output = answer(alloc, config, &abort.asked, session, code_of(ended))?;
        let outputs = one(alloc, output)?;
        let number = abort.number;
        if ended {
            self.sessions.remove(session);
        }
        self.aborts.close(number);
        self.moment = moment;
        Ok(outputs)
    }
}
