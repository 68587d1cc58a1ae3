//! The book beside the core: one step of both.

ghost use Rattle.std.specs.Prelude.{◌≡◌, ◌++◌, [], ◌∷◌, List, IfOk, OnOk, OnErr, max, option_map};
ghost use Rattle.agent_settings.specs.Config.{InLimits};
ghost use Rattle.agent_core.specs.Places as places;
ghost use Rattle.agent_core.specs.Standing as core;
ghost use Rattle.session_book.specs.Places.{BookEvent};
ghost use Rattle.session_book.specs.History.{book_outputs_after};
ghost use Rattle.session_book.specs.History as history;
ghost use Rattle.session_book.specs.Reading.{ask_view};
ghost use Rattle.session_book.specs.Standing.{BookStandsFor};
ghost use Rattle.session_book.specs.State.{state_of, phase_after, Steps, CoreSteps};

use crate::events::{BookInput, BookOutputs};
use crate::ledger::Ledger;
use crate::reading::{Ask, read_ask};
use agent_core::Core;
use agent_events::Input;
use agent_settings::Config;
use peer_machine::Phase;
use std::alloc::Global;
use std::hash::RandomState;
use std::marker::Model;
use wire_core::NoMemory;

/// The core and the book beside it. Contracts see what they keep, and say for which history it stands.
#[derive(Drop)]
pub struct BookCore {
    ledger: Ledger,
}

impl Model for BookCore {
    ghost use Rattle.session_book.specs.Standing.{BookState};
    ghost use Rattle.session_book.specs.State.{state_of};
    ghost use Rattle.session_book.specs.Promise.{IsBook};

    ghost Value = { BookState };

    ghost view = { λ c. state_of c.ledger };

    ghost invariant = { λ c. IsBook (state_of c.ledger) };
}

/// Whether the link can send an answer.
fn can_answer(phase: Phase) -> bool
    ensures { result ≡ history.can_answer phase }
{
    match phase {
        Phase::Closed | Phase::Greeting => false,
        Phase::Serving | Phase::Closing => true,
    }
}

impl Ledger {
    /// The Abort-Session-Request that an input is which the core isn't given.
    fn caught<'a>(&self, input: &'a Input) -> Option<Ask<'a>>
        ensures { (H : List places.Event) → core.StandsFor self.now.core H
            → option_map ask_view result ≡ history.caught (phase_after self.now.core H) input.now }
    {
        let Input::Message { octets } = input else {
            return None;
        };
        if can_answer(self.core.phase()) {
            read_ask(octets.as_slice())
        } else {
            None
        }
    }

    /// An input that also comes into a core that has no book.
    fn core_input(
        &mut self,
        alloc: Global,
        moment: u64,
        input: &Input,
    ) -> Result<BookOutputs, NoMemory>
        requires limits { InLimits self.old.core.config }
        requires stands { (H : List places.Event) × core.StandsFor self.old.core H }
        ensures ok { (H : List places.Event) → core.StandsFor self.old.core H
            → IfOk result (λ o. CoreSteps H moment input.now
            (history.caught (phase_after self.old.core H) input.now)
            (state_of self.old) (state_of self.new) o) }
        ensures err { OnErr result (state_of self.new ≡ state_of self.old) }
    {
        match self.caught(input) {
            Some(ask) => self.asked(alloc, moment, &ask),
            None => self.passed(alloc, moment, input),
        }
    }

    /// One step: the effective moment is the greatest so far. After an `Err` everything is as it was.
    fn step(
        &mut self,
        alloc: Global,
        moment: u64,
        input: &BookInput,
    ) -> Result<BookOutputs, NoMemory>
        requires limits { InLimits self.old.core.config }
        requires stands { (H : List places.Event) × core.StandsFor self.old.core H }
        ensures ok { (H : List places.Event) → core.StandsFor self.old.core H
            → IfOk result (λ o. Steps H (max self.old.moment moment) input.now (state_of self.old)
            (state_of self.new) o) }
        ensures err { OnErr result (state_of self.new ≡ state_of self.old) }
    {
        let now = self.moment.max(moment);
        match input {
            BookInput::Core { input } => self.core_input(alloc, now, input),
            BookInput::Control {
                address,
                port,
                octets,
            } => self.control(alloc, now, *address, *port, octets.as_slice()),
        }
    }
}

impl BookCore {
    /// A core and an empty book before anything came in. `random` is for the tables that hash their keys.
    pub fn new(alloc: Global, random: RandomState, config: Config) -> Result<BookCore, NoMemory>
        requires { InLimits config }
        ensures config { IfOk result (λ b. b.core.config ≡ config) }
        ensures stands { IfOk result (λ b. BookStandsFor b []) }
    {
        let capacity = config.capacity;
        let core = Core::new(alloc, random, config)?;
        let ledger = Ledger::new(alloc, random, core, capacity)?;
        Ok(BookCore { ledger })
    }

    /// One step: what goes out for an input that comes at `moment`, in milliseconds, after a history. The
    /// effective moment is the greatest so far. After an `Err` the book and the core are as they were.
    pub fn step(
        &mut self,
        alloc: Global,
        moment: u64,
        input: &BookInput,
    ) -> Result<BookOutputs, NoMemory>
        ensures answers { (H : List BookEvent) → BookStandsFor self.old H → IfOk result (λ o. o
            ≡ book_outputs_after self.old.core.config H
            (record { moment = moment; input = input.now })) }
        ensures stands { (H : List BookEvent) → BookStandsFor self.old H
            → OnOk result
            (BookStandsFor self.new (H ++ record { moment = moment; input = input.now } ∷ [])) }
        ensures config { self.new.core.config ≡ self.old.core.config }
        ensures err { OnErr result (self.new ≡ self.old) }
    {
        self.ledger.step(alloc, moment, input)
    }

    /// The settings.
    pub fn config(&self) -> &Config
        ensures { result.now ≡ self.now.core.config }
    {
        self.ledger.core.config()
    }
}
