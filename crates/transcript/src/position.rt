//! Where the next line of a transcript stands, and what it says there.

ghost use Rattle.std.specs.Prelude.{◌≡◌, ◌++◌, ◌∷◌, [], length, OnOk};
ghost use Rattle.wire_core.specs.Counts.{one_more};
ghost use Rattle.text_lines.specs.Views.{plain};
ghost use Rattle.text_lines.specs.Words as word;
ghost use Rattle.transcript.specs.Kinds.{kind_of as kind_of_words};
ghost use Rattle.transcript.specs.Lines as lines;
ghost use Rattle.transcript.specs.Reading as reading;
ghost use Rattle.transcript.specs.Reading.{At};
ghost use Rattle.transcript.specs.Positions.{StandsAt, TakesStep, TellsInputs, fault_at, fault_of};

use crate::control::{Control, read_control};
use crate::happening::{Happening, read_event};
use crate::kind::{EventName, Kind, kind_of};
use crate::line::{Inputs, Line};
use crate::line_fault::LineFault;
use crate::link_stream::LinkStream;
use crate::settings::{read_client, read_settings};
use agent_events::Input;
use std::alloc::Global;
use text_lines::words::words_of;
use text_lines::{LONGEST_LINE, WordFault};
use wire_core::NoMemory;

/// How many client lines there are at most.
const MOST_CLIENTS: usize = 1_024;

/// Which lines may stand next.
#[derive(Clone, Copy)]
pub(crate) enum Section {
    /// The agent line.
    Start,
    /// Client lines, and then event lines or control lines.
    Settings,
    /// Event lines or control lines.
    Events,
}

/// Where the next line stands.
#[derive(Drop)]
pub(crate) struct Position {
    /// Whether control lines may stand.
    controls: bool,
    section: Section,
    /// Those of the clients so far.
    addresses: Vec<u32>,
    link: LinkStream,
    /// How many lines came before.
    lines: u64,
}

/// Why the line with this number is bad, where a word of it is.
fn word_fault(number: u64, fault: WordFault) -> LineFault
    ensures { result ≡ fault_of number fault }
{
    match fault {
        WordFault::Bad => LineFault::Bad {
            line: number,
            reason: 3,
        },
        WordFault::NoMemory => LineFault::NoMemory,
    }
}

fn note(addresses: &mut Vec<u32>, address: u32) -> Result<(), NoMemory>
    ensures { OnOk result (addresses.new.items ≡ addresses.old.items ++ address ∷ []) }
{
    addresses.push(address)?;
    Ok(())
}

impl Position {
    /// Before the first line, where control lines may stand or not.
    pub(crate) fn beginning(alloc: Global, controls: bool) -> Position
        ensures { StandsAt result (reading.beginning controls) }
    {
        Position {
            controls,
            section: Section::Start,
            addresses: Vec::new(alloc),
            link: LinkStream::new(alloc),
            lines: 0,
        }
    }

    /// The number of the next line, counted from 1.
    pub(crate) fn number(&self) -> u64
        ensures { result ≡ one_more self.now.lines }
    {
        self.lines.saturating_add(1)
    }

    /// Why the next line is bad.
    pub(crate) fn bad(&self, reason: u32) -> LineFault
        ensures { result ≡ fault_at (one_more self.now.lines) reason }
    {
        LineFault::Bad {
            line: self.number(),
            reason,
        }
    }

    fn may_stand(&self, kind: Kind) -> bool
        ensures { result ≡ reading.may_stand self.now.controls self.now.section
            (length self.now.addresses.items) kind }
    {
        match self.section {
            Section::Start => matches!(kind, Kind::Agent),
            Section::Settings => match kind {
                Kind::Agent => false,
                Kind::Client => self.addresses.len() < MOST_CLIENTS,
                Kind::Event(_) => true,
                Kind::Control => self.controls,
            },
            Section::Events => match kind {
                Kind::Agent | Kind::Client => false,
                Kind::Event(_) => true,
                Kind::Control => self.controls,
            },
        }
    }

    fn take_agent(&mut self, alloc: Global, words: &[&[u8]]) -> Result<Line, LineFault>
        ensures { (at : At) → StandsAt self.old at
            → TakesStep result at (reading.agent_step at (lines.settings_of (plain words.now)))
            self.new }
    {
        let number = self.number();
        match read_settings(alloc, words) {
            Ok(config) => {
                self.section = Section::Settings;
                self.lines = number;
                Ok(Line::Agent { number, config })
            }
            Err(fault) => Err(word_fault(number, fault)),
        }
    }

    fn take_client(&mut self, alloc: Global, words: &[&[u8]]) -> Result<Line, LineFault>
        ensures { (at : At) → StandsAt self.old at
            → TakesStep result at (reading.client_step at (lines.client_of (plain words.now)))
            self.new }
    {
        let number = self.number();
        match read_client(alloc, words) {
            Ok(client) => {
                if self.addresses.contains(&client.address) {
                    return Err(self.bad(4));
                }
                note(&mut self.addresses, client.address)?;
                self.lines = number;
                Ok(Line::Client { number, client })
            }
            Err(fault) => Err(word_fault(number, fault)),
        }
    }

    /// The inputs of an event line: one, but for the octets of the link.
    fn inputs(&mut self, alloc: Global, happening: Happening) -> Result<Inputs, NoMemory>
        ensures { (at : At) → StandsAt self.old at
            → TellsInputs result at happening self.old self.new }
    {
        match happening {
            Happening::Link(octets) => self.link.take(alloc, octets.as_slice()),
            Happening::Input(input) => {
                if matches!(input, Input::Up | Input::Ready) {
                    self.link = LinkStream::new(alloc);
                }
                Inputs::one(alloc, input)
            }
        }
    }

    fn take_event(
        &mut self,
        alloc: Global,
        name: EventName,
        words: &[&[u8]],
    ) -> Result<Line, LineFault>
        ensures { (at : At) → StandsAt self.old at
            → TakesStep result at (reading.event_step at (lines.event_of name (plain words.now)))
            self.new }
    {
        let number = self.number();
        match read_event(alloc, name, words) {
            Ok((moment, happening)) => {
                let inputs = self.inputs(alloc, happening)?;
                self.section = Section::Events;
                self.lines = number;
                Ok(Line::Event {
                    number,
                    moment,
                    inputs,
                })
            }
            Err(fault) => Err(word_fault(number, fault)),
        }
    }

    fn take_control(&mut self, alloc: Global, words: &[&[u8]]) -> Result<Line, LineFault>
        ensures { (at : At) → StandsAt self.old at
            → TakesStep result at (reading.control_step at (lines.control_of (plain words.now)))
            self.new }
    {
        let number = self.number();
        match read_control(alloc, words) {
            Ok(control) => {
                self.section = Section::Events;
                self.lines = number;
                let Control {
                    moment,
                    address,
                    port,
                    octets,
                } = control;
                Ok(Line::Control {
                    number,
                    moment,
                    address,
                    port,
                    octets,
                })
            }
            Err(fault) => Err(word_fault(number, fault)),
        }
    }

    fn take_kind(&mut self, alloc: Global, kind: Kind, words: &[&[u8]]) -> Result<Line, LineFault>
        ensures { (at : At) → StandsAt self.old at
            → TakesStep result at (reading.kind_step at kind (plain words.now)) self.new }
    {
        match kind {
            Kind::Agent => self.take_agent(alloc, words),
            Kind::Client => self.take_client(alloc, words),
            Kind::Event(name) => self.take_event(alloc, name, words),
            Kind::Control => self.take_control(alloc, words),
        }
    }

    /// What the next line says, which has these words.
    fn take_words(&mut self, alloc: Global, words: &[&[u8]]) -> Result<Line, LineFault>
        ensures { (at : At) → StandsAt self.old at
            → TakesStep result at
            (reading.words_step at (kind_of_words (plain words.now)) (plain words.now)) self.new }
    {
        match kind_of(words) {
            Some(kind) => {
                if self.may_stand(kind) {
                    self.take_kind(alloc, kind, words)
                } else {
                    Err(self.bad(2))
                }
            }
            None => Err(self.bad(2)),
        }
    }

    /// What the next line says, which has these octets. After an `Err` this is no position any more.
    pub(crate) fn take(&mut self, alloc: Global, line: &[u8]) -> Result<Line, LineFault>
        ensures { (at : At) → StandsAt self.old at
            → TakesStep result at (reading.read_line at line.now) self.new }
    {
        if LONGEST_LINE < line.len() {
            return Err(self.bad(1));
        }
        let words = words_of(alloc, line)?;
        self.take_words(alloc, &words)
    }
}
