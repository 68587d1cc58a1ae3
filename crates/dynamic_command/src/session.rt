//! What the lines of a transcript make of the book and the core beside it.

ghost use Rattle.std.specs.Prelude.{◌≡◌, ◌≤◌, ◌∷◌, [], ℕ, List, map, None, Err, IfErr, IfSome, OnOk, refl};
ghost use Rattle.std.specs.List.{flat_map};
ghost use Rattle.wire_core.specs.Counts.{Rose};
ghost use Rattle.wire_core.specs.Sink.{Appends, AppendsPrefix};
ghost use Rattle.agent_settings.specs.declared.config.Config.{Config};
ghost use Rattle.agent_settings.specs.Config.{InLimits, find_address};
ghost use Rattle.session_book.specs.Places.{BookPlace};
ghost use Rattle.session_book.specs.History.{place};
ghost use Rattle.session_book.specs.declared.events.BookInput.TheVariants as book_input;
ghost use Rattle.dynamic_command.specs.Dynamic.{Stage, begun, book_line, dynamic_rule, event_at, inputs_text, joined, ran_text, text_of, with_settings};
ghost use Rattle.dynamic_command.specs.Running.{CanTake, Follows, HasFollowed, IsAt, Ran, RunsAt, RunsFrom, RunsOn};
ghost use Rattle.text_commands.specs.Transcripts.{IsFailure};

use crate::counts::Counts;
use crate::printing::write_outputs;
use agent_events::Input;
use agent_settings::{Client, Config};
use agent_status::Status;
use printed_lines::print_end_with_controls;
use session_book::{BookCore, BookInput};
use std::alloc::Global;
use std::hash::RandomState;
use text_commands::{Follower, join_client};
use transcript::{Line, LineReader};
use wire_core::{NoMemory, Put, Sink};

/// What the lines so far made of the book: settings, and a book with its core once an event came.
#[derive(Drop)]
pub(crate) struct BookSession {
    random: RandomState,
    config: Option<Config>,
    book: Option<BookCore>,
    counts: Counts,
}

/// Runs an input and prints what goes out for it.
fn run_input<K: Sink>(
    alloc: Global,
    book: &mut BookCore,
    counts: &mut Counts,
    number: u64,
    moment: u64,
    input: &BookInput,
    sink: &mut K,
) -> Result<(), Status>
    ensures runs { (config : Config) (ps : List BookPlace) → RunsAt book.old counts.old config ps
        → OnOk result (RunsOn book.new counts.new config ps number (event_at moment input.now)
        (K.written sink.old) (K.written sink.new)) }
    ensures part { (config : Config) (ps : List BookPlace) → RunsAt book.old counts.old config ps
        → AppendsPrefix (K.written sink.old) (K.written sink.new)
        (flat_map (book_line number) (place config ps (event_at moment input.now)).outputs) }
    ensures fault { result ≡ Err Status.WriteFault → Rose (K.faults sink.old) (K.faults sink.new) }
    ensures failure { IfErr result IsFailure }
    ensures faults_stay { K.faults sink.old ≤ K.faults sink.new }
{
    let Ok(outputs) = book.step(alloc, moment, input) else {
        return Err(Status::OutOfMemory);
    };
    let outputs = outputs.as_slice();
    match write_outputs(alloc, number, outputs, sink) {
        Ok(()) => {
            counts.add(outputs);
            Ok(())
        }
        Err(status) => Err(status),
    }
}

/// Runs an input that also comes into a core that has no book.
fn run_core_input<K: Sink>(
    alloc: Global,
    book: &mut BookCore,
    counts: &mut Counts,
    number: u64,
    moment: u64,
    input: Input,
    sink: &mut K,
) -> Result<(), Status>
    ensures runs { (config : Config) (ps : List BookPlace) → RunsAt book.old counts.old config ps
        → OnOk result (RunsOn book.new counts.new config ps number
        (event_at moment (book_input.Core input)) (K.written sink.old) (K.written sink.new)) }
    ensures part { (config : Config) (ps : List BookPlace) → RunsAt book.old counts.old config ps
        → AppendsPrefix (K.written sink.old) (K.written sink.new)
        (flat_map (book_line number)
        (place config ps (event_at moment (book_input.Core input))).outputs) }
    ensures fault { result ≡ Err Status.WriteFault → Rose (K.faults sink.old) (K.faults sink.new) }
    ensures failure { IfErr result IsFailure }
    ensures faults_stay { K.faults sink.old ≤ K.faults sink.new }
{
    run_input(
        alloc,
        book,
        counts,
        number,
        moment,
        &BookInput::Core { input },
        sink,
    )
}

/// Runs the inputs of an event line, one after another.
fn run_inputs<K: Sink>(
    alloc: Global,
    book: &mut BookCore,
    counts: &mut Counts,
    number: u64,
    moment: u64,
    inputs: Vec<Input>,
    sink: &mut K,
) -> Result<(), Status>
    ensures runs { (config : Config) (ps : List BookPlace) → RunsAt book.old counts.old config ps
        → OnOk result (Ran book.new counts.new config ps number moment
        (map book_input.Core inputs.items) (K.written sink.old) (K.written sink.new)) }
    ensures part { (config : Config) (ps : List BookPlace) → RunsAt book.old counts.old config ps
        → AppendsPrefix (K.written sink.old) (K.written sink.new)
        (inputs_text number config ps moment (map book_input.Core inputs.items)) }
    ensures fault { result ≡ Err Status.WriteFault → Rose (K.faults sink.old) (K.faults sink.new) }
    ensures failure { IfErr result IsFailure }
    ensures faults_stay { K.faults sink.old ≤ K.faults sink.new }
{
    for input in inputs {
        match run_core_input(alloc, book, counts, number, moment, input, sink) {
            Ok(()) => {}
            Err(status) => return Err(status),
        }
    }
    Ok(())
}

impl BookSession {
    /// Before the first line. `random` is for tables that hash their keys.
    pub(crate) fn new(random: RandomState) -> BookSession
        ensures { HasFollowed result [] }
    {
        BookSession {
            random,
            config: None,
            book: None,
            counts: Counts {
                replies: 0,
                sends: 0,
                drops: 0,
                controls: 0,
            },
        }
    }

    /// The settings that an agent line tells.
    fn tell(&mut self, config: Config)
        ensures { (stage : Stage) → IsAt self.old stage
            → IsAt self.new (with_settings stage config) }
    {
        if self.book.is_none() {
            self.config = Some(config);
        }
    }

    /// A further client of the settings.
    fn join(&mut self, client: Client) -> Result<(), Status>
        requires { IfSome self.old.config
            (λ config. find_address client.address config.clients ≡ None) }
        ensures joins { (stage : Stage) → IsAt self.old stage
            → OnOk result (IsAt self.new (joined stage client)) }
        ensures memory { IfErr result (λ status. status ≡ Status.OutOfMemory) }
    {
        join_client(&mut self.config, client)
    }

    /// Makes the book and its core at the first event.
    fn begin(&mut self, alloc: Global) -> Result<(), Status>
        requires { IfSome self.old.config InLimits }
        ensures begins { (stage : Stage) → IsAt self.old stage
            → OnOk result (IsAt self.new (begun stage)) }
        ensures memory { IfErr result (λ status. status ≡ Status.OutOfMemory) }
    {
        match self.config.take() {
            None => Ok(()),
            Some(config) => match BookCore::new(alloc, self.random, config) {
                Ok(book) => {
                    self.book = Some(book);
                    Ok(())
                }
                Err(_) => Err(Status::OutOfMemory),
            },
        }
    }

    /// Runs the inputs of an event line.
    fn run<K: Sink>(
        &mut self,
        alloc: Global,
        number: u64,
        moment: u64,
        inputs: Vec<Input>,
        sink: &mut K,
    ) -> Result<(), Status>
        ensures runs { (stage : Stage) → IsAt self.old stage
            → OnOk result (RunsFrom self.new stage number moment (map book_input.Core inputs.items)
            (K.written sink.old) (K.written sink.new)) }
        ensures part { (stage : Stage) → IsAt self.old stage
            → AppendsPrefix (K.written sink.old) (K.written sink.new)
            (ran_text number stage moment (map book_input.Core inputs.items)) }
        ensures fault { result ≡ Err Status.WriteFault
            → Rose (K.faults sink.old) (K.faults sink.new) }
        ensures failure { IfErr result IsFailure }
        ensures faults_stay { K.faults sink.old ≤ K.faults sink.new }
    {
        match &mut self.book {
            None => Ok(()),
            Some(book) => run_inputs(alloc, book, &mut self.counts, number, moment, inputs, sink),
        }
    }

    /// Runs the input of a control line.
    fn control<K: Sink>(
        &mut self,
        alloc: Global,
        number: u64,
        moment: u64,
        input: BookInput,
        sink: &mut K,
    ) -> Result<(), Status>
        ensures runs { (stage : Stage) → IsAt self.old stage
            → OnOk result (RunsFrom self.new stage number moment (input ∷ []) (K.written sink.old)
            (K.written sink.new)) }
        ensures part { (stage : Stage) → IsAt self.old stage
            → AppendsPrefix (K.written sink.old) (K.written sink.new)
            (ran_text number stage moment (input ∷ [])) }
        ensures fault { result ≡ Err Status.WriteFault
            → Rose (K.faults sink.old) (K.faults sink.new) }
        ensures failure { IfErr result IsFailure }
        ensures faults_stay { K.faults sink.old ≤ K.faults sink.new }
    {
        match &mut self.book {
            None => Ok(()),
            Some(book) => run_input(alloc, book, &mut self.counts, number, moment, &input, sink),
        }
    }

    /// Follows a line, and prints what it gives.
    fn follow_line<K: Sink>(
        &mut self,
        alloc: Global,
        line: Line,
        sink: &mut K,
    ) -> Result<(), Status>
        requires { CanTake self.old.config line }
        ensures follows { (stage : Stage) → IsAt self.old stage
            → OnOk result (Follows self.new stage line (K.written sink.old) (K.written sink.new)) }
        ensures part { (stage : Stage) → IsAt self.old stage
            → AppendsPrefix (K.written sink.old) (K.written sink.new) (text_of stage line) }
        ensures fault { result ≡ Err Status.WriteFault
            → Rose (K.faults sink.old) (K.faults sink.new) }
        ensures failure { IfErr result IsFailure }
        ensures faults_stay { K.faults sink.old ≤ K.faults sink.new }
    {
        match line {
            Line::Agent { config, .. } => {
                self.tell(config);
                Ok(())
            }
            Line::Client { client, .. } => self.join(client),
            Line::Event {
                number,
                moment,
                inputs,
            } => {
                self.begin(alloc)?;
                self.run(alloc, number, moment, inputs.into_vec(), sink)
            }
            Line::Control {
                number,
                moment,
                address,
                port,
                octets,
            } => {
                self.begin(alloc)?;
                let input = BookInput::Control {
                    address,
                    port,
                    octets,
                };
                self.control(alloc, number, moment, input, sink)
            }
        }
    }
}

impl Follower for BookSession {
    ghost rule = { λ _. dynamic_rule };

    ghost followed = { HasFollowed };

    fn reader(&self, alloc: Global) -> Result<LineReader, NoMemory> {
        LineReader::with_control(alloc)
    }

    fn follow<K: Sink>(&mut self, alloc: Global, line: Line, sink: &mut K) -> Result<(), Status> {
        self.follow_line(alloc, line, sink)
    }

    fn close<K: Sink>(&self, alloc: Global, sink: &mut K) -> Status {
        let Counts {
            replies,
            sends,
            drops,
            controls,
        } = self.counts;
        let Ok(text) = print_end_with_controls(alloc, replies, sends, drops, controls) else {
            return Status::OutOfMemory;
        };
        match sink.write(text.as_slice()) {
            Put::Done => Status::Done,
            Put::Failed => Status::WriteFault,
        }
    }

    ghost empty = { λ session. refl };
}
