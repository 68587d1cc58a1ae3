//! What the lines of a transcript make of the agent.

ghost use Rattle.std.specs.Prelude.{◌≡◌, ◌≤◌, ℕ, List, [], None, Err, IfSome, IfErr, OnOk, refl};
ghost use Rattle.wire_core.specs.Counts.{Rose};
ghost use Rattle.wire_core.specs.Sink.{Appends, AppendsPrefix};
ghost use Rattle.agent_settings.specs.declared.config.Config.{Config};
ghost use Rattle.agent_settings.specs.Config.{InLimits, find_address};
ghost use Rattle.agent_core.specs.Places.{Place};
ghost use Rattle.transcript.specs.Told.{CanFollow};
ghost use Rattle.transcript.specs.declared.line.Line.TheVariants as line;
ghost use Rattle.text_commands.specs.Transcripts.{IsFailure};
ghost use Rattle.transcript_runs.specs.Runs.{Stage, first_stage, follow as stage_on, inputs_told, line_told, places_after, rule_of, told_of};
ghost use Rattle.transcript_runs.specs.Sessions.{Follows, HasFollowed, IsAt, RunsAt, begun};

use crate::teller::Teller;
use agent_core::Core;
use agent_events::Input;
use agent_settings::{Client, Config};
use agent_status::Status;
use std::alloc::Global;
use std::hash::RandomState;
use text_commands::{Follower, join_client};
use transcript::{Line, LineReader};
use wire_core::{NoMemory, Sink};

/// What the lines so far made of the agent: settings, and a core once an event came.
#[derive(Drop)]
pub struct Session<T> {
    random: RandomState,
    config: Option<Config>,
    core: Option<Core>,
    teller: T,
}

/// Runs the inputs of an event line, one after another.
fn run_inputs<T: Teller, K: Sink>(
    alloc: Global,
    core: &mut Core,
    teller: &mut T,
    number: u64,
    moment: u64,
    inputs: &[Input],
    sink: &mut K,
) -> Result<(), Status>
    ensures same { T.telling teller.new ≡ T.telling teller.old }
    ensures runs { (config : Config) (ps : List Place) → RunsAt T.told core.old teller.old config ps
        → OnOk result
        (RunsAt T.told core.new teller.new config (places_after config ps moment inputs.now)
        × Appends (K.written sink.old) (K.written sink.new)
        (inputs_told (T.telling teller.old).text number config ps moment inputs.now)) }
    ensures part { (config : Config) (ps : List Place) → RunsAt T.told core.old teller.old config ps
        → AppendsPrefix (K.written sink.old) (K.written sink.new)
        (inputs_told (T.telling teller.old).text number config ps moment inputs.now) }
    ensures fault { result ≡ Err Status.WriteFault → Rose (K.faults sink.old) (K.faults sink.new) }
    ensures failure { IfErr result IsFailure }
    ensures faults_stay { K.faults sink.old ≤ K.faults sink.new }
{
    for input in inputs {
        match teller.tell(alloc, core, number, moment, input, sink) {
            Ok(()) => {}
            Err(status) => return Err(status),
        }
    }
    Ok(())
}

impl<T: Teller> Session<T> {
    /// Before the first line, with what tells of the inputs. `random` is for a table that hashes its keys.
    pub fn new(random: RandomState, teller: T) -> Session<T>
        requires { (config : Config) → T.told teller config [] }
        ensures followed { HasFollowed T.told result [] }
        ensures teller { result.teller ≡ teller }
    {
        Session {
            random,
            config: None,
            core: None,
            teller,
        }
    }

    /// The settings that an agent line tells.
    fn settle(&mut self, config: Config)
        ensures teller { self.new.teller ≡ self.old.teller }
        ensures settles { (stage : Stage) (number : ℕ) → IsAt T.told self.old stage
            → IsAt T.told self.new (stage_on stage (line.Agent number config)) }
    {
        if self.core.is_none() {
            self.config = Some(config);
        }
    }

    /// A further client of the settings.
    fn join(&mut self, client: Client) -> Result<(), Status>
        requires { IfSome self.old.config
            (λ config. find_address client.address config.clients ≡ None) }
        ensures teller { self.new.teller ≡ self.old.teller }
        ensures joins { (stage : Stage) (number : ℕ) → IsAt T.told self.old stage
            → OnOk result (IsAt T.told self.new (stage_on stage (line.Client number client))) }
        ensures memory { IfErr result (λ status. status ≡ Status.OutOfMemory) }
    {
        join_client(&mut self.config, client)
    }

    /// Makes the core at the first event.
    fn begin(&mut self, alloc: Global) -> Result<(), Status>
        requires { IfSome self.old.config InLimits }
        ensures teller { self.new.teller ≡ self.old.teller }
        ensures begins { (stage : Stage) → IsAt T.told self.old stage
            → OnOk result (IsAt T.told self.new (begun stage)) }
        ensures memory { IfErr result (λ status. status ≡ Status.OutOfMemory) }
    {
        match self.config.take() {
            None => Ok(()),
            Some(config) => match Core::new(alloc, self.random, config) {
                Ok(core) => {
                    self.core = Some(core);
                    Ok(())
                }
                Err(_) => Err(Status::OutOfMemory),
            },
        }
    }

    /// Runs the inputs of an event line.
    fn run<K: Sink>(
        &mut self,
        alloc: Global,
        number: u64,
        moment: u64,
        inputs: &[Input],
        sink: &mut K,
    ) -> Result<(), Status>
        ensures same { T.telling self.new.teller ≡ T.telling self.old.teller }
        ensures runs { (stage : Stage) → IsAt T.told self.old (begun stage)
            → OnOk result (Follows T.told (T.telling self.old.teller) self.new stage
            (line.Event number moment inputs.now) (K.written sink.old) (K.written sink.new)) }
        ensures part { (stage : Stage) → IsAt T.told self.old (begun stage)
            → AppendsPrefix (K.written sink.old) (K.written sink.new) (line_told
            (T.telling self.old.teller).text stage (line.Event number moment inputs.now)) }
        ensures fault { result ≡ Err Status.WriteFault
            → Rose (K.faults sink.old) (K.faults sink.new) }
        ensures failure { IfErr result IsFailure }
        ensures faults_stay { K.faults sink.old ≤ K.faults sink.new }
    {
        match &mut self.core {
            None => Ok(()),
            Some(core) => run_inputs(alloc, core, &mut self.teller, number, moment, inputs, sink),
        }
    }

    /// Follows a line, and tells of its inputs.
    fn follow_line<K: Sink>(
        &mut self,
        alloc: Global,
        line: Line,
        sink: &mut K,
    ) -> Result<(), Status>
        requires { (stage : Stage) × IsAt T.told self.old stage × CanFollow (told_of stage) line }
        ensures same { T.telling self.new.teller ≡ T.telling self.old.teller }
        ensures follows { (stage : Stage) → IsAt T.told self.old stage
            → OnOk result (Follows T.told (T.telling self.old.teller) self.new stage line
            (K.written sink.old) (K.written sink.new)) }
        ensures part { (stage : Stage) → IsAt T.told self.old stage
            → AppendsPrefix (K.written sink.old) (K.written sink.new)
            (line_told (T.telling self.old.teller).text stage line) }
        ensures fault { result ≡ Err Status.WriteFault
            → Rose (K.faults sink.old) (K.faults sink.new) }
        ensures failure { IfErr result IsFailure }
        ensures faults_stay { K.faults sink.old ≤ K.faults sink.new }
    {
        match line {
            Line::Agent { config, .. } => {
                self.settle(config);
                Ok(())
            }
            Line::Client { client, .. } => self.join(client),
            Line::Event {
                number,
                moment,
                inputs,
            } => {
                self.begin(alloc)?;
                self.run(alloc, number, moment, inputs.as_slice(), sink)
            }
            Line::Control { .. } => self.begin(alloc),
        }
    }
}

impl<T: Teller> Follower for Session<T> {
    ghost rule = { λ session. rule_of (T.telling session.teller) };

    ghost followed = { HasFollowed T.told };

    fn reader(&self, alloc: Global) -> Result<LineReader, NoMemory> {
        LineReader::new(alloc)
    }

    fn follow<K: Sink>(&mut self, alloc: Global, line: Line, sink: &mut K) -> Result<(), Status> {
        self.follow_line(alloc, line, sink)
    }

    fn close<K: Sink>(&self, alloc: Global, sink: &mut K) -> Status {
        self.teller.close(alloc, self.core.as_ref(), sink)
    }

    ghost empty = { λ session. refl };
}
