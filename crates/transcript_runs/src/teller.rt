//! What tells of the inputs of a run.

ghost use Rattle.std.specs.Prelude.{◌≡◌, ◌≤◌, List, Err, IfErr, OnOk, option_copied};
ghost use Rattle.wire_core.specs.Counts.{Rose};
ghost use Rattle.wire_core.specs.Sink.{AppendsPrefix};
ghost use Rattle.agent_settings.specs.declared.config.Config.{Config};
ghost use Rattle.agent_core.specs.Places.{Place};
ghost use Rattle.text_commands.specs.Tasks.{ClosesWith};
ghost use Rattle.text_commands.specs.Transcripts.{IsFailure};
ghost use Rattle.transcript_runs.specs.Runs.{Stage, Telling, event_at};
ghost use Rattle.transcript_runs.specs.Sessions.{IsTold, RunsAt, RunsOn};

use agent_core::Core;
use agent_events::Input;
use agent_status::Status;
use std::alloc::Global;
use wire_core::Sink;

/// Runs the inputs of a transcript, one after another, and tells of each.
pub trait Teller {
    /// What it tells of each event, and behind all of them.
    ghost telling: { Self → Telling };

    /// It has told of these places.
    ghost told: { Self → Config → List Place → Type 0 };

    /// Runs an input, and tells of it.
    fn tell<K: Sink>(
        &mut self,
        alloc: Global,
        core: &mut Core,
        number: u64,
        moment: u64,
        input: &Input,
        sink: &mut K,
    ) -> Result<(), Status>
        ensures same { telling self.new ≡ telling self.old }
        ensures runs { (config : Config) (ps : List Place) → RunsAt told core.old self.old config ps
            → OnOk result (RunsOn told (telling self.old) core.new self.new config ps number
            (event_at moment input.now) (K.written sink.old) (K.written sink.new)) }
        ensures part { (config : Config) (ps : List Place) → RunsAt told core.old self.old config ps
            → AppendsPrefix (K.written sink.old) (K.written sink.new)
            ((telling self.old).text number config ps (event_at moment input.now)) }
        ensures fault { result ≡ Err Status.WriteFault
            → Rose (K.faults sink.old) (K.faults sink.new) }
        ensures failure { IfErr result IsFailure }
        ensures faults_stay { K.faults sink.old ≤ K.faults sink.new };

    /// Tells what stands behind all inputs, which made this of the core, where an event came.
    fn close<K: Sink>(&self, alloc: Global, core: Option<&Core>, sink: &mut K) -> Status
        ensures closes { (stage : Stage) → IsTold told (option_copied core.entry) self.now stage
            → ClosesWith result ((telling self.now).end stage) (K.written sink.old)
            (K.written sink.new) }
        ensures fault { result ≡ Status.WriteFault → Rose (K.faults sink.old) (K.faults sink.new) }
        ensures faults_stay { K.faults sink.old ≤ K.faults sink.new };
}
