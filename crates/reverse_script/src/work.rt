//! What the lines of a script make of the core.

ghost use Rattle.std.specs.Prelude.{◌≡◌, ◌≤◌, [], List, Err, IfErr, IsTrue, OnOk};
ghost use Rattle.std.specs.List.{flat_map};
ghost use Rattle.wire_core.specs.Counts.{Rose, one_more};
ghost use Rattle.wire_core.specs.Sink.{Appends, AppendsPrefix};
ghost use Rattle.text_commands.specs.Transcripts.{IsFailure};
ghost use Rattle.reverse_map.specs.declared.own.Reverse.{Reverse as OwnParts};
ghost use Rattle.reverse_core.specs.Places.{ReversePlace};
ghost use Rattle.reverse_core.specs.History.{place};
ghost use Rattle.reverse_script.specs.Script.{Tells, is_own_in_limits};
ghost use Rattle.reverse_script.specs.Printed.{Stage, output_line, reverse_task, stage_on, text_on};
ghost use Rattle.reverse_script.specs.Running.{IsInLimits, IsStage, RunsAt, RunsOn, Took, event_at, said_of, bad_line_status};

use crate::counts::Counts;
use crate::line::{ScriptFault, ScriptLine, read_line};
use crate::printing::write_outputs;
use agent_status::Status;
use printed_lines::print_end;
use reverse_core::{ReverseCore, ReverseInput};
use reverse_map::Reverse;
use std::alloc::Global;
use text_commands::Work;
use text_lines::LONGEST_LINE;
use wire_core::{Put, Sink};

/// What the lines so far made: the core once settings were told, and how many lines and outputs there were.
#[derive(Drop)]
pub(crate) struct ReverseWork {
    lines: u64,
    core: Option<ReverseCore>,
    counts: Counts,
}

/// Runs an input and prints what goes out for it.
fn run_input<K: Sink>(
    alloc: Global,
    core: &mut ReverseCore,
    counts: &mut Counts,
    number: u64,
    moment: u64,
    input: &ReverseInput,
    sink: &mut K,
) -> Result<(), Status>
    ensures runs { (own : OwnParts) (ps : List ReversePlace) → RunsAt core.old counts.old own ps
        → OnOk result (RunsOn core.new counts.new own ps number (event_at moment input.now)
        (K.written sink.old) (K.written sink.new)) }
    ensures part { (own : OwnParts) (ps : List ReversePlace) → RunsAt core.old counts.old own ps
        → AppendsPrefix (K.written sink.old) (K.written sink.new)
        (flat_map (output_line number) (place own ps (event_at moment input.now)).outputs) }
    ensures fault { result ≡ Err Status.WriteFault → Rose (K.faults sink.old) (K.faults sink.new) }
    ensures failure { IfErr result IsFailure }
    ensures faults_stay { K.faults sink.old ≤ K.faults sink.new }
{
    let Ok(outputs) = core.step(alloc, moment, input) else {
        return Err(Status::OutOfMemory);
    };
    let outputs = outputs.as_slice();
    match write_outputs(alloc, number, outputs, sink) {
        Ok(()) => {
            counts.add(outputs);
            Ok(())
        }
        Err(status) => Err(status),
    }
}

impl ReverseWork {
    /// Before the first line.
    pub(crate) fn new() -> ReverseWork
        ensures { Took result [] }
    {
        ReverseWork {
            lines: 0,
            core: None,
            counts: Counts {
                sends: 0,
                answers: 0,
                drops: 0,
            },
        }
    }

    /// Makes the core that goes by these settings, which come once.
    fn begin(&mut self, alloc: Global, own: Reverse) -> Result<(), Status>
        requires { IsTrue (is_own_in_limits own) }
        ensures begins { (stage : Stage) → IsStage self.old.core self.old.counts stage
            → OnOk result (IsStage self.new.core self.new.counts (stage_on stage (Tells own))) }
        ensures lines { self.new.lines ≡ self.old.lines }
        ensures memory { IfErr result (λ status. status ≡ Status.OutOfMemory) }
    {
        if self.core.is_some() {
            return Ok(());
        }
        match ReverseCore::new(alloc, own) {
            Ok(core) => {
                self.core = Some(core);
                Ok(())
            }
            Err(_) => Err(Status::OutOfMemory),
        }
    }

    /// Follows what a line says, and prints what it gives.
    fn follow<K: Sink>(
        &mut self,
        alloc: Global,
        number: u64,
        said: ScriptLine,
        sink: &mut K,
    ) -> Result<(), Status>
        requires { IsInLimits said }
        ensures follows { (stage : Stage) → IsStage self.old.core self.old.counts stage
            → OnOk result (IsStage self.new.core self.new.counts (stage_on stage (said_of said))) }
        ensures written { (stage : Stage) → IsStage self.old.core self.old.counts stage
            → OnOk result (Appends (K.written sink.old) (K.written sink.new)
            (text_on number stage (said_of said))) }
        ensures part { (stage : Stage) → IsStage self.old.core self.old.counts stage
            → AppendsPrefix (K.written sink.old) (K.written sink.new)
            (text_on number stage (said_of said)) }
        ensures lines { self.new.lines ≡ self.old.lines }
        ensures fault { result ≡ Err Status.WriteFault
            → Rose (K.faults sink.old) (K.faults sink.new) }
        ensures failure { IfErr result IsFailure }
        ensures faults_stay { K.faults sink.old ≤ K.faults sink.new }
    {
        match said {
            ScriptLine::Own { own } => self.begin(alloc, own),
            ScriptLine::Event { moment, input } => match &mut self.core {
                None => Ok(()),
                Some(core) => run_input(
                    alloc,
                    core,
                    &mut self.counts,
                    number,
                    moment,
                    &input,
                    sink,
                ),
            },
        }
    }
}

/// How the command ends at the line of this number, which can't be read.
fn fault_status(number: u64, fault: ScriptFault) -> Status
    ensures { result ≡ bad_line_status number fault }
{
    match fault {
        ScriptFault::Bad { reason } => Status::BadTranscript {
            line: number,
            reason,
        },
        ScriptFault::NoMemory => Status::OutOfMemory,
    }
}

/// The number of the line after so many. A count stands still at its end.
fn number_after(lines: u64) -> u64
    ensures { result ≡ one_more lines }
{
    lines.saturating_add(1)
}

impl Work for ReverseWork {
    ghost task = { λ _. reverse_task };

    ghost took = { Took };

    fn take<K: Sink>(&mut self, alloc: Global, line: &[u8], sink: &mut K) -> Result<(), Status> {
        let number = number_after(self.lines);
        let said = match read_line(alloc, self.core.is_some(), line) {
            Ok(said) => said,
            Err(fault) => return Err(fault_status(number, fault)),
        };
        match self.follow(alloc, number, said, sink) {
            Ok(()) => {
                self.lines = number;
                Ok(())
            }
            Err(status) => Err(status),
        }
    }

    fn close<K: Sink>(&self, alloc: Global, sink: &mut K) -> Status {
        let Counts {
            sends,
            answers,
            drops,
        } = self.counts;
        let Ok(text) = print_end(alloc, sends, answers, drops) else {
            return Status::OutOfMemory;
        };
        match sink.write(text.as_slice()) {
            Put::Done => Status::Done,
            Put::Failed => Status::WriteFault,
        }
    }

    fn longest_line(&self) -> usize {
        LONGEST_LINE
    }

    fn too_long(&self) -> Status {
        Status::BadTranscript {
            line: number_after(self.lines),
            reason: 1,
        }
    }

    fn is_task(&self) {}
}
