//! A replay: what goes out is printed, and counted.

ghost use Rattle.std.specs.Prelude.{◌≡◌, ◌≤◌, [], Err, IfErr, OnOk, count_by};
ghost use Rattle.std.specs.List.{flat_map};
ghost use Rattle.wire_core.specs.Counts.{Rose};
ghost use Rattle.wire_core.specs.Sink.{Appends, AppendsPrefix};
ghost use Rattle.printed_lines.specs.Text.{output_line, is_reply as reply_test, is_send as send_test, is_drop as drop_test};
ghost use Rattle.text_commands.specs.Transcripts.{IsFailure};
ghost use Rattle.replay_command.specs.Counted.{AreCounted, counted, counts_of};
ghost use Rattle.replay_command.specs.Run.{replay_telling};

use agent_core::Core;
use agent_events::{Input, Output};
use agent_status::Status;
use printed_lines::{print, print_end};
use std::alloc::Global;
use transcript_runs::Teller;
use wire_core::{Put, Sink};

/// How many lines of each kind were printed. A count stands still at its end.
#[derive(Clone, Copy, PartialEq, Eq)]
pub struct Counts {
    pub(crate) replies: u64,
    pub(crate) sends: u64,
    pub(crate) drops: u64,
}

fn is_reply(output: &Output) -> bool
    ensures { result ≡ reply_test output.now }
{
    matches!(output, Output::Reply { .. })
}

fn is_send(output: &Output) -> bool
    ensures { result ≡ send_test output.now }
{
    matches!(output, Output::Send { .. })
}

fn is_drop(output: &Output) -> bool
    ensures { result ≡ drop_test output.now }
{
    matches!(output, Output::Dropped { .. })
}

fn count_replies(outputs: &[Output]) -> u64
    ensures { result ≡ count_by reply_test outputs.now }
{
    outputs.iter().filter(|o| is_reply(o)).count() as u64
}

fn count_sends(outputs: &[Output]) -> u64
    ensures { result ≡ count_by send_test outputs.now }
{
    outputs.iter().filter(|o| is_send(o)).count() as u64
}

fn count_drops(outputs: &[Output]) -> u64
    ensures { result ≡ count_by drop_test outputs.now }
{
    outputs.iter().filter(|o| is_drop(o)).count() as u64
}

impl Counts {
    /// Counts these outputs too.
    fn add(&mut self, outputs: &[Output])
        ensures { self.new ≡ counted self.old outputs.now }
    {
        self.replies = self.replies.saturating_add(count_replies(outputs));
        self.sends = self.sends.saturating_add(count_sends(outputs));
        self.drops = self.drops.saturating_add(count_drops(outputs));
    }
}

/// Prints the line of an output.
fn write_output<K: Sink>(
    alloc: Global,
    number: u64,
    output: &Output,
    sink: &mut K,
) -> Result<(), Status>
    ensures written { OnOk result
        (Appends (K.written sink.old) (K.written sink.new) (output_line number output.now)) }
    ensures part { AppendsPrefix (K.written sink.old) (K.written sink.new)
        (output_line number output.now) }
    ensures fault { result ≡ Err Status.WriteFault → Rose (K.faults sink.old) (K.faults sink.new) }
    ensures failure { IfErr result IsFailure }
    ensures faults_stay { K.faults sink.old ≤ K.faults sink.new }
{
    let Ok(text) = print(alloc, number, output) else {
        return Err(Status::OutOfMemory);
    };
    match sink.write(text.as_slice()) {
        Put::Done => Ok(()),
        Put::Failed => Err(Status::WriteFault),
    }
}

/// Prints the lines of these outputs, in order.
fn write_outputs<K: Sink>(
    alloc: Global,
    number: u64,
    outputs: &[Output],
    sink: &mut K,
) -> Result<(), Status>
    ensures written { OnOk result
        (Appends (K.written sink.old) (K.written sink.new)
        (flat_map (output_line number) outputs.now)) }
    ensures part { AppendsPrefix (K.written sink.old) (K.written sink.new)
        (flat_map (output_line number) outputs.now) }
    ensures fault { result ≡ Err Status.WriteFault → Rose (K.faults sink.old) (K.faults sink.new) }
    ensures failure { IfErr result IsFailure }
    ensures faults_stay { K.faults sink.old ≤ K.faults sink.new }
{
    for output in outputs {
        match write_output(alloc, number, output, sink) {
            Ok(()) => {}
            Err(status) => return Err(status),
        }
    }
    Ok(())
}

impl Counts {
    /// Before the first line.
    pub(crate) fn none() -> Counts
        ensures { result ≡ counts_of [] }
    {
        Counts {
            replies: 0,
            sends: 0,
            drops: 0,
        }
    }
}

impl Teller for Counts {
    ghost telling = { λ _. replay_telling };

    ghost told = { AreCounted };

    fn tell<K: Sink>(
        &mut self,
        alloc: Global,
        core: &mut Core,
        number: u64,
        moment: u64,
        input: &Input,
        sink: &mut K,
    ) -> Result<(), Status> {
        agent_core::past_goes_on();
        let Ok(outputs) = core.step(alloc, moment, input) else {
            return Err(Status::OutOfMemory);
        };
        let outputs = outputs.as_slice();
        match write_outputs(alloc, number, outputs, sink) {
            Ok(()) => {
                self.add(outputs);
                Ok(())
            }
            Err(status) => Err(status),
        }
    }

    fn close<K: Sink>(&self, alloc: Global, _core: Option<&Core>, sink: &mut K) -> Status {
        let Ok(text) = print_end(alloc, self.replies, self.sends, self.drops) else {
            return Status::OutOfMemory;
        };
        match sink.write(text.as_slice()) {
            Put::Done => Status::Done,
            Put::Failed => Status::WriteFault,
        }
    }
}
