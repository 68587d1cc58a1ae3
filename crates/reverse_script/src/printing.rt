//! What goes out, as lines.

ghost use Rattle.std.specs.Prelude.{◌≡◌, ◌≤◌, Err, IfErr, IfOk, OnOk};
ghost use Rattle.std.specs.List.{flat_map};
ghost use Rattle.wire_core.specs.Counts.{Rose};
ghost use Rattle.wire_core.specs.Sink.{Appends, AppendsPrefix};
ghost use Rattle.text_commands.specs.Transcripts.{IsFailure};
ghost use Rattle.reverse_script.specs.Printed as printed;
ghost use Rattle.reverse_script.specs.Printed.{output_line};

use agent_status::Status;
use printed_lines::{print_drop, with_hex};
use reverse_core::{ReverseOutput, ReverseReason};
use std::alloc::Global;
use text_commands::write_text;
use wire_core::{NoMemory, Octets, Sink};

fn reason_name(reason: ReverseReason) -> &'static str
    ensures { result.now ≡ printed.reason_name reason }
{
    match reason {
        ReverseReason::NotRequest => "NotRequest",
        ReverseReason::NoIdentity => "NoIdentity",
        ReverseReason::Open => "Open",
        ReverseReason::StrangeReply => "StrangeReply",
    }
}

/// The line of a packet that is sent.
fn send_line(alloc: Global, number: u64, octets: &[u8]) -> Result<Octets, NoMemory>
    ensures { IfOk result (λ o. o ≡ output_line number (ReverseOutput.Send octets.now)) }
{
    with_hex(format!(in alloc; "{number} send ")?, octets)
}

/// The line of an answer.
fn answer_line(alloc: Global, number: u64, octets: &[u8]) -> Result<Octets, NoMemory>
    ensures { IfOk result (λ o. o ≡ output_line number (ReverseOutput.Answer octets.now)) }
{
    with_hex(format!(in alloc; "{number} answer ")?, octets)
}

/// The line of an output of the input on this line.
fn print_output(alloc: Global, number: u64, output: &ReverseOutput) -> Result<Octets, NoMemory>
    ensures { IfOk result (λ o. o ≡ output_line number output.now) }
{
    match output {
        ReverseOutput::Send { octets } => send_line(alloc, number, octets.as_slice()),
        ReverseOutput::Answer { octets } => answer_line(alloc, number, octets.as_slice()),
        ReverseOutput::Dropped { reason } => {
            print_drop(alloc, number, reason.number(), reason_name(*reason))
        }
    }
}

/// Prints the line of an output.
fn write_output<K: Sink>(
    alloc: Global,
    number: u64,
    output: &ReverseOutput,
    sink: &mut K,
) -> Result<(), Status>
    ensures written { OnOk result
        (Appends (K.written sink.old) (K.written sink.new) (output_line number output.now)) }
    ensures part { AppendsPrefix (K.written sink.old) (K.written sink.new)
        (output_line number output.now) }
    ensures fault { result ≡ Err Status.WriteFault → Rose (K.faults sink.old) (K.faults sink.new) }
    ensures failure { IfErr result IsFailure }
    ensures faults_stay { K.faults sink.old ≤ K.faults sink.new }
{
    let Ok(text) = print_output(alloc, number, output) else {
        return Err(Status::OutOfMemory);
    };
    write_text(sink, text.as_slice())
}

/// Prints the lines of these outputs, in order.
pub(crate) fn write_outputs<K: Sink>(
    alloc: Global,
    number: u64,
    outputs: &[ReverseOutput],
    sink: &mut K,
) -> Result<(), Status>
    ensures written { OnOk result
        (Appends (K.written sink.old) (K.written sink.new)
        (flat_map (output_line number) outputs.now)) }
    ensures part { AppendsPrefix (K.written sink.old) (K.written sink.new)
        (flat_map (output_line number) outputs.now) }
    ensures fault { result ≡ Err Status.WriteFault → Rose (K.faults sink.old) (K.faults sink.new) }
    ensures failure { IfErr result IsFailure }
    ensures faults_stay { K.faults sink.old ≤ K.faults sink.new }
{
    for output in outputs {
        match write_output(alloc, number, output, sink) {
            Ok(()) => {}
            Err(status) => return Err(status),
        }
    }
    Ok(())
}
