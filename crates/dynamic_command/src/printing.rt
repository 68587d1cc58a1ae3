//! What goes out of the book and the core beside it, as lines.

ghost use Rattle.std.specs.Prelude.{◌≡◌, ◌≤◌, Err, IfErr, IfOk, OnOk};
ghost use Rattle.std.specs.List.{flat_map};
ghost use Rattle.wire_core.specs.Counts.{Rose};
ghost use Rattle.wire_core.specs.Sink.{Appends, AppendsPrefix};
ghost use Rattle.dynamic_command.specs.Dynamic.{book_line};
ghost use Rattle.dynamic_command.specs.Dynamic as lines;
ghost use Rattle.text_commands.specs.Transcripts.{IsFailure};

use agent_status::Status;
use printed_lines::{print, print_control, print_drop};
use session_book::{BookOutput, BookReason};
use std::alloc::Global;
use text_commands::write_text;
use wire_core::{NoMemory, Octets, Sink};

fn reason_name(reason: BookReason) -> &'static str
    ensures { result.now ≡ lines.reason_name reason }
{
    match reason {
        BookReason::AbortOpen => "AbortOpen",
        BookReason::StrangeControl => "StrangeControl",
    }
}

/// The line of an output of the input on this line.
fn print_output(alloc: Global, number: u64, output: &BookOutput) -> Result<Octets, NoMemory>
    ensures { IfOk result (λ o. o ≡ book_line number output.now) }
{
    match output {
        BookOutput::Core { output } => print(alloc, number, output),
        BookOutput::Control {
            address,
            port,
            octets,
        } => print_control(alloc, number, *address, *port, octets.as_slice()),
        BookOutput::Dropped { reason } => {
            print_drop(alloc, number, reason.number(), reason_name(*reason))
        }
    }
}

/// Prints the line of an output.
fn write_output<K: Sink>(
    alloc: Global,
    number: u64,
    output: &BookOutput,
    sink: &mut K,
) -> Result<(), Status>
    ensures written { OnOk result
        (Appends (K.written sink.old) (K.written sink.new) (book_line number output.now)) }
    ensures part { AppendsPrefix (K.written sink.old) (K.written sink.new)
        (book_line number output.now) }
    ensures fault { result ≡ Err Status.WriteFault → Rose (K.faults sink.old) (K.faults sink.new) }
    ensures failure { IfErr result IsFailure }
    ensures faults_stay { K.faults sink.old ≤ K.faults sink.new }
{
    let Ok(text) = print_output(alloc, number, output) else {
        return Err(Status::OutOfMemory);
    };
    write_text(sink, text.as_slice())
}

/// Prints the lines of these outputs, in order.
pub(crate) fn write_outputs<K: Sink>(
    alloc: Global,
    number: u64,
    outputs: &[BookOutput],
    sink: &mut K,
) -> Result<(), Status>
    ensures written { OnOk result
        (Appends (K.written sink.old) (K.written sink.new)
        (flat_map (book_line number) outputs.now)) }
    ensures part { AppendsPrefix (K.written sink.old) (K.written sink.new)
        (flat_map (book_line number) outputs.now) }
    ensures fault { result ≡ Err Status.WriteFault → Rose (K.faults sink.old) (K.faults sink.new) }
    ensures failure { IfErr result IsFailure }
    ensures faults_stay { K.faults sink.old ≤ K.faults sink.new }
{
    for output in outputs {
        match write_output(alloc, number, output, sink) {
            Ok(()) => {}
            Err(status) => return Err(status),
        }
    }
    Ok(())
}
