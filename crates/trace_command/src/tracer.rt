//! A trace of a run.

ghost use Rattle.std.specs.Prelude.{◌≡◌, ◌++◌, IfOk, OnOk};
ghost use Rattle.std.specs.List.{flat_map};
ghost use Rattle.named_lines.specs.NamedText.{event_lines, output_lines};
ghost use Rattle.trace_command.specs.Trace.{HasTold, because, trace_telling};

use crate::causes::{cause_in, push_because};
use agent_core::Core;
use agent_events::{Input, Output};
use agent_status::Status;
use answer_causes::Cause;
use named_lines::{push_event, push_output};
use std::alloc::Global;
use text_commands::write_text;
use transcript_runs::{Teller, answered};
use wire_core::{NoMemory, Sink};

/// Tells of each input in names.
#[derive(Clone, Copy)]
pub struct Tracer {}

/// Appends the lines of outputs.
fn push_outputs(
    alloc: Global,
    text: &mut Vec<u8>,
    number: u64,
    outputs: &[Output],
) -> Result<(), NoMemory>
    ensures { OnOk result
        (text.new.items ≡ text.old.items ++ flat_map (output_lines number) outputs.now) }
{
    for output in outputs {
        push_output(alloc, text, number, output)?;
    }
    Ok(())
}

/// The lines of an input and its outputs, and of the cause where there is one.
fn traced(
    alloc: Global,
    number: u64,
    moment: u64,
    input: &Input,
    outputs: &[Output],
    cause: Option<Cause>,
) -> Result<Vec<u8>, NoMemory>
    ensures { IfOk result (λ text. text.items ≡ event_lines number moment input.now
        ++ flat_map (output_lines number) outputs.now ++ because number cause) }
{
    let mut text = Vec::new(alloc);
    push_event(alloc, &mut text, number, moment, input)?;
    push_outputs(alloc, &mut text, number, outputs)?;
    push_because(alloc, &mut text, number, cause)?;
    Ok(text)
}

impl Teller for Tracer {
    ghost telling = { λ _. trace_telling };

    ghost told = { HasTold };

    fn tell<K: Sink>(
        &mut self,
        alloc: Global,
        core: &mut Core,
        number: u64,
        moment: u64,
        input: &Input,
        sink: &mut K,
    ) -> Result<(), Status> {
        agent_core::past_goes_on();
        let Ok(answered) = answered(alloc, core, moment, input) else {
            return Err(Status::OutOfMemory);
        };
        let cause = cause_in(answered);
        let Ok(outputs) = core.step(alloc, moment, input) else {
            return Err(Status::OutOfMemory);
        };
        match traced(alloc, number, moment, input, outputs.as_slice(), cause) {
            Ok(text) => write_text(sink, text.as_slice()),
            Err(_) => Err(Status::OutOfMemory),
        }
    }

    fn close<K: Sink>(&self, _alloc: Global, _core: Option<&Core>, _sink: &mut K) -> Status {
        Status::Done
    }
}
