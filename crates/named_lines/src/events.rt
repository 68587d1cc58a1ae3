//! Inputs and outputs.

ghost use Rattle.std.specs.Prelude.{◌≡◌, ◌++◌, ◌∷◌, [], IfOk, OnOk, codes, decimal};
ghost use Rattle.std.specs.String.{string_bytes};
ghost use Rattle.names.specs.Names.{avp_named};
ghost use Rattle.printed_lines.specs.Text.{fault_name as fault_text, output_line};
ghost use Rattle.agent_events.specs.declared.events.Output.TheVariants.{Closed};
ghost use Rattle.named_lines.specs.NamedText as named;

use crate::headings::{push_message, push_packet};
use agent_events::{Input, Output};
use diameter_message::FrameFault;
use names::find_avp;
use printed_lines::{print, reason_name, via_name};
use radius_packet::{Reason, Via};
use std::alloc::Global;
use wire_core::NoMemory;

/// Appends the octets of this text.
fn push_text(text: &mut Vec<u8>, more: &str) -> Result<(), NoMemory>
    ensures { OnOk result (text.new.items ≡ text.old.items ++ more.now) }
{
    text.extend_from_slice(more.as_bytes())?;
    Ok(())
}

/// Appends the place of a datagram and what it is.
#[tactic(auto, unfolding(wire_core::specs::Numbers::u32))]
fn push_datagram(
    alloc: Global,
    text: &mut Vec<u8>,
    address: u32,
    port: u16,
    octets: &[u8],
) -> Result<(), NoMemory>
    ensures { OnOk result
        (text.new.items ≡ text.old.items ++ named.datagram_lines address port octets.now) }
{
    let [a, b, c, d] = address.to_be_bytes();
    let place = format!(in alloc; "{a}.{b}.{c}.{d}:{port} ")?;
    push_text(text, &place)?;
    push_packet(alloc, text, octets)
}

/// What stands for a fault of the link's stream.
fn fault_line(fault: FrameFault) -> &'static str
    ensures { result.now ≡ codes "link fault " ++ fault_text fault ++ 10 ∷ [] }
{
    match fault {
        FrameFault::BadVersion => "link fault BadVersion\n",
        FrameFault::BadLength => "link fault BadLength\n",
        FrameFault::TooLong => "link fault TooLong\n",
    }
}

/// Appends what an input is.
fn push_input(alloc: Global, text: &mut Vec<u8>, input: &Input) -> Result<(), NoMemory>
    ensures { OnOk result (text.new.items ≡ text.old.items ++ named.input_lines input.now) }
{
    match input {
        Input::Datagram {
            via,
            address,
            port,
            octets,
        } => {
            push_text(text, via_name(*via))?;
            push_text(text, " ")?;
            push_datagram(alloc, text, *address, *port, octets.as_slice())
        }
        Input::Message { octets } => {
            push_text(text, "link ")?;
            push_message(alloc, text, octets.as_slice())
        }
        Input::Broken { fault } => push_text(text, fault_line(*fault)),
        Input::Up => push_text(text, "up\n"),
        Input::Ready => push_text(text, "ready\n"),
        Input::Down => push_text(text, "down\n"),
        Input::Tick => push_text(text, "tick\n"),
        Input::Drain => push_text(text, "drain\n"),
        Input::Leave => push_text(text, "leave\n"),
    }
}

/// Appends the line of an input at its moment, in milliseconds, with the number of its line, and the lines of what stands in
/// it.
pub fn push_event(
    alloc: Global,
    text: &mut Vec<u8>,
    number: u64,
    moment: u64,
    input: &Input,
) -> Result<(), NoMemory>
    ensures { OnOk result
        (text.new.items ≡ text.old.items ++ named.event_lines number moment input.now) }
{
    let start = format!(in alloc; "{number} {moment} ")?;
    push_text(text, &start)?;
    push_input(alloc, text, input)
}

/// The name of the attributes of a type.
fn type_name(alloc: Global, code: u32) -> Result<String, NoMemory>
    ensures { IfOk result (λ name. string_bytes name ≡ named.type_name code (avp_named code)) }
{
    match find_avp(code) {
        Some((name, _)) => Ok(format!(in alloc; "{name}")?),
        None => Ok(format!(in alloc; "Attr-{code}")?),
    }
}

/// Appends why nothing was done.
fn push_reason(alloc: Global, text: &mut Vec<u8>, reason: Reason) -> Result<(), NoMemory>
    ensures { OnOk result (text.new.items ≡ text.old.items ++ named.reason_text reason) }
{
    match reason {
        Reason::BadValue { code } => {
            let name = type_name(alloc, u32::from(code))?;
            push_text(text, "BadValue ")?;
            push_text(text, &name)
        }
        _ => push_text(text, reason_name(reason)),
    }
}

/// Appends the line of an input about which nothing was done.
fn push_drop(alloc: Global, text: &mut Vec<u8>, number: u64, reason: Reason) -> Result<(), NoMemory>
    ensures { OnOk result (text.new.items ≡ text.old.items
        ++ (decimal number ++ codes " drop " ++ named.reason_text reason ++ 10 ∷ [])) }
{
    let start = format!(in alloc; "{number} drop ")?;
    push_text(text, &start)?;
    push_reason(alloc, text, reason)?;
    push_text(text, "\n")
}

/// Appends the line of an output of the input on the line with this number, and the lines of what stands in it.
pub fn push_output(
    alloc: Global,
    text: &mut Vec<u8>,
    number: u64,
    output: &Output,
) -> Result<(), NoMemory>
    ensures { OnOk result
        (text.new.items ≡ text.old.items ++ named.output_lines number output.now) }
{
    match output {
        Output::Reply {
            address,
            port,
            octets,
            ..
        } => {
            let start = format!(in alloc; "{number} reply ")?;
            push_text(text, &start)?;
            push_datagram(alloc, text, *address, *port, octets.as_slice())
        }
        Output::Send { octets } => {
            let start = format!(in alloc; "{number} send ")?;
            push_text(text, &start)?;
            push_message(alloc, text, octets.as_slice())
        }
        Output::Dropped { reason } => push_drop(alloc, text, number, *reason),
        Output::Closed { .. } => {
            let line = print(alloc, number, output)?;
            text.extend_from_slice(line.as_slice())?;
            Ok(())
        }
    }
}
