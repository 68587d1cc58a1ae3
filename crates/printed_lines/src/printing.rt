//! Output lines.

ghost use Rattle.std.specs.Prelude.{◌≡◌, ◌∷◌, [], ◌++◌, codes, decimal, IfOk, OnOk};
ghost use Rattle.std.specs.String.{string_bytes};
ghost use Rattle.hex.specs.Hex.{encode_lower};
ghost use Rattle.agent_events.specs.declared.events.Output.TheVariants.{Dropped, Closed};
ghost use Rattle.printed_lines.specs.Text as text;

use agent_events::Output;
use diameter_message::FrameFault;
use peer_machine::LinkCause;
use radius_packet::{Reason, Via};
use std::alloc::{AllocError, Global};
use wire_core::{NoMemory, Octets};

const DIGITS: &[u8; 16] = b"0123456789abcdef";

/// Appends octets in hex: two digits in lower case for each. An `Err` is want of memory, after which some of them may
/// stand there.
#[tactic(auto, unfolding(hex::specs::Hex::encode_with))]
pub fn push_digits(text: &mut Vec<u8>, octets: &[u8]) -> Result<(), AllocError>
    ensures { OnOk result (text.new.items ≡ text.old.items ++ encode_lower octets.now) }
{
    for octet in octets {
        text.push(DIGITS[usize::from(*octet / 16)])?;
        text.push(DIGITS[usize::from(*octet % 16)])?;
    }
    Ok(())
}

/// A line that begins so and whose last word is octets in hex, or `-` for none.
pub fn with_hex(start: String, octets: &[u8]) -> Result<Octets, NoMemory>
    ensures { IfOk result (λ o. o ≡ string_bytes start ++ text.hex_text octets.now ++ 10 ∷ []) }
{
    let mut text = start.into_bytes();
    text.reserve(octets.len().saturating_mul(2).saturating_add(2))?;
    if octets.is_empty() {
        text.push(b'-')?;
    } else {
        push_digits(&mut text, octets)?;
    }
    text.push(b'\n')?;
    Ok(Octets::from_vec(text))
}

/// The line of a message that was sent.
fn send_line(alloc: Global, line: u64, octets: &[u8]) -> Result<Octets, NoMemory>
    ensures { IfOk result
        (λ o. o ≡ text.line_text (decimal line ∷ codes "send" ∷ text.hex_text octets.now ∷ [])) }
{
    with_hex(format!(in alloc; "{line} send ")?, octets)
}

/// The name of a port.
pub fn via_name(via: Via) -> &'static str
    ensures { result.now ≡ text.via_name via }
{
    match via {
        Via::Auth => "auth",
        Via::Acct => "acct",
    }
}

/// The line of a reply.
#[tactic(auto, unfolding(wire_core::specs::Numbers::u32))]
fn reply_line(
    alloc: Global,
    line: u64,
    via: Via,
    address: u32,
    port: u16,
    octets: &[u8],
) -> Result<Octets, NoMemory>
    ensures { IfOk result (λ o. o ≡ text.line_text
        (decimal line ∷ codes "reply" ∷ text.via_name via ∷ text.address_text address ∷ decimal port
        ∷ text.hex_text octets.now ∷ [])) }
{
    let via = via_name(via);
    let [a, b, c, d] = address.to_be_bytes();
    with_hex(
        format!(in alloc; "{line} reply {via} {a}.{b}.{c}.{d} {port} ")?,
        octets,
    )
}

/// The name of a reason, without what stands behind it.
pub fn reason_name(reason: Reason) -> &'static str
    ensures { result.now ≡ text.reason_name reason }
{
    match reason {
        Reason::UnknownClient => "UnknownClient",
        Reason::Short => "Short",
        Reason::BadLength => "BadLength",
        Reason::BadCode => "BadCode",
        Reason::BadAttribute => "BadAttribute",
        Reason::BadAuthenticator => "BadAuthenticator",
        Reason::NoSeal => "NoSeal",
        Reason::BadSeal => "BadSeal",
        Reason::NasAddress => "NasAddress",
        Reason::BothPasswords => "BothPasswords",
        Reason::BadPassword => "BadPassword",
        Reason::NoStatus => "NoStatus",
        Reason::OnOff => "OnOff",
        Reason::KeyAttribute => "KeyAttribute",
        Reason::BadValue { code: _ } => "BadValue",
        Reason::ProxyStateTooLong => "ProxyStateTooLong",
        Reason::Waiting => "Waiting",
        Reason::Silent => "Silent",
        Reason::LinkDown => "LinkDown",
        Reason::Spent => "Spent",
        Reason::Full => "Full",
        Reason::Backlog => "Backlog",
        Reason::BadMessage => "BadMessage",
        Reason::WrongPhase => "WrongPhase",
        Reason::Unmatched => "Unmatched",
    }
}

/// The line of an input about which nothing was done.
fn dropped_line(alloc: Global, line: u64, reason: Reason) -> Result<Octets, NoMemory>
    ensures { IfOk result (λ o. o ≡ text.output_line line (Dropped reason)) }
{
    let number = reason.number();
    let name = reason_name(reason);
    match reason {
        Reason::BadValue { code } => {
            let text = format!(in alloc; "{line} drop {number} {name} {code}\n")?;
            Ok(Octets::from_vec(text.into_bytes()))
        }
        _ => print_drop(alloc, line, number, name),
    }
}

/// The line of a drop, by its number and its name.
pub fn print_drop(alloc: Global, line: u64, number: u32, name: &str) -> Result<Octets, NoMemory>
    ensures { IfOk result (λ o. o ≡ text.drop_line line number name.now) }
{
    let text = format!(in alloc; "{line} drop {number} {name}\n")?;
    Ok(Octets::from_vec(text.into_bytes()))
}

fn fault_name(fault: FrameFault) -> &'static str
    ensures { result.now ≡ text.fault_name fault }
{
    match fault {
        FrameFault::BadVersion => "BadVersion",
        FrameFault::BadLength => "BadLength",
        FrameFault::TooLong => "TooLong",
    }
}

/// The name of a cause, without what stands behind it.
pub fn close_name(cause: LinkCause) -> &'static str
    ensures { result.now ≡ text.close_name cause }
{
    match cause {
        LinkCause::Refused { .. } => "Refused",
        LinkCause::PeerLeft { .. } => "PeerLeft",
        LinkCause::Broken { .. } => "Broken",
        LinkCause::Ended => "Ended",
        LinkCause::Watchdog => "Watchdog",
        LinkCause::Stalled => "Stalled",
        LinkCause::Left => "Left",
    }
}

/// The line of a link that was closed, with its cause's name alone.
fn name_line(alloc: Global, line: u64, name: &str) -> Result<Octets, NoMemory>
    ensures { IfOk result (λ o. o ≡ text.line_text (decimal line ∷ codes "close" ∷ name.now ∷ [])) }
{
    let text = format!(in alloc; "{line} close {name}\n")?;
    Ok(Octets::from_vec(text.into_bytes()))
}

/// The line of a link that was closed, with its cause's name and code.
fn code_line(alloc: Global, line: u64, name: &str, code: u32) -> Result<Octets, NoMemory>
    ensures { IfOk result
        (λ o. o ≡ text.line_text (decimal line ∷ codes "close" ∷ name.now ∷ decimal code ∷ [])) }
{
    let text = format!(in alloc; "{line} close {name} {code}\n")?;
    Ok(Octets::from_vec(text.into_bytes()))
}

/// The line of a link that was closed, with its cause's name and its fault's.
fn fault_line(alloc: Global, line: u64, name: &str, fault: &str) -> Result<Octets, NoMemory>
    ensures { IfOk result
        (λ o. o ≡ text.line_text (decimal line ∷ codes "close" ∷ name.now ∷ fault.now ∷ [])) }
{
    let text = format!(in alloc; "{line} close {name} {fault}\n")?;
    Ok(Octets::from_vec(text.into_bytes()))
}

/// The line of a link that was closed.
fn close_line(alloc: Global, line: u64, cause: LinkCause) -> Result<Octets, NoMemory>
    ensures { IfOk result (λ o. o ≡ text.output_line line (Closed cause)) }
{
    let name = close_name(cause);
    match cause {
        LinkCause::Refused { result: code } => code_line(alloc, line, name, code),
        LinkCause::PeerLeft { cause: code } => code_line(alloc, line, name, code),
        LinkCause::Broken { fault } => fault_line(alloc, line, name, fault_name(fault)),
        _ => name_line(alloc, line, name),
    }
}

/// The line of an output of the input on this line.
pub fn print(alloc: Global, line: u64, output: &Output) -> Result<Octets, NoMemory>
    ensures { IfOk result (λ o. o ≡ text.output_line line output.now) }
{
    match output {
        Output::Reply {
            via,
            address,
            port,
            octets,
        } => reply_line(alloc, line, *via, *address, *port, octets.as_slice()),
        Output::Send { octets } => send_line(alloc, line, octets.as_slice()),
        Output::Dropped { reason } => dropped_line(alloc, line, *reason),
        Output::Closed { cause } => close_line(alloc, line, *cause),
    }
}

/// The line of a packet that goes out to an access server, to this address and port, beside the agent.
#[tactic(auto, unfolding(wire_core::specs::Numbers::u32))]
pub fn print_control(
    alloc: Global,
    line: u64,
    address: u32,
    port: u16,
    octets: &[u8],
) -> Result<Octets, NoMemory>
    ensures { IfOk result (λ o. o ≡ text.control_line line address port octets.now) }
{
    let [a, b, c, d] = address.to_be_bytes();
    with_hex(
        format!(in alloc; "{line} control {a}.{b}.{c}.{d} {port} ")?,
        octets,
    )
}

/// The last line: how many reply, send and drop lines there were.
pub fn print_end(alloc: Global, replies: u64, sends: u64, drops: u64) -> Result<Octets, NoMemory>
    ensures { IfOk result (λ o. o ≡ text.end_line replies sends drops) }
{
    let text = format!(in alloc; "end {replies} {sends} {drops}\n")?;
    Ok(Octets::from_vec(text.into_bytes()))
}

/// The last line where control lines were printed too: how many reply, send, drop and control lines there were.
pub fn print_end_with_controls(
    alloc: Global,
    replies: u64,
    sends: u64,
    drops: u64,
    controls: u64,
) -> Result<Octets, NoMemory>
    ensures { IfOk result (λ o. o ≡ text.end_line_with_controls replies sends drops controls) }
{
    let text = format!(in alloc; "end {replies} {sends} {drops} {controls}\n")?;
    Ok(Octets::from_vec(text.into_bytes()))
}
