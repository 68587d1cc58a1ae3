//! The lines of what comes in.

ghost use Rattle.std.specs.Prelude.{◌≡◌, ◌∷◌, [], codes, decimal, IfOk};
ghost use Rattle.printed_lines.specs.EventText as events;
ghost use Rattle.printed_lines.specs.Text as text;

use crate::printing::{via_name, with_hex};
use agent_events::Input;
use diameter_message::FrameFault;
use radius_packet::Via;
use std::alloc::Global;
use wire_core::{NoMemory, Octets};

/// The line of an input that has no more words than its name.
fn name_line(alloc: Global, moment: u64, name: &str) -> Result<Octets, NoMemory>
    ensures { IfOk result (λ o. o ≡ text.line_text (decimal moment ∷ name.now ∷ [])) }
{
    let text = format!(in alloc; "{moment} {name}\n")?;
    Ok(Octets::from_vec(text.into_bytes()))
}

/// The line of octets of the link.
fn link_line(alloc: Global, moment: u64, octets: &[u8]) -> Result<Octets, NoMemory>
    ensures { IfOk result
        (λ o. o ≡ text.line_text (decimal moment ∷ codes "link" ∷ text.hex_text octets.now ∷ [])) }
{
    with_hex(format!(in alloc; "{moment} link ")?, octets)
}

/// The line of a datagram.
#[tactic(auto, unfolding(wire_core::specs::Numbers::u32))]
fn datagram_line(
    alloc: Global,
    moment: u64,
    via: Via,
    address: u32,
    port: u16,
    octets: &[u8],
) -> Result<Octets, NoMemory>
    ensures { IfOk result (λ o. o ≡ text.line_text
        (decimal moment ∷ text.via_name via ∷ text.address_text address ∷ decimal port
        ∷ text.hex_text octets.now ∷ [])) }
{
    let via = via_name(via);
    let [a, b, c, d] = address.to_be_bytes();
    with_hex(
        format!(in alloc; "{moment} {via} {a}.{b}.{c}.{d} {port} ")?,
        octets,
    )
}

/// Octets that show this fault where a message should begin.
fn fault_octets(fault: FrameFault) -> &'static [u8]
    ensures { result.now ≡ events.fault_octets fault }
{
    match fault {
        FrameFault::BadVersion => b"\x02",
        FrameFault::BadLength => b"\x01\x00\x00\x01",
        FrameFault::TooLong => b"\x01\x01\x00\x04",
    }
}

/// The line of an input at its moment, in milliseconds, as a transcript has it.
pub fn print_event(alloc: Global, moment: u64, input: &Input) -> Result<Octets, NoMemory>
    ensures { IfOk result (λ o. o ≡ events.event_line moment input.now) }
{
    match input {
        Input::Datagram {
            via,
            address,
            port,
            octets,
        } => datagram_line(alloc, moment, *via, *address, *port, octets.as_slice()),
        Input::Up => name_line(alloc, moment, "up"),
        Input::Ready => name_line(alloc, moment, "ready"),
        Input::Message { octets } => link_line(alloc, moment, octets.as_slice()),
        Input::Broken { fault } => link_line(alloc, moment, fault_octets(*fault)),
        Input::Down => name_line(alloc, moment, "down"),
        Input::Tick => name_line(alloc, moment, "tick"),
        Input::Drain => name_line(alloc, moment, "drain"),
        Input::Leave => name_line(alloc, moment, "leave"),
    }
}
