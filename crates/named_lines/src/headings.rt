//! Packets and messages, with what stands in them.

ghost use Rattle.std.specs.Prelude.{◌≡◌, ◌++◌, ◌∷◌, IfOk, OnOk, length, option_map, Ok};
ghost use Rattle.std.specs.String.{string_bytes};
ghost use Rattle.radius_packet.specs.Packet.{read_packet};
ghost use Rattle.diameter_message.specs.Message.{read_message};
ghost use Rattle.names.specs.Names.{command_named, packet_named};
ghost use Rattle.named_lines.specs.NamedText as named;

use crate::attribute_lines::push_attributes;
use crate::avp_lines::push_avps;
use diameter_message::command_flags::REQUEST;
use diameter_message::{Header, parse};
use names::{find_command, find_packet};
use printed_lines::{message_fault_line, packet_fault_line, push_digits};
use radius_packet::Packet;
use std::alloc::Global;
use wire_core::NoMemory;

/// How deep groups are looked into that stand in groups.
const DEEPEST: u32 = 8;

/// How many spaces stand before an AVP.
const INDENT: usize = 4;

/// The name of a packet by its code.
#[tactic(auto, unfolding(crate::specs::NamedText::packet_name))]
pub fn packet_name(alloc: Global, code: u8) -> Result<String, NoMemory>
    ensures { IfOk result (λ name. string_bytes name ≡ named.packet_name code (packet_named code)) }
{
    match find_packet(code) {
        Some(name) => Ok(format!(in alloc; "{name}")?),
        None => Ok(format!(in alloc; "Code-{code}")?),
    }
}

/// Appends the name, the identifier and the length of a packet.
fn push_packet_heading(
    alloc: Global,
    text: &mut Vec<u8>,
    packet: &Packet<'_>,
) -> Result<(), NoMemory>
    ensures { OnOk result (text.new.items ≡ text.old.items ++ named.packet_heading packet.now) }
{
    let name = packet_name(alloc, packet.code())?;
    let id = packet.id();
    let length = packet.whole().len();
    let line = format!(in alloc; "{name} {id} ({length})\n")?;
    text.extend_from_slice(line.as_bytes())?;
    Ok(())
}

/// Appends the packet that octets are, with its attributes, or what is wrong with it.
pub(crate) fn push_packet(alloc: Global, text: &mut Vec<u8>, octets: &[u8]) -> Result<(), NoMemory>
    ensures { OnOk result
        (text.new.items ≡ text.old.items ++ named.packet_lines (read_packet octets.now)) }
{
    match Packet::parse(octets) {
        Ok(packet) => {
            push_packet_heading(alloc, text, &packet)?;
            push_attributes(alloc, text, &packet)
        }
        Err(fault) => {
            let line = packet_fault_line(alloc, fault)?;
            text.extend_from_slice(line.as_slice())?;
            Ok(())
        }
    }
}

/// What a command's name ends with.
fn direction(flags: u8) -> &'static str
    ensures { result.now ≡ named.direction flags }
{
    if flags < REQUEST {
        "-Answer"
    } else {
        "-Request"
    }
}

/// The name of a message by its command and its flags.
#[tactic(auto, unfolding(crate::specs::NamedText::command_name))]
pub fn command_name(alloc: Global, command: u32, flags: u8) -> Result<String, NoMemory>
    ensures { IfOk result
        (λ name. string_bytes name ≡ named.command_name command flags (command_named command)) }
{
    match find_command(command) {
        Some(name) => {
            let direction = direction(flags);
            Ok(format!(in alloc; "{name}{direction}")?)
        }
        None => Ok(format!(in alloc; "Command-{command}")?),
    }
}

/// Appends a number of four octets in hex, behind a space.
#[tactic(auto, unfolding(wire_core::specs::Numbers::u32))]
fn push_four_octets(text: &mut Vec<u8>, number: u32) -> Result<(), NoMemory>
    ensures { OnOk result (text.new.items ≡ text.old.items ++ 32 ∷ named.four_octets number) }
{
    text.extend_from_slice(b" 0x")?;
    push_digits(text, &number.to_be_bytes())?;
    Ok(())
}

/// Appends the name, the two numbers and the length of a message.
fn push_message_heading(
    alloc: Global,
    text: &mut Vec<u8>,
    header: Header,
    size: usize,
) -> Result<(), NoMemory>
    ensures { OnOk result (text.new.items ≡ text.old.items ++ named.message_heading header size) }
{
    let name = command_name(alloc, header.command, header.flags)?;
    text.extend_from_slice(name.as_bytes())?;
    push_four_octets(text, header.hop)?;
    push_four_octets(text, header.end)?;
    let rest = format!(in alloc; " ({size})\n")?;
    text.extend_from_slice(rest.as_bytes())?;
    Ok(())
}

/// Appends the message that octets are, with its AVPs, or what is wrong with it.
pub(crate) fn push_message(alloc: Global, text: &mut Vec<u8>, octets: &[u8]) -> Result<(), NoMemory>
    ensures { OnOk result (text.new.items
        ≡ text.old.items ++ named.message_lines (length octets.now) (read_message octets.now)) }
{
    match parse(octets) {
        Ok(message) => {
            push_message_heading(alloc, text, message.header, octets.len())?;
            push_avps(alloc, text, DEEPEST, INDENT, message.avps)
        }
        Err(fault) => {
            let line = message_fault_line(alloc, fault)?;
            text.extend_from_slice(line.as_slice())?;
            Ok(())
        }
    }
}
