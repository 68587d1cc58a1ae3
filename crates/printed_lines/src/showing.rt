//! What is shown of a packet or a message that a line has in hex.

ghost use Rattle.std.specs.Prelude.{◌≡◌, [], ◌∷◌, decimal, Ok, Err, IfOk};
ghost use Rattle.radius_packet.specs.Packet.{read_packet};
ghost use Rattle.radius_packet.specs.Views.{attribute_view};
ghost use Rattle.diameter_avp.specs.View.{avp_view, item_view};
ghost use Rattle.diameter_message.specs.Message.{read_message};
ghost use Rattle.diameter_message.specs.View.{message_view};
ghost use Rattle.printed_lines.specs.Show as show;
ghost use Rattle.text_lines.specs.Views.{plain};

use crate::printing::with_hex;
use diameter_avp::{Avp, AvpFault, avps};
use diameter_message::{Header, Message, MessageFault, parse};
use radius_packet::{Attribute, Packet, PacketFault};
use std::alloc::Global;
use text_lines::words::{read_hex, words_of};
use text_lines::{LONGEST_LINE, WordFault};
use wire_core::{NoMemory, Octets};

/// What the octets of a line are.
#[derive(Clone, Copy)]
enum Protocol {
    /// A packet.
    Radius,
    /// A message.
    Diameter,
}

/// Why nothing is shown of a line.
#[derive(Clone, Copy, Debug, PartialEq, Eq)]
pub enum ShowFault {
    /// The first reason that stands: 1, the line has more than 140,000 octets; 2, it hasn't two words, or the first is
    /// neither `radius` nor `diameter`; 3, the second isn't octets in hex.
    Bad { reason: u32 },
    NoMemory,
}

impl From<NoMemory> for ShowFault {
    ghost use Rattle.std.specs.Prelude.{◌≡◌};
    ghost use Rattle.printed_lines.specs.declared.showing.ShowFault.TheVariants as faults;

    ghost from_gives = { λ _ e. e ≡ faults.NoMemory };

    fn from(_e: NoMemory) -> ShowFault {
        ShowFault::NoMemory
    }
}

/// The line of a fault, by its number and its name.
fn fault_line(alloc: Global, number: u32, name: &str) -> Result<Octets, NoMemory>
    ensures { IfOk result (λ line. line ≡ show.fault_line number name.now []) }
{
    let line = format!(in alloc; "fault {number} {name}\n")?;
    Ok(Octets::from_vec(line.into_bytes()))
}

/// The line of a fault that has a place.
fn placed_fault_line(
    alloc: Global,
    number: u32,
    name: &str,
    place: usize,
) -> Result<Octets, NoMemory>
    ensures { IfOk result (λ line. line ≡ show.fault_line number name.now (decimal place ∷ [])) }
{
    let line = format!(in alloc; "fault {number} {name} {place}\n")?;
    Ok(Octets::from_vec(line.into_bytes()))
}

/// The line of an attribute.
fn attribute_line(alloc: Global, attribute: &Attribute<'_>) -> Result<Octets, NoMemory>
    ensures { IfOk result (λ line. line ≡ show.attribute_line (attribute_view attribute.now)) }
{
    let code = attribute.code;
    with_hex(format!(in alloc; "attribute {code} ")?, attribute.value)
}

/// The line of a packet, without its attributes.
fn packet_line(alloc: Global, packet: &Packet<'_>) -> Result<Vec<u8>, NoMemory>
    ensures { IfOk result (λ line. line.items ≡ show.packet_line packet.now) }
{
    let code = packet.code();
    let id = packet.id();
    let length = packet.whole().len();
    let line = format!(in alloc; "radius {code} {id} {length}\n")?;
    Ok(line.into_bytes())
}

/// The line of a packet, and a line for each of its attributes.
fn packet_lines(alloc: Global, packet: &Packet<'_>) -> Result<Octets, NoMemory>
    ensures { IfOk result (λ lines. lines ≡ show.shown_packet (Ok packet.now)) }
{
    let mut lines = packet_line(alloc, packet)?;
    for attribute in packet.attributes() {
        lines.extend_from_slice(attribute_line(alloc, &attribute)?.as_slice())?;
    }
    Ok(Octets::from_vec(lines))
}

/// The line of what is wrong with it.
pub fn packet_fault_line(alloc: Global, fault: PacketFault) -> Result<Octets, NoMemory>
    ensures { IfOk result (λ line. line ≡ show.packet_fault_line fault) }
{
    match fault {
        PacketFault::Short => fault_line(alloc, 1, "Short"),
        PacketFault::BadLength => fault_line(alloc, 2, "BadLength"),
        PacketFault::BadAttribute { place } => placed_fault_line(alloc, 3, "BadAttribute", place),
    }
}

/// What is shown of the octets of a datagram.
fn show_packet(alloc: Global, octets: &[u8]) -> Result<Octets, NoMemory>
    ensures { IfOk result (λ lines. lines ≡ show.shown_packet (read_packet octets.now)) }
{
    match Packet::parse(octets) {
        Ok(packet) => packet_lines(alloc, &packet),
        Err(fault) => packet_fault_line(alloc, fault),
    }
}

/// The line of an AVP.
fn avp_line(alloc: Global, avp: &Avp<'_>) -> Result<Octets, NoMemory>
    ensures { IfOk result (λ line. line ≡ show.avp_line (avp_view avp.now)) }
{
    let code = avp.code;
    let flags = hex::encode(alloc, [avp.flags])?;
    let vendor = avp.vendor.unwrap_or(0);
    with_hex(format!(in alloc; "avp {code} {flags} {vendor} ")?, avp.body)
}

/// The line of what is wrong with it.
pub fn avp_fault_line(alloc: Global, fault: AvpFault) -> Result<Octets, NoMemory>
    ensures { IfOk result (λ line. line ≡ show.avp_fault_line fault) }
{
    match fault {
        AvpFault::Short { place } => placed_fault_line(alloc, 1, "Short", place),
        AvpFault::BadLength { place } => placed_fault_line(alloc, 2, "BadLength", place),
    }
}

/// The line of an AVP, or of the fault that stands in its place.
fn item_line(alloc: Global, item: Result<Avp<'_>, AvpFault>) -> Result<Octets, NoMemory>
    ensures { IfOk result (λ line. line ≡ show.item_line (item_view item.entry)) }
{
    match item {
        Ok(avp) => avp_line(alloc, &avp),
        Err(fault) => avp_fault_line(alloc, fault),
    }
}

/// The line of a message, without its AVPs.
fn header_line(alloc: Global, header: Header) -> Result<Vec<u8>, NoMemory>
    ensures { IfOk result (λ line. line.items ≡ show.header_line header) }
{
    let Header {
        flags,
        command,
        application,
        hop,
        end,
    } = header;
    let flags = hex::encode(alloc, [flags])?;
    let line = format!(in alloc; "diameter {flags} {command} {application} {hop} {end}\n")?;
    Ok(line.into_bytes())
}

/// The line of a message, and a line for each AVP up to the first fault, and for that fault.
fn message_lines(alloc: Global, message: &Message<'_>) -> Result<Octets, NoMemory>
    ensures { IfOk result (λ lines. lines ≡ show.shown_message (Ok (message_view message.now))) }
{
    let mut lines = header_line(alloc, message.header)?;
    for item in avps(message.avps) {
        lines.extend_from_slice(item_line(alloc, item)?.as_slice())?;
    }
    Ok(Octets::from_vec(lines))
}

/// The line of what is wrong with it.
pub fn message_fault_line(alloc: Global, fault: MessageFault) -> Result<Octets, NoMemory>
    ensures { IfOk result (λ line. line ≡ show.message_fault_line fault) }
{
    match fault {
        MessageFault::Short => fault_line(alloc, 1, "Short"),
        MessageFault::BadVersion => fault_line(alloc, 2, "BadVersion"),
        MessageFault::BadLength => fault_line(alloc, 3, "BadLength"),
    }
}

/// What is shown of the octets of a message.
fn show_message(alloc: Global, octets: &[u8]) -> Result<Octets, NoMemory>
    ensures { IfOk result (λ lines. lines ≡ show.shown_message (read_message octets.now)) }
{
    match parse(octets) {
        Ok(message) => message_lines(alloc, &message),
        Err(fault) => message_fault_line(alloc, fault),
    }
}

/// What is shown of these octets.
fn show_octets(alloc: Global, protocol: Protocol, octets: &[u8]) -> Result<Octets, NoMemory>
    ensures { IfOk result (λ lines. lines ≡ show.shown protocol octets.now) }
{
    match protocol {
        Protocol::Radius => show_packet(alloc, octets),
        Protocol::Diameter => show_message(alloc, octets),
    }
}

fn protocol_of(name: &[u8]) -> Option<Protocol>
    ensures { result ≡ show.protocol_of name.now }
{
    if name == b"radius".as_slice() {
        Some(Protocol::Radius)
    } else if name == b"diameter".as_slice() {
        Some(Protocol::Diameter)
    } else {
        None
    }
}

/// What is shown of the octets in hex after this name.
fn show_named(alloc: Global, name: &[u8], hex: &[u8]) -> Result<Octets, ShowFault>
    ensures { show.Shows result (show.show_named (show.protocol_of name.now) hex.now) }
{
    let Some(protocol) = protocol_of(name) else {
        return Err(ShowFault::Bad { reason: 2 });
    };
    match read_hex(alloc, hex) {
        Ok(octets) => Ok(show_octets(alloc, protocol, octets.as_slice())?),
        Err(WordFault::Bad) => Err(ShowFault::Bad { reason: 3 }),
        Err(WordFault::NoMemory) => Err(ShowFault::NoMemory),
    }
}

/// What is shown of a line with these words.
fn show_words(alloc: Global, words: &[&[u8]]) -> Result<Octets, ShowFault>
    ensures { show.Shows result (show.show_words (plain words.now)) }
{
    match words {
        [name, hex] => show_named(alloc, name, hex),
        _ => Err(ShowFault::Bad { reason: 2 }),
    }
}

/// What is shown of a line `radius HEX` or `diameter HEX`: the packet with its attributes or the message with its AVPs,
/// a line for each, or the line of what is wrong with it (profile).
pub fn show_line(alloc: Global, line: &[u8]) -> Result<Octets, ShowFault>
    ensures { show.Shows result (show.show_line line.now) }
{
    if line.len() > LONGEST_LINE {
        return Err(ShowFault::Bad { reason: 1 });
    }
    let words = words_of(alloc, line)?;
    show_words(alloc, &words)
}
