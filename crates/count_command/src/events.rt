//! What is counted of an input and of what goes out for it.

ghost use Rattle.std.specs.Prelude.{◌≡◌, ◌≤◌, [], length, OnOk};
ghost use Rattle.std.specs.List.{flat_map};
ghost use Rattle.diameter_message.specs.Message.{read_message};
ghost use Rattle.count_command.specs.Hits as specs;
ghost use Rattle.count_command.specs.Tally.{added, with_hits};

use crate::heads::{Label, with_one, with_three, with_two};
use crate::tally::{Order, Tally};
use agent_events::{Input, Output};
use agent_settings::Config;
use diameter_message::command_flags::{REQUEST, RETRANSMITTED};
use diameter_message::{Header, parse};
use named_lines::{command_name, packet_name};
use peer_machine::LinkCause;
use printed_lines::{close_name, reason_name, via_name};
use radius_packet::{Reason, Via};
use std::alloc::Global;
use wire_core::NoMemory;

/// The numbers of metrics, by which their lines are ordered.
pub(crate) const SENDS: u32 = 1;

pub(crate) const CLOSES: u32 = 4;

pub(crate) const REQUESTS: u32 = 8;

pub(crate) const REPLIES: u32 = 9;

pub(crate) const DROPS: u32 = 10;

/// The place of a client in the settings, and its name.
#[derive(Clone, Copy)]
struct NamedClient<'a> {
    number: u32,
    name: &'a [u8],
}

/// The client with this address. Others stand behind all clients, and have no name.
fn client_at(config: &Config, address: u32) -> NamedClient<'_>
    requires { length config.now.clients ≤ 1024 }
    ensures number { result.number ≡ (specs.client_at config.now address).0 }
    ensures name { result.name.now ≡ (specs.client_at config.now address).1 }
{
    match config.clients.by_address(address) {
        Some((number, client)) => NamedClient {
            number,
            name: client.name.as_slice(),
        },
        None => nobody(config),
    }
}

/// No client.
fn nobody(config: &Config) -> NamedClient<'static>
    requires { length config.now.clients ≤ 1024 }
    ensures number { result.number ≡ length config.now.clients }
    ensures name { result.name.now ≡ [] }
{
    NamedClient {
        number: config.clients.len() as u32,
        name: &[],
    }
}

/// Whose input it is.
fn client_of<'a>(config: &'a Config, input: &Input) -> NamedClient<'a>
    requires { length config.now.clients ≤ 1024 }
    ensures number { result.number ≡ (specs.client_of config.now input.now).0 }
    ensures name { result.name.now ≡ (specs.client_of config.now input.now).1 }
{
    match input {
        Input::Datagram { address, .. } => client_at(config, *address),
        _ => nobody(config),
    }
}

fn via_number(via: Via) -> u32
    ensures { result ≡ specs.via_number via }
{
    match via {
        Via::Auth => 0,
        Via::Acct => 1,
    }
}

fn is_datagram(input: &Input) -> bool
    ensures { result ≡ specs.is_datagram input.now }
{
    matches!(input, Input::Datagram { .. })
}

/// Counts a request of a client.
fn count_request(
    alloc: Global,
    counts: &mut Tally,
    client: NamedClient<'_>,
    via: Via,
) -> Result<(), NoMemory>
    ensures { OnOk result (counts.new
        ≡ added counts.old (specs.request_hit (client.entry.number, client.entry.name.now) via)) }
{
    let order = Order {
        metric: REQUESTS,
        first: client.number,
        second: via_number(via),
        third: 0,
    };
    if counts.raise(order, 1) {
        return Ok(());
    }
    let client = Label {
        name: "client",
        value: client.name,
    };
    let port = Label {
        name: "port",
        value: via_name(via).as_bytes(),
    };
    let head = with_two(alloc, "agent_requests_total", client, port)?;
    counts.insert(order, head, 1)
}

/// Counts an input.
pub(crate) fn count_input(
    alloc: Global,
    counts: &mut Tally,
    config: &Config,
    input: &Input,
) -> Result<(), NoMemory>
    requires { length config.now.clients ≤ 1024 }
    ensures { OnOk result
        (counts.new ≡ with_hits counts.old (specs.input_hits config.now input.now)) }
{
    match input {
        Input::Datagram { via, address, .. } => {
            count_request(alloc, counts, client_at(config, *address), *via)
        }
        _ => Ok(()),
    }
}

fn reply_kind(repeated: bool) -> &'static str
    ensures { result.now ≡ specs.reply_kind repeated }
{
    if repeated { "repeat" } else { "first" }
}

/// The order of the lines of replies.
fn reply_order(client: u32, code: u8, repeated: bool) -> Order
    ensures { result ≡ specs.ordered REPLIES client code (specs.number_if repeated) }
{
    Order {
        metric: REPLIES,
        first: client,
        second: u32::from(code),
        third: u32::from(repeated),
    }
}

/// Counts a reply of this code to a client.
fn count_reply(
    alloc: Global,
    counts: &mut Tally,
    client: NamedClient<'_>,
    code: u8,
    repeated: bool,
) -> Result<(), NoMemory>
    ensures { OnOk result (counts.new ≡ added counts.old
        (specs.reply_hit (client.entry.number, client.entry.name.now) code repeated)) }
{
    let order = reply_order(client.number, code, repeated);
    if counts.raise(order, 1) {
        return Ok(());
    }
    let client = Label {
        name: "client",
        value: client.name,
    };
    let name = packet_name(alloc, code)?;
    let code = Label {
        name: "code",
        value: name.as_bytes(),
    };
    let kind = Label {
        name: "kind",
        value: reply_kind(repeated).as_bytes(),
    };
    let head = with_three(alloc, "agent_replies_total", client, code, kind)?;
    counts.insert(order, head, 1)
}

/// Counts that nothing was done about an input of a client.
fn count_drop(
    alloc: Global,
    counts: &mut Tally,
    client: NamedClient<'_>,
    reason: Reason,
) -> Result<(), NoMemory>
    ensures { OnOk result (counts.new
        ≡ added counts.old (specs.drop_hit (client.entry.number, client.entry.name.now) reason)) }
{
    let order = Order {
        metric: DROPS,
        first: client.number,
        second: reason.number(),
        third: 0,
    };
    if counts.raise(order, 1) {
        return Ok(());
    }
    let client = Label {
        name: "client",
        value: client.name,
    };
    let reason = Label {
        name: "reason",
        value: reason_name(reason).as_bytes(),
    };
    let head = with_two(alloc, "agent_drops_total", client, reason)?;
    counts.insert(order, head, 1)
}

/// Whether flag T is set (RFC 6733, section 3).
fn is_again(header: &Header) -> bool
    ensures { result ≡ specs.is_again header.now }
{
    header.flags & RETRANSMITTED >= 1
}

fn send_kind(again: bool) -> &'static str
    ensures { result.now ≡ specs.send_kind again }
{
    if again { "again" } else { "first" }
}

/// The order of the lines of messages.
fn send_order(command: u32, request: bool, again: bool) -> Order
    ensures { result
        ≡ specs.ordered SENDS command (specs.number_if request) (specs.number_if again) }
{
    Order {
        metric: SENDS,
        first: command,
        second: u32::from(request),
        third: u32::from(again),
    }
}

/// Counts a message of the link.
fn count_send(alloc: Global, counts: &mut Tally, header: &Header) -> Result<(), NoMemory>
    ensures { OnOk result (counts.new ≡ added counts.old (specs.send_hit header.now)) }
{
    let again = is_again(header);
    let order = send_order(header.command, header.flags >= REQUEST, again);
    if counts.raise(order, 1) {
        return Ok(());
    }
    let name = command_name(alloc, header.command, header.flags)?;
    let command = Label {
        name: "command",
        value: name.as_bytes(),
    };
    let kind = Label {
        name: "kind",
        value: send_kind(again).as_bytes(),
    };
    let head = with_two(alloc, "agent_sends_total", command, kind)?;
    counts.insert(order, head, 1)
}

fn close_number(cause: LinkCause) -> u32
    ensures { result ≡ specs.close_number cause }
{
    match cause {
        LinkCause::Refused { .. } => 1,
        LinkCause::PeerLeft { .. } => 2,
        LinkCause::Broken { .. } => 3,
        LinkCause::Ended => 4,
        LinkCause::Watchdog => 5,
        LinkCause::Stalled => 6,
        LinkCause::Left => 7,
    }
}

/// Counts that the link was closed.
fn count_close(alloc: Global, counts: &mut Tally, cause: LinkCause) -> Result<(), NoMemory>
    ensures { OnOk result (counts.new ≡ added counts.old (specs.close_hit cause)) }
{
    let order = Order {
        metric: CLOSES,
        first: close_number(cause),
        second: 0,
        third: 0,
    };
    if counts.raise(order, 1) {
        return Ok(());
    }
    let cause = Label {
        name: "cause",
        value: close_name(cause).as_bytes(),
    };
    let head = with_one(alloc, "agent_closes_total", cause)?;
    counts.insert(order, head, 1)
}

/// Counts what a message of the link is.
fn count_message(alloc: Global, counts: &mut Tally, octets: &[u8]) -> Result<(), NoMemory>
    ensures { OnOk result
        (counts.new ≡ with_hits counts.old (specs.send_hits (read_message octets.now))) }
{
    match parse(octets) {
        Ok(message) => count_send(alloc, counts, &message.header),
        Err(_) => Ok(()),
    }
}

/// Counts an output for an input.
fn count_output(
    alloc: Global,
    counts: &mut Tally,
    config: &Config,
    input: &Input,
    output: &Output,
) -> Result<(), NoMemory>
    requires { length config.now.clients ≤ 1024 }
    ensures { OnOk result
        (counts.new ≡ with_hits counts.old (specs.output_hits config.now input.now output.now)) }
{
    match output {
        Output::Reply {
            address,
            octets,
            ..
        } => {
            let code = octets.as_slice().first().copied().unwrap_or(0);
            let client = client_at(config, *address);
            count_reply(alloc, counts, client, code, is_datagram(input))
        }
        Output::Send { octets } => count_message(alloc, counts, octets.as_slice()),
        Output::Dropped { reason } => count_drop(alloc, counts, client_of(config, input), *reason),
        Output::Closed { cause } => count_close(alloc, counts, *cause),
    }
}

/// Counts the outputs for an input.
pub(crate) fn count_outputs(
    alloc: Global,
    counts: &mut Tally,
    config: &Config,
    input: &Input,
    outputs: &[Output],
) -> Result<(), NoMemory>
    requires { length config.now.clients ≤ 1024 }
    ensures { OnOk result (counts.new
        ≡ with_hits counts.old (flat_map (specs.output_hits config.now input.now) outputs.now)) }
{
    for output in outputs {
        count_output(alloc, counts, config, input, output)?;
    }
    Ok(())
}
