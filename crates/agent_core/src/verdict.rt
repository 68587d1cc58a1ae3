//! Whether a datagram is a request.

ghost use Rattle.std.specs.Prelude.{◌≡◌, ℕ, IfOk, Ok};
ghost use Rattle.std.specs.List.{AllByRecursion};
ghost use Rattle.radius_packet.specs.Packet.{read_packet};
ghost use Rattle.agent_settings.specs.Config.{InLimits};
ghost use Rattle.agent_core.specs.Verdict as specs;
ghost use Rattle.agent_core.specs.Verdicts.{request_view, via_of, IsRequest, IsShort};

use agent_settings::{Client, Config};
use radius_packet::{Packet, PacketFault, Reason, Via};
use session_carrier::Kind2;

/// A datagram that is a request, with its client and the client's place in the settings.
#[derive(Drop)]
pub(crate) struct Request<'a> {
    pub(crate) client: u32,
    pub(crate) settings: &'a Client,
    pub(crate) kind: Kind2,
    pub(crate) packet: Packet<'a>,
}

/// Codes of packets (RFC 2865, section 3).
const ACCESS_REQUEST: u8 = 1;

const ACCOUNTING_REQUEST: u8 = 4;

/// The code of the requests that arrive there.
fn code_at(via: Via) -> u8
    ensures { result ≡ specs.code_at via }
{
    match via {
        Via::Auth => ACCESS_REQUEST,
        Via::Acct => ACCOUNTING_REQUEST,
    }
}

/// The kind of a packet of the right code, or the first reason against it.
fn kind_at(via: Via, client: &Client, address: u32, packet: &Packet<'_>) -> Result<Kind2, Reason>
    ensures { result ≡ specs.kind_at via client.now address packet.now }
{
    match via {
        Via::Auth => access_map::judge(client, address, packet),
        Via::Acct => accounting_map::judge(client, address, packet),
    }
}

/// Why octets that are no packet are dropped. Another code is a reason before an attribute that isn't whole.
fn fault_reason(via: Via, octets: &[u8], fault: PacketFault) -> Reason
    ensures { result ≡ specs.fault_reason via octets.now fault }
{
    match fault {
        PacketFault::Short => Reason::Short,
        PacketFault::BadLength => Reason::BadLength,
        PacketFault::BadAttribute { place: _ } => match octets {
            [] => Reason::BadCode,
            [code, ..] => {
                if *code == code_at(via) {
                    Reason::BadAttribute
                } else {
                    Reason::BadCode
                }
            }
        },
    }
}

/// The request that the octets of a client are.
fn packet_verdict<'a>(
    via: Via,
    client: u32,
    settings: &'a Client,
    address: u32,
    octets: &'a [u8],
) -> Result<Request<'a>, Reason>
    ensures exact { (port : ℕ) → request_view via address port result
        ≡ specs.packet_verdict via address port octets.now (client, settings.now)
        (read_packet octets.now) }
    ensures client { IfOk result (λ r. (r.client ≡ client) × (r.settings.now ≡ settings.now)) }
    ensures judged { IfOk result
        (λ r. specs.kind_at via settings.now address r.packet ≡ Ok r.kind) }
    ensures values { IfOk result (λ r. AllByRecursion IsShort r.packet.attributes) }
{
    let packet = match Packet::parse(octets) {
        Err(fault) => return Err(fault_reason(via, octets, fault)),
        Ok(packet) => packet,
    };
    if packet.code() != code_at(via) {
        return Err(Reason::BadCode);
    }
    match kind_at(via, settings, address, &packet) {
        Err(reason) => Err(reason),
        Ok(kind) => Ok(Request {
            client,
            settings,
            kind,
            packet,
        }),
    }
}

/// The request that a datagram is, or the first reason against it.
pub(crate) fn verdict<'a>(
    config: &'a Config,
    via: Via,
    address: u32,
    octets: &'a [u8],
) -> Result<Request<'a>, Reason>
    requires { InLimits config.now }
    ensures exact { (port : ℕ) → request_view via address port result
        ≡ specs.verdict config.now via address port octets.now }
    ensures request { IfOk result (IsRequest config.now) }
    ensures port { IfOk result (λ r. via ≡ via_of r.kind) }
{
    agent_settings::found_stands_at_place();
    agent_settings::clients_are_in_limits();
    match config.clients.by_address(address) {
        None => Err(Reason::UnknownClient),
        Some((client, settings)) => packet_verdict(via, client, settings, address, octets),
    }
}
