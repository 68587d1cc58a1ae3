//! What a client answers to a Disconnect-Request (RFC 5176, sections 2.1 and 2.3).

ghost use Rattle.std.specs.Prelude.{◌≡◌, ◌≤◌, ◌↔◌, true, false, length};
ghost use Rattle.disconnect_map.specs.Verdicts as specs;
ghost use Rattle.disconnect_map.specs.Verdicts.{Answers, verdict_of};

use agent_settings::Client;
use radius_packet::Packet;

/// RFC 5176, section 2.3.
const DISCONNECT_ACK: u8 = 41;

const DISCONNECT_NAK: u8 = 42;

/// Whether a packet has the identifier and the authenticator of an answer to the request.
fn is_answer(packet: &Packet<'_>, request: &[u8], secret: &[u8]) -> bool
    requires { 20 ≤ length request.now }
    ensures { result ≡ specs.is_authentic_answer secret.now request.now packet.now }
{
    let mut authenticator = [0; 16];
    authenticator.copy_from_slice(&request[4..20]);
    packet.id() == request[1] && packet.check_response(&authenticator, secret)
}

/// Whether the session was ended, as a packet of this code says.
fn code_verdict(code: u8) -> Option<bool>
    ensures { result ≡ specs.code_verdict code }
{
    match code {
        DISCONNECT_ACK => Some(true),
        DISCONNECT_NAK => Some(false),
        _ => None,
    }
}

/// Whether the client ended the session that the request asks it to end; none where the datagram doesn't answer the request.
/// Octets past the datagram's Length are padding.
#[tactic(auto, unfolding(crate::specs::Verdicts::verdict_of))]
pub fn verdict(client: &Client, request: &[u8], octets: &[u8]) -> Option<bool>
    requires { 20 ≤ length request.now }
    ensures exact { result ≡ verdict_of client.now request.now octets.now }
    // It is told by a Disconnect-ACK or a Disconnect-NAK that answers the request, and by nothing else.
    ensures ended { (result ≡ Some true) ↔ Answers client.now.secret request.now octets.now 41 }
    ensures refused { (result ≡ Some false) ↔ Answers client.now.secret request.now octets.now 42 }
{
    let packet = Packet::parse(octets).ok()?;
    let ended = code_verdict(packet.code())?;
    is_answer(&packet, request, client.secret.as_slice()).then_some(ended)
}
