//! The packet that a Diameter request becomes (RFC 4005, section 9.2).

ghost use Rattle.std.specs.Prelude.{◌≡◌, IsTrue, IsSome, IfOk, Ok, Err};
ghost use Rattle.radius_packet.specs.Packet.{IsPacket};
ghost use Rattle.diameter_message.specs.View.{message_view};
ghost use Rattle.translation.specs.AvpList.{list_view};
ghost use Rattle.translation.specs.declared.direction.Direction.TheVariants.{Access, Accounting};
ghost use Rattle.reverse_map.specs.Asked as asking;
ghost use Rattle.reverse_map.specs.Asked.{ForAsked};
ghost use Rattle.reverse_map.specs.Attempts.{Gives, keyless_image};
ghost use Rattle.reverse_map.specs.Requests.{request_packet, request_image};

use crate::accounting::status_in;
use crate::codes::{ACCESS_REQUEST, ACCOUNTING_REQUEST};
use crate::fault::ReverseFault;
use crate::pushing::{push_images, push_record};
use crate::understanding::{count_credentials, has_key, has_unsupported};
use diameter_avp::Avp;
use diameter_message::command_codes::AA;
use diameter_message::{Header, Message};
use radius_packet::Reply;
use std::alloc::Global;
use translation::avp_list::read;
use translation::{Direction, Unfit};
use wire_core::Octets;

/// The Access-Request of AVPs that are understood and none of which is a key.
fn access_request(
    alloc: Global,
    list: &[Avp<'_>],
    id: u8,
    random: [u8; 16],
    secret: &[u8],
) -> Result<Octets, ReverseFault>
    ensures image { Gives result (keyless_image Access id random secret.now (list_view list.now)) }
    ensures packet { IfOk result
        (λ o. IsPacket o (request_packet Access id random secret.now (list_view list.now))) }
{
    if count_credentials(list) > 1 {
        return Err(ReverseFault::Unable);
    }
    let mut request = Reply::new(alloc, ACCESS_REQUEST, id, random, true)?;
    match push_images(&mut request, Direction::Access, &random, secret, list) {
        Ok(()) => Ok(request.finish_request(secret)),
        Err(Unfit) => Err(ReverseFault::Unable),
    }
}

/// The Accounting-Request of such AVPs.
fn accounting_request(
    alloc: Global,
    list: &[Avp<'_>],
    id: u8,
    random: [u8; 16],
    secret: &[u8],
) -> Result<Octets, ReverseFault>
    ensures image { Gives result
        (keyless_image Accounting id random secret.now (list_view list.now)) }
    ensures packet { IfOk result
        (λ o. IsPacket o (request_packet Accounting id random secret.now (list_view list.now))) }
{
    let Some(status) = status_in(list) else {
        return Err(ReverseFault::Unable);
    };
    // A Request Authenticator is made as the Response Authenticator to sixteen zeros.
    let mut request = Reply::new(alloc, ACCOUNTING_REQUEST, id, [0; 16], false)?;
    match push_record(&mut request, status, &random, secret, list) {
        Ok(()) => Ok(request.finish(secret)),
        Err(Unfit) => Err(ReverseFault::Unable),
    }
}

/// The packet of these AVPs, with the packet's own clause and that of its image in one.
fn request(
    alloc: Global,
    direction: Direction,
    list: &[Avp<'_>],
    id: u8,
    random: [u8; 16],
    secret: &[u8],
) -> Result<Octets, ReverseFault>
    ensures image { Gives result
        (request_image direction id random secret.now (list_view list.now)) }
    ensures packet { IfOk result
        (λ o. IsPacket o (request_packet direction id random secret.now (list_view list.now))) }
{
    if has_unsupported(list) {
        return Err(ReverseFault::Unsupported);
    }
    if has_key(list) {
        return Err(ReverseFault::Unable);
    }
    match direction {
        Direction::Access => access_request(alloc, list, id, random, secret),
        Direction::Accounting => accounting_request(alloc, list, id, random, secret),
    }
}

fn direction_of(header: &Header) -> Direction
    ensures { result ≡ asking.direction_of header.now }
{
    if header.command == AA {
        Direction::Access
    } else {
        Direction::Accounting
    }
}

/// The packet of a message of which this was read.
fn packet_of(
    alloc: Global,
    message: &Message<'_>,
    id: u8,
    random: [u8; 16],
    secret: &[u8],
) -> Result<Octets, ReverseFault>
    requires { IsSome (asking.asked_in (message_view message.now)) }
    ensures image { ForAsked (message_view message.now) (λ q.
        Gives result (request_image (asking.direction_of q.header) id random secret.now q.avps)) }
    ensures packet { ForAsked (message_view message.now) (λ q.
        IfOk result (λ o. IsPacket o
        (request_packet (asking.direction_of q.header) id random secret.now q.avps))) }
{
    let Some(list) = read(alloc, message.avps)? else {
        unreachable!();
    };
    let direction = direction_of(&message.header);
    request(alloc, direction, list.as_slice(), id, random, secret)
}

/// The packet that an AA-Request or an Accounting-Request becomes, with this identifier, under the secret that is shared with
/// the RADIUS server: an Access-Request with `random` as its authenticator, or an Accounting-Request. Its octets still have
/// the room of the longest packet; a copy has its own size.
pub fn packet(
    alloc: Global,
    message: &Message<'_>,
    id: u8,
    random: [u8; 16],
    secret: &[u8],
) -> Result<Octets, ReverseFault>
    requires served { IsTrue (asking.is_served message.now.header) }
    requires asked { IsSome (asking.asked_in (message_view message.now)) }
    ensures image { ForAsked (message_view message.now) (λ q.
        IfOk result
        (λ o. request_image (asking.direction_of q.header) id random secret.now q.avps ≡ Ok o)) }
    // It is a packet of these parts.
    ensures packet { ForAsked (message_view message.now) (λ q.
        IfOk result (λ o. IsPacket o
        (request_packet (asking.direction_of q.header) id random secret.now q.avps))) }
    // Each fault but want of memory comes where the image has it.
    ensures unsupported { ForAsked (message_view message.now)
        (λ q. result ≡ Err ReverseFault.Unsupported
        → request_image (asking.direction_of q.header) id random secret.now q.avps
        ≡ Err ReverseFault.Unsupported) }
    ensures unable { ForAsked (message_view message.now) (λ q. result ≡ Err ReverseFault.Unable
        → request_image (asking.direction_of q.header) id random secret.now q.avps
        ≡ Err ReverseFault.Unable) }
{
    packet_of(alloc, message, id, random, secret)
}
