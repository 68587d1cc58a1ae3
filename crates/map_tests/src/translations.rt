//! Calls of `translation`. Those that put AVPs into a request, `put_names`, `put_auth_head` and `put_common`, are called
//! for each request of `.ci/map_cases`, which compares what they put.

ghost use Rattle.std.specs.Prelude.{◌≡◌};
ghost use Rattle.radius_packet.specs.Packet.{attributes_in, attributes_text};

use crate::fixtures::{ADDRESS, BARE, NUMBERS, are, client, kept, shown};
use agent_settings::{Client, is_client_in_limits};
use attribute_table::row_of_type;
use diameter_message::parse;
use radius_packet::{Packet, Reason};
use session_carrier::{Kept, Kind2, Outcome};
use std::alloc::Global;
use std::process::Abort;
use std::test::Fail;
use translation::{
    Direction, Faults, Service, answer, are_good, bare_reply, carried_class, carried_state, goes,
    is_accepted, is_eap, name_realm, proxy_states, termination,
};

/// An Access-Request of a User-Name with two `@`, three States, a Class and a Proxy-State.
const PACKET: &[u8] =
    b"\x01\x05\x00\x5e0123456789abcdef\x01\x11a@b@example.org\x18\x03x\x18\x12Diameter/h/r/s;1\x18\x12Diameter/k/q/s;2\x19\x0eDiameter/c;1\x21\x04ab";

/// One with an EAP-Message, and one with a Tunnel-Password.
const PAYLOAD: &[u8] = b"\x01\x05\x00\x160123456789abcdef\x4f\x02";

const PASSWORD: &[u8] = b"\x01\x05\x00\x160123456789abcdef\x45\x02";

fn carries_state(packet: &Packet<'_>) -> bool {
    match carried_state(packet) {
        Some(carried) => {
            carried.host == b"h".as_slice()
                && carried.realm == b"r".as_slice()
                && carried.session == b"s;1".as_slice()
        }
        None => false,
    }
}

fn carries_class(packet: &Packet<'_>) -> bool {
    match carried_class(packet) {
        Some(session) => session == b"c;1".as_slice(),
        None => false,
    }
}

fn names_realm(packet: &Packet<'_>) -> bool {
    match name_realm(packet) {
        Some(realm) => realm == b"example.org".as_slice(),
        None => false,
    }
}

/// Whether these are the Proxy-States of a packet.
fn has_proxies(alloc: Global, packet: &Packet<'_>, wanted: &[u8]) -> Result<bool, Fail> {
    let proxies = proxy_states(alloc, packet)?;
    Ok(proxies.as_slice() == wanted)
}

fn says(alloc: Global) -> Result<bool, Fail> {
    let packet = Packet::parse(PACKET)?;
    Ok(
        carries_state(&packet)
            && carries_class(&packet)
            && names_realm(&packet)
            && are_good(Direction::Accounting, &packet)
            && has_proxies(alloc, &packet, b"\x21\x04ab")?,
    )
}

fn leaves_open(alloc: Global) -> Result<bool, Fail> {
    let packet = Packet::parse(BARE)?;
    Ok(
        carried_state(&packet).is_none()
            && carried_class(&packet).is_none()
            && name_realm(&packet).is_none()
            && has_proxies(alloc, &packet, b"")?,
    )
}

#[test]
fn what_a_packet_says(rt: HostRuntime) -> Result<(), Fail> {
    assert!(rt; says(rt.alloc())?);
    assert!(rt; leaves_open(rt.alloc())?);
    Ok(())
}

/// Whether the first attribute of a packet is an EAP-Message, and whether it is a key.
fn kinds(client: &Client, packet: &Packet<'_>) -> (bool, bool) {
    match packet.attributes().next() {
        Some(attribute) if attribute.value.len() <= 253 => {
            let faults = Faults::none().note(client, ADDRESS, Direction::Access, &attribute);
            let is_key = matches!(faults.reason(), Some(Reason::KeyAttribute));
            (is_eap(&attribute), is_key)
        }
        _ => (false, false),
    }
}

fn tells_kinds(client: &Client) -> Result<bool, Fail> {
    let payload = Packet::parse(PAYLOAD)?;
    let password = Packet::parse(PASSWORD)?;
    Ok(kinds(client, &payload) == (true, false) && kinds(client, &password) == (false, true))
}

fn tells(alloc: Global) -> Result<bool, Fail> {
    let client = client(alloc)?;
    tells_kinds(&client)
}

/// A CHAP-Challenge is copied from an Access-Request alone.
fn goes_one_way() -> bool {
    match row_of_type(60) {
        Some(row) => goes(Direction::Access, &row) && !goes(Direction::Accounting, &row),
        None => false,
    }
}

#[test]
fn what_an_attribute_says(rt: HostRuntime) -> Result<(), Fail> {
    assert!(rt; tells(rt.alloc())?);
    assert!(rt; goes_one_way());
    Ok(())
}

/// An answer of success, and its Access-Accept.
const ANSWER: &str =
    "010000604000010900000001000000000070000000000107400000196167656e742e6578616d706c653b373b300000000000010c4000000c000007d10000010840000014686f6d652e6578616d706c65000001284000000f6578616d706c6500";

const ACCEPT: &str =
    "02050042fbcfbf2ab3bdf407f6d37183b58b00165012970f75c82f03fd635858864d0dc588a8191c4469616d657465722f6167656e742e6578616d706c653b373b30";

/// An Access-Reject without attributes but its seal, and the request that ends the session of a bad answer.
const REJECT: &str = "030500266629c496c5f02bedd9c27299b2bda9ce50125c3a9d4b63a4570bf56317dc114f2067";

const TERMINATION: &str =
    "01000090c000011300000005000000000070000000000107400000196167656e742e6578616d706c653b373b3000000000000108400000146e6173312e6578616d706c65000001284000000f6578616d706c65000000011b4000000f6578616d706c6500000001024000000c00000005000001274000000c000000030000012540000014686f6d652e6578616d706c65";

/// What an answer causes.
fn answered(
    rt: &impl Abort,
    alloc: Global,
    client: &Client,
    kept: &Kept,
    octets: &[u8],
) -> Result<Outcome, Fail>
    requires { kept.now.proxy ≡ attributes_text (attributes_in kept.now.proxy) }
{
    let message = parse(octets)?;
    assert!(rt; is_client_in_limits(client));
    assert!(rt; kept.session.len() <= 244 && kept.realm.len() <= 255 && kept.proxy.len() <= 2048);
    Ok(answer(alloc, Service::Nasreq, client, kept, &message, NUMBERS)?)
}

fn takes(alloc: Global, kept: &Kept, octets: &[u8]) -> Result<bool, Fail> {
    let message = parse(octets)?;
    Ok(is_accepted(alloc, kept, &message)?)
}

/// Whether the answer is an acceptance, and causes the accept alone.
fn accepts(rt: &impl Abort, alloc: Global, client: &Client, kept: &Kept) -> Result<bool, Fail>
    requires { kept.now.proxy ≡ attributes_text (attributes_in kept.now.proxy) }
{
    let octets = hex::decode(alloc, ANSWER)?;
    if !takes(alloc, kept, &octets)? {
        return Ok(false);
    }
    let outcome = answered(rt, alloc, client, kept, &octets)?;
    Ok(outcome.follow.is_none() && are(shown(&outcome.reply), alloc, ACCEPT)?)
}

/// Whether the bare reply is the reject.
fn rejects(rt: &impl Abort, alloc: Global, client: &Client, kept: &Kept) -> Result<bool, Fail>
    requires { kept.now.proxy ≡ attributes_text (attributes_in kept.now.proxy) }
{
    assert!(rt; kept.proxy.len() <= 2048);
    let reply = bare_reply(alloc, client, kept, 3, true)?;
    are(reply.as_slice(), alloc, REJECT)
}

/// Whether the request that ends the session is right.
fn ends(rt: &impl Abort, alloc: Global, client: &Client, kept: &Kept) -> Result<bool, Fail> {
    assert!(rt; is_client_in_limits(client));
    assert!(rt; kept.session.len() <= 1024 && kept.realm.len() <= 255);
    let request = termination(alloc, client, kept, 5, 3, Some(b"home.example"), NUMBERS)?;
    are(request.as_slice(), alloc, TERMINATION)
}

fn causes_of(rt: &impl Abort, alloc: Global, client: &Client) -> Result<bool, Fail> {
    let kept = kept(alloc, Kind2::Access, 0)?;
    Ok(
        accepts(rt, alloc, client, &kept)?
            && rejects(rt, alloc, client, &kept)?
            && ends(rt, alloc, client, &kept)?,
    )
}

fn causes(rt: &impl Abort, alloc: Global) -> Result<bool, Fail> {
    let client = client(alloc)?;
    causes_of(rt, alloc, &client)
}

#[test]
fn what_answers_cause(rt: HostRuntime) -> Result<(), Fail> {
    assert!(rt; causes(&rt, rt.alloc())?);
    Ok(())
}
