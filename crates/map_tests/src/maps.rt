//! Calls of `access_map` and `eap_map`.

ghost use Rattle.std.specs.Prelude.{◌≡◌};
ghost use Rattle.radius_packet.specs.Packet.{attributes_in, attributes_text};

use crate::fixtures::{ADDRESS, NUMBERS, are, client, kept, shown};
use agent_settings::{Client, is_client_in_limits};
use diameter_message::parse;
use radius_packet::Packet;
use session_carrier::{Kept, Kind2, Outcome, Route};
use std::alloc::Global;
use std::process::Abort;
use std::test::Fail;
use translation::{Direction, are_good};
use wire_core::Octets;

/// A login without a password, and its AA-Request.
const LOGIN: &str = "01050026000102030405060708090a0b0c0d0e0f01066e656d6f20066e617331050600000003";

const LOGIN_REQUEST: &str =
    "010000acc000010900000001000000000070000000000107400000196167656e742e6578616d706c653b373b30000000000001024000000c0000000100000108400000146e6173312e6578616d706c65000001284000000f6578616d706c65000000011b4000000f6578616d706c6500000001124000000c00000002000001984000000c00000001000000014000000c6e656d6f000000204000000c6e617331000000054000000c00000003";

/// A login by EAP, and its Diameter-EAP-Request.
const EAP: &str =
    "01050038000102030405060708090a0b0c0d0e0f5012429d9f3a377eed4fe51c82b6866dfda201066e656d6f4f0c0201000a01616c696365";

const EAP_REQUEST: &str =
    "010000a8c000010c00000005000000000070000000000107400000196167656e742e6578616d706c653b373b30000000000001024000000c0000000500000108400000146e6173312e6578616d706c65000001284000000f6578616d706c65000000011b4000000f6578616d706c6500000001124000000c00000003000001984000000c00000001000000014000000c6e656d6f000001ce400000120201000a01616c6963650000";

/// The answers of success to both, which say the session, the result, the host and the realm.
const ANSWER: &str =
    "010000604000010900000001000000000070000000000107400000196167656e742e6578616d706c653b373b300000000000010c4000000c000007d10000010840000014686f6d652e6578616d706c65000001284000000f6578616d706c6500";

const EAP_ANSWER: &str =
    "010000604000010c00000005000000000070000000000107400000196167656e742e6578616d706c653b373b300000000000010c4000000c000007d10000010840000014686f6d652e6578616d706c65000001284000000f6578616d706c6500";

/// The Access-Accept of both.
const ACCEPT: &str =
    "02050042fbcfbf2ab3bdf407f6d37183b58b00165012970f75c82f03fd635858864d0dc588a8191c4469616d657465722f6167656e742e6578616d706c653b373b30";

/// The AA-Request of a packet.
fn access_request(
    rt: &impl Abort,
    alloc: Global,
    client: &Client,
    packet: &[u8],
) -> Result<Octets, Fail> {
    let packet = Packet::parse(packet)?;
    assert!(rt;
        matches!(
            access_map::judge(client, ADDRESS, &packet),
            Ok(Kind2::Access)
        )
    );
    assert!(rt; is_client_in_limits(client));
    let route = Route {
        session: b"agent.example;7;0",
        realm: b"example",
        host: None,
    };
    Ok(access_map::request(alloc, client, &packet, &route, NUMBERS)?)
}

/// The Diameter-EAP-Request of a packet.
fn eap_request(
    rt: &impl Abort,
    alloc: Global,
    client: &Client,
    packet: &[u8],
) -> Result<Octets, Fail> {
    let packet = Packet::parse(packet)?;
    assert!(rt; matches!(access_map::judge(client, ADDRESS, &packet), Ok(Kind2::Eap)));
    assert!(rt; are_good(Direction::Access, &packet));
    assert!(rt; is_client_in_limits(client));
    let route = Route {
        session: b"agent.example;7;0",
        realm: b"example",
        host: None,
    };
    Ok(eap_map::request(alloc, client, &packet, &route, NUMBERS)?)
}

/// Whether a login gives its request.
fn requests_access(rt: &impl Abort, alloc: Global, client: &Client) -> Result<bool, Fail> {
    let packet = hex::decode(alloc, LOGIN)?;
    let request = access_request(rt, alloc, client, &packet)?;
    are(request.as_slice(), alloc, LOGIN_REQUEST)
}

fn requests_eap(rt: &impl Abort, alloc: Global, client: &Client) -> Result<bool, Fail> {
    let packet = hex::decode(alloc, EAP)?;
    let request = eap_request(rt, alloc, client, &packet)?;
    are(request.as_slice(), alloc, EAP_REQUEST)
}

fn requests_both(rt: &impl Abort, alloc: Global, client: &Client) -> Result<bool, Fail> {
    Ok(requests_access(rt, alloc, client)? && requests_eap(rt, alloc, client)?)
}

fn requests(rt: &impl Abort, alloc: Global) -> Result<bool, Fail> {
    let client = client(alloc)?;
    requests_both(rt, alloc, &client)
}

#[test]
fn requests_of_logins(rt: HostRuntime) -> Result<(), Fail> {
    assert!(rt; requests(&rt, rt.alloc())?);
    Ok(())
}

/// What an answer causes, to a login by EAP or without.
fn answered(
    rt: &impl Abort,
    alloc: Global,
    client: &Client,
    kept: &Kept,
    octets: &[u8],
) -> Result<Outcome, Fail>
    requires { kept.now.proxy ≡ attributes_text (attributes_in kept.now.proxy) }
{
    let message = parse(octets)?;
    assert!(rt; is_client_in_limits(client));
    assert!(rt; kept.session.len() <= 244 && kept.realm.len() <= 255 && kept.proxy.len() <= 2048);
    if kept.kind == Kind2::Eap {
        Ok(eap_map::answer(alloc, client, kept, &message, NUMBERS)?)
    } else {
        Ok(access_map::answer(alloc, client, kept, &message, NUMBERS)?)
    }
}

/// Whether an answer causes the accept alone.
fn accepts(
    rt: &impl Abort,
    alloc: Global,
    client: &Client,
    kept: &Kept,
    answer: &str,
) -> Result<bool, Fail>
    requires { kept.now.proxy ≡ attributes_text (attributes_in kept.now.proxy) }
{
    let octets = hex::decode(alloc, answer)?;
    let outcome = answered(rt, alloc, client, kept, &octets)?;
    Ok(outcome.follow.is_none() && are(shown(&outcome.reply), alloc, ACCEPT)?)
}

/// Whether the answer to a request of this kind causes the accept alone.
fn answers(
    rt: &impl Abort,
    alloc: Global,
    client: &Client,
    kind: Kind2,
    answer: &str,
) -> Result<bool, Fail> {
    let kept = kept(alloc, kind, 0)?;
    accepts(rt, alloc, client, &kept, answer)
}

fn answers_both(rt: &impl Abort, alloc: Global, client: &Client) -> Result<bool, Fail> {
    Ok(
        answers(rt, alloc, client, Kind2::Access, ANSWER)?
            && answers(rt, alloc, client, Kind2::Eap, EAP_ANSWER)?,
    )
}

fn is_answered(rt: &impl Abort, alloc: Global) -> Result<bool, Fail> {
    let client = client(alloc)?;
    answers_both(rt, alloc, &client)
}

#[test]
fn answers_to_logins(rt: HostRuntime) -> Result<(), Fail> {
    assert!(rt; is_answered(&rt, rt.alloc())?);
    Ok(())
}
