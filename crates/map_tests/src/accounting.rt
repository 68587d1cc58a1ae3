//! Calls of `accounting_map`.

ghost use Rattle.std.specs.Prelude.{◌≡◌};
ghost use Rattle.radius_packet.specs.Packet.{attributes_in, attributes_text};

use crate::fixtures::{ADDRESS, NUMBERS, are, client, cut, kept, shown};
use accounting_map::{answer, cause, judge, request, session_id, termination};
use agent_settings::{Client, is_client_in_limits};
use diameter_message::parse;
use radius_packet::Packet;
use session_carrier::{Kept, Kind2, Outcome, Route};
use std::alloc::Global;
use std::process::Abort;
use std::test::Fail;
use wire_core::Octets;

/// A Start, and its Accounting-Request.
const START: &str = "0405001a38b54a38663b11d65fc07f4ee21a1430280600000001";

const START_REQUEST: &str =
    "01000094c000010f00000003000000000070000000000107400000196167656e742e6578616d706c653b373b3000000000000108400000146e6173312e6578616d706c65000001284000000f6578616d706c65000000011b4000000f6578616d706c6500000001e04000000c00000002000001e54000000c00000000000001034000000c00000003000001984000000c00000001";

/// The Accounting-Request of a packet.
fn requested(
    rt: &impl Abort,
    alloc: Global,
    client: &Client,
    packet: &[u8],
) -> Result<Octets, Fail> {
    let packet = Packet::parse(packet)?;
    assert!(rt; matches!(judge(client, ADDRESS, &packet), Ok(Kind2::Start)));
    assert!(rt; is_client_in_limits(client));
    let route = Route {
        session: b"agent.example;7;0",
        realm: b"example",
        host: None,
    };
    Ok(request(alloc, client, &packet, &route, NUMBERS)?)
}

/// Whether the Start gives its request.
fn is_requested(rt: &impl Abort, alloc: Global, client: &Client) -> Result<bool, Fail> {
    let packet = hex::decode(alloc, START)?;
    let request = requested(rt, alloc, client, &packet)?;
    are(request.as_slice(), alloc, START_REQUEST)
}

fn starts(rt: &impl Abort, alloc: Global) -> Result<bool, Fail> {
    let client = client(alloc)?;
    is_requested(rt, alloc, &client)
}

#[test]
fn the_request_of_a_start(rt: HostRuntime) -> Result<(), Fail> {
    assert!(rt; starts(&rt, rt.alloc())?);
    Ok(())
}

/// An answer of success to a Stop, the Accounting-Response, and the request that ends the session.
const ANSWER: &str =
    "010000604000010f00000003000000000070000000000107400000196167656e742e6578616d706c653b373b300000000000010c4000000c000007d10000010840000014686f6d652e6578616d706c65000001284000000f6578616d706c6500";

const RESPONSE: &str = "0505001430b72f9fa536b7218ebb012d32970458";

const TERMINATION: &str =
    "0100007cc000011300000001000000000070000000000107400000196167656e742e6578616d706c653b373b3000000000000108400000146e6173312e6578616d706c65000001284000000f6578616d706c65000000011b4000000f6578616d706c6500000001024000000c00000001000001274000000c0000000e";

/// What an answer causes.
fn answered(
    rt: &impl Abort,
    alloc: Global,
    client: &Client,
    kept: &Kept,
    octets: &[u8],
) -> Result<Outcome, Fail>
    requires { kept.now.proxy ≡ attributes_text (attributes_in kept.now.proxy) }
{
    let message = parse(octets)?;
    assert!(rt; is_client_in_limits(client));
    assert!(rt; kept.session.len() <= 1024 && kept.realm.len() <= 255 && kept.proxy.len() <= 2048);
    Ok(answer(alloc, client, kept, &message, NUMBERS)?)
}

/// Whether an answer causes the response and the further request.
fn is_answered(rt: &impl Abort, alloc: Global, client: &Client, kept: &Kept) -> Result<bool, Fail>
    requires { kept.now.proxy ≡ attributes_text (attributes_in kept.now.proxy) }
{
    let octets = hex::decode(alloc, ANSWER)?;
    let outcome = answered(rt, alloc, client, kept, &octets)?;
    Ok(
        are(shown(&outcome.reply), alloc, RESPONSE)?
            && are(shown(&outcome.follow), alloc, TERMINATION)?,
    )
}

fn ends(rt: &impl Abort, alloc: Global, client: &Client) -> Result<bool, Fail> {
    let kept = kept(alloc, Kind2::Stop, 14)?;
    is_answered(rt, alloc, client, &kept)
}

fn stops(rt: &impl Abort, alloc: Global) -> Result<bool, Fail> {
    let client = client(alloc)?;
    ends(rt, alloc, &client)
}

#[test]
fn the_answer_to_a_stop(rt: HostRuntime) -> Result<(), Fail> {
    assert!(rt; stops(&rt, rt.alloc())?);
    Ok(())
}

/// In each line the application, the cause, the host where there is one, and the request.
const TERMINATIONS: &str = "\
1|14||0100007cc000011300000001000000000070000000000107400000196167656e742e6578616d706c653b373b3000000000000108400000146e6173312e6578616d706c65000001284000000f6578616d706c65000000011b4000000f6578616d706c6500000001024000000c00000001000001274000000c0000000e
5|3|686f6d652e6578616d706c65|01000090c000011300000005000000000070000000000107400000196167656e742e6578616d706c653b373b3000000000000108400000146e6173312e6578616d706c65000001284000000f6578616d706c65000000011b4000000f6578616d706c6500000001024000000c00000005000001274000000c000000030000012540000014686f6d652e6578616d706c65
1|1|68|01000088c000011300000001000000000070000000000107400000196167656e742e6578616d706c653b373b3000000000000108400000146e6173312e6578616d706c65000001284000000f6578616d706c65000000011b4000000f6578616d706c6500000001024000000c00000001000001274000000c00000001000001254000000968000000
1|28|686868686868686868686868686868686868686868686868686868686868686868686868686868686868686868686868686868686868686868686868686868686868686868686868686868686868686868686868686868686868686868686868686868686868686868686868686868686868686868686868686868686868686868686868686868686868686868686868686868686868686868686868686868686868686868686868686868686868686868686868686868686868686868686868686868686868686868686868686868686868686868686868686868686868686868686868686868686868686868686868686868686868686868686868686868|01000184c000011300000001000000000070000000000107400000196167656e742e6578616d706c653b373b3000000000000108400000146e6173312e6578616d706c65000001284000000f6578616d706c65000000011b4000000f6578616d706c6500000001024000000c00000001000001274000000c0000001c000001254000010768686868686868686868686868686868686868686868686868686868686868686868686868686868686868686868686868686868686868686868686868686868686868686868686868686868686868686868686868686868686868686868686868686868686868686868686868686868686868686868686868686868686868686868686868686868686868686868686868686868686868686868686868686868686868686868686868686868686868686868686868686868686868686868686868686868686868686868686868686868686868686868686868686868686868686868686868686868686868686868686868686868686868686868686868686800
4294967295|4294967295||0100007cc0000113ffffffff000000000070000000000107400000196167656e742e6578616d706c653b373b3000000000000108400000146e6173312e6578616d706c65000001284000000f6578616d706c65000000011b4000000f6578616d706c6500000001024000000cffffffff000001274000000cffffffff";

/// A request that ends the session.
fn ended(
    rt: &impl Abort,
    alloc: Global,
    application: u32,
    cause: u32,
    host: &str,
) -> Result<Octets, Fail> {
    let client = client(alloc)?;
    assert!(rt; is_client_in_limits(&client));
    let kept = kept(alloc, Kind2::Stop, 14)?;
    assert!(rt; kept.session.len() <= 1024 && kept.realm.len() <= 255);
    let named = hex::decode(alloc, host)?;
    assert!(rt; named.len() <= 255);
    let host = if named.is_empty() {
        None
    } else {
        Some(named.as_slice())
    };
    Ok(termination(alloc, &client, &kept, application, cause, host, NUMBERS)?)
}

#[test]
fn requests_that_end_a_session(rt: HostRuntime) -> Result<(), Fail> {
    for line in TERMINATIONS.lines() {
        let (application, rest) = cut(line);
        let (cause, rest) = cut(rest);
        let (host, wanted) = cut(rest);
        let written = ended(
            &rt,
            rt.alloc(),
            application.parse::<u32>()?,
            cause.parse::<u32>()?,
            host,
        )?;
        assert!(rt; are(written.as_slice(), rt.alloc(), wanted)?, "{line}");
    }
    Ok(())
}

/// A Stop of the session `A1` with two causes.
const STOP: &[u8] =
    b"\x04\x05\x00\x2a0123456789abcdef\x28\x06\x00\x00\x00\x02\x2c\x04A1\x31\x06\x00\x00\x00\x04\x31\x06\x00\x00\x00\x12";

#[test]
fn what_is_kept_of_a_stop(rt: HostRuntime) -> Result<(), Fail> {
    let packet = Packet::parse(STOP)?;
    assert_eq!(rt; cause(&packet), 14);
    assert_eq!(rt; session_id(&packet), b"A1".as_slice());
    Ok(())
}
