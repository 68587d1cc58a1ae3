//! Calls of `reverse_map`.

ghost use Rattle.std.specs.Prelude.{◌≡◌, ◌≤◌, length, IsTrue, IsSome, IfOk};
ghost use Rattle.diameter_message.specs.View.{message_view};
ghost use Rattle.reverse_map.specs.Answers.{is_reply_code};
ghost use Rattle.reverse_map.specs.Asked.{asked_in, is_served, request_in, ForRequest};

use crate::fixtures::are;
use diameter_message::avp_codes::{ORIGIN_HOST, SESSION_ID};
use diameter_message::command_codes::{AA, ACCOUNTING};
use diameter_message::{Message, find_only, parse};
use radius_packet::Packet;
use reverse_map::{Reverse, answer, packet, refuse};
use std::alloc::Global;
use std::process::Abort;
use std::test::Fail;
use wire_core::{NoMemory, Octets};

/// A request without a password, the authenticator that is drawn for it, and its Access-Request under the secret `secret`.
const LOGIN: &str =
    "010000acc000010900000001000000000070000000000107400000196167656e742e6578616d706c653b373b30000000000001024000000c0000000100000108400000146e6173312e6578616d706c65000001284000000f6578616d706c65000000011b4000000f6578616d706c6500000001124000000c00000002000001984000000c00000001000000014000000c6e656d6f000000204000000c6e617331000000054000000c00000003";

const LOGIN_RANDOM: [u8; 16] = [0, 1, 2, 3, 4, 5, 6, 7, 8, 9, 10, 11, 12, 13, 14, 15];

const LOGIN_PACKET: &str =
    "01000038000102030405060708090a0b0c0d0e0f50120aa59b007d6e446209d6d322f1d2ee2d01066e656d6f20066e617331050600000003";

/// A request with a password, and its Access-Request under the secret `xyzzy5461`.
const PASSWORD: &str =
    "010000c0c000010900000001000000000070000000000107400000196167656e742e6578616d706c653b373b30000000000001024000000c0000000100000108400000146e6173312e6578616d706c65000001284000000f6578616d706c65000000011b4000000f6578616d706c6500000001124000000c00000003000001984000000c00000001000000014000000c6e656d6f000000024000001261726374616e67656e740000000000044000000cc0a80110000000054000000c00000003";

const PASSWORD_RANDOM: [u8; 16] = [
    0x0f, 0x40, 0x3f, 0x94, 0x73, 0x97, 0x80, 0x57, 0xbd, 0x83, 0xd5, 0xcb, 0x98, 0xf4, 0x22, 0x7a,
];

const PASSWORD_PACKET: &str =
    "0100004a0f403f9473978057bd83d5cb98f4227a50128f16b45f90d3494989a4f14f4421c61801066e656d6f02120dbe708d93d413ce3196e43f782a0aee0406c0a80110050600000003";

/// The Access-Accept of the first one, what it answers, and what an answer without a reply is: 3002.
const ACCEPT: &str =
    "0200002c9e374ca32fb125c144926d053643b4eb50121d73a1aa086ff48c774e0a6a731c6f51060600000002";

const ANSWER: &str =
    "010000844000010900000001000000000070000000000107400000196167656e742e6578616d706c653b373b300000000000010c4000000c000007d100000108400000137265762e6578616d706c6500000001284000000f6578616d706c6500000001024000000c00000001000001124000000c00000002000000064000000c00000002";

const REFUSAL: &str =
    "010000786000010900000001000000000070000000000107400000196167656e742e6578616d706c653b373b300000000000010c4000000c00000bba00000108400000137265762e6578616d706c6500000001284000000f6578616d706c6500000001024000000c00000001000001124000000c00000002";

fn own(alloc: Global) -> Result<Reverse, NoMemory>
    ensures host { IfOk result (λ own. length own.host ≤ 64) }
    ensures realm { IfOk result (λ own. length own.realm ≤ 64) }
{
    Ok(Reverse {
        host: Octets::copy(alloc, b"rev.example")?,
        realm: Octets::copy(alloc, b"example")?,
        server: 0x0a00_0005,
        port: 1812,
        secret: Octets::copy(alloc, b"secret")?,
        retention: 30_000,
    })
}

/// Whether a message is a request that is answered.
fn is_asked(message: &Message<'_>) -> bool
    ensures served { IsTrue result → IsTrue (is_served message.now.header) }
    ensures asked { IsTrue result → IsSome (asked_in (message_view message.now)) }
{
    let Some(session) = find_only(message.avps, SESSION_ID) else {
        return false;
    };
    session.len() <= 4096
        && find_only(message.avps, ORIGIN_HOST).is_some()
        && 128 <= message.header.flags
        && (message.header.command == AA || message.header.command == ACCOUNTING)
}

/// Whether octets are such a request, and an Access-Accept answers it.
fn is_request(octets: &[u8], code: u8) -> bool
    ensures asked { IsTrue result → IsSome (request_in octets.now) }
    ensures code { IsTrue result
        → ForRequest octets.now (λ q. IsTrue (is_reply_code q.header code)) }
{
    let Ok(message) = parse(octets) else {
        return false;
    };
    is_asked(&message) && message.header.command == AA && code == 2
}

/// Whether a request becomes this packet.
fn becomes(
    rt: &impl Abort,
    alloc: Global,
    request: &str,
    random: [u8; 16],
    secret: &[u8],
    wanted: &str,
) -> Result<bool, Fail> {
    let request = hex::decode(alloc, request)?;
    let message = parse(&request)?;
    assert!(rt; is_asked(&message));
    match packet(alloc, &message, 0, random, secret) {
        Ok(octets) => are(octets.as_slice(), alloc, wanted),
        Err(_) => Ok(false),
    }
}

/// Whether a request is answered as its reply says, and where there is none.
fn is_answered(rt: &impl Abort, alloc: Global, own: &Reverse) -> Result<bool, Fail>
    requires host { length own.now.host ≤ 64 }
    requires realm { length own.now.realm ≤ 64 }
{
    let request = hex::decode(alloc, LOGIN)?;
    let reply = hex::decode(alloc, ACCEPT)?;
    let reply = Packet::parse(&reply)?;
    assert!(rt; is_request(&request, reply.code()));
    let answered = answer(alloc, own, &request, &reply)?;
    let refused = refuse(alloc, own, &request, 3002)?;
    Ok(are(answered.as_slice(), alloc, ANSWER)? && are(refused.as_slice(), alloc, REFUSAL)?)
}

#[test]
fn packets_of_requests(rt: HostRuntime) -> Result<(), Fail> {
    assert!(rt;
        becomes(
            &rt,
            rt.alloc(),
            LOGIN,
            LOGIN_RANDOM,
            b"secret",
            LOGIN_PACKET
        )?
    );
    assert!(rt;
        becomes(
            &rt,
            rt.alloc(),
            PASSWORD,
            PASSWORD_RANDOM,
            b"xyzzy5461",
            PASSWORD_PACKET
        )?
    );
    Ok(())
}

#[test]
fn answers_of_replies(rt: HostRuntime) -> Result<(), Fail> {
    let own = own(rt.alloc())?;
    assert!(rt; is_answered(&rt, rt.alloc(), &own)?);
    Ok(())
}
