//! RADIUS packets: what is read of one, and replies that are signed.

use radius_packet::{Full, Packet, Reply, Seal};
use std::alloc::Global;
use std::test::Fail;
use wire_core::Octets;

const SECRET: &[u8] = b"xyzzy5461";

/// Requests and their replies: those of RFC 2865, sections 7.1 and 7.2, and an accept and a reject with a seal, as an
/// independent MD5 and HMAC gave them.
const REPLIES: &str = "\
010000380f403f9473978057bd83d5cb98f4227a01066e656d6f02120dbe708d93d413ce3196e43f782a0aee0406c0a80110050600000003|0200002686fe220e7624ba2a1005f6bf9b55e0b20606000000010f06000000000e06c0a80103
010100472aee86f08d0d55969ca5978e0d3367a20108666c6f707379031316e97557c316185895f293ff63440772750406c0a80110050600000014060600000002070600000001|0201003815efbc7dab26cfa3dc34d9c03c8601a40606000000020706000000010806fffffffe0a06000000020d06000000010c06000005dc
01050026000102030405060708090a0b0c0d0e0f01066e656d6f20066e617331050600000003|02050042fbcfbf2ab3bdf407f6d37183b58b00165012970f75c82f03fd635858864d0dc588a8191c4469616d657465722f6167656e742e6578616d706c653b373b30
01050026000102030405060708090a0b0c0d0e0f01066e656d6f20066e617331050600000003|030500266629c496c5f02bedd9c27299b2bda9ce50125c3a9d4b63a4570bf56317dc114f2067";

/// The reply to a request that has the attributes of this one, written anew.
fn written(alloc: Global, request: &[u8], reply: &[u8]) -> Result<Octets, Fail> {
    let request = Packet::parse(request)?;
    let wanted = Packet::parse(reply)?;
    let sealed = wanted.attributes().any(|attribute| attribute.code == 80);
    let mut reply = Reply::new(
        alloc,
        wanted.code(),
        request.id(),
        request.authenticator(),
        sealed,
    )?;
    for attribute in wanted.attributes() {
        if attribute.code != 80 {
            reply.push(attribute.code, attribute.value)?;
        }
    }
    Ok(reply.finish(SECRET))
}

#[test]
fn replies(rt: HostRuntime) -> Result<(), Fail> {
    for line in REPLIES.lines() {
        let (request, reply) = line.split_once('|').unwrap_or((line, ""));
        let request = hex::decode(rt.alloc(), request)?;
        let reply = hex::decode(rt.alloc(), reply)?;
        let octets = written(rt.alloc(), &request, &reply)?;
        assert!(rt; octets.as_slice() == reply.as_slice(), "{line}");
    }
    Ok(())
}

/// An Accounting-Request, as an independent MD5 gave it.
const ACCOUNTING: &[u8] =
    b"\x04\x09\x00\x24\xf9\x28\x60\x6e\x1b\x95\xf6\x7b\x9d\xcd\x91\xc3\x06\xaa\xd9\x9c\x28\x06\x00\x00\
    \x00\x03\x2c\x04\x41\x31\x2e\x06\xff\xff\xff\xff";

/// A request with two EAP-Messages and a seal, as an independent HMAC gave it.
const SEALED: &[u8] =
    b"\x01\x05\x00\x46\x00\x01\x02\x03\x04\x05\x06\x07\x08\x09\x0a\x0b\x0c\x0d\x0e\x0f\x01\x06\x6e\x65\
    \x6d\x6f\x20\x06\x6e\x61\x73\x31\x05\x06\x00\x00\x00\x03\x4f\x06\x02\x01\x00\x0a\x4f\x08\x01\x61\
    \x6c\x69\x63\x65\x50\x12\x53\xfc\x1d\xf1\x55\xd0\x1e\x8b\x5b\x3c\x9c\x87\x04\xd2\x75\xff";

#[test]
fn requests(rt: HostRuntime) -> Result<(), Fail> {
    let packet = Packet::parse(SEALED)?;
    assert!(rt; packet.code() == 1 && packet.id() == 5);
    assert!(rt; packet.authenticator().as_slice() == &SEALED[4..20]);
    assert!(rt; packet.whole() == SEALED);
    assert_eq!(rt; packet.attributes().count(), 6);
    assert!(rt; packet.check_seal(SECRET) == Seal::Right);
    assert!(rt; Packet::parse(ACCOUNTING)?.check_accounting(SECRET));
    Ok(())
}

/// A reply that is filled up to its last octet.
#[test]
fn a_full_reply(rt: HostRuntime) -> Result<(), Fail> {
    let mut reply = Reply::new(rt.alloc(), 2, 0, [0; 16], false)?;
    assert!(rt; reply.push(25, &[0; 254]) == Err(Full));
    for _ in 0..15 {
        reply.push(25, &[0; 253])?;
    }
    // 20 + 15 * 255 octets: 251 are left.
    assert!(rt; reply.push(25, &[0; 250]) == Err(Full));
    reply.push(25, &[0; 249])?;
    assert_eq!(rt; reply.finish(SECRET).len(), 4096);
    Ok(())
}
