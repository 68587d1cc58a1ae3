//! Packets and messages of the tests. The octets were computed by a program of another kind, with its own MD5.

use std::alloc::Global;
use std::test::Fail;
use wire_core::Octets;
use wire_devices::Datagram;

/// Where the access server is.
const ADDRESS: u32 = 0xc0a8_0110;

const PORT: u16 = 1812;

/// A login of nemo, and another that differs in its authenticator alone. The first one's success and its reject.
pub(super) const LOGIN: &str =
    "01050026000102030405060708090a0b0c0d0e0f01066e656d6f20066e617331050600000003";

pub(super) const OTHER_LOGIN: &str =
    "01050026000102030405060708090a0b0c0d0e1001066e656d6f20066e617331050600000003";

pub(super) const SUCCESS: &str = "\
02050042fbcfbf2ab3bdf407f6d37183b58b00165012970f75c82f03fd635858864d0dc588a8\
191c4469616d657465722f6167656e742e6578616d706c653b373b30";

pub(super) const REJECT: &str =
    "030500266629c496c5f02bedd9c27299b2bda9ce50125c3a9d4b63a4570bf56317dc114f2067";

/// The beginning of a session, and its reply.
pub(super) const START: &str = "040900204fae30c0d99d5c4169effca21c0073fa28060000000101066e656d6f";

pub(super) const STARTED: &str = "050900149a8423b63a539f50271b2cfadb84c081";

/// The head of a message up to its two identifiers, and what comes after them: the agent's capabilities, and the home
/// server's that are given with 2001 and with 5010.
pub(super) const CAPABILITIES: [&str; 2] = [
    "010000988000010100000000",
    "\
00000108400000156167656e742e6578616d706c65000000000001284000000f6578616d706c6500\
000001014000000e0001c000020100000000010a4000000c000000000000010d0000001072642d6167656e74\
000001164000000c00000007000001024000000c00000001000001024000000c00000005\
000001034000000c00000003",
];

pub(super) const CAPABLE: [&str; 2] = [
    "010000840000010100000000",
    "\
0000010c4000000c000007d10000010840000014686f6d652e6578616d706c65000001284000000f6578616d706c6500\
000001014000000e0001c000020200000000010a4000000c000000000000010d0000000c686f6d65\
000001024000000c00000001000001034000000c00000003",
];

pub(super) const INCAPABLE: [&str; 2] = [
    "010000840000010100000000",
    "\
0000010c4000000c000013920000010840000014686f6d652e6578616d706c65000001284000000f6578616d706c6500\
000001014000000e0001c000020200000000010a4000000c000000000000010d0000000c686f6d65\
000001024000000c00000001000001034000000c00000003",
];

/// Octets that no message begins with.
pub(super) const STRANGE: [&str; 2] = ["020000140000011800000000", ""];

/// A login that is sent again, of the first session and of the second.
pub(super) const AGAIN: [&str; 2] = [
    "010000acd000010900000001",
    "\
00000107400000196167656e742e6578616d706c653b373b30000000000001024000000c00000001\
00000108400000146e6173312e6578616d706c65000001284000000f6578616d706c65000000011b4000000f6578616d706c6500\
000001124000000c00000002000001984000000c00000001000000014000000c6e656d6f000000204000000c6e617331\
000000054000000c00000003",
];

pub(super) const SECOND_AGAIN: [&str; 2] = [
    "010000acd000010900000001",
    "\
00000107400000196167656e742e6578616d706c653b373b31000000000001024000000c00000001\
00000108400000146e6173312e6578616d706c65000001284000000f6578616d706c65000000011b4000000f6578616d706c6500\
000001124000000c00000002000001984000000c00000001000000014000000c6e656d6f000000204000000c6e617331\
000000054000000c00000003",
];

/// The home server's answers: the first session's login is accepted or rejected, so is the second's, and the session began.
pub(super) const ACCEPTED: [&str; 2] = [
    "010000784000010900000001",
    "\
00000107400000196167656e742e6578616d706c653b373b30000000000001024000000c00000001\
000001124000000c000000030000010c4000000c000007d10000010840000014686f6d652e6578616d706c65\
000001284000000f6578616d706c6500",
];

pub(super) const REJECTED: [&str; 2] = [
    "010000784000010900000001",
    "\
00000107400000196167656e742e6578616d706c653b373b30000000000001024000000c00000001\
000001124000000c000000030000010c4000000c00000fa10000010840000014686f6d652e6578616d706c65\
000001284000000f6578616d706c6500",
];

pub(super) const SECOND_ACCEPTED: [&str; 2] = [
    "010000784000010900000001",
    "\
00000107400000196167656e742e6578616d706c653b373b31000000000001024000000c00000001\
000001124000000c000000030000010c4000000c000007d10000010840000014686f6d652e6578616d706c65\
000001284000000f6578616d706c6500",
];

pub(super) const SECOND_REJECTED: [&str; 2] = [
    "010000784000010900000001",
    "\
00000107400000196167656e742e6578616d706c653b373b31000000000001024000000c00000001\
000001124000000c000000030000010c4000000c00000fa10000010840000014686f6d652e6578616d706c65\
000001284000000f6578616d706c6500",
];

pub(super) const BEGUN: [&str; 2] = [
    "010000684000010f00000003",
    "\
00000107400000246167656e742e6578616d706c653b303b303b616363743b6e6173313b\
0000010c4000000c000007d10000010840000014686f6d652e6578616d706c65\
000001284000000f6578616d706c6500",
];

/// The hop-by-hop identifier of a link's first message of the base protocol.
const BASE: u32 = 0x8000_0000;

/// The agent's first end-to-end identifier.
const FIRST: u32 = 0x0070_0000;

fn append(alloc: Global, octets: &mut Vec<u8>, text: &str) -> Result<(), Fail> {
    let piece = hex::decode(alloc, text)?;
    octets.extend_from_slice(piece.as_slice())?;
    Ok(())
}

/// The octets of this hex text.
pub(super) fn octets(alloc: Global, text: &str) -> Result<Octets, Fail> {
    Ok(Octets::from_vec(hex::decode(alloc, text)?))
}

/// A message with this hop-by-hop identifier, and the end-to-end identifier of the agent's request with this number.
pub(super) fn message(
    alloc: Global,
    parts: &[&str; 2],
    hop: u32,
    number: u8,
) -> Result<Octets, Fail> {
    let [head, body] = *parts;
    let mut octets = hex::decode(alloc, head)?;
    octets.extend_from_slice(&hop.to_be_bytes())?;
    octets.extend_from_slice(&(FIRST + u32::from(number)).to_be_bytes())?;
    append(alloc, &mut octets, body)?;
    Ok(Octets::from_vec(octets))
}

/// The first message of the base protocol on a link, or its answer, where so many requests were sent before.
pub(super) fn base(alloc: Global, parts: &[&str; 2], before: u8) -> Result<Octets, Fail> {
    message(alloc, parts, BASE, before)
}

/// A datagram from or to the access server.
pub(super) fn datagram(alloc: Global, text: &str) -> Result<Datagram, Fail> {
    Ok(Datagram {
        address: ADDRESS,
        port: PORT,
        octets: octets(alloc, text)?,
    })
}
