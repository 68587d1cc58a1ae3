//! Diameter messages: written, sent again, looked through, and cut out of a stream.

ghost use Rattle.std.specs.Prelude.{◌<◌, ◌^◌};

use diameter_avp::{WriteFault, avps};
use diameter_message::{
    Framer, Header, MessageWriter, Next, again, avp_codes, find_avp, find_number, has_code,
    is_success, number_of, parse, result_code,
};
use std::alloc::Global;
use std::test::Fail;
use wire_core::{NoMemory, Octets};

/// An AA-Request.
const REQUEST: &[u8] =
    b"\x01\x00\x00\xac\xc0\x00\x01\x09\x00\x00\x00\x01\x00\x00\x00\x00\x00\x70\x00\x00\x00\x00\x01\x07\
    \x40\x00\x00\x19\x61\x67\x65\x6e\x74\x2e\x65\x78\x61\x6d\x70\x6c\x65\x3b\x37\x3b\x30\x00\x00\x00\
    \x00\x00\x01\x02\x40\x00\x00\x0c\x00\x00\x00\x01\x00\x00\x01\x08\x40\x00\x00\x14\x6e\x61\x73\x31\
    \x2e\x65\x78\x61\x6d\x70\x6c\x65\x00\x00\x01\x28\x40\x00\x00\x0f\x65\x78\x61\x6d\x70\x6c\x65\x00\
    \x00\x00\x01\x1b\x40\x00\x00\x0f\x65\x78\x61\x6d\x70\x6c\x65\x00\x00\x00\x01\x12\x40\x00\x00\x0c\
    \x00\x00\x00\x02\x00\x00\x01\x98\x40\x00\x00\x0c\x00\x00\x00\x01\x00\x00\x00\x01\x40\x00\x00\x0c\
    \x6e\x65\x6d\x6f\x00\x00\x00\x20\x40\x00\x00\x0c\x6e\x61\x73\x31\x00\x00\x00\x05\x40\x00\x00\x0c\
    \x00\x00\x00\x03";

/// A Capabilities-Exchange-Request, with a Product-Name whose M flag is clear.
const CAPABILITIES: &[u8] =
    b"\x01\x00\x00\x98\x80\x00\x01\x01\x00\x00\x00\x00\x80\x00\x00\x00\x00\x70\x00\x00\x00\x00\x01\x08\
    \x40\x00\x00\x15\x61\x67\x65\x6e\x74\x2e\x65\x78\x61\x6d\x70\x6c\x65\x00\x00\x00\x00\x00\x01\x28\
    \x40\x00\x00\x0f\x65\x78\x61\x6d\x70\x6c\x65\x00\x00\x00\x01\x01\x40\x00\x00\x0e\x00\x01\xc0\x00\
    \x02\x01\x00\x00\x00\x00\x01\x0a\x40\x00\x00\x0c\x00\x00\x00\x00\x00\x00\x01\x0d\x00\x00\x00\x10\
    \x72\x64\x2d\x61\x67\x65\x6e\x74\x00\x00\x01\x16\x40\x00\x00\x0c\x00\x00\x00\x07\x00\x00\x01\x02\
    \x40\x00\x00\x0c\x00\x00\x00\x01\x00\x00\x01\x02\x40\x00\x00\x0c\x00\x00\x00\x05\x00\x00\x01\x03\
    \x40\x00\x00\x0c\x00\x00\x00\x03";

/// A message written anew from its parts, unless it has a fault.
fn rewritten(alloc: Global, octets: &[u8]) -> Result<Option<Octets>, WriteFault> {
    let Ok(message) = parse(octets) else {
        return Ok(None);
    };
    let mut writer = MessageWriter::new(alloc, message.header).map_err(|_| WriteFault::NoMemory)?;
    for item in avps(message.avps) {
        let Ok(avp) = item else {
            return Ok(None);
        };
        writer.put(avp.code, avp.vendor, avp.mandatory, avp.body)?;
    }
    Ok(Some(writer.finish()))
}

#[test]
fn writes_what_it_reads(rt: HostRuntime) -> Result<(), Fail> {
    for octets in [REQUEST, CAPABILITIES] {
        match rewritten(rt.alloc(), octets)? {
            Some(written) => assert!(rt; written.as_slice() == octets),
            None => assert!(rt; false),
        }
    }
    Ok(())
}

/// A Device-Watchdog-Request with a name, a product and an application, as another program wrote it.
const WATCHDOG: &[u8] =
    b"\x01\x00\x00\x70\x80\x00\x01\x18\x00\x00\x00\x00\x80\x00\x00\x00\x00\x70\x00\x00\x00\x00\x01\x08\
    \x40\x00\x00\x15\x61\x67\x65\x6e\x74\x2e\x65\x78\x61\x6d\x70\x6c\x65\x00\x00\x00\x00\x00\x01\x28\
    \x40\x00\x00\x0f\x65\x78\x61\x6d\x70\x6c\x65\x00\x00\x00\x01\x16\x40\x00\x00\x0c\x00\x00\x00\x07\
    \x00\x00\x00\x01\x40\x00\x00\x0c\x6e\x65\x6d\x6f\x00\x00\x01\x0d\x00\x00\x00\x10\x72\x64\x2d\x61\
    \x67\x65\x6e\x74\x00\x00\x01\x02\x40\x00\x00\x0c\x00\x00\x00\x01";

/// A watchdog request whose AVPs are put in each of the ways.
fn watchdog(alloc: Global, header: Header) -> Result<Octets, Fail>
    requires { header.command < 2 ^ 24 }
{
    let mut writer = MessageWriter::new(alloc, header)?;
    writer.put_origin(b"agent.example", b"example")?;
    writer.put_number(278, 7)?;
    writer.put_plain(1, b"nemo")?;
    writer.put_with_room(269, None, false, b"rd-agent")?;
    writer.avps().put(258, None, true, b"\x00\x00\x00\x01")?;
    Ok(writer.finish())
}

#[test]
fn writes_avps_in_each_way(rt: HostRuntime) -> Result<(), Fail> {
    let header = Header {
        flags: 0x80,
        command: 280,
        application: 0,
        hop: 0x8000_0000,
        end: 0x70_0000,
    };
    let octets = watchdog(rt.alloc(), header)?;
    assert!(rt; octets.as_slice() == WATCHDOG);
    Ok(())
}

/// A message that is sent again, unless it can't be parsed.
fn sent_again(alloc: Global, octets: &[u8], hop: u32) -> Result<Option<Octets>, NoMemory> {
    match parse(octets) {
        Ok(_) => Ok(Some(again(alloc, octets, hop)?)),
        Err(_) => Ok(None),
    }
}

/// Flags R and P become R, P and T, also where T stood before.
#[test]
fn sends_again(rt: HostRuntime) -> Result<(), Fail> {
    let front = b"\x01\x00\x00\xac\xd0\x00\x01\x09\x00\x00\x00\x01\x01\x02\x03\x04\x00\x70\x00\x00";
    let first = sent_again(rt.alloc(), REQUEST, 0)?.ok_or("no message")?;
    let second = sent_again(rt.alloc(), first.as_slice(), 0x0102_0304)?.ok_or("no message")?;
    let (header, rest) = second.as_slice().split_at(second.len().min(20));
    assert!(rt; header == front.as_slice());
    assert!(rt; rest == &REQUEST[20..]);
    Ok(())
}

/// A Result-Code of the vendor 0, one of three octets, 4001, 2001, a Session-Id of 17 octets, and one octet more.
const MIXED: &[u8] = b"\x00\x00\x01\x0c\xc0\x00\x00\x10\x00\x00\x00\x00\x00\x00\x03\xe9\
    \x00\x00\x01\x0c\x40\x00\x00\x0b\x00\x03\xe9\x00\
    \x00\x00\x01\x0c\x40\x00\x00\x0c\x00\x00\x0f\xa1\
    \x00\x00\x01\x0c\x00\x00\x00\x0c\x00\x00\x07\xd1\
    \x00\x00\x01\x07\x40\x00\x00\x19agent.example;7;0\x00\x00\x00\
    \x00";

/// Whether an AVP of a Session-Id of so many octets is found.
fn finds_session(least: usize, most: usize) -> bool {
    find_avp(MIXED, avp_codes::SESSION_ID, least, most).is_some()
}

/// Whether the first Result-Code is the one of three octets, in which no number stands.
fn finds_short_code() -> bool {
    match find_avp(MIXED, avp_codes::RESULT_CODE, 0, 4096) {
        Some(avp) => {
            avp.body.len() == 3
                && has_code(&avp, avp_codes::RESULT_CODE)
                && !has_code(&avp, avp_codes::SESSION_ID)
                && number_of(&avp, avp_codes::RESULT_CODE) == None
        }
        None => false,
    }
}

#[test]
fn finds_avps(rt: HostRuntime) {
    assert!(rt; finds_short_code());
    assert!(rt; !finds_session(0, 16) && finds_session(0, 17));
    assert!(rt; finds_session(17, 17) && !finds_session(18, 4096));
    assert!(rt; find_number(MIXED, avp_codes::RESULT_CODE) == Some(4001));
    assert!(rt; find_number(MIXED, avp_codes::SESSION_ID) == None);
    assert!(rt; result_code(MIXED) == 0 && result_code(&MIXED[..80]) == 4001);
    assert!(rt; !is_success(1999) && is_success(2000) && is_success(2999) && !is_success(3000));
}

/// Takes what a framer has for now: each message with a bar behind it.
fn take_all(framer: &mut Framer, text: &mut Vec<u8>) -> Result<(), NoMemory> {
    for _ in 0..9 {
        match framer.next_message()? {
            Next::Message(message) => {
                text.extend_from_slice(message.as_slice())?;
                text.push(b'|')?;
            }
            Next::Wait => return Ok(()),
            Next::Fault(_) => text.push(b'!')?,
        }
    }
    Ok(())
}

/// The messages of a stream that comes in pieces of this size, each with a bar behind it.
fn cut(alloc: Global, stream: &[u8], size: usize) -> Result<Vec<u8>, NoMemory>
    requires { 0 < size }
{
    let mut framer = Framer::new(alloc);
    let mut text = Vec::new(alloc);
    for piece in stream.chunks(size) {
        framer.feed(piece)?;
        take_all(&mut framer, &mut text)?;
    }
    Ok(text)
}

#[test]
fn cuts_a_stream_in_any_pieces(rt: HostRuntime) -> Result<(), Fail> {
    let messages = [REQUEST, WATCHDOG, CAPABILITIES, REQUEST];
    let stream = messages.concat(rt.alloc())?;
    let bar: &[u8] = b"|";
    let cuts = [REQUEST, bar, WATCHDOG, bar, CAPABILITIES, bar, REQUEST, bar];
    let wanted = cuts.concat(rt.alloc())?;
    for size in [1, 3, 20, 64, 172, 608] {
        assert!(rt; cut(rt.alloc(), &stream, size)?.as_slice() == wanted.as_slice());
    }
    Ok(())
}
