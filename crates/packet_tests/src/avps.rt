//! Lists of AVPs that stand in no message, and lists that are written.

use diameter_avp::{AvpFault, AvpWriter, WriteFault, avps, check_avps};
use std::alloc::Global;
use std::test::Fail;
use wire_core::Octets;

/// The AVPs of an AA-Answer, and one of vendor 9 without the M flag.
const AVPS: &[u8] =
    b"\x00\x00\x01\x07\x40\x00\x00\x19\x61\x67\x65\x6e\x74\x2e\x65\x78\x61\x6d\x70\x6c\x65\x3b\x37\x3b\
    \x30\x00\x00\x00\x00\x00\x01\x02\x40\x00\x00\x0c\x00\x00\x00\x01\x00\x00\x01\x0c\x40\x00\x00\x0c\
    \x00\x00\x07\xd1\x00\x00\x00\x01\x80\x00\x00\x0f\x00\x00\x00\x09\x61\x62\x63\x00";

/// A Failed-AVP (RFC 6733, section 7.5) that holds a Vendor-Specific-Application-Id (section 6.11).
const GROUPS: &[u8] =
    b"\x00\x00\x01\x17\x40\x00\x00\x28\x00\x00\x01\x04\x40\x00\x00\x20\x00\x00\x01\x0a\x40\x00\x00\x0c\
    \x00\x00\x28\xaf\x00\x00\x01\x02\x40\x00\x00\x0c\x01\x00\x00\x16";

/// A group inside a group, as callers write it.
fn put_failed_application(
    writer: &mut AvpWriter,
    vendor: &[u8],
    application: &[u8],
) -> Result<(), WriteFault> {
    let failed = writer.begin_group(279, true)?;
    let inner = writer.begin_group(260, true)?;
    writer.put(266, None, true, vendor)?;
    writer.put(258, None, true, application)?;
    writer.end_group(inner);
    writer.end_group(failed);
    Ok(())
}

/// The list with the groups, behind five octets.
fn groups(alloc: Global) -> Result<Octets, Fail> {
    let mut writer = AvpWriter::new(alloc, b"front")?;
    let put = put_failed_application(&mut writer, b"\x00\x00\x28\xaf", b"\x01\x00\x00\x16");
    let written = writer.finish();
    put?;
    Ok(written)
}

#[test]
fn writes_groups(rt: HostRuntime) -> Result<(), Fail> {
    let octets = groups(rt.alloc())?;
    let list = octets.as_slice().strip_prefix(b"front");
    assert!(rt; list == Some(GROUPS));
    Ok(())
}

/// Puts the AVPs of a list.
fn put_each(writer: &mut AvpWriter, octets: &[u8]) -> Result<(), Fail> {
    for item in avps(octets) {
        let avp = item?;
        writer.put(avp.code, avp.vendor, avp.mandatory, avp.body)?;
    }
    Ok(())
}

/// A list that is written from the AVPs of this one.
fn rewritten(alloc: Global, octets: &[u8]) -> Result<Octets, Fail> {
    let mut writer = AvpWriter::new(alloc, b"")?;
    let put = put_each(&mut writer, octets);
    let written = writer.finish();
    put?;
    Ok(written)
}

#[test]
fn writes_what_it_reads(rt: HostRuntime) -> Result<(), Fail> {
    assert!(rt; rewritten(rt.alloc(), AVPS)?.as_slice() == AVPS);
    assert!(rt; rewritten(rt.alloc(), GROUPS)?.as_slice() == GROUPS);
    Ok(())
}

/// Lists that stand in no message, since their lengths are no multiples of four, and some that could; each with its first
/// fault and the place of it.
const LISTS: &str = "\
|-
000000|short 0
00000107400000196167656e742e6578616d706c653b373b30000000000001024000000c000000010000010c4000000c000007d1000000018000000f0000000961626300|-
00000107400000196167656e742e6578616d706c653b373b30000000000001024000000c000000010000010c4000000c000007d1000000018000000f00000009616263|length 52
00000107400000196167656e742e6578616d706c653b373b30000000000001024000000c000000010000010c4000000c000007d100000001800000|short 52
00000107400000|short 0
000001074000000961|length 0
000001074000000961ffffff|-";

/// The name of a list's fault, and its place.
fn fault(octets: &[u8]) -> (&'static str, usize) {
    match check_avps(octets) {
        Ok(()) => ("-", 0),
        Err(AvpFault::Short { place }) => ("short", place),
        Err(AvpFault::BadLength { place }) => ("length", place),
    }
}

/// Whether the list has the fault of this name and place, or none.
fn has_fault(alloc: Global, list: &str, wanted: &str) -> Result<bool, Fail> {
    let (name, place) = fault(&hex::decode(alloc, list)?);
    let (wanted_name, wanted_place) = wanted.split_once(' ').unwrap_or((wanted, "0"));
    Ok(name == wanted_name && place == wanted_place.parse::<usize>()?)
}

#[test]
fn first_faults(rt: HostRuntime) -> Result<(), Fail> {
    for line in LISTS.lines() {
        let (list, wanted) = line.split_once('|').unwrap_or((line, ""));
        assert!(rt; has_fault(rt.alloc(), list, wanted)?, "{line}");
    }
    Ok(())
}
