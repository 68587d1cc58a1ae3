//! Calls of `tunnel_map`.

use crate::fixtures::{are, cut};
use diameter_avp::AvpWriter;
use radius_packet::{Packet, Reply};
use std::alloc::Global;
use std::test::Fail;
use tunnel_map::{TunnelFault, check_group, push_group, tag_of, write_group};
use wire_core::Octets;

/// In each line a type, a value, and the tag, the kind and the body that it has, or `none`.
const TAGS: &str = "\
64|01000003|1|number|000003
65|00000001|0|number|000001
83|1fffffff|31|number|ffffff
64|20000003|none
64|010003|none
65|0100000003|none
83||none
66|0131302e302e302e31|1|text|31302e302e302e31
67|1f61|31|text|61
81|2061|0|text|2061
82|31302e302e302e31|0|text|31302e302e302e31
90|0061|0|text|61
91|07|7|text|
66||0|text|
67|ff|0|text|ff
63|01000003|none
68|0161|none
69|0180016162636465666768696a6b6c6d6e6f70|none
80|0161|none
84|0161|none
89|0161|none
92|0161|none";

/// Whether a value has the tag, the kind and the body that the line says.
fn has_tag(alloc: Global, line: &str) -> Result<bool, Fail> {
    let (code, rest) = cut(line);
    let (value, wanted) = cut(rest);
    let value = hex::decode(alloc, value)?;
    let Some(tagged) = tag_of(code.parse::<u8>()?, &value) else {
        return Ok(wanted == "none");
    };
    let (tag, rest) = cut(wanted);
    let (kind, body) = cut(rest);
    let same = tagged.tag == tag.parse::<u8>()? && tagged.number == (kind == "number");
    Ok(same && are(tagged.body, alloc, body)?)
}

/// Whether the longest value, without a tag, is a text of the tag 0.
fn is_longest_text() -> bool {
    let long = [b'a'; 253];
    match tag_of(90, &long) {
        Some(tagged) => tagged.tag == 0 && !tagged.number && tagged.body == long.as_slice(),
        None => false,
    }
}

#[test]
fn tags_of_values(rt: HostRuntime) -> Result<(), Fail> {
    for line in TAGS.lines() {
        assert!(rt; has_tag(rt.alloc(), line)?, "{line}");
    }
    assert!(rt; is_longest_text());
    Ok(())
}

/// A packet with the tags 2, 0 and 1 between each other, a Tunnel-Password, and a number whose first octet is no tag.
const MIXED: &[u8] =
    b"\x01\x05\x00i\x00\x01\x02\x03\x04\x05\x06\x07\x08\x09\x0a\x0b\x0c\x0d\x0e\x0f\x01\x06nemo@\x06\x02\x00\x00\x03B\x0a10.0.0.2@\x06\x01\x00\x00\x01E\x15\x01\x80\x01abcdefghijklmnopS\x06\x02\x00\x01\x00C\x04\x02bA\x06 \x00\x00\x01R\x02Q\x03\x01A\x06\x02\x00\x00\x01Z\x04\x00x[\x05\x01yz";

/// In each line a tag, and the Tunneling AVP of that packet.
const GROUPS: &str = "\
0|000001914000002c000000424000001031302e302e302e3200000052400000080000005a4000000978000000
1|0000019140000028000000404000000c0000000100000051400000080000005b4000000a797a0000
2|0000019140000038000000404000000c00000003000000534000000c00000100000000434000000962000000000000414000000c00000001
32|0000019140000008";

/// Whether the group of a tag stands behind what was in the list, as the line says.
fn is_group(alloc: Global, line: &str) -> Result<bool, Fail> {
    let (tag, wanted) = cut(line);
    let packet = Packet::parse(MIXED)?;
    let mut writer = AvpWriter::new(alloc, b"front")?;
    writer.put(1, None, true, b"nemo")?;
    write_group(&packet, tag.parse::<u8>()?, &mut writer)?;
    let written = writer.finish();
    match written.as_slice().get(17..) {
        Some(group) => are(group, alloc, wanted),
        None => Ok(false),
    }
}

#[test]
fn the_group_of_each_tag(rt: HostRuntime) -> Result<(), Fail> {
    for line in GROUPS.lines() {
        assert!(rt; is_group(rt.alloc(), line)?, "{line}");
    }
    Ok(())
}

/// In each line a group, the tag that it is to have, and its fault with the code of its member, or `good`.
const FAULTS: &str = "\
000000404000000c00000003000000414000000c00000001000000434000001031302e302e302e31|1|good
000000404000000c00000003000000414000000c00000001000000434000001031302e302e302e31|31|good
000000404000000c00000003000000414000000c00000001000000434000001031302e302e302e31|32|many
00|32|many
|1|good
00|1|rotten
000000404000000c40000003|1|size|64
000000414000000b00000300|1|size|65
000000534000000d0000000300000000|1|size|83
0000004040000008|1|size|64
000000400000000c40000003|1|good
0000003f4000000c00000003|1|unknown|63
000001404000000c00000003|1|unknown|320
0000003f0000000c00000003|1|good
00000040c00000100000000900000003|1|unknown|64
00000045c000000c00000009|1|unknown|69
00000040800000100000000940000003|1|good
000000454000000a80010000|1|good
0000005240000008|1|good
00000040400000080000003f400000080000003e40000008|1|unknown|63
000000424000000800000041400000080000004040000008|1|size|65
00000040400000080000003f4000000800|1|rotten
0000003f40000007|0|rotten
0000003f40000007|255|many";

/// Whether this is what the words say of a group.
fn is_fault(checked: Result<(), TunnelFault>, wanted: &str) -> Result<bool, Fail> {
    let (name, code) = cut(wanted);
    Ok(match checked {
        Ok(()) => name == "good",
        Err(TunnelFault::TooMany) => name == "many",
        Err(TunnelFault::Rotten) => name == "rotten",
        Err(TunnelFault::Unknown { code: found }) => name == "unknown"
            && found == code.parse::<u32>()?,
        Err(TunnelFault::BadSize { code: found }) => name == "size"
            && found == code.parse::<u32>()?,
    })
}

/// Whether a group has the fault that the line says.
fn has_fault(alloc: Global, line: &str) -> Result<bool, Fail> {
    let (body, rest) = cut(line);
    let (tag, wanted) = cut(rest);
    let body = hex::decode(alloc, body)?;
    is_fault(check_group(&body, tag.parse::<u8>()?), wanted)
}

#[test]
fn the_first_fault_of_a_group(rt: HostRuntime) -> Result<(), Fail> {
    for line in FAULTS.lines() {
        assert!(rt; has_fault(rt.alloc(), line)?, "{line}");
    }
    Ok(())
}

/// In each line a group, its tag, and the attributes that it gives. Members without M are passed over where they are
/// unknown, of a vendor or of a bad size, and so is a Tunnel-Password.
const PUSHED: &str = "\
000000404000000c00000003000000414000000c00000001000000434000001031302e302e302e31|31|40061f00000341061f000001430b1f31302e302e302e31
|1|
000000454000000a800100000000003f0000000c0000000300000040800000100000000900000003000000400000000c010000030000005300000008|2|
000000400000000c00ffffff0000005200000008|2|400602ffffff520302
000001400000000c00000003|3|
0000005b4000000a04610000|5|5b05050461";

fn pushed(alloc: Global, body: &[u8], tag: u8) -> Result<Octets, Fail> {
    let mut reply = Reply::new(alloc, 2, 5, [0; 16], false)?;
    check_group(body, tag)?;
    push_group(&mut reply, body, tag)?;
    Ok(reply.finish(b"secret"))
}

/// Whether a group gives the attributes that the line says.
fn gives(alloc: Global, line: &str) -> Result<bool, Fail> {
    let (body, rest) = cut(line);
    let (tag, wanted) = cut(rest);
    let body = hex::decode(alloc, body)?;
    let reply = pushed(alloc, &body, tag.parse::<u8>()?)?;
    match reply.as_slice().get(20..) {
        Some(attributes) => are(attributes, alloc, wanted),
        None => Ok(false),
    }
}

#[test]
fn the_attributes_of_a_group(rt: HostRuntime) -> Result<(), Fail> {
    for line in PUSHED.lines() {
        assert!(rt; gives(rt.alloc(), line)?, "{line}");
    }
    Ok(())
}
