//! Numbers on the wire, octets and names.

use std::test::Fail;
use wire_core::{
    Octets, get_u16, get_u24, get_u32, get_u64, is_identity, is_session_text, put_u16, put_u24,
    put_u32, put_u64,
};

/// An address, the port of RADIUS, a command code and 2^32, as they stand on the wire.
#[test]
fn numbers_on_the_wire(rt: HostRuntime) {
    let wire = *b"\xc0\x00\x02\x01\x07\x14\x00\x01\x09\x00\x00\x00\x01\x00\x00\x00\x00";
    assert_eq!(rt; get_u32(&wire, 0), 3_221_225_985);
    assert_eq!(rt; get_u16(&wire, 4), 1812);
    assert_eq!(rt; get_u24(&wire, 6), 265);
    assert_eq!(rt; get_u64(&wire, 9), 4_294_967_296);
    let mut text = [0; 17];
    put_u32(&mut text, 0, 3_221_225_985);
    put_u16(&mut text, 4, 1812);
    put_u24(&mut text, 6, 265);
    put_u64(&mut text, 9, 4_294_967_296);
    assert_eq!(rt; text, wire);
}

#[test]
fn octets_and_names(rt: HostRuntime) -> Result<(), Fail> {
    let mut name = Octets::copy(rt.alloc(), b"nas.example")?;
    assert_eq!(rt; name.len(), 11);
    name.overwrite(0, b"aaa");
    assert_eq!(rt; name.as_slice(), b"aaa.example".as_slice());
    let same = Octets::from_vec(b"aaa.example".to_vec(rt.alloc())?);
    assert!(rt; name == same);
    assert!(rt; is_identity(b"nas.example") && !is_identity(b"a host"));
    assert!(rt; is_session_text(b"nas.example;33041;23432") && !is_session_text(b"a host"));
    Ok(())
}
