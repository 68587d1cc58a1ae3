//! HMAC-MD5, and passwords that are hidden.

use hex::FromHex;
use hmac_md5::{Hmac, hmac};
use password_hiding::{hide, unhide};
use std::alloc::Global;
use std::test::Fail;

/// The seven vectors of RFC 2202, section 2: key, message and digest.
const HMACS: &str = "\
0b0b0b0b0b0b0b0b0b0b0b0b0b0b0b0b|4869205468657265|9294727a3638bb1c13f48ef8158bfc9d
4a656665|7768617420646f2079612077616e7420666f72206e6f7468696e673f|750c783e6ab0b503eaa86e310a5db738
aaaaaaaaaaaaaaaaaaaaaaaaaaaaaaaa|dddddddddddddddddddddddddddddddddddddddddddddddddddddddddddddddddddddddddddddddddddddddddddddddddddd|56be34521d144c88dbb8c733f0e8b3f6
0102030405060708090a0b0c0d0e0f10111213141516171819|cdcdcdcdcdcdcdcdcdcdcdcdcdcdcdcdcdcdcdcdcdcdcdcdcdcdcdcdcdcdcdcdcdcdcdcdcdcdcdcdcdcdcdcdcdcdcdcdcdcd|697eaf0aca3a3aea3a75164746ffaa79
0c0c0c0c0c0c0c0c0c0c0c0c0c0c0c0c|546573742057697468205472756e636174696f6e|56461ef2342edc00f9bab995690efd4c
aaaaaaaaaaaaaaaaaaaaaaaaaaaaaaaaaaaaaaaaaaaaaaaaaaaaaaaaaaaaaaaaaaaaaaaaaaaaaaaaaaaaaaaaaaaaaaaaaaaaaaaaaaaaaaaaaaaaaaaaaaaaaaaaaaaaaaaaaaaaaaaaaaaaaaaaaaaaaaaa|54657374205573696e67204c6172676572205468616e20426c6f636b2d53697a65204b6579202d2048617368204b6579204669727374|6b1ab7fe4bd7bf8f0b62e6ce61b9d0cd
aaaaaaaaaaaaaaaaaaaaaaaaaaaaaaaaaaaaaaaaaaaaaaaaaaaaaaaaaaaaaaaaaaaaaaaaaaaaaaaaaaaaaaaaaaaaaaaaaaaaaaaaaaaaaaaaaaaaaaaaaaaaaaaaaaaaaaaaaaaaaaaaaaaaaaaaaaaaaaaa|54657374205573696e67204c6172676572205468616e20426c6f636b2d53697a65204b657920616e64204c6172676572205468616e204f6e6520426c6f636b2d53697a652044617461|6f630fad67cda0ee1fb1f562db3aa53e";

/// Whether the digest is that of the message, whole and in three pieces, one of them empty.
fn is_digest(key: &[u8], message: &[u8], digest: &[u8]) -> bool {
    let (front, back) = message.split_at(message.len() / 3);
    let mut code = Hmac::new(key);
    code.update(front);
    code.update(&[]);
    code.update(back);
    hmac(key, message).as_slice() == digest && code.finish().as_slice() == digest
}

/// The same of hex digits.
fn is_hmac(alloc: Global, key: &str, message: &str, digest: &str) -> Result<bool, Fail> {
    let key = hex::decode(alloc, key)?;
    let message = hex::decode(alloc, message)?;
    Ok(is_digest(&key, &message, &hex::decode(alloc, digest)?))
}

#[test]
fn hmacs(rt: HostRuntime) -> Result<(), Fail> {
    for line in HMACS.lines() {
        let (key, rest) = line.split_once('|').unwrap_or((line, ""));
        let (message, digest) = rest.split_once('|').unwrap_or((rest, ""));
        assert!(rt; is_hmac(rt.alloc(), key, message, digest)?, "{line}");
    }
    Ok(())
}

/// Request Authenticator, password and hidden password under the secret `xyzzy5461`: that of RFC 2865, section 7.1, and what
/// an independent MD5 gave for eight blocks, for no octets and for 17.
const PASSWORDS: &str = "\
0f403f9473978057bd83d5cb98f4227a|61726374616e67656e74|0dbe708d93d413ce3196e43f782a0aee
000102030405060708090a0b0c0d0e0f|4142434445464748494a4b4c4d4e4f505152535455565758595a5b5c5d5e5f606162636465666768696a6b6c6d6e6f707172737475767778797a404142434445464748494a4b4c4d4e4f505152535455565758595a5b5c5d5e5f606162636465666768696a6b6c6d6e6f707172737475767778796162636465666768696a6b6c|0143a9ac8b500db41a83217d27c6d63b1f0072ec5365511938876551c49d5053df2173e1e218735e450ba7b964db31da967dc5cbeb6e3d82b203f9d692a0c3d9949384ad4ce1eaafd77373bbefef4d94481cfce3e609844a9fa391da2b3a53e6d8fc55f048dd2da38d153b339f7186a9088248fa33dcb10c1b5a44f9152b7267
000102030405060708090a0b0c0d0e0f||4001eae8ce164afc53c96a316a88996b
000102030405060708090a0b0c0d0e0f|6161616161616161616161616161616161|21608b89af772b9d32a80b500be9f80a1d7970cfa4a16b5ad54106330cdd40e9";

/// Whether the password is hidden so.
fn hides(authenticator: &[u8; 16], password: &[u8], hidden: &[u8]) -> bool {
    match hide(b"xyzzy5461", authenticator, password) {
        Ok(value) => value.as_slice() == hidden,
        Err(_) => false,
    }
}

/// Whether the hidden password comes back.
fn unhides(authenticator: &[u8; 16], password: &[u8], hidden: &mut [u8]) -> bool {
    match unhide(b"xyzzy5461", authenticator, hidden) {
        Ok(length) => hidden.get(..length) == Some(password),
        Err(_) => false,
    }
}

/// Both of hex digits.
fn is_hidden(
    alloc: Global,
    authenticator: &[u8; 16],
    password: &str,
    hidden: &str,
) -> Result<bool, Fail> {
    let password = hex::decode(alloc, password)?;
    let mut value = hex::decode(alloc, hidden)?;
    Ok(
        hides(authenticator, &password, &value)
            && unhides(authenticator, &password, value.as_mut_slice()),
    )
}

#[test]
fn hidden_passwords(rt: HostRuntime) -> Result<(), Fail> {
    for line in PASSWORDS.lines() {
        let (authenticator, rest) = line.split_once('|').unwrap_or((line, ""));
        let (password, hidden) = rest.split_once('|').unwrap_or((rest, ""));
        let authenticator = <[u8; 16] as FromHex>::from_hex(authenticator)?;
        assert!(rt;
            is_hidden(rt.alloc(), &authenticator, password, hidden)?,
            "{line}"
        );
    }
    Ok(())
}
