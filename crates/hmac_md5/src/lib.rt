//! HMAC-MD5 (RFC 2104).
#![tactic(auto)]

ghost use Rattle.std.specs.Prelude.{◌≡◌};
ghost use Rattle.hmac_md5.specs.Hmac.{hmac_of};

mod pieces;

pub use pieces::Hmac;

/// The HMAC-MD5 of a message under a key, each of any length (RFC 2104, section 2).
pub fn hmac(key: &[u8], message: &[u8]) -> [u8; 16]
    ensures { result ≡ hmac_of key.now message.now }
{
    let mut code = Hmac::new(key);
    code.update(message);
    code.finish()
}
