//! Tests of a packet that was received (RFC 2866, section 3; RFC 3579, section 3.2).

ghost use Rattle.std.specs.Prelude.{◌≡◌, ℕ, ◌+◌, ◌-◌, ◌≤◌, ◌↔◌, List, ◌++◌, length, take, drop, replicate, IsTrue};
ghost use Rattle.std.specs.List.{list_any};
ghost use Rattle.hmac_md5.specs.Hmac.{hmac_of};
ghost use Rattle.wire_core.specs.Numbers.{octets_at};
ghost use Rattle.radius_packet.specs.Packet.{PacketParts, packet_text, attributes_text, attributes_in};
ghost use Rattle.radius_packet.specs.Seals.{response_authenticator};
ghost use Rattle.radius_packet.specs.Checks as checks;
ghost use Rattle.radius_packet.specs.Checks.{IsAccountingRight, is_accounting_right, is_seal, IsSealRight, seal_of, seal_place, SealAt, with_authenticator, is_response_right, is_reply_right};

use crate::attribute_list::Attributes;
use crate::digests::are_equal;
use crate::received::Packet;
use crate::sizes::{HEADER, SEAL};
use hmac_md5::Hmac;
use md5::{Digest, Md5};

/// What the Message-Authenticator of a packet says.
#[derive(Clone, Copy, PartialEq, Eq)]
pub enum Seal {
    /// There is none.
    Absent,
    /// There is one alone, and it is right.
    Right,
    /// It is not right, or there is more than one.
    Wrong,
}

/// The MD5 of a packet that has this authenticator in place of its own, and of the secret.
fn authenticator_with(octets: &[u8], request: &[u8; 16], secret: &[u8]) -> [u8; 16]
    requires { 20 ≤ length octets.now }
    ensures { result ≡ response_authenticator secret.now request.now octets.now }
{
    let mut hasher = Md5::new();
    hasher.update(&octets[..4]);
    hasher.update(request);
    hasher.update(&octets[HEADER..]);
    hasher.update(secret);
    hasher.finalize()
}

/// How many octets of the attributes stand before the first Message-Authenticator.
fn octets_before_seal(attributes: Attributes<'_>) -> Option<usize>
    requires { length (attributes_text attributes) ≤ 4076 }
    ensures { result ≡ seal_place attributes.entry 0 }
{
    let mut place = 0;
    for attribute in attributes {
        if attribute.code == SEAL {
            return Some(place);
        }
        place += 2 + attribute.value.len();
    }
    None
}

fn has_seal(octets: &[u8]) -> bool
    requires { octets.now ≡ attributes_text (attributes_in octets.now) }
    ensures { result ≡ list_any is_seal (attributes_in octets.now) }
{
    Attributes::new(octets).any(|a| a.code == SEAL)
}

/// The HMAC-MD5 of a packet that has this authenticator in place of its own, and sixteen zeros at a place behind it.
fn seal_with_zeros(octets: &[u8], authenticator: &[u8; 16], place: usize, secret: &[u8]) -> [u8; 16]
    requires behind { 20 ≤ place }
    requires inside { place + 16 ≤ length octets.now }
    ensures { result ≡ hmac_of secret.now
        (take 4 octets.now ++ authenticator.now ++ octets_at octets.now 20 (place - 20)
        ++ replicate 16 0 ++ drop (place + 16) octets.now) }
{
    let mut code = Hmac::new(secret);
    code.update(&octets[..4]);
    code.update(authenticator);
    code.update(&octets[HEADER..place]);
    code.update(&[0; 16]);
    code.update(&octets[place + 16..]);
    code.finish()
}

/// What the first Message-Authenticator says, which begins at this place, where the packet has this authenticator in place of
/// its own.
fn test_seal(octets: &[u8], authenticator: &[u8; 16], place: usize, secret: &[u8]) -> Seal
    requires { (p : PacketParts) × SealAt octets.now p place }
    ensures { (p : PacketParts) → SealAt octets.now p place
        → result ≡ seal_of secret.now (with_authenticator authenticator.now p) }
{
    let end = place + octets[place + 1] as usize;
    if end != place + 18 || has_seal(&octets[end..]) {
        return Seal::Wrong;
    }
    let value = &octets[place + 2..place + 18];
    if are_equal(
        value,
        &seal_with_zeros(octets, authenticator, place + 2, secret),
    ) {
        Seal::Right
    } else {
        Seal::Wrong
    }
}

/// Whether a packet with such a Message-Authenticator is taken.
fn is_passed(seal: Seal) -> bool
    ensures { result ≡ checks.is_passed seal }
{
    match seal {
        Seal::Absent | Seal::Right => true,
        Seal::Wrong => false,
    }
}

impl<'a> Packet<'a> {
    /// Whether the authenticator is that of an Accounting-Request under this secret (RFC 2866, section 3).
    pub fn check_accounting(&self, secret: &[u8]) -> bool
        ensures exact { result ≡ is_accounting_right secret.now (packet_text self.now) }
        ensures right { IsTrue result ↔ IsAccountingRight secret.now (packet_text self.now) }
    {
        let right = authenticator_with(self.whole(), &[0; 16], secret);
        are_equal(&self.authenticator(), &right)
    }

    /// What the Message-Authenticator says under this secret (RFC 3579, section 3.2).
    pub fn check_seal(&self, secret: &[u8]) -> Seal
        ensures exact { result ≡ seal_of secret.now self.now }
        // Right exactly where one alone is there, of sixteen octets, that is right.
        ensures right { result ≡ Seal.Right → IsSealRight secret.now self.now }
        ensures only { IsSealRight secret.now self.now → result ≡ Seal.Right }
    {
        self.check_seal_with(&self.authenticator(), secret)
    }

    /// The same of the packet that has this authenticator in place of its own.
    fn check_seal_with(&self, authenticator: &[u8; 16], secret: &[u8]) -> Seal
        ensures { result ≡ seal_of secret.now (with_authenticator authenticator.now self.now) }
    {
        match octets_before_seal(self.attributes()) {
            Some(before) => test_seal(self.whole(), authenticator, HEADER + before, secret),
            None => Seal::Absent,
        }
    }

    /// Whether the authenticator is the Response Authenticator to a request with this one, under this secret (RFC 2865,
    /// section 3).
    pub fn check_response(&self, request: &[u8; 16], secret: &[u8]) -> bool
        ensures { result ≡ is_response_right secret.now request.now self.now }
    {
        let right = authenticator_with(self.whole(), request, secret);
        are_equal(&self.authenticator(), &right)
    }

    /// Whether this is an authentic reply to a request with this authenticator: its Response Authenticator is right under this
    /// secret, and there is no Message-Authenticator, or one alone that is right (RFC 2865, section 3; RFC 3579, section 3.2).
    pub fn check_reply(&self, request: [u8; 16], secret: &[u8]) -> bool
        ensures exact { result ≡ is_reply_right secret.now request self.now }
    {
        self.check_response(&request, secret) && is_passed(self.check_seal_with(&request, secret))
    }
}
