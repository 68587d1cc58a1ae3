//! A reply, written in place (RFC 2865, section 3).

ghost use Rattle.std.specs.Prelude.{◌≡◌, ℕ, ◌+◌, ◌≤◌, nat_le, List, [], ◌∷◌, ◌++◌, length, take, drop, is_ok, IfOk, OnOk, OnErr, vec_len};
ghost use Rattle.std.specs.Vec.{vec_capacity};
ghost use Rattle.md5.specs.Md5.{md5};
ghost use Rattle.hmac_md5.specs.Hmac.{hmac_of};
ghost use Rattle.radius_packet.specs.Packet.{IsPacket, attributes_in, attributes_text};
ghost use Rattle.radius_packet.specs.Seals.{Signed, IsDraft, draft_in, sealed_attributes, reply_length, reply_text, request_parts, request_text, has_room};

use crate::sizes::{HEADER, MOST, SEAL};
use hmac_md5::hmac;
use md5::{Digest, Md5};
use std::alloc::Global;
use std::marker::Model;
use wire_core::{NoMemory, Octets, put_u16};

/// The value has over 253 octets, or the packet would pass 4096.
#[derive(Clone, Copy, Debug, PartialEq, Eq)]
pub struct Full;

/// A reply that is being made. Contracts see what it was begun with and the attributes pushed so far.
#[derive(Drop)]
pub struct Reply {
    octets: Vec<u8>,
    sealed: bool,
}

impl Model for Reply {
    ghost use Rattle.std.specs.Prelude.{◌≤◌};
    ghost use Rattle.std.specs.Vec.{vec_capacity};
    ghost use Rattle.radius_packet.specs.Seals.{ReplyParts, IsDraft, draft_in};

    ghost Value = { ReplyParts };

    ghost view = { λ r. draft_in r.sealed r.octets.items };

    ghost invariant = { λ r. IsDraft r.sealed r.octets.items × (4096 ≤ vec_capacity r.octets) };
}

/// Appends octets for which there is room, so that no memory is taken.
fn append(octets: &mut Vec<u8>, piece: &[u8])
    requires { vec_len octets.old + length piece.now ≤ vec_capacity octets.old }
    ensures items { octets.new.items ≡ octets.old.items ++ piece.now }
    ensures room { vec_capacity octets.old ≤ vec_capacity octets.new }
{
    octets.extend_from_slice(piece).unwrap();
}

/// Puts the Message-Authenticator into its place, the value of the first attribute.
fn seal(octets: &mut [u8], secret: &[u8])
    requires { 38 ≤ length octets.old }
    ensures { octets.new
        ≡ take 22 octets.old ++ hmac_of secret.now octets.old ++ drop 38 octets.old }
{
    let value = hmac(secret, octets);
    octets[22..38].copy_from_slice(&value);
}

/// Puts the Response Authenticator in place of the request's.
fn sign(octets: &mut [u8], secret: &[u8])
    requires { 20 ≤ length octets.old }
    ensures { octets.new
        ≡ take 4 octets.old ++ md5 (octets.old ++ secret.now) ++ drop 20 octets.old }
{
    let mut hasher = Md5::new();
    hasher.update(&*octets);
    hasher.update(secret);
    octets[4..HEADER].copy_from_slice(&hasher.finalize());
}

/// Fills in the Length of a draft, and its seal.
fn complete(octets: &mut [u8], sealed: bool, secret: &[u8])
    requires { IsDraft sealed octets.old }
    ensures { octets.new ≡ request_text secret.now (draft_in sealed octets.old) }
{
    let length = octets.len() as u16;
    put_u16(octets, 2, length);
    if sealed {
        seal(octets, secret);
    }
}

/// Makes the signed packet of a draft.
fn fill(octets: &mut [u8], sealed: bool, secret: &[u8])
    requires { IsDraft sealed octets.old }
    ensures { let r = draft_in sealed octets.old in octets.new
        ≡ reply_text secret.now r.request r.code r.id sealed r.attributes }
{
    complete(octets, sealed, secret);
    sign(octets, secret);
}

impl Reply {
    /// A reply to the request with this authenticator; with `sealed` a Message-Authenticator comes first. It takes
    /// the memory of the longest packet at once.
    pub fn new(
        alloc: Global,
        code: u8,
        id: u8,
        request: [u8; 16],
        sealed: bool,
    ) -> Result<Reply, NoMemory>
        ensures { IfOk result (λ r. r ≡ record
            { code = code; id = id; request = request; sealed = sealed; attributes = [] }) }
    {
        let mut octets = Vec::with_capacity(alloc, MOST)?;
        append(&mut octets, &[code, id, 0, 0]);
        append(&mut octets, &request);
        if sealed {
            append(&mut octets, &[SEAL, 18]);
            append(&mut octets, &[0; 16]);
        }
        Ok(Reply { octets, sealed })
    }

    /// Puts an attribute at the end. The reply is unchanged where there is no room.
    pub fn push(&mut self, code: u8, value: &[u8]) -> Result<(), Full>
        ensures room { is_ok result ≡ has_room self.old value.now }
        ensures ok { OnOk result (self.new ≡ record self.old {
          attributes = self.old.attributes
              ++ record { code = code; value = value.now } ∷ [];
        }) }
        ensures err { OnErr result (self.new ≡ self.old) }
    {
        if value.len() > 253 || self.octets.len() + 2 + value.len() > MOST {
            return Err(Full);
        }
        append(&mut self.octets, &[code, value.len() as u8 + 2]);
        append(&mut self.octets, value);
        Ok(())
    }

    /// Puts whole attributes at the end, with their headers, as they stand in a packet. The reply is unchanged where there
    /// is no room.
    pub fn push_joined(&mut self, attributes: &[u8]) -> Result<(), Full>
        requires { attributes.now ≡ attributes_text (attributes_in attributes.now) }
        ensures room { is_ok result ≡ nat_le (reply_length self.old + length attributes.now) 4096 }
        ensures ok { OnOk result (self.new ≡ record self.old
            { attributes = self.old.attributes ++ attributes_in attributes.now }) }
        ensures err { OnErr result (self.new ≡ self.old) }
    {
        if self.octets.len() + attributes.len() <= MOST {
            append(&mut self.octets, attributes);
            Ok(())
        } else {
            Err(Full)
        }
    }

    /// The signed packet: the Message-Authenticator, where there is one, and then the Response Authenticator are
    /// filled in. Its octets still have the room of the longest packet; a copy has its own size.
    pub fn finish(self, secret: &[u8]) -> Octets
        ensures text { result
            ≡ reply_text secret.now self.request self.code self.id self.sealed self.attributes }
        ensures packet { (a : List ℕ) × IsPacket result (record {
          code = self.code;
          id = self.id;
          authenticator = a;
          attributes = sealed_attributes secret.now self.request self.code self.id self.sealed
              self.attributes;
        }) }
        ensures signed { Signed secret.now self.request self.sealed result }
    {
        let Reply { mut octets, sealed } = self;
        fill(octets.as_mut_slice(), sealed, secret);
        Octets::from_vec(octets)
    }

    /// A request, which keeps the authenticator that it was begun with (RFC 2865, section 3): the Message-Authenticator alone,
    /// where there is one, is filled in. Its octets still have the room of the longest packet.
    pub fn finish_request(self, secret: &[u8]) -> Octets
        ensures text { result ≡ request_text secret.now self }
        ensures packet { IsPacket result (request_parts secret.now self) }
    {
        let Reply { mut octets, sealed } = self;
        complete(octets.as_mut_slice(), sealed, secret);
        Octets::from_vec(octets)
    }
}
