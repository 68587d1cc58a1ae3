//! Octets of which a bound is known.

ghost use Rattle.std.specs.Prelude.{◌≡◌, ◌≤◌, [], length, nat_eq, vec_capacity, IfOk};
ghost use Rattle.std.specs.Cmp.{partial_equiv_from_equiv};
ghost use Rattle.std.specs.Cmp.Lexicographic.{pointwise, nat_list_eq_equiv};
ghost use Rattle.std.proofs.Common.{ap};
ghost use Rattle.session_book.specs.KeyLaws.{hash_input, octets-equal};

use std::alloc::Global;
use std::hash::{Hash, Hasher};
use std::marker::Model;
use wire_core::{NoMemory, Octets};

/// The longest Session-Id of an accounting record.
pub(crate) const LONGEST_SESSION: usize = 1024;

/// The value of an attribute: at most 253 octets (RFC 2865, section 5). Contracts see it as the list.
#[derive(Drop)]
pub struct AttributeValue {
    octets: Octets,
}

impl Model for AttributeValue {
    ghost use Rattle.std.specs.Prelude.{List, ℕ, ◌≤◌, length};

    ghost Value = { List ℕ };

    ghost view = { λ v. v.octets };

    ghost invariant = { λ v. length v.octets ≤ 253 };
}

impl AttributeValue {
    pub(crate) fn copy(alloc: Global, value: &[u8]) -> Result<AttributeValue, NoMemory>
        requires { length value.now ≤ 253 }
        ensures { IfOk result (λ v. v ≡ value.now) }
    {
        let octets = Octets::copy(alloc, value)?;
        Ok(AttributeValue { octets })
    }

    pub(crate) fn as_slice(&self) -> &[u8]
        ensures value { result.now ≡ self.now }
        ensures short { length result.now ≤ 253 }
    {
        self.octets.as_slice()
    }
}

/// A Disconnect-Request, which has a header of 20 octets at least. Contracts see it as the list.
#[derive(Drop)]
pub struct DisconnectRequest {
    octets: Octets,
}

impl Model for DisconnectRequest {
    ghost use Rattle.std.specs.Prelude.{List, ℕ, ◌≤◌, length};

    ghost Value = { List ℕ };

    ghost view = { λ r. r.octets };

    ghost invariant = { λ r. 20 ≤ length r.octets };
}

impl DisconnectRequest {
    pub(crate) fn new(octets: Octets) -> DisconnectRequest
        requires { 20 ≤ length octets }
        ensures { result ≡ octets }
    {
        DisconnectRequest { octets }
    }

    pub(crate) fn as_slice(&self) -> &[u8]
        ensures value { result.now ≡ self.now }
        ensures header { 20 ≤ length result.now }
    {
        self.octets.as_slice()
    }
}

#[derive(Drop)]
enum KeyOctets<'a> {
    Kept(Octets),
    Lent(&'a [u8]),
}

/// A Session-Id as a key of the book, or one that is lent for a look-up. Contracts see it as the list of its octets.
#[derive(Drop)]
pub struct SessionKey<'a> {
    octets: KeyOctets<'a>,
}

impl<'a> Model for SessionKey<'a> {
    ghost use Rattle.std.specs.Prelude.{List, ℕ};
    ghost use Rattle.session_book.specs.Keys.{key_octets};

    ghost Value = { List ℕ };

    ghost view = { λ k. key_octets k.octets };
}

impl<'a> SessionKey<'a> {
    #[tactic(auto, unfolding(crate::specs::Keys::key_octets))]
    fn kept(octets: Octets) -> SessionKey<'a>
        ensures { result ≡ octets }
    {
        SessionKey {
            octets: KeyOctets::Kept(octets),
        }
    }

    /// One that is lent.
    #[tactic(auto, unfolding(crate::specs::Keys::key_octets))]
    pub(crate) fn lent(session: &'a [u8]) -> SessionKey<'a>
        ensures { result ≡ session.now }
    {
        SessionKey {
            octets: KeyOctets::Lent(session),
        }
    }

    #[tactic(auto, unfolding(crate::specs::Keys::key_octets))]
    fn as_slice(&self) -> &[u8]
        ensures { result.now ≡ self.now }
    {
        match &self.octets {
            KeyOctets::Kept(octets) => octets.as_slice(),
            KeyOctets::Lent(octets) => octets,
        }
    }
}

impl<'a> PartialEq for SessionKey<'a> {
    ghost eq = { pointwise nat_eq };

    ghost laws = { partial_equiv_from_equiv nat_list_eq_equiv };

    fn eq(&self, other: &SessionKey<'a>) -> bool {
        self.as_slice() == other.as_slice()
    }
}

impl<'a> Eq for SessionKey<'a> {
    ghost laws = { nat_list_eq_equiv };
}

impl<'a> Hash for SessionKey<'a> {
    ghost hash_input = { hash_input };

    ghost respects_eq = { λ k l e. ap hash_input (octets-equal k l e) };

    fn hash<H: Hasher>(&self, state: &mut H) {
        self.as_slice().hash(state)
    }
}

/// The memory of a key that isn't known yet.
#[derive(Drop)]
pub(crate) struct SessionRoom {
    octets: Vec<u8>,
    ghost empty: { octets.items ≡ [] },
    ghost room: { 1024 ≤ vec_capacity octets },
}

impl SessionRoom {
    pub(crate) fn new(alloc: Global) -> Result<SessionRoom, NoMemory> {
        let octets = Vec::with_capacity(alloc, LONGEST_SESSION)?;
        Ok(SessionRoom { octets })
    }

    /// The key of this session, which takes no memory.
    pub(crate) fn filled(self, session: &[u8]) -> SessionKey<'static>
        requires { length session.now ≤ 1024 }
        ensures { result ≡ session.now }
    {
        let SessionRoom { mut octets } = self;
        // There is room for it, so it is not refused.
        let _ = octets.extend_from_slice(session);
        SessionKey::kept(Octets::from_vec(octets))
    }
}
