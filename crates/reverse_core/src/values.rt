//! Octets of which something is known.

ghost use Rattle.std.specs.Prelude.{◌≡◌, ◌≤◌, length, IfOk, IsSome};
ghost use Rattle.reverse_map.specs.Asked.{request_in};

use std::alloc::Global;
use std::marker::Model;
use wire_core::{NoMemory, Octets};

/// A Diameter request that asks something. Contracts see it as the list.
#[derive(Drop)]
pub struct AskingRequest {
    octets: Octets,
}

impl Model for AskingRequest {
    ghost use Rattle.std.specs.Prelude.{List, ℕ, IsSome};
    ghost use Rattle.reverse_map.specs.Asked.{request_in};

    ghost Value = { List ℕ };

    ghost view = { λ r. r.octets };

    ghost invariant = { λ r. IsSome (request_in r.octets) };
}

impl AskingRequest {
    pub(crate) fn copy(alloc: Global, octets: &[u8]) -> Result<AskingRequest, NoMemory>
        requires { IsSome (request_in octets.now) }
        ensures { IfOk result (λ r. r ≡ octets.now) }
    {
        let octets = Octets::copy(alloc, octets)?;
        Ok(AskingRequest { octets })
    }

    pub(crate) fn as_slice(&self) -> &[u8]
        ensures value { result.now ≡ self.now }
        ensures asks { IsSome (request_in self.now) }
    {
        self.octets.as_slice()
    }
}

/// A packet or a message, each of which has a header of 20 octets at least. Contracts see it as the list.
#[derive(Drop)]
pub struct Headed {
    octets: Octets,
}

impl Model for Headed {
    ghost use Rattle.std.specs.Prelude.{List, ℕ, ◌≤◌, length};

    ghost Value = { List ℕ };

    ghost view = { λ h. h.octets };

    ghost invariant = { λ h. 20 ≤ length h.octets };
}

impl Headed {
    pub(crate) fn new(octets: Octets) -> Headed
        requires { 20 ≤ length octets }
        ensures { result ≡ octets }
    {
        Headed { octets }
    }

    pub(crate) fn copy(alloc: Global, octets: &[u8]) -> Result<Headed, NoMemory>
        requires { 20 ≤ length octets.now }
        ensures { IfOk result (λ h. h ≡ octets.now) }
    {
        let octets = Octets::copy(alloc, octets)?;
        Ok(Headed { octets })
    }

    pub(crate) fn as_slice(&self) -> &[u8]
        ensures value { result.now ≡ self.now }
        ensures header { 20 ≤ length result.now }
    {
        self.octets.as_slice()
    }
}
