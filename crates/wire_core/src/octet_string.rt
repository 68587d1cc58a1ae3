//! A list of octets with an owner.

ghost use Rattle.std.specs.Prelude.{◌≡◌, ◌+◌, ◌≤◌, ◌<◌, ◌^◌, ◌++◌, length, take, drop, IfOk};
ghost use Rattle.std.specs.Prelude.{nat_eq};
ghost use Rattle.std.specs.Cmp.{partial_equiv_from_equiv};
ghost use Rattle.std.specs.Cmp.Lexicographic.{pointwise, nat_list_eq_equiv};

use crate::memory::NoMemory;
use crate::numbers::put;
use std::alloc::Global;
use std::marker::Model;

/// A list of octets with an owner. Contracts see it as the list.
#[derive(Clone, Debug, Drop)]
pub struct Octets {
    octets: Vec<u8>,
}

impl Model for Octets {
    ghost use Rattle.std.specs.Prelude.{List, ℕ};

    ghost Value = { List ℕ };

    ghost view = { λ o. o.octets.items };
}

impl Octets {
    /// A copy of these octets.
    pub fn copy(alloc: Global, from: &[u8]) -> Result<Octets, NoMemory>
        ensures { IfOk result (λ o. o ≡ from.now) }
    {
        let octets = Vec::from_slice(alloc, from)?;
        Ok(Octets { octets })
    }

    /// The octets.
    pub fn as_slice(&self) -> &[u8]
        ensures { result.now ≡ self.now }
    {
        self.octets.as_slice()
    }

    /// How many octets there are.
    pub fn len(&self) -> usize
        ensures { result ≡ length self.now }
    {
        self.octets.len()
    }

    /// The octets of a `Vec`, which takes no memory.
    pub fn from_vec(octets: Vec<u8>) -> Octets
        ensures { result ≡ octets.items }
    {
        Octets { octets }
    }

    /// Puts these octets at `place`, over the ones that stand there.
    pub fn overwrite(&mut self, place: usize, from: &[u8])
        requires { place + length from.now ≤ length self.old }
        ensures { self.new
            ≡ take place self.old ++ from.now ++ drop (place + length from.now) self.old }
    {
        put(self.octets.as_mut_slice(), place, from);
    }
}

impl PartialEq for Octets {
    ghost eq = { pointwise nat_eq };

    ghost laws = { partial_equiv_from_equiv nat_list_eq_equiv };

    fn eq(&self, other: &Octets) -> bool {
        self.octets == other.octets
    }
}

impl Eq for Octets {
    ghost laws = { nat_list_eq_equiv };
}
