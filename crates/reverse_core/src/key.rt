//! What makes two requests one.

ghost use Rattle.std.specs.Prelude.{◌++◌, [], ◌∷◌};
ghost use Rattle.std.specs.Hash as fed;
ghost use Rattle.std.proofs.Common.{ap};
ghost use Rattle.std.specs.Cmp.{partial_equiv_from_equiv};
ghost use Rattle.reverse_core.specs.Keys.{same_key};
ghost use Rattle.reverse_core.specs.KeyLaws.{same_key-equal, same_key_equiv};

use std::hash::{Hash, Hasher};
use wire_core::Octets;

/// What makes two requests one: who asks, and the End-to-End Identifier (RFC 6733, section 3).
#[derive(Drop)]
pub struct Key {
    /// The Origin-Host.
    pub host: Octets,
    pub end: u32,
}

impl PartialEq for Key {
    ghost eq = { same_key };

    ghost laws = { partial_equiv_from_equiv same_key_equiv };

    fn eq(&self, other: &Key) -> bool {
        self.host == other.host && self.end == other.end
    }
}

impl Eq for Key {
    ghost laws = { same_key_equiv };
}

impl Hash for Key {
    ghost hash_input = { λ k. fed.u32 k.end ++ k.host ∷ [] };

    ghost respects_eq = { λ k l e. ap ⟦<Key as Hash>⟧.hash_input (same_key-equal k l e) };

    fn hash<H: Hasher>(&self, state: &mut H) {
        state.write_u32(self.end);
        // The octets stand last, so their length needn't go in.
        state.write(self.host.as_slice());
    }
}
