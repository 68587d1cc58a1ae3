//! What makes two datagrams one request.

ghost use Rattle.std.specs.Prelude.{◌≡◌, ◌++◌, [], ◌∷◌, nat_eq};
ghost use Rattle.std.specs.Hash as fed;
ghost use Rattle.std.proofs.Common.{ap};
ghost use Rattle.std.specs.Cmp.{partial_equiv_from_equiv};
ghost use Rattle.pending_table.specs.Table.{same_key};
ghost use Rattle.pending_table.specs.KeyLaws.{same_key-equal, same_key_equiv};

use radius_packet::Via;
use std::hash::{Hash, Hasher};
use wire_core::Octets;

/// What makes two datagrams one request: the port of arrival, the source, and the octets of the packet.
#[derive(Drop)]
pub struct Key {
    pub via: Via,
    pub address: u32,
    pub port: u16,
    pub octets: Octets,
}

impl PartialEq for Key {
    ghost eq = { same_key };

    ghost laws = { partial_equiv_from_equiv same_key_equiv };

    fn eq(&self, other: &Key) -> bool {
        self.via == other.via
            && self.address == other.address
            && self.port == other.port
            && self.octets == other.octets
    }
}

impl Eq for Key {
    ghost laws = { same_key_equiv };
}

impl Hash for Key {
    ghost hash_input = { λ k. ⟦<Via as Hash>⟧.hash_input k.via ++ fed.u32 k.address ++ fed.u16 k.port ++ k.octets ∷ [] };

    ghost respects_eq = { λ k l e. ap ⟦<Key as Hash>⟧.hash_input (same_key-equal k l e) };

    fn hash<H: Hasher>(&self, state: &mut H) {
        self.via.hash(state);
        state.write_u32(self.address);
        state.write_u16(self.port);
        // The octets stand last, so their length needn't go in.
        state.write(self.octets.as_slice());
    }
}
