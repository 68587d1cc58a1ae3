//! Keys that stand once in memory.

ghost use Rattle.std.specs.Prelude.{◌≡◌, IfOk};

use crate::NoMemory;
use std::alloc::Global;
use std::hash::{Hash, Hasher};
use std::marker::Model;
use std::sync::Arc;

#[derive(Drop)]
enum Holder<'a, T> {
    Shared(Arc<T>),
    Lent(&'a T),
}

/// A key that several holders have together, so that it stands once in memory, or one that is lent for a look-up. Contracts
/// see it as the key.
#[derive(Drop)]
pub struct SharedKey<'a, T> {
    holder: Holder<'a, T>,
}

impl<'a, T> Model for SharedKey<'a, T> {
    ghost use Rattle.wire_core.specs.Keys.{key_of};

    ghost Value = { T };

    ghost view = { λ s. key_of s.holder };
}

impl<'a, T> SharedKey<'a, T> {
    /// The first holder.
    #[tactic(auto, unfolding(crate::specs::Keys::key_of))]
    pub fn new(alloc: Global, key: T) -> Result<SharedKey<'a, T>, NoMemory>
    where
        T: Drop,
        ensures { IfOk result (λ s. s ≡ key) }
    {
        Ok(SharedKey {
            holder: Holder::Shared(Arc::new(alloc, key)?),
        })
    }

    /// One that is lent.
    #[tactic(auto, unfolding(crate::specs::Keys::key_of))]
    pub fn lent(key: &'a T) -> SharedKey<'a, T>
        ensures { result ≡ key.now }
    {
        SharedKey {
            holder: Holder::Lent(key),
        }
    }

    /// One more holder of the same key.
    #[tactic(auto, unfolding(crate::specs::Keys::key_of))]
    pub fn share(&self) -> Result<SharedKey<'a, T>, NoMemory>
        ensures { IfOk result (λ s. s ≡ self.now) }
    {
        let holder = match &self.holder {
            Holder::Shared(key) => Holder::Shared(Arc::try_clone(key)?),
            Holder::Lent(key) => Holder::Lent(*key),
        };
        Ok(SharedKey { holder })
    }

    /// The key.
    #[tactic(auto, unfolding(crate::specs::Keys::key_of))]
    pub fn get(&self) -> &T
        ensures { result.now ≡ self.now }
    {
        match &self.holder {
            Holder::Shared(key) => key,
            Holder::Lent(key) => key,
        }
    }
}

impl<'a, T: PartialEq> PartialEq for SharedKey<'a, T> {
    ghost eq = { T.eq };

    ghost laws = { T.laws };

    fn eq(&self, other: &SharedKey<'a, T>) -> bool {
        *self.get() == *other.get()
    }
}

impl<'a, T: Eq> Eq for SharedKey<'a, T> {
    ghost laws = { T.Eq.laws };
}

impl<'a, T: Hash> Hash for SharedKey<'a, T> {
    ghost hash_input = { T.hash_input };

    ghost respects_eq = { T.respects_eq };

    fn hash<H: Hasher>(&self, state: &mut H) {
        self.get().hash(state)
    }
}
