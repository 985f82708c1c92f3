//! The hash of a key.
ghost use Rattle.std.specs.Prelude.{◌≡◌, ℕ};
ghost use Rattle.std.specs.List.{fold};

use std::hash::{BuildHasher, Hash};

/// What gives the hash of a key.
pub trait HashBuilder<K> {
    // The hash of a key.
    ghost hash_of: { Self → K → ℕ };

    /// The key's hash.
    fn hash_one(&self, key: &K) -> u64
        ensures { result ≡ hash_of self.now key.now };
}

/// The hash of a number is the number.
#[derive(Clone, Copy, Debug, Default, PartialEq, Eq)]
pub struct IdentityHashBuilder;

impl HashBuilder<u64> for IdentityHashBuilder {
    ghost hash_of = { λ _ key. key };

    fn hash_one(&self, key: &u64) -> u64 {
        *key
    }
}

/// The hash that the standard library gives a key, by a hasher that `build` makes for each.
#[derive(Clone, Copy, Debug, Default, PartialEq, Eq)]
pub struct StdHashBuilder<S> {
    /// What makes the hashers.
    pub build: S,
}

impl<K: Hash, S: BuildHasher> HashBuilder<K> for StdHashBuilder<S> {
    ghost hash_of = { λ h key.
        S.Hasher.finish (fold S.Hasher.write (S.build_hasher h.build) (K.hash_input key)) };

    fn hash_one(&self, key: &K) -> u64 {
        self.build.hash_one(key)
    }
}
