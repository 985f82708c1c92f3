//! Hashes of keys.
use foyer_format_record::serde::{HashBuilder, IdentityHashBuilder, StdHashBuilder};
use std::hash::{BuildHasherDefault, DefaultHasher, Hash};

// Through the bound, as a store calls it.
fn hash_of<K, H: HashBuilder<K>>(hashes: &H, key: &K) -> u64 {
    hashes.hash_one(key)
}

fn std_hash<K: Hash>(key: &K) -> u64 {
    let hashes = StdHashBuilder {
        build: BuildHasherDefault::<DefaultHasher>::new(),
    };
    hash_of(&hashes, key)
}

#[test]
fn the_hash_of_a_number_is_the_number(rt: HostRuntime) {
    assert_eq!(rt; hash_of(&IdentityHashBuilder, &7), 7);
    assert_eq!(rt; hash_of(&IdentityHashBuilder, &u64::MAX), u64::MAX);
}

// SipHash-1-3 with zero keys, as another implementation has it: of eight bytes, and of `abc` and 255.
#[test]
fn a_key_has_the_hash_of_the_standard_library(rt: HostRuntime) {
    assert_eq!(rt; std_hash(&0u64), 13646096770106105413);
    assert_eq!(rt; std_hash(&7u64), 7364705619221056123);
    assert_eq!(rt; std_hash(&"abc"), 17224545590736200989);
}
