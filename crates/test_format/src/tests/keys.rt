//! Which types are keys and values of the disk cache: each with a code, and no impl of its own.
use foyer_format_record::serde::{StorageKey, StorageValue};
use std::alloc::Global;
use std::test::Fail;

fn as_key<K: StorageKey<Global>>(key: K) -> K {
    key
}

fn as_value<V: StorageValue<Global>>(value: V) -> V {
    value
}

#[test]
fn a_type_with_a_code_is_a_key_and_a_value(rt: HostRuntime) -> Result<(), Fail> {
    let text = String::from_str(rt.alloc(), "key")?;
    assert_eq!(rt; as_key(text).as_str(), "key");
    assert_eq!(rt; as_key(7u64), 7);
    assert!(rt; as_value(true));
    Ok(())
}
