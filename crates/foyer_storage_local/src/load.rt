//! What an engine's calls answer.
ghost use Rattle.std.specs.Prelude.{◌≡◌};
ghost use Rattle.foyer_storage_local.specs.EntryLoads.{entry_of, kv_of, is_miss, is_throttled, of_key};

use foyer_format_record::serde::Age;

/// What became of a piece that was handed in.
#[derive(Clone, Copy, Debug, PartialEq, Eq)]
pub enum Enqueued {
    /// It is queued until the next wait, close or destroy.
    Queued,
    /// It isn't taken: it is young.
    Ignored,
    /// It isn't taken, since too much is queued, and its hash is deleted.
    Deleted,
}

/// Where a loaded entry comes from.
#[derive(Clone, Copy, Debug, PartialEq, Eq)]
pub struct Populated {
    /// `Old` if the entry's block is on probation, else `Young`.
    pub age: Age,
}

/// The answer to a load.
#[derive(Debug, Drop)]
pub enum Load<K, V> {
    /// The key's entry, which was read from the device. A load of a hash answers the entry of any key with this hash.
    Entry {
        key: K,
        value: V,
        populated: Populated,
    },
    /// The key's hash has an entry, and the caller said that the device is throttled: nothing was read.
    Throttled,
    /// The hash has no entry that was written, or its entry is damaged or another key's.
    Miss,
}

impl<K: Drop, V: Drop> Load<K, V> {
    /// Gives the entry, if there is one.
    pub fn entry(self) -> Option<(K, V, Populated)>
        ensures { result ≡ entry_of self }
    {
        match self {
            Load::Entry {
                key,
                value,
                populated,
            } => Some((key, value, populated)),
            _ => None,
        }
    }

    /// Gives key and value of the entry, if there is one.
    pub fn kv(self) -> Option<(K, V)>
        ensures { result ≡ kv_of self }
    {
        match self {
            Load::Entry {
                key,
                value,
                populated: _,
            } => Some((key, value)),
            _ => None,
        }
    }
}

impl<K, V> Load<K, V> {
    /// Whether it is `Miss`.
    pub fn is_miss(&self) -> bool
        ensures { result ≡ is_miss self.now }
    {
        matches!(self, Load::Miss)
    }

    /// Whether it is `Throttled`.
    pub fn is_throttled(&self) -> bool
        ensures { result ≡ is_throttled self.now }
    {
        matches!(self, Load::Throttled)
    }
}

// What a hash has, as the answer of this key: another key's entry is a miss.
pub(crate) fn answer_of_key<K: Eq + Drop, V: Drop>(key: &K, found: Load<K, V>) -> Load<K, V>
    ensures { result ≡ of_key K.eq key.now found }
{
    match found {
        Load::Entry {
            key: own,
            value,
            populated,
        } => {
            if own == *key {
                Load::Entry {
                    key: own,
                    value,
                    populated,
                }
            } else {
                Load::Miss
            }
        }
        Load::Throttled => Load::Throttled,
        Load::Miss => Load::Miss,
    }
}
