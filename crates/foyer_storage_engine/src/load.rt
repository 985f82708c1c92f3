//! What a load gives, and how a store decides it.
ghost use Rattle.std.specs.Prelude.{◌≡◌};
ghost use Rattle.foyer_storage_engine.specs.Loading.{entry_of, kv_of, is_miss, is_throttled, is_of};
ghost use Rattle.foyer_storage_engine.specs.Decided.{decided_load};

use foyer_format_record::serde::Age;
use foyer_policy_piece::keeper::Piece;
use std::alloc::Allocator;
use std::fmt;
use std::fmt::{Debug, Formatter};

/// Where a loaded entry comes from.
#[derive(Clone, Copy, Debug, PartialEq, Eq)]
pub struct Populated {
    /// How long it has been on its way through the cache.
    pub age: Age,
}

/// The answer to a load.
#[derive(Drop)]
pub enum Load<K, V, P, A: Allocator> {
    /// An entry that was read from the device.
    Entry {
        key: K,
        value: V,
        populated: Populated,
    },
    /// A piece that the keeper had. It may not be written yet.
    Piece {
        piece: Piece<K, V, P, A>,
        populated: Populated,
    },
    /// The device is throttled: nothing was read.
    Throttled,
    /// No entry was found, or only one of another key.
    Miss,
}

/// Which answer it is.
impl<K, V, P, A: Allocator> Debug for Load<K, V, P, A> {
    fn fmt<W: fmt::Write>(&self, f: &mut Formatter<W>) -> fmt::Result {
        f.write_str(match self {
            Load::Entry { .. } => "Entry",
            Load::Piece { .. } => "Piece",
            Load::Throttled => "Throttled",
            Load::Miss => "Miss",
        })
    }
}

impl<K: Drop, V: Drop, P: Drop, A: Allocator> Load<K, V, P, A> {
    /// Gives the entry, if one was read from the device.
    pub fn entry(self) -> Option<(K, V, Populated)>
        ensures { result ≡ entry_of self }
    {
        match self {
            Load::Entry {
                key,
                value,
                populated,
            } => Some((key, value, populated)),
            _ => None,
        }
    }

    /// Gives key and value of the entry, if one was read from the device.
    pub fn kv(self) -> Option<(K, V)>
        ensures { result ≡ kv_of self }
    {
        match self {
            Load::Entry {
                key,
                value,
                populated: _,
            } => Some((key, value)),
            _ => None,
        }
    }
}

impl<K, V, P, A: Allocator> Load<K, V, P, A> {
    /// Whether it is `Miss`.
    pub fn is_miss(&self) -> bool
        ensures { result ≡ is_miss self.now }
    {
        matches!(self, Load::Miss)
    }

    /// Whether it is `Throttled`.
    pub fn is_throttled(&self) -> bool
        ensures { result ≡ is_throttled self.now }
    {
        matches!(self, Load::Throttled)
    }
}

// Whether an answer has no other key than this one.
fn is_of<K: Eq, V, P, A: Allocator>(answer: &Load<K, V, P, A>, key: &K) -> bool
    ensures { result ≡ is_of K.eq key.now answer.now }
{
    match answer {
        Load::Entry { key: own, .. } => own == key,
        Load::Piece { piece, .. } => piece.key() == key,
        Load::Throttled | Load::Miss => true,
    }
}

/// Gives what a store's load of a key gives. If the keeper has a piece, that is the piece, as `Piece` of age `Young`. Else it is the engine's
/// answer, but an answer with another key becomes `Miss`.
pub fn decide_load<K: Eq + Drop, V: Drop, P: Drop, A: Allocator>(
    key: &K,
    kept: Option<Piece<K, V, P, A>>,
    answer: Load<K, V, P, A>,
) -> Load<K, V, P, A>
    ensures { result ≡ decided_load K.eq key.now kept answer }
{
    match kept {
        Some(piece) => Load::Piece {
            piece,
            populated: Populated { age: Age::Young },
        },
        None if is_of(&answer, key) => answer,
        None => Load::Miss,
    }
}
