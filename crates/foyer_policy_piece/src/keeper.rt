//! Pieces: entries in memory, shared between the store and the engine's queues.
ghost use Rattle.std.specs.Prelude.{◌≡◌, IfOk, IsOkUnless};
ghost use Rattle.foyer_policy_piece.specs.Record.{record_of};

use foyer_device_page::error::{Error, Result};
use std::alloc::{AllocError, Allocator};
use std::fmt;
use std::fmt::{Debug, Formatter};
use std::marker::Model;
use std::ops::Deref;
use std::sync::Arc;

// What a piece consists of.
#[derive(Drop)]
struct Parts<K, V, P> {
    key: K,
    value: V,
    hash: u64,
    properties: P,
}

/// An entry in memory: key, value, the key's hash, and the properties that it was put with. It is
/// one allocation, which its clones share, and never changes.
pub struct Piece<K, V, P, A: Allocator> {
    shared: Arc<Parts<K, V, P>, A>,
}

// Written out, so that it is proved once.
impl<K: Drop, V: Drop, P: Drop, A: Allocator> Drop for Piece<K, V, P, A> {
    fn drop(self) {
        let Piece { shared: _ } = self;
    }
}

impl<K, V, P, A: Allocator> Model for Piece<K, V, P, A> {
    ghost use Rattle.foyer_policy_piece.specs.Record.{Record};
    ghost use Rattle.foyer_policy_piece.specs.Parts.{record_of_parts};
    ghost use Rattle.std.specs.Arc.{arc_value};

    ghost Value = { Record K V P };

    ghost view = { λ a. record_of_parts (arc_value a.shared) };
}

impl<K: Drop, V: Drop, P: Drop, A: Allocator> Piece<K, V, P, A> {
    /// Makes a piece. Error: Memory. Then the arguments are dropped.
    pub fn new(alloc: A, key: K, value: V, hash: u64, properties: P) -> Result<Piece<K, V, P, A>>
        ensures ok { IfOk result (λ piece. piece ≡ record_of key value hash properties) }
        ensures refused { IsOkUnless result Error.Memory }
    {
        let shared = Arc::new(
            alloc,
            Parts {
                key,
                value,
                hash,
                properties,
            },
        )?;
        Ok(Piece { shared })
    }
}

impl<K, V, P, A: Allocator> Piece<K, V, P, A> {
    /// The key.
    pub fn key(&self) -> &K
        ensures { result.now ≡ self.now.key }
    {
        &self.shared.key
    }

    /// The value.
    pub fn value(&self) -> &V
        ensures { result.now ≡ self.now.value }
    {
        &self.shared.value
    }

    /// The key's hash.
    pub fn hash(&self) -> u64
        ensures { result ≡ self.now.hash }
    {
        self.shared.hash
    }

    /// The properties.
    pub fn properties(&self) -> &P
        ensures { result.now ≡ self.now.properties }
    {
        &self.shared.properties
    }
}

/// The type's name, and the key's hash.
impl<K, V, P, A: Allocator> Debug for Piece<K, V, P, A> {
    fn fmt<W: fmt::Write>(&self, f: &mut Formatter<W>) -> fmt::Result {
        f.debug_struct("Piece")
            .field("hash", &self.shared.hash)
            .finish_non_exhaustive()
    }
}

/// A clone is one more owner of the same piece. It fails with AllocError only if there are 2^63 - 1 owners.
impl<K: Drop, V: Drop, P: Drop, A: Allocator> Clone for Piece<K, V, P, A> {
    ghost is_clone = { λ piece clone. clone ≡ piece };

    fn clone(&self) -> std::result::Result<Piece<K, V, P, A>, AllocError> {
        Ok(Piece {
            shared: Arc::try_clone(&self.shared)?,
        })
    }
}

/// A piece that a keeper may have. Dropping this reference releases nothing.
pub struct PieceRef<K, V, P, A: Allocator> {
    piece: Piece<K, V, P, A>,
    number: u64,
}

// Written out, so that it is proved once.
impl<K: Drop, V: Drop, P: Drop, A: Allocator> Drop for PieceRef<K, V, P, A> {
    fn drop(self) {
        let PieceRef {
            piece: _,
            number: _,
        } = self;
    }
}

impl<K, V, P, A: Allocator> Model for PieceRef<K, V, P, A> {
    ghost use Rattle.foyer_policy_piece.specs.Referred.{Referred};

    ghost Value = { Referred K V P };

    ghost view = { λ r. record { piece = r.piece; number = r.number } };
}

impl<K, V, P, A: Allocator> PieceRef<K, V, P, A> {
    /// Makes a reference to the piece that a keeper has under this number. This is for keepers.
    pub fn numbered(piece: Piece<K, V, P, A>, number: u64) -> PieceRef<K, V, P, A>
        ensures { result ≡ record { piece = piece; number = number } }
    {
        PieceRef { piece, number }
    }

    /// Gives the number of the piece's insertion into a keeper, from 1 up, or 0 if no keeper made this reference.
    pub fn number(&self) -> u64
        ensures { result ≡ self.now.number }
    {
        self.number
    }
}

/// The piece, and the number of its insertion.
impl<K, V, P, A: Allocator> Debug for PieceRef<K, V, P, A> {
    fn fmt<W: fmt::Write>(&self, f: &mut Formatter<W>) -> fmt::Result {
        f.debug_struct("PieceRef")
            .field("piece", &self.piece)
            .field("number", &self.number)
            .finish()
    }
}

impl<K, V, P, A: Allocator> Deref for PieceRef<K, V, P, A> {
    type Target = Piece<K, V, P, A>;

    ghost deref_gives = { λ r piece. piece ≡ r.piece };

    fn deref(&self) -> &Piece<K, V, P, A> {
        &self.piece
    }
}

/// A reference that no keeper made. A release by it removes nothing.
impl<K, V, P, A: Allocator> From<Piece<K, V, P, A>> for PieceRef<K, V, P, A> {
    ghost from_gives = { λ piece r. (r.piece ≡ piece) × (r.number ≡ 0) };

    fn from(piece: Piece<K, V, P, A>) -> PieceRef<K, V, P, A> {
        PieceRef { piece, number: 0 }
    }
}
