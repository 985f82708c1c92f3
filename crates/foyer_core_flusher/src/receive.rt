//! From a flusher's queue into its buffer.
ghost use Rattle.std.specs.VecDeque.{deque_len, deque_capacity};
ghost use Rattle.foyer_block_index.specs.Index.{address_at, KeepsIndex};
ghost use Rattle.foyer_block_index.specs.Insertion.{displaced, inserted};
ghost use Rattle.foyer_block_index.specs.declared.indexer.Index.TheVariants.{Tombstone as Mark};
ghost use Rattle.std.specs.FinMap as finite;
ghost use Rattle.foyer_core_blocks.specs.Standing.{IsIndexedAs};
ghost use Rattle.foyer_core_blocks.specs.Addresses.{mark_of, invalid_of};
ghost use Rattle.foyer_core_flusher.specs.Marking.{bytes_of};
ghost use Rattle.foyer_core_flusher.specs.Taking.{IsPutAgain, PutsAgain};
ghost use Rattle.std.specs.Prelude.{◌≡◌, ◌+◌, ◌<◌, ◌↔◌, ◌++◌, ◌∷◌, [], ℕ, true, Some, IsTrue, option_to_list, map, length, Option, IfErr, IfOk, OnOk, OnErr, vec_len, vec_capacity};
ghost use Rattle.std.specs.Bool.{OnTrue, OnFalse};
ghost use Rattle.foyer_format_buffer.specs.Entries.{FitsBuffer, with_entry};
ghost use Rattle.foyer_device_page.specs.declared.error.Error.{Error as error};
ghost use Rattle.foyer_format_record.specs.Record.{record_bytes};
ghost use Rattle.foyer_format_record.specs.declared.compress.Compression.TheVariants as compression;
ghost use Rattle.foyer_format_record.specs.declared.serde.ages.Age.{Age as age};
ghost use Rattle.foyer_core_model.specs.State.{State};
ghost use Rattle.foyer_core_blocks.specs.Content.{Content, meaning};
ghost use Rattle.foyer_core_blocks.specs.Sizes.{AreValid};
ghost use Rattle.foyer_core_blocks.specs.Settings.{Settings};
ghost use Rattle.foyer_core_flusher.specs.Filled.{HasRoom};
ghost use Rattle.foyer_core_flusher.specs.Flushing.{IsFlusherAs};
ghost use Rattle.foyer_core_flusher.specs.Seen.{seen};
ghost use Rattle.foyer_core_flusher.specs.Taking.{TakesFront};

use crate::filled::Filled;
use crate::marking::enter_mark;
use crate::submission::{Reinsertion, TombstoneInfo};
use foyer_block_index::indexer::{EntryAddress, Indexer};
use foyer_block_index::tombstone::Tombstone;
use foyer_core_blocks::manager::Invalidated;
use foyer_device_page::error::Result;
use foyer_device_page::io::bytes::IoSliceMut;
use foyer_format_record::block::serde::Sequence;
use foyer_format_record::serde::Code;
use foyer_policy_piece::keeper::PieceRef;
use std::alloc::Allocator;
use std::collections::VecDeque;

/// What was taken from a queue.
#[derive(Drop)]
pub enum Taken<K, V, P, A: Allocator> {
    /// The queue is empty.
    Nothing,
    /// A mark, a record that was read back, or a wait.
    Other,
    /// A piece that was queued with this size in bytes. The piece is returned if it has no room or its code fails.
    Piece(usize, Option<PieceRef<K, V, P, A>>),
}

// Whether the index has a hash at the very address that a record of it was read from.
fn holds<A: Allocator + Clone>(index: &Indexer<A>, reinsertion: &Reinsertion<A>) -> bool
    ensures { IsTrue result ↔ (address_at index.now.slots reinsertion.now.hash ≡ Some reinsertion.now.address) }
{
    match index.get(reinsertion.hash) {
        Some(address) => address == reinsertion.address,
        None => false,
    }
}

// Appends a piece's record, and makes room for the piece in the list of pieces. Answers false if the record doesn't fit or a code fails.
pub(crate) fn put_piece<K: Code<A>, V: Code<A>, P, A: Allocator + Clone>(
    alloc: &A,
    filled: &mut Filled<A>,
    spare: &mut Option<IoSliceMut<A>>,
    pieces: &mut Vec<PieceRef<K, V, P, A>, A>,
    sources: &mut VecDeque<Option<EntryAddress>, A>,
    piece: &PieceRef<K, V, P, A>,
    sequence: Sequence,
) -> Result<bool>
    ensures pushed { IfOk result (λ done. OnTrue done (filled.new ≡ with_entry filled.old piece.now.piece.hash
        sequence (record_bytes piece.now.piece.hash sequence (K.encoding piece.now.piece.key) (V.encoding piece.now.piece.value)))) }
    ensures list { pieces.new.items ≡ pieces.old.items }
    ensures room { IfOk result (λ done. OnTrue done (vec_len pieces.new < vec_capacity pieces.new)) }
    ensures sources { sources.new.items ≡ sources.old.items }
    ensures place { IfOk result (λ done. OnTrue done (deque_len sources.new < deque_capacity sources.new)) }
    ensures fits { IfOk result (λ done. IsTrue done ↔ FitsBuffer filled.old compression.None
        ((K.is_encodable piece.now.piece.key ≡ true) × (V.is_encodable piece.now.piece.value ≡ true))
        (length (V.encoding piece.now.piece.value) + length (K.encoding piece.now.piece.key))) }
    ensures kept { IfOk result (λ done. OnFalse done (filled.new ≡ filled.old)) }
    ensures memory { IfErr result (λ e. e ≡ error.Memory) }
    ensures due { OnErr result (K.is_encodable piece.now.piece.key ≡ true → V.is_encodable piece.now.piece.value ≡ true
        → HasRoom filled.old (length (V.encoding piece.now.piece.value) + length (K.encoding piece.now.piece.key))) }
    ensures refused { OnErr result (filled.new ≡ filled.old) }
    ensures greatest { filled.new.greatest ≡ filled.old.greatest }
{
    if !filled.has_room(piece.key(), piece.value()) {
        return Ok(false);
    }
    pieces.reserve(1)?;
    sources.reserve(1)?;
    filled.push(
        alloc,
        spare,
        piece.key(),
        piece.value(),
        piece.hash(),
        sequence,
    )
}

// Appends a record that was read back, with the address that it was read from. It does nothing if the index no longer has that address for
// the hash, or if the record has no room.
pub(crate) fn put_reinsertion<A: Allocator + Clone>(
    alloc: &A,
    filled: &mut Filled<A>,
    spare: &mut Option<IoSliceMut<A>>,
    sources: &mut VecDeque<Option<EntryAddress>, A>,
    index: &Indexer<A>,
    reinsertion: &Reinsertion<A>,
) -> Result<()>
    ensures put { OnOk result (PutsAgain index.now.slots reinsertion.now filled.old sources.old.items filled.new sources.new.items) }
    ensures filled_kept { OnErr result (filled.new ≡ filled.old) }
    ensures sources_kept { OnErr result (sources.new.items ≡ sources.old.items) }
    ensures due { OnErr result (IsPutAgain index.now.slots reinsertion.now filled.old) }
    ensures memory { IfErr result (λ e. e ≡ error.Memory) }
{
    if !holds(index, reinsertion) {
        return Ok(());
    }
    if !filled.has_room_for(reinsertion.slice.len()) {
        return Ok(());
    }
    sources.reserve(1)?;
    let pushed = filled.push_slice(
        alloc,
        spare,
        &reinsertion.slice,
        reinsertion.hash,
        reinsertion.address.sequence,
    )?;
    if pushed {
        sources.push_back_reserved(Some(reinsertion.address));
    }
    Ok(())
}

// Appends a mark, and what it made invalid, if it did.
pub(crate) fn put_mark<A: Allocator>(
    marks: &mut Vec<Tombstone, A>,
    invalid: &mut Vec<Invalidated, A>,
    info: TombstoneInfo,
) -> Result<()>
    ensures marks { OnOk result (marks.new.items ≡ marks.old.items ++ info.tombstone ∷ []) }
    ensures invalid { OnOk result (invalid.new.items ≡ invalid.old.items ++ option_to_list info.stats) }
    ensures marks_kept { OnErr result (marks.new.items ≡ marks.old.items) }
    ensures invalid_kept { OnErr result (invalid.new.items ≡ invalid.old.items) }
    ensures memory { IfErr result (λ e. e ≡ error.Memory) }
{
    marks.reserve(1)?;
    invalid.reserve(1)?;
    marks.push_reserved(info.tombstone);
    if let Some(stats) = info.stats {
        invalid.push_reserved(stats);
    }
    Ok(())
}

// Enters the mark of a returned piece into the index, and appends the mark to `marks`. If the mark made bytes invalid, it appends these to
// `invalid`.
pub(crate) fn put_returned<A: Allocator + Clone>(
    marks: &mut Vec<Tombstone, A>,
    invalid: &mut Vec<Invalidated, A>,
    index: &mut Indexer<A>,
    hash: u64,
    sequence: Sequence,
) -> Result<()>
    ensures marks { OnOk result (map mark_of marks.new.items ≡ map mark_of marks.old.items ++ (hash, sequence) ∷ []) }
    ensures invalid { OnOk result (map invalid_of invalid.new.items
        ≡ map invalid_of invalid.old.items ++ bytes_of (displaced (finite.get index.old.slots hash) (Mark sequence))) }
    ensures entered { OnOk result (index.new.slots ≡ inserted index.old.slots hash (Mark sequence)) }
    ensures marks_kept { OnErr result (marks.new.items ≡ marks.old.items) }
    ensures invalid_kept { OnErr result (invalid.new.items ≡ invalid.old.items) }
    ensures index_kept { OnErr result (KeepsIndex index.old index.new) }
    ensures memory { IfErr result (λ e. e ≡ error.Memory) }
{
    marks.reserve(1)?;
    invalid.reserve(1)?;
    let info = enter_mark(index, hash, sequence)?;
    marks.push_reserved(info.tombstone);
    if let Some(stats) = info.stats {
        invalid.push_reserved(stats);
    }
    Ok(())
}

// Appends a wait.
pub(crate) fn put_wait<A: Allocator>(waits: &mut Vec<u64, A>, id: u64) -> Result<()>
    ensures put { OnOk result (waits.new.items ≡ waits.old.items ++ id ∷ []) }
    ensures kept { OnErr result (waits.new.items ≡ waits.old.items) }
    ensures memory { IfErr result (λ e. e ≡ error.Memory) }
{
    waits.reserve(1)?;
    waits.push_reserved(id);
    Ok(())
}
