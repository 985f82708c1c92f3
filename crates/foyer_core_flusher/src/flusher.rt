//! A flusher: what waits in its queue, what it received, and the batch that it writes.
ghost use Rattle.std.specs.Prelude.{◌≡◌, ◌+◌, ◌*◌, ◌^◌, ◌↔◌, ◌<◌, ◌≤◌, ℕ, Option, None, Some, IsTrue, true, false, length, MatchOption, IsOkUnless};
ghost use Rattle.std.specs.Prelude.{IfErr, IfOk, OnErr, OnOk};
ghost use Rattle.foyer_block_index.specs.Index.{IndexMap, KeepsIndex};
ghost use Rattle.foyer_format_buffer.specs.Entries.{left_of};
ghost use Rattle.foyer_device_page.specs.declared.error.Error.{Error as error};
ghost use Rattle.foyer_device_page.specs.declared.error.Error.TheVariants.{Memory};
ghost use Rattle.foyer_format_record.specs.declared.serde.ages.Age.{Age as age};
ghost use Rattle.foyer_core_model.specs.Reply as model_reply;
ghost use Rattle.foyer_core_model.specs.State.{State};
ghost use Rattle.foyer_core_model.specs.Step as model_step;
ghost use Rattle.foyer_core_blocks.specs.Content.{Content, Meaning, meaning};
ghost use Rattle.foyer_core_blocks.specs.Sizes.{AreValid};
ghost use Rattle.foyer_core_blocks.specs.Settings.{Settings};
ghost use Rattle.foyer_block_manager.specs.BlockSets.{HasSameRules};
ghost use Rattle.foyer_block_manager.specs.Managed.{Managed};
ghost use Rattle.foyer_block_manager.specs.Shown.{AreShownAll, written_of};
ghost use Rattle.foyer_core_blocks.specs.Standing.{IsIndexedAs};

mod reports;

use crate::batch::Next;
pub use crate::batch::{Batch, Write, WriteBytes, Writing};
use crate::begin::handles;
use crate::filled::Filled;
use crate::receive::{Taken, put_mark, put_piece, put_reinsertion, put_returned, put_wait};
pub use crate::submission::{Invalidated, Reinsertion, Submission, TombstoneInfo};
use foyer_block_index::indexer::{EntryAddress, Indexer};
use foyer_block_index::manager::BlockId;
use foyer_block_index::tombstone::Tombstone;
use foyer_block_manager::block::eviction::EvictionPicker;
use foyer_block_manager::block::manager::BlockManager;
use foyer_core_blocks::core_laws::settings::Settings;
use foyer_core_blocks::manager::release;
use foyer_device_page::error::Result;
use foyer_device_page::io::bytes::IoSliceMut;
use foyer_format_buffer::{Batch as Split, SplitCtx};
use foyer_format_record::serde::Code;
use foyer_policy_piece::keeper::PieceRef;
use std::alloc::Allocator;
use std::collections::VecDeque;
use std::mem;

/// One flusher: its queue, what it received since the batch before, and its batch. Its fields are public for the core alone.
pub struct Flusher<K, V, P, A: Allocator> {
    /// What waits for it, the oldest first.
    pub queue: VecDeque<Submission<K, V, P, A>, A>,
    /// The records that were received.
    pub filled: Filled<A>,
    /// For each of these records, the address that it was read from, or `None` if it is a piece's.
    pub sources: VecDeque<Option<EntryAddress>, A>,
    /// Pages of a batch that was written, to be filled next.
    pub spare: Option<IoSliceMut<A>>,
    /// The marks that were received.
    pub marks: Vec<Tombstone, A>,
    /// What these made invalid.
    pub invalid: Vec<Invalidated, A>,
    /// The pieces whose records were received.
    pub pieces: Vec<PieceRef<K, V, P, A>, A>,
    /// The waits that were received.
    pub waits: Vec<u64, A>,
    /// The position at which the next batch's data begin.
    pub context: SplitCtx<A>,
    /// The block in which its next batch continues, if there is one.
    pub own: Option<BlockId>,
    /// What it writes, if it does.
    pub batch: Option<Batch<K, V, P, A>>,
    ghost fits: { context.sizes.index + filled.greatest ≤ context.sizes.block },
    ghost small: { context.sizes.block ≤ 2 ^ 32 },
}

// Written out, so that it is proved once.
impl<K: Drop, V: Drop, P: Drop, A: Allocator> Drop for Flusher<K, V, P, A> {
    fn drop(self) {
        let Flusher {
            queue: _,
            filled: _,
            sources: _,
            spare: _,
            marks: _,
            invalid: _,
            pieces: _,
            waits: _,
            context: _,
            own: _,
            batch: _,
        } = self;
    }
}

impl<K, V, P, A: Allocator> Flusher<K, V, P, A> {
    ghost use Rattle.foyer_core_flusher.specs.Cleared.{cleared};
    ghost use Rattle.foyer_core_flusher.specs.FlushInTurn.{IsUnlogged};
    ghost use Rattle.foyer_core_flusher.specs.FlusherSteps.{StandsAt, FlusherStep};
    ghost use Rattle.foyer_core_flusher.specs.Idle.{idle};
    ghost use Rattle.foyer_core_flusher.specs.Seen.{is_still, seen};

    /// Gives a flusher that has nothing, in a core of these sizes, which `Settings::check` must accept. Errors: `Memory`.
    pub fn new(alloc: &A, settings: &Settings) -> Result<Flusher<K, V, P, A>>
    where
        A: Clone,
        requires { AreValid settings.now }
        ensures idle { IfOk result (λ flusher. seen flusher ≡ idle settings.now) }
        ensures refused { IsOkUnless result Memory }
    {
        let queue_alloc = alloc.clone()?;
        let marks = Vec::new(alloc.clone()?);
        let invalid = Vec::new(alloc.clone()?);
        let waits = Vec::new(alloc.clone()?);
        let context = SplitCtx::new(
            alloc.clone()?,
            settings.block_size,
            settings.blob_index_size,
        )?;
        let sources = VecDeque::new(alloc.clone()?);
        let pieces = Vec::new(alloc.clone()?);
        Ok(Flusher {
            queue: VecDeque::new(queue_alloc),
            filled: Filled::new(
                settings.buffer_room(),
                settings.block_size - settings.blob_index_size,
            ),
            sources,
            spare: None,
            marks,
            invalid,
            pieces,
            waits,
            context,
            own: None,
            batch: None,
        })
    }

    /// How many blocks of its batch are not yet issued; 0 without a batch.
    pub fn block_count(&self) -> usize
        ensures { MatchOption self.now.batch (result ≡ 0) (λ batch. result ≡ length batch.blocks.items) }
    {
        match &self.batch {
            Some(batch) => batch.blocks.len(),
            None => 0,
        }
    }

    /// Whether less than half of its buffer's room is left. Whoever drives the flusher begins a flush then. If it does so before the next
    /// `receive`, no record of at most half of the room lacks room in the buffer.
    pub fn wants_flush(&self) -> bool
        ensures { IsTrue result ↔ (2 * left_of self.now.filled < self.now.filled.room) }
    {
        let room = self.filled.room();
        self.filled.left() < room - room / 2
    }

    /// Whether nothing is queued, received or in a batch.
    pub fn is_idle(&self) -> bool
        ensures { result ≡ is_still self.now }
    {
        self.queue.is_empty()
            && self.sources.is_empty()
            && self.marks.is_empty()
            && self.waits.is_empty()
            && self.batch.is_none()
    }

    /// Whether a batch is there for which the log of deletes hasn't answered.
    pub fn is_unlogged(&self) -> bool
        ensures { IsTrue result ↔ IsUnlogged self.now }
    {
        match &self.batch {
            Some(batch) => batch.logged.is_none(),
            None => false,
        }
    }

    /// Notes whether the log of deletes took the batch's marks.
    pub fn log(&mut self, went_well: bool)
        requires { IsUnlogged self.old }
        ensures { (m : Meaning K V P) (s : Settings) (sound : AreValid s) (f : ℕ) (it : State Content)
            (slots : IndexMap) (blocks : Managed) → StandsAt m s f it (seen self.old) slots blocks
            → FlusherStep m s sound (model_step.LogWrote f went_well) f it model_reply.Done
            (seen self.new) slots blocks }
    {
        let Some(batch) = &mut self.batch else {
            unreachable!()
        };
        batch.logged = Some(went_well);
    }

    // It has no block, and its splitter is fresh.
    pub(crate) fn clear(&mut self)
        ensures { seen self.new ≡ cleared (seen self.old) }
    {
        self.own = None;
        self.context.reset();
    }
}

impl<K, V, P, A: Allocator + Clone> Flusher<K, V, P, A> {
    ghost use Rattle.foyer_core_flusher.specs.Begun.{IsBegun};
    ghost use Rattle.foyer_core_flusher.specs.FlushInTurn.{MayBegin, HasBlock};
    ghost use Rattle.foyer_core_flusher.specs.FlusherSteps.{StandsAt, FlusherStep, issued_next};
    ghost use Rattle.foyer_core_flusher.specs.Flushing.{IsFlusherAs};
    ghost use Rattle.foyer_core_flusher.specs.Leaving.{left_by};
    ghost use Rattle.foyer_core_flusher.specs.Seen.{seen};
    ghost use Rattle.foyer_core_flusher.specs.Taking.{MovesPiece, TakesFront};

    /// Takes the front of the queue. It returns a piece that has no room, or whose code fails. Then a mark of the piece's sequence enters
    /// the index, and is kept in the piece's place. It drops a record that was read back if the record has no room. It also drops such a
    /// record if the index doesn't have the very address that the record was read from. Errors: `Memory` if an allocation was refused. Then
    /// what the allocation was for stays at the front.
    pub fn receive(&mut self, alloc: &A, index: &mut Indexer<A>) -> Result<Taken<K, V, P, A>>
    where
        K: Code<A>,
        V: Code<A>,
        ensures refused { OnErr result (seen self.new ≡ seen self.old) }
        ensures kept { OnErr result (KeepsIndex index.old index.new) }
        ensures memory { IfErr result (λ e. e ≡ error.Memory) }
        ensures takes { (age_of : P → Option age) (s : Settings) (sound : AreValid s) (st : State Content) (f : ℕ)
            → IsFlusherAs (meaning K.encoding V.encoding K.is_encodable V.is_encodable K.is_decodable V.is_decodable age_of) s (seen self.old) (st.flushers f)
            → IsIndexedAs s index.old.slots st.index
            → TakesFront (meaning K.encoding V.encoding K.is_encodable V.is_encodable K.is_decodable V.is_decodable age_of) s sound st f result self.new index.new.slots }
        ensures pieces { MovesPiece self.old.queue.items self.old.pieces.items self.new.pieces.items result }
    {
        match self.queue.pop_front() {
            None => Ok(Taken::Nothing),
            Some(
                Submission::CacheEntry {
                    piece,
                    estimated_size,
                    sequence,
                },
            ) => match put_piece(
                alloc,
                &mut self.filled,
                &mut self.spare,
                &mut self.pieces,
                &mut self.sources,
                &piece,
                sequence,
            ) {
                Ok(true) => {
                    self.pieces.push_reserved(piece);
                    self.sources.push_back_reserved(None);
                    Ok(Taken::Piece(estimated_size, None))
                }
                Ok(false) => match put_returned(
                    &mut self.marks,
                    &mut self.invalid,
                    index,
                    piece.hash(),
                    sequence,
                ) {
                    Ok(()) => Ok(Taken::Piece(estimated_size, Some(piece))),
                    Err(error) => {
                        self.queue.push_front_reserved(Submission::CacheEntry {
                            piece,
                            estimated_size,
                            sequence,
                        });
                        Err(error)
                    }
                },
                Err(error) => {
                    self.queue.push_front_reserved(Submission::CacheEntry {
                        piece,
                        estimated_size,
                        sequence,
                    });
                    Err(error)
                }
            },
            Some(Submission::Tombstone { tombstone, stats }) => match put_mark(
                &mut self.marks,
                &mut self.invalid,
                TombstoneInfo { tombstone, stats },
            ) {
                Ok(()) => Ok(Taken::Other),
                Err(error) => {
                    self.queue
                        .push_front_reserved(Submission::Tombstone { tombstone, stats });
                    Err(error)
                }
            },
            Some(Submission::Reinsertion { reinsertion }) => match put_reinsertion(
                alloc,
                &mut self.filled,
                &mut self.spare,
                &mut self.sources,
                index,
                &reinsertion,
            ) {
                Ok(()) => Ok(Taken::Other),
                Err(error) => {
                    self.queue
                        .push_front_reserved(Submission::Reinsertion { reinsertion });
                    Err(error)
                }
            },
            Some(Submission::Wait { id }) => match put_wait(&mut self.waits, id) {
                Ok(()) => Ok(Taken::Other),
                Err(error) => {
                    self.queue.push_front_reserved(Submission::Wait { id });
                    Err(error)
                }
            },
        }
    }

    /// Whether a batch may begin: none is there, and something was received since the one before.
    pub fn may_begin(&self) -> bool
        ensures { IsTrue result ↔ MayBegin self.now }
    {
        self.batch.is_none()
            && (!self.filled.is_empty() || !self.marks.is_empty() || !self.waits.is_empty())
    }

    /// Makes a batch of what was received, from the splitter's position on, and gives the batch's marks. Errors: `Memory` if an allocation was
    /// refused. Nothing changes then.
    pub fn begin(&mut self, alloc: &A) -> Result<Vec<Tombstone, A>>
        requires idle { self.old.batch ≡ None }
        ensures refused { OnErr result (seen self.new ≡ seen self.old) }
        ensures begins { IfOk result (λ issued. IsBegun self.old self.new issued.items) }
        ensures memory { IfErr result (λ e. e ≡ error.Memory) }
    {
        let issued = Vec::from_slice(alloc.clone()?, self.marks.as_slice())?;
        let (for_marks, for_invalid, for_pieces, for_waits, for_sources) = handles(alloc)?;
        let Split { blocks, bytes } = self.filled.split(alloc, &mut self.context)?;
        self.filled.reset();
        let batch = Batch {
            blocks,
            pages: bytes,
            sources: mem::replace(&mut self.sources, VecDeque::new(for_sources)),
            continues_own_block: self.own.is_some(),
            writing: None,
            marks: mem::replace(&mut self.marks, Vec::new(for_marks)),
            invalid: mem::replace(&mut self.invalid, Vec::new(for_invalid)),
            pieces: mem::replace(&mut self.pieces, Vec::new(for_pieces)),
            waits: mem::replace(&mut self.waits, Vec::new(for_waits)),
            logged: None,
        };
        match self.batch.replace(batch) {
            None => {}
            Some(_) => unreachable!(),
        }
        Ok(issued)
    }

    /// Whether the next block of the batch is to be issued.
    pub fn has_block(&self) -> bool
        ensures { IsTrue result ↔ HasBlock self.now }
    {
        match &self.batch {
            Some(batch) => batch.writing.is_none() && !batch.blocks.is_empty(),
            None => false,
        }
    }

    /// Issues the batch's next block, which must be there. It is the flusher's own block, if the batch goes on with that. Else the
    /// flusher's own block becomes evictable, and the pickers are notified of it. The flusher then begins the block that it was given while
    /// it waited, or the one that has been clean longest. If there is none, the answer is `NoBlock`, and the flusher waits. No record is
    /// copied. Errors: `Memory`, which changes nothing.
    pub fn next<E: EvictionPicker>(
        &mut self,
        alloc: &A,
        number: u32,
        manager: &mut BlockManager<A>,
        pickers: &mut [E],
    ) -> Result<Next<A>>
        requires due { HasBlock self.old }
        requires there { number < length manager.old.ready }
        ensures refused { OnErr result (seen self.new ≡ seen self.old) }
        ensures manager_kept { OnErr result (manager.new ≡ manager.old) }
        ensures unshown { OnErr result (pickers.new ≡ pickers.old) }
        ensures shown { OnOk result (AreShownAll E.learns
            (written_of manager.old.blocks (left_by self.old.batch self.old.own)) pickers.old pickers.new) }
        ensures memory { IfErr result (λ e. e ≡ error.Memory) }
        ensures same { HasSameRules manager.old manager.new }
        ensures done { IfOk result (λ next. (m : Meaning K V P) (s : Settings) (sound : AreValid s)
            (it : State Content) (slots : IndexMap)
            → StandsAt m s number it (seen self.old) slots manager.old
            → FlusherStep m s sound (model_step.FlushBlock number) number it (issued_next next)
            (seen self.new) slots manager.new) }
    {
        let Some(batch) = &mut self.batch else {
            unreachable!()
        };
        let prepared = batch.prepare(alloc)?;
        let block_size = self.context.block_size();
        if let Some(block) = batch.goes_on_with(self.own) {
            return Ok(Next::Block(block, batch.issue(block, block_size, prepared)));
        }
        release(&mut self.own, manager, pickers);
        match manager.get_clean_block(number) {
            None => Ok(Next::NoBlock),
            Some(block) => {
                let block = block.id();
                self.own = Some(block);
                Ok(Next::Block(block, batch.issue(block, block_size, prepared)))
            }
        }
    }
}
