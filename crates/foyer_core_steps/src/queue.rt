//! What callers queue.
ghost use Rattle.std.specs.Prelude.{◌≡◌, ◌<◌, ◌-◌, ◌^◌, ◌%◌, IsTrue, ◌↔◌, Some, true, is_some, vec_len, min, IfOk, OnErr};
ghost use Rattle.foyer_block_index.specs.Index.{address_at};
ghost use Rattle.foyer_core_steps.specs.declared.reply.Reply.TheVariants as reply;
ghost use Rattle.foyer_core_steps.specs.Answered.{HandsBack, DescribesNothing, Enqueues, Deleting, Marks};
ghost use Rattle.foyer_core_steps.specs.Marking.{marked};
ghost use Rattle.foyer_core_steps.specs.StateOf.{IsStateOf};
ghost use Rattle.foyer_core_steps.specs.Unchanged.{IsUnchanged};
ghost use Rattle.foyer_core_model.specs.State.{State};
ghost use Rattle.foyer_core_flusher.specs.Content.{Content, Meaning};
ghost use Rattle.foyer_core_flusher.specs.CoreRules.{machine};
ghost use Rattle.foyer_core_flusher.specs.Sizes.{AreValid};
ghost use Rattle.foyer_core_flusher.specs.Settings.{Settings};
ghost use Rattle.foyer_core_steps.specs.Refines.{RefinesUncounted};
ghost use Rattle.foyer_core_steps.specs.declared.step.Step.TheVariants as step;
ghost use Rattle.foyer_format_record.specs.declared.serde.ages.Age.TheVariants as age;

use crate::reply::Reply;
use crate::state::Core;
use crate::step::Step;
use foyer_core_flusher::flusher::Submission;
use foyer_core_flusher::marking::enter_mark;
use foyer_device_page::error::{ErrorKind, Result};
use foyer_format_record::block::serde::Sequence;
use foyer_format_record::serde::{Age, Properties};
use foyer_policy_piece::keeper::PieceRef;
use std::alloc::Allocator;

fn is_young<P: Properties>(properties: &P) -> bool
    ensures { IsTrue result ↔ (P.age properties.now ≡ Some age.Young) }
{
    match properties.age() {
        Some(Age::Young) => true,
        _ => false,
    }
}

impl<K, V, P, A: Allocator + Clone> Core<K, V, P, A> {
    // The flusher at which the pieces and the marks of a hash are queued.
    pub(crate) fn flusher_of(&self, hash: u64) -> usize
        ensures number { result ≡ hash % vec_len self.now.flushers }
        ensures within { result < vec_len self.now.flushers }
    {
        (hash % self.flushers.len() as u64) as usize
    }

    // Draws a sequence for the mark of a hash, which enters the index at once and is queued.
    fn draw_mark(&mut self, hash: u64) -> Result<Sequence>
        requires { self.old.next < 2 ^ 64 - 1 }
        ensures refused { OnErr result (IsUnchanged self.old self.new) }
        ensures drawn { IfOk result (λ sequence. Marks hash sequence self.old self.new) }
        ensures closed { self.new.closed ≡ self.old.closed }
        ensures meets { (m : Meaning K V P) (s : Settings) (sound : AreValid s) (it : State Content)
            → IsStateOf m s self.old it
            → IfOk result (λ sequence. IsStateOf m s self.new (marked (machine m s sound) it hash sequence)) }
    {
        let flusher = self.flusher_of(hash);
        let queue = &mut self.flushers[flusher].queue;
        queue.reserve(1)?;
        let sequence = self.next;
        let info = enter_mark(&mut self.index, hash, sequence)?;
        queue.push_back_reserved(Submission::Tombstone {
            tombstone: info.tombstone,
            stats: info.stats,
        });
        self.next = sequence + 1;
        Ok(sequence)
    }

    /// Whether so much is queued that a piece isn't taken: the sizes of the queued pieces together exceed the threshold of the
    /// settings.
    pub fn is_full(&self) -> bool
        ensures { IsTrue result ↔ (self.now.settings.submit_queue_size_threshold < min self.now.queued 18446744073709551615) }
    {
        self.queued.min(u64::MAX as u128) > self.settings.submit_queue_size_threshold as u128
    }

    pub(crate) fn enqueue(&mut self, piece: PieceRef<K, V, P, A>, size: usize) -> Reply<K, V, P, A>
    where
        P: Properties,
        ensures back { HandsBack (step.Enqueue piece size) result self.old self.new }
        ensures queued { Enqueues (step.Enqueue piece size) result self.old self.new }
        ensures meets { (m : Meaning K V P) → m.age_of ≡ P.age
            → RefinesUncounted m (step.Enqueue piece size) result self.old self.new }
    {
        if self.closed {
            return Reply::Refused(ErrorKind::Closed, Step::Enqueue { piece, size });
        }
        if is_young(piece.properties()) {
            return Reply::Ignored(piece);
        }
        if self.next == u64::MAX {
            return Reply::Refused(ErrorKind::SequenceEnd, Step::Enqueue { piece, size });
        }
        if self.queued.min(u64::MAX as u128) > self.settings.submit_queue_size_threshold as u128 {
            return match self.draw_mark(piece.hash()) {
                Ok(sequence) => Reply::Dropped(piece, sequence),
                Err(_) => Reply::Refused(ErrorKind::Memory, Step::Enqueue { piece, size }),
            };
        }
        let flusher = self.flusher_of(piece.hash());
        let queue = &mut self.flushers[flusher].queue;
        if queue.reserve(1).is_err() {
            return Reply::Refused(ErrorKind::Memory, Step::Enqueue { piece, size });
        }
        let sequence = self.next;
        queue.push_back_reserved(Submission::CacheEntry {
            piece,
            estimated_size: size,
            sequence,
        });
        self.queued = self.queued.saturating_add(size as u128);
        self.next = sequence + 1;
        Reply::Queued(sequence)
    }

    // The mark enters the index at once.
    pub(crate) fn delete(&mut self, hash: u64) -> Reply<K, V, P, A>
        ensures back { HandsBack (step.Delete hash) result self.old self.new }
        ensures deleted { Deleting (step.Delete hash) result self.old self.new }
        ensures meets { (m : Meaning K V P) → RefinesUncounted m (step.Delete hash) result self.old self.new }
    {
        if self.closed {
            return Reply::Refused(ErrorKind::Closed, Step::Delete { hash });
        }
        if self.next == u64::MAX {
            return Reply::Refused(ErrorKind::SequenceEnd, Step::Delete { hash });
        }
        match self.draw_mark(hash) {
            Ok(sequence) => Reply::Deleted(sequence),
            Err(_) => Reply::Refused(ErrorKind::Memory, Step::Delete { hash }),
        }
    }

    pub(crate) fn wait(&mut self, flusher: u32, id: u64) -> Reply<K, V, P, A>
        ensures back { HandsBack (step.Wait flusher id) result self.old self.new }
        ensures nothing { DescribesNothing result }
        ensures meets { (m : Meaning K V P) → RefinesUncounted m (step.Wait flusher id) result self.old self.new }
    {
        if flusher as usize >= self.flushers.len() {
            return Reply::NotNow(Step::Wait { flusher, id });
        }
        let found = &mut self.flushers[flusher as usize];
        if found.queue.reserve(1).is_err() {
            return Reply::Refused(ErrorKind::Memory, Step::Wait { flusher, id });
        }
        found.queue.push_back_reserved(Submission::Wait { id });
        Reply::Done
    }

    pub(crate) fn may_contains(&self, hash: u64) -> Reply<K, V, P, A>
        ensures issued { result ≡ reply.Answer (is_some (address_at self.now.index.slots hash)) }
        ensures meets { (m : Meaning K V P) → RefinesUncounted m (step.MayContains hash) result self.now self.now }
    {
        Reply::Answer(self.index.get(hash).is_some())
    }

    pub(crate) fn close(&mut self) -> Reply<K, V, P, A>
        ensures reply { result ≡ reply.Done }
        ensures closed { self.new.closed ≡ true }
        ensures rest { IsUnchanged self.old (record self.new { closed = self.old.closed }) }
        ensures meets { (m : Meaning K V P) → RefinesUncounted m step.Close result self.old self.new }
    {
        self.closed = true;
        Reply::Done
    }
}
