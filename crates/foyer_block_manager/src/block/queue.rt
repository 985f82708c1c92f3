//! Ids in the order in which they were queued, each once.
ghost use Rattle.std.specs.Prelude.{◌≡◌, ◌+◌, ◌<◌, ◌≤◌, ℕ, List, [], ◌++◌, ◌∷◌, length, take, nat_lt, true, IfOk, IsOkUnless, vec_len, vec_capacity, slice_get, slice_set};
ghost use Rattle.std.specs.VecDeque.{deque_capacity, deque_len};
ghost use Rattle.std.specs.List.{filter};
ghost use Rattle.foyer_device_page.specs.declared.error.Error.TheVariants.{Memory};
ghost use Rattle.foyer_core_model.specs.Ids.{is_id_in, without_id, AreDistinct};
ghost use Rattle.foyer_block_manager.specs.Pickers.{is_evictable_in};

use crate::block::eviction::is_pick;
use crate::block::states::BlockState;
use foyer_block_index::manager::BlockId;
use foyer_device_page::error::Result;
use std::alloc::Global;
use std::collections::VecDeque;
use std::marker::Model;

#[derive(Debug, Drop)]
pub(crate) struct Queue {
    ids: VecDeque<BlockId>,
    // Whether each id below the room is queued. For other ids the queue is searched.
    is_queued: Vec<bool>,
}

impl Model for Queue {
    ghost use Rattle.std.specs.Prelude.{◌≡◌};
    ghost use Rattle.std.specs.VecDeque.{deque_capacity};
    ghost use Rattle.foyer_block_manager.specs.Queues.{Queued, AreFlagged};

    ghost Value = { Queued };

    ghost view = { λ q. record { ids = q.ids.items; room = deque_capacity q.ids } };

    ghost invariant = { λ q. AreFlagged q.ids.items q.is_queued.items };
}

#[tactic(auto, using(crate::proofs::WaitingLemmas::is_id_in_any))]
fn contains(ids: &VecDeque<BlockId>, id: BlockId) -> bool
    ensures { result ≡ is_id_in id ids.now.items }
{
    ids.contains(&id)
}

fn set_flag(is_queued: &mut Vec<bool>, id: BlockId, flag: bool)
    ensures { is_queued.new.items ≡ slice_set is_queued.old.items id flag }
{
    if let Some(is) = is_queued.get_mut(id as usize) {
        *is = flag;
    }
}

fn front_of(ids: &VecDeque<BlockId>) -> Option<BlockId>
    ensures { result ≡ slice_get ids.now.items 0 }
{
    ids.front().copied()
}

// Takes an id out of distinct ones, in constant time at the front.
fn take_out(ids: &mut VecDeque<BlockId>, id: BlockId)
    requires { AreDistinct ids.old.items }
    ensures ids { ids.new.items ≡ without_id id ids.old.items }
    ensures room { deque_capacity ids.new ≡ deque_capacity ids.old }
{
    let Some(front) = front_of(ids) else {
        return;
    };
    if front == id {
        let _ = ids.pop_front();
        return;
    }
    ids.retain(|queued| *queued != id);
}

// Adds an id if it is that of an evictable block.
fn add_if_evictable(blocks: &[BlockState], id: BlockId, found: &mut Vec<BlockId>)
    requires { is_evictable_in blocks.now id ≡ true → vec_len found.old < vec_capacity found.old }
    ensures found { found.new.items ≡ found.old.items ++ filter (is_evictable_in blocks.now) (id ∷ []) }
    ensures room { vec_capacity found.new ≡ vec_capacity found.old }
{
    if is_pick(blocks, Some(id)) {
        found.push_reserved(id);
    }
}

// Puts the evictable ones among the first `count` ids into `found`.
fn evictable_of(
    ids: &VecDeque<BlockId>,
    count: usize,
    blocks: &[BlockState],
    found: &mut Vec<BlockId>,
)
    requires once { AreDistinct ids.now.items }
    requires within { count ≤ length ids.now.items }
    requires empty { found.old.items ≡ [] }
    requires room { length blocks.now ≤ vec_capacity found.old }
    ensures { found.new.items ≡ filter (is_evictable_in blocks.now) (take count ids.now.items) }
{
    for index in 0..count {
        add_if_evictable(blocks, ids[index], found);
    }
}

impl Queue {
    ghost use Rattle.foyer_block_manager.specs.Queues.{queued_with, queued_without};

    // An empty queue with room for `room` ids.
    pub(crate) fn new(alloc: Global, room: usize) -> Result<Queue>
        ensures made { IfOk result (λ q. q ≡ record { ids = []; room = room }) }
        ensures refused { IsOkUnless result Memory }
    {
        let ids = VecDeque::with_capacity(alloc, room)?;
        let is_queued = vec![in alloc; false; room]?;
        Ok(Queue { ids, is_queued })
    }

    fn has(&self, id: BlockId) -> bool
        ensures { result ≡ is_id_in id self.now.ids }
    {
        match self.is_queued.get(id as usize) {
            Some(is) => *is,
            None => contains(&self.ids, id),
        }
    }

    // Whether there is room for one more.
    fn has_room(&self) -> bool
        ensures { result ≡ nat_lt (length self.now.ids) self.now.room }
    {
        self.ids.len() < self.ids.capacity()
    }

    // Appends an id, unless it is there already or there is no room.
    pub(crate) fn push(&mut self, id: BlockId)
        ensures { self.new ≡ queued_with self.old id }
    {
        if self.has(id) || !self.has_room() {
            return;
        }
        self.ids.push_back_reserved(id);
        set_flag(&mut self.is_queued, id, true);
    }

    pub(crate) fn remove(&mut self, id: BlockId)
        ensures { self.new ≡ queued_without self.old id }
    {
        take_out(&mut self.ids, id);
        set_flag(&mut self.is_queued, id, false);
    }

    pub(crate) fn front(&self) -> Option<BlockId>
        ensures { result ≡ slice_get self.now.ids 0 }
    {
        front_of(&self.ids)
    }

    // Puts the evictable ones among the `wanted` oldest ids into `found`.
    pub(crate) fn oldest_evictable(
        &self,
        wanted: usize,
        blocks: &[BlockState],
        found: &mut Vec<BlockId>,
    )
        requires empty { found.old.items ≡ [] }
        requires room { length blocks.now ≤ vec_capacity found.old }
        ensures { found.new.items ≡ filter (is_evictable_in blocks.now) (take wanted self.now.ids) }
    {
        let count = wanted.min(self.ids.len());
        evictable_of(&self.ids, count, blocks, found);
    }
}
