//! The flushers that wait for a block.
ghost use Rattle.std.specs.Prelude.{◌≡◌, ◌<◌, ◌≤◌, ◌⊎◌, [], ◌∷◌, ◌++◌, vec_len, vec_capacity, false, MatchOption};
ghost use Rattle.foyer_core_model.specs.Ids.{is_id_in, with_id, without_id};
ghost use Rattle.foyer_core_model.specs.Numbers.{last_number};

use std::alloc::Allocator;

// The flusher that began to wait last gets a block that may still be handed out.
pub(super) fn next_waiter<A: Allocator>(waiting: &mut Vec<u32, A>, filling: u64) -> Option<u32>
    ensures waiter { MatchOption result
        (((waiting.old.items ≡ []) ⊎ (last_number ≤ filling)) × (waiting.new.items ≡ waiting.old.items))
        (λ f. (filling < last_number) × (waiting.old.items ≡ waiting.new.items ++ f ∷ [])) }
    ensures room { vec_capacity waiting.new ≡ vec_capacity waiting.old }
{
    if filling == u64::MAX {
        return None;
    }
    waiting.pop()
}

// A flusher waits behind the others, unless it waits already.
pub(super) fn begin_to_wait<A: Allocator>(waiting: &mut Vec<u32, A>, flusher: u32)
    requires { is_id_in flusher waiting.old.items ≡ false → vec_len waiting.old < vec_capacity waiting.old }
    ensures waits { waiting.new.items ≡ with_id flusher waiting.old.items }
    ensures room { vec_capacity waiting.new ≡ vec_capacity waiting.old }
{
    if !waiting.contains(&flusher) {
        waiting.push_reserved(flusher);
    }
}

// A flusher waits no more.
pub(super) fn end_to_wait<A: Allocator>(waiting: &mut Vec<u32, A>, flusher: u32)
    ensures waits { waiting.new.items ≡ without_id flusher waiting.old.items }
    ensures room { vec_capacity waiting.new ≡ vec_capacity waiting.old }
{
    waiting.retain(|waiter| *waiter != flusher);
}
