//! How the waits that a batch's end returns are answered.
ghost use Rattle.std.specs.Prelude.{◌≡◌};

use super::answers::{AllAnswered, Answers};
use foyer_storage_engine::engine::waits::Waits;
use std::alloc::Allocator;
use std::sync::Wait;

/// Answers each of these waits, in their order.
pub(super) fn answer_all<A: Allocator>(
    rt: &impl Wait,
    waits: &Waits<A>,
    ids: Vec<u64, A>,
) -> AllAnswered<A>
    ensures { result.ids ≡ ids }
{
    let count = ids.len();
    let mut answers = Answers::new(ids);
    for at in 0..count {
        let given = waits.answer(rt, answers.next());
        answers.note(given);
    }
    answers.into_all()
}
