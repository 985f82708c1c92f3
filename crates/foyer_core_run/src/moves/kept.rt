//! What a run keeps.
ghost use Rattle.std.specs.Prelude.{◌≡◌, [], replicate, ◌<◌, ◌≤◌, vec_len, vec_capacity, slice_get, slice_set, false, not, ◌||◌, None, IfOk};
ghost use Rattle.foyer_core_steps.specs.Asked.{went_well};
ghost use Rattle.foyer_core_run.specs.Running.{ticket_in, with_ticket, at, is_set};

use foyer_block_index::manager::BlockId;
use foyer_core_access::reclaims::Part;
use foyer_core_steps::reply::Reply;
use foyer_core_steps::settings::Settings;
use foyer_core_steps::step::Ticket;
use foyer_device_page::error::Result;
use std::alloc::{AllocError, Allocator};

// The writes of a block that a reply of the run issued, and which of them comes next.
#[derive(Clone, Copy, Debug)]
pub(crate) struct Issued {
    pub(crate) block: BlockId,
    pub(crate) reply: usize,
    pub(crate) next: usize,
}

// What a run keeps: the reads that were issued and haven't begun, by the number of their ticket, the writes of each
// flusher that were issued, what the reclaim of each block is to read, which blocks are to be cleaned, and the replies.
#[derive(Drop)]
pub(crate) struct Kept<K, V, P, A: Allocator> {
    pub(crate) tickets: Vec<Option<Ticket>, A>,
    pub(crate) issued: Vec<Option<Issued>, A>,
    pub(crate) scans: Vec<Option<Part>, A>,
    pub(crate) cleans: Vec<bool, A>,
    pub(crate) replies: Vec<Reply<K, V, P, A>, A>,
    // Whether an access failed.
    pub(crate) has_failed: bool,
}

// Notes whether an access failed.
pub(crate) fn note_outcome<T>(has_failed: &mut bool, outcome: &Result<T>)
    ensures { has_failed.new ≡ (has_failed.old || not (went_well outcome.now)) }
{
    match outcome {
        Ok(_) => {}
        Err(_) => *has_failed = true,
    }
}

// The ticket that a reply issues.
pub(crate) fn issued_ticket<K, V, P, A: Allocator>(reply: &Reply<K, V, P, A>) -> Option<Ticket>
    ensures { result ≡ ticket_in reply.now }
{
    match reply {
        Reply::Read(ticket) => Some(*ticket),
        _ => None,
    }
}

// Notes the ticket that a reply issues.
pub(crate) fn note_ticket<K, V, P, A: Allocator>(
    tickets: &mut Vec<Option<Ticket>, A>,
    reply: &Reply<K, V, P, A>,
)
    requires room { vec_len tickets.old < vec_capacity tickets.old }
    ensures noted { tickets.new.items ≡ with_ticket (ticket_in reply.now) tickets.old.items }
{
    match issued_ticket(reply) {
        Some(ticket) => tickets.push_reserved(Some(ticket)),
        None => {}
    }
}

// What is due at a place.
pub(crate) fn get_due<T: Copy>(list: &[Option<T>], i: usize) -> Option<T>
    ensures { result ≡ at (slice_get list.now i) }
{
    match list.get(i) {
        Some(x) => *x,
        None => None,
    }
}

// Whether a block is to be cleaned.
pub(crate) fn is_clean_due(cleans: &[bool], i: usize) -> bool
    ensures { result ≡ is_set (slice_get cleans.now i) }
{
    match cleans.get(i) {
        Some(is_due) => *is_due,
        None => false,
    }
}

// Notes what is due at a place, if it is there.
pub(crate) fn set_due<T: Copy, A: Allocator>(list: &mut Vec<T, A>, i: usize, x: T)
    ensures set { list.new.items ≡ slice_set list.old.items i x }
    ensures capacity { vec_capacity list.old ≤ vec_capacity list.new }
{
    if i < list.len() {
        list[i] = x;
    }
}

// Nothing is due at any place.
fn none_due<T: Copy, A: Allocator>(
    alloc: A,
    count: usize,
) -> std::result::Result<Vec<Option<T>, A>, AllocError>
    ensures none { IfOk result (λ list. list.items ≡ replicate count None) }
{
    let mut list = Vec::with_capacity(alloc, count)?;
    'each_place: for _ in 0..count {
        list.push(None)?;
    }
    Ok(list)
}

// What a run of so many moves begins with: nothing is due.
pub(crate) fn begin<K, V, P, A: Allocator + Clone>(
    alloc: &A,
    settings: Settings,
    moves: usize,
) -> std::result::Result<Kept<K, V, P, A>, AllocError>
    ensures tickets { IfOk result (λ kept. kept.tickets.items ≡ []) }
    ensures issued { IfOk result (λ kept. kept.issued.items ≡ replicate settings.flushers None) }
    ensures scans { IfOk result (λ kept. kept.scans.items ≡ replicate settings.blocks None) }
    ensures cleans { IfOk result (λ kept. kept.cleans.items ≡ replicate settings.blocks false) }
    ensures replies { IfOk result (λ kept. kept.replies.items ≡ []) }
    ensures failed { IfOk result (λ kept. kept.has_failed ≡ false) }
{
    let blocks = settings.blocks as usize;
    Ok(Kept {
        tickets: Vec::new(alloc.clone()?),
        issued: none_due(alloc.clone()?, settings.flushers as usize)?,
        scans: none_due(alloc.clone()?, blocks)?,
        cleans: vec![in alloc.clone()?; false; blocks]?,
        replies: Vec::with_capacity(alloc.clone()?, moves)?,
        has_failed: false,
    })
}
