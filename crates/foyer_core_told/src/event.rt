//! The events of the history.
use foyer_core_steps::reply::Reply;
use foyer_core_steps::state::Core;
use foyer_core_steps::step::Step;
use foyer_device_page::error::Result;
use std::alloc::Allocator;
use std::snapshot::Snapshot;

/// An opening, a step of the core, or a whole access of the disk. Each is done in one go under its lock. The snapshots in it exist in
/// proofs alone.
#[derive(Drop)]
pub enum Told<K, V, P, A: Allocator, D> {
    /// An opening left this core, over this disk. It is the first event.
    Opened {
        core: Snapshot<Core<K, V, P, A>>,
        disk: Snapshot<D>,
    },
    /// A step had this reply, and left this core.
    Steps {
        step: Snapshot<Step<K, V, P, A>>,
        reply: Snapshot<Reply<K, V, P, A>>,
        core: Snapshot<Core<K, V, P, A>>,
    },
    /// The read of the ticket with this number. The number is how many tickets were issued before this one.
    Reads {
        number: u64,
        outcome: Snapshot<Result<Vec<u8, A>>>,
    },
    /// A read for the reclaim of a block.
    Scans {
        block: u32,
        outcome: Snapshot<Result<Vec<u8, A>>>,
    },
    /// The next write of a flusher, which left this disk.
    Writes {
        flusher: u32,
        is_ok: bool,
        disk: Snapshot<D>,
    },
    /// The clean of a block, which left this disk.
    Cleans {
        block: u32,
        is_ok: bool,
        disk: Snapshot<D>,
    },
}
