//! An engine that keeps nothing.
ghost use Rattle.std.specs.Prelude.{◌≡◌};

use crate::calls::{DeviceSummary, Engine, EngineWork};
use crate::session::StoreSession;
use foyer_core_tally::book::{Books, Kinds};
use foyer_device_page::error::Result;
use foyer_device_statistics::IoState;
use foyer_policy_filter::StorageFilterResult;
use foyer_policy_keeper::keeper::Keeper;
use foyer_policy_keeper::keeper::shard::NotKept;
use foyer_policy_piece::keeper::Piece;
use foyer_storage_engine::core_steps::apply::no_io;
use foyer_storage_engine::engine::Enqueued;
use foyer_storage_engine::engine::counts::WorkCounts;
use foyer_storage_engine::load::Load;
use std::alloc::Global;
use std::sync::{Mutex, Wait};

/// An engine that keeps nothing: it queues and finds nothing, and its filter rejects every entry. The other calls do nothing and are
/// `Ok`.
pub struct NoopEngine<L: Kinds> {
    // No step is counted in it.
    books: Mutex<Books<L>>,
}

// Written out, so that it is proved once.
impl<L: Kinds> Drop for NoopEngine<L> {
    fn drop(self) {
        let NoopEngine { books: _ } = self;
    }
}

impl<L: Kinds> NoopEngine<L> {
    /// Makes an engine over these books, in which nothing is counted.
    pub fn new(books: Books<L>) -> NoopEngine<L> {
        NoopEngine {
            books: Mutex::new(books),
        }
    }
}

impl<L: Kinds, K: Eq + Drop, V: Drop, P: Drop> Engine<StoreSession<L>, K, V, P> for NoopEngine<L> {
    ghost use Rattle.std.specs.Prelude.{◌≡◌, Ok, false};
    ghost use Rattle.foyer_storage_engine.specs.declared.load.Load.TheVariants as load;
    ghost use Rattle.foyer_storage_engine.specs.declared.engine.Enqueued.TheVariants as enqueued;
    ghost use Rattle.foyer_policy_filter.specs.Verdict.{IsReject};

    ghost summary = { λ _. record { capacity = 0; allocated = 0; partitions = 0 } };

    ghost may_judge = { λ _ _ _ verdict. IsReject verdict };

    ghost may_enqueue = { λ _ old new _ _ answer. (answer ≡ Ok enqueued.Ignored) × (new ≡ old) };

    ghost may_load = { λ _ old new _ answer. (answer ≡ Ok load.Miss) × (new ≡ old) };

    ghost may_delete = { λ _ old new _ answer. (answer ≡ Ok tt) × (new ≡ old) };

    ghost may_ask = { λ _ old new _ answer. (answer ≡ Ok false) × (new ≡ old) };

    ghost may_wait = { λ _ old new answer. (answer ≡ Ok tt) × (new ≡ old) };

    ghost may_close = { λ _ old new answer. (answer ≡ Ok tt) × (new ≡ old) };

    ghost may_destroy = { λ _ old new answer. (answer ≡ Ok tt) × (new ≡ old) };

    fn device(&self) -> DeviceSummary {
        DeviceSummary {
            capacity: 0,
            allocated: 0,
            partitions: 0,
        }
    }

    fn io_state(&self, _rt: &impl Wait, _now: u64) -> IoState {
        no_io()
    }

    fn work(&self, _rt: &impl Wait, _hash: u64) -> EngineWork {
        EngineWork {
            counts: WorkCounts::default(),
            has_room: true,
        }
    }

    fn filter(&self, _rt: &impl Wait, _hash: u64, _size: usize, _now: u64) -> StorageFilterResult {
        StorageFilterResult::Reject
    }

    fn enqueue(
        &self,
        _rt: &impl Wait,
        _session: &mut StoreSession<L>,
        _keeper: &Keeper<K, V, P, Global>,
        _piece: &Piece<K, V, P, Global>,
        _size: usize,
    ) -> Result<Enqueued> {
        Ok(Enqueued::Ignored)
    }

    fn load(
        &self,
        _rt: &impl Wait,
        _session: &mut StoreSession<L>,
        _lacking: NotKept,
        _now: u64,
    ) -> Result<Load<K, V, P, Global>> {
        Ok(Load::Miss)
    }

    fn delete(
        &self,
        _rt: &impl Wait,
        _session: &mut StoreSession<L>,
        _keeper: &Keeper<K, V, P, Global>,
        _hash: u64,
        _with_pieces: bool,
    ) -> Result<()> {
        Ok(())
    }

    fn may_contains(
        &self,
        _rt: &impl Wait,
        _session: &mut StoreSession<L>,
        _lacking: NotKept,
    ) -> Result<bool> {
        Ok(false)
    }

    fn destroy(&self, _rt: &impl Wait, _session: &mut StoreSession<L>) -> Result<()> {
        Ok(())
    }

    fn wait(&self, _rt: &impl Wait, _session: &mut StoreSession<L>) -> Result<()> {
        Ok(())
    }

    fn close(&self, _rt: &impl Wait, _session: &mut StoreSession<L>) -> Result<()> {
        Ok(())
    }
}
