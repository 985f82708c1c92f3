//! Two engines beside each other, as one.
ghost use Rattle.std.specs.Prelude.{◌≡◌, ◌<◌};
ghost use Rattle.foyer_storage_cores.specs.Sides.{first_of, is_high, summed};

use crate::sessions::TwoSessions;
use foyer_device_page::error::Result;
use foyer_device_statistics::IoState;
use foyer_policy_filter::StorageFilterResult;
use foyer_policy_keeper::keeper::Keeper;
use foyer_policy_keeper::keeper::shard::NotKept;
use foyer_policy_piece::keeper::Piece;
use foyer_storage_store::calls::{DeviceSummary, Engine, EngineWork};
use foyer_storage_store::engine::engine::Enqueued;
use foyer_storage_store::engine::engine::counts::WorkCounts;
use foyer_storage_store::engine::load::Load;
use std::alloc::Global;
use std::sync::Wait;

// Odd, and near 2^64 divided by the golden ratio.
const SPREAD: u64 = 11400714819323198485;

/// Says whether a hash belongs to the second of two engines. It does if the bit of value `bit` is 1 in the hash times an odd constant. So
/// keys whose hashes are adjacent are divided, too. `bit` must not be 0.
pub fn is_high(hash: u64, bit: u64) -> bool
    requires { 0 < bit }
    ensures { result ≡ is_high hash bit }
{
    hash.wrapping_mul(SPREAD) / bit % 2 == 1
}

// The first refusal.
fn first_of(low: Result<()>, high: Result<()>) -> Result<()>
    ensures { result ≡ first_of low high }
{
    match low {
        Ok(()) => high,
        Err(error) => Err(error),
    }
}

// The first number, or the second if the first is 0.
fn either(first: i32, second: i32) -> i32 {
    if first == 0 { second } else { first }
}

fn summed(low: DeviceSummary, high: DeviceSummary) -> DeviceSummary
    ensures { result ≡ summed low high }
{
    DeviceSummary {
        capacity: low.capacity.saturating_add(high.capacity),
        allocated: low.allocated.saturating_add(high.allocated),
        partitions: low.partitions.saturating_add(high.partitions),
    }
}

/// Two engines, each of which has the hashes of one side. A call for one hash goes to that hash's engine alone. A wait, a close and a
/// destroy go to both in turn, to the second even if the first gives an error. The first error is the answer.
#[derive(Drop)]
pub struct TwoEngines<N: Drop, M: Drop> {
    bit: u64,
    low: N,
    high: M,
    ghost some_bit: { 0 < bit },
}

impl<N: Drop, M: Drop> TwoEngines<N, M> {
    /// Makes one engine of two. `is_high` with this bit says which one has a hash. `bit` must not be 0.
    pub fn new(bit: u64, low: N, high: M) -> TwoEngines<N, M>
        requires { 0 < bit }
        ensures { (result.bit ≡ bit) × (result.low ≡ low) × (result.high ≡ high) }
    {
        TwoEngines { bit, low, high }
    }
}

impl<N, M, S, T, K, V, P> Engine<TwoSessions<S, T>, K, V, P> for TwoEngines<N, M>
where
    N: Engine<S, K, V, P>,
    M: Engine<T, K, V, P>,
    S: Drop,
    T: Drop,
    K: Eq + Drop,
    V: Drop,
    P: Drop,
{
    ghost use Rattle.std.specs.Prelude.{◌≡◌, Result};
    ghost use Rattle.foyer_device_page.specs.declared.error.Error.{Error};
    ghost use Rattle.foyer_storage_cores.specs.Sides.{OfSide, first_of, is_high, summed};

    ghost summary = { λ e. summed (N.summary e.low) (M.summary e.high) };

    ghost may_judge = { λ e hash size verdict. OfSide (is_high hash e.bit) (N.may_judge e.low hash size verdict) (M.may_judge e.high hash size verdict) };

    ghost may_enqueue = { λ e old new piece size answer. OfSide (is_high piece.hash e.bit)
        (N.may_enqueue e.low old.low new.low piece size answer × (new.high ≡ old.high))
        (M.may_enqueue e.high old.high new.high piece size answer × (new.low ≡ old.low)) };

    ghost may_load = { λ e old new hash answer. OfSide (is_high hash e.bit)
        (N.may_load e.low old.low new.low hash answer × (new.high ≡ old.high))
        (M.may_load e.high old.high new.high hash answer × (new.low ≡ old.low)) };

    ghost may_delete = { λ e old new hash answer. OfSide (is_high hash e.bit)
        (N.may_delete e.low old.low new.low hash answer × (new.high ≡ old.high))
        (M.may_delete e.high old.high new.high hash answer × (new.low ≡ old.low)) };

    ghost may_ask = { λ e old new hash answer. OfSide (is_high hash e.bit)
        (N.may_ask e.low old.low new.low hash answer × (new.high ≡ old.high))
        (M.may_ask e.high old.high new.high hash answer × (new.low ≡ old.low)) };

    ghost may_wait = { λ e old new answer. (low : Result (Unit {0}) Error) × (high : Result (Unit {0}) Error)
        × N.may_wait e.low old.low new.low low × M.may_wait e.high old.high new.high high × (answer ≡ first_of low high) };

    ghost may_close = { λ e old new answer. (low : Result (Unit {0}) Error) × (high : Result (Unit {0}) Error)
        × N.may_close e.low old.low new.low low × M.may_close e.high old.high new.high high × (answer ≡ first_of low high) };

    ghost may_destroy = { λ e old new answer. (low : Result (Unit {0}) Error) × (high : Result (Unit {0}) Error)
        × N.may_destroy e.low old.low new.low low × M.may_destroy e.high old.high new.high high × (answer ≡ first_of low high) };

    fn device(&self) -> DeviceSummary {
        summed(self.low.device(), self.high.device())
    }

    fn io_state(&self, rt: &impl Wait, now: u64) -> IoState {
        let low = self.low.io_state(rt, now);
        let high = self.high.io_state(rt, now);
        IoState {
            disk_write_bytes: low.disk_write_bytes.wrapping_add(high.disk_write_bytes),
            disk_read_bytes: low.disk_read_bytes.wrapping_add(high.disk_read_bytes),
            disk_write_ios: low.disk_write_ios.wrapping_add(high.disk_write_ios),
            disk_read_ios: low.disk_read_ios.wrapping_add(high.disk_read_ios),
            write_throttle: low.write_throttle.max(high.write_throttle),
            read_throttle: low.read_throttle.max(high.read_throttle),
            last_write_error: either(low.last_write_error, high.last_write_error),
            last_read_error: either(low.last_read_error, high.last_read_error),
        }
    }

    fn work(&self, rt: &impl Wait, hash: u64) -> EngineWork {
        let low_work = self.low.work(rt, hash);
        let high_work = self.high.work(rt, hash);
        let low = low_work.counts;
        let high = high_work.counts;
        let counts = WorkCounts {
            batches: low.batches.wrapping_add(high.batches),
            failed_blocks: low.failed_blocks.wrapping_add(high.failed_blocks),
            returned_puts: low.returned_puts.wrapping_add(high.returned_puts),
            abandoned_by_writes: low
                .abandoned_by_writes
                .wrapping_add(high.abandoned_by_writes),
            abandoned_by_memory: low
                .abandoned_by_memory
                .wrapping_add(high.abandoned_by_memory),
            reclaims: low.reclaims.wrapping_add(high.reclaims),
            reinsertions: low.reinsertions.wrapping_add(high.reinsertions),
            failed_appends: low.failed_appends.wrapping_add(high.failed_appends),
        };
        let has_room = if is_high(hash, self.bit) {
            high_work.has_room
        } else {
            low_work.has_room
        };
        EngineWork { counts, has_room }
    }

    fn filter(&self, rt: &impl Wait, hash: u64, size: usize, now: u64) -> StorageFilterResult {
        if is_high(hash, self.bit) {
            self.high.filter(rt, hash, size, now)
        } else {
            self.low.filter(rt, hash, size, now)
        }
    }

    fn enqueue(
        &self,
        rt: &impl Wait,
        session: &mut TwoSessions<S, T>,
        keeper: &Keeper<K, V, P, Global>,
        piece: &Piece<K, V, P, Global>,
        size: usize,
    ) -> Result<Enqueued> {
        if is_high(piece.hash(), self.bit) {
            self.high
                .enqueue(rt, &mut session.high, keeper, piece, size)
        } else {
            self.low.enqueue(rt, &mut session.low, keeper, piece, size)
        }
    }

    fn load(
        &self,
        rt: &impl Wait,
        session: &mut TwoSessions<S, T>,
        lacking: NotKept,
        now: u64,
    ) -> Result<Load<K, V, P, Global>> {
        if is_high(lacking.hash(), self.bit) {
            self.high.load(rt, &mut session.high, lacking, now)
        } else {
            self.low.load(rt, &mut session.low, lacking, now)
        }
    }

    fn delete(
        &self,
        rt: &impl Wait,
        session: &mut TwoSessions<S, T>,
        keeper: &Keeper<K, V, P, Global>,
        hash: u64,
        with_pieces: bool,
    ) -> Result<()> {
        if is_high(hash, self.bit) {
            self.high
                .delete(rt, &mut session.high, keeper, hash, with_pieces)
        } else {
            self.low
                .delete(rt, &mut session.low, keeper, hash, with_pieces)
        }
    }

    fn may_contains(
        &self,
        rt: &impl Wait,
        session: &mut TwoSessions<S, T>,
        lacking: NotKept,
    ) -> Result<bool> {
        if is_high(lacking.hash(), self.bit) {
            self.high.may_contains(rt, &mut session.high, lacking)
        } else {
            self.low.may_contains(rt, &mut session.low, lacking)
        }
    }

    fn destroy(&self, rt: &impl Wait, session: &mut TwoSessions<S, T>) -> Result<()> {
        let low = self.low.destroy(rt, &mut session.low);
        let high = self.high.destroy(rt, &mut session.high);
        first_of(low, high)
    }

    fn wait(&self, rt: &impl Wait, session: &mut TwoSessions<S, T>) -> Result<()> {
        let low = self.low.wait(rt, &mut session.low);
        let high = self.high.wait(rt, &mut session.high);
        first_of(low, high)
    }

    fn close(&self, rt: &impl Wait, session: &mut TwoSessions<S, T>) -> Result<()> {
        let low = self.low.close(rt, &mut session.low);
        let high = self.high.close(rt, &mut session.high);
        first_of(low, high)
    }
}
