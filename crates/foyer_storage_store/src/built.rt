//! An engine over the blocks of a device, with its admission filter.
ghost use Rattle.std.specs.Prelude.{◌≡◌, ◌||◌, None, false, is_some};
ghost use Rattle.std.specs.Duration.{as_nanos};
ghost use Rattle.foyer_policy_filter.specs.Conditions.{IsThrottledBy};
ghost use Rattle.foyer_storage_store.specs.Storing.{IsAdmission, IsVerdictWithWait};

use crate::calls::{DeviceSummary, Engine, EngineWork};
use crate::session::StoreSession;
use foyer_block_manager::block::eviction::EvictionPicker;
use foyer_core_tally::book::Kinds;
use foyer_device_page::error::Result;
use foyer_device_partition::io::device::Partition;
use foyer_device_statistics::{IoState, Recorder};
use foyer_device_throttle::Throttle;
use foyer_format_record::serde::{Code, Properties};
use foyer_io_blocks::partitions::PartitionedDisk;
use foyer_io_engine::io::engine::IoEngine;
use foyer_io_gate::gate::Gate;
use foyer_io_monitor::MonitoredIoEngine;
use foyer_lock::lock_spinning;
use foyer_policy_filter::{StorageFilter, StorageFilterCondition, StorageFilterResult};
use foyer_policy_keeper::keeper::Keeper;
use foyer_policy_keeper::keeper::shard::NotKept;
use foyer_policy_piece::keeper::Piece;
use foyer_storage_engine::core_shared::notes::NoNotes;
use foyer_storage_engine::core_steps::apply::no_io;
use foyer_storage_engine::engine::{BlockEngine, Enqueued};
use foyer_storage_engine::io_disk::disk::Disk;
use foyer_storage_engine::load::Load;
use std::alloc::Global;
use std::sync::atomic::{AtomicUsize, Ordering};
use std::sync::{Arc, Mutex, Wait};
use std::time::Duration;

/// The blocks of a device, whose reads and writes are recorded.
pub type DeviceBlocks<N, Q> = PartitionedDisk<MonitoredIoEngine<N, Global>, Q, Global>;

/// The engine over them, whose core keeps no notes.
pub type DeviceEngine<L, K, V, P, E, C, N, Q, G> = BlockEngine<
    L,
    K,
    V,
    P,
    Global,
    E,
    C,
    DeviceBlocks<N, Q>,
    Arc<G, Global>,
    NoNotes,
>;

// The verdict of a wait: `Admit` if it is zero.
fn throttled_by(wait: Duration) -> StorageFilterResult
    ensures { IsThrottledBy wait result }
{
    if wait.is_zero() {
        StorageFilterResult::Admit
    } else {
        StorageFilterResult::Throttled(wait)
    }
}

// Adds the device's wait for writes to the verdict of the conditions. A rejection stays one.
fn with_wait(before: StorageFilterResult, wait: Duration) -> StorageFilterResult
    ensures { IsVerdictWithWait before wait result }
{
    match before {
        StorageFilterResult::Reject => before,
        StorageFilterResult::Admit => throttled_by(wait),
        StorageFilterResult::Throttled(other) => throttled_by(other.saturating_add(wait)),
    }
}

// The verdict about an entry: that of the admission filter, if there is one, and then that of the device's limits of writes.
fn admission_of<C: StorageFilterCondition>(
    admission: &Option<StorageFilter<C, Global>>,
    io: &IoState,
    hash: u64,
    size: usize,
) -> StorageFilterResult
    ensures { IsAdmission C.may_answer admission.now io.now hash size result }
{
    let before = match admission {
        Some(filter) => filter.filter(io, hash, size),
        None => StorageFilterResult::Admit,
    };
    with_wait(before, io.write_throttle)
}

// The same state, except that no write has to wait.
fn without_wait(io: IoState) -> IoState
    ensures { as_nanos result.write_throttle ≡ 0 }
{
    IoState {
        write_throttle: Duration::ZERO,
        ..io
    }
}

/// An engine over the blocks of a device, with its admission filter, and a recorder that reads the device's counters for all callers.
pub struct BuiltEngine<L, K, V, P, E, C, N, Q, G>
where
    L: Kinds,
    K: Code<Global>,
    V: Code<Global>,
    P: Properties + Drop,
    E: EvictionPicker,
    C: StorageFilterCondition,
    N: IoEngine + Drop,
    Q: Partition + Copy,
    G: Gate,
{
    engine: Arc<DeviceEngine<L, K, V, P, E, C, N, Q, G>, Global>,
    // The number of the next session that loads.
    callers: AtomicUsize,
    admission: Option<StorageFilter<C, Global>>,
    recorder: Mutex<Recorder<Global>>,
    throttle: Throttle,
    device: DeviceSummary,
}

// Written out, so that it is proved once.
impl<L, K, V, P, E, C, N, Q, G> Drop for BuiltEngine<L, K, V, P, E, C, N, Q, G>
where
    L: Kinds,
    K: Code<Global> + Drop,
    V: Code<Global> + Drop,
    P: Properties + Drop,
    E: EvictionPicker,
    C: StorageFilterCondition,
    N: IoEngine + Drop,
    Q: Partition + Copy,
    G: Gate,
{
    fn drop(self) {
        let BuiltEngine {
            engine: _,
            callers: _,
            admission: _,
            recorder: _,
            throttle: _,
            device: _,
        } = self;
    }
}

impl<L, K, V, P, E, C, N, Q, G> BuiltEngine<L, K, V, P, E, C, N, Q, G>
where
    L: Kinds,
    K: Code<Global> + Drop,
    V: Code<Global> + Drop,
    P: Properties + Drop,
    E: EvictionPicker,
    C: StorageFilterCondition,
    N: IoEngine + Drop,
    Q: Partition + Copy,
    G: Gate,
{
    /// An engine that was opened, whose device has these limits and this summary. The recorder has a part of the counters of the device.
    pub fn new(
        engine: Arc<DeviceEngine<L, K, V, P, E, C, N, Q, G>, Global>,
        admission: Option<StorageFilter<C, Global>>,
        recorder: Recorder<Global>,
        throttle: Throttle,
        device: DeviceSummary,
    ) -> BuiltEngine<L, K, V, P, E, C, N, Q, G>
        ensures engine { result.engine ≡ engine }
        ensures given { (result.admission ≡ admission) × (result.throttle ≡ throttle) × (result.device ≡ device) }
    {
        BuiltEngine {
            engine,
            callers: AtomicUsize::new(0),
            admission,
            recorder: Mutex::new(recorder),
            throttle,
            device,
        }
    }

    // Whether a read must wait at a moment. Without a limit of reads it asks nothing.
    fn is_read_throttled(&self, rt: &impl Wait, now: u64) -> bool
        ensures { self.now.throttle.read_throughput ≡ None → self.now.throttle.read_iops ≡ None → result ≡ false }
    {
        let limits = &self.throttle;
        if limits.read_throughput.is_none() && limits.read_iops.is_none() {
            return false;
        }
        lock_spinning(&self.recorder, rt).is_read_throttled(rt, now)
    }

    // Whether writes have a limit.
    fn limits_writes(&self) -> bool
        ensures { result ≡ (is_some self.now.throttle.write_throughput || is_some self.now.throttle.write_iops) }
    {
        self.throttle.write_throughput.is_some() || self.throttle.write_iops.is_some()
    }

    // The number of the disk that a session reads from: the one that it kept, or at its first load the next number.
    fn disk_of(&self, kept: Option<usize>) -> usize {
        match kept {
            Some(disk) => disk,
            None => self.callers.fetch_add(1, Ordering::Relaxed),
        }
    }
}

impl<L, K, V, P, E, C, N, Q, G> Engine<StoreSession<L>, K, V, P>
    for BuiltEngine<L, K, V, P, E, C, N, Q, G>
where
    L: Kinds,
    K: Code<Global> + Eq + Drop,
    V: Code<Global> + Drop,
    P: Properties + Drop,
    E: EvictionPicker,
    C: StorageFilterCondition,
    N: IoEngine + Drop,
    Q: Partition + Copy,
    G: Gate,
{
    ghost use Rattle.std.specs.Prelude.{◌≡◌, ◌+◌};
    ghost use Rattle.foyer_storage_engine.specs.Accessing.{IsCleanedBy, IsReadBy};
    ghost use Rattle.foyer_storage_engine.specs.Calls.{IsDeleteAnswer, IsEnqueueAnswer, IsQuestionAnswer};
    ghost use Rattle.std.specs.Arc.{arc_value};
    ghost use Rattle.foyer_storage_store.specs.Storing.{HasClosed, HasDestroyed, HasWaited, IsAdmissionUnder, IsLoadedUnder};

    ghost summary = { λ b. b.device };

    ghost may_judge = { λ b hash size verdict. IsAdmissionUnder C.may_answer b.throttle b.admission hash size verdict };

    ghost may_enqueue = { λ _ old new piece size answer. IsEnqueueAnswer old.steps new.steps piece.hash size answer × (new.steps.shares.parts ≡ old.steps.shares.parts) };

    ghost may_load = { λ b old new hash answer. IsLoadedUnder K.is_decodable V.is_decodable K.encoding V.encoding
        (IsReadBy ⟦<DeviceBlocks<N, Q> as Disk>⟧.is_known ⟦<DeviceBlocks<N, Q> as Disk>⟧.byte_at ⟦<DeviceBlocks<N, Q> as Disk>⟧.may_answer) b.throttle old.steps new.steps hash answer × (new.steps.shares.parts ≡ old.steps.shares.parts) };

    ghost may_delete = { λ _ old new hash answer. IsDeleteAnswer old.steps new.steps hash answer × (new.steps.shares.parts ≡ old.steps.shares.parts) };

    ghost may_ask = { λ _ old new hash answer. IsQuestionAnswer old.steps new.steps hash answer × (new.steps.shares.parts ≡ old.steps.shares.parts) };

    ghost may_wait = { λ b old new answer. HasWaited ((arc_value b.engine).settings.flushers + 1) old.steps new.steps answer × (new.steps.shares.parts ≡ old.steps.shares.parts) };

    ghost may_close = { λ b old new answer. HasClosed ((arc_value b.engine).settings.flushers + 2) old.steps new.steps answer × (new.steps.shares.parts ≡ old.steps.shares.parts) };

    ghost may_destroy = { λ b old new answer. HasDestroyed (IsCleanedBy ⟦<DeviceBlocks<N, Q> as Disk>⟧.is_known ⟦<DeviceBlocks<N, Q> as Disk>⟧.byte_at
        ⟦<DeviceBlocks<N, Q> as Disk>⟧.surely_has ⟦<DeviceBlocks<N, Q> as Disk>⟧.surely_lies ⟦<DeviceBlocks<N, Q> as Disk>⟧.faults) (arc_value b.engine).settings.blocks old.steps new.steps answer × (new.steps.shares.parts ≡ old.steps.shares.parts) };

    fn device(&self) -> DeviceSummary {
        self.device
    }

    fn io_state(&self, rt: &impl Wait, now: u64) -> IoState {
        lock_spinning(&self.recorder, rt).io_state(rt, now)
    }

    fn filter(&self, rt: &impl Wait, hash: u64, size: usize, now: u64) -> StorageFilterResult {
        let is_limited = self.limits_writes();
        if self.admission.is_none() && !is_limited {
            return admission_of(&self.admission, &no_io(), hash, size);
        }
        let io = lock_spinning(&self.recorder, rt).io_state(rt, now);
        if is_limited {
            admission_of(&self.admission, &io, hash, size)
        } else {
            admission_of(&self.admission, &without_wait(io), hash, size)
        }
    }

    fn work(&self, rt: &impl Wait, _hash: u64) -> EngineWork {
        EngineWork {
            counts: self.engine.signals().work.shown(),
            has_room: self.engine.has_room(rt),
        }
    }

    fn enqueue(
        &self,
        rt: &impl Wait,
        session: &mut StoreSession<L>,
        keeper: &Keeper<K, V, P, Global>,
        piece: &Piece<K, V, P, Global>,
        size: usize,
    ) -> Result<Enqueued> {
        self.engine
            .enqueue_kept(rt, &mut session.steps, keeper, piece, size)
    }

    fn load(
        &self,
        rt: &impl Wait,
        session: &mut StoreSession<L>,
        lacking: NotKept,
        now: u64,
    ) -> Result<Load<K, V, P, Global>> {
        let throttled = self.is_read_throttled(rt, now);
        let disk = self.disk_of(session.disk);
        session.disk = Some(disk);
        self.engine
            .load_by(rt, &mut session.steps, lacking.hash(), throttled, disk)
    }

    fn delete(
        &self,
        rt: &impl Wait,
        session: &mut StoreSession<L>,
        keeper: &Keeper<K, V, P, Global>,
        hash: u64,
        with_pieces: bool,
    ) -> Result<()> {
        if with_pieces {
            self.engine
                .delete_kept(rt, &mut session.steps, keeper, hash)
        } else {
            self.engine.delete(rt, &mut session.steps, hash)
        }
    }

    fn may_contains(
        &self,
        rt: &impl Wait,
        session: &mut StoreSession<L>,
        lacking: NotKept,
    ) -> Result<bool> {
        self.engine
            .may_contains(rt, &mut session.steps, lacking.hash())
    }

    fn destroy(&self, rt: &impl Wait, session: &mut StoreSession<L>) -> Result<()> {
        self.engine.destroy(rt, &mut session.steps)
    }

    fn wait(&self, rt: &impl Wait, session: &mut StoreSession<L>) -> Result<()> {
        self.engine.wait(rt, &mut session.steps)
    }

    fn close(&self, rt: &impl Wait, session: &mut StoreSession<L>) -> Result<()> {
        self.engine.close(rt, &mut session.steps)
    }
}
