//! A caller's seat, beside the counters that it is at.
ghost use Rattle.std.specs.Prelude.{◌≡◌, ◌-◌, ◌<◌, [], ◌∷◌, None, Err, IfOk, OnOk, OnErr, false};
ghost use Rattle.std.specs.Arc.{arc_value};
ghost use Rattle.std.specs.Duration.{as_nanos};
ghost use Rattle.foyer_device_page.specs.declared.error.Error.TheVariants as error;
ghost use Rattle.foyer_device_throttle.specs.Calls.{calls};
ghost use Rattle.foyer_device_statistics.specs.Counted.{Records, Sees, SeesMore, SeesState, view, zeros};

use crate::state::IoState;
use crate::statistics::{Seat, Statistics};
use foyer_device_page::error::Result;
use foyer_device_throttle::Throttle;
use std::alloc::Allocator;
use std::marker::Model;
use std::sync::{Arc, Wait};
use std::time::Duration;

/// A seat together with its counters, so that its owner can record and read without naming the counters.
pub struct Recorder<A: Allocator> {
    seat: Seat,
    statistics: Arc<Statistics<A>, A>,
}

// Written out, so that it is proved once.
impl<A: Allocator> Drop for Recorder<A> {
    fn drop(self) {
        let Recorder {
            seat: _,
            statistics: _,
        } = self;
    }
}

impl<A: Allocator> Model for Recorder<A> {
    ghost use Rattle.std.specs.Prelude.{◌≡◌};
    ghost use Rattle.std.specs.Arc.{arc_value};
    ghost use Rattle.foyer_device_statistics.specs.Placed.{Seated};

    ghost Value = { Seated };

    ghost view = { λ c. record {
      table = c.seat.table;
      limits = (arc_value c.statistics).limits;
      view = c.seat.view;
    } };

    ghost invariant = { λ c. c.seat.table ≡ (arc_value c.statistics).table };
}

impl<A: Allocator> Recorder<A> {
    /// A seat at these counters.
    pub fn new(seat: Seat, statistics: Arc<Statistics<A>, A>) -> Recorder<A>
        requires { seat.table ≡ (arc_value statistics).table }
        ensures table { result.table ≡ seat.table }
        ensures limits { result.limits ≡ (arc_value statistics).limits }
        ensures view { result.view ≡ seat.view }
    {
        Recorder { seat, statistics }
    }

    /// The seat and the counters.
    pub fn into_parts(self) -> (Seat, Arc<Statistics<A>, A>)
        ensures seat { (result.0.table ≡ self.table) × (result.0.view ≡ self.view) }
        ensures statistics { (arc_value result.1).table ≡ self.table }
        ensures limits { (arc_value result.1).limits ≡ self.limits }
    {
        let Recorder { seat, statistics } = self;
        (seat, statistics)
    }

    /// The limits.
    pub fn throttle(&self) -> Throttle
        ensures { result ≡ self.now.limits }
    {
        *self.statistics.throttle()
    }

    /// Splits off a recorder at the same counters. It has `parts` of this one's parts, but not all, and has recorded
    /// nothing. Error: Memory. Then this recorder is as before.
    pub fn split(&mut self, parts: u64) -> Result<Recorder<A>>
        requires { (0 < parts) × (parts < self.old.view.parts) }
        ensures given { IfOk result (λ c. (c.table ≡ self.old.table) × (c.limits ≡ self.old.limits)
            × (c.view ≡ view parts zeros zeros)) }
        ensures same { (self.new.table ≡ self.old.table) × (self.new.limits ≡ self.old.limits) }
        ensures left { OnOk result (self.new.view
            ≡ view (self.old.view.parts - parts) self.old.view.recorded self.old.view.saw) }
        ensures kept { OnErr result (self.new ≡ self.old) }
        ensures memory { OnErr result (result ≡ Err error.Memory) }
    {
        let statistics = Arc::try_clone(&self.statistics)?;
        let seat = self.statistics.split(&mut self.seat, parts);
        Ok(Recorder { seat, statistics })
    }

    /// Records a write of that many bytes. Takes no memory and waits for nobody.
    pub fn record_disk_write(&mut self, bytes: usize)
        ensures same { (self.new.table ≡ self.old.table) × (self.new.limits ≡ self.old.limits) }
        ensures recorded { Records self.old.view
            (bytes ∷ 0 ∷ calls self.old.limits.iops_counter bytes ∷ 0 ∷ []) self.new.view }
    {
        self.statistics.record_disk_write(&mut self.seat, bytes);
    }

    /// Records a read of that many bytes. Takes no memory and waits for nobody.
    pub fn record_disk_read(&mut self, bytes: usize)
        ensures same { (self.new.table ≡ self.old.table) × (self.new.limits ≡ self.old.limits) }
        ensures recorded { Records self.old.view
            (0 ∷ bytes ∷ 0 ∷ calls self.old.limits.iops_counter bytes ∷ []) self.new.view }
    {
        self.statistics.record_disk_read(&mut self.seat, bytes);
    }

    /// Notes the system's number of a write that failed, or 0 if the system gave none.
    pub fn note_write_error(&self, code: i32) {
        self.statistics.note_write_error(code);
    }

    /// Notes the system's number of a read that failed, or 0 if the system gave none.
    pub fn note_read_error(&self, code: i32) {
        self.statistics.note_read_error(code);
    }

    /// The bytes written so far.
    pub fn disk_write_bytes(&mut self) -> u64
        ensures same { (self.new.table ≡ self.old.table) × (self.new.limits ≡ self.old.limits) }
        ensures sees { Sees 0 result self.old.view self.new.view }
    {
        self.statistics.disk_write_bytes(&mut self.seat)
    }

    /// The bytes read so far.
    pub fn disk_read_bytes(&mut self) -> u64
        ensures same { (self.new.table ≡ self.old.table) × (self.new.limits ≡ self.old.limits) }
        ensures sees { Sees 1 result self.old.view self.new.view }
    {
        self.statistics.disk_read_bytes(&mut self.seat)
    }

    /// The calls that wrote so far, as they are counted.
    pub fn disk_write_ios(&mut self) -> u64
        ensures same { (self.new.table ≡ self.old.table) × (self.new.limits ≡ self.old.limits) }
        ensures sees { Sees 2 result self.old.view self.new.view }
    {
        self.statistics.disk_write_ios(&mut self.seat)
    }

    /// The calls that read so far, as they are counted.
    pub fn disk_read_ios(&mut self) -> u64
        ensures same { (self.new.table ≡ self.old.table) × (self.new.limits ≡ self.old.limits) }
        ensures sees { Sees 3 result self.old.view self.new.view }
    {
        self.statistics.disk_read_ios(&mut self.seat)
    }

    /// How long the limits make a caller wait before the next write, at the moment `now` in nanoseconds.
    pub fn write_throttle(&mut self, rt: &impl Wait, now: u64) -> Duration
        ensures same { (self.new.table ≡ self.old.table) × (self.new.limits ≡ self.old.limits) }
        ensures sees { SeesMore self.old.view self.new.view }
        ensures unlimited { self.old.limits.write_throughput ≡ None
            → self.old.limits.write_iops ≡ None → as_nanos result ≡ 0 }
    {
        self.statistics.write_throttle(rt, &mut self.seat, now)
    }

    /// How long the limits make a caller wait before the next read.
    pub fn read_throttle(&mut self, rt: &impl Wait, now: u64) -> Duration
        ensures same { (self.new.table ≡ self.old.table) × (self.new.limits ≡ self.old.limits) }
        ensures sees { SeesMore self.old.view self.new.view }
        ensures unlimited { self.old.limits.read_throughput ≡ None
            → self.old.limits.read_iops ≡ None → as_nanos result ≡ 0 }
    {
        self.statistics.read_throttle(rt, &mut self.seat, now)
    }

    /// Whether the limits make a caller wait before the next write.
    pub fn is_write_throttled(&mut self, rt: &impl Wait, now: u64) -> bool
        ensures same { (self.new.table ≡ self.old.table) × (self.new.limits ≡ self.old.limits) }
        ensures sees { SeesMore self.old.view self.new.view }
        ensures unlimited { self.old.limits.write_throughput ≡ None
            → self.old.limits.write_iops ≡ None → result ≡ false }
    {
        self.statistics.is_write_throttled(rt, &mut self.seat, now)
    }

    /// Whether the limits make a caller wait before the next read.
    pub fn is_read_throttled(&mut self, rt: &impl Wait, now: u64) -> bool
        ensures same { (self.new.table ≡ self.old.table) × (self.new.limits ≡ self.old.limits) }
        ensures sees { SeesMore self.old.view self.new.view }
        ensures unlimited { self.old.limits.read_throughput ≡ None
            → self.old.limits.read_iops ≡ None → result ≡ false }
    {
        self.statistics.is_read_throttled(rt, &mut self.seat, now)
    }

    /// The four counters, both waits, and the numbers of the last faults.
    pub fn io_state(&mut self, rt: &impl Wait, now: u64) -> IoState
        ensures same { (self.new.table ≡ self.old.table) × (self.new.limits ≡ self.old.limits) }
        ensures sees { SeesState result self.old.view self.new.view }
        ensures writes { self.old.limits.write_throughput ≡ None
            → self.old.limits.write_iops ≡ None → as_nanos result.write_throttle ≡ 0 }
        ensures reads { self.old.limits.read_throughput ≡ None
            → self.old.limits.read_iops ≡ None → as_nanos result.read_throttle ≡ 0 }
    {
        self.statistics.io_state(rt, &mut self.seat, now)
    }
}
