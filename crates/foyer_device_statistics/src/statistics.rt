//! The counters of a device and its limits.
ghost use Rattle.std.specs.Prelude.{◌≡◌, ◌+◌, ◌-◌, ◌<◌, ◌≤◌, ◌^◌, [], ◌∷◌, None, Err, IfOk, OnErr, length, false};
ghost use Rattle.std.specs.Duration.{as_nanos};
ghost use Rattle.foyer_device_page.specs.declared.error.Error.TheVariants as error;
ghost use Rattle.foyer_device_throttle.specs.Calls.{calls};
ghost use Rattle.foyer_device_statistics.specs.Counted.{Grows, Sees, SeesMore, SeesTwo, SeesState, Records, AreTotals, first_view, view, zeros, both};

use crate::meters::Meters;
use crate::rule::{Add, Amount, Counts, Gives, Load, Merges};
use crate::state::{IoState, Totals};
use crate::view::View;
use atomic_table::{Seat as TableSeat, Table};
use foyer_device_page::error::Result;
use foyer_device_throttle::Throttle;
use std::alloc::Allocator;
use std::marker::{Brand, Model};
use std::sync::atomic::{AtomicI32, Ordering};
use std::sync::{Mutex, Wait};
use std::time::Duration;

const WRITE_BYTES: usize = 0;

const READ_BYTES: usize = 1;

const WRITE_IOS: usize = 2;

const READ_IOS: usize = 3;

/// A place at the counters, to be used with these counters only. Contracts see which counters they are, and what the seat
/// recorded and saw. It takes no memory. If a seat is dropped, its parts are lost, so nobody can have all parts again.
#[derive(Drop)]
pub struct Seat {
    place: TableSeat<(), View>,
}

impl Model for Seat {
    ghost use Rattle.std.specs.Prelude.{◌≡◌, ◌<◌, [], length};
    ghost use Rattle.foyer_device_statistics.specs.Placed.{Placed};

    ghost Value = { Placed };

    ghost view = { λ s. record { table = s.place.table_id; view = s.place.me.0 } };

    ghost invariant = { λ s. (s.place.me.1 ≡ []) × (0 < s.place.me.0.parts)
        × (length s.place.me.0.recorded ≡ 4) × (length s.place.me.0.saw ≡ 4) };
}

/// The counters and the limits of a device.
pub struct Statistics<A: Allocator> {
    table: Table<(), View, (), Counts, A>,
    throttle: Throttle,
    writes: Mutex<Meters>,
    reads: Mutex<Meters>,
    // The system's numbers of the last faults, or 0.
    last_write_error: AtomicI32,
    last_read_error: AtomicI32,
}

// Written out, so that it is proved once.
impl<A: Allocator> Drop for Statistics<A> {
    fn drop(self) {
        let Statistics {
            table: _,
            throttle: _,
            writes: _,
            reads: _,
            last_write_error: _,
            last_read_error: _,
        } = self;
    }
}

impl<A: Allocator> Model for Statistics<A> {
    ghost use Rattle.std.specs.Prelude.{◌≡◌};
    ghost use Rattle.foyer_device_statistics.specs.Placed.{Counters};

    ghost Value = { Counters };

    ghost view = { λ s. record { table = s.table.shared.table_id; limits = s.throttle } };

    ghost invariant = { λ s. (s.table.shared.table_id.words ≡ 4)
        × (s.table.shared.table_id.slots ≡ 0) };
}

impl<A: Allocator> Statistics<A> {
    /// Counters of 0, and the seat that has every part. The limits' quotas begin at the moment `now`, in nanoseconds.
    /// Error: Memory.
    pub fn new(alloc: A, throttle: Throttle, now: u64) -> Result<(Statistics<A>, Seat)>
        ensures seat { IfOk result (λ r. (r.1.table ≡ r.0.table) × (r.1.view ≡ first_view)) }
        ensures limits { IfOk result (λ r. r.0.limits ≡ throttle) }
        ensures memory { OnErr result (result ≡ Err error.Memory) }
    {
        let (table, place) = Table::of_words(alloc, &[0, 0, 0, 0], &())?;
        let statistics = Statistics {
            table,
            throttle,
            writes: Mutex::new(Meters::new(now)),
            reads: Mutex::new(Meters::new(now)),
            last_write_error: AtomicI32::new(0),
            last_read_error: AtomicI32::new(0),
        };
        Ok((statistics, Seat { place }))
    }

    /// The limits.
    pub fn throttle(&self) -> &Throttle
        ensures { result.now ≡ self.now.limits }
    {
        &self.throttle
    }

    /// Splits off a seat that has `parts` of this one's parts, but not all, and has recorded nothing.
    pub fn split(&self, seat: &mut Seat, parts: u64) -> Seat
        requires table { seat.old.table ≡ self.now.table }
        requires parts { (0 < parts) × (parts < seat.old.view.parts) }
        ensures given { (result.table ≡ seat.old.table) × (result.view ≡ view parts zeros zeros) }
        ensures left { (seat.new.table ≡ seat.old.table) × (seat.new.view
            ≡ view (seat.old.view.parts - parts) seat.old.view.recorded seat.old.view.saw) }
    {
        self.split_as::<Brand>(seat, parts)
    }

    fn split_as<K: Amount>(&self, seat: &mut Seat, parts: u64) -> Seat
        requires table { seat.old.table ≡ self.now.table }
        requires parts { (0 < parts) × (parts < seat.old.view.parts) }
        requires amount { parts ≡ K.amount }
        ensures given { (result.table ≡ seat.old.table) × (result.view ≡ view parts zeros zeros) }
        ensures left { (seat.new.table ≡ seat.old.table) × (seat.new.view
            ≡ view (seat.old.view.parts - parts) seat.old.view.recorded seat.old.view.saw) }
    {
        let place = self.table.shared.split_seat::<Gives<K>>(&mut seat.place);
        Seat { place }
    }

    /// Takes in another seat: its parts, what it recorded, and what it saw.
    pub fn join(&self, seat: &mut Seat, other: Seat)
        requires table { (seat.old.table ≡ self.now.table) × (other.table ≡ seat.old.table) }
        ensures { (seat.new.table ≡ seat.old.table) × (seat.new.view ≡ both seat.old.view other.view) }
    {
        let Seat { place } = other;
        self.table
            .shared
            .join_seat::<Merges>(&mut seat.place, place);
    }

    fn add(&self, seat: &mut Seat, counter: usize, n: u64)
        requires table { seat.old.table ≡ self.now.table }
        requires counter { counter < 4 }
        ensures table { seat.new.table ≡ seat.old.table }
        ensures grows { Grows counter n seat.old.view seat.new.view }
        ensures length { length seat.old.view.recorded ≡ 4 }
    {
        self.table
            .shared
            .fetch_add::<Add>(&mut seat.place, counter, n);
    }

    fn load(&self, seat: &mut Seat, counter: usize) -> u64
        requires table { seat.old.table ≡ self.now.table }
        requires counter { counter < 4 }
        ensures table { seat.new.table ≡ seat.old.table }
        ensures sees { Sees counter result seat.old.view seat.new.view }
        ensures length { length seat.old.view.saw ≡ 4 }
    {
        self.table.shared.load::<Load>(&mut seat.place, counter)
    }

    /// Records a write of that many bytes, and the calls that it counts. Takes no memory and waits for nobody.
    pub fn record_disk_write(&self, seat: &mut Seat, bytes: usize)
        requires { seat.old.table ≡ self.now.table }
        ensures table { seat.new.table ≡ seat.old.table }
        ensures recorded { Records seat.old.view
            (bytes ∷ 0 ∷ calls self.now.limits.iops_counter bytes ∷ 0 ∷ []) seat.new.view }
    {
        let ios = self.throttle.iops_counter.count(bytes);
        self.add(seat, WRITE_BYTES, bytes as u64);
        self.add(seat, WRITE_IOS, ios as u64);
    }

    /// Records a read of that many bytes, and the calls that it counts. Takes no memory and waits for nobody.
    pub fn record_disk_read(&self, seat: &mut Seat, bytes: usize)
        requires { seat.old.table ≡ self.now.table }
        ensures table { seat.new.table ≡ seat.old.table }
        ensures recorded { Records seat.old.view
            (0 ∷ bytes ∷ 0 ∷ calls self.now.limits.iops_counter bytes ∷ []) seat.new.view }
    {
        let ios = self.throttle.iops_counter.count(bytes);
        self.add(seat, READ_BYTES, bytes as u64);
        self.add(seat, READ_IOS, ios as u64);
    }

    /// Notes the system's number of a write that failed, or 0 if the system gave none. Waits for nobody.
    pub fn note_write_error(&self, code: i32) {
        self.last_write_error.store(code, Ordering::Relaxed);
    }

    /// Notes the system's number of a read that failed, or 0 if the system gave none. Waits for nobody.
    pub fn note_read_error(&self, code: i32) {
        self.last_read_error.store(code, Ordering::Relaxed);
    }

    /// The bytes written so far.
    pub fn disk_write_bytes(&self, seat: &mut Seat) -> u64
        requires { seat.old.table ≡ self.now.table }
        ensures table { seat.new.table ≡ seat.old.table }
        ensures sees { Sees 0 result seat.old.view seat.new.view }
    {
        self.load(seat, WRITE_BYTES)
    }

    /// The bytes read so far.
    pub fn disk_read_bytes(&self, seat: &mut Seat) -> u64
        requires { seat.old.table ≡ self.now.table }
        ensures table { seat.new.table ≡ seat.old.table }
        ensures sees { Sees 1 result seat.old.view seat.new.view }
    {
        self.load(seat, READ_BYTES)
    }

    /// The calls that wrote so far, as they are counted.
    pub fn disk_write_ios(&self, seat: &mut Seat) -> u64
        requires { seat.old.table ≡ self.now.table }
        ensures table { seat.new.table ≡ seat.old.table }
        ensures sees { Sees 2 result seat.old.view seat.new.view }
    {
        self.load(seat, WRITE_IOS)
    }

    /// The calls that read so far, as they are counted.
    pub fn disk_read_ios(&self, seat: &mut Seat) -> u64
        requires { seat.old.table ≡ self.now.table }
        ensures table { seat.new.table ≡ seat.old.table }
        ensures sees { Sees 3 result seat.old.view seat.new.view }
    {
        self.load(seat, READ_IOS)
    }

    // Reads the counters of writes and polls their limits, under their lock: so no poll reads less than the one before.
    fn poll_writes(&self, rt: &impl Wait, seat: &mut Seat, now: u64) -> Polled
        requires { seat.old.table ≡ self.now.table }
        ensures table { seat.new.table ≡ seat.old.table }
        ensures sees { SeesTwo 0 2 result.bytes result.ios seat.old.view seat.new.view }
        ensures unlimited { self.now.limits.write_throughput ≡ None
            → self.now.limits.write_iops ≡ None → as_nanos result.wait ≡ 0 }
    {
        let limits = (self.throttle.write_throughput, self.throttle.write_iops);
        let mut writes = self.writes.lock(rt);
        let bytes = self.load(seat, WRITE_BYTES);
        let ios = self.load(seat, WRITE_IOS);
        let wait = writes.poll(limits, bytes, ios, now);
        Polled { bytes, ios, wait }
    }

    // The same of reads.
    fn poll_reads(&self, rt: &impl Wait, seat: &mut Seat, now: u64) -> Polled
        requires { seat.old.table ≡ self.now.table }
        ensures table { seat.new.table ≡ seat.old.table }
        ensures sees { SeesTwo 1 3 result.bytes result.ios seat.old.view seat.new.view }
        ensures unlimited { self.now.limits.read_throughput ≡ None
            → self.now.limits.read_iops ≡ None → as_nanos result.wait ≡ 0 }
    {
        let limits = (self.throttle.read_throughput, self.throttle.read_iops);
        let mut reads = self.reads.lock(rt);
        let bytes = self.load(seat, READ_BYTES);
        let ios = self.load(seat, READ_IOS);
        let wait = reads.poll(limits, bytes, ios, now);
        Polled { bytes, ios, wait }
    }

    /// How long the limits make a caller wait before the next write, at the moment `now` in nanoseconds. Takes a lock
    /// that no recording takes.
    pub fn write_throttle(&self, rt: &impl Wait, seat: &mut Seat, now: u64) -> Duration
        requires { seat.old.table ≡ self.now.table }
        ensures table { seat.new.table ≡ seat.old.table }
        ensures sees { SeesMore seat.old.view seat.new.view }
        ensures unlimited { self.now.limits.write_throughput ≡ None
            → self.now.limits.write_iops ≡ None → as_nanos result ≡ 0 }
    {
        self.poll_writes(rt, seat, now).wait
    }

    /// How long the limits make a caller wait before the next read. Takes a lock that no recording takes.
    pub fn read_throttle(&self, rt: &impl Wait, seat: &mut Seat, now: u64) -> Duration
        requires { seat.old.table ≡ self.now.table }
        ensures table { seat.new.table ≡ seat.old.table }
        ensures sees { SeesMore seat.old.view seat.new.view }
        ensures unlimited { self.now.limits.read_throughput ≡ None
            → self.now.limits.read_iops ≡ None → as_nanos result ≡ 0 }
    {
        self.poll_reads(rt, seat, now).wait
    }

    /// Whether the limits make a caller wait before the next write.
    pub fn is_write_throttled(&self, rt: &impl Wait, seat: &mut Seat, now: u64) -> bool
        requires { seat.old.table ≡ self.now.table }
        ensures table { seat.new.table ≡ seat.old.table }
        ensures sees { SeesMore seat.old.view seat.new.view }
        ensures unlimited { self.now.limits.write_throughput ≡ None
            → self.now.limits.write_iops ≡ None → result ≡ false }
    {
        !self.write_throttle(rt, seat, now).is_zero()
    }

    /// Whether the limits make a caller wait before the next read.
    pub fn is_read_throttled(&self, rt: &impl Wait, seat: &mut Seat, now: u64) -> bool
        requires { seat.old.table ≡ self.now.table }
        ensures table { seat.new.table ≡ seat.old.table }
        ensures sees { SeesMore seat.old.view seat.new.view }
        ensures unlimited { self.now.limits.read_throughput ≡ None
            → self.now.limits.read_iops ≡ None → result ≡ false }
    {
        !self.read_throttle(rt, seat, now).is_zero()
    }

    /// The four counters, both waits, and the numbers of the last faults. Takes the two locks, one after the other.
    pub fn io_state(&self, rt: &impl Wait, seat: &mut Seat, now: u64) -> IoState
        requires { seat.old.table ≡ self.now.table }
        ensures table { seat.new.table ≡ seat.old.table }
        ensures sees { SeesState result seat.old.view seat.new.view }
        ensures writes { self.now.limits.write_throughput ≡ None
            → self.now.limits.write_iops ≡ None → as_nanos result.write_throttle ≡ 0 }
        ensures reads { self.now.limits.read_throughput ≡ None
            → self.now.limits.read_iops ≡ None → as_nanos result.read_throttle ≡ 0 }
    {
        let writes = self.poll_writes(rt, seat, now);
        let reads = self.poll_reads(rt, seat, now);
        IoState {
            disk_write_bytes: writes.bytes,
            disk_read_bytes: reads.bytes,
            disk_write_ios: writes.ios,
            disk_read_ios: reads.ios,
            write_throttle: writes.wait,
            read_throttle: reads.wait,
            last_write_error: self.last_write_error.load(Ordering::Relaxed),
            last_read_error: self.last_read_error.load(Ordering::Relaxed),
        }
    }

    /// Gives all that was recorded. The seat must have all 2^32 parts.
    pub fn close(self, all: Seat) -> Totals
        requires table { all.table ≡ self.table }
        requires parts { all.view.parts ≡ 2 ^ 32 }
        ensures { AreTotals result all.view }
    {
        let mut all = all;
        let disk_write_bytes = self.load(&mut all, WRITE_BYTES);
        let disk_read_bytes = self.load(&mut all, READ_BYTES);
        let disk_write_ios = self.load(&mut all, WRITE_IOS);
        let disk_read_ios = self.load(&mut all, READ_IOS);
        Totals {
            disk_write_bytes,
            disk_read_bytes,
            disk_write_ios,
            disk_read_ios,
        }
    }
}

// What a poll of both limits of a direction read and answered.
#[derive(Clone, Copy)]
struct Polled {
    bytes: u64,
    ios: u64,
    wait: Duration,
}
