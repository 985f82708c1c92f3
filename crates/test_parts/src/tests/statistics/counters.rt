//! What is recorded, by one caller and by two threads.
ghost use Rattle.std.specs.Prelude.{◌≡◌};

use super::limits::say_wait;
use foyer_device_statistics::{IoState, Recorder, Seat, Statistics, Totals};
use foyer_device_throttle::{IopsCounter, Throttle};
use foyer_testing::said::Said;
use std::alloc::Global;
use std::sync::Arc;
use std::test::Fail;
use std::thread;

fn say_totals(said: &mut Said, totals: &Totals) {
    said.number(", in all ", totals.disk_write_bytes);
    said.number(" ", totals.disk_read_bytes);
    said.number(" ", totals.disk_write_ios);
    said.number(" ", totals.disk_read_ios);
}

fn say_state(said: &mut Said, state: &IoState) {
    said.number(", ", state.disk_write_bytes);
    said.number(" ", state.disk_read_bytes);
    said.number(" ", state.disk_write_ios);
    said.number(" ", state.disk_read_ios);
    say_wait(said, state.write_throttle);
    say_wait(said, state.read_throttle);
}

// Bytes and calls are noted as those of writes, then of reads.
#[test]
fn what_is_recorded_is_read(rt: HostRuntime) -> Result<(), Fail> {
    let throttle = Throttle::new().with_iops_counter(IopsCounter::per_io_size(4096));
    let (statistics, mut seat) = Statistics::new(rt.alloc(), throttle, 0)?;
    let mut said = Said::new(rt.alloc());
    said.flag("", *statistics.throttle() == throttle);
    statistics.record_disk_write(&mut seat, 4097);
    statistics.record_disk_read(&mut seat, 10);
    statistics.record_disk_read(&mut seat, 0);
    said.number(" ", statistics.disk_write_bytes(&mut seat));
    said.number(" ", statistics.disk_read_bytes(&mut seat));
    said.number(" ", statistics.disk_write_ios(&mut seat));
    said.number(" ", statistics.disk_read_ios(&mut seat));
    say_totals(&mut said, &statistics.close(seat));
    let found = said.text()?;
    assert!(rt;
        found.as_str() == "yes 4097 10 2 1, in all 4097 10 2 1",
        "{found}"
    );
    Ok(())
}

#[test]
fn a_limit_of_calls_throttles_too(rt: HostRuntime) -> Result<(), Fail> {
    let throttle = Throttle::new().with_read_iops(2).with_read_throughput(1000);
    let (statistics, mut seat) = Statistics::new(rt.alloc(), throttle, 5)?;
    let mut said = Said::new(rt.alloc());
    said.flag("", statistics.is_read_throttled(&rt, &mut seat, 5));
    statistics.record_disk_read(&mut seat, 100);
    say_wait(&mut said, statistics.read_throttle(&rt, &mut seat, 5));
    said.flag(" ", statistics.is_read_throttled(&rt, &mut seat, 5));
    said.flag(" ", statistics.is_write_throttled(&rt, &mut seat, 5));
    statistics.record_disk_read(&mut seat, 1900);
    say_state(&mut said, &statistics.io_state(&rt, &mut seat, 5));
    let found = said.text()?;
    let wanted = "no 0+500000000 yes no, 0 2000 0 2 0+0 2+0";
    assert!(rt; found.as_str() == wanted, "{found}");
    Ok(())
}

#[test]
fn recorders_record_at_the_same_counters(rt: HostRuntime) -> Result<(), Fail> {
    let (statistics, seat) = Statistics::new(rt.alloc(), Throttle::new(), 0)?;
    let mut one = Recorder::new(seat, Arc::new(rt.alloc(), statistics)?);
    let mut two = one.split(7)?;
    let mut said = Said::new(rt.alloc());
    one.record_disk_write(3);
    two.record_disk_write(4);
    two.record_disk_read(5);
    said.number("", one.disk_write_bytes());
    said.number(" ", two.disk_write_bytes());
    said.number(" ", one.disk_read_bytes());
    said.number(" ", one.disk_read_ios());
    said.number(" ", two.disk_write_ios());
    said.flag(" ", two.is_write_throttled(&rt, 9));
    said.flag(" ", two.is_read_throttled(&rt, 9));
    say_wait(&mut said, two.read_throttle(&rt, 9));
    say_wait(&mut said, two.write_throttle(&rt, 9));
    say_state(&mut said, &two.io_state(&rt, 9));
    let (mut seat, statistics) = one.into_parts();
    let (other, shared) = two.into_parts();
    statistics.join(&mut seat, other);
    drop(shared);
    let statistics = Arc::into_inner(statistics).ok_or("shared")?;
    say_totals(&mut said, &statistics.close(seat));
    let found = said.text()?;
    let wanted = "7 7 5 1 2 no no 0+0 0+0, 7 5 2 1 0+0 0+0, in all 7 5 2 1";
    assert!(rt; found.as_str() == wanted, "{found}");
    Ok(())
}

const RECORDS: u64 = 1_000_000;

// Records so many writes and reads of some bytes.
fn record_all(statistics: &Statistics<Global>, mut seat: Seat, written: usize, read: usize) -> Seat
    requires { seat.table ≡ statistics.now.table }
    ensures table { result.table ≡ statistics.now.table }
    ensures parts { result.view.parts ≡ seat.view.parts }
{
    'each: for _ in 0..RECORDS {
        statistics.record_disk_write(&mut seat, written);
        statistics.record_disk_read(&mut seat, read);
    }
    seat
}

#[test]
fn two_threads_record_a_million_each(rt: HostRuntime) -> Result<(), Fail> {
    let (statistics, mut one) = Statistics::new(rt.alloc(), Throttle::new(), 0)?;
    let two = statistics.split(&mut one, 1);
    let lent = &statistics;
    let (mut one, two) = thread::join(
        &rt,
        move || -> Seat
            requires { one.table ≡ lent.now.table }
            ensures table { result.table ≡ lent.entry.now.table }
            ensures parts { result.view.parts ≡ one.view.parts }
        { record_all(lent, one, 3, 1) },
        move || -> Seat
            requires { two.table ≡ lent.now.table }
            ensures table { result.table ≡ lent.entry.now.table }
            ensures parts { result.view.parts ≡ two.view.parts }
        { record_all(lent, two, 5, 2) },
    );
    statistics.join(&mut one, two);
    let totals = statistics.close(one);
    let wanted = Totals {
        disk_write_bytes: 8_000_000,
        disk_read_bytes: 3_000_000,
        disk_write_ios: 2_000_000,
        disk_read_ios: 2_000_000,
    };
    assert!(rt; totals == wanted);
    Ok(())
}
