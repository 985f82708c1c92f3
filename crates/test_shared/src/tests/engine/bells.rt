//! Threads at a bell.
use super::{is_raised, raise};
use foyer_storage_engine::bell::Bell;
use std::sync::Wait;
use std::sync::atomic::AtomicBool;
use std::thread;

// Says that it comes, and waits. The answer of the wait.
fn waits(rt: &impl Wait, bell: &Bell, came: &AtomicBool, seen: u64) -> bool {
    raise(came);
    bell.wait_past(rt, seen)
}

// Whether both threads have arrived. Then they had time to begin their wait.
fn have_come(one: &AtomicBool, two: &AtomicBool) -> bool {
    let came = is_raised(one) && is_raised(two);
    for _ in 0..1000 {
        thread::yield_now();
    }
    came
}

#[test]
fn a_ring_wakes_all_who_wait(rt: HostRuntime) {
    let bell = Bell::new();
    let one = AtomicBool::new(false);
    let two = AtomicBool::new(false);
    let seen = bell.count(&rt);
    let ring = || {
        let came = have_come(&one, &two);
        bell.ring(&rt);
        came
    };
    let wait = || {
        thread::join(
            &rt,
            || waits(&rt, &bell, &one, seen),
            || waits(&rt, &bell, &two, seen),
        )
    };
    let (came, closed) = thread::join(&rt, ring, wait);
    assert!(rt; came);
    assert_eq!(rt; closed, (false, false));
    assert_eq!(rt; (seen, bell.count(&rt)), (0, 1));
    // A move that was missed needs no wait.
    assert!(rt; !bell.wait_past(&rt, seen));
}

#[test]
fn a_close_wakes_all_who_wait(rt: HostRuntime) {
    let bell = Bell::new();
    let one = AtomicBool::new(false);
    let two = AtomicBool::new(false);
    bell.ring(&rt);
    let seen = bell.count(&rt);
    let close = || {
        let came = have_come(&one, &two);
        bell.close(&rt);
        came
    };
    let wait = || {
        thread::join(
            &rt,
            || waits(&rt, &bell, &one, seen),
            || waits(&rt, &bell, &two, seen),
        )
    };
    let (came, closed) = thread::join(&rt, close, wait);
    assert!(rt; came);
    assert_eq!(rt; closed, (true, true));
    // It stays closed, and goes on counting.
    bell.ring(&rt);
    assert_eq!(rt; (seen, bell.count(&rt)), (1, 2));
    assert!(rt; bell.wait_past(&rt, 1));
    assert!(rt; bell.wait_past(&rt, 2));
}

// Rings one bell and waits for the other, turn by turn. How often the other was closed.
fn take_turns(rt: &impl Wait, own: &Bell, other: &Bell) -> u32 {
    let mut closed = 0u32;
    for turn in 0..1000u64 {
        own.ring(rt);
        if other.wait_past(rt, turn) {
            closed = closed.saturating_add(1);
        }
    }
    closed
}

#[test]
fn no_ring_is_lost_between_two_threads(rt: HostRuntime) {
    let one = Bell::new();
    let two = Bell::new();
    let closed = thread::join(
        &rt,
        || take_turns(&rt, &one, &two),
        || take_turns(&rt, &two, &one),
    );
    assert_eq!(rt; closed, (0, 0));
    assert_eq!(rt; (one.count(&rt), two.count(&rt)), (1000, 1000));
}
