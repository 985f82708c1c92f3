//! Locks that are tried for some microseconds before a thread sleeps for them.
use foyer_lock::lock_spinning;
use std::sync::{Mutex, Wait};
use std::test::Fail;
use std::thread;

// Counts under the lock, each time long enough that another thread gives up trying.
fn count(rt: &impl Wait, numbers: &Mutex<u64>) {
    for _ in 0..200u64 {
        let mut number = lock_spinning(numbers, rt);
        for _ in 0..200u64 {
            *number = number.wrapping_add(1);
            thread::yield_now();
        }
    }
}

#[test]
fn two_threads_count_under_a_lock_that_they_try_and_sleep_for(rt: HostRuntime) -> Result<(), Fail> {
    let numbers = Mutex::new(0u64);
    let _ = thread::join(&rt, || count(&rt, &numbers), || count(&rt, &numbers));
    assert_eq!(rt; *lock_spinning(&numbers, &rt), 80_000);
    Ok(())
}
