//! How a test waits without a lock, and within a bound.
use std::sync::atomic::{AtomicBool, Ordering};
use std::thread;

mod bells;
mod gates;
mod loads;

const TURNS: u32 = 1_000_000;

// Whether the flag was raised within so many turns.
fn is_raised(flag: &AtomicBool) -> bool {
    for _ in 0..TURNS {
        if flag.load(Ordering::SeqCst) {
            return true;
        }
        thread::yield_now();
    }
    false
}

fn raise(flag: &AtomicBool) {
    flag.store(true, Ordering::SeqCst);
}
