//! A clock that shows what it is set to.
use foyer_program::store::threads::workers::Clock;
use std::alloc::{AllocError, Global};
use std::sync::atomic::{AtomicU64, Ordering};

/// A clock that shows what it is set to. Its copies show the same, so what they look at is never freed: eight bytes for each store.
#[derive(Clone, Copy)]
pub(crate) struct Dial {
    moment: &'static AtomicU64,
}

fn nanos_of(millis: u64) -> u64 {
    millis.saturating_mul(1_000_000)
}

impl Dial {
    /// It shows so many milliseconds.
    pub(crate) fn new(alloc: Global, millis: u64) -> Result<Dial, AllocError> {
        let moment = Box::new(alloc, AtomicU64::new(nanos_of(millis)))?;
        let moment: &'static AtomicU64 = Box::leak(moment);
        Ok(Dial { moment })
    }

    /// From now on it shows so many milliseconds.
    pub(crate) fn set(&self, millis: u64) {
        self.moment.store(nanos_of(millis), Ordering::SeqCst);
    }
}

impl Clock for Dial {
    fn now(&self) -> u64 {
        self.moment.load(Ordering::SeqCst)
    }
}
