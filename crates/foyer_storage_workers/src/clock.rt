//! Clocks, which give the current moment.
//!
//! All moments that a store is given count from one origin: that of the clock that it is built with. So make the clock first, and pass
//! its `now` to the device's builder and to each call that takes a moment.
ghost use Rattle.std.specs.Prelude.{◌≡◌};

use foyer_device_page::error::Result;
use std::time::Instant;

/// A clock, which gives the current moment.
pub trait Clock: Drop {
    /// The moment, in nanoseconds.
    fn now(&self) -> u64;
}

/// A clock whose moment never changes. With it the quota of a limit never refills, so it is for stores without limits.
#[derive(Clone, Copy, Debug, Default, PartialEq, Eq)]
pub struct Moment(pub u64);

impl Clock for Moment {
    fn now(&self) -> u64
        ensures { result ≡ self.now.0 }
    {
        self.0
    }
}

/// The clock of the system, which counts from when it was started.
#[derive(Clone, Copy, Drop)]
pub struct SystemClock<R: std::rt::Clock + Copy + Drop> {
    rt: R,
    start: Instant,
}

impl<R: std::rt::Clock + Copy + Drop> SystemClock<R> {
    /// Makes a clock that counts from now on. Errors: `Io` if the system's clock can't be read.
    pub fn start(rt: R) -> Result<SystemClock<R>> {
        let start = Instant::now(&rt)?;
        Ok(SystemClock { rt, start })
    }
}

impl<R: std::rt::Clock + Copy + Drop> Clock for SystemClock<R> {
    /// The nanoseconds since the start, 2^64 - 1 at most. It is 0 if the system's clock can't be read, which limits take as no time gone.
    fn now(&self) -> u64 {
        match self.start.elapsed(&self.rt) {
            Ok(gone) => u64::try_from(gone.as_nanos()).unwrap_or(u64::MAX),
            Err(_) => 0,
        }
    }
}
