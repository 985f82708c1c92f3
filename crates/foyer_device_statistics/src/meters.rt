//! The limits of one direction.
ghost use Rattle.std.specs.Prelude.{◌≡◌};
ghost use Rattle.std.specs.Duration.{as_nanos};
ghost use Rattle.foyer_device_statistics.specs.Metered.{IsMetered};
ghost use Rattle.foyer_device_throttle.specs.Meter.{quota_of};
ghost use Rattle.foyer_device_throttle.specs.Quota.{fresh};

use foyer_device_throttle::Meter;
use std::num::NonZeroUsize;
use std::time::Duration;

/// The state of a limit of bytes and of a limit of calls, of reads or of writes.
#[derive(Drop)]
pub struct Meters {
    pub bytes: Meter,
    pub ios: Meter,
}

impl Meters {
    /// Both quotas are 0 at that moment, in nanoseconds.
    pub fn new(now: u64) -> Meters
        ensures bytes { quota_of result.bytes 0 ≡ fresh now }
        ensures ios { quota_of result.ios 0 ≡ fresh now }
    {
        Meters {
            bytes: Meter::new(now),
            ios: Meter::new(now),
        }
    }

    /// Gives how long both limits make a caller wait at the moment `now`, if `bytes` and `ios` were recorded in all. This
    /// is the longer of the two waits. The first of `limits` is that of bytes, the second that of calls.
    pub fn poll(
        &mut self,
        limits: (Option<NonZeroUsize>, Option<NonZeroUsize>),
        bytes: u64,
        ios: u64,
        now: u64,
    ) -> Duration
        ensures { IsMetered limits.0 limits.1 bytes ios now self.old self.new (as_nanos result) }
    {
        let for_bytes = self.bytes.poll(limits.0, bytes, now);
        let for_ios = self.ios.poll(limits.1, ios, now);
        if for_bytes.as_nanos() < for_ios.as_nanos() {
            for_ios
        } else {
            for_bytes
        }
    }
}
