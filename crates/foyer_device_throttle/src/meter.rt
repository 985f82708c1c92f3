//! The state of a limit.
ghost use Rattle.std.specs.Prelude.{◌≡◌, ℕ, ◌+◌, ◌*◌, ◌^◌, ◌≤◌, ◌<◌, List, [], ◌∷◌, ◌++◌, IfSome};
ghost use Rattle.std.specs.Duration.{as_nanos};
ghost use Rattle.std.specs.Int.NonZero.{non_zero_usize_get};
ghost use Rattle.std.specs.Int.{div_ceil};
ghost use Rattle.foyer_device_throttle.specs.Quota.{Event, Polled, fresh, after, wait};
ghost use Rattle.foyer_device_throttle.specs.Meter.{IsPolled, IsLedTo, quota_of};

use std::marker::Model;
use std::num::NonZeroUsize;
use std::time::Duration;

/// The billionths of a unit in a unit.
const BILLION: u128 = 1_000_000_000;

/// How much of a limit's quota was filled, and up to which moment. The quota is what was filled minus what was
/// recorded.
#[derive(Drop)]
pub struct Meter {
    filled: u128,
    moment: u64,
}

impl Model for Meter {
    ghost use Rattle.std.specs.Prelude.{◌≤◌, ◌*◌, ◌^◌};
    ghost use Rattle.foyer_device_throttle.specs.Meter.{Filled};

    ghost Value = { Filled };

    ghost view = { λ m. record { billionths = m.filled; moment = m.moment } };

    // No more is filled than a limit and all that was recorded, each below 2^64.
    ghost invariant = { λ m. m.filled ≤ 2 ^ 65 * 1000000000 };
}

impl Meter {
    /// A quota of 0 at that moment, in nanoseconds.
    pub fn new(now: u64) -> Meter
        ensures { quota_of result 0 ≡ fresh now }
    {
        Meter {
            filled: 0,
            moment: now,
        }
    }

    /// Fills the quota of a limit up to the moment `now`, in nanoseconds. Gives how long further filling takes until
    /// the quota is 0, if `recorded` units were recorded in all. Gives zero if the quota isn't below 0. Without a
    /// limit, gives zero and changes nothing. A moment before the last one counts as the last one.
    pub fn poll(&mut self, limit: Option<NonZeroUsize>, recorded: u64, now: u64) -> Duration
        ensures polled { IsPolled limit recorded now self.old self.new (as_nanos result) }
        ensures led { IfSome limit (λ l. (begun : ℕ) (events : List Event)
            → IsLedTo (non_zero_usize_get l) begun events self.old recorded
            → IsLedTo (non_zero_usize_get l) begun (events ++ Polled now ∷ []) self.new recorded) }
    {
        match limit {
            Some(limit) => self.fill(limit.get(), recorded, now),
            None => Duration::ZERO,
        }
    }

    // The same, for a limit.
    fn fill(&mut self, limit: usize, recorded: u64, now: u64) -> Duration
        requires { 0 < limit }
        ensures filled { quota_of self.new recorded ≡ after limit (quota_of self.old recorded) (Polled now) }
        ensures answer { as_nanos result ≡ wait limit (quota_of self.new recorded).billionths }
    {
        let spent = recorded as u128 * BILLION;
        let most = limit as u128 * BILLION + spent;
        let elapsed = now.saturating_sub(self.moment);
        let more = widening_mul(elapsed, limit as u64);
        self.filled = self.filled.saturating_add(more).min(most);
        self.moment = self.moment.max(now);
        if self.filled >= spent {
            return Duration::ZERO;
        }
        nanos_of(spent - self.filled, limit as u128)
    }
}

fn widening_mul(a: u64, b: u64) -> u128
    ensures { result ≡ a * b }
{
    a as u128 * b as u128
}

// How long `missing` billionths take at `limit` units a second.
fn nanos_of(missing: u128, limit: u128) -> Duration
    requires some { 0 < limit }
    requires few { missing < 2 ^ 64 * 1000000000 }
    ensures { as_nanos result ≡ div_ceil missing limit }
{
    Duration::from_nanos_u128(missing.div_ceil(limit))
}
