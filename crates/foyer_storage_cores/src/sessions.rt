//! A caller's sessions of several cores, as one.
ghost use Rattle.std.specs.Prelude.{◌+◌, min};

use foyer_core_tally::book::Kinds;
use foyer_storage_store::session::StoreSession;

/// A session that callers divide among their threads.
pub trait CallerSession: Sized + Drop {
    ghost use Rattle.std.specs.Prelude.{◌≡◌, ◌+◌, ◌<◌, ◌≤◌, ℕ};

    // Of how many parts it is, in the core in which it has the fewest.
    ghost parts_of: { Self → ℕ };

    /// How many parts it has, in the core in which it has the fewest.
    fn parts(&self) -> u64
        ensures { result ≡ parts_of self.now };

    /// How many steps of each kind were noted with it in all cores, in the order of the kinds; 2^64 - 1 stands for all numbers above.
    fn tally(&self) -> [u64; 8];

    /// Splits off a session that has `parts` parts in each core. `parts` must be at least 1, and fewer than this one has in any core.
    fn split(&mut self, parts: u64) -> Self
        requires some { 0 < parts }
        requires fewer { parts < parts_of self.old }
        ensures given { parts_of result ≡ parts }
        ensures left { parts_of self.new + parts ≡ parts_of self.old };

    /// Takes in another session's parts and steps.
    fn join(&mut self, other: Self)
        ensures { parts_of self.old + parts_of other ≤ parts_of self.new };
}

impl<L: Kinds> CallerSession for StoreSession<L> {
    ghost parts_of = { λ session. session.steps.shares.parts };

    fn parts(&self) -> u64 {
        StoreSession::parts(self)
    }

    fn tally(&self) -> [u64; 8] {
        StoreSession::tally(self)
    }

    fn split(&mut self, parts: u64) -> StoreSession<L> {
        StoreSession::split(self, parts)
    }

    fn join(&mut self, other: StoreSession<L>) {
        StoreSession::join(self, other);
    }
}

// The sums, number by number, each 2^64 - 1 at most.
fn summed(low: [u64; 8], high: [u64; 8]) -> [u64; 8] {
    let mut sums = low;
    for (sum, more) in sums.iter_mut().zip(high) {
        *sum = sum.saturating_add(more);
    }
    sums
}

/// The sessions of two engines.
#[derive(Drop)]
pub struct TwoSessions<S: Drop, T: Drop> {
    /// The session of the first engine.
    pub low: S,
    /// The session of the second engine.
    pub high: T,
}

impl<S: CallerSession, T: CallerSession> CallerSession for TwoSessions<S, T> {
    ghost use Rattle.std.specs.Prelude.{min};

    ghost parts_of = { λ session. min (S.parts_of session.low) (T.parts_of session.high) };

    fn parts(&self) -> u64 {
        self.low.parts().min(self.high.parts())
    }

    fn tally(&self) -> [u64; 8] {
        summed(self.low.tally(), self.high.tally())
    }

    fn split(&mut self, parts: u64) -> TwoSessions<S, T> {
        TwoSessions {
            low: self.low.split(parts),
            high: self.high.split(parts),
        }
    }

    fn join(&mut self, other: TwoSessions<S, T>) {
        let TwoSessions { low, high } = other;
        self.low.join(low);
        self.high.join(high);
    }
}
