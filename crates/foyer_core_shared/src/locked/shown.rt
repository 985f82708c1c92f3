//! What can be read from a session.
ghost use Rattle.foyer_core_tally.specs.Tally.{listed, shown};
ghost use Rattle.std.specs.Prelude.{◌≡◌, [], ◌∷◌};

use super::Session;
use crate::brief::Brief;
use foyer_core_tally::book::Kinds;

impl<L: Kinds> Session<L> {
    /// Gives its last two steps, each with its reply, the newest first.
    pub fn last(&self) -> [Option<Brief>; 2]
        ensures { result ≡ self.now.newest ∷ self.now.before ∷ [] }
    {
        [self.newest, self.before]
    }

    /// Gives how many steps of each kind were noted with its share, in the order of the kinds. 2^64 - 1 means this many or more.
    pub fn tally(&self) -> [u64; 8]
        ensures { result ≡ listed (shown self.now.shares.amounts) }
    {
        self.shares.tally()
    }

    /// Gives how many `Close` steps it made, and how many steps of a destroy: `DestroyBegin`, `DestroyClear` and `DestroyCleaned`. Steps
    /// that were out of turn or refused count too. 2^64 - 1 means this many or more.
    pub fn ends(&self) -> [u64; 2]
        ensures { result ≡ self.now.closes ∷ self.now.destroys ∷ [] }
    {
        [self.closes, self.destroys]
    }

    /// How many parts of the book it has.
    pub fn parts(&self) -> u64
        ensures { result ≡ self.now.shares.parts }
    {
        self.shares.parts()
    }
}
