//! The sessions that a store over a history is asked with.
ghost use Rattle.std.specs.Prelude.{◌≡◌, ◌<◌, [], true};
ghost use Rattle.foyer_storage_history.specs.HistoryCalls.{is_nil};
ghost use Rattle.foyer_core_tally.specs.Tally.{shown, listed};

use foyer_core_tally::book::Kinds;
use foyer_core_threads::core_told::history::ToldHistory;
use foyer_core_threads::io_told::disk::HistoryName;
use foyer_core_threads::session::ToldSession;
use foyer_format_record::serde::{Code, Properties};
use foyer_io_disk::disk::Disk;
use std::alloc::Global;
use std::marker::PhantomData;

/// A caller's share of the count of steps, and what it has seen of the history. Each thread asks with its own.
pub struct HistorySession<J, L, K, V, P, D>
where
    J: HistoryName,
    L: Kinds,
    K: Code<Global>,
    V: Code<Global>,
    P: Properties,
    D: Disk,
{
    pub(crate) told: ToldSession<L, K, V, P, Global, D>,
    name: PhantomData<J>,
    ghost mine: { (told.witness.table_id ≡ J.table) × (is_nil told.witness.me.1 ≡ true) },
    ghost some_part: { 0 < told.session.shares.parts },
}

// Written out, so that it is proved once.
impl<J, L, K, V, P, D> Drop for HistorySession<J, L, K, V, P, D>
where
    J: HistoryName,
    L: Kinds,
    K: Code<Global>,
    V: Code<Global>,
    P: Properties,
    D: Disk,
{
    fn drop(self) {
        let HistorySession { told: _, name: _ } = self;
    }
}

impl<J, L, K, V, P, D> HistorySession<J, L, K, V, P, D>
where
    J: HistoryName,
    L: Kinds,
    K: Code<Global>,
    V: Code<Global>,
    P: Properties,
    D: Disk,
{
    /// Makes a session from one of this history. Requires that `told` has a part.
    pub fn new(told: ToldSession<L, K, V, P, Global, D>) -> HistorySession<J, L, K, V, P, D>
        requires mine { (told.witness.table_id ≡ J.table) × (told.witness.me.1 ≡ []) }
        requires some { 0 < told.session.shares.parts }
        ensures { result.told ≡ told }
    {
        HistorySession {
            told,
            name: PhantomData,
        }
    }

    // What it was made of.
    pub(crate) fn into_told(self) -> ToldSession<L, K, V, P, Global, D>
        ensures { result ≡ self.told }
    {
        let HistorySession { told, name: _ } = self;
        told
    }

    /// How many parts it has.
    pub fn parts(&self) -> u64
        ensures { result ≡ self.now.told.session.shares.parts }
    {
        self.told.session.parts()
    }

    /// Gives how many steps of each kind were noted with its share, in the order of the kinds. 2^64 - 1 means this many or more.
    pub fn tally(&self) -> [u64; 8]
        ensures { result ≡ listed (shown self.now.told.session.shares.amounts) }
    {
        self.told.session.tally()
    }
}
