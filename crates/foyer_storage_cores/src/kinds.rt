//! The names of the ledgers of several cores.
ghost use Rattle.std.specs.Prelude.{◌≡◌, ◌+◌, ◌*◌};
ghost use Rattle.foyer_storage_cores.specs.CoreLedgers.{HaveParts};

use foyer_core_tally::book::{Blanks, Kinds};
use std::marker::PhantomData;

/// The ledgers of core number `I`. The names of `L` are eight for each core, in the order of the cores.
pub struct CoreKinds<L, const I: u8> {
    of: PhantomData<L>,
}

impl<L: Kinds, const I: u8> Kinds for CoreKinds<L, I> {
    ghost name_of = { λ kind. L.name_of (8 * I + kind) };

    ghost all = { L.all };
}

/// New ledgers for four cores.
pub struct CoreBlanks {
    pub first: Blanks,
    pub second: Blanks,
    pub third: Blanks,
    pub fourth: Blanks,
}

// Written out, so that it is proved once.
impl Drop for CoreBlanks {
    fn drop(self) {
        let CoreBlanks {
            first: _,
            second: _,
            third: _,
            fourth: _,
        } = self;
    }
}

impl CoreBlanks {
    /// Makes new ledgers of this many parts each.
    pub fn new(parts: u64) -> CoreBlanks
        ensures { HaveParts parts result.first × HaveParts parts result.second × HaveParts parts result.third × HaveParts parts result.fourth }
    {
        CoreBlanks {
            first: Blanks::new(parts),
            second: Blanks::new(parts),
            third: Blanks::new(parts),
            fourth: Blanks::new(parts),
        }
    }

    /// Gives the ledgers of each core.
    pub fn into_parts(self) -> (Blanks, Blanks, Blanks, Blanks)
        ensures { (result.0 ≡ self.first) × (result.1 ≡ self.second) × (result.2 ≡ self.third) × (result.3 ≡ self.fourth) }
    {
        let CoreBlanks {
            first,
            second,
            third,
            fourth,
        } = self;
        (first, second, third, fourth)
    }
}
