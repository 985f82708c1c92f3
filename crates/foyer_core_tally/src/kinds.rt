//! Kinds of a step and its answer, and a number for each.
ghost use Rattle.std.specs.Prelude.{◌≡◌};
ghost use Rattle.foyer_core_tally.specs.Tally.{listed, none};

/// The steps with their answers that are counted apart.
#[derive(Clone, Copy, Debug, PartialEq, Eq)]
pub enum StepKind {
    /// An enqueue that was queued.
    Queued,
    /// An enqueue whose piece was dropped, and its hash deleted.
    Dropped,
    /// A delete.
    Deleted,
    /// A look-up that issued a read.
    Read,
    /// A look-up that missed.
    LookUpMiss,
    /// A load that ended with an entry.
    Entry,
    /// A load that ended with a miss.
    EndMiss,
    /// Any other step, or answer.
    Other,
}

/// A number for each kind.
#[derive(Clone, Copy, Debug, PartialEq, Eq)]
pub struct Counts {
    pub queued: u64,
    pub dropped: u64,
    pub deleted: u64,
    pub read: u64,
    pub look_up_miss: u64,
    pub entry: u64,
    pub end_miss: u64,
    pub other: u64,
}

impl Counts {
    /// 0 of each kind.
    pub fn new() -> Counts
        ensures { result ≡ none }
    {
        Counts {
            queued: 0,
            dropped: 0,
            deleted: 0,
            read: 0,
            look_up_miss: 0,
            entry: 0,
            end_miss: 0,
            other: 0,
        }
    }

    /// Gives the numbers in the order of the kinds.
    pub fn to_array(&self) -> [u64; 8]
        ensures { result ≡ listed self.now }
    {
        [
            self.queued,
            self.dropped,
            self.deleted,
            self.read,
            self.look_up_miss,
            self.entry,
            self.end_miss,
            self.other,
        ]
    }
}
