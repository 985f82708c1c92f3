//! The sessions that callers of a store ask with. That a session has a part is a fact of its type.
ghost use Rattle.std.specs.Prelude.{◌≡◌, ◌+◌, ◌<◌, ◌∷◌, [], None};
ghost use Rattle.foyer_core_tally.specs.Tally.{both, none, shown, listed, saturated};

use foyer_core_tally::book::Kinds;
use foyer_storage_engine::core_shared::brief::Brief;
use foyer_storage_engine::core_shared::session::Session;

/// A caller's share of the count of steps, of one part at least, with the last two steps that it made. Each thread asks with its
/// own.
pub struct StoreSession<L: Kinds> {
    pub(crate) steps: Session<L>,
    // The number of the disk that its loads read from. Its first load sets it.
    pub(crate) disk: Option<usize>,
    ghost some_part: { 0 < steps.shares.parts },
}

// Written out, so that it is proved once.
impl<L: Kinds> Drop for StoreSession<L> {
    fn drop(self) {
        let StoreSession { steps: _, disk: _ } = self;
    }
}

impl<L: Kinds> StoreSession<L> {
    /// Makes a store's session of a session that has at least one part.
    pub fn new(steps: Session<L>) -> StoreSession<L>
        requires { 0 < steps.shares.parts }
        ensures { result.steps ≡ steps }
    {
        StoreSession { steps, disk: None }
    }

    /// The session itself, as `Workers::join` takes it.
    pub fn into_steps(self) -> Session<L>
        ensures { result ≡ self.steps }
    {
        let StoreSession { steps, disk: _ } = self;
        steps
    }

    /// How many parts it has.
    pub fn parts(&self) -> u64
        ensures { result ≡ self.now.steps.shares.parts }
    {
        self.steps.parts()
    }

    /// How many steps of each kind were noted with it, in the order of the kinds; 2^64 - 1 stands for all numbers above.
    pub fn tally(&self) -> [u64; 8]
        ensures { result ≡ listed (shown self.now.steps.shares.amounts) }
    {
        self.steps.tally()
    }

    /// What it asked last and before that, each with the reply, newest first.
    pub fn last(&self) -> [Option<Brief>; 2]
        ensures { result ≡ self.now.steps.newest ∷ self.now.steps.before ∷ [] }
    {
        self.steps.last()
    }

    /// Splits off a session that has `parts` of this one's parts, and no briefs. `parts` must be at least 1, and fewer than this one has.
    pub fn split(&mut self, parts: u64) -> StoreSession<L>
        requires some { 0 < parts }
        requires fewer { parts < self.old.steps.shares.parts }
        ensures given { result.steps.shares ≡ record { parts = parts; amounts = none } }
        ensures fresh { (result.steps.newest ≡ None) × (result.steps.before ≡ None) × (result.steps.closes ≡ 0) × (result.steps.destroys ≡ 0) }
        ensures ends { (self.new.steps.closes ≡ self.old.steps.closes) × (self.new.steps.destroys ≡ self.old.steps.destroys) }
        ensures left { (self.new.steps.shares.parts + parts ≡ self.old.steps.shares.parts) × (self.new.steps.shares.amounts ≡ self.old.steps.shares.amounts) }
        ensures briefs { (self.new.steps.newest ≡ self.old.steps.newest) × (self.new.steps.before ≡ self.old.steps.before) }
    {
        StoreSession {
            steps: self.steps.split(parts),
            disk: None,
        }
    }

    /// Takes in another session's parts and steps, and keeps its own briefs.
    pub fn join(&mut self, other: StoreSession<L>)
        ensures shares { self.new.steps.shares ≡ record {
          parts = self.old.steps.shares.parts + other.steps.shares.parts;
          amounts = both self.old.steps.shares.amounts other.steps.shares.amounts;
        } }
        ensures briefs { (self.new.steps.newest ≡ self.old.steps.newest) × (self.new.steps.before ≡ self.old.steps.before) }
        ensures ends { (self.new.steps.closes ≡ saturated (self.old.steps.closes + other.steps.closes)) × (self.new.steps.destroys ≡ saturated (self.old.steps.destroys + other.steps.destroys)) }
    {
        self.steps.join(other.into_steps());
    }
}
