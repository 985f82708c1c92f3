//! The session of an engine that was opened.
ghost use Rattle.std.specs.Prelude.{◌≡◌, ◌^◌};

use foyer_core_tally::book::Kinds;
use foyer_storage_store::engine::core_shared::session::Session;

/// A session that has all parts.
pub struct WholeSession<L: Kinds> {
    steps: Session<L>,
    ghost whole: { steps.shares.parts ≡ 2 ^ 32 },
}

// Written out, so that it is proved once.
impl<L: Kinds> Drop for WholeSession<L> {
    fn drop(self) {
        let WholeSession { steps: _ } = self;
    }
}

impl<L: Kinds> WholeSession<L> {
    /// Makes one of a session that has all 2^32 parts.
    pub fn new(steps: Session<L>) -> WholeSession<L>
        requires { steps.shares.parts ≡ 2 ^ 32 }
        ensures { result.steps ≡ steps }
    {
        WholeSession { steps }
    }

    /// The session.
    pub fn into_steps(self) -> Session<L>
        ensures is { result ≡ self.steps }
        ensures whole { result.shares.parts ≡ 2 ^ 32 }
    {
        let WholeSession { steps } = self;
        steps
    }
}
