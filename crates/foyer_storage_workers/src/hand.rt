//! A session that a thread takes along and gives back.
ghost use Rattle.std.specs.Prelude.{◌≡◌, ◌+◌, ◌<◌};
ghost use Rattle.foyer_storage_engine.specs.Ending.{CountsUnnamed};

use foyer_core_tally::book::Kinds;
use foyer_storage_engine::core_shared::session::Session;

/// A session with one part, which a worker's thread takes along and gives back. It counts no put, no delete and no load.
pub struct Hand<L: Kinds> {
    session: Session<L>,
    ghost one_part: { session.shares.parts ≡ 1 },
    ghost unnamed: { CountsUnnamed session },
}

// Written out, so that it is proved once.
impl<L: Kinds> Drop for Hand<L> {
    fn drop(self) {
        let Hand { session: _ } = self;
    }
}

impl<L: Kinds> Hand<L> {
    /// Splits one part off a session, which must have more than one.
    pub fn of(session: &mut Session<L>) -> Hand<L>
        requires { 1 < session.old.shares.parts }
        ensures { session.new.shares.parts + 1 ≡ session.old.shares.parts }
    {
        Hand {
            session: session.split(1),
        }
    }

    /// The session, for a call that keeps its parts.
    pub fn into_session(self) -> Session<L>
        ensures part { result.shares.parts ≡ 1 }
        ensures unnamed { CountsUnnamed result }
    {
        let Hand { session } = self;
        session
    }

    /// Makes a `Hand` of a session again. The session must have one part, and count no put, delete, load, close or step of a destroy.
    pub fn from_session(session: Session<L>) -> Hand<L>
        requires part { session.shares.parts ≡ 1 }
        requires unnamed { CountsUnnamed session }
        ensures { result.session ≡ session }
    {
        Hand { session }
    }
}
