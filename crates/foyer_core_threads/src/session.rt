//! Sessions: who asks, and what each has seen of the one history.
ghost use Rattle.std.specs.Prelude.{◌≡◌, ◌+◌, ◌<◌, []};
ghost use Rattle.foyer_core_chronicle.specs.SharedHistory.{viewer};
ghost use Rattle.foyer_core_laws.specs.Content.{meaning};
ghost use Rattle.foyer_core_threads.specs.Going.{GoesOn};
ghost use Rattle.foyer_core_threads.specs.Sessions.{HasJoined};
ghost use Rattle.foyer_core_tally.specs.Tally.{none};

use foyer_core_shared::session::Session;
use foyer_core_tally::book::Kinds;
use foyer_core_told::history::{ToldHistory, ToldWitness};
use foyer_format_record::serde::{Code, Properties};
use foyer_io_disk::disk::Disk;
use std::alloc::Allocator;

/// A caller's session, and its witness of the history.
pub struct ToldSession<L, K, V, P, A, D>
where
    L: Kinds,
    K: Code<A>,
    V: Code<A>,
    P: Properties,
    A: Allocator,
    D: Disk,
{
    /// Its shares of the book, and its last briefs.
    pub session: Session<L>,
    /// What it has seen, and its rights.
    pub witness: ToldWitness<K, V, P, A, D>,
}

// Written out, so that it is proved once.
impl<L, K, V, P, A, D> Drop for ToldSession<L, K, V, P, A, D>
where
    L: Kinds,
    K: Code<A>,
    V: Code<A>,
    P: Properties,
    A: Allocator,
    D: Disk,
{
    fn drop(self) {
        let ToldSession {
            session: _,
            witness: _,
        } = self;
    }
}

impl<L, K, V, P, A, D> ToldSession<L, K, V, P, A, D>
where
    L: Kinds,
    K: Code<A>,
    V: Code<A>,
    P: Properties,
    A: Allocator,
    D: Disk,
{
    /// Splits off a session with this many parts, at least one and fewer than it has. The new session has seen what this one has seen, and
    /// has no right.
    pub fn split(
        &mut self,
        history: &ToldHistory<K, V, P, A, D>,
        parts: u64,
    ) -> ToldSession<L, K, V, P, A, D>
        requires own { self.old.witness.table_id ≡ history.now.table.shared.table_id }
        requires some { 0 < parts }
        requires fewer { parts < self.old.session.shares.parts }
        ensures given { result.session.shares ≡ record { parts = parts; amounts = none } }
        ensures seen { (result.witness.table_id ≡ self.old.witness.table_id) × (result.witness.me ≡ (viewer self.old.witness.me.0.seen [], [])) }
        ensures left { (self.new.session.shares.parts + parts ≡ self.old.session.shares.parts) × (self.new.session.shares.amounts ≡ self.old.session.shares.amounts) }
        ensures same { (self.new.witness.table_id ≡ self.old.witness.table_id) × (self.new.witness.me ≡ self.old.witness.me) }
    {
        let session = self.session.split(parts);
        let witness = history.give_seen(&mut self.witness);
        ToldSession { session, witness }
    }

    /// Takes another session in: its parts, its rights, and what it has seen.
    pub fn join(
        &mut self,
        history: &ToldHistory<K, V, P, A, D>,
        other: ToldSession<L, K, V, P, A, D>,
    )
        requires own { (self.old.witness.table_id ≡ history.now.table.shared.table_id) × (other.witness.table_id ≡ history.now.table.shared.table_id) }
        requires whole { (self.old.witness.me.1 ≡ []) × (other.witness.me.1 ≡ []) }
        ensures same { (self.new.witness.table_id ≡ self.old.witness.table_id) × (self.new.witness.me.1 ≡ []) }
        ensures parts { self.new.session.shares.parts ≡ self.old.session.shares.parts + other.session.shares.parts }
        ensures joined { HasJoined (meaning K.encoding V.encoding K.is_encodable V.is_encodable K.is_decodable V.is_decodable P.age) D.byte_at self.old.witness.me.0 other.witness.me.0 self.new.witness.me.0 }
    {
        let ToldSession { session, witness } = other;
        self.session.join(session);
        history.take(&mut self.witness, witness);
        history.look(&mut self.witness);
    }

    /// Sees what another session has seen, and whatever else was added to the history until then.
    pub fn see(
        &mut self,
        history: &ToldHistory<K, V, P, A, D>,
        other: &mut ToldSession<L, K, V, P, A, D>,
    )
        requires own { (self.old.witness.table_id ≡ history.now.table.shared.table_id) × (other.old.witness.table_id ≡ history.now.table.shared.table_id) }
        requires whole { self.old.witness.me.1 ≡ [] }
        ensures same { (self.new.witness.table_id ≡ self.old.witness.table_id) × (self.new.witness.me.1 ≡ []) × (self.new.session ≡ self.old.session) }
        ensures other { (other.new.witness.table_id ≡ other.old.witness.table_id) × (other.new.witness.me ≡ other.old.witness.me) × (other.new.session ≡ other.old.session) }
        ensures joined { HasJoined (meaning K.encoding V.encoding K.is_encodable V.is_encodable K.is_decodable V.is_decodable P.age) D.byte_at self.old.witness.me.0 (viewer other.old.witness.me.0.seen []) self.new.witness.me.0 }
        ensures on { GoesOn (meaning K.encoding V.encoding K.is_encodable V.is_encodable K.is_decodable V.is_decodable P.age) D.byte_at self.old.witness.me.0 self.new.witness.me.0 }
    {
        let seen = history.give_seen(&mut other.witness);
        history.take(&mut self.witness, seen);
        history.look(&mut self.witness);
    }
}
