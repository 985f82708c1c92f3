//! One history of the events of all threads, which exists in the proofs alone. Each thread has seen a beginning of it, and has rights: only
//! the thread that has a right adds events that take it.
#![tactic(auto)]

ghost use Rattle.std.specs.Prelude.{◌≡◌, ℕ, Bool, List, [], ◌∷◌, IfOk};
ghost use Rattle.foyer_core_chronicle.specs.Rights.{AreRights};
ghost use Rattle.foyer_core_chronicle.specs.SharedHistory.{MayCome, HasRights, GoesOnBy, GoesOnWith, SeesAll, newcomer, viewer, joined, without_first, with_first, without_rights, with_rights, with_only, with_others};

use atomic_table::{Join, Play, Seat, Split, Table, TableRule};
use std::alloc::{AllocError, Global};
use std::collections::LinkedList;
use std::marker::{Brand, PhantomData};

#[cfg(test)]
mod tests;

/// What may happen, and which rights it takes.
pub trait HistoryRule<E> {
    // What holds of the history between any two events.
    ghost holds: { List E → Type 0 };

    // Whether an event takes the right of a number.
    ghost takes: { E → ℕ → Bool };

    // Whether an event makes a right, of the next number.
    ghost makes: { E → Bool };

    // The number of the first right that is made.
    ghost base: { ℕ };

    // The rights that there are from the start.
    ghost first: { List ℕ };
}

/// What a thread has seen and the rights that it has, and the same of a witness that it took in. No value of this type is made.
pub struct View<E> {
    pub seen: LinkedList<E>,
    pub has: LinkedList<u64>,
    pub joined_seen: LinkedList<E>,
    pub joined_has: LinkedList<u64>,
}

/// A thread's view of the history. It is a value of no bytes.
pub type Witness<E> = Seat<E, View<E>>;

/// The rule of the table that has the history.
pub struct OneHistory<R> {
    rule: PhantomData<R>,
}

impl<E, R: HistoryRule<E>> TableRule<E, View<E>, ()> for OneHistory<R> {
    ghost use Rattle.foyer_core_chronicle.specs.SharedHistory.{ChronicleInvariant, newcomer};

    ghost holds = { λ key s. ChronicleInvariant R.holds R.takes R.makes R.base s.views };

    ghost first = { λ key. newcomer R.first };
}

struct Adds<R> {
    rule: PhantomData<R>,
}

impl<E, R: HistoryRule<E>> Play<E, View<E>> for Adds<R> {
    ghost use Rattle.std.specs.Prelude.{◌≡◌};
    ghost use mathlib.Core.Option.{some};
    ghost use Rattle.foyer_core_chronicle.specs.SharedHistory.{GoesOnBy};

    ghost then = { λ step old n new. (new.1 ≡ old.1) × ((e : E) → step.said ≡ some e → GoesOnBy R.holds R.takes R.makes R.base old.0 e new.0) };
}

struct Looks<R> {
    rule: PhantomData<R>,
}

impl<E, R: HistoryRule<E>> Play<E, View<E>> for Looks<R> {
    ghost use Rattle.std.specs.Prelude.{◌≡◌};
    ghost use Rattle.foyer_core_chronicle.specs.SharedHistory.{SeesAll};

    ghost then = { λ step old n new. (new.1 ≡ old.1) × SeesAll R.holds R.takes old.0 new.0 };
}

struct FirstRight;

impl<E> Split<View<E>> for FirstRight {
    ghost use Rattle.foyer_core_chronicle.specs.SharedHistory.{without_first, with_first};

    ghost left = { without_first };

    ghost right = { with_first };
}

struct AllRights;

impl<E> Split<View<E>> for AllRights {
    ghost use Rattle.foyer_core_chronicle.specs.SharedHistory.{without_rights, with_rights};

    ghost left = { without_rights };

    ghost right = { with_rights };
}

/// The number of a right. A call that passes `Brand` picks it.
pub trait RightNumber {
    ghost right: { ℕ };
}

impl RightNumber for Brand {
    ghost right = { 0 };
}

struct Others<R> {
    right: PhantomData<R>,
}

impl<E, R: RightNumber> Split<View<E>> for Others<R> {
    ghost use Rattle.foyer_core_chronicle.specs.SharedHistory.{with_only, with_others};

    ghost left = { with_only R.right };

    ghost right = { with_others R.right };
}

struct NoRight;

impl<E> Split<View<E>> for NoRight {
    ghost use Rattle.std.specs.Prelude.{[]};
    ghost use Rattle.foyer_core_chronicle.specs.SharedHistory.{viewer};

    ghost left = { λ v. v };

    ghost right = { λ v. viewer v.seen [] };
}

struct Both;

impl<E> Join<View<E>> for Both {
    ghost use Rattle.std.specs.Prelude.{[]};
    ghost use Rattle.foyer_core_chronicle.specs.SharedHistory.{joined, newcomer};

    ghost both = { joined };

    ghost spent = { newcomer [] };
}

/// The history, which threads share by reference. It has one word, which stays 0.
pub struct Chronicle<E, R: HistoryRule<E>> {
    pub table: Table<E, View<E>, (), OneHistory<R>, Global>,
    pub ghost words: { table.shared.table_id.words ≡ 1 },
}

impl<E, R: HistoryRule<E>> Chronicle<E, R> {
    /// Gives an empty history, and a witness that has all rights of `R::first`. These must be distinct and below `R::base`, and the empty
    /// history legal. Errors: if memory is refused.
    pub fn open(alloc: Global) -> Result<(Chronicle<E, R>, Witness<E>), AllocError>
        requires { R.holds [] × AreRights R.base R.first }
        ensures { IfOk result (λ r. (r.1.table_id ≡ r.0.table.shared.table_id) × (r.1.me ≡ (newcomer R.first, []))) }
    {
        let (table, witness) = Table::of_words(alloc, &[0], &())?;
        Ok((Chronicle { table }, witness))
    }

    /// Adds an event to the history. The witness must have the rights that the event takes. The event must be legal after whatever the
    /// witness hasn't seen. Afterwards the witness has seen the whole history, and has the right that the event makes, if it makes one.
    pub fn add(&self, witness: &mut Witness<E>, event: &E)
        requires own { witness.old.table_id ≡ self.now.table.shared.table_id }
        requires rights { HasRights R.takes witness.old.me.0 event.now }
        requires may { MayCome R.holds R.takes witness.old.me.0 event.now }
        ensures same { (witness.new.table_id ≡ witness.old.table_id) × (witness.new.me.1 ≡ witness.old.me.1) }
        ensures added { GoesOnBy R.holds R.takes R.makes R.base witness.old.me.0 event.now witness.new.me.0 }
    {
        let _ = self
            .table
            .shared
            .compare_exchange_with::<Adds<R>>(witness, 0, 0, 0, event);
    }

    /// The witness sees the whole history as it is now. No event is added.
    pub fn look(&self, witness: &mut Witness<E>)
        requires own { witness.old.table_id ≡ self.now.table.shared.table_id }
        ensures same { (witness.new.table_id ≡ witness.old.table_id) × (witness.new.me.1 ≡ witness.old.me.1) }
        ensures seen { SeesAll R.holds R.takes witness.old.me.0 witness.new.me.0 }
    {
        let _ = self.table.shared.load::<Looks<R>>(witness, 0);
    }

    /// Gives another witness, which has seen what this one has, and moves this one's first right to it. Rights that this one took in by
    /// `take` don't move.
    pub fn give(&self, witness: &mut Witness<E>) -> Witness<E>
        requires own { witness.old.table_id ≡ self.now.table.shared.table_id }
        ensures same { (witness.new.table_id ≡ witness.old.table_id) × (witness.new.me ≡ (without_first witness.old.me.0, witness.old.me.1)) }
        ensures given { (result.table_id ≡ witness.old.table_id) × (result.me ≡ (with_first witness.old.me.0, [])) }
    {
        self.table.shared.split_seat::<FirstRight>(witness)
    }

    /// Gives another witness, which has seen what this one has, and moves all of this one's rights to it. Rights that this one took in by
    /// `take` don't move.
    pub fn give_all(&self, witness: &mut Witness<E>) -> Witness<E>
        requires own { witness.old.table_id ≡ self.now.table.shared.table_id }
        ensures same { (witness.new.table_id ≡ witness.old.table_id) × (witness.new.me ≡ (without_rights witness.old.me.0, witness.old.me.1)) }
        ensures given { (result.table_id ≡ witness.old.table_id) × (result.me ≡ (with_rights witness.old.me.0, [])) }
    {
        self.table.shared.split_seat::<AllRights>(witness)
    }

    /// Gives another witness, which has seen what this one has, and moves all of this one's rights except `N` to it. Rights that this one
    /// took in by `take` don't move.
    pub fn give_others<N: RightNumber>(&self, witness: &mut Witness<E>) -> Witness<E>
        requires own { witness.old.table_id ≡ self.now.table.shared.table_id }
        ensures same { (witness.new.table_id ≡ witness.old.table_id) × (witness.new.me ≡ (with_only N.right witness.old.me.0, witness.old.me.1)) }
        ensures given { (result.table_id ≡ witness.old.table_id) × (result.me ≡ (with_others N.right witness.old.me.0, [])) }
    {
        self.table.shared.split_seat::<Others<N>>(witness)
    }

    /// Gives another witness, which has seen what this one has, and has no right.
    pub fn give_seen(&self, witness: &mut Witness<E>) -> Witness<E>
        requires own { witness.old.table_id ≡ self.now.table.shared.table_id }
        ensures same { (witness.new.table_id ≡ witness.old.table_id) × (witness.new.me ≡ witness.old.me) }
        ensures given { (result.table_id ≡ witness.old.table_id) × (result.me ≡ (viewer witness.old.me.0.seen [], [])) }
    {
        self.table.shared.split_seat::<NoRight>(witness)
    }

    /// Takes in what another witness has seen and its rights. Both are lost at the next `take`, unless an `add` or a `look` comes before
    /// it. What the other witness had itself taken in is lost.
    pub fn take(&self, witness: &mut Witness<E>, other: Witness<E>)
        requires own { (witness.old.table_id ≡ self.now.table.shared.table_id) × (other.table_id ≡ self.now.table.shared.table_id) × (other.me.1 ≡ []) }
        ensures { (witness.new.table_id ≡ witness.old.table_id) × (witness.new.me ≡ (joined witness.old.me.0 other.me.0, witness.old.me.1)) }
    {
        self.table.shared.join_seat::<Both>(witness, other);
    }
}

impl<E: Drop, R: HistoryRule<E>> Chronicle<E, R> {
    /// Adds an event for which two witnesses together have the rights: `own`, that of a lock, and `mine`, that of the thread which holds
    /// it. Both have then seen the whole history. `own` keeps the right `N`, if it had it. `mine` keeps its other rights, and gets the
    /// right that the event makes, unless that is `N`.
    pub fn add_with<N: RightNumber>(&self, own: &mut Witness<E>, mine: &mut Witness<E>, event: &E)
        requires own { (own.old.table_id ≡ self.now.table.shared.table_id) × (mine.old.table_id ≡ self.now.table.shared.table_id) }
        requires whole { (own.old.me.1 ≡ []) × (mine.old.me.1 ≡ []) }
        requires rights { HasRights R.takes (joined own.old.me.0 mine.old.me.0) event.now }
        requires may { MayCome R.holds R.takes (joined own.old.me.0 mine.old.me.0) event.now }
        ensures same { (own.new.table_id ≡ own.old.table_id) × (mine.new.table_id ≡ mine.old.table_id) }
        ensures whole { (own.new.me.1 ≡ []) × (mine.new.me.1 ≡ []) }
        ensures added { GoesOnWith R.holds R.takes R.makes R.base N.right own.old.me.0 mine.old.me.0 event.now own.new.me.0 mine.new.me.0 }
    {
        let brought = self.give_all(mine);
        self.take(own, brought);
        self.add(own, event);
        *mine = self.give_others::<N>(own);
    }
}

// Written out, so that it is proved once.
impl<E: Drop, R: HistoryRule<E>> Drop for Chronicle<E, R> {
    fn drop(self) {
        let Chronicle { table: _ } = self;
    }
}
