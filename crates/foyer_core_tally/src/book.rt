//! The book of steps by their kinds, in eight ledgers, and shares of it.
ghost use Rattle.std.specs.Prelude.{◌≡◌, ℕ, ◌+◌, ◌<◌, ◌≤◌};
ghost use Rattle.foyer_core_tally.specs.Ledgers.{AreOf};
ghost use Rattle.foyer_core_tally.specs.Tally.{saturated, none, grown, both, shown, listed};

pub use crate::blanks::Blanks;
use crate::kinds::{Counts, StepKind};
use std::marker::{Brand, Model, PhantomData};
use std::sync::ledger::{Book, Ledger, Share};

/// The names of the ledgers, by the numbers of their kinds, and how many parts each has.
pub trait Kinds {
    ghost name_of: { ℕ → ℕ };

    ghost all: { ℕ };
}

impl Kinds for Brand {
    ghost name_of = { λ _. 0 };

    ghost all = { 0 };
}

/// The ledger of the kind with the number `N`.
pub struct Kind<L, const N: u8> {
    of: PhantomData<L>,
}

impl<L: Kinds, const N: u8> Ledger for Kind<L, N> {
    ghost name = { L.name_of N };

    ghost parts = { L.all };
}

/// The book: how many steps of each kind were noted with any share.
#[derive(Drop)]
pub struct Books<L: Kinds> {
    queued: Book<Kind<L, 0>>,
    dropped: Book<Kind<L, 1>>,
    deleted: Book<Kind<L, 2>>,
    read: Book<Kind<L, 3>>,
    look_up_miss: Book<Kind<L, 4>>,
    entry: Book<Kind<L, 5>>,
    end_miss: Book<Kind<L, 6>>,
    other: Book<Kind<L, 7>>,
}

impl<L: Kinds> Model for Books<L> {
    ghost use Rattle.foyer_core_tally.specs.declared.kinds.Counts.{Counts};

    ghost Value = { Counts };

    ghost view = { λ b. record { queued = b.queued.total; dropped = b.dropped.total; deleted = b.deleted.total; read = b.read.total; look_up_miss = b.look_up_miss.total; entry = b.entry.total; end_miss = b.end_miss.total; other = b.other.total } };
}

/// Parts of the book, and how many steps of each kind were noted with them, as numbers of 64 bits that stay at the greatest one.
#[derive(Drop)]
pub struct Shares<L: Kinds> {
    queued: Share<Kind<L, 0>>,
    dropped: Share<Kind<L, 1>>,
    deleted: Share<Kind<L, 2>>,
    read: Share<Kind<L, 3>>,
    look_up_miss: Share<Kind<L, 4>>,
    entry: Share<Kind<L, 5>>,
    end_miss: Share<Kind<L, 6>>,
    other: Share<Kind<L, 7>>,
    counts: Counts,
    parts: u64,
}

impl<L: Kinds> Model for Shares<L> {
    ghost use Rattle.std.specs.Prelude.{◌≡◌, ◌<◌, ◌^◌};
    ghost use Rattle.foyer_core_tally.specs.Tally.{Held, saturated};

    ghost Value = { Held };

    ghost view = { λ s. record { parts = s.queued.parts; amounts = record { queued = s.queued.amount; dropped = s.dropped.amount; deleted = s.deleted.amount; read = s.read.amount; look_up_miss = s.look_up_miss.amount; entry = s.entry.amount; end_miss = s.end_miss.amount; other = s.other.amount } } };

    ghost invariant = { λ s. (s.dropped.parts ≡ s.queued.parts) × (s.deleted.parts ≡ s.queued.parts) × (s.read.parts ≡ s.queued.parts) × (s.look_up_miss.parts ≡ s.queued.parts) × (s.entry.parts ≡ s.queued.parts) × (s.end_miss.parts ≡ s.queued.parts) × (s.other.parts ≡ s.queued.parts)
        × (s.counts.queued ≡ saturated s.queued.amount) × (s.counts.dropped ≡ saturated s.dropped.amount) × (s.counts.deleted ≡ saturated s.deleted.amount) × (s.counts.read ≡ saturated s.read.amount) × (s.counts.look_up_miss ≡ saturated s.look_up_miss.amount) × (s.counts.entry ≡ saturated s.entry.amount) × (s.counts.end_miss ≡ saturated s.end_miss.amount) × (s.counts.other ≡ saturated s.other.amount)
        × (s.parts ≡ s.queued.parts) × (L.all < 2 ^ 64) };
}

// One more step, in one ledger.
fn note<L: Ledger>(book: &mut Book<L>, share: &mut Share<L>, count: &mut u64)
    requires part { 0 < share.old.parts }
    requires shown { count.old ≡ saturated share.old.amount }
    ensures total { book.new.total ≡ book.old.total + 1 }
    ensures amount { share.new.amount ≡ share.old.amount + 1 }
    ensures parts { share.new.parts ≡ share.old.parts }
    ensures shown { count.new ≡ saturated share.new.amount }
{
    book.add(share, 1);
    *count = count.saturating_add(1);
}

// Takes in another's parts and steps, in one ledger.
fn merge<L: Ledger>(share: &mut Share<L>, other: Share<L>, count: &mut u64, more: u64)
    requires own { count.old ≡ saturated share.old.amount }
    requires others { more ≡ saturated other.amount }
    ensures amount { share.new.amount ≡ share.old.amount + other.amount }
    ensures parts { share.new.parts ≡ share.old.parts + other.parts }
    ensures apart { share.new.parts ≤ L.parts }
    ensures shown { count.new ≡ saturated share.new.amount }
{
    share.merge(other);
    *count = count.saturating_add(more);
}

impl Blanks {
    /// Gives the book, and the share that has all its parts. The ledgers must have the names and the number of parts that `L` says.
    pub fn open<L: Kinds>(self) -> (Books<L>, Shares<L>)
        requires { AreOf L.name_of L.all self }
        ensures book { result.0 ≡ none }
        ensures share { result.1 ≡ record { parts = L.all; amounts = none } }
    {
        let parts = self.parts;
        let (queued_book, queued) = self.queued.open::<Kind<L, 0>>();
        let (dropped_book, dropped) = self.dropped.open::<Kind<L, 1>>();
        let (deleted_book, deleted) = self.deleted.open::<Kind<L, 2>>();
        let (read_book, read) = self.read.open::<Kind<L, 3>>();
        let (look_up_miss_book, look_up_miss) = self.look_up_miss.open::<Kind<L, 4>>();
        let (entry_book, entry) = self.entry.open::<Kind<L, 5>>();
        let (end_miss_book, end_miss) = self.end_miss.open::<Kind<L, 6>>();
        let (other_book, other) = self.other.open::<Kind<L, 7>>();
        let books = Books {
            queued: queued_book,
            dropped: dropped_book,
            deleted: deleted_book,
            read: read_book,
            look_up_miss: look_up_miss_book,
            entry: entry_book,
            end_miss: end_miss_book,
            other: other_book,
        };
        let shares = Shares {
            queued,
            dropped,
            deleted,
            read,
            look_up_miss,
            entry,
            end_miss,
            other,
            counts: Counts::new(),
            parts,
        };
        (books, shares)
    }
}

impl<L: Kinds> Books<L> {
    /// Notes one more step of a kind, with a share that has at least one part.
    pub fn note(&mut self, shares: &mut Shares<L>, kind: StepKind)
        requires { 0 < shares.old.parts }
        ensures book { self.new ≡ grown kind self.old }
        ensures share { shares.new ≡ record { parts = shares.old.parts; amounts = grown kind shares.old.amounts } }
    {
        match kind {
            StepKind::Queued => note(
                &mut self.queued,
                &mut shares.queued,
                &mut shares.counts.queued,
            ),
            StepKind::Dropped => note(
                &mut self.dropped,
                &mut shares.dropped,
                &mut shares.counts.dropped,
            ),
            StepKind::Deleted => note(
                &mut self.deleted,
                &mut shares.deleted,
                &mut shares.counts.deleted,
            ),
            StepKind::Read => note(&mut self.read, &mut shares.read, &mut shares.counts.read),
            StepKind::LookUpMiss => note(
                &mut self.look_up_miss,
                &mut shares.look_up_miss,
                &mut shares.counts.look_up_miss,
            ),
            StepKind::Entry => note(&mut self.entry, &mut shares.entry, &mut shares.counts.entry),
            StepKind::EndMiss => note(
                &mut self.end_miss,
                &mut shares.end_miss,
                &mut shares.counts.end_miss,
            ),
            StepKind::Other => note(&mut self.other, &mut shares.other, &mut shares.counts.other),
        }
    }

    /// Shows that a share with all the parts has as many steps of each kind as the book. It changes nothing.
    pub fn audit(&mut self, all: &mut Shares<L>)
        requires { all.old.parts ≡ L.all }
        ensures book { self.new ≡ self.old }
        ensures share { all.new ≡ all.old }
        ensures whole { self.old ≡ all.old.amounts }
    {
        self.queued.audit(&mut all.queued);
        self.dropped.audit(&mut all.dropped);
        self.deleted.audit(&mut all.deleted);
        self.read.audit(&mut all.read);
        self.look_up_miss.audit(&mut all.look_up_miss);
        self.entry.audit(&mut all.entry);
        self.end_miss.audit(&mut all.end_miss);
        self.other.audit(&mut all.other);
    }
}

impl<L: Kinds> Shares<L> {
    /// How many steps of each kind were noted with it, in the order of the kinds; 2^64 - 1 stands for all numbers above.
    pub fn tally(&self) -> [u64; 8]
        ensures { result ≡ listed (shown self.now.amounts) }
    {
        self.counts.to_array()
    }

    /// How many parts of each ledger it has.
    pub fn parts(&self) -> u64
        ensures { result ≡ self.now.parts }
    {
        self.parts
    }

    /// Gives a new share that takes `parts` parts of each ledger from this one, and has no steps. `parts` must be more than 0, and less
    /// than this share has.
    pub fn split(&mut self, parts: u64) -> Shares<L>
        requires some { 0 < parts }
        requires fewer { parts < self.old.parts }
        ensures given { result ≡ record { parts = parts; amounts = none } }
        ensures parts { self.new.parts + parts ≡ self.old.parts }
        ensures amounts { self.new.amounts ≡ self.old.amounts }
    {
        self.parts -= parts;
        Shares {
            parts,
            queued: self.queued.split_off(parts, 0),
            dropped: self.dropped.split_off(parts, 0),
            deleted: self.deleted.split_off(parts, 0),
            read: self.read.split_off(parts, 0),
            look_up_miss: self.look_up_miss.split_off(parts, 0),
            entry: self.entry.split_off(parts, 0),
            end_miss: self.end_miss.split_off(parts, 0),
            other: self.other.split_off(parts, 0),
            counts: Counts::new(),
        }
    }

    /// Takes in another's parts and steps.
    pub fn merge(&mut self, other: Shares<L>)
        ensures { self.new ≡ record { parts = self.old.parts + other.parts; amounts = both self.old.amounts other.amounts } }
    {
        let parts = other.parts;
        merge(
            &mut self.queued,
            other.queued,
            &mut self.counts.queued,
            other.counts.queued,
        );
        merge(
            &mut self.dropped,
            other.dropped,
            &mut self.counts.dropped,
            other.counts.dropped,
        );
        merge(
            &mut self.deleted,
            other.deleted,
            &mut self.counts.deleted,
            other.counts.deleted,
        );
        merge(
            &mut self.read,
            other.read,
            &mut self.counts.read,
            other.counts.read,
        );
        merge(
            &mut self.look_up_miss,
            other.look_up_miss,
            &mut self.counts.look_up_miss,
            other.counts.look_up_miss,
        );
        merge(
            &mut self.entry,
            other.entry,
            &mut self.counts.entry,
            other.counts.entry,
        );
        merge(
            &mut self.end_miss,
            other.end_miss,
            &mut self.counts.end_miss,
            other.counts.end_miss,
        );
        merge(
            &mut self.other,
            other.other,
            &mut self.counts.other,
            other.counts.other,
        );
        self.parts += parts;
    }
}
