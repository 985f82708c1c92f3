//! How calls were answered, and how many of each.

/// How a put was answered.
#[derive(Clone, Copy, Debug, PartialEq, Eq)]
pub enum PutAnswer {
    /// It was queued.
    Queued,
    /// The put wasn't taken.
    Dropped,
    /// The call was refused.
    Fault,
}

/// How a get was answered.
#[derive(Clone, Copy, Debug, PartialEq, Eq)]
pub enum GetAnswer {
    /// By a value of its key.
    Hit,
    /// By another value.
    Wrong,
    /// By none.
    Miss,
    /// The call was refused.
    Fault,
}

/// How many calls were made, and how they were answered. A count that reaches 2^64 - 1 stays there.
#[derive(Clone, Copy, Debug, PartialEq, Eq)]
pub struct Answers {
    pub puts: u64,
    pub queued: u64,
    pub dropped: u64,
    pub put_faults: u64,
    pub gets: u64,
    pub hits: u64,
    pub wrong: u64,
    pub misses: u64,
    pub get_faults: u64,
}

impl Answers {
    ghost use Rattle.std.specs.Prelude.{◌≡◌, ◌+◌, ◌<◌, ◌^◌, ◌↔◌, IsTrue};
    ghost use Rattle.foyer_bench_stats.specs.AnswerCounts.{both, got, no_answers, put, IsWell};

    /// Gives the counts of no calls.
    pub fn new() -> Answers
        ensures { result ≡ no_answers }
    {
        Answers {
            puts: 0,
            queued: 0,
            dropped: 0,
            put_faults: 0,
            gets: 0,
            hits: 0,
            wrong: 0,
            misses: 0,
            get_faults: 0,
        }
    }

    /// Counts a put.
    pub fn count_put(&mut self, answer: PutAnswer)
        ensures { self.new ≡ put answer self.old }
    {
        self.puts = self.puts.saturating_add(1);
        match answer {
            PutAnswer::Queued => self.queued = self.queued.saturating_add(1),
            PutAnswer::Dropped => self.dropped = self.dropped.saturating_add(1),
            PutAnswer::Fault => self.put_faults = self.put_faults.saturating_add(1),
        }
    }

    /// Counts a get.
    pub fn count_get(&mut self, answer: GetAnswer)
        ensures { self.new ≡ got answer self.old }
    {
        self.gets = self.gets.saturating_add(1);
        match answer {
            GetAnswer::Hit => self.hits = self.hits.saturating_add(1),
            GetAnswer::Wrong => self.wrong = self.wrong.saturating_add(1),
            GetAnswer::Miss => self.misses = self.misses.saturating_add(1),
            GetAnswer::Fault => self.get_faults = self.get_faults.saturating_add(1),
        }
    }

    /// Gives the sum of each count.
    pub fn plus(self, other: Answers) -> Answers
        ensures { result ≡ both self other }
    {
        Answers {
            puts: self.puts.saturating_add(other.puts),
            queued: self.queued.saturating_add(other.queued),
            dropped: self.dropped.saturating_add(other.dropped),
            put_faults: self.put_faults.saturating_add(other.put_faults),
            gets: self.gets.saturating_add(other.gets),
            hits: self.hits.saturating_add(other.hits),
            wrong: self.wrong.saturating_add(other.wrong),
            misses: self.misses.saturating_add(other.misses),
            get_faults: self.get_faults.saturating_add(other.get_faults),
        }
    }

    /// Whether no answer was wrong or a fault, and the counts of the other answers add up to those of the calls.
    pub fn are_well(&self) -> bool
        ensures { IsTrue result ↔ IsWell self.now }
    {
        self.wrong == 0
            && self.put_faults == 0
            && self.get_faults == 0
            && self.queued.saturating_add(self.dropped) == self.puts
            && self.hits.saturating_add(self.misses) == self.gets
    }
}
