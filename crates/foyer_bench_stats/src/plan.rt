//! The words that say what a bench runs: `THREADS VALUE_BYTES SECONDS`, and settings, each `name=value`.
ghost use Rattle.std.specs.Prelude.{◌≡◌, IfOk, MatchResult, map, string_bytes};
ghost use Rattle.foyer_bench_stats.specs.BenchPlans.{AreRefused, ArePlanWords, HasBounds, set_to};

use crate::settings::{Refusal, Setting, number};
use std::alloc::Allocator;

/// What the words ask for.
#[derive(Clone, Copy, Debug, PartialEq, Eq)]
pub struct Plan {
    /// How many threads call at once.
    pub threads: u64,
    /// The bytes of a value.
    pub value_bytes: u64,
    /// For how many seconds they call.
    pub seconds: u64,
    /// How many calls each thread makes, in place of the seconds.
    pub calls: Option<u64>,
    /// How many keys there are.
    pub keys: u64,
    /// The skew of the keys' distribution, in hundredths.
    pub skew: u64,
    /// How many calls of a hundred are gets.
    pub gets: u64,
    /// The seed of the random numbers that the calls are drawn from.
    pub seed: u64,
    /// How many of the most frequent keys are put before the calls begin.
    pub fill: u64,
    /// Through how many I/O engines of each core loads read.
    pub engines: u64,
    /// How many flushers each core has.
    pub flushers: u64,
    /// How many threads of each core may read the blocks when the store is opened.
    pub recoverers: u64,
    /// How many cores the store has: 1, 2 or 4.
    pub cores: u64,
    /// If a put finds too much queued, how often it looks again.
    pub patience: u64,
    /// This is 1 if a get that misses puts its key, else 0.
    pub through: u64,
    /// This is 1 if records that were asked for are written again at a reclaim, else 0.
    pub reinsert: u64,
}

impl Plan {
    // With a setting in place of the one before.
    fn with(mut self, setting: Setting, number: u64) -> Plan
        ensures { result ≡ set_to setting number self }
    {
        match setting {
            Setting::Calls => self.calls = Some(number),
            Setting::Keys => self.keys = number,
            Setting::Skew => self.skew = number,
            Setting::Gets => self.gets = number,
            Setting::Seed => self.seed = number,
            Setting::Fill => self.fill = number,
            Setting::Engines => self.engines = number,
            Setting::Flushers => self.flushers = number,
            Setting::Recoverers => self.recoverers = number,
            Setting::Cores => self.cores = number,
            Setting::Patience => self.patience = number,
            Setting::Through => self.through = number,
            Setting::Reinsert => self.reinsert = number,
        }
        self
    }

    /// Reads the words. If several settings have one name, the last one counts. Without settings, 100,000 keys are asked for at a skew of
    /// 0.99. Of a hundred calls 90 are gets, and the seed is 1. Nothing is put before the calls. Loads read through one engine, one flusher
    /// writes, and eight workers read the blocks at the opening. There is one core. No put looks again, a miss puts nothing, and nothing is
    /// written again.
    pub fn parse<A: Allocator>(words: &[String<A>]) -> Result<Plan, Refusal>
        ensures read { MatchResult result (ArePlanWords (map string_bytes words.now)) (AreRefused (map string_bytes words.now)) }
        ensures bounds { IfOk result HasBounds }
    {
        if words.len() < 3 {
            return Err(Refusal::Missing);
        }
        let Some(threads) = number(words[0].as_str(), 1, 1024) else {
            return Err(Refusal::Threads);
        };
        let Some(value_bytes) = number(words[1].as_str(), 0, 1 << 30) else {
            return Err(Refusal::ValueBytes);
        };
        let Some(seconds) = number(words[2].as_str(), 1, 1 << 30) else {
            return Err(Refusal::Seconds);
        };
        let mut plan = Plan {
            threads,
            value_bytes,
            seconds,
            calls: None,
            keys: 100_000,
            skew: 99,
            gets: 90,
            seed: 1,
            fill: 0,
            engines: 1,
            flushers: 1,
            recoverers: 8,
            cores: 1,
            patience: 0,
            through: 0,
            reinsert: 0,
        };
        for word in &words[3..] {
            let (setting, number) = Setting::parse(word.as_str())?;
            plan = plan.with(setting, number);
        }
        Ok(plan)
    }
}
