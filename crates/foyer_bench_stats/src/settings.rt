//! Settings, each `name=value`, and why words are refused.
ghost use Rattle.std.specs.Prelude.{◌≡◌, ℕ, MatchOption, MatchResult};
ghost use Rattle.foyer_bench_stats.specs.Settings.{IsNumberIn, IsRefusedWord, IsSetting, greatest_of, least_of, name_of, takes};

/// What a setting sets.
#[derive(Clone, Copy, Debug, PartialEq, Eq)]
pub enum Setting {
    Calls,
    Keys,
    Skew,
    Gets,
    Seed,
    Fill,
    Engines,
    Flushers,
    Recoverers,
    Cores,
    Patience,
    Through,
    Reinsert,
}

/// Why words are refused.
#[derive(Clone, Copy, Debug, PartialEq, Eq)]
pub enum Refusal {
    /// There are fewer than three.
    Missing,
    /// The first is no number from 1 to 1024.
    Threads,
    /// The second is no number up to 2^30.
    ValueBytes,
    /// The third is no number from 1 to 2^30.
    Seconds,
    /// A further word doesn't begin with a setting's name and an equals sign.
    Unknown,
    /// The text after a setting's equals sign is no number that the setting may have.
    Number(Setting),
}

impl Refusal {
    /// What is wanted instead.
    pub fn wanted(self) -> &'static str {
        match self {
            Refusal::Missing => "THREADS VALUE_BYTES SECONDS are missing",
            Refusal::Threads => "THREADS is a number from 1 to 1024",
            Refusal::ValueBytes => "VALUE_BYTES is a number up to 2^30",
            Refusal::Seconds => "SECONDS is a number from 1 to 2^30",
            Refusal::Unknown =>
                "a setting is calls=, keys=, skew=, gets=, seed=, fill=, engines=, flushers=, recoverers=, cores=, patience=, through= or reinsert=",
            Refusal::Number(Setting::Calls) => "calls= is a number",
            Refusal::Number(Setting::Keys) => "keys= is a number from 1 to 2^26",
            Refusal::Number(Setting::Skew) => "skew= is a number of hundredths up to 1000",
            Refusal::Number(Setting::Gets) => "gets= is a number of hundredths up to 100",
            Refusal::Number(Setting::Seed) => "seed= is a number",
            Refusal::Number(Setting::Fill) => "fill= is a number",
            Refusal::Number(Setting::Engines) => "engines= is a number from 1 to 1024",
            Refusal::Number(Setting::Flushers) => "flushers= is a number from 1 to 1024",
            Refusal::Number(Setting::Recoverers) => "recoverers= is a number from 1 to 1024",
            Refusal::Number(Setting::Cores) => "cores= is 1, 2 or 4",
            Refusal::Number(Setting::Patience) => "patience= is a number up to 4294967295",
            Refusal::Number(Setting::Through) => "through= is 0 or 1",
            Refusal::Number(Setting::Reinsert) => "reinsert= is 0 or 1",
        }
    }
}

// A decimal number from the least to the greatest.
pub(crate) fn number(text: &str, least: u64, greatest: u64) -> Option<u64>
    ensures { MatchOption result ((n : ℕ) → ¬ IsNumberIn text.now least greatest n) (IsNumberIn text.now least greatest) }
{
    match text.parse::<u64>() {
        Ok(number) if least <= number && number <= greatest => Some(number),
        _ => None,
    }
}

impl Setting {
    // The setting of a name.
    fn named(name: &str) -> Option<Setting>
        ensures { MatchOption result ((s : Setting) → ¬ (name.now ≡ name_of s)) (λ s. name.now ≡ name_of s) }
    {
        match name {
            "calls" => Some(Setting::Calls),
            "keys" => Some(Setting::Keys),
            "skew" => Some(Setting::Skew),
            "gets" => Some(Setting::Gets),
            "seed" => Some(Setting::Seed),
            "fill" => Some(Setting::Fill),
            "engines" => Some(Setting::Engines),
            "flushers" => Some(Setting::Flushers),
            "recoverers" => Some(Setting::Recoverers),
            "cores" => Some(Setting::Cores),
            "patience" => Some(Setting::Patience),
            "through" => Some(Setting::Through),
            "reinsert" => Some(Setting::Reinsert),
            _ => None,
        }
    }

    fn least(self) -> u64
        ensures { result ≡ least_of self }
    {
        match self {
            Setting::Keys
            | Setting::Engines
            | Setting::Flushers
            | Setting::Recoverers
            | Setting::Cores => 1,
            _ => 0,
        }
    }

    fn greatest(self) -> u64
        ensures { result ≡ greatest_of self }
    {
        match self {
            Setting::Keys => 1 << 26,
            Setting::Skew => 1000,
            Setting::Gets => 100,
            Setting::Engines | Setting::Flushers | Setting::Recoverers => 1024,
            Setting::Cores => 4,
            Setting::Patience => u32::MAX as u64,
            Setting::Through | Setting::Reinsert => 1,
            _ => u64::MAX,
        }
    }

    // Whether the setting may have this number, if the number is from the least to the greatest.
    fn takes(self, number: u64) -> bool
        ensures { result ≡ takes self number }
    {
        match self {
            Setting::Cores => number != 3,
            _ => true,
        }
    }

    // A setting and its number.
    pub(crate) fn parse(word: &str) -> Result<(Setting, u64), Refusal>
        ensures { MatchResult result (λ r. IsSetting word.now r.0 r.1) (IsRefusedWord word.now) }
    {
        let Some((name, text)) = word.split_once('=') else {
            return Err(Refusal::Unknown);
        };
        let Some(setting) = Setting::named(name) else {
            return Err(Refusal::Unknown);
        };
        match number(text, setting.least(), setting.greatest()) {
            Some(number) => {
                if setting.takes(number) {
                    Ok((setting, number))
                } else {
                    Err(Refusal::Number(setting))
                }
            }
            None => Err(Refusal::Number(setting)),
        }
    }
}
