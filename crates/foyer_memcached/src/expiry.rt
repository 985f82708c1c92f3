//! When an item is no longer seen.
ghost use Rattle.std.specs.Prelude.{◌≡◌};
ghost use Rattle.foyer_memcached.specs.Expiry.{expiry_of, moment};

use crate::words::number;

// Thirty days, in seconds: a greater expiry is a moment of Unix time.
const COUNTED_MOST: u64 = 60 * 60 * 24 * 30;

/// An expiry as a client writes it.
#[derive(Clone, Copy, Debug, PartialEq, Eq)]
pub enum Expiry {
    /// A number below 0: the item is never seen.
    Past,
    /// A number of seconds from now on, or a second of Unix time. 0: the item doesn't expire.
    After(u64),
}

impl Expiry {
    /// Reads an expiry. `None` if the word isn't a number of decimal digits, with or without a minus before it.
    #[tactic(auto, unfolding(crate::specs::Expiry::expiry_of))]
    pub fn parse(word: &[u8]) -> Option<Expiry>
        ensures { result ≡ expiry_of word.now }
    {
        if !word.is_empty() && word[0] == b'-' {
            return match number(&word[1..]) {
                Some(_) => Some(Expiry::Past),
                None => None,
            };
        }
        match number(word) {
            Some(seconds) => Some(Expiry::After(seconds)),
            None => None,
        }
    }

    /// Gives the second of Unix time that the expiry means, at a second of Unix time. 0: none.
    pub fn moment(self, now: u32) -> u32
        ensures { result ≡ moment now self }
    {
        match self {
            Expiry::Past => 1,
            Expiry::After(seconds) => {
                if seconds == 0 {
                    0
                } else if seconds <= COUNTED_MOST {
                    (u64::from(now) + seconds).min(u64::from(u32::MAX)) as u32
                } else {
                    seconds.min(u64::from(u32::MAX)) as u32
                }
            }
        }
    }
}
