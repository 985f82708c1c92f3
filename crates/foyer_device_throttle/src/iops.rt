//! How calls are counted against a limit of calls.
ghost use Rattle.std.specs.Prelude.{◌≡◌, ◌<◌, Some};
ghost use Rattle.foyer_device_throttle.specs.Calls.{IsPerIoSize, calls};
ghost use Rattle.foyer_device_throttle.specs.Text.{counter_text, IsCounterOf};

use foyer_device_page::error::Error;
use std::fmt;
use std::num::NonZeroUsize;
use std::str::FromStr;

/// How calls are counted against a limit of calls.
#[derive(Clone, Copy, Debug, PartialEq, Eq)]
pub enum IopsCounter {
    /// Each call counts 1, even a call of no bytes.
    PerIo,
    /// A call counts its bytes divided by this number, rounded up.
    PerIoSize(NonZeroUsize),
}

impl IopsCounter {
    /// Each call counts 1.
    pub fn per_io() -> IopsCounter
        ensures { result ≡ IopsCounter.PerIo }
    {
        Self::PerIo
    }

    /// A call counts 1 for each `size` bytes, rounded up.
    pub fn per_io_size(size: usize) -> IopsCounter
        requires { 0 < size }
        ensures { IsPerIoSize result size }
    {
        match NonZeroUsize::new(size) {
            Some(size) => IopsCounter::PerIoSize(size),
            None => IopsCounter::PerIo,
        }
    }

    /// What a call of that many bytes counts.
    pub fn count(&self, bytes: usize) -> usize
        ensures { result ≡ calls self.now bytes }
    {
        match self {
            IopsCounter::PerIo => 1,
            IopsCounter::PerIoSize(size) => bytes.div_ceil(size.get()),
        }
    }
}

impl Default for IopsCounter {
    ghost use Rattle.foyer_device_throttle.specs.declared.iops.IopsCounter.TheVariants.{PerIo};

    ghost is_default = { λ c. c ≡ PerIo };

    /// `PerIo`.
    fn default() -> IopsCounter {
        IopsCounter::per_io()
    }
}

impl fmt::Display for IopsCounter {
    ghost output = { λ c. Some (counter_text c) };

    fn fmt<W: fmt::Write>(&self, f: &mut fmt::Formatter<W>) -> fmt::Result {
        match self {
            IopsCounter::PerIo => write!(f, "PerIo"),
            IopsCounter::PerIoSize(size) => {
                let size = size.get();
                write!(f, "PerIoSize({size})")
            }
        }
    }
}

impl FromStr for IopsCounter {
    type Err = Error;

    ghost from_str_gives = { IsCounterOf };

    /// Reads `PerIo`, or `PerIoSize(n)` with the decimal digits of a number from 1 to 2^64 - 1, perhaps after a `+`.
    /// White space around the text is skipped. Error: Parse for every other text.
    fn from_str(s: &str) -> Result<IopsCounter, Error> {
        let text = s.trim();
        if text == "PerIo" {
            return Ok(IopsCounter::PerIo);
        }
        let Some(rest) = text.strip_prefix("PerIoSize(") else {
            return Err(Error::Parse);
        };
        let Some(digits) = rest.strip_suffix(")") else {
            return Err(Error::Parse);
        };
        match digits.parse::<NonZeroUsize>() {
            Ok(size) => Ok(IopsCounter::PerIoSize(size)),
            Err(_) => Err(Error::Parse),
        }
    }
}
