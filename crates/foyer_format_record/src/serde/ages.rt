//! An entry's properties, and the age that they say it has.
ghost use Rattle.std.specs.Prelude.{◌≡◌, None, Option};
ghost use Rattle.foyer_format_record.specs.declared.serde.ages.Age.{Age};
ghost use Rattle.foyer_format_record.specs.declared.serde.ages.Age.TheVariants as age_of;

/// Whether an entry was read from the disk, and whether its block will soon be reclaimed.
#[derive(Clone, Copy, Debug, PartialEq, Eq)]
pub enum Age {
    /// It wasn't read from the disk.
    Fresh,
    /// It was read from a block of the disk that isn't about to be reclaimed.
    Young,
    /// It was read from a block of the disk that will soon be reclaimed.
    Old,
}

impl Default for Age {
    ghost is_default = { λ age. age ≡ age_of.Fresh };

    fn default() -> Age {
        Age::Fresh
    }
}

/// What a memory cache keeps beside a key and a value.
pub trait Properties {
    // The answer of `age`.
    ghost age: { Self → Option Age };

    /// The entry's age, if it is known.
    fn age(&self) -> Option<Age>
        ensures { result ≡ age self.now };
}

/// Properties of entries that have no age of their own.
#[derive(Clone, Copy, Debug, PartialEq, Eq)]
pub struct NoProperties;

impl Properties for NoProperties {
    ghost age = { λ _. None };

    fn age(&self) -> Option<Age> {
        None
    }
}
