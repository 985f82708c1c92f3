//! How a record's value is compressed, and the byte that names it in a header.
ghost use Rattle.std.specs.Prelude.{◌≡◌, Ok};
ghost use Rattle.foyer_format_record.specs.Compression.{byte_of, compression_of};
ghost use Rattle.foyer_format_record.specs.declared.compress.Compression.{Compression};
ghost use Rattle.foyer_format_record.specs.declared.compress.Compression.TheVariants as compression;

use foyer_format_code::device_page::error::{Error, Result};

/// How a record's value is compressed. Only `None` can be written and decoded.
#[derive(Clone, Copy, Debug, PartialEq, Eq)]
pub enum Compression {
    /// Plain bytes.
    None,
    /// Recognized in a header. This engine neither writes it nor undoes it.
    Zstd,
    /// Recognized in a header. This engine neither writes it nor undoes it.
    Lz4,
}

impl Default for Compression {
    ghost is_default = { λ c. c ≡ compression.None };

    fn default() -> Compression {
        Compression::None
    }
}

impl Compression {
    /// The byte that names it in a header: 0, 1 or 2.
    pub fn to_u8(&self) -> u8
        ensures { result ≡ byte_of self.now }
    {
        match self {
            Compression::None => 0,
            Compression::Zstd => 1,
            Compression::Lz4 => 2,
        }
    }
}

impl From<Compression> for u8 {
    ghost from_gives = { λ c byte. byte ≡ byte_of c };

    fn from(value: Compression) -> u8 {
        value.to_u8()
    }
}

impl TryFrom<u8> for Compression {
    type Error = Error;

    ghost try_from_gives = { λ byte r. r ≡ compression_of byte };

    // A byte above 2 is `Parse`.
    fn try_from(value: u8) -> Result<Compression> {
        match value {
            0 => Ok(Compression::None),
            1 => Ok(Compression::Zstd),
            2 => Ok(Compression::Lz4),
            _ => Err(Error::Parse),
        }
    }
}

/// Each compression reads back from its byte.
#[tactic(auto, using(crate::proofs::CompressionLemmas::compression_again))]
pub fn compression_read_back()
    ensures { (c : Compression) → compression_of (byte_of c) ≡ Ok c }
{}
