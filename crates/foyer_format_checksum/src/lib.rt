//! XXH64 and XXH32 with start value 0, as the published xxHash specification has them.
#![tactic(auto)]

ghost use Rattle.std.specs.Prelude.{◌≡◌};
ghost use Rattle.foyer_format_checksum.specs.Xxh64.{xxh64};
ghost use Rattle.foyer_format_checksum.specs.Xxh32.{xxh32};
ghost use Rattle.foyer_format_checksum.specs.Vectors.{Xxh64Vectors, Xxh32Vectors};

mod xxh32;
mod xxh64;

/// Checksums of bytes. They take no memory and never fail.
pub struct Checksummer;

impl Checksummer {
    /// XXH64 of the whole slice, with start value 0.
    pub fn checksum64(buf: &[u8]) -> u64
        ensures { result ≡ xxh64 buf.now }
    {
        xxh64::checksum64(buf)
    }

    /// XXH32 of the whole slice, with start value 0.
    pub fn checksum32(buf: &[u8]) -> u32
        ensures { result ≡ xxh32 buf.now }
    {
        xxh32::checksum32(buf)
    }
}

/// Texts whose checksums were computed by the reference implementation: they reach every branch.
pub fn published_vectors()
    ensures long { Xxh64Vectors }
    ensures short { Xxh32Vectors }
{}
