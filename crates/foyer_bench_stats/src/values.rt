//! Keys of ranks, values of keys, and rates.
ghost use Rattle.std.specs.Prelude.{◌≡◌, ◌++◌, ◌*◌, ◌/◌, ◌%◌, ◌-◌, ◌^◌, ◌↔◌, IfOk, IsTrue, drop, length, max, min};
ghost use Rattle.foyer_bench_stats.specs.Values.{start_of, IsValueOf};

use std::alloc::{AllocError, Global};

/// Gives the key of a rank: the rank times an odd number, modulo 2^64. So the keys of neighbouring ranks are far apart.
pub fn key_of(rank: usize) -> u64
    ensures { result ≡ rank * 0x9E37_79B9_7F4A_7C15 % 2 ^ 64 }
{
    (rank as u64).wrapping_mul(0x9E37_79B9_7F4A_7C15)
}

/// Gives the value of a key, as long as the filler: the key's eight bytes, the lowest first, and then the filler from its ninth byte on.
/// A shorter value has only as many bytes of the key. Errors: `AllocError`.
pub fn value_of(alloc: Global, key: u64, filler: &[u8]) -> Result<Vec<u8>, AllocError>
    ensures { IfOk result (λ value. value.items ≡ start_of key filler.now ++ drop (min (length filler.now) 8) filler.now) }
{
    let length = filler.len().min(8);
    let mut value = Vec::with_capacity(alloc, filler.len())?;
    value.extend_from_slice(&key.to_le_bytes()[..length])?;
    value.extend_from_slice(&filler[length..])?;
    Ok(value)
}

/// Whether a value begins with the key's eight bytes. If it has fewer bytes, they must be the first of those.
pub fn is_of(key: u64, value: &[u8]) -> bool
    ensures { IsTrue result ↔ IsValueOf key value.now }
{
    let length = value.len().min(8);
    value[..length] == key.to_le_bytes()[..length]
}

/// Gives how many calls a second these are, rounded down, and at most 2^64 - 1. 0 nanoseconds count as 1.
pub fn rate(calls: u64, nanos: u64) -> u64
    ensures { result ≡ min (calls * 1000000000 / max nanos 1) (2 ^ 64 - 1) }
{
    let each = u128::from(calls) * 1_000_000_000;
    u64::try_from(each / u128::from(nanos.max(1))).unwrap_or(u64::MAX)
}
