//! The checksums, and the layout of records, for C. A pointer from C must not be null, not even for no bytes.
#![tactic(auto)]

ghost use Rattle.std.specs.Prelude.{◌≡◌, length};
ghost use Rattle.foyer_format_checksum.specs.Xxh64.{xxh64};
ghost use Rattle.foyer_format_checksum.specs.Xxh32.{xxh32};
ghost use Rattle.foyer_ffi.specs.LaidOut.{AreRecords};

use foyer_format_checksum::Checksummer;
use std::alloc::Global;

mod placing;

/// XXH64 of the bytes, with start value 0. C passes a pointer and a length.
#[unsafe(no_mangle)]
pub extern "C" fn foyer_ffi_xxh64(bytes: &[u8]) -> u64
    ensures { result ≡ xxh64 bytes.now }
{
    Checksummer::checksum64(bytes)
}

/// XXH32 of the bytes, with start value 0. C passes a pointer and a length.
#[unsafe(no_mangle)]
pub extern "C" fn foyer_ffi_xxh32(bytes: &[u8]) -> u32
    ensures { result ≡ xxh32 bytes.now }
{
    Checksummer::checksum32(bytes)
}

/// Lays out `records` records of this value under the keys 0, 1 and so on. They go into one buffer after another, and each buffer is
/// split into blocks of 16 MiB with indices of 4 KiB. A buffer has 512 KiB, or 16 MiB if the value has more than 100 KiB.
///
/// Gives the bytes of the records, each padded to whole pages. If a block has no room for a record, an allocation is refused, or the
/// bytes pass `u64::MAX`, gives the bytes of the first few records, or 0. C passes a pointer, a length and a number. Memory is allocated
/// by C's `malloc`.
#[unsafe(no_mangle)]
pub extern "C" fn foyer_ffi_place(alloc: Global, value: &[u8], records: u64) -> u64
    ensures { AreRecords (length value.now) records result }
{
    placing::place(alloc, value, records)
}
