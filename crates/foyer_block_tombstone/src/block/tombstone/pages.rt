//! The pages of partitions, one behind another.
ghost use Rattle.std.specs.Prelude.{◌≡◌, ℕ, None, ◌+◌, ◌*◌, ◌<◌, ◌≤◌, ◌^◌, length, IfSome, IfNone, IfErr, OnOk, MatchResult};
ghost use Rattle.std.specs.Option.{option_map};
ghost use Rattle.foyer_device_page.specs.declared.error.Error.TheVariants as error;
ghost use Rattle.foyer_io_engine.specs.Disk.{IfKnown, Becomes, IsAccessFault};
ghost use Rattle.foyer_block_tombstone.specs.Pages.{locate, pages_of, places};
ghost use Rattle.foyer_block_tombstone.specs.PageBytes.{HasPage, HoldsPage, IsPageWritten, ChangesPages};

use foyer_device_page::error::{Error, Result};
use foyer_device_page::io::bytes::{IoB, IoBuf, PAGE, Raw};
use foyer_device_partition::io::device::Partition;
use foyer_io_engine::io::engine::IoEngine;
use std::alloc::Allocator;

// The most pages whose slots are fewer than 2^63: 2^55 - 1.
const MAX_PAGES: u64 = 36028797018963967;

// Gives how many pages the partitions have, or None if that is too many.
pub(super) fn page_count<P: Partition>(partitions: &[P]) -> Option<u64>
    ensures some { IfSome result (λ n. (n ≡ pages_of (places P.extent P.bytes partitions.now)) × (n < 2 ^ 55)) }
    ensures none { IfNone result (2 ^ 55 ≤ pages_of (places P.extent P.bytes partitions.now)) }
{
    let mut total = 0u64;
    for partition in partitions {
        total += (partition.size() / PAGE) as u64;
        if total > MAX_PAGES {
            return None;
        }
    }
    Some(total)
}

// The partition in which a page lies, and its offset there.
fn find<P: Partition>(partitions: &[P], page: u64) -> Option<(&P, u64)>
    ensures { option_map (λ r. record { extent = P.extent r.0.now; size = P.bytes r.0.now; offset = r.1 }) result
        ≡ locate (places P.extent P.bytes partitions.now) page }
{
    let mut left = page;
    for partition in partitions {
        let pages = (partition.size() / PAGE) as u64;
        if left < pages {
            return Some((partition, PAGE as u64 * left));
        }
        left -= pages;
    }
    None
}

// Reads a page into the buffer, which may have any bytes after a refusal.
pub(super) fn read_page<E: IoEngine, P: Partition, A: Allocator>(
    engine: &mut E,
    partitions: &[P],
    page: u64,
    bytes: Raw<A>,
) -> (Raw<A>, Result<()>)
    requires { length bytes ≡ 4096 }
    ensures length { length result.0 ≡ 4096 }
    ensures read { IfKnown (E.disk engine.old) (λ d. OnOk result.1
        (HoldsPage d (places P.extent P.bytes partitions.now) page result.0)) }
    ensures outside { IfKnown (E.disk engine.old) (λ d. result.1 ≡ Err error.OutOfRange
        → ¬ HasPage d (places P.extent P.bytes partitions.now) page) }
    ensures absent { pages_of (places P.extent P.bytes partitions.now) ≤ page
        → result.1 ≡ Err error.OutOfRange }
    ensures kept { E.disk engine.new ≡ E.disk engine.old }
    ensures counted { E.faults engine.old ≤ E.faults engine.new }
    ensures refused { IfErr result.1 (IsAccessFault (E.faults engine.old) (E.faults engine.new)) }
{
    let Some((partition, offset)) = find(partitions, page) else {
        return (bytes, Err(Error::OutOfRange));
    };
    engine.read(bytes, partition, offset).into_inner()
}

// Bytes that are borrowed for a write.
struct Lent<'a>(&'a [u8]);

impl Drop for Lent<'_> {
    fn drop(self) {
        let Lent(_) = self;
    }
}

impl IoB for Lent<'_> {
    ghost bytes = { λ l. l.0.now };

    fn as_slice(&self) -> &[u8] {
        self.0
    }
}

impl IoBuf for Lent<'_> {
    fn into_iob(self) -> Self {
        self
    }
}

// Writes the bytes over a page.
pub(super) fn write_page<E: IoEngine, P: Partition>(
    engine: &mut E,
    partitions: &[P],
    page: u64,
    bytes: &[u8],
) -> Result<()>
    requires { length bytes.now ≡ 4096 }
    ensures written { Becomes (E.disk engine.old) (E.disk engine.new) (λ d e. MatchResult result
        (λ _. IsPageWritten d (places P.extent P.bytes partitions.now) page bytes.now e)
        (λ _. ChangesPages d (places P.extent P.bytes partitions.now) (λ n. n ≡ page) e)) }
    ensures hidden { E.disk engine.old ≡ None → E.disk engine.new ≡ None }
    ensures outside { IfKnown (E.disk engine.old) (λ d. result ≡ Err error.OutOfRange
        → ¬ HasPage d (places P.extent P.bytes partitions.now) page) }
    ensures untouched { result ≡ Err error.OutOfRange → E.disk engine.new ≡ E.disk engine.old }
    ensures counted { E.faults engine.old ≤ E.faults engine.new }
    ensures refused { IfErr result (IsAccessFault (E.faults engine.old) (E.faults engine.new)) }
{
    let Some((partition, offset)) = find(partitions, page) else {
        return Err(Error::OutOfRange);
    };
    let (bytes, outcome) = engine.write(Lent(bytes), partition, offset).into_inner();
    drop(bytes);
    outcome
}
