//! What is kept of a block.
ghost use Rattle.std.specs.Prelude.{◌≡◌, ◌<◌, ◌^◌, ◌++◌, IfOk, OnOk, IsOkUnless};
ghost use Rattle.std.specs.Option.{option_map};
ghost use Rattle.foyer_device_page.specs.declared.error.Error.TheVariants.{Memory};
ghost use Rattle.foyer_block_scan.specs.ScanRun.{infos_in};
ghost use Rattle.foyer_block_recover.specs.Kept.{rising_infos, last_kept, hashed_infos, greatest_in};
ghost use Rattle.foyer_block_recover.specs.Placed.{AllHashed};

use foyer_block_index::indexer::{HashedEntryAddress, Sequence};
use foyer_block_scan::block::scanner::EntryInfo;
use foyer_device_page::error::Result;
use std::alloc::Allocator;

// A hash has 64 bits.
fn in_range(hash: u64) -> u64
    ensures same { result ≡ hash }
    ensures range { hash < 2 ^ 64 }
{
    hash
}

// Appends the infos up to the first whose sequence is below the sequence before it. `last` is the sequence before the first info, or `None`
// if such a fall was met already. Gives the last sequence that was appended, or `None` if a fall was met.
fn keep_rising<A: Allocator>(
    kept: &mut Vec<HashedEntryAddress, A>,
    last: Option<Sequence>,
    infos: &[EntryInfo],
) -> Result<Option<Sequence>>
    ensures kept { OnOk result (kept.new.items ≡ kept.old.items ++ hashed_infos (rising_infos last infos.now)) }
    ensures last { IfOk result (λ now. now ≡ last_kept last infos.now) }
    ensures hashed { IfOk result (λ _. AllHashed (rising_infos last infos.now)) }
    ensures memory { IsOkUnless result Memory }
{
    let Some(mut least) = last else {
        return Ok(None);
    };
    'each_info: for info in infos {
        if info.addr.sequence < least {
            return Ok(None);
        }
        kept.push(HashedEntryAddress {
            hash: in_range(info.hash),
            address: info.addr,
        })?;
        least = info.addr.sequence;
    }
    Ok(Some(least))
}

// The same with what an index gave, if there was one.
pub(crate) fn keep_listed<A: Allocator>(
    kept: &mut Vec<HashedEntryAddress, A>,
    last: Option<Sequence>,
    listed: Option<Vec<EntryInfo, A>>,
) -> Result<Option<Sequence>>
    ensures kept { OnOk result (kept.new.items
        ≡ kept.old.items ++ hashed_infos (rising_infos last (infos_in (option_map (λ infos. infos.items) listed)))) }
    ensures last { IfOk result (λ now. now ≡ last_kept last (infos_in (option_map (λ infos. infos.items) listed))) }
    ensures hashed { IfOk result (λ _. AllHashed (rising_infos last (infos_in (option_map (λ infos. infos.items) listed)))) }
    ensures memory { IsOkUnless result Memory }
{
    let Some(infos) = listed else {
        return Ok(last);
    };
    keep_rising(kept, last, &infos)
}

// The greatest of a number and the sequences of a batch.
pub(crate) fn greatest_in(least: Sequence, batch: &[HashedEntryAddress]) -> Sequence
    ensures { result ≡ greatest_in least batch.now }
{
    let mut greatest = least;
    'each_entry: for entry in batch {
        greatest = greatest.max(entry.address.sequence);
    }
    greatest
}
