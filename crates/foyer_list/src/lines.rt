//! The lines that a list is printed as.
ghost use Rattle.std.specs.Prelude.{◌≡◌, IfOk, IsOkUnless, string_bytes};
ghost use Rattle.foyer_device_page.specs.declared.error.Error.TheVariants.{Memory};
ghost use Rattle.foyer_list.specs.ListLines.{block_text, end_text, entry_text, verdict_word};

use crate::listing::ChainEnd;
use crate::verdict::Verdict;
use foyer_block_index::manager::BlockId;
use foyer_block_scan::block::scanner::EntryInfo;
use foyer_device_page::error::Result;
use std::alloc::Allocator;

/// The word that a verdict is printed as.
pub fn word_of(verdict: Verdict) -> &'static str
    ensures { result.now ≡ verdict_word verdict }
{
    match verdict {
        Verdict::Wins => "wins",
        Verdict::Loses => "loses",
        Verdict::Dropped => "dropped",
    }
}

/// Makes the line that begins a block's list. Errors: `Memory`.
pub fn block_line<A: Allocator>(alloc: A, block: BlockId) -> Result<String<A>>
    ensures text { IfOk result (λ line. string_bytes line ≡ block_text block) }
    ensures memory { IsOkUnless result Memory }
{
    let line = format!(in alloc; "block {block}\n")?;
    Ok(line)
}

/// Makes an entry's line: its hash, its sequence, where its record begins in the block, how long it is, and the verdict on it. Errors:
/// `Memory`.
pub fn entry_line<A: Allocator>(alloc: A, info: &EntryInfo, verdict: Verdict) -> Result<String<A>>
    ensures text { IfOk result (λ line. string_bytes line ≡ entry_text info.now verdict) }
    ensures memory { IsOkUnless result Memory }
{
    let hash = info.hash;
    let sequence = info.addr.sequence;
    let offset = info.addr.offset;
    let len = info.addr.len;
    let word = word_of(verdict);
    let line = format!(in alloc; "entry {hash} {sequence} {offset} {len} {word}\n")?;
    Ok(line)
}

/// Makes the line that ends a block's list. It says why the block's chain of indices ends, and at which offset, unless it ends with the
/// block. Errors: `Memory`.
pub fn end_line<A: Allocator>(alloc: A, end: ChainEnd) -> Result<String<A>>
    ensures text { IfOk result (λ line. string_bytes line ≡ end_text end) }
    ensures memory { IsOkUnless result Memory }
{
    let line = match end {
        ChainEnd::BlockEnd => format!(in alloc; "end block-end\n")?,
        ChainEnd::FailedRead { offset } => format!(in alloc; "end failed-read {offset}\n")?,
        ChainEnd::NoIndex { offset } => format!(in alloc; "end no-index {offset}\n")?,
    };
    Ok(line)
}
