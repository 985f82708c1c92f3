//! Worked placings: blocks of 16 KiB with indices of one page, unless a test says otherwise.
ghost use Rattle.std.specs.Prelude.{◌≡◌, ◌+◌, ◌≤◌, length, IfOk};

use foyer_device_page::error::{Error, Result};
use foyer_device_page::io::bytes::{IoSlice, IoSliceMut, Raw};
use foyer_format_buffer::{
    Batch, BlobIndexReader, Block, Buffer, BufferEntryInfo, SplitCtx, Splitter,
};
use foyer_format_record::compress::Compression;
use std::alloc::Global;
use std::test::Fail;

mod lists;

// Records of these hashes and lengths, one behind another, are split.
#[tactic(auto, using(foyer_format_layout::proofs::PageLaws::pages))]
fn split(
    alloc: Global,
    ctx: &mut SplitCtx<Global>,
    records: &[(u64, usize)],
) -> Result<Batch<Global>>
    requires room { ctx.old.sizes.index + 12288 ≤ ctx.old.sizes.block }
    requires few { length records.now ≤ 1000 }
    ensures { ctx.new.sizes ≡ ctx.old.sizes }
{
    let mut infos = Vec::new(alloc);
    let mut room = 0usize;
    'records: for &(hash, len) in records {
        if len == 0 || 12288 < len {
            return Err(Error::OutOfRange);
        }
        let info = BufferEntryInfo {
            hash,
            sequence: hash,
            offset: room,
            len,
        };
        room += info.aligned();
        infos.push(info)?;
    }
    let bytes = IoSlice::from_raw(alloc, Raw::new(alloc, room)?)?;
    if bytes.len() < room {
        return Err(Error::OutOfRange);
    }
    Splitter::split(&alloc, ctx, bytes, infos)
}

// A record of a batch: the number of its block, its blob, its part's place in the blob, the length
// of the part's data, and the record's hash, place in the blob and length.
#[derive(PartialEq, Drop)]
struct Row(usize, usize, usize, usize, u64, u32, u32);

// Whether the batch has so many blocks and these records, each part with an index of one page.
fn has_rows(batch: &Batch<Global>, blocks: usize, rows: &[Row]) -> bool {
    let mut left = rows;
    for (number, block) in batch.blocks.iter().enumerate() {
        for part in &block.blob_parts {
            for entry in &part.indices {
                let found = Row(
                    number,
                    part.blob_block_offset,
                    part.part_blob_offset,
                    part.part_data.len(),
                    entry.hash,
                    entry.offset,
                    entry.len,
                );
                let Some((row, rest)) = left.split_first() else {
                    return false;
                };
                if *row != found || part.index.len() != 4096 {
                    return false;
                }
                left = rest;
            }
        }
    }
    left.is_empty() && batch.blocks.len() == blocks
}

// Whether these records, split so, are in so many blocks and stand so.
fn stand(
    alloc: Global,
    ctx: &mut SplitCtx<Global>,
    records: &[(u64, usize)],
    blocks: usize,
    rows: &[Row],
) -> Result<bool>
    requires room { ctx.old.sizes.index + 12288 ≤ ctx.old.sizes.block }
    requires few { length records.now ≤ 1000 }
    ensures { ctx.new.sizes ≡ ctx.old.sizes }
{
    let batch = split(alloc, ctx, records)?;
    Ok(has_rows(&batch, blocks, rows))
}

#[test]
fn records_go_on_in_a_blob_and_in_the_next_block(rt: HostRuntime) -> std::result::Result<(), Fail> {
    let alloc = rt.alloc();
    let mut ctx = SplitCtx::new(alloc, 16384, 4096)?;
    let rows = [
        Row(0, 0, 4096, 8192, 1, 4096, 3124),
        Row(0, 0, 4096, 8192, 3, 8192, 3124),
    ];
    assert!(rt; stand(alloc, &mut ctx, &[(1, 3124), (3, 3124)], 1, &rows)?);
    let rows = [
        Row(0, 0, 12288, 4096, 4, 12288, 3124),
        Row(1, 0, 4096, 8192, 5, 4096, 7220),
        Row(2, 0, 4096, 8192, 6, 4096, 7220),
    ];
    assert!(rt;
        stand(
            alloc,
            &mut ctx,
            &[(4, 3124), (5, 7220), (6, 7220)],
            3,
            &rows
        )?
    );
    // The first block has no part.
    let rows = [Row(1, 0, 4096, 8192, 7, 4096, 7220)];
    assert!(rt; stand(alloc, &mut ctx, &[(7, 7220)], 2, &rows)?);
    Ok(())
}

// What was put: two values that fit with one between them that doesn't, and six bytes.
fn filled(alloc: Global) -> Result<(IoSliceMut<Global>, Vec<BufferEntryInfo, Global>)> {
    let small = vec![in alloc; 0u8; 3072]?;
    let large = vec![in alloc; 0u8; 13312]?;
    let mut buffer = Buffer::new(alloc, IoSliceMut::new(alloc, 65536)?, 12288);
    let first = buffer.push(&0u64, &small, 1, Compression::None, 1)?;
    let second = buffer.push(&0u64, &large, 2, Compression::None, 2)?;
    let third = buffer.push(&0u64, &small, 3, Compression::None, 3)?;
    if !first || second || !third || !buffer.push_slice(b"record", 4, 4)? {
        return Err(Error::OutOfRange);
    }
    Ok(buffer.finish())
}

#[test]
fn a_buffer_takes_what_fits_and_lists_it(rt: HostRuntime) -> std::result::Result<(), Fail> {
    let (bytes, infos) = filled(rt.alloc())?;
    let mut stand = [(1, 0, 3124), (3, 4096, 3124), (4, 8192, 6)].iter();
    for info in &infos {
        assert!(rt; stand.next() == Some(&(info.hash, info.offset, info.len)));
    }
    assert!(rt; stand.next().is_none());
    assert!(rt; bytes.as_slice().get(8192..8198) == Some(b"record".as_slice()));
    Ok(())
}

// A context in a block of 172 pages, whose blob's index has one entry less than it has room for.
fn nearly_full(alloc: Global) -> Result<SplitCtx<Global>>
    ensures { IfOk result (λ c. c.sizes.index + 12288 ≤ c.sizes.block) }
{
    let records = vec![in alloc; (0u64, 1usize); 169]?;
    let mut ctx = SplitCtx::new(alloc, 704_512, 4096)?;
    let _ = split(alloc, &mut ctx, records.as_slice())?;
    Ok(ctx)
}

// Behind a full blob of 171 pages there is no room for another's index and a record.
#[test]
fn a_full_index_ends_its_blob_and_the_block(rt: HostRuntime) -> std::result::Result<(), Fail> {
    let alloc = rt.alloc();
    let mut ctx = nearly_full(alloc)?;
    let rows = [
        Row(0, 0, 696_320, 4096, 1, 696_320, 1234),
        Row(1, 0, 4096, 4096, 2, 4096, 1234),
    ];
    assert!(rt; stand(alloc, &mut ctx, &[(1, 1234), (2, 1234)], 2, &rows)?);
    Ok(())
}

// Whether each part's index lists its records alone, 170 of them; and how many parts there are.
fn count_full(alloc: Global, block: &Block<Global>) -> Result<Option<usize>> {
    for part in &block.blob_parts {
        let Some(entries) = BlobIndexReader::read(alloc, part.index.as_slice())? else {
            return Ok(None);
        };
        if entries.len() != 170 || entries.as_slice() != part.indices.as_slice() {
            return Ok(None);
        }
    }
    Ok(Some(block.blob_parts.len()))
}

// Two blobs of 170 records fill a block of this size.
#[test]
fn five_blobs_fill_two_blocks_and_half_of_one(rt: HostRuntime) -> std::result::Result<(), Fail> {
    let alloc = rt.alloc();
    let records = vec![in alloc; (1u64, 3124usize); 850]?;
    let mut ctx = SplitCtx::new(alloc, 1_400_832, 4096)?;
    let batch = split(alloc, &mut ctx, records.as_slice())?;
    let mut counts = [2usize, 2, 1].iter();
    for block in &batch.blocks {
        assert!(rt; count_full(alloc, block)?.as_ref() == counts.next());
    }
    assert!(rt; counts.next().is_none());
    Ok(())
}

// One record of 53 bytes of hash 1 and sequence 1.
#[test]
fn an_index_has_its_bytes(rt: HostRuntime) -> std::result::Result<(), Fail> {
    let alloc = rt.alloc();
    let mut ctx = SplitCtx::new(alloc, 16384, 4096)?;
    let batch = split(alloc, &mut ctx, &[(1, 53)])?;
    let wanted = [
        0, 0, 0, 1, 0, 0, 0, 0, 0, 0, 0, 1, 0, 0, 0, 0, 0, 0, 0, 1, 0, 0, 0x10, 0, 0, 0, 0, 0x35,
    ];
    for block in &batch.blocks {
        for part in &block.blob_parts {
            assert!(rt; part.index.as_slice().get(8..36) == Some(wanted.as_slice()));
        }
    }
    Ok(())
}
