//! Random lists of records, against a splitter that follows one record after another.
ghost use Rattle.std.specs.Prelude.{◌≡◌, ◌+◌, ◌≤◌, ◌%◌, ◌^◌};

use super::{Row, SplitCtx, has_rows, split};
use foyer_device_page::error::{Error, Result};
use foyer_format_checksum::Checksummer;
use std::alloc::Global;
use std::test::Fail;

const INDEX: usize = 4096;

// The entries that an index of one page has room for.
const CAPACITY: usize = 170;

// How far the splitter has come: a blob, its present part and the bytes of that part, and how many entries the blob lists.
#[derive(Drop)]
struct Slow {
    block_size: usize,
    blob: usize,
    part: usize,
    size: usize,
    listed: usize,
}

fn padded(len: usize) -> usize {
    len.saturating_add(4095) / 4096 * 4096
}

impl Slow {
    fn end(&self) -> usize {
        self.blob
            .saturating_add(self.part)
            .saturating_add(self.size)
    }

    fn begin_blob(&mut self, at: usize) {
        self.blob = at;
        self.part = INDEX;
        self.size = 0;
        self.listed = 0;
    }

    // Gives how many blocks the records take, and the place of each record.
    fn place(
        &mut self,
        alloc: Global,
        records: &[(u64, usize)],
    ) -> Result<(usize, Vec<Row, Global>)> {
        let mut rows = Vec::new(alloc);
        let mut number = 0usize;
        for &(hash, len) in records {
            if self.listed == CAPACITY {
                self.begin_blob(self.end());
            }
            if self.end().saturating_add(padded(len)) > self.block_size {
                number = number.saturating_add(1);
                self.begin_blob(0);
            }
            let offset = self.part.saturating_add(self.size);
            rows.push(Row(
                number,
                self.blob,
                self.part,
                0,
                hash,
                offset.min(u32::MAX as usize) as u32,
                len.min(u32::MAX as usize) as u32,
            ))?;
            self.size = self.size.saturating_add(padded(len));
            self.listed = self.listed.saturating_add(1);
        }
        self.part = self.part.saturating_add(self.size);
        self.size = 0;
        Ok((number.saturating_add(1), with_sizes(alloc, &rows)?))
    }
}

// A part's data are as long as its records with their padding.
fn with_sizes(alloc: Global, rows: &Vec<Row, Global>) -> Result<Vec<Row, Global>> {
    let mut all = Vec::new(alloc);
    for row in rows {
        let mut size = 0usize;
        for other in rows {
            if other.0 == row.0 && other.1 == row.1 && other.2 == row.2 {
                size = size.saturating_add(padded(other.6 as usize));
            }
        }
        all.push(Row(row.0, row.1, row.2, size, row.4, row.5, row.6))?;
    }
    Ok(all)
}

fn drawn(seed: u64) -> u64 {
    Checksummer::checksum64(seed.to_le_bytes().as_slice())
}

// Up to three pages, most often one.
fn len_of(hash: u64) -> usize {
    let bits = (hash >> 8) as usize;
    if hash % 4 == 0 {
        return bits % 12288 + 1;
    }
    bits % 4096 + 1
}

// The hashes and lengths of up to 30 records.
fn list(alloc: Global, number: u64) -> Result<Vec<(u64, usize), Global>> {
    let mut records = Vec::new(alloc);
    for each in 0..drawn(number) % 30 + 1 {
        let hash = drawn(number.wrapping_mul(64).wrapping_add(each));
        records.push((hash, len_of(hash)))?;
    }
    Ok(records)
}

// Says whether the records of 500 lists, one after another, lie where they should.
fn agree(alloc: Global, ctx: &mut SplitCtx<Global>, slow: &mut Slow, first: u64) -> Result<bool>
    requires room { ctx.old.sizes.index + 12288 ≤ ctx.old.sizes.block }
{
    'lists: for number in first..first.saturating_add(500) {
        let records = list(alloc, number)?;
        if records.len() > 1000 {
            return Err(Error::OutOfRange);
        }
        let (blocks, rows) = slow.place(alloc, records.as_slice())?;
        let batch = split(alloc, ctx, records.as_slice())?;
        if !has_rows(&batch, blocks, rows.as_slice()) {
            return Ok(false);
        }
    }
    Ok(true)
}

// Whether they do in blocks of this size.
fn agree_in(alloc: Global, block_size: usize, first: u64) -> Result<bool>
    requires pages { block_size % 4096 ≡ 0 }
    requires room { 16384 ≤ block_size }
    requires small { block_size ≤ 2 ^ 32 }
{
    let mut ctx = SplitCtx::new(alloc, block_size, INDEX)?;
    let mut slow = Slow {
        block_size,
        blob: 0,
        part: INDEX,
        size: 0,
        listed: 0,
    };
    agree(alloc, &mut ctx, &mut slow, first)
}

#[test]
fn random_lists_are_laid_out_as_defined(rt: HostRuntime) -> std::result::Result<(), Fail> {
    let alloc = rt.alloc();
    assert!(rt; agree_in(alloc, 4 * 4096, 0)?);
    assert!(rt; agree_in(alloc, 9 * 4096, 500)?);
    assert!(rt; agree_in(alloc, 180 * 4096, 1000)?);
    assert!(rt; agree_in(alloc, 400 * 4096, 1500)?);
    Ok(())
}
