//! What the scan of a block lists: indices that it is given, and what it answers.
use foyer_block_scan::block::scanner::{BlockScanner, EntryInfo};
use foyer_device_page::error::Result;
use foyer_format_blob::BlobEntryIndex;
use foyer_format_checksum::Checksummer;
use foyer_testing::rows::first_difference;
use foyer_testing::said::Said;
use std::alloc::Global;
use std::test::Fail;

fn entry(sequence: u64, offset: u32, len: u32) -> BlobEntryIndex {
    BlobEntryIndex {
        hash: sequence,
        sequence,
        offset,
        len,
    }
}

// A page with these entries and this count, under a right checksum.
fn page(entries: &[BlobEntryIndex], count: u32) -> [u8; 4096] {
    let mut bytes = [0u8; 4096];
    bytes[8..12].copy_from_slice(&count.to_be_bytes());
    for (index, entry) in entries.iter().enumerate() {
        if index < 170 {
            let at = 12 + 24 * index;
            entry.write(&mut bytes[at..at + 24]);
        }
    }
    let checksum = Checksummer::checksum64(&bytes[8..]);
    bytes[..8].copy_from_slice(&checksum.to_be_bytes());
    bytes
}

fn number(word: Option<&str>) -> u32 {
    word.unwrap_or("").parse::<u32>().unwrap_or(0)
}

// Entries of these words: a sequence, an offset and a length.
fn entries_of(alloc: Global, words: &str) -> Result<Vec<BlobEntryIndex>> {
    let mut entries = Vec::new(alloc);
    for one in words.split(',') {
        let mut words = one.split_whitespace();
        let sequence = number(words.next());
        let offset = number(words.next());
        let len = number(words.next());
        if sequence > 0 {
            entries.push(entry(u64::from(sequence), offset, len))?;
        }
    }
    Ok(entries)
}

// The entries of a full index of records of one page each.
fn full(alloc: Global) -> Result<Vec<BlobEntryIndex>> {
    let mut entries = Vec::new(alloc);
    for index in 0..170u32 {
        entries.push(entry(u64::from(index) + 1, 4096 * (index + 1), 3124))?;
    }
    Ok(entries)
}

// Makes the index of a step: `full`, or a count and its entries. It has another checksum if the step's words begin with `other`.
fn index_of(alloc: Global, step: &str) -> Result<[u8; 4096]> {
    let (count, words) = step.split_once(':').unwrap_or((step, ""));
    if count == "full" {
        return Ok(page(&full(alloc)?, 170));
    }
    let entries = entries_of(alloc, words)?;
    let mut index = page(&entries, number(count.split(' ').last()));
    if step.starts_with("other") {
        index[7] ^= 1;
    }
    Ok(index)
}

fn say_entry(said: &mut Said, entry: &EntryInfo) {
    said.number("=", entry.hash);
    said.number("@", u64::from(entry.addr.block));
    said.number(".", entry.addr.filling);
    said.number("+", u64::from(entry.addr.offset));
    said.number(":", u64::from(entry.addr.len));
}

// Notes how many entries are listed, the first, and the last if there are more.
fn say_listed(said: &mut Said, listed: &[EntryInfo]) {
    said.number("", listed.len() as u64);
    if let Some(first) = listed.first() {
        say_entry(said, first);
    }
    if listed.len() > 1 {
        if let Some(last) = listed.last() {
            say_entry(said, last);
        }
    }
}

fn say_offset(said: &mut Said, scanner: &BlockScanner) {
    match scanner.blob_offset() {
        Some(offset) => said.number(">", offset as u64),
        None => said.word(">end"),
    }
}

fn say_step(said: &mut Said, alloc: Global, scanner: &mut BlockScanner, step: &str) -> Result<()> {
    if step == "fail" {
        scanner.fail();
        said.word("failed");
        return Ok(());
    }
    let index = index_of(alloc, step)?;
    match scanner.next(&alloc, &index)? {
        Some(listed) => say_listed(said, &listed),
        None => said.word("none"),
    }
    Ok(())
}

// A block of some number and filling, and the steps of its scan.
fn say_scan(said: &mut Said, alloc: Global, words: &str, script: &str) -> Result<()> {
    let mut words = words.split(' ');
    let block = number(words.next());
    let filling = u64::from(number(words.next()));
    let mut scanner = match words.next() {
        Some("1400832") => BlockScanner::new(block, filling, 1400832, 4096),
        _ => BlockScanner::new(block, filling, 16384, 4096),
    };
    say_offset(said, &scanner);
    for step in script.split("; ") {
        said.word(" ");
        say_step(said, alloc, &mut scanner, step)?;
        say_offset(said, &scanner);
    }
    Ok(())
}

fn rows_of(alloc: Global, rows: &str) -> Result<String> {
    let mut said = Said::new(alloc);
    for row in rows.lines() {
        let (asked, _) = row.split_once(" | ").unwrap_or((row, ""));
        said.word(asked);
        if let Some((words, script)) = asked.split_once(" < ") {
            said.word(" | ");
            say_scan(&mut said, alloc, words, script)?;
        }
        said.word("\n");
    }
    said.text()
}

// Names, and below each a block, its filling and its size, the indices that its scan is given, a count and entries, and what is
// listed: how many entries, the first of them and the last, as hash@block.filling+offset:length. Behind `>` the offset that is
// read next, also before the first.
const ROWS: &str = "a count over the capacity lists nothing
0 0 16384 < 171: 1 4096 53 | >0 none>end
an empty entry lists nothing
0 0 16384 < 2: 1 4096 53, 2 8192 0 | >0 none>end
an entry past the block lists nothing
0 0 16384 < 1: 1 4096 12289 | >0 none>end
another checksum lists nothing
0 0 16384 < other 1: 1 4096 53 | >0 none>end
an entry up to the block's end is listed
3 5 16384 < 1: 1 4096 12288 | >0 1=1@3.5+4096:12288>end
a scan goes on behind the last record
0 0 16384 < 1: 1 4096 53; 1: 9 4096 53 | >0 1=1@0.0+4096:53>8192 1=9@0.0+12288:53>end
an index without entries ends the scan
0 0 16384 < 0: | >0 0>end
a failed read ends the scan
0 0 16384 < 1: 1 4096 53; fail; 1: 9 4096 53 | >0 1=1@0.0+4096:53>8192 failed>end none>end
two full blobs fill a block
0 0 1400832 < full; full | >0 170=1@0.0+4096:3124=170@0.0+696320:3124>700416 170=1@0.0+704512:3124=170@0.0+1396736:3124>end
";

#[test]
fn a_scan_lists_the_blobs_of_a_block(rt: HostRuntime) -> std::result::Result<(), Fail> {
    let answers = rows_of(rt.alloc(), ROWS)?;
    assert_eq!(rt; first_difference(answers.as_str(), ROWS), None);
    Ok(())
}
