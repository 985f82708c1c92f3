//! Which pages are taken: blocks of 16 KiB with indices of one page.
use foyer_core_flusher::filled::Filled;
use foyer_device_page::error::Result;
use foyer_device_page::io::bytes::IoSliceMut;
use foyer_format_buffer::{Batch, SplitCtx};
use foyer_testing::rows::first_difference;
use foyer_testing::said::Said;
use std::alloc::Global;
use std::test::Fail;

// Two pages, each byte of them 7.
fn used_pages(alloc: Global) -> Result<IoSliceMut<Global>> {
    let mut pages = IoSliceMut::new(alloc, 8192)?;
    pages.as_mut_slice().fill(7);
    Ok(pages)
}

// Whether a record was taken, and whether pages are spare then.
fn say_push(said: &mut Said, taken: Result<bool>, spare: &Option<IoSliceMut<Global>>) {
    match taken {
        Ok(is_taken) => said.flag(" taken ", is_taken),
        Err(_) => said.miss(),
    }
    said.flag(" spare ", spare.is_some());
}

fn say_byte(said: &mut Said, batch: &Batch<Global>, at: usize) {
    match batch.bytes.as_slice().get(at) {
        Some(byte) => said.number(" byte ", u64::from(*byte)),
        None => said.word(" no byte"),
    }
}

fn say_spare_filled(alloc: Global, said: &mut Said) -> Result<()> {
    let mut ctx = SplitCtx::new(alloc, 16384, 4096)?;
    let mut filled = Filled::new(8192, 8192);
    let mut spare = Some(used_pages(alloc)?);
    let taken = filled.push(&alloc, &mut spare, &1u64, &2u64, 3, 4);
    say_push(said, taken, &spare);
    let batch = filled.split(&alloc, &mut ctx)?;
    say_byte(said, &batch, 52);
    Ok(())
}

fn say_unfit(alloc: Global, said: &mut Said) -> Result<()> {
    let mut filled = Filled::new(8192, 4096);
    let mut spare = Some(used_pages(alloc)?);
    let large = vec![in alloc; 0u8; 4096]?;
    let taken = filled.push(&alloc, &mut spare, &1u64, &large, 3, 4);
    say_push(said, taken, &spare);
    Ok(())
}

fn say_written_on(alloc: Global, said: &mut Said) -> Result<()> {
    let mut ctx = SplitCtx::new(alloc, 16384, 4096)?;
    let mut filled = Filled::new(8192, 4096);
    let mut spare = None;
    let taken = filled.push(&alloc, &mut spare, &1u64, &2u64, 3, 4);
    say_push(said, taken, &spare);
    drop(filled.split(&alloc, &mut ctx)?);
    spare = Some(used_pages(alloc)?);
    let taken = filled.push(&alloc, &mut spare, &5u64, &6u64, 7, 8);
    say_push(said, taken, &spare);
    said.number(" left ", filled.left() as u64);
    Ok(())
}

fn say_copied(alloc: Global, said: &mut Said) -> Result<()> {
    let mut ctx = SplitCtx::new(alloc, 16384, 4096)?;
    let mut filled = Filled::new(8192, 4096);
    let mut spare = None;
    let taken = filled.push(&alloc, &mut spare, &1u64, &2u64, 3, 4);
    say_push(said, taken, &spare);
    let batch = filled.split(&alloc, &mut ctx)?;
    spare = Some(used_pages(alloc)?);
    let taken = filled.push(&alloc, &mut spare, &5u64, &6u64, 7, 8);
    say_push(said, taken, &spare);
    say_byte(said, &batch, 4127);
    said.number(" left ", filled.left() as u64);
    Ok(())
}

const ANSWERS: &str = "spare pages are filled again: taken yes spare no byte 7
what fits not takes no pages: taken no spare yes
pages are written on by their one owner: taken yes spare no taken yes spare yes left 0
pages that somebody holds are copied: taken yes spare no taken yes spare no byte 0 left 0
";

fn answers(alloc: Global) -> Result<String> {
    let mut said = Said::new(alloc);
    said.word("spare pages are filled again:");
    say_spare_filled(alloc, &mut said)?;
    said.word("\nwhat fits not takes no pages:");
    say_unfit(alloc, &mut said)?;
    said.word("\npages are written on by their one owner:");
    say_written_on(alloc, &mut said)?;
    said.word("\npages that somebody holds are copied:");
    say_copied(alloc, &mut said)?;
    said.word("\n");
    said.text()
}

#[test]
fn each_push_takes_these_pages(rt: HostRuntime) -> std::result::Result<(), Fail> {
    let answers = answers(rt.alloc())?;
    assert_eq!(rt; first_difference(answers.as_str(), ANSWERS), None);
    Ok(())
}
