//! Any bytes as the pages of a log.
use super::disks::{Disk, mark_in, opened};
use foyer_device_page::error::Error;
use foyer_device_page::io::bytes::Raw;
use std::alloc::Global;
use std::rt::Files;
use std::sync::Wait;
use std::test::Fail;

// A generator of numbers.
fn next(state: &mut u64) -> u64 {
    *state = state
        .wrapping_mul(6364136223846793005)
        .wrapping_add(1442695040888963407);
    *state / 8589934592
}

// A page some of whose slots have a mark, with sequences below 4 or of two bytes, so that some are equal.
fn image(alloc: Global, state: &mut u64) -> Result<Raw<Global>, Error> {
    let mut page = Raw::new(alloc, 4096)?;
    let every = next(state) % 5 + 1;
    let small = next(state) % 2 == 0;
    for slot in page.as_mut_slice().chunks_exact_mut(16) {
        if next(state) % every == 0 {
            slot.fill(0);
            if let Some(byte) = slot.last_mut() {
                *byte = (next(state) % if small { 4 } else { 256 }) as u8;
            }
            if let Some(byte) = slot.first_mut() {
                *byte = (next(state) % 256) as u8;
            }
        }
    }
    Ok(page)
}

// The slot behind the last of the greatest marks, and how many there are, read slowly.
fn slowly<R: Wait + Clone + Drop>(rt: &R, disk: &Disk) -> Result<(u64, usize), Error> {
    let mut greatest = 0u64;
    let mut slot = 1u64;
    let mut count = 0usize;
    let mut at = 0u64;
    for page in 0..3usize {
        let bytes = disk.page(rt, page)?;
        for j in 0..256usize {
            let sequence = mark_in(bytes.as_slice(), j).sequence;
            at = at.saturating_add(1);
            if sequence > 0 {
                count = count.saturating_add(1);
            }
            if sequence > 0 && sequence >= greatest {
                greatest = sequence;
                slot = at;
            }
        }
    }
    Ok((slot, count))
}

// Whether a log opens over the next three pages as they are read slowly.
fn is_read_rightly<R: Wait + Clone + Drop + Files>(
    rt: &R,
    alloc: Global,
    state: &mut u64,
) -> Result<bool, Error> {
    let disk = Disk::new(rt, alloc, &[4096, 8192])?;
    for page in 0..3usize {
        disk.put_page(rt, page, image(alloc, state)?)?;
    }
    Ok(opened(rt, &disk)? == slowly(rt, &disk)?)
}

#[test]
fn any_bytes_are_a_log(rt: HostRuntime) -> Result<(), Fail> {
    let mut state = 1u64;
    for n in 0..20 {
        assert!(rt; is_read_rightly(&rt, rt.alloc(), &mut state)?, "image {n}");
    }
    Ok(())
}
