//! Buffers of pages, shared and written.
use foyer_device_page::error::Error;
use foyer_device_page::io::bytes::{IoB, IoBuf, IoBufMut, IoSlice, IoSliceMut, PAGE, Raw};
use std::alloc::Global;
use std::test::Fail;

fn fill<B: IoBufMut>(buffer: &mut B, byte: u8) {
    for b in buffer.as_mut_slice() {
        *b = byte;
    }
}

fn sum<B: IoBuf>(buffer: B) -> u64 {
    let mut all = 0u64;
    for b in buffer.into_iob().as_slice() {
        all = all.saturating_add(u64::from(*b));
    }
    all
}

// Two pages that can be shared, the second of which begins with 7.
fn two_pages(alloc: Global) -> Result<IoSlice<Global>, Error> {
    let mut buffer = IoSliceMut::new(alloc, PAGE + 1)?;
    if let Some(b) = buffer.as_mut_slice().get_mut(PAGE) {
        *b = 7;
    }
    Ok(buffer.into_io_slice(alloc).map_err(Error::from)?)
}

// Whether the second page is the part of the buffer that it is, and not the first.
fn is_its_part(alloc: Global) -> Result<bool, Error> {
    let all = two_pages(alloc)?;
    if all.len() != 2 * PAGE {
        return Ok(false);
    }
    let first = all.slice(0..PAGE)?;
    let second = all.slice(PAGE..2 * PAGE)?;
    let again = all.slice(PAGE..2 * PAGE)?;
    let begins = second.as_slice().first() == Some(&7);
    Ok(begins && second.len() == PAGE && second == again && second != first)
}

#[test]
fn a_slice_is_its_part_of_the_buffer(rt: HostRuntime) -> Result<(), Fail> {
    assert!(rt; is_its_part(rt.alloc())?);
    Ok(())
}

// The sum of a buffer's bytes that were all written as 1 once its second page's owner had gone.
fn written_at_last(alloc: Global) -> Result<Option<u64>, Error> {
    let all = two_pages(alloc)?;
    if all.len() != 2 * PAGE {
        return Ok(None);
    }
    let second = all.slice(PAGE..2 * PAGE)?;
    if second.try_into_io_slice_mut().is_some() {
        return Ok(None);
    }
    match all.try_into_io_slice_mut() {
        Some(mut buffer) => {
            fill(&mut buffer, 1);
            Ok(Some(sum(buffer)))
        }
        None => Ok(None),
    }
}

#[test]
fn a_buffer_is_written_by_its_only_owner(rt: HostRuntime) -> Result<(), Fail> {
    assert!(rt; written_at_last(rt.alloc())? == Some(8192));
    Ok(())
}

// The sums of a buffer that was filled with 2, and of its clone.
fn sums_apart(alloc: Global) -> Result<Option<(u64, u64)>, Error> {
    let mut raw = Raw::new(alloc, PAGE)?;
    let copy = raw.clone()?;
    let was_equal = raw == copy;
    fill(&mut raw, 2);
    if !was_equal || raw == copy {
        return Ok(None);
    }
    Ok(Some((sum(raw), sum(copy))))
}

#[test]
fn a_clone_is_apart(rt: HostRuntime) -> Result<(), Fail> {
    assert!(rt; sums_apart(rt.alloc())? == Some((8192, 0)));
    Ok(())
}
