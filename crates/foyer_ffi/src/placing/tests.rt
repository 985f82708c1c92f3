//! What the buffers take if memory is ample.
use super::{BLOCK, SHORT, place};
use std::test::Fail;

#[test]
fn each_record_takes_its_pages(rt: HostRuntime) -> Result<(), Fail> {
    let alloc = rt.alloc();
    assert_eq!(rt; place(alloc, b"", 0), 0);
    assert_eq!(rt; place(alloc, b"value", 3), 3 * 4096);
    let page = vec![in alloc; 7u8; 4096 - 52]?;
    assert_eq!(rt; place(alloc, page.as_slice(), 3), 3 * 4096);
    let longer = vec![in alloc; 7u8; 4096 - 51]?;
    assert_eq!(rt; place(alloc, longer.as_slice(), 3), 3 * 8192);
    Ok(())
}

#[test]
fn a_full_buffer_is_split_and_a_new_one_begun(rt: HostRuntime) -> Result<(), Fail> {
    let alloc = rt.alloc();
    let value = vec![in alloc; 7u8; 1_000_000]?;
    assert_eq!(rt; place(alloc, value.as_slice(), 40), 40 * 1_003_520);
    Ok(())
}

#[test]
fn short_values_take_many_buffers(rt: HostRuntime) -> Result<(), Fail> {
    let alloc = rt.alloc();
    assert_eq!(rt; place(alloc, b"value", 1000), 1000 * 4096);
    let short = vec![in alloc; 7u8; SHORT]?;
    assert_eq!(rt; place(alloc, short.as_slice(), 20), 20 * 106_496);
    let longer = vec![in alloc; 7u8; SHORT + 1]?;
    assert_eq!(rt; place(alloc, longer.as_slice(), 20), 20 * 106_496);
    Ok(())
}

#[test]
fn the_longest_value_fills_a_block(rt: HostRuntime) -> Result<(), Fail> {
    let alloc = rt.alloc();
    let longest = vec![in alloc; 7u8; BLOCK - 4096 - 52]?;
    assert_eq!(rt; place(alloc, longest.as_slice(), 2), 2 * 16_773_120);
    let too_long = vec![in alloc; 7u8; BLOCK - 4096 - 51]?;
    assert_eq!(rt; place(alloc, too_long.as_slice(), 2), 0);
    Ok(())
}
