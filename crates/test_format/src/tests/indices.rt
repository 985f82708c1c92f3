//! The index of a blob: written, copied, sealed, read and begun anew.
use foyer_device_page::error::{Error, Result};
use foyer_device_page::io::bytes::{IoB, IoSliceMut};
use foyer_format_buffer::{BlobEntryIndex, BlobIndex, BlobIndexReader};
use std::alloc::Global;
use std::test::Fail;

fn first() -> BlobEntryIndex {
    BlobEntryIndex {
        hash: 1,
        sequence: 2,
        offset: 4096,
        len: 3124,
    }
}

fn second() -> BlobEntryIndex {
    BlobEntryIndex {
        hash: 3,
        sequence: 4,
        offset: 8192,
        len: 4097,
    }
}

// An index of one page, without entries.
#[tactic(auto, unfolding(foyer_format_layout::specs::Page::page_up))]
fn empty(alloc: Global) -> Result<BlobIndex<Global>> {
    Ok(BlobIndex::new(IoSliceMut::new(alloc, 4096)?))
}

// Appends an entry, for which there is room.
fn append(index: &mut BlobIndex<Global>, entry: &BlobEntryIndex) -> Result<()> {
    if index.is_full() {
        return Err(Error::NoSpace);
    }
    index.write(entry);
    Ok(())
}

// Whether the index, once sealed, is read back as these entries.
fn lists(alloc: Global, index: &BlobIndex<Global>, wanted: &[BlobEntryIndex]) -> Result<bool> {
    let sealed = index.seal(alloc)?;
    match BlobIndexReader::read(alloc, sealed.as_slice())? {
        Some(entries) => Ok(entries.as_slice() == wanted),
        None => Ok(false),
    }
}

#[test]
fn a_copied_index_is_apart(rt: HostRuntime) -> std::result::Result<(), Fail> {
    let alloc = rt.alloc();
    let mut index = empty(alloc)?;
    assert_eq!(rt; index.capacity(), 170);
    append(&mut index, &first())?;
    let copy = index.copy(alloc)?;
    append(&mut index, &second())?;
    assert!(rt; lists(alloc, &copy, &[first()])?);
    assert!(rt; lists(alloc, &index, &[first(), second()])?);
    index.reset();
    assert!(rt; lists(alloc, &index, &[])?);
    Ok(())
}

#[test]
fn an_entry_is_read_as_it_was_written(rt: HostRuntime) -> std::result::Result<(), Fail> {
    let mut bytes = [0u8; 24];
    assert_eq!(rt; BlobEntryIndex::serialized_len(), 24);
    second().write(&mut bytes);
    assert!(rt; BlobEntryIndex::read(&bytes) == second());
    assert_eq!(rt; second().aligned(), 8192);
    Ok(())
}
