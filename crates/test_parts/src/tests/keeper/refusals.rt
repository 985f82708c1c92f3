//! Allocations that are refused, one after the other.
use super::{Byte, Bytes, value_of};
use foyer_device_page::error::{Error, Result};
use foyer_policy_keeper::keeper::Keeper;
use foyer_policy_piece::keeper::Piece;
use foyer_testing::refusing::Refusing;
use std::alloc::Global;
use std::sync::Wait;
use std::test::Fail;

type Heap<'a> = &'a Refusing<Global>;

// What is kept under the hash and the key of each piece of the script.
fn all_kept(rt: &impl Wait, keeper: &Bytes<Heap<'_>>) -> Result<(u8, u8, u8)> {
    let one = value_of(rt, keeper, 7, 1)?;
    let two = value_of(rt, keeper, 7, 2)?;
    let three = value_of(rt, keeper, 8, 1)?;
    Ok((one, two, three))
}

// Inserts once more if memory was refused. Gives how often it was refused, or Config if a refused insertion changed what is kept.
fn insert<'a>(rt: &impl Wait, keeper: &Bytes<Heap<'a>>, piece: &Byte<Heap<'a>>) -> Result<u32> {
    let before = all_kept(rt, keeper)?;
    match keeper.insert(rt, piece) {
        Ok(_) => Ok(0),
        Err(Error::Memory) => {
            if all_kept(rt, keeper)? != before {
                return Err(Error::Config);
            }
            let _ = keeper.insert(rt, piece)?;
            Ok(1)
        }
        Err(error) => Err(error),
    }
}

// How many of the insertions were refused, of which the first two have one key, and the first three one hash.
fn refused(rt: &impl Wait, heap: Heap<'_>) -> Result<u32> {
    let made: Result<Bytes<Heap<'_>>> = Keeper::new(heap, 2);
    let keeper = made?;
    let first = insert(rt, &keeper, &Piece::new(heap, 1, b'a', 7, ())?)?;
    let again = insert(rt, &keeper, &Piece::new(heap, 1, b'b', 7, ())?)?;
    let two = insert(rt, &keeper, &Piece::new(heap, 2, b'c', 7, ())?)?;
    let three = insert(rt, &keeper, &Piece::new(heap, 1, b'd', 8, ())?)?;
    // A key's second piece takes no memory.
    if again != 0 || all_kept(rt, &keeper)? != (b'b', b'c', b'd') {
        return Err(Error::Config);
    }
    Ok(first.saturating_add(two).saturating_add(three))
}

#[test]
fn each_refused_allocation_leaves_all_as_it_was(rt: HostRuntime) -> std::result::Result<(), Fail> {
    let mut refusals = 0u32;
    for n in 1..100 {
        let heap = Refusing::new(rt.alloc(), n);
        let answer = refused(&rt, &heap);
        if !heap.has_refused() {
            assert!(rt; answer == Ok(0));
            // At least the table of each shard, and the list of a hash's other pieces.
            assert!(rt; refusals > 2);
            return Ok(());
        }
        // Else memory for a piece or for the shards was refused.
        if answer != Err(Error::Memory) {
            assert!(rt; answer == Ok(1), "allocation {n}");
            refusals = refusals.saturating_add(1);
        }
    }
    Err(Fail::new("the script makes more allocations"))
}
