//! A keeper that two threads share.
use super::{Bytes, value_of};
use foyer_device_page::error::Result;
use foyer_policy_keeper::keeper::Keeper;
use foyer_policy_piece::keeper::Piece;
use std::alloc::Global;
use std::sync::Wait;
use std::test::Fail;
use std::thread;

// Inserts a piece under each other hash from the first one on.
fn insert_all(rt: &impl Wait, alloc: Global, keeper: &Bytes<Global>, first: u64) -> Result<()> {
    for i in 0..1000u64 {
        let piece = Piece::new(alloc, 5, (i % 256) as u8, first.saturating_add(2 * i), ())?;
        let _ = keeper.insert(rt, &piece)?;
    }
    Ok(())
}

// Counts the pieces that are found under the hashes at which both threads inserted theirs.
fn found(rt: &impl Wait, keeper: &Bytes<Global>) -> Result<u32> {
    let mut found = 0u32;
    for hash in 0..2000u64 {
        if value_of(rt, keeper, hash, 5)? == (hash / 2 % 256) as u8 {
            found = found.saturating_add(1);
        }
    }
    Ok(found)
}

#[test]
fn what_two_threads_inserted_is_found_after_their_join(
    rt: HostRuntime,
) -> std::result::Result<(), Fail> {
    let keeper: Bytes<Global> = Keeper::new(rt.alloc(), 4)?;
    let (even, odd) = thread::join(
        &rt,
        || insert_all(&rt, rt.alloc(), &keeper, 0),
        || insert_all(&rt, rt.alloc(), &keeper, 1),
    );
    even?;
    odd?;
    assert_eq!(rt; found(&rt, &keeper)?, 2000);
    Ok(())
}
