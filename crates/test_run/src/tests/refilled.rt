//! A load whose block is reclaimed and filled again before it ends.
use crate::tests::driver::{FULL, small};
use crate::tests::runs::run_of;
use foyer_testing::rows::first_difference;
use std::test::Fail;

// The bytes of the record of key 30 are a text as well, in UTF-8. So the text of key 3 may hold them. They are in the block's new filling
// at the very offset at which the record was. The load of key 30 ends with the page that was read before, and with the page that is there
// now. Both pages begin with its record, and its block is in another filling.
const REFILLED: &str = "put 1 3072: queued 1
put 30 3072: queued 2
receive 0: received
receive 0: received
begin 0: began 1 0
block 0: write 0, data 4096 8192, zeros 12288 4096, index 0 4096
wrote 0: next
wrote 0: next
wrote 0: committed 2
end 0: ended 1 30 /
look 30: read 0 8192 3124
keep 0: a record
bring 0: entry 30 3072
wrap 3 3124: queued 3
receive 0: received
begin 0: began 2 0
block 0: write 0
block 0: no block
reclaim: done
block 0: write 0, data 4096 8192, zeros 12288 4096, index 0 4096
wrote 0: next
wrote 0: next
wrote 0: committed 1
end 0: ended 3 /
bring 0: miss
load 0: miss
keep 0: a record
look 30: miss
look 3: read 0 4096 7228
load 1: entry 3 of another text
";

// A load that ends by the bytes at its place alone fails here.
#[test]
fn an_old_record_within_a_new_one_is_a_miss(rt: HostRuntime) -> std::result::Result<(), Fail> {
    let run = run_of(rt.alloc(), small(1), FULL, REFILLED)?;
    assert_eq!(rt; first_difference(run.answers.as_str(), REFILLED), None);
    Ok(())
}
