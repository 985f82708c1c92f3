//! What a store counts, so far as it hangs on no schedule: how many batches are begun for puts does.
use crate::tests::rows::wrong_rows;
use std::test::Fail;

const ROWS: &str = "puts are counted by what becomes of them, and deletes that are accepted
rejects < force 1 a, put 2 b, del 1, del 3, counts puts | queued, deleted, ok, ok, queued 1 ignored 0 dropped 0 rejected 1 returned 0 deletes 2
put 1 a, close, put 2 b, del 1, counts puts | queued, ok, fault Closed, fault Closed, queued 1 ignored 0 dropped 0 rejected 0 returned 0 deletes 0
write-bytes 4096 < put 1 a, wait, put 2 b, counts puts | queued, ok, deleted, queued 1 ignored 0 dropped 0 rejected 1 returned 0 deletes 0
holds flush, queue 0 < force 1 a, reached, force 2 b, force 1 c, counts puts, held, open | queued, yes, queued, deleted, queued 2 ignored 0 dropped 1 rejected 0 returned 0 deletes 0, yes, open
fill 1 13000, wait, counts puts | queued, ok, queued 1 ignored 0 dropped 0 rejected 0 returned 1 deletes 0
nothing < force 1 a, put 1 b, get 1, del 1, counts puts, counts loads, counts batches, counts blocks, counts written, counts read | ignored, deleted, miss, ok, queued 0 ignored 1 dropped 0 rejected 1 returned 0 deletes 1, kept 0 read 0 missed 1 throttled 0, batches 0, failed 0 reclaimed 0 again 0, wrote 0 in 0, read 0 in 0, noop
loads are counted by where the value was, another key's entry is a miss, and a failed read is nothing of these
holds flush < force 1 a, reached, get 1, get 2, counts loads, held, open, wait, get 1, get 1+, counts loads | queued, yes, piece a, miss, kept 1 read 0 missed 1 throttled 0, yes, open, ok, entry a, miss, kept 1 read 1 missed 2 throttled 0
reads 1 < put 1 a, wait, get 1, counts loads | queued, ok, throttled, kept 0 read 0 missed 0 throttled 1
fails 4, opens none < put 1 a, wait, get 1, get 1, get 1, get 1, get 1, counts loads | queued, ok, entry a, entry a, entry a, fault Io, entry a, kept 0 read 4 missed 0 throttled 0
a wait alone is a batch of each flusher, and a put that is held is one
wait, wait, wait, counts batches | ok, ok, ok, batches 3
flushers 3 < wait, counts batches | ok, batches 3
holds flush < put 1 a, reached, counts batches, held, open | queued, yes, batches 1, yes, open
a block of which a write failed is counted, and so is a call that failed: of a record, of the zeros behind it, and of its index
fails 1, opens none < put 1 a, wait, get 1, counts blocks, counts written | queued, ok, miss, failed 1 reclaimed 0 again 0, wrote 4096 in 1
fails 2, opens none < put 1 a, wait, get 1, counts blocks, counts written | queued, ok, miss, failed 1 reclaimed 0 again 0, wrote 8192 in 2
fails 3, opens none < put 1 a, wait, get 1, counts blocks, counts written | queued, ok, miss, failed 1 reclaimed 0 again 0, wrote 12288 in 3
a reclaim reads an index, and cleans a page; no zeros are written behind the record that ends the block
blocks 1, clean 0 < put 1 a, wait, put 2 b, wait, put 3 c, wait, counts blocks, counts written, counts read, put 4 d, wait, counts blocks, counts written, counts read | queued, ok, queued, ok, queued, ok, failed 0 reclaimed 0 again 0, wrote 32768 in 8, read 4096 in 1, queued, ok, failed 0 reclaimed 1 again 0, wrote 49152 in 12, read 8192 in 2
and a record that is written again, which is counted then
blocks 3, clean 0, again < put 1 aaaaaaaa, put 2 b, put 3 c, wait, put 4 d, put 5 e, put 6 f, wait, put 7 g, put 8 h, put 9 i, wait, counts read, put 10 j, wait, wait, counts blocks, counts read | queued, queued, queued, ok, queued, queued, queued, ok, queued, queued, queued, ok, read 12288 in 3, queued, ok, ok, failed 0 reclaimed 1 again 1, read 16452 in 5
bytes and calls are those of an opening, of puts, loads and destroys
counts written, put 1 a, wait, counts written, counts read, get 1, get 2, counts read, destroy, counts written, counts read | wrote 0 in 0, queued, ok, wrote 12288 in 3, read 16384 in 4, entry a, miss, read 16445 in 5, ok, wrote 28672 in 7, read 16445 in 5
opens none < counts read | read 0 in 0
and of a log, which writes a page where there are marks, as a destroy has one
log < counts written, counts read, del 1, wait, counts written, del 2, wait, wait, counts written, put 1 a, wait, counts written, counts read | wrote 0 in 0, read 20480 in 5, ok, ok, wrote 4096 in 1, ok, ok, ok, wrote 8192 in 2, queued, ok, wrote 20480 in 5, read 20480 in 5
rejects, log < put 1 a, wait, counts written | deleted, ok, wrote 4096 in 1
log, blocks 2 < put 1 a, wait, destroy, counts written, counts read / counts read | queued, ok, ok, wrote 24576 in 6, read 12288 in 3 / read 12288 in 3
an append to a log that failed is counted, and then the delete is forgotten
log < del 1, wait, counts log | ok, ok, failed appends 0
log, fails 2 < del 1, wait, counts log, del 2, wait, counts log / fails 0 < counts log | ok, ok, failed appends 1, ok, ok, failed appends 1 / failed appends 0
log < put 1 a, wait / fails 2 < get 1, del 1, wait, counts log, get 1 / fails 0 < get 1 | queued, ok / entry a, ok, ok, failed appends 1, miss / entry a
log < put 1 a, wait / get 1, del 1, wait, counts log, get 1 / get 1 | queued, ok / entry a, ok, ok, failed appends 0, miss / miss
puts that are abandoned are counted before the wait ends: those of a batch of which a write failed, and those without room
abandoned, put 1 a, wait, abandoned | abandoned 0 0 0, queued, ok, abandoned 0 0 0
fails 1, opens none < put 1 a, wait, abandoned, put 1 b, wait, abandoned, get 1, get 1 | queued, ok, abandoned 1 0 0, queued, ok, abandoned 1 0 0, fault Io, entry b
stops 2, opens none < put 1 a, wait, put 2 b, wait, put 3 c, wait, abandoned, get 3 | queued, ok, queued, ok, queued, ok, abandoned 3 0 0, miss
fill 1 13000, wait, abandoned | queued, ok, abandoned 0 0 1
cores 2, stops 1, opens none < put 1 a, put 2 b, wait, abandoned | queued, queued, ok, abandoned 2 0 0
and all cores' are counted together
cores 2, log, fails 2 < del 1, wait, counts log, del 2, wait, counts log | ok, ok, failed appends 1, ok, ok, failed appends 2
calls are counted as limits count them
per 1024, opens none < fill 1 5000, wait, counts written, get 1, counts read | queued, ok, wrote 16384 in 16, entry of 5000, read 5060 in 5
";

#[test]
fn a_store_counts_blocks_bytes_and_calls(rt: HostRuntime) -> std::result::Result<(), Fail> {
    let wrong = wrong_rows(rt, rt.alloc(), ROWS)?;
    assert!(rt; wrong.is_empty(), "{wrong}");
    Ok(())
}
