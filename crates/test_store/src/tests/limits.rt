//! Limits of reads and writes, over a clock that moves: `at` sets it, in milliseconds.
use crate::tests::rows::wrong_rows;
use std::test::Fail;

// A quota is 0 when a store is built. It falls by what is read or written, and rises by its limit in each second, to a second's at most.
// Whoever asks while the quota is below 0 has to wait. A put's batch of one small record writes a page of data, one of zeros after it, and
// one of index. An opening reads the first index of each of four blocks. `judge` is the answer that a put would get, and how many
// milliseconds it would have to wait.
const WRITES: &str =
    "so many bytes are written in a second: a record, the zeros behind it and its index are paid by three, puts before that are held back, and their keys deleted
write-bytes 4096 < judge 1, put 1 a, wait, judge 2, put 2 b, at 2999, put 1 c, get 1, at 3000, judge 2, put 2 b, wait, get 2, get 1 | admit, queued, ok, throttled 3000, deleted, at 2999, deleted, miss, at 3000, admit, queued, ok, entry b, miss
no more than a second's is saved
write-bytes 4096 < at 9000, put 1 a, wait, judge 2, at 10999, put 2 b, at 11000, put 2 c, wait, get 2 | at 9000, queued, ok, throttled 2000, at 10999, deleted, at 11000, queued, ok, entry c
a quota is 0 when a store is built, whenever that is, and a moment before another one gives and takes nothing
starts 5000, write-bytes 4096 < put 1 a, wait, at 0, judge 1, at 6000, judge 1, at 7000, judge 1, at 8000, judge 1 | queued, ok, at 0, throttled 3000, at 6000, throttled 2000, at 7000, throttled 1000, at 8000, admit
starts 0, write-bytes 4096 < at 18446744073709551615, judge 1, put 1 a, wait, judge 1, put 2 b | at 18446744073709551615, admit, queued, ok, throttled 2000, deleted
a closed store refuses, whether a put has to wait or not
write-bytes 4096 < put 1 a, wait, close, put 2 b, force 2 b, judge 2 | queued, ok, ok, fault Closed, fault Closed, throttled 3000
a forced put isn't held back, and what it writes counts
write-bytes 4096 < put 1 a, wait, force 2 b, wait, judge 3, at 5999, put 3 c, at 6000, put 3 d, wait, get 1, get 2, get 3 | queued, ok, queued, ok, throttled 6000, at 5999, deleted, at 6000, queued, ok, entry a, entry b, entry d
so many calls write in a second, each of which counts one
writes 1 < put 1 a, wait, judge 2, at 2999, put 2 b, at 3000, put 2 c, wait, get 2 | queued, ok, throttled 3000, at 2999, deleted, at 3000, queued, ok, entry c
writes 1 < fill 1 5000, wait, judge 2 | queued, ok, throttled 3000
or one for each so many bytes, rounded up
writes 4, per 1024 < put 1 a, wait, judge 2, at 2999, put 2 b, at 3000, put 2 c, wait, get 2 | queued, ok, throttled 3000, at 2999, deleted, at 3000, queued, ok, entry c
writes 4, per 1024 < fill 1 5000, wait, judge 2 | queued, ok, throttled 4000
writes 1, per 5000 < fill 1 5000, wait, judge 2 | queued, ok, throttled 4000
of two limits the one that makes wait longer counts
write-bytes 4096, writes 1000 < put 1 a, wait, judge 2 | queued, ok, throttled 3000
write-bytes 1000000, writes 1 < put 1 a, wait, judge 2 | queued, ok, throttled 3000
what a destroy cleans counts, a page of each block
write-bytes 4096 < destroy, judge 1 | ok, throttled 4000
what is appended to the log of deletes counts, a page for each delete that is waited for
write-bytes 4096, log < del 1, wait, judge 2 | ok, ok, throttled 1000
write-bytes 4096, log < put 1 a, wait, del 1, wait, at 3999, put 2 b | queued, ok, ok, ok, at 3999, deleted
write-bytes 4096, log < put 1 a, wait, del 1, wait, at 4000, put 2 b, wait, get 2 | queued, ok, ok, ok, at 4000, queued, ok, entry b
so does the delete of a put that is held back: who puts as fast as a page is paid is held back for ever
write-bytes 4096, log < put 1 a, wait, at 1000, put 2 b, wait, at 2000, put 2 b, wait, at 3000, put 2 b, wait, judge 2 | queued, ok, at 1000, deleted, ok, at 2000, deleted, ok, at 3000, deleted, ok, throttled 3000
write-bytes 4096 < put 1 a, wait, at 1000, put 2 b, wait, at 2000, put 2 b, wait, at 3000, put 2 b, wait, get 2 | queued, ok, at 1000, deleted, ok, at 2000, deleted, ok, at 3000, queued, ok, entry b
what the filter of admission rejects is rejected, and not throttled
rejects, write-bytes 4096 < judge 1, force 1 a, wait, judge 2 | reject, queued, ok, reject
a reclaim asks its filter at the moment that the clock shows: while writes have to wait a long text isn't written again
blocks 3, clean 0, again, patient, write-bytes 4096 < force 1 aaaaaaaa, force 2 b, force 3 c, wait, force 4 d, force 5 e, force 6 f, wait, force 7 g, force 8 h, force 9 i, wait, force 10 j, wait, wait, get 1, get 2, get 10, counts blocks | queued, queued, queued, ok, queued, queued, queued, ok, queued, queued, queued, ok, queued, ok, ok, miss, miss, entry j, failed 0 reclaimed 1 again 0
blocks 3, clean 0, again, patient, write-bytes 4096 < force 1 aaaaaaaa, force 2 b, force 3 c, wait, force 4 d, force 5 e, force 6 f, wait, force 7 g, force 8 h, force 9 i, wait, at 900000, force 10 j, wait, wait, get 1, get 2, get 10, counts blocks | queued, queued, queued, ok, queued, queued, queued, ok, queued, queued, queued, ok, at 900000, queued, ok, ok, entry aaaaaaaa, miss, entry j, failed 0 reclaimed 1 again 1
";

const READS: &str =
    "so many bytes are read in a second: a load of what is indexed is throttled before a record is paid, and any other misses
read-bytes 61, opens none < put 1 a, wait, get 1, get 1, get 2, at 999, get 1, at 1000, get 1, get 1, at 1999, get 1, at 2000, get 1 | queued, ok, entry a, throttled, miss, at 999, throttled, at 1000, entry a, throttled, at 1999, throttled, at 2000, entry a
no more than a second's is saved
read-bytes 61, opens none < put 1 a, wait, at 9000, get 1, get 1, get 1, at 9999, get 1, at 10000, get 1 | queued, ok, at 9000, entry a, entry a, throttled, at 9999, throttled, at 10000, entry a
a quota is 0 when a store is built, whenever that is
starts 5000, read-bytes 61, opens none < put 1 a, wait, get 1, get 1, at 5999, get 1, at 6000, get 1 | queued, ok, entry a, throttled, at 5999, throttled, at 6000, entry a
a moment before another gives nothing, and takes nothing
read-bytes 61, opens none < put 1 a, wait, get 1, at 999, get 1, at 0, get 1, at 1000, get 1 | queued, ok, entry a, at 999, throttled, at 0, throttled, at 1000, entry a
the reads of an opening count, those of the log too
read-bytes 4096 < put 1 a, wait, get 1, at 3999, get 1, at 4000, get 1 | queued, ok, throttled, at 3999, throttled, at 4000, entry a
read-bytes 4096, log < put 1 a, wait, at 4999, get 1, at 5000, get 1 | queued, ok, at 4999, throttled, at 5000, entry a
a piece that isn't written yet is answered without a read, and a question needs none
reads 1, holds flush < force 1 a, reached, get 1, has 1, held, open, wait, has 1, get 1 | queued, yes, piece a, yes, yes, open, ok, yes, throttled
so many calls read in a second, each of which counts one
reads 1 < put 1 a, wait, at 3999, get 1, at 4000, get 1 | queued, ok, at 3999, throttled, at 4000, entry a
reads 1, opens none < fill 1 5000, wait, get 1, at 999, get 1, at 1000, get 1 | queued, ok, entry of 5000, at 999, throttled, at 1000, entry of 5000
or one for each so many bytes, rounded up
reads 4, per 1024 < put 1 a, wait, at 3999, get 1, at 4000, get 1 | queued, ok, at 3999, throttled, at 4000, entry a
reads 4, per 1024, opens none < fill 1 5000, wait, get 1, at 1249, get 1, at 1250, get 1 | queued, ok, entry of 5000, at 1249, throttled, at 1250, entry of 5000
reads 1, per 5000, opens none < fill 1 5000, wait, get 1, at 1999, get 1, at 2000, get 1 | queued, ok, entry of 5000, at 1999, throttled, at 2000, entry of 5000
";

#[test]
fn a_write_limit_holds_puts_back(rt: HostRuntime) -> std::result::Result<(), Fail> {
    let wrong = wrong_rows(rt, rt.alloc(), WRITES)?;
    assert!(rt; wrong.is_empty(), "{wrong}");
    Ok(())
}

#[test]
fn a_read_limit_throttles_loads(rt: HostRuntime) -> std::result::Result<(), Fail> {
    let wrong = wrong_rows(rt, rt.alloc(), READS)?;
    assert!(rt; wrong.is_empty(), "{wrong}");
    Ok(())
}
