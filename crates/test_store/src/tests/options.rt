//! Options of a store, each with what it changes.
use crate::tests::rows::wrong_rows;
use std::test::Fail;

// A record of a short text takes a page, so that a block of four has room for an index of one page and three records. `reclaims` waits
// until so many began.
const SIZES: &str =
    "the pages of an index are taken from its block, each batch writes them, and an opening reads them of each block
put 1 a, wait, counts written, get 1, counts read | queued, ok, wrote 12288 in 3, entry a, read 16445 in 5
index 8192 < put 1 a, wait, counts written, get 1, counts read | queued, ok, wrote 16384 in 3, entry a, read 32829 in 5
blocks 2, clean 0 < put 1 a, put 2 b, put 3 c, put 4 d, put 5 e, wait, get 1, get 2, get 3, get 4, get 5 | queued, queued, queued, queued, queued, ok, entry a, entry b, entry c, entry d, entry e
index 8192, blocks 2, clean 0 < put 1 a, put 2 b, put 3 c, put 4 d, put 5 e, wait, get 1, get 2, get 3, get 4, get 5 | queued, queued, queued, queued, queued, ok, miss, miss, entry c, entry d, entry e
index 16384 < enabled | refused Config
index 0 < enabled | refused Config
an opening finds nothing by indices of another size
index 8192 < put 1 a, wait / get 1 / index 4096 < get 1 / index 8192 < get 1 | queued, ok / entry a / miss / entry a
the index is divided into any number of shards, but not into none
index-shards 1 < put 1 a, put 2 b, wait, get 1, get 2, del 1, get 1, has 1, has 2 | queued, queued, ok, entry a, entry b, ok, miss, no, yes
index-shards 7 < put 1 a, put 2 b, wait, get 1, get 2, del 1, get 1, has 1, has 2 | queued, queued, ok, entry a, entry b, ok, miss, no, yes
index-shards 0 < enabled | refused Config
any number of workers read the blocks of an opening, each block once
put 1 a, put 2 b, wait / recoverers 1 < get 1, get 2, counts read / recoverers 1000000 < get 1, get 2, counts read | queued, queued, ok / entry a, entry b, read 20602 in 7 / entry a, entry b, read 20602 in 7
recoverers 0 < enabled | refused Config
one worker that is held at the first of two blocks is let go on by nobody, where two read them another one does
blocks 2, recoverers 1, holds recover < held, put 1 a, wait, get 1 | no, queued, ok, entry a
blocks 2, recoverers 2, holds recover < held, put 1 a, wait, get 1 | yes, queued, ok, entry a
two reclaimers reclaim two blocks at a time, and three three
reclaimers 2, clean 2, holds reclaim < put 1 a, put 2 b, put 3 c, put 4 d, put 5 e, put 6 f, put 7 g, reclaims 2, held, open, wait, get 1, get 6, get 7 | queued, queued, queued, queued, queued, queued, queued, yes, yes, open, ok, miss, miss, entry g
reclaimers 3, blocks 5, clean 2, holds reclaim < put 1 a, put 2 b, put 3 c, put 4 d, put 5 e, put 6 f, put 7 g, put 8 h, put 9 i, put 10 j, reclaims 3, held, open, wait, get 1, get 4, get 9, get 10 | queued, queued, queued, queued, queued, queued, queued, queued, queued, queued, yes, yes, open, ok, miss, miss, miss, entry j
reclaimers 2, flushers 2, naps < put 1 x, wait, put 2 x, wait, put 3 x, wait, put 4 x, wait, put 5 x, wait, put 6 x, wait, put 7 x, wait, put 8 x, wait, put 9 x, put 10 x, put 11 x, put 12 x, put 13 x, put 14 x, wait, get 13, get 14 | queued, ok, queued, ok, queued, ok, queued, ok, queued, ok, queued, ok, queued, ok, queued, ok, queued, queued, queued, queued, queued, queued, ok, entry x, entry x
reclaimers 0 < enabled | refused Config
what a flusher's share of the buffers has no room for is queued, and then gone; so is what no block has room for
buffer 4096 < fill 1 5000, wait, get 1, has 1, put 2 b, wait, get 2, counts puts | queued, ok, miss, no, queued, ok, entry b, queued 2 ignored 0 dropped 0 rejected 0 returned 1 deletes 0
buffer 8192 < fill 1 5000, wait, get 1, counts puts | queued, ok, entry of 5000, queued 1 ignored 0 dropped 0 rejected 0 returned 0 deletes 0
buffer 8192, flushers 2 < fill 1 5000, wait, get 1, counts puts | queued, ok, miss, queued 1 ignored 0 dropped 0 rejected 0 returned 1 deletes 0
fill 1 13000, wait, get 1, counts puts | queued, ok, miss, queued 1 ignored 0 dropped 0 rejected 0 returned 1 deletes 0
a flusher with little room writes before it is used up, so that nothing is lost of what takes half of it at most
buffer 4096 < put 1 a, put 2 b, put 3 c, put 4 d, wait, get 1, get 2, get 3, get 4, counts puts | queued, queued, queued, queued, ok, entry a, entry b, entry c, entry d, queued 4 ignored 0 dropped 0 rejected 0 returned 0 deletes 0
buffer 8192, holds flush < put 1 a, reached, put 2 b, fill 3 5000, held, open, wait, get 1, get 2, get 3, counts puts | queued, yes, queued, queued, yes, open, ok, entry a, entry b, miss, queued 3 ignored 0 dropped 0 rejected 0 returned 1 deletes 0
each flusher's share is a page at least
buffer 4095 < enabled | refused Config
buffer 8191, flushers 2 < enabled | refused Config
a put that finds too much queued is taken once a flusher has taken what is there, if it looks often enough
queue 0, patience 4000000000 < put 1 a, put 2 b, put 3 c, put 4 d, put 5 e, put 6 f, wait, get 1, get 6, counts puts | queued, queued, queued, queued, queued, queued, ok, entry a, entry f, queued 6 ignored 0 dropped 0 rejected 0 returned 0 deletes 0
reclaims begin of their own where fewer blocks are clean than are asked for, which are fewer than there are
clean 3 < put 1 a, put 2 b, put 3 c, put 4 d, reclaims 1, wait, get 1, get 3, get 4, counts blocks | queued, queued, queued, queued, yes, ok, miss, miss, entry d, failed 0 reclaimed 1 again 0
clean 2 < put 1 a, put 2 b, put 3 c, put 4 d, wait, get 1, get 3, get 4, counts blocks | queued, queued, queued, queued, ok, entry a, entry c, entry d, failed 0 reclaimed 0 again 0
clean 4 < enabled | refused Config
clean 1000 < enabled | refused Config
clean 2, blocks 2 < enabled | refused Config
device combined, blocks 3, clean 2 < enabled | refused Config
device combined, blocks 3, clean 1 < enabled | yes
put 1 a, wait / clean 4 < enabled / clean 1 < get 1 / flushers 5 < enabled / flushers 1 < get 1 / index 16384 < enabled / index 4096 < get 1 | queued, ok / refused Config / entry a / refused Config / entry a / refused Config / entry a
clean 1, blocks 1 < enabled | yes
";

const REST: &str = "where no picker picks a block the generator draws one, by what it begins with
picks none, seed 0, blocks 3, clean 0 < put 1 x, put 2 x, put 3 x, put 4 x, put 5 x, put 6 x, put 7 x, put 8 x, put 9 x, wait, put 10 x, wait, get 1, get 4, get 7, get 10 | queued, queued, queued, queued, queued, queued, queued, queued, queued, ok, queued, ok, entry x, entry x, miss, entry x
picks none, seed 3, blocks 3, clean 0 < put 1 x, put 2 x, put 3 x, put 4 x, put 5 x, put 6 x, put 7 x, put 8 x, put 9 x, wait, put 10 x, wait, get 1, get 4, get 7, get 10 | queued, queued, queued, queued, queued, queued, queued, queued, queued, ok, queued, ok, entry x, miss, entry x, entry x
picks ratio, seed 3, blocks 3, clean 0 < put 1 x, put 2 x, put 3 x, put 4 x, put 5 x, put 6 x, put 7 x, put 8 x, put 9 x, wait, put 10 x, wait, get 1, get 4, get 7, get 10 | queued, queued, queued, queued, queued, queued, queued, queued, queued, ok, queued, ok, entry x, miss, entry x, entry x
picks none, seed 4, blocks 3, clean 0 < put 1 x, put 2 x, put 3 x, put 4 x, put 5 x, put 6 x, put 7 x, put 8 x, put 9 x, wait, put 10 x, wait, get 1, get 4, get 7, get 10 | queued, queued, queued, queued, queued, queued, queued, queued, queued, ok, queued, ok, miss, entry x, entry x, entry x
by age the oldest goes, whatever the generator would draw
picks fifo, seed 3, blocks 3, clean 0 < put 1 x, put 2 x, put 3 x, put 4 x, put 5 x, put 6 x, put 7 x, put 8 x, put 9 x, wait, put 10 x, wait, get 1, get 4, get 7, get 10 | queued, queued, queued, queued, queued, queued, queued, queued, queued, ok, queued, ok, miss, entry x, entry x, entry x
a block of which five of six pages are invalid goes before it by ratio, and not by age
blocks 3, pages 6, clean 0 < put 1 x, put 2 x, put 3 x, put 4 x, put 5 x, put 6 x, put 7 x, put 8 x, put 9 x, put 10 x, wait, del 6, del 7, del 8, del 9, del 10, wait, put 11 x, put 12 x, put 13 x, put 14 x, put 15 x, put 16 x, wait, get 1, get 11, get 16 | queued, queued, queued, queued, queued, queued, queued, queued, queued, queued, ok, ok, ok, ok, ok, ok, ok, queued, queued, queued, queued, queued, queued, ok, entry x, entry x, entry x
picks ratio, blocks 3, pages 6, clean 0 < put 1 x, put 2 x, put 3 x, put 4 x, put 5 x, put 6 x, put 7 x, put 8 x, put 9 x, put 10 x, wait, del 6, del 7, del 8, del 9, del 10, wait, put 11 x, put 12 x, put 13 x, put 14 x, put 15 x, put 16 x, wait, get 1, get 11, get 16 | queued, queued, queued, queued, queued, queued, queued, queued, queued, queued, ok, ok, ok, ok, ok, ok, ok, queued, queued, queued, queued, queued, queued, ok, entry x, entry x, entry x
picks fifo, blocks 3, pages 6, clean 0 < put 1 x, put 2 x, put 3 x, put 4 x, put 5 x, put 6 x, put 7 x, put 8 x, put 9 x, put 10 x, wait, del 6, del 7, del 8, del 9, del 10, wait, put 11 x, put 12 x, put 13 x, put 14 x, put 15 x, put 16 x, wait, get 1, get 11, get 16 | queued, queued, queued, queued, queued, queued, queued, queued, queued, queued, ok, ok, ok, ok, ok, ok, ok, queued, queued, queued, queued, queued, queued, ok, miss, entry x, entry x
a picker of a caller's, here of block 1, and a condition of a caller's, of odd hashes, both in boxes and by their own types
picks boxed, blocks 3, clean 0 < put 1 x, put 3 x, put 5 x, put 7 x, put 9 x, put 11 x, put 13 x, put 15 x, put 17 x, put 2 x, wait, put 19 x, wait, get 1, get 7, get 13, get 19, get 2, counts puts | queued, queued, queued, queued, queued, queued, queued, queued, queued, deleted, ok, queued, ok, entry x, miss, entry x, entry x, miss, queued 10 ignored 0 dropped 0 rejected 1 returned 0 deletes 0
picks own, blocks 3, clean 0 < put 1 x, put 3 x, put 5 x, put 7 x, put 9 x, put 11 x, put 13 x, put 15 x, put 17 x, put 2 x, wait, put 19 x, wait, get 1, get 7, get 13, get 19, get 2, counts puts | queued, queued, queued, queued, queued, queued, queued, queued, queued, deleted, ok, queued, ok, entry x, miss, entry x, entry x, miss, queued 10 ignored 0 dropped 0 rejected 1 returned 0 deletes 0
no record is compressed
packs zstd < enabled | refused Unsupported
packs lz4 < enabled | refused Unsupported
packs none < enabled | yes
packs zstd, shards 0 < enabled | refused Config
packs zstd, nothing < enabled | refused Unsupported
a store has its name, and its keys their hasher's hashes
name, hash 5, hash 5+ | blocks, hash 5, hash 5
nothing < name, device | nothing, has 0 gave 0 in 0, noop
";

const DEVICES: &str = "a device in memory gives its blocks, and before them a log
device | has 65536 gave 65536 in 4
log < device | has 69632 gave 69632 in 5
a part of a device has what it is said to have, and the limits of the whole
device partial < device, put 1 a, put 2 b, wait, get 1, get 2 / get 1, get 2, del 1, put 3 c, wait, get 1, get 3 | has 65536 gave 65536 in 4, queued, queued, ok, entry a, entry b / entry a, entry b, ok, queued, ok, miss, entry c
device partial, write-bytes 4096 < put 1 a, wait, judge 2 | queued, ok, throttled 3000
two devices as one have two blocks each; a block lies in one of them
device combined, clean 0 < device, put 1 a, put 2 b, put 3 c, put 4 d, put 5 e, put 6 f, put 7 g, put 8 h, put 9 i, put 10 j, wait, get 1, get 4, get 7, get 10 / get 1, get 4, get 7, get 10 | has 65536 gave 65536 in 4, queued, queued, queued, queued, queued, queued, queued, queued, queued, queued, ok, entry a, entry d, entry g, entry j / entry a, entry d, entry g, entry j
device combined, blocks 3 < device | has 49152 gave 32768 in 2
device combined, log, clean 0 < device, put 1 a, wait, del 1, wait, counts written / get 1, counts read | has 65536 gave 53248 in 4, queued, ok, ok, ok, wrote 16384 in 4 / miss, read 20480 in 5
device combined, write-bytes 4096 < put 1 a, wait, judge 2 | queued, ok, throttled 3000
";

// Bits of a key's hash choose its core. Of two cores the second has keys 1 and 3. Of four cores the second has key 1, and the fourth key 3.
const CORES: &str =
    "a store that is opened over one core, two or four answers as one that is built, and its counts are sums
cores 1 < put 1 a, put 2 b, put 3 c, put 4 d, wait, get 1, get 2, get 3, get 4, get 5, has 4, has 5, del 1, del 2, get 1, get 2, get 3, tally, counts puts, device | queued, queued, queued, queued, ok, entry a, entry b, entry c, entry d, miss, yes, no, ok, ok, miss, miss, entry c, tally 4 0 2 5 3 5 0, queued 4 ignored 0 dropped 0 rejected 0 returned 0 deletes 2, has 65536 gave 65536 in 4
cores 2 < put 1 a, put 2 b, put 3 c, put 4 d, wait, get 1, get 2, get 3, get 4, get 5, has 4, has 5, del 1, del 2, get 1, get 2, get 3, tally, counts puts, device | queued, queued, queued, queued, ok, entry a, entry b, entry c, entry d, miss, yes, no, ok, ok, miss, miss, entry c, tally 4 0 2 5 3 5 0, queued 4 ignored 0 dropped 0 rejected 0 returned 0 deletes 2, has 131072 gave 131072 in 8
cores 4 < put 1 a, put 2 b, put 3 c, put 4 d, wait, get 1, get 2, get 3, get 4, get 5, has 4, has 5, del 1, del 2, get 1, get 2, get 3, tally, counts puts, device | queued, queued, queued, queued, ok, entry a, entry b, entry c, entry d, miss, yes, no, ok, ok, miss, miss, entry c, tally 4 0 2 5 3 5 0, queued 4 ignored 0 dropped 0 rejected 0 returned 0 deletes 2, has 262144 gave 262144 in 16
cores 1 < name, hash 5, judge 1, force 1 a, fill 3 5000, wait, get 1, get 3, get 1+, has 1+, put 1 b, put 3 c, wait, get 1, get 3, counts puts, counts blocks, close, judge 1, enabled | cores, hash 5, admit, queued, queued, ok, entry a, entry of 5000, miss, yes, queued, queued, ok, entry b, entry c, queued 4 ignored 0 dropped 0 rejected 0 returned 0 deletes 0, failed 0 reclaimed 0 again 0, ok, admit, yes
cores 2 < name, hash 5, judge 1, force 1 a, fill 3 5000, wait, get 1, get 3, get 1+, has 1+, put 1 b, put 3 c, wait, get 1, get 3, counts puts, counts blocks, close, judge 1, enabled | cores, hash 5, admit, queued, queued, ok, entry a, entry of 5000, miss, yes, queued, queued, ok, entry b, entry c, queued 4 ignored 0 dropped 0 rejected 0 returned 0 deletes 0, failed 0 reclaimed 0 again 0, ok, admit, yes
cores 4 < name, hash 5, judge 1, force 1 a, fill 3 5000, wait, get 1, get 3, get 1+, has 1+, put 1 b, put 3 c, wait, get 1, get 3, counts puts, counts blocks, close, judge 1, enabled | cores, hash 5, admit, queued, queued, ok, entry a, entry of 5000, miss, yes, queued, queued, ok, entry b, entry c, queued 4 ignored 0 dropped 0 rejected 0 returned 0 deletes 0, failed 0 reclaimed 0 again 0, ok, admit, yes
cores 1, rejects < judge 1, put 1 a, put 2 b, force 1 c, wait, get 1, get 2 | reject, deleted, deleted, queued, ok, entry c, miss
cores 2, rejects < judge 1, put 1 a, put 2 b, force 1 c, wait, get 1, get 2 | reject, deleted, deleted, queued, ok, entry c, miss
cores 4, rejects < judge 1, put 1 a, put 2 b, force 1 c, wait, get 1, get 2 | reject, deleted, deleted, queued, ok, entry c, miss
a destroy, a close and a wait go to all cores
cores 1 < put 1 a, put 2 b, wait, destroy, get 1, get 2, put 1 c, put 2 d, wait, get 1, get 2, close, put 3 e, del 1, get 2, wait, destroy | queued, queued, ok, ok, miss, miss, queued, queued, ok, entry c, entry d, ok, fault Closed, fault Closed, entry d, ok, fault Closed
cores 2 < put 1 a, put 2 b, wait, destroy, get 1, get 2, put 1 c, put 2 d, wait, get 1, get 2, close, put 3 e, del 1, get 2, wait, destroy | queued, queued, ok, ok, miss, miss, queued, queued, ok, entry c, entry d, ok, fault Closed, fault Closed, entry d, ok, fault Closed
cores 4 < put 1 a, put 2 b, wait, destroy, get 1, get 2, put 1 c, put 2 d, wait, get 1, get 2, close, put 3 e, del 1, get 2, wait, destroy | queued, queued, ok, ok, miss, miss, queued, queued, ok, entry c, entry d, ok, fault Closed, fault Closed, entry d, ok, fault Closed
cores 4 < put 1 a, put 2 b, put 3 c, wait, destroy, get 1, get 2, get 3, close, put 1 e, put 2 f, put 3 g | queued, queued, queued, ok, ok, miss, miss, miss, ok, fault Closed, fault Closed, fault Closed
threads ask with sessions of their own
cores 1 < put 1 a, wait, get 1 & put 2 b, wait, get 2 | queued, ok, entry a & queued, ok, entry b
cores 2 < put 1 a, wait, get 1 & put 2 b, wait, get 2 | queued, ok, entry a & queued, ok, entry b
cores 4 < put 1 a, wait, get 1 & put 2 b, wait, get 2 | queued, ok, entry a & queued, ok, entry b
each core has blocks of its own: a key's are used up by the keys of its core alone
cores 2, blocks 2 < put 2 x, wait, put 1 a, wait, put 3 b, wait, put 6 c, wait, put 8 d, wait, put 9 e, wait, put 11 f, wait, put 14 g, wait, get 2, get 1, get 14 | queued, ok, queued, ok, queued, ok, queued, ok, queued, ok, queued, ok, queued, ok, queued, ok, entry x, miss, entry g
built again with as many cores all is found, and what was put last
cores 1 < put 1 a, put 2 b, put 3 c, put 4 d, wait, del 2, put 3 e, wait / get 1, get 3, get 4, has 4, put 2 f, del 1, wait, get 2, get 1 / get 2, get 3, get 4 | queued, queued, queued, queued, ok, ok, queued, ok / entry a, entry e, entry d, yes, queued, ok, ok, entry f, miss / entry f, entry e, entry d
cores 2 < put 1 a, put 2 b, put 3 c, put 4 d, wait, del 2, put 3 e, wait / get 1, get 3, get 4, has 4, put 2 f, del 1, wait, get 2, get 1 / get 2, get 3, get 4 | queued, queued, queued, queued, ok, ok, queued, ok / entry a, entry e, entry d, yes, queued, ok, ok, entry f, miss / entry f, entry e, entry d
cores 4 < put 1 a, put 2 b, put 3 c, put 4 d, wait, del 2, put 3 e, wait / get 1, get 3, get 4, has 4, put 2 f, del 1, wait, get 2, get 1 / get 2, get 3, get 4 | queued, queued, queued, queued, ok, ok, queued, ok / entry a, entry e, entry d, yes, queued, ok, ok, entry f, miss / entry f, entry e, entry d
with another number what lies in cores that aren't there, or in another core than the key's, isn't found
cores 4 < put 1 a, put 2 b, put 3 c, put 5 e, wait / get 1, get 2, get 3, get 5 / cores 2 < get 1, get 2, get 3, get 5 / cores 1 < get 1, get 2, get 3, get 5 | queued, queued, queued, queued, ok / entry a, entry b, entry c, entry e / entry a, entry b, miss, entry e / miss, entry b, miss, entry e
deletes of all cores are kept in their logs
cores 1, log < put 1 a, put 2 b, wait, del 1, del 2, wait / get 1, get 2 | queued, queued, ok, ok, ok, ok / miss, miss
cores 2, log < put 1 a, put 2 b, wait, del 1, del 2, wait / get 1, get 2 | queued, queued, ok, ok, ok, ok / miss, miss
cores 4, log < put 1 a, put 2 b, wait, del 1, del 2, wait / get 1, get 2 | queued, queued, ok, ok, ok, ok / miss, miss
there are one, two or four cores
cores 3 < enabled | refused Config
cores 5 < enabled | refused Config
a core that is refused ends the others
cores 1, flushers 0 < enabled | refused Config
cores 2, flushers 0 < enabled | refused Config
cores 4, blocks 2, flushers 3 < enabled | refused Config
";

#[test]
fn answers_depend_on_the_sizes(rt: HostRuntime) -> std::result::Result<(), Fail> {
    let wrong = wrong_rows(rt, rt.alloc(), SIZES)?;
    assert!(rt; wrong.is_empty(), "{wrong}");
    Ok(())
}

#[test]
fn answers_depend_on_the_other_options(rt: HostRuntime) -> std::result::Result<(), Fail> {
    let wrong = wrong_rows(rt, rt.alloc(), REST)?;
    assert!(rt; wrong.is_empty(), "{wrong}");
    Ok(())
}

#[test]
fn devices_give_their_bytes_as_blocks(rt: HostRuntime) -> std::result::Result<(), Fail> {
    let wrong = wrong_rows(rt, rt.alloc(), DEVICES)?;
    assert!(rt; wrong.is_empty(), "{wrong}");
    Ok(())
}

#[test]
fn cores_answer_as_one(rt: HostRuntime) -> std::result::Result<(), Fail> {
    let wrong = wrong_rows(rt, rt.alloc(), CORES)?;
    assert!(rt; wrong.is_empty(), "{wrong}");
    Ok(())
}
