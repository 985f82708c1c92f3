//! Rows of text: what a store, or the program over one, is asked, and what it answers.
use crate::tests::configs::opened;
use crate::tests::memories::CoreMemories;
use crate::tests::over::{USUAL, over_of};
use crate::tests::programs::{say_broken, say_file, say_forged, say_served};
use foyer_device_page::error::Result;
use foyer_testing::said::Said;
use std::alloc::Global;
use std::fs::File;
use std::rt::Files;
use std::sync::Wait;
use std::test::Fail;
use std::thread::Threads;

// Each row is what is asked, and behind a bar what is answered; a name stands above those of a case. Slashes part stores that are
// built one after the other over one memory, each with what it is built over before its script. `force` puts what a filter
// would reject; `fill` puts a text of so many bytes; `duel` puts texts while another thread does, and `settles` is asked after both;
// `tally` is how many pieces were queued and dropped, hashes deleted, reads begun, look-ups missed, entries found and reads missed;
// `counts` is what the store counted. All is asked at the moment at which the store was built, until `at` says another.

const CALLS: &str = "of two keys with one hash the newest is found
force 1 foo, force 1+ bar, wait, get 1, get 1+ | queued, queued, ok, miss, entry bar
a piece that is not admitted deletes its key
rejects < force 1 v1, wait, get 1, put 1 v2, wait, get 1, has 1 | queued, ok, entry v1, deleted, ok, miss, no
the oldest of twelve puts make room for the newest: two blocks have room for three records each
blocks 2 < put 1 x, wait, put 2 x, wait, put 3 x, wait, put 4 x, wait, put 5 x, wait, put 6 x, wait, put 7 x, wait, put 8 x, wait, put 9 x, wait, put 10 x, wait, put 11 x, wait, put 12 x, wait, get 1, get 2, get 3, get 4, get 5, get 6, get 10, get 11, get 12 | queued, ok, queued, ok, queued, ok, queued, ok, queued, ok, queued, ok, queued, ok, queued, ok, queued, ok, queued, ok, queued, ok, queued, ok, miss, miss, miss, miss, miss, miss, entry x, entry x, entry x
a destroy leaves nothing, the store goes on, and a close refuses what comes
put 1 a, put 2 b, wait, destroy, get 1, get 2, put 3 c, wait, get 3, close, put 4 d, del 3, get 3, wait, destroy | queued, queued, ok, ok, miss, miss, queued, ok, entry c, ok, fault Closed, fault Closed, entry c, ok, fault Closed
a block whose records were deleted is reclaimed before an older one
blocks 3, pages 8, clean 0 < put 1 x, put 2 x, put 3 x, put 4 x, put 5 x, put 6 x, put 7 x, put 11 x, put 12 x, put 13 x, put 14 x, put 15 x, put 16 x, put 17 x, wait, del 11, del 12, del 13, del 14, del 15, del 16, del 17, wait, put 21 x, put 22 x, put 23 x, put 24 x, put 25 x, put 26 x, put 27 x, put 28 x, wait, get 1, get 7, get 11, get 21, get 28 | queued, queued, queued, queued, queued, queued, queued, queued, queued, queued, queued, queued, queued, queued, ok, ok, ok, ok, ok, ok, ok, ok, ok, queued, queued, queued, queued, queued, queued, queued, queued, ok, entry x, entry x, miss, entry x, entry x
three flushers write what is theirs
flushers 3 < put 1 a, put 2 b, put 3 c, put 4 d, wait, get 1, get 2, get 3, get 4 | queued, queued, queued, queued, ok, entry a, entry b, entry c, entry d
loads read through three I/O engines, and through none is refused
loads 3 < put 1 a, put 2 b, wait, get 1, get 2, get 3 | queued, queued, ok, entry a, entry b, miss
loads 0 < enabled | refused Config
a limit of reads throttles loads of what is indexed once there was a read since the building, and the reads of an opening count too
reads 1, opens none < put 1 a, put 2 b, wait, get 3, get 1, get 1, get 2, get 3, del 2, get 2, has 1, tally | queued, queued, ok, miss, entry a, throttled, throttled, miss, ok, miss, yes, tally 2 0 1 1 3 1 0
reads 1 < put 1 a, wait, get 1, get 2 | queued, ok, throttled, miss
each flusher needs a block, and a keeper a shard
flushers 4 < enabled | yes
flushers 5 < enabled | refused Config
flushers 0 < enabled | refused Config
shards 0 < enabled | refused Config
a store without an engine keeps nothing
nothing < force 1 v1, get 1, has 1, del 1, wait, destroy, close, force 1 v1, enabled, tally, others | ignored, miss, no, ok, ok, ok, ok, ignored, no, tally 0 0 0 0 0 0 0, others 0, noop
a session's tally is what it was answered, and another key's entry is an entry
rejects < force 1 a, force 2 b, wait, get 1, get 2, get 3, put 4 c, del 2, get 2, get 1+, tally | queued, queued, ok, entry a, entry b, miss, deleted, ok, miss, miss, tally 2 0 2 3 2 3 0
";

const HELD: &str = "calls are answered while the flusher is held
holds flush < force 1 v1, reached, get 1, has 1, has 2, del 1, get 1, held, open, wait, get 1, has 1 | queued, yes, piece v1, yes, no, ok, piece v1, yes, open, ok, miss, no
a newer piece outlives the release of an older one
holds flush < force 1 v1, reached, force 1 v2, get 1, held, open, wait, get 1 | queued, yes, queued, piece v2, yes, open, ok, entry v2
a piece that is kept is answered without a step, and so is the question for it
holds flush < force 1 a, reached, get 1, has 1, get 2, has 2, del 3, tally, others, held, open | queued, yes, piece a, yes, miss, no, ok, tally 1 0 1 0 1 0 0, others 1, yes, open
a piece that isn't taken, since too much is queued, deletes its key: the older one is answered until it is written, and no more
holds flush, queue 0 < force 1 a, reached, force 2 b, force 1 c, get 1, tally, held, open, wait, get 1, get 2, tally | queued, yes, queued, deleted, piece a, tally 2 1 0 0 0 0 0, yes, open, ok, miss, entry b, tally 2 1 0 1 1 1 0
a put that finds too much queued looks again as often as it may, and isn't taken then: a flusher that is held hangs nobody
holds flush, queue 0, patience 3 < force 1 a, reached, force 2 b, force 1 c, get 1, tally, held, open, wait, get 1, get 2 | queued, yes, queued, deleted, piece a, tally 2 1 0 0 0 0 0, yes, open, ok, miss, entry b
a removed key is gone at once, also while a piece of it is queued, and so is another key of its hash
holds flush < force 1 a, reached, remove 1, get 1, has 1, force 1 b, get 1, held, open, wait, get 1 | queued, yes, ok, miss, no, queued, piece b, yes, open, ok, entry b
holds flush < force 1 a, force 1+ b, reached, get 1+, remove 1, get 1, get 1+, held, open, wait, get 1, get 1+ | queued, queued, yes, piece b, ok, miss, miss, yes, open, ok, miss, miss
put 1 a, wait, remove 1, get 1, wait, get 1, close, remove 1 | queued, ok, ok, miss, ok, miss, ok, fault Closed
cores 2 < put 1 a, put 2 b, remove 1, get 1, wait, get 1, get 2 | queued, queued, ok, miss, ok, miss, entry b
a look says whether the queue has room
holds flush, queue 0 < room 1, force 1 a, reached, room 2, force 2 b, room 2, held, open, wait, room 2 | yes, queued, yes, yes, queued, no, yes, open, ok, yes
calls are answered while a reclaim is held
blocks 2, holds reclaim < put 1 x, wait, put 2 x, wait, put 3 x, wait, put 4 x, reached, has 4, del 2, has 2, held, open, wait, get 1, get 4 | queued, ok, queued, ok, queued, ok, queued, yes, yes, ok, no, yes, open, ok, miss, entry x
calls are answered where each thread lets all others go first at each point
naps < force 1 a, put 2 b, wait, get 1, get 2, del 2, get 2, put 3 c, put 3 d, wait, get 3, destroy, get 1, put 4 e, wait, get 4, close, get 4 | queued, queued, ok, entry a, entry b, ok, miss, queued, queued, ok, entry d, ok, miss, queued, ok, entry e, ok, entry e
blocks 2, flushers 2, naps < put 1 x, wait, put 2 x, wait, put 3 x, wait, put 4 x, wait, put 5 x, wait, put 6 x, wait, put 7 x, wait, put 8 x, wait, get 7, get 8 | queued, ok, queued, ok, queued, ok, queued, ok, queued, ok, queued, ok, queued, ok, queued, ok, entry x, entry x
calls are answered while a load is held, which another thread asked for
holds load < put 1 a, wait, reached, has 1, put 2 b, wait, has 2, del 2, has 2, held, open & seen 1, get 1 | queued, ok, yes, yes, queued, ok, yes, ok, no, yes, open & yes, entry a
two destroys that meet are both done, also where one waits for the other: they meet so in a few of ten
holds flush < put 1 a, reached, destroy, get 1 & reached, destroy, get 1 | queued, yes, ok, miss & yes, ok, miss
holds flush < put 1 a, reached, destroy, get 1 & reached, destroy, get 1 | queued, yes, ok, miss & yes, ok, miss
holds flush < put 1 a, reached, destroy, get 1 & reached, destroy, get 1 | queued, yes, ok, miss & yes, ok, miss
holds flush < put 1 a, reached, destroy, get 1 & reached, destroy, get 1 | queued, yes, ok, miss & yes, ok, miss
holds flush < put 1 a, reached, destroy, get 1 & reached, destroy, get 1 | queued, yes, ok, miss & yes, ok, miss
holds flush < put 1 a, reached, destroy, get 1 & reached, destroy, get 1 | queued, yes, ok, miss & yes, ok, miss
holds flush < put 1 a, reached, destroy, get 1 & reached, destroy, get 1 | queued, yes, ok, miss & yes, ok, miss
holds flush < put 1 a, reached, destroy, get 1 & reached, destroy, get 1 | queued, yes, ok, miss & yes, ok, miss
holds flush < put 1 a, reached, destroy, get 1 & reached, destroy, get 1 | queued, yes, ok, miss & yes, ok, miss
holds flush < put 1 a, reached, destroy, get 1 & reached, destroy, get 1 | queued, yes, ok, miss & yes, ok, miss
no wait lasts once the threads are joined: a destroy that something queued is in the way of is refused
put 1 a, wait left: put 2 b, wait, destroy, get 1, get 2 | queued, ok left: queued, ok, fault Closed, entry a, piece b
two threads load, each through an I/O engine of its own
loads 2 < put 1 a, put 2 b, wait, seen 2, get 1, get 2 & seen 1, seen 2, get 1, get 2 | queued, queued, ok, yes, entry a, entry b & yes, yes, entry a, entry b
two threads put one key: neither loads anything older than it put or loaded before, and one's last put stays, in memory as on the device
duel 1 2000 a & duel 1 2000 b then: settles 1 a1999 b1999 | yes & yes then: yes
naps, flushers 2 < duel 1 200 a & duel 1 200 b then: settles 1 a199 b199 | yes & yes then: yes
";

// If fewer than `clean` blocks are clean, a reclaim begins of its own. With 0 a reclaim begins only for a flusher that waits. In the other
// rows nothing that is asked for depends on whether a reclaim was done yet.
const BUILT_AGAIN: &str =
    "what was put is found, also where no wait came behind it, since a close waits
put 1 a, put 2 b, wait, put 3 c / get 1, get 2, get 3, get 4 | queued, queued, ok, queued / entry a, entry b, entry c, miss
of two values the newer is found, from one block and from two
put 1 a, wait, put 1 b, wait / get 1, put 1 c, wait, get 1 / get 1 | queued, ok, queued, ok / entry b, queued, ok, entry c / entry c
so is what was put behind a delete
put 1 a, wait, del 1, put 1 b, wait / get 1 | queued, ok, ok, queued, ok / entry b
two flushers write into blocks of their own
flushers 2 < put 1 a, put 2 b, put 3 c, wait / get 1, get 2, get 3 | queued, queued, queued, ok / entry a, entry b, entry c
past the capacity the newer of two values is found while its block is there, and then neither: the first opening fills a block, and begins another by the newer value, the second fills both again
blocks 2 < put 1 a, put 2 x, put 3 x, wait, put 1 b, wait, get 1 / get 1, put 4 x, put 5 x, put 6 x, put 7 x, wait, get 1, get 7 / get 1, get 7 | queued, queued, queued, ok, queued, ok, entry b / entry b, queued, queued, queued, queued, ok, miss, entry x / miss, entry x
the same of three blocks: the close of the second opening takes the older value's block, a put of the third the newer one's
blocks 3, clean 0 < put 1 a, put 2 x, put 3 x, wait, put 1 b, put 4 x, put 5 x, wait, put 6 x, wait, get 1, get 2 / get 1, get 2 / get 1, get 2, put 7 x, put 8 x, put 9 x, put 10 x, wait, get 1, get 4, get 7, get 10 / get 1, get 10 | queued, queued, queued, ok, queued, queued, queued, ok, queued, ok, entry b, entry x / entry b, entry x / entry b, miss, queued, queued, queued, queued, ok, miss, miss, entry x, entry x / miss, entry x
both values go with the one block that had them
blocks 1, clean 0 < put 1 a, wait, put 1 b, wait, put 2 x, wait, get 1, put 3 x, wait, get 1, get 2, get 3 / get 1, get 2, get 3 | queued, ok, queued, ok, queued, ok, entry b, queued, ok, miss, miss, entry x / miss, miss, entry x
of twelve puts two blocks have the newest six
blocks 2, clean 0 < put 1 x, put 2 x, put 3 x, put 4 x, put 5 x, put 6 x, put 7 x, put 8 x, put 9 x, put 10 x, put 11 x, put 12 x, wait, get 6, get 7 / get 1, get 6, get 7, get 8, get 9, get 10, get 11, get 12 | queued, queued, queued, queued, queued, queued, queued, queued, queued, queued, queued, queued, ok, miss, entry x / miss, miss, entry x, entry x, entry x, entry x, entry x, entry x
a delete is forgotten without a log, and lasts with one, until the key is put again
put 1 a, wait, del 1, wait, get 1 / get 1 | queued, ok, ok, ok, miss / entry a
log < put 1 a, put 2 b, wait, del 1, wait, get 1 / get 1, get 2, put 1 c, wait / get 1, get 2 | queued, queued, ok, ok, ok, miss / miss, entry b, queued, ok / entry c, entry b
a long text is written again where its block is reclaimed; an opening drops it, since a newer text lies before it in its block
blocks 3, clean 0, again < put 1 aaaaaaaa, put 2 b, put 3 c, wait, put 4 d, put 5 e, put 6 f, wait, put 7 g, put 8 h, put 9 i, wait, put 10 j, wait, wait, get 1, get 2, get 10 / get 1, get 2, get 10 | queued, queued, queued, ok, queued, queued, queued, ok, queued, queued, queued, ok, queued, ok, ok, entry aaaaaaaa, miss, entry j / miss, miss, entry j
so is one of a block that isn't the first, once that is reclaimed
blocks 3, clean 0, again < put 1 a, put 2 b, put 3 c, wait, put 4 aaaaaaaa, put 5 e, put 6 f, wait, put 7 g, put 8 h, put 9 i, wait, put 10 j, put 11 k, put 12 l, wait, put 13 m, wait, wait, get 4, get 5, get 1, get 13 | queued, queued, queued, ok, queued, queued, queued, ok, queued, queued, queued, ok, queued, queued, queued, ok, queued, ok, ok, entry aaaaaaaa, miss, miss, entry m
what was destroyed stays away
put 1 a, put 2 b, wait, destroy, put 3 c, wait / get 1, get 2, get 3 | queued, queued, ok, ok, queued, ok / miss, miss, entry c
an opening that recovers nothing leaves what is there
put 1 a, wait / opens none < get 1 / opens quiet < get 1 | queued, ok / miss / entry a
a worker that is held at its block waits for no other: the one that reads the second block lets it go on
blocks 2 < put 1 a, wait / holds recover < held, get 1, reached | queued, ok / yes, entry a, yes
a failed read refuses a strict opening, and ends its block in a quiet one
put 1 a, wait / fails 1, opens strict < get 1 / opens quiet < get 1 / fails 0, opens strict < get 1 | queued, ok / refused Recover / miss / entry a
";

const PROGRAMS: &str = "a record goes in and comes back
disk :memory:, 16384, 16384 < put 1 a, wait, get 1, del 1, get 1 | queued, ok, entry a, ok, miss, status 0
one block is taken again
disk :memory:, 16384, 16384 < put 1 a, wait, put 2 b, wait, put 3 c, wait, put 4 d, wait, get 1, get 4 | queued, ok, queued, ok, queued, ok, queued, ok, miss, entry d, status 0
the oldest of twelve puts make room for the newest
disk :memory:, 32768, 16384 < put 1 x, wait, put 2 x, wait, put 3 x, wait, put 4 x, wait, put 5 x, wait, put 6 x, wait, put 7 x, wait, put 8 x, wait, put 9 x, wait, put 10 x, wait, put 11 x, wait, put 12 x, wait, get 1, get 2, get 3, get 4, get 5, get 6, get 10, get 11, get 12 | queued, ok, queued, ok, queued, ok, queued, ok, queued, ok, queued, ok, queued, ok, queued, ok, queued, ok, queued, ok, queued, ok, queued, ok, miss, miss, miss, miss, miss, miss, entry x, entry x, entry x, status 0
bad sizes are found before a store is built: a capacity below a block, blocks of nothing and of an index alone, a block above its greatest size, and a directory that isn't made
disk :memory:, 4096, 16384 < put 1 a | fault Config, status 1
disk :memory:, 16384, 0 < put 1 a | fault Config, status 1
disk :memory:, 16384, 4096 < put 1 a | fault Config, status 1
disk :memory:, 16384, 4294967297 < put 1 a | fault Config, status 1
disk untouched, 4096, 16384 < put 1 a | fault Config, status 1
disk untouched, 16384, 0 < get 1 | fault Config, status 1
disk untouched, 16384, 4096 < get 1 | fault Config, status 1
length untouched | missing
bad words give the usage: two words, and one with a blank
disk :memory:, 16384 < put 1 a | errors usage: foyerdisk DIR CAPACITY BLOCK, status 2
disk :memory:, 16384, 1  < put 1 a | errors usage: foyerdisk DIR CAPACITY BLOCK, status 2
the version is printed, and no line is answered; with another word it is a bad word
disk --version < put 1 a | foyerdisk 0.1.0, rattle-kit-13f, status 0
disk --version, 16384 < put 1 a | errors usage: foyerdisk DIR CAPACITY BLOCK, status 2
bad lines are answered and passed, and the last one has no end
unended :memory:, 16384, 16384 < put 1, , get 18446744073709551616, put 1 , wait, get 01, get +1, get , wait , GET 1, put 18446744073709551615 z, wait, get 18446744073709551615 | bad line, bad line, bad line, queued, ok, entry , bad line, bad line, bad line, bad line, queued, ok, entry z, status 1
a line that is no text is bad
disk :memory:, 16384, 16384 < put 1 \x01, get 1 | bad line, miss, status 1
texts keep their spaces
disk :memory:, 16384, 16384 < put 7  two  spaces , wait, get 7 | queued, ok, entry  two  spaces , status 0
a long bad line leaves what was put, and a long line is one line
disk :memory:, 16384, 16384 < put 1 a, wait, *2000, get 1 | queued, ok, bad line, entry a, status 1
disk :memory:, 1048576, 1048576 < put 1 *2130, wait, get 1 | queued, ok, entry *2130, status 0
a closed store refuses a put
disk :memory:, 16384, 16384 < close, put 1 a, bad | ok, fault Closed, bad line, status 1
a destroy leaves nothing, and the store goes on
disk :memory:, 65536, 16384 < put 1 a, put 2 b, wait, destroy, get 1, get 2, put 3 c, wait, get 3, wait, close, wait, destroy | queued, queued, ok, ok, miss, miss, queued, ok, entry c, ok, ok, ok, fault Closed, status 1
a broken output, or input, ends it, and what was put before is written
broken streams, 65536, 16384 < put 1 a, put 2 b, get 1 | status 1
disk streams, 65536, 16384 < get 1, get 2 | entry a, entry b, status 0
broken streams, 65536, 16384 | status 1
disk streams, 65536, 16384 < get 1, get 2 | entry a, entry b, status 0
remove streams | yes
bytes that are zero are texts, and no numbers
disk :memory:, 16384, 16384 < put 1 a\0b, wait, get 1, put 2\0 a, get 1\0, \0, put 3 \0\0, wait, get 3 | queued, ok, entry a\0b, bad line, bad line, bad line, queued, ok, entry \0\0, status 1
without a log a delete is forgotten
disk forgotten, 32768, 16384 < put 1 a, wait, del 1, wait, close | queued, ok, ok, ok, ok, status 0
disk forgotten, 32768, 16384 < get 1 | entry a, status 0
remove forgotten | yes
a directory is made with a file for each block
disk new cache/of this run, 49152, 16384 < put 1 a, put 2 bb, wait, get 1, get 2, del 1, get 1, put 2 c, close, get 2, put 3 d | queued, queued, ok, entry a, entry bb, ok, miss, queued, ok, entry c, fault Closed, status 1
length new cache/of this run/foyer-storage-direct-fs-00000000 | 16384
length new cache/of this run/foyer-storage-direct-fs-00000002 | 16384
length new cache/of this run/foyer-storage-direct-fs-00000003 | missing
remove new cache | yes
a file in a directory's place is Io, and a directory in a file's place
touch in the way | yes
disk in the way, 16384, 16384 < get 1 | fault Io, errors foyerdisk: in the way: the directory couldn't be opened: Io, status 1
unlink in the way | yes
make barred/foyer-storage-direct-fs-00000001 | yes
disk barred, 32768, 16384 < get 1 | fault Io, errors foyerdisk: barred: the store couldn't be opened: Io, status 1
length barred/foyer.lock | 0
remove barred | yes
a directory keeps its block size, but not its capacity, and nothing but a file can be its lock
disk shape, 65536, 16384 < put 1 a | queued, status 0
length shape/foyer.lock | 26
disk shape, 65536, 32768 < get 1 | fault Config, errors foyerdisk: shape: its block size, cores and log must be those in its foyer.lock: Config, status 1
disk shape, 32768, 16383 < get 1 | entry a, status 0
remove shape | yes
make held/foyer.lock | yes
disk held, 32768, 16384 < get 1 | fault Io, errors foyerdisk: held: the directory couldn't be opened: Io, status 1
remove held | yes
what was put into a directory is found again, of two values the newer, and what was destroyed stays away
disk again, 65536, 16384 < put 1 a, put 2 bb, wait, put 1 c | queued, queued, ok, queued, status 0
disk again, 65536, 16384 < get 1, get 2, get 3, destroy, get 1, put 3 d | entry c, entry bb, miss, ok, miss, queued, status 0
disk again, 65536, 16384 < get 1, get 2, get 3 | miss, miss, entry d, status 0
remove again | yes
";

// A forged block is the first of two, the other of which is clean, so that none is reclaimed. Each index has a right checksum
// unless a bit is flipped.
const FORGED: &str =
    "an index that lies where an entry has its record, and an entry whose record is zeros
forge one < index 0 1 5 4096 53; index 8192 9 6 4096 53 | yes
disk one, 32768, 16384 < get 9, get 1, get 9, get 2 | miss, miss, miss, miss, status 0
remove one | yes
with a right record it is an entry
forge two < index 0 1 5 4096 53; index 8192 9 6 4096 53; record 12288 9 9 6 plain x | yes
disk two, 32768, 16384 < get 9, get 1, get 9 | entry x, miss, entry x, status 0
remove two | yes
a record that says another hash, or another sequence, is a miss
forge three < index 0 1 5 4096 53; record 4096 1 2 5 plain x | yes
disk three, 32768, 16384 < get 1, get 2, get 1 | miss, miss, miss, status 0
forge three < index 0 1 5 4096 53; record 4096 1 1 6 plain x | yes
disk three, 32768, 16384 < get 1, get 1 | miss, miss, status 0
remove three | yes
a record of another key is a miss
forge key < index 0 1 5 4096 53; record 4096 9 1 5 plain x | yes
disk key, 32768, 16384 < get 1, get 9, get 1 | miss, miss, miss, status 0
remove key | yes
a record that is listed shorter or longer than it is is a miss
forge four < index 0 9 6 4096 52; record 4096 9 9 6 plain x | yes
disk four, 32768, 16384 < get 9, get 9 | miss, miss, status 0
forge four < index 0 9 6 4096 54; record 4096 9 9 6 plain x | yes
disk four, 32768, 16384 < get 9, get 9 | miss, miss, status 0
remove four | yes
an index without entries ends the block, whatever stands behind it, and the block is written; an index that stands behind what was written then is listed with it
forge five < index 0; full 8192 20 | yes
disk five, 32768, 16384 < get 20, put 7 y, wait, get 7, get 20 | miss, queued, ok, entry y, miss, status 0
disk five, 32768, 16384 < get 7, get 20, get 21, put 7 z, wait, get 7 | entry y, miss, miss, queued, ok, entry z, status 0
remove five | yes
entries are listed in any order of their offsets, and the next index stands behind the last of them
forge six < index 0 1 1 8192 53, 2 2 4096 53; index 8192 9 6 4096 53; record 4096 2 2 2 plain x; record 12288 9 9 6 plain x | yes
disk six, 32768, 16384 < get 1, get 2, get 9 | miss, entry x, entry x, status 0
remove six | yes
a compressed record is named each time
forge seven < index 0 9 6 4096 53; record 4096 9 9 6 zstd x | yes
disk seven, 32768, 16384 < get 9, get 9 | fault Unsupported, fault Unsupported, status 1
remove seven | yes
a text that is none is named each time
forge eight < index 0 9 6 4096 53; record 4096 9 9 6 plain FF | yes
disk eight, 32768, 16384 < get 9, get 9 | fault Parse, fault Parse, status 1
remove eight | yes
a record of an unknown compression, or of another magic number, is a miss
forge nine < index 0 9 6 4096 53; record 4096 9 9 6 three x | yes
disk nine, 32768, 16384 < get 9, get 9 | miss, miss, status 0
forge nine < index 0 9 6 4096 53; record 4096 9 9 6 other x | yes
disk nine, 32768, 16384 < get 9, get 9 | miss, miss, status 0
remove nine | yes
an index whose checksum is off by one bit lists nothing
forge ten < index 0 9 6 4096 53; record 4096 9 9 6 plain x; flip 7 | yes
disk ten, 32768, 16384 < get 9, put 1 y, wait, get 1 | miss, queued, ok, entry y, status 0
remove ten | yes
the last sequence refuses the opening, and the one before it leaves none to be drawn
forge end < index 0 9 18446744073709551615 4096 53 | yes
disk end, 32768, 16384 < get 9 | fault SequenceEnd, errors foyerdisk: end: the store couldn't be opened: SequenceEnd, status 1
forge end < index 0 9 18446744073709551614 4096 53 | yes
disk end, 32768, 16384 < put 1 y, del 9, destroy, get 9, wait | fault SequenceEnd, fault SequenceEnd, fault SequenceEnd, miss, ok, status 1
remove end | yes
";

// Notes what stores answer that are built over one memory, one after the other.
fn say_stores<R: Threads + Wait + Files + Copy + Send + Sync + 'static>(
    rt: R,
    alloc: Global,
    said: &mut Said,
    asked: &str,
) -> Result<()> {
    let memories = CoreMemories::new(alloc)?;
    let mut over = USUAL;
    let mut is_first = true;
    for part in asked.split(" / ") {
        if !is_first {
            said.word(" / ");
        }
        is_first = false;
        let (words, script) = part.split_once(" < ").unwrap_or(("", part));
        over = over_of(over, words);
        let answers = opened(rt, alloc, over, script, &memories)?;
        said.word(answers.as_str());
    }
    Ok(())
}

/// What stores answer that are built over one memory, one after the other.
pub(crate) fn answers_of_stores<R: Threads + Wait + Files + Copy + Send + Sync + 'static>(
    rt: R,
    alloc: Global,
    asked: &str,
) -> Result<String> {
    let mut said = Said::new(alloc);
    say_stores(rt, alloc, &mut said, asked)?;
    said.text()
}

fn say_row<
    R: Threads
        + Wait
        + std::rt::Clock
        + Files<File = File>
        + AllocGlobal
        + Copy
        + Send
        + Sync
        + 'static,
>(rt: R, alloc: Global, said: &mut Said, asked: &str) -> Result<()> {
    let (word, rest) = asked.split_once(' ').unwrap_or((asked, ""));
    match word {
        "disk" => say_served(rt, alloc, said, rest, true),
        "unended" => say_served(rt, alloc, said, rest, false),
        "broken" => say_broken(rt, alloc, said, rest),
        "forge" => say_forged(&rt, alloc, said, rest),
        "make" | "touch" | "unlink" | "remove" | "length" => {
            say_file(&rt, said, word, rest);
            Ok(())
        }
        _ => say_stores(rt, alloc, said, asked),
    }
}

// Notes a row if it is answered otherwise.
fn say_wrong<
    R: Threads
        + Wait
        + std::rt::Clock
        + Files<File = File>
        + AllocGlobal
        + Copy
        + Send
        + Sync
        + 'static,
>(rt: R, alloc: Global, wrong: &mut Said, asked: &str, row: &str) -> Result<()> {
    let mut said = Said::new(alloc);
    said.word(asked);
    said.word(" | ");
    say_row(rt, alloc, &mut said, asked)?;
    let said = said.text()?;
    if said.as_str() != row {
        wrong.word(said.as_str());
        wrong.word("\n");
    }
    Ok(())
}

/// The rows whose answers are others now, each with what is answered. Empty: all are answered as they say.
pub(crate) fn wrong_rows<
    R: Threads
        + Wait
        + std::rt::Clock
        + Files<File = File>
        + AllocGlobal
        + Copy
        + Send
        + Sync
        + 'static,
>(rt: R, alloc: Global, rows: &str) -> Result<String> {
    let mut wrong = Said::new(alloc);
    for row in rows.lines() {
        let (asked, _) = row.split_once(" | ").unwrap_or((row, ""));
        if asked.len() < row.len() {
            say_wrong(rt, alloc, &mut wrong, asked, row)?;
        }
    }
    wrong.text()
}

#[test]
fn a_store_answers_calls(rt: HostRuntime) -> std::result::Result<(), Fail> {
    let wrong = wrong_rows(rt, rt.alloc(), CALLS)?;
    assert!(rt; wrong.is_empty(), "{wrong}");
    Ok(())
}

#[test]
fn a_store_answers_calls_while_a_thread_is_held(rt: HostRuntime) -> std::result::Result<(), Fail> {
    let wrong = wrong_rows(rt, rt.alloc(), HELD)?;
    assert!(rt; wrong.is_empty(), "{wrong}");
    Ok(())
}

#[test]
fn a_store_built_again_finds_what_was_written(rt: HostRuntime) -> std::result::Result<(), Fail> {
    let wrong = wrong_rows(rt, rt.alloc(), BUILT_AGAIN)?;
    assert!(rt; wrong.is_empty(), "{wrong}");
    Ok(())
}

#[test]
fn a_store_over_forged_blocks_answers_each_call(rt: HostRuntime) -> std::result::Result<(), Fail> {
    let wrong = wrong_rows(rt, rt.alloc(), FORGED)?;
    assert!(rt; wrong.is_empty(), "{wrong}");
    Ok(())
}

#[test]
fn the_program_answers_lines(rt: HostRuntime) -> std::result::Result<(), Fail> {
    let wrong = wrong_rows(rt, rt.alloc(), PROGRAMS)?;
    assert!(rt; wrong.is_empty(), "{wrong}");
    Ok(())
}
