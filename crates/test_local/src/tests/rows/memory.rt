//! Rows of engines over memory.

// A block of four pages has room for three small records, one of three pages for two behind its index: a text of 8140 bytes and 52
// more fill them. What is left of a batch takes the block again. A wait has the first block reclaimed once no clean one is left.
pub const PUT: &str = "a record goes in and comes back
zeros blocks 1, pages 4 < put 1 a, wait, get 1, del 1, get 1 | queued ok a ok miss
a record that was not flushed is missed
zeros blocks 1, pages 4 < put 1 a, get 1 | queued miss
the newest pair is answered
zeros blocks 1, pages 4 < put 1 a, put 1 b, wait, get 1, put 1 c, get 1, wait, get 1 | queued queued ok b queued b ok c
where no block is clean the oldest is reclaimed
zeros blocks 1, pages 4 < put 1 a, put 2 b, put 3 c, put 4 d, wait, get 1, get 3, get 4, put 5 e, wait, get 5, get 4 | queued queued queued queued ok miss miss d queued ok e d
a wait keeps a block clean
zeros blocks 2, pages 4 < put 1 a, put 2 b, put 3 c, put 4 d, wait, get 1, get 3, get 4, put 1 e, wait, get 1 | queued queued queued queued ok miss miss d queued ok e
a wait of an idle engine takes no block
zeros blocks 1, pages 4 < put 1 a, put 2 b, put 3 c, wait, wait, wait, get 1, close, get 3 | queued queued queued ok ok ok a ok c
what does not fit one block goes into the next
zeros blocks 3, pages 4 < put 1 a, put 2 b, put 3 c, put 4 d, wait, get 1, get 3, get 4, put 5 e, wait, get 5, get 4, put 6 f, wait, get 6 | queued queued queued queued ok a c d queued ok e d queued ok f
what no block holds is missed
zeros blocks 1, pages 3 < put 1 .1234567890123456789012345678901234567890*81, put 2 1234567890123456789012345678901234567890*81, wait, get 1, get 2 | queued queued ok miss 1234567890123456789012345678901234567890*81
texts keep their spaces
zeros blocks 1, pages 4 < put 7  two  spaces , wait, get 7 | queued ok  two  spaces 
nothing is taken once closed, a put
zeros blocks 1, pages 4 < close, put 1 a | ok Closed
nothing is taken once closed, a delete
zeros blocks 1, pages 4 < put 1 a, close, del 1, get 1, wait, close | queued ok Closed a ok ok
a destroy leaves nothing and the engine goes on
zeros blocks 1, pages 4 < put 1 a, wait, destroy, get 1, put 2 b, wait, get 2, get 1 | queued ok ok miss queued ok b miss
a destroy leaves nothing and the engine goes on, until it is closed
zeros blocks 1, pages 4 < destroy, put 1 a, destroy, wait, get 1, destroy, close, destroy | ok queued ok ok miss ok ok Closed
";

// A block has room for three records; a record of a text of n bytes has 52 + n: texts of eight bytes and more are written again.
pub const REINSERTED: &str = "an admitted record is written again
memory admits 60 < put 1 aaaaaaaa, wait, put 2 b, wait, put 3 c, wait, put 4 d, wait, get 1, get 2, get 3, get 4 | queued ok queued ok queued ok queued ok aaaaaaaa miss miss d
it stays while others go
memory admits 60 < put 1 aaaaaaaa, put 2 b, put 3 c, wait, put 4 d, wait, put 5 e, wait, put 6 f, wait, put 7 g, wait, get 1, get 4, get 6, get 7 | queued queued queued ok queued ok queued ok queued ok queued ok aaaaaaaa miss f g
an older record stays away: both records of the key are admitted, and the older one isn't indexed any more
memory admits 60 < put 1 aaaaaaaa, wait, put 2 b, wait, put 1 bbbbbbbb, wait, put 4 d, wait, get 1, get 2, get 4 | queued ok queued ok queued ok queued ok bbbbbbbb miss d
a deleted record stays away
memory admits 60 < put 1 aaaaaaaa, wait, del 1, put 2 b, put 3 c, wait, put 4 d, wait, get 1, get 4 | queued ok ok queued queued ok queued ok miss d
without an admitted record a block is free
memory admits 60 < put 1 a, wait, put 2 b, wait, put 3 c, wait, put 4 d, wait, get 1, get 2, get 3, get 4 | queued ok queued ok queued ok queued ok miss miss miss d
two flushers write again in turn: the first record that a reclaim reads goes to the first flusher, the second to the second
memory blocks 3, flushers 2, admits 60 < put 2 aaaaaaaa, put 4 bbbbbbbb, put 6 c, wait, put 8 d, put 10 e, put 12 f, wait, put 14 g, wait, get 2, get 4, get 6, get 14 | queued queued queued ok queued queued queued ok queued ok aaaaaaaa bbbbbbbb miss g
a destroy takes them too
memory admits 60 < put 1 aaaaaaaa, put 2 b, put 3 c, wait, put 4 d, destroy, get 1, get 4, put 5 e, wait, get 5 | queued queued queued ok queued ok miss miss queued ok e
a close writes them too
memory admits 60 < put 1 aaaaaaaa, put 2 b, put 3 c, wait, put 4 d, close, get 1, get 4 | queued queued queued ok queued ok aaaaaaaa d
each text is read back once it is written, and the 15 puts before it are answered or missed, where reclaims have long texts written again; waits end, also where every record is admitted
memory blocks 4, admits 60 < fill 16 | filled 9
memory blocks 5, flushers 2, admits 60 < fill 16 | filled 10
memory blocks 4, admits 0 < fill 16 | filled 9
";

pub const FAILING: &str =
    "each call that fails is named or drops its batch: a batch is a write of its record, one of the zeros behind it and one of its index; then come the reads
memory unread, blocks 2, pool 16384, fails 1, keeps 0 < put 1 a, wait, get 1, put 2 b, wait, get 1, get 2 | queued ok miss queued ok miss b
memory unread, blocks 2, pool 16384, fails 2, keeps 0 < put 1 a, wait, get 1, put 2 b, wait, get 1, get 2 | queued ok miss queued ok miss b
memory unread, blocks 2, pool 16384, fails 3, keeps 0 < put 1 a, wait, get 1, put 2 b, wait, get 1, get 2 | queued ok miss queued ok miss b
memory unread, blocks 2, pool 16384, fails 4, keeps 0 < put 1 a, wait, get 1, put 2 b, wait, get 1, get 2 | queued ok Io queued ok a b
memory unread, blocks 2, pool 16384, fails 5, keeps 0 < put 1 a, wait, get 1, put 2 b, wait, get 1, get 2 | queued ok a queued ok a miss
memory unread, blocks 2, pool 16384, fails 6, keeps 0 < put 1 a, wait, get 1, put 2 b, wait, get 1, get 2 | queued ok a queued ok a miss
memory unread, blocks 2, pool 16384, fails 7, keeps 0 < put 1 a, wait, get 1, put 2 b, wait, get 1, get 2 | queued ok a queued ok a miss
memory unread, blocks 2, pool 16384, fails 8, keeps 0 < put 1 a, wait, get 1, put 2 b, wait, get 1, get 2 | queued ok a queued ok Io b
memory unread, blocks 2, pool 16384, fails 9, keeps 0 < put 1 a, wait, get 1, put 2 b, wait, get 1, get 2 | queued ok a queued ok a Io
memory unread, blocks 2, pool 16384, fails 10, keeps 0 < put 1 a, wait, get 1, put 2 b, wait, get 1, get 2 | queued ok a queued ok a b
memory unread, blocks 2, pool 16384, fails 1, keeps 100 < put 1 a, wait, get 1, put 2 b, wait, get 1, get 2 | queued ok miss queued ok miss b
memory unread, blocks 2, pool 16384, fails 2, keeps 100 < put 1 a, wait, get 1, put 2 b, wait, get 1, get 2 | queued ok miss queued ok miss b
memory unread, blocks 2, pool 16384, fails 3, keeps 100 < put 1 a, wait, get 1, put 2 b, wait, get 1, get 2 | queued ok miss queued ok miss b
memory unread, blocks 2, pool 16384, fails 4, keeps 100 < put 1 a, wait, get 1, put 2 b, wait, get 1, get 2 | queued ok Io queued ok a b
memory unread, blocks 2, pool 16384, fails 5, keeps 100 < put 1 a, wait, get 1, put 2 b, wait, get 1, get 2 | queued ok a queued ok a miss
memory unread, blocks 2, pool 16384, fails 6, keeps 100 < put 1 a, wait, get 1, put 2 b, wait, get 1, get 2 | queued ok a queued ok a miss
memory unread, blocks 2, pool 16384, fails 7, keeps 100 < put 1 a, wait, get 1, put 2 b, wait, get 1, get 2 | queued ok a queued ok a miss
memory unread, blocks 2, pool 16384, fails 8, keeps 100 < put 1 a, wait, get 1, put 2 b, wait, get 1, get 2 | queued ok a queued ok Io b
memory unread, blocks 2, pool 16384, fails 9, keeps 100 < put 1 a, wait, get 1, put 2 b, wait, get 1, get 2 | queued ok a queued ok a Io
memory unread, blocks 2, pool 16384, fails 10, keeps 100 < put 1 a, wait, get 1, put 2 b, wait, get 1, get 2 | queued ok a queued ok a b
memory unread, blocks 2, pool 16384, fails 1, keeps 4096 < put 1 a, wait, get 1, put 2 b, wait, get 1, get 2 | queued ok miss queued ok miss b
memory unread, blocks 2, pool 16384, fails 2, keeps 4096 < put 1 a, wait, get 1, put 2 b, wait, get 1, get 2 | queued ok miss queued ok miss b
memory unread, blocks 2, pool 16384, fails 3, keeps 4096 < put 1 a, wait, get 1, put 2 b, wait, get 1, get 2 | queued ok miss queued ok miss b
memory unread, blocks 2, pool 16384, fails 4, keeps 4096 < put 1 a, wait, get 1, put 2 b, wait, get 1, get 2 | queued ok Io queued ok a b
memory unread, blocks 2, pool 16384, fails 5, keeps 4096 < put 1 a, wait, get 1, put 2 b, wait, get 1, get 2 | queued ok a queued ok a miss
memory unread, blocks 2, pool 16384, fails 6, keeps 4096 < put 1 a, wait, get 1, put 2 b, wait, get 1, get 2 | queued ok a queued ok a miss
memory unread, blocks 2, pool 16384, fails 7, keeps 4096 < put 1 a, wait, get 1, put 2 b, wait, get 1, get 2 | queued ok a queued ok a miss
memory unread, blocks 2, pool 16384, fails 8, keeps 4096 < put 1 a, wait, get 1, put 2 b, wait, get 1, get 2 | queued ok a queued ok Io b
memory unread, blocks 2, pool 16384, fails 9, keeps 4096 < put 1 a, wait, get 1, put 2 b, wait, get 1, get 2 | queued ok a queued ok a Io
memory unread, blocks 2, pool 16384, fails 10, keeps 4096 < put 1 a, wait, get 1, put 2 b, wait, get 1, get 2 | queued ok a queued ok a b
a device that stops leaves misses and faults
memory unread, blocks 2, pool 16384, stops 1, keeps 100 < put 1 a, wait, get 1, put 2 b, wait, get 1, get 2 | queued ok miss queued ok miss miss
memory unread, blocks 2, pool 16384, stops 4, keeps 100 < put 1 a, wait, get 1, put 2 b, wait, get 1, get 2 | queued ok Io queued ok Io miss
memory unread, blocks 2, pool 16384, stops 7, keeps 100 < put 1 a, wait, get 1, put 2 b, wait, get 1, get 2 | queued ok a queued ok Io miss
memory unread, blocks 2, pool 16384, stops 9, keeps 100 < put 1 a, wait, get 1, put 2 b, wait, get 1, get 2 | queued ok a queued ok a Io
a clean that fails is answered by the destroy, and the index is clear: the first three calls write the put, the next two clean the blocks
memory unread, blocks 2, pool 16384, fails 4 < put 1 a, wait, destroy, get 1, destroy, put 2 b, wait, get 2 | queued ok Io miss ok queued ok b
memory unread, blocks 2, pool 16384, fails 5 < put 1 a, wait, destroy, get 1, destroy, put 2 b, wait, get 2 | queued ok Io miss ok queued ok b
memory unread, blocks 2, pool 16384, fails 6 < put 1 a, wait, destroy, get 1, destroy, put 2 b, wait, get 2 | queued ok ok miss Io queued ok b
a load is throttled where its caller says so, and the key has a text
memory unread, blocks 1 < throttled 1, put 1 a, wait, throttled 1, throttled 2, get 1, del 1, throttled 1 | miss queued ok throttled miss a ok miss
";

// The rows have blocks beside a log, or blocks without one. An opening reads the log's page once, and of four blocks one index each. Each
// batch that has marks writes the log once. A write that fails keeps 16 bytes: the first slot of the log, which has no mark at first.
pub const DELETED: &str = "an append that fails forgets its deletes alone
memory blocks 4, queue 8192, log, keeps 16, log-fails 1 < put 1 a, put 2 b, wait, del 2, wait, get 1, get 2 / whole < get 1, get 2 | refused Io / miss miss
memory blocks 4, queue 8192, log, keeps 16, log-fails 2 < put 1 a, put 2 b, wait, del 2, wait, get 1, get 2 / whole < get 1, get 2 | queued queued ok ok ok a miss / a b
memory blocks 4, queue 8192, log, keeps 16, log-fails 3 < put 1 a, put 2 b, wait, del 2, wait, get 1, get 2 / whole < get 1, get 2 | queued queued ok ok ok a miss / a miss
a destroy leaves nothing beside a log
memory blocks 4, queue 8192, log, keeps 16, log-fails 2 < put 1 a, put 2 b, wait, del 2, destroy, get 1, put 2 b, wait, get 2 / whole < get 1, get 2 | queued queued ok ok ok miss queued ok b / miss b
memory blocks 4, queue 8192, log, keeps 16, log-fails 3 < put 1 a, put 2 b, wait, del 2, destroy, get 1, put 2 b, wait, get 2 / whole < get 1, get 2 | queued queued ok ok ok miss queued ok b / miss b
memory blocks 4, queue 8192, log, keeps 16, log-fails 4 < put 1 a, put 2 b, wait, del 2, destroy, get 1, put 2 b, wait, get 2 / whole < get 1, get 2 | queued queued ok ok ok miss queued ok b / miss b
a write that fails brings no deleted text back; that of a block's index, a part of which is written, loses the first text too
memory blocks 4, queue 8192, log, keeps 16, fails 5 < put 1 a, put 2 b, wait, del 2, wait, put 1 a, wait, get 2 / whole < get 1, get 2 | queued queued ok ok ok queued ok miss / a miss
memory blocks 4, queue 8192, log, keeps 16, fails 6 < put 1 a, put 2 b, wait, del 2, wait, put 1 a, wait, get 2 / whole < get 1, get 2 | queued queued ok ok ok queued ok miss / a miss
memory blocks 4, queue 8192, log, keeps 16, fails 7 < put 1 a, put 2 b, wait, del 2, wait, put 1 a, wait, get 2 / whole < get 1, get 2 | queued queued ok ok ok queued ok miss / a miss
memory blocks 4, queue 8192, log, keeps 16, fails 8 < put 1 a, put 2 b, wait, del 2, wait, put 1 a, wait, get 2 / whole < get 1, get 2 | queued queued ok ok ok queued ok miss / a miss
memory blocks 4, queue 8192, log, keeps 16, fails 9 < put 1 a, put 2 b, wait, del 2, wait, put 1 a, wait, get 2 / whole < get 1, get 2 | queued queued ok ok ok queued ok miss / miss miss
a text that is too great deletes its key as it is received: the log keeps that, and without a log the older text is found again
memory blocks 4, queue 8192, log < put 1 a, wait, put 1 *134, get 1, wait, get 1 / whole < get 1, get 2 | queued ok queued a ok miss / miss miss
memory blocks 4, queue 8192 < put 1 a, wait, put 1 *134, get 1, wait, get 1 / whole < get 1, get 2 | queued ok queued a ok miss / a miss
so does a text that isn't taken, since too much is queued; the other keys keep theirs
memory blocks 4, queue 8192, log < put 1 a, put 2 b, wait, put 3 *134, put 1 c, get 1, get 2, wait, get 1, get 2 / whole < get 1, get 2 | queued queued ok queued deleted miss b ok miss b / miss b
memory blocks 4, queue 8192 < put 1 a, put 2 b, wait, put 3 *134, put 1 c, get 1, get 2, wait, get 1, get 2 / whole < get 1, get 2 | queued queued ok queued deleted miss b ok miss b / a b
a clean that fails counts as one, and what its block had is forgotten; stopped before the next write nothing of its index is lost where nothing was written, and all where a part was: the opening reads four blocks, three batches that fill their blocks write twice, the fourth one writes three times, and the reclaim reads one index
memory blocks 4, queue 8192, log, fails 15 < put 1 a, put 2 b, put 3 c, wait, put 4 d, put 5 e, put 6 f, wait, put 7 g, put 8 h, put 9 i, wait, put 10 j, wait, get 1, get 2, get 10 / whole < get 1, get 2 | queued queued queued ok queued queued queued ok queued queued queued ok queued ok miss miss j / a b
memory blocks 4, queue 8192, log, keeps 16, fails 15 < put 1 a, put 2 b, put 3 c, wait, put 4 d, put 5 e, put 6 f, wait, put 7 g, put 8 h, put 9 i, wait, put 10 j, wait, get 1, get 2, get 10 / whole < get 1, get 2 | queued queued queued ok queued queued queued ok queued queued queued ok queued ok miss miss j / miss miss
memory blocks 4, queue 8192, log, stops 15 < put 1 a, put 2 b, put 3 c, wait, put 4 d, put 5 e, put 6 f, wait, put 7 g, put 8 h, put 9 i, wait, put 10 j, wait, get 1, get 2, get 10 / whole < get 1, get 2 | queued queued queued ok queued queued queued ok queued queued queued ok queued ok miss miss Io / a b
its block is handed out again, and nothing that it had is answered, then and once it is opened again
memory blocks 4, queue 8192, log, fails 15 < put 1 a, put 2 b, put 3 c, wait, put 4 d, put 5 e, put 6 f, wait, put 7 g, put 8 h, put 9 i, wait, put 10 j, wait, put 11 k, put 12 l, put 13 m, wait, get 1, get 2, get 3, get 13, put 14 n, wait, get 1, get 13, get 14 / whole < get 1, get 2 | queued queued queued ok queued queued queued ok queued queued queued ok queued ok queued queued queued ok miss miss miss m queued ok miss m n / miss miss
a log that has wrapped forgets: one of one page has 256 slots, and the first mark is gone behind 256 others
memory blocks 4, queue 8192, log < put 1 a, put 2 b, wait, del 2, wait, deletes 255, wait / whole < get 1, get 2 | queued queued ok ok ok ok ok / a miss
memory blocks 4, queue 8192, log < put 1 a, put 2 b, wait, del 2, wait, deletes 256, wait / whole < get 1, get 2 | queued queued ok ok ok ok ok / a b
a put where too much is queued isn't taken and deletes its key, at once and after a wait; other keys keep their texts, and those that were queued are written
zeros blocks 15, queue 83886 < put 1 a, put 2 b, put 3 c, wait, put 11 *100, put 12 *100, put 13 *100, put 14 *100, put 15 *100, put 16 *100, put 17 *100, put 18 *100, put 19 *100, get 1, put 1 d, get 1, get 2, wait, get 1, get 2, get 3, get 11, get 19, put 1 e, wait, get 1, close | queued queued queued ok queued queued queued queued queued queued queued queued queued a deleted miss b ok miss b c *100 *100 queued ok e ok
the same of a key that has no text, and of one whose text is queued and not written
zeros blocks 15, queue 83886 < put 1 a, put 11 *100, put 12 *100, put 13 *100, put 14 *100, put 15 *100, put 16 *100, put 17 *100, put 18 *100, put 19 *100, put 1 b, put 2 c, get 1, get 2, wait, get 1, get 2, close | queued queued queued queued queued queued queued queued queued queued deleted deleted miss miss ok miss miss ok
texts that no block holds are queued too: once they are given up a text is taken again; a reopening finds the older one, since there is no log of the delete
engine dropped, 65536, 16384, queue 167772 < put 1 a, put 2 b, put 3 c, wait, put 11 *200, put 12 *200, put 13 *200, put 14 *200, put 15 *200, put 16 *200, put 17 *200, put 18 *200, put 19 *200, put 1 d, get 1, wait, get 1, get 2, get 3, get 11, put 3 e, wait, get 3, close | queued queued queued ok queued queued queued queued queued queued queued queued queued deleted miss ok miss b c miss queued ok e ok
engine dropped, 65536, 16384 < get 1, get 2, get 3, close | a b e ok
remove dropped | yes
";

// The moves of each run, what they are answered, and whether the blocks' first pages are zeros at last.
pub const MOVED: &str =
    "a run reclaims a block and writes its admitted record again: a read, a forget and a clean that aren't due are passed over or handed back; what is due is done once
moves blocks 2, admits 60 < first, again | -, -, -, -, -, -, -, write 0, next, committed 3, -, -, -, -, write 0, write 1, next, next, committed 1, -, picked 0, not now, scan 0 4096 63, listed, clean 0, done, true, -, -, write 1, next, next, committed 1, -, at 8192, 1 is a long text, miss, at 4096, 4 is d, zeros yes no
a fault of a read ends the listing and one of a clean is brought: the accesses are two writes of the first block, which is full, and three of the second, then the index, the record, the clean
moves blocks 2, admits 60, fails 6 < first, reclaim, read 0, read 0, forget 0, reclaimed 0, ask 2 | -, -, -, -, -, -, -, write 0, next, committed 3, -, -, -, -, write 0, write 1, next, next, committed 1, -, picked 0, listed, clean 0, done, true, zeros yes no
moves blocks 2, admits 60, fails 7 < first, reclaim, read 0, read 0, forget 0, reclaimed 0, ask 2 | -, -, -, -, -, -, -, write 0, next, committed 3, -, -, -, -, write 0, write 1, next, next, committed 1, -, picked 0, scan 0 4096 63, listed, clean 0, done, false, zeros yes no
moves blocks 2, admits 60, fails 8 < first, reclaim, read 0, read 0, forget 0, reclaimed 0, ask 2 | -, -, -, -, -, -, -, write 0, next, committed 3, -, -, -, -, write 0, write 1, next, next, committed 1, -, picked 0, scan 0 4096 63, listed, clean 0, done, false, zeros no no
two reclaims run side by side, and each reads and cleans its own block
moves blocks 3, reclaimers 2, clean 2, admits 60 < put 1 a long text, put 2 b, put 3 c, receive, receive, receive, begin, block, wrote, wrote, end, put 4 d, put 5 another long text, put 6 f, receive, receive, receive, begin, block, block, wrote, wrote, end, put 7 g, receive, begin, block, block, wrote, wrote, wrote, end, reclaim, reclaim, reclaim, read 1, read 0, read 1, read 0, forget 1, reclaimed 0, forget 0, reclaimed 0, reclaimed 1, idle, receive, receive, begin, block, wrote, wrote, end, look 1, look 5, load 1, load 0, ask 4, ask 6, look 7, load 2 | -, -, -, -, -, -, -, write 0, next, committed 3, -, -, -, -, -, -, -, -, write 0, write 1, next, committed 3, -, -, -, -, write 1, write 2, next, next, committed 1, -, picked 0, picked 1, not now, scan 1 8192 69, scan 0 4096 63, listed, listed, clean 1, clean 0, done, done, true, -, -, -, write 2, next, committed 2, -, at 12288, at 8192, 5 is another long text, 1 is a long text, false, false, at 4096, 7 is g, zeros yes yes no
a run passes over what another issued, as a read of a load
moves blocks 2, admits 60 < first, reclaim / read 0, reclaimed 0, cleaned 0, forget 0, idle | -, -, -, -, -, -, -, write 0, next, committed 3, -, -, -, -, write 0, write 1, next, next, committed 1, -, picked 0, not now, false, zeros no no
a run destroys: each clean comes once, whichever comes first, and the first fault is answered; the accesses are two writes of the first block, which is full, and three of the second, then the cleans
moves blocks 2, admits 60, fails 0 < first, destroy, cleaned 0, receive, begin, block, end, clear, cleaned 1, cleaned 1, reclaimed 1, clear, cleaned 2, cleaned 0, cleaned 0, ask 1, ask 4, clear | -, -, -, -, -, -, -, write 0, next, committed 3, -, -, -, -, write 0, write 1, next, next, committed 1, -, -, -, -, write 1, -, cleared, done, not now, destroyed None, false, false, not now, zeros yes yes
moves blocks 2, admits 60, fails 6 < first, destroy, cleaned 0, receive, begin, block, end, clear, cleaned 1, cleaned 1, reclaimed 1, clear, cleaned 2, cleaned 0, cleaned 0, ask 1, ask 4, clear | -, -, -, -, -, -, -, write 0, next, committed 3, -, -, -, -, write 0, write 1, next, next, committed 1, -, -, -, -, write 1, -, cleared, done, not now, destroyed Io, false, false, not now, zeros yes no
a record that is written again stands behind the new one: three fill the one block, and the fourth has it reclaimed
moves blocks 1, admits 60 < put 1 a long text, receive, begin, block, wrote, wrote, wrote, end, put 2 b, receive, begin, block, wrote, wrote, wrote, end, put 3 c, receive, begin, block, wrote, wrote, end, put 4 d, receive, begin, block, block, reclaim, read 0, read 0, read 0, read 0, forget 0, reclaimed 0, idle, block, wrote, wrote, wrote, end, receive, begin, block, wrote, wrote, wrote, end, look 4, look 1, look 2, look 3 | -, -, -, write 0, next, next, committed 1, -, -, -, -, write 0, next, next, committed 1, -, -, -, -, write 0, next, committed 1, -, -, -, -, write 0, no block, picked 0, scan 0 4096 63, listed, clean 0, done, true, write 0, next, next, committed 1, -, -, -, write 0, next, next, committed 1, -, at 4096, at 8192, miss, miss, zeros no
";

// What a life left stays in its blocks after their first pages, which a destroy cleans. The index of a block lists 170 records, so 170 puts
// fill it. A scan goes on after them, where the earlier life's second index of this block was. The 84 records of that index have greater
// sequences than the later life's.
pub const LIVES: &str =
    "nothing that an earlier life left in a block is found behind what a later one wrote there: each key's last put is answered, or a miss
memory blocks 8, pages 256, pool 4194304 < puts 0 699 old, wait, destroy, close / puts 170 254 new, puts 1000 1084 new, wait, close / gets 170 254 new, gets 1000 1084 new, gets 0 169 new, gets 255 699 new | queued 700 ok ok ok / queued 85 queued 85 ok ok / newest 85 missed 0 others 0 newest 85 missed 0 others 0 newest 0 missed 170 others 0 newest 0 missed 445 others 0
the same where the flushers have small buffers, and write the block in many batches
memory blocks 8, pages 256 < puts 0 699 old, wait, destroy, close / puts 170 254 new, puts 1000 1084 new, wait, close / gets 170 254 new, gets 1000 1084 new, gets 0 169 new, gets 255 699 new | queued 700 ok ok ok / queued 85 queued 85 ok ok / newest 85 missed 0 others 0 newest 85 missed 0 others 0 newest 0 missed 170 others 0 newest 0 missed 445 others 0
";
