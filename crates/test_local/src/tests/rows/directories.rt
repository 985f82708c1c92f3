//! Rows of engines over directories.

// Directories that are opened again, also with other sizes, and after their files were cut.
pub const REOPENED: &str =
    "what was written is found again; a delete is forgotten, since there is no log of it
engine again, 65536, 16384 < put 1 a, put 2 bb, wait, del 2, put 3 c, close | queued queued ok ok queued ok
engine again, 65536, 16384 < get 1, get 2, get 3, get 4, put 1 z, wait, get 1, close | a bb c miss queued ok z ok
engine again, 65536, 16384 < get 1, get 2, close | z bb ok
remove again | yes
a delete is forgotten by a reopening, and with a block clean none is reclaimed
engine forgotten, 32768, 16384 < put 1 a, wait, del 1, wait, close | queued ok ok ok ok
engine forgotten, 32768, 16384 < get 1, close | a ok
remove forgotten | yes
the sequence before the last is opened, and none is left for a put or a delete
forge near its end < index 0 1 18446744073709551614 4096 53 | yes
engine near its end, 16384, 16384 < put 2 b, del 1, close | SequenceEnd SequenceEnd ok
remove near its end | yes
what was deleted without a log counts for no sequence: the mark had 2, and what is put next has it
engine unmarked, 65536, 16384 < put 7 a, wait, del 7, wait, close | queued ok ok ok ok
engine unmarked, 65536, 16384 < get 7, put 2 b, wait, close | a queued ok ok
list unmarked, 65536, 16384 | block 0, entry 7 1 4096 53 wins, end no-index 8192, block 1, entry 2 2 4096 53 wins, end no-index 8192, block 2, end no-index 0, block 3, end no-index 0, status 0, stays yes
remove unmarked | yes
other sizes find what fits
engine sizes, 65536, 16384 < put 1 a, put 2 bb, put 3 c, wait, put 4 d, wait, close | queued queued queued ok queued ok ok
the second block isn't there any more, then there is a block more
engine sizes, 16384, 16384 < get 1, get 2, get 3, get 4, close | a bb c miss ok
engine sizes, 81920, 16384 < get 1, get 2, get 3, get 4, close | a bb c d ok
a longer block lists the same
engine sizes, 65536, 32768 < get 1, get 2, get 3, get 4, close | a bb c d ok
in a shorter one an entry of the index has no room
engine sizes, 32768, 8192 < get 1, get 2, get 3, get 4, close | miss miss miss d ok
remove sizes | yes
a file that was cut finds less
engine shorter, 32768, 16384 < put 1 a, put 2 bb, wait, close | queued queued ok ok
cut shorter/foyer-storage-direct-fs-00000000, 16384 | yes
engine shorter, 32768, 16384 < get 1, get 2, close | a bb ok
remove shorter | yes
engine shorter, 32768, 16384 < put 1 a, put 2 bb, wait, close | queued queued ok ok
cut shorter/foyer-storage-direct-fs-00000000, 12288 | yes
engine shorter, 32768, 16384 < get 1, get 2, close | a bb ok
remove shorter | yes
engine shorter, 32768, 16384 < put 1 a, put 2 bb, wait, close | queued queued ok ok
cut shorter/foyer-storage-direct-fs-00000000, 8192 | yes
engine shorter, 32768, 16384 < get 1, get 2, close | a miss ok
remove shorter | yes
engine shorter, 32768, 16384 < put 1 a, put 2 bb, wait, close | queued queued ok ok
cut shorter/foyer-storage-direct-fs-00000000, 4096 | yes
engine shorter, 32768, 16384 < get 1, get 2, close | miss miss ok
remove shorter | yes
engine shorter, 32768, 16384 < put 1 a, put 2 bb, wait, close | queued queued ok ok
cut shorter/foyer-storage-direct-fs-00000000, 4095 | yes
engine shorter, 32768, 16384 < get 1, get 2, close | miss miss ok
remove shorter | yes
engine shorter, 32768, 16384 < put 1 a, put 2 bb, wait, close | queued queued ok ok
cut shorter/foyer-storage-direct-fs-00000000, 1 | yes
engine shorter, 32768, 16384 < get 1, get 2, close | miss miss ok
remove shorter | yes
engine shorter, 32768, 16384 < put 1 a, put 2 bb, wait, close | queued queued ok ok
cut shorter/foyer-storage-direct-fs-00000000, 0 | yes
engine shorter, 32768, 16384 < get 1, get 2, close | miss miss ok
remove shorter | yes
one block of two is found and taken: what is found is evictable, and the oldest block goes first once a block is wanted
engine taken, 32768, 16384 < put 1 a, wait, close | queued ok ok
engine taken, 32768, 16384 < get 1, put 2 b, get 1, wait, get 1, get 2, close | a queued a ok miss b ok
engine taken, 32768, 16384 < get 1, get 2, close | miss b ok
remove taken | yes
a full directory keeps what it has until a put: opening and closing alone takes nothing
engine full, 16384, 16384 < put 1 a, wait, close | queued ok ok
engine full, 16384, 16384 < get 1, close | a ok
engine full, 16384, 16384 < get 1, close | a ok
engine full, 16384, 16384 < put 2 b, wait, get 1, get 2, close | queued ok miss b ok
remove full | yes
a destroyed directory has nothing but what came later
engine destroyed, 81920, 16384 < put 1 a, put 2 b, wait, put 3 c, destroy, get 1, get 2, get 3, put 4 d, wait, get 4, close | queued queued ok queued ok miss miss miss queued ok d ok
engine destroyed, 81920, 16384 < get 1, get 2, get 3, get 4, close | miss miss miss d ok
remove destroyed | yes
";

// Directories that are made or can't be opened, and what is filled far past its capacity.
pub const MADE: &str = "a directory is made with a file for each block
engine new cache/of this run, 49152, 16384 < put 1 a, put 2 bb, wait, get 1, get 2, del 1, get 1, put 2 c, close, get 2, put 3 d, close | queued queued ok a bb ok miss queued ok c Closed ok
length new cache/of this run/foyer-storage-direct-fs-00000000 | 16384
length new cache/of this run/foyer-storage-direct-fs-00000001 | 16384
length new cache/of this run/foyer-storage-direct-fs-00000002 | 16384
length new cache/of this run/foyer-storage-direct-fs-00000003 | missing
remove new cache | yes
a file in a directory's place is Io
file in the way | yes
engine in the way, 16384, 16384 < get 1 | refused Io
unlink in the way | yes
a directory in a file's place is Io
make barred/foyer-storage-direct-fs-00000001 | yes
engine barred, 32768, 16384 < get 1 | refused Io
remove barred | yes
a get past the end of a file that was cut is Io: the one record is the first 53 bytes of the block's second page
engine cut, 16384, 16384 < put 1 a, wait, get 1, cut 8191, get 1, cut 4149, get 1, cut 4148, get 1, cut 4096, get 1, cut 4095, get 1, cut 1, get 1, cut 0, get 1 | queued ok a yes a yes a yes Io yes Io yes Io yes Io yes Io
remove cut | yes
a fill of memory goes on past the capacity
zeros blocks 5 < fill 150 | filled 12
a fill of a directory goes on and the newest are found again: of five blocks one is kept clean, and a block has room for three records
engine filled, 81920, 16384 < fill 150, close | filled 12 ok
engine filled, 81920, 16384 < get 1, get 100, get 142, get 148, get 149, get 0, close | miss miss 142 148 149 long-text-150 ok
remove filled | yes
one block is filled again and again: it is the whole capacity
engine single, 16384, 16384 < fill 150, close | filled 3 ok
remove single | yes
calls are answered alike over memory, over a device in memory, and over a directory
zeros blocks 40 < mix | newest 22 missed 3 others 0
device blocks 40 < mix | newest 22 missed 3 others 0
engine alike, 655360, 16384 < mix | newest 22 missed 3 others 0
remove alike | yes
";

// Directories with a log of deletes.
pub const LOGGED: &str = "a log leaves so many blocks
room x, 65536, 16384, log | 3
room x, 65536, 16384 | 4
room x, 4210688, 4096, log | 1023
a log takes its pages before the blocks
engine log-first, 65536, 16384, log < put 1 a, wait | queued ok
length log-first/foyer-storage-direct-fs-00000000 | 4096
length log-first/foyer-storage-direct-fs-00000003 | 16384
remove log-first | yes
a delete lasts where there is a log
engine lasts, 65536, 16384, log < put 1 a, put 2 b, wait, del 2, wait, get 1, get 2 | queued queued ok ok ok a miss
engine lasts, 65536, 16384, log < get 1, get 2 | a miss
a delete lasts over two openings, too, if its flusher appended it behind a newer delete of another flusher
engine ordered, 131072, 16384, flushers 2, log < put 1 a, put 2 b, wait, del 1, del 2, wait | queued queued ok ok ok ok
engine ordered, 131072, 16384, flushers 2, log < del 3, wait | ok ok
engine ordered, 131072, 16384, flushers 2, log < get 1, get 2 | miss miss
remove ordered | yes
what is put next has the sequence behind that of the mark; the first file is the log
engine marked, 65536, 16384, log < put 7 a, wait, del 7, wait | queued ok ok ok
engine marked, 65536, 16384, log < get 7, put 2 b, wait | miss queued ok
list marked, 65536, 16384 | block 0, end no-index 0, block 1, entry 7 1 4096 53 wins, end no-index 8192, block 2, entry 2 3 4096 53 wins, end no-index 8192, block 3, end no-index 0, status 0, stays yes
remove marked | yes
what is put again has a greater sequence than the mark
engine lasts, 65536, 16384, log < put 2 bb, wait, get 2 | queued ok bb
engine lasts, 65536, 16384, log < get 1, get 2 | a bb
remove lasts | yes
what the log lacks is found again: a delete that no wait followed isn't in the log; without the log's marks a deleted text is found again
engine lacks, 65536, 16384, log < put 2 b, wait, del 2, get 2 | queued ok ok miss
engine lacks, 65536, 16384, log < get 2, del 2, wait | b ok ok
engine lacks, 65536, 16384, log < get 2 | miss
cut lacks/foyer-storage-direct-fs-00000000, 0 | yes
engine lacks, 65536, 16384, log < get 2 | b
remove lacks | yes
";

// What `foyerlist` prints of directories, which it leaves as they are.
pub const LISTED: &str =
    "a directory that was filled is listed and stays: two batches in the first block, the second of which writes a key again, and one in the second block
engine listed, 49152, 16384 < put 1 a, put 2 bb, wait, put 1 ccc, put 3 d, wait, close | queued queued ok queued queued ok ok
list listed, 49152, 16384 | block 0, entry 1 1 4096 53 loses, entry 2 2 8192 54 wins, entry 1 3 12288 55 wins, end block-end, block 1, entry 3 4 4096 53 wins, end no-index 8192, block 2, end no-index 0, status 0, stays yes
names listed | 3
remove listed | yes
a missing file and a short one are failed reads
engine broken, 49152, 16384 < put 1 a, put 2 bb, wait, put 1 ccc, put 3 d, wait, close | queued queued ok queued queued ok ok
unlink broken/foyer-storage-direct-fs-00000001 | yes
cut broken/foyer-storage-direct-fs-00000002, 4095 | yes
list broken, 49152, 16384 | block 0, entry 1 1 4096 53 loses, entry 2 2 8192 54 wins, entry 1 3 12288 55 wins, end block-end, block 1, end failed-read 0, block 2, end failed-read 0, status 0, stays yes
names broken | 2
cut broken/foyer-storage-direct-fs-00000002, 0 | yes
list broken, 49152, 16384 | block 0, entry 1 1 4096 53 loses, entry 2 2 8192 54 wins, entry 1 3 12288 55 wins, end block-end, block 1, end failed-read 0, block 2, end failed-read 0, status 0, stays yes
names broken | 2
remove broken | yes
a file that was cut behind an index ends by a failed read: the entry's index is there, but not the whole page behind its record
engine shortened, 49152, 16384 < put 1 a, put 2 bb, wait, put 1 ccc, put 3 d, wait, close | queued queued ok queued queued ok ok
cut shortened/foyer-storage-direct-fs-00000001, 12287 | yes
list shortened, 49152, 16384 | block 0, entry 1 1 4096 53 loses, entry 2 2 8192 54 wins, entry 1 3 12288 55 wins, end block-end, block 1, entry 3 4 4096 53 wins, end failed-read 8192, block 2, end no-index 0, status 0, stays yes
names shortened | 3
remove shortened | yes
a directory that is not there is not made
list nowhere, 32768, 16384 | block 0, end failed-read 0, block 1, end failed-read 0, status 0, stays yes
length nowhere | missing
entries behind a fall are dropped
forge fallen < index 0 1 5 4096 53, 2 6 8192 60, 3 4 4096 53, 4 7 8192 61 | yes
list fallen, 16384, 16384 | block 0, entry 1 5 4096 53 wins, entry 2 6 8192 60 wins, entry 3 4 4096 53 dropped, entry 4 7 8192 61 dropped, end no-index 12288, status 0, stays yes
remove fallen | yes
the last sequence is a fault as in an opening
forge at its end < index 0 1 18446744073709551615 4096 53 | yes
list at its end, 16384, 16384 | fault SequenceEnd, status 1, stays yes
remove at its end | yes
memory and other bad words are named, and the usage printed
list :memory:, 16384, 16384 | errors foyerlist: no directory: :memory:, errors usage: foyerlist DIR CAPACITY BLOCK, status 2, stays yes
list listed, 16384 | errors foyerlist: DIR, CAPACITY or BLOCK is missing, or a word isn't UTF-8, errors usage: foyerlist DIR CAPACITY BLOCK, status 2, stays yes
list listed, 16384, 16384, 1 | errors foyerlist: one word too many: 1, errors usage: foyerlist DIR CAPACITY BLOCK, status 2, stays yes
list listed, 16384, x | errors foyerlist: no number of bytes: x, errors usage: foyerlist DIR CAPACITY BLOCK, status 2, stays yes
sizes are refused before a file is opened
list unlisted, 4096, 16384 | fault Config, status 1, stays yes
list unlisted, 16384, 0 | fault Config, status 1, stays yes
list unlisted, 16384, 4096 | fault Config, status 1, stays yes
a file in the directory's place is Io and stays
file no directory | yes
list no directory, 16384, 16384 | fault Io, errors foyerlist: no directory: a file of a block couldn't be opened: Io, status 1, stays yes
text no directory | a file
unlink no directory | yes
";

// Each get has its moment in nanoseconds. Counters are the bytes written and read, and the calls that wrote and read.
pub const LIMITED: &str =
    "each access of a script is counted: a batch of one record writes its page, a page of zeros behind it, and then the page of its index
engine counted, 32768, 16384, unread, unlimited < counters, put 1 a, get 1 0, counters, wait, counters, get 1 0, get 2 0, counters, del 1, get 1 0, close, counters | 0 0 0 0 queued miss 0 0 0 0 ok 12288 0 3 0 a miss 12288 53 3 1 ok miss ok 12288 53 3 1
remove counted | yes
an opening and a destroy are counted: an opening reads the first index of each block, and where one stands, that behind its record; a destroy cleans each
engine opened, 32768, 16384, unread, unlimited < put 1 a, wait | queued ok
engine opened, 32768, 16384, 1024-an-access < counters, destroy, counters | 0 12288 0 12 ok 8192 12288 8 12
remove opened | yes
a limit of reads throttles until it is filled
engine limited, 32768, 16384, unread, one-read < put 1 a, wait, get 1 0, get 1 0, get 1 999999999, get 1 1000000000, get 1 1000000000, get 2 1000000000, counters | queued ok a throttled throttled a throttled miss 12288 106 3 2
engine limited, 32768, 16384, unread, 27-bytes < put 1 b, wait, get 1 0, get 1 1000000000, get 1 2000000000 | queued ok b throttled b
remove limited | yes
without a limit of reads nothing is throttled
engine unlimited, 32768, 16384, unread, unlimited < put 1 a, wait, get 1 0, get 1 0, get 1 0, get 1 0, counters | queued ok a a a a 12288 212 3 4
engine unlimited, 32768, 16384, unread, one-write < put 1 a, wait, get 1 0, get 1 0, get 1 0, get 1 0, counters | queued ok a a a a 12288 212 3 4
remove unlimited | yes
a read that fails is counted too
engine failing, 32768, 16384, unread, one-read < put 1 a, wait, cut 4096, get 1 0, counters, get 1 0, counters | queued ok yes Io 12288 53 3 1 throttled 12288 53 3 1
remove failing | yes
";
