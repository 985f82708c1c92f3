//! Lines of a client, and what memcached 1.6.18 replied to them: each row to a server that was started for it. `~` stands for a carriage return and a
//! line feed.
use crate::answer::answer;
use crate::command::{Command, Limits};
use crate::input::{Input, Taken};
use crate::item::Item;
use crate::reply::Notice;
use crate::turn::seen;
use std::alloc::{AllocError, Global};
use std::test::*;

const LIMITS: Limits = Limits {
    line: 2048,
    get_line: 2048,
    item: 1024,
};

const NOW: u32 = 1_000_000_000;

const ROWS: &str =
    "set k 7 0 3~abc~get k~gets k nok k~ => STORED~VALUE k 7 3~abc~END~VALUE k 7 3 1~abc~VALUE k 7 3 1~abc~END~
get~ => ERROR~
get nok~ => END~
set k 0 0 1 x~5~set k 0 0 1 x y~ => STORED~ERROR~
set k 0 0 1 noreply~5~get k~ => VALUE k 0 1~5~END~
set k 0 0~ => ERROR~
set k 0 0 x~ => CLIENT_ERROR bad command line format~
set k x 0 1 noreply~ => 
set k 0 0 -1~ => CLIENT_ERROR bad command line format~
set k 0 -1 1~5~get k~ => STORED~END~
set k 0 0 1~abc~ => CLIENT_ERROR bad data chunk~ERROR~
set k 0 0 1 noreply~abc~ => ERROR~
add k 0 0 1~a~add k 0 0 1~b~get k~ => STORED~NOT_STORED~VALUE k 0 1~a~END~
replace k 0 0 1~a~set k 0 0 1~b~replace k 3 0 1~c~get k~ => NOT_STORED~STORED~STORED~VALUE k 3 1~c~END~
append k 0 0 1~a~set k 5 0 1~b~append k 9 0 2~cd~get k~ => NOT_STORED~STORED~STORED~VALUE k 5 3~bcd~END~
prepend k 0 0 1~a~set k 5 0 1~b~prepend k 9 0 2~cd~get k~ => NOT_STORED~STORED~STORED~VALUE k 5 3~cdb~END~
cas k 0 0 1 1~a~set k 0 0 1~b~cas k 0 0 1 99~c~get k~ => NOT_FOUND~STORED~EXISTS~VALUE k 0 1~b~END~
set k 4 0 1~b~cas k 5 0 1 1~c~get k~ => STORED~STORED~VALUE k 5 1~c~END~
cas k 0 0 1 x~ => CLIENT_ERROR bad command line format~
delete k~set k 0 0 1~a~delete k~get k~delete k~ => NOT_FOUND~STORED~DELETED~END~NOT_FOUND~
delete k 0~delete k noreply~delete k 0 noreply~delete k x~delete k x noreply~delete k 0 x y~delete~ => NOT_FOUND~CLIENT_ERROR bad command line format.  Usage: delete <key> [noreply]~ERROR~ERROR~
incr k 1~set k 3 0 2~99~incr k 1~get k~decr k 91~get k~decr k 100~ => NOT_FOUND~STORED~100~VALUE k 3 3~100~END~9~VALUE k 3 3~9  ~END~0~
set k 0 0 20~18446744073709551615~incr k 2~get k~ => STORED~1~VALUE k 0 20~1                   ~END~
set k 0 0 1~x~incr k 1~set k 0 0 3~5  ~incr k 1~get k~ => STORED~CLIENT_ERROR cannot increment or decrement non-numeric value~STORED~6~VALUE k 0 3~6  ~END~
incr k x~incr k x noreply~incr k -1~incr k~incr k 1 x y~set k 0 0 1~1~incr k 1 x~incr k 1 noreply~get k~ => CLIENT_ERROR invalid numeric delta argument~CLIENT_ERROR invalid numeric delta argument~ERROR~ERROR~STORED~2~VALUE k 0 1~3~END~
touch k 10~set k 0 0 1~a~touch k 10~touch k 10 x~touch k 10 noreply~touch k x~touch k x noreply~touch k 1 x y~ => NOT_FOUND~STORED~TOUCHED~TOUCHED~CLIENT_ERROR invalid exptime argument~ERROR~
set k 1 0 1~a~gat 10 k nok~gats 0 k~gat x k~ => STORED~VALUE k 1 1~a~END~VALUE k 1 1 1~a~END~CLIENT_ERROR invalid exptime argument~
set k 0 0 1~a~touch k -1~get k~ => STORED~TOUCHED~END~
flush_all noreply~flush_all x~flush_all x noreply~flush_all 1 x y~flush_all noreply x~ => CLIENT_ERROR invalid exptime argument~ERROR~CLIENT_ERROR invalid exptime argument~
verbosity 1~verbosity 1 x~verbosity 1 noreply~verbosity~verbosity x~verbosity x noreply~verbosity 1 x y~verbosity noreply~ => OK~OK~ERROR~CLIENT_ERROR bad command line format~ERROR~
version~version x~ => VERSION 1.6.18~VERSION 1.6.18~
mn~mn x~ => MN~MN~
~ ~x~GETS k~ => ERROR~ERROR~ERROR~ERROR~
quit~get k~ => 
GET / HTTP/1.1~get k~ => 
HTTP/1.0~get k~ => 
put HTTP/1.1 x~get nok~ => ERROR~END~
  get   nok ~ => END~
me nok~me~ => EN~CLIENT_ERROR bad command line format~
mg k~mg k q~mg k v q~mg k k Oxy~mg~mn~ => EN~EN kk Oxy~ERROR~MN~
set k 7 0 3~abc~mg k~mg k v~mg k q~mg k s v t f k Oab q~mg k O~ => STORED~HD~VA 3~abc~HD~VA 3 s3 t-1 f7 kk Oab~abc~HD O~
set k 7 0 3~abc~mg k T30 t~mg k t T60~mg k t~mg k T0 t~mg k T-1~mg k v~ => STORED~HD t30~HD t30~HD t60~HD t-1~HD~EN~
mg k v v~mg k j~mg k Y~mg k E5~mg k Tx~mg k T~mg k Cx~mg k Fx~mg k M~mg k Jx~mg k D~ => CLIENT_ERROR duplicate flag~CLIENT_ERROR invalid flag~CLIENT_ERROR invalid flag~CLIENT_ERROR invalid flag~CLIENT_ERROR bad token in command line format~CLIENT_ERROR bad token in command line format~CLIENT_ERROR bad token in command line format~CLIENT_ERROR bad command line format~CLIENT_ERROR incorrect length for M token~CLIENT_ERROR invalid numeric initial value~CLIENT_ERROR invalid numeric delta value~
mg k O1234567890123456789012345678901~mg k O12345678901234567890123456789012~ => EN O1234567890123456789012345678901~CLIENT_ERROR opaque token too long~
mg k u P1 L2~ => EN~
ms k 2~hi~mg k v f t~ms k 2 F5 T100~yo~mg k v f t~ => HD~VA 2 f0 t-1~hi~HD~VA 2 f5 t100~yo~
ms k 2 q~hi~ms k 2 k O9 s t v~hi~ms k 2 c~hi~ => HD kk O9~HD c3~
ms k 2 ME~hi~ms k 2 ME q k~ho~ms k 2 MA~yo~ms k 2 MP~xx~mg k v~ms k 2 MR~rr~mg k v~ms k 2 MS~ss~get k~ => HD~NS kk~HD~HD~VA 6~xxhiyo~HD~VA 2~rr~HD~VALUE k 0 2~ss~END~
ms k 2 MR k O1~rr~ms k 2 MA~rr~ms k 2 MP q~rr~ms k 2 C1~rr~mg k v~ => NS kk O1~NS~NS~NF~EN~
ms k 2~hi~ms k 2 C99~ho~ms k 2 C99 q~ho~ms k 2 C1~ha~mg k v~ => HD~EX~EX~HD~VA 2~ha~
ms k 2~hi~ms k 2 MA C99~ho~ms k 2 MA C1~ho~mg k v~ms k 2 ME C1~ho~ => HD~EX~HD~VA 4~hiho~NS~
ms k 2 MX~hi~ms k 2 M~hi~ms k 2 Cx~hi~ms k 2 Fx~hi~ms k 2 v v~hi~ms k 2 j~hi~mg k v~ => CLIENT_ERROR invalid mode for ms M token~CLIENT_ERROR incorrect length for M token~CLIENT_ERROR bad token in command line format~CLIENT_ERROR bad command line format~CLIENT_ERROR duplicate flag~CLIENT_ERROR invalid flag~EN~
ms~ms k~ms k x~ms k -1~ => ERROR~CLIENT_ERROR bad command line format~CLIENT_ERROR bad command line format~CLIENT_ERROR bad command line format~
ms k 2~hix~ms k 2 q~hix~ => CLIENT_ERROR bad data chunk~ERROR~CLIENT_ERROR bad data chunk~ERROR~
md k~md k q~md k k Ox~set k 0 0 1~a~md k C99~md k C99 q k~md k C1 k Ox~mg k v~ => NF~NF~NF kk Ox~STORED~EX~EX kk~HD kk Ox~EN~
set k 0 0 1~a~md k q~mn~md k j~md k v v~md k Tx~md~ => STORED~MN~CLIENT_ERROR invalid or duplicate flag~CLIENT_ERROR invalid or duplicate flag~CLIENT_ERROR invalid or duplicate flag~ERROR~
ma k~ma k q~ma k k Ox v~set k 3 0 1~5~ma k~ma k v~ma k D10 v~ma k MD D3 v~ma k M- v~ma k M+ v~ma k MI v~get k~ => NF~NF~NF kk Ox~STORED~HD~VA 1~7~VA 2~17~VA 2~14~VA 2~13~VA 2~14~VA 2~15~VALUE k 3 2~15~END~
set k 0 0 2~10~ma k MD v~ma k MD D20 v t k Oq~ma k q~ma k q v~mg k v~ => STORED~VA 1~9~VA 1 t-1 kk Oq~0~VA 2~2 ~
set k 0 0 1~x~ma k~ma k q~ma k v~ma k MX~ma k j~ma k Nx~ma k Dx~ma~ => STORED~CLIENT_ERROR cannot increment or decrement non-numeric value~CLIENT_ERROR cannot increment or decrement non-numeric value~CLIENT_ERROR cannot increment or decrement non-numeric value~CLIENT_ERROR invalid mode for ma M token~CLIENT_ERROR invalid or duplicate flag~CLIENT_ERROR invalid or duplicate flag~CLIENT_ERROR invalid or duplicate flag~ERROR~
set k 0 0 1~5~ma k C99~ma k C99 q~ma k C99 k Oo~ma k C1 v~ma k T30 t v~mg k t v~ => STORED~EX~EX~EX kk Oo~VA 1~6~VA 1 t30~7~VA 1 t30~7~
ma k N30 J13 v t~ma k v~mg k t v~ => VA 2 t30~13~VA 2~14~VA 2 t30~14~
ma k N0~mg k v t~ma k J5~ => HD~VA 1 t-1~0~HD~
set k 0 0 20~18446744073709551615~ma k D2 v~ => STORED~VA 1~1~
set k 5 100 1~a~append k 9 7 1~b~mg k t f v~gat 0 k~mg k t~ => STORED~STORED~VA 2 t100 f5~ab~VALUE k 5 2~ab~END~HD t-1~
delete k noreply x~delete k 0 0~delete k 0 noreply x~ => CLIENT_ERROR bad command line format.  Usage: delete <key> [noreply]~CLIENT_ERROR bad command line format.  Usage: delete <key> [noreply]~ERROR~
set k 0 0 0~~get k~incr k 1~ => STORED~VALUE k 0 0~~END~CLIENT_ERROR cannot increment or decrement non-numeric value~
set k 0 0 21~000000000000000000005~incr k 1~get k~ => STORED~6~VALUE k 0 21~6                    ~END~
set k 0 0 20~18446744073709551616~incr k 1~incr k 18446744073709551616~ => STORED~CLIENT_ERROR cannot increment or decrement non-numeric value~CLIENT_ERROR invalid numeric delta argument~
cas k 0 0 1~cas k 0 0 1 18446744073709551616~set k 0 99999999999999999999 1~ => ERROR~CLIENT_ERROR bad command line format~CLIENT_ERROR bad command line format~
get kkkkkkkkkkkkkkkkkkkkkkkkkkkkkkkkkkkkkkkkkkkkkkkkkkkkkkkkkkkkkkkkkkkkkkkkkkkkkkkkkkkkkkkkkkkkkkkkkkkkkkkkkkkkkkkkkkkkkkkkkkkkkkkkkkkkkkkkkkkkkkkkkkkkkkkkkkkkkkkkkkkkkkkkkkkkkkkkkkkkkkkkkkkkkkkkkkkkkkkkkkkkkkkkkkkkkkkkkkkkkkkkkkkkkkkkkkkkkkkkkkkkkkkkkk~get kkkkkkkkkkkkkkkkkkkkkkkkkkkkkkkkkkkkkkkkkkkkkkkkkkkkkkkkkkkkkkkkkkkkkkkkkkkkkkkkkkkkkkkkkkkkkkkkkkkkkkkkkkkkkkkkkkkkkkkkkkkkkkkkkkkkkkkkkkkkkkkkkkkkkkkkkkkkkkkkkkkkkkkkkkkkkkkkkkkkkkkkkkkkkkkkkkkkkkkkkkkkkkkkkkkkkkkkkkkkkkkkkkkkkkkkkkkkkkkkkkkkkkkkkkk~mn~ => END~CLIENT_ERROR bad command line format~MN~
delete kkkkkkkkkkkkkkkkkkkkkkkkkkkkkkkkkkkkkkkkkkkkkkkkkkkkkkkkkkkkkkkkkkkkkkkkkkkkkkkkkkkkkkkkkkkkkkkkkkkkkkkkkkkkkkkkkkkkkkkkkkkkkkkkkkkkkkkkkkkkkkkkkkkkkkkkkkkkkkkkkkkkkkkkkkkkkkkkkkkkkkkkkkkkkkkkkkkkkkkkkkkkkkkkkkkkkkkkkkkkkkkkkkkkkkkkkkkkkkkkkkkkkkkkkkk~delete kkkkkkkkkkkkkkkkkkkkkkkkkkkkkkkkkkkkkkkkkkkkkkkkkkkkkkkkkkkkkkkkkkkkkkkkkkkkkkkkkkkkkkkkkkkkkkkkkkkkkkkkkkkkkkkkkkkkkkkkkkkkkkkkkkkkkkkkkkkkkkkkkkkkkkkkkkkkkkkkkkkkkkkkkkkkkkkkkkkkkkkkkkkkkkkkkkkkkkkkkkkkkkkkkkkkkkkkkkkkkkkkkkkkkkkkkkkkkkkkkkkkkkkkkkk noreply~incr kkkkkkkkkkkkkkkkkkkkkkkkkkkkkkkkkkkkkkkkkkkkkkkkkkkkkkkkkkkkkkkkkkkkkkkkkkkkkkkkkkkkkkkkkkkkkkkkkkkkkkkkkkkkkkkkkkkkkkkkkkkkkkkkkkkkkkkkkkkkkkkkkkkkkkkkkkkkkkkkkkkkkkkkkkkkkkkkkkkkkkkkkkkkkkkkkkkkkkkkkkkkkkkkkkkkkkkkkkkkkkkkkkkkkkkkkkkkkkkkkkkkkkkkkkk 1~touch kkkkkkkkkkkkkkkkkkkkkkkkkkkkkkkkkkkkkkkkkkkkkkkkkkkkkkkkkkkkkkkkkkkkkkkkkkkkkkkkkkkkkkkkkkkkkkkkkkkkkkkkkkkkkkkkkkkkkkkkkkkkkkkkkkkkkkkkkkkkkkkkkkkkkkkkkkkkkkkkkkkkkkkkkkkkkkkkkkkkkkkkkkkkkkkkkkkkkkkkkkkkkkkkkkkkkkkkkkkkkkkkkkkkkkkkkkkkkkkkkkkkkkkkkkk 1~mg kkkkkkkkkkkkkkkkkkkkkkkkkkkkkkkkkkkkkkkkkkkkkkkkkkkkkkkkkkkkkkkkkkkkkkkkkkkkkkkkkkkkkkkkkkkkkkkkkkkkkkkkkkkkkkkkkkkkkkkkkkkkkkkkkkkkkkkkkkkkkkkkkkkkkkkkkkkkkkkkkkkkkkkkkkkkkkkkkkkkkkkkkkkkkkkkkkkkkkkkkkkkkkkkkkkkkkkkkkkkkkkkkkkkkkkkkkkkkkkkkkkkkkkkkkk~md kkkkkkkkkkkkkkkkkkkkkkkkkkkkkkkkkkkkkkkkkkkkkkkkkkkkkkkkkkkkkkkkkkkkkkkkkkkkkkkkkkkkkkkkkkkkkkkkkkkkkkkkkkkkkkkkkkkkkkkkkkkkkkkkkkkkkkkkkkkkkkkkkkkkkkkkkkkkkkkkkkkkkkkkkkkkkkkkkkkkkkkkkkkkkkkkkkkkkkkkkkkkkkkkkkkkkkkkkkkkkkkkkkkkkkkkkkkkkkkkkkkkkkkkkkk~ma kkkkkkkkkkkkkkkkkkkkkkkkkkkkkkkkkkkkkkkkkkkkkkkkkkkkkkkkkkkkkkkkkkkkkkkkkkkkkkkkkkkkkkkkkkkkkkkkkkkkkkkkkkkkkkkkkkkkkkkkkkkkkkkkkkkkkkkkkkkkkkkkkkkkkkkkkkkkkkkkkkkkkkkkkkkkkkkkkkkkkkkkkkkkkkkkkkkkkkkkkkkkkkkkkkkkkkkkkkkkkkkkkkkkkkkkkkkkkkkkkkkkkkkkkkk~me kkkkkkkkkkkkkkkkkkkkkkkkkkkkkkkkkkkkkkkkkkkkkkkkkkkkkkkkkkkkkkkkkkkkkkkkkkkkkkkkkkkkkkkkkkkkkkkkkkkkkkkkkkkkkkkkkkkkkkkkkkkkkkkkkkkkkkkkkkkkkkkkkkkkkkkkkkkkkkkkkkkkkkkkkkkkkkkkkkkkkkkkkkkkkkkkkkkkkkkkkkkkkkkkkkkkkkkkkkkkkkkkkkkkkkkkkkkkkkkkkkkkkkkkkkk~mn~ => CLIENT_ERROR bad command line format~CLIENT_ERROR bad command line format~CLIENT_ERROR bad command line format~CLIENT_ERROR bad command line format~CLIENT_ERROR bad command line format~CLIENT_ERROR bad command line format~CLIENT_ERROR bad command line format~MN~
set kkkkkkkkkkkkkkkkkkkkkkkkkkkkkkkkkkkkkkkkkkkkkkkkkkkkkkkkkkkkkkkkkkkkkkkkkkkkkkkkkkkkkkkkkkkkkkkkkkkkkkkkkkkkkkkkkkkkkkkkkkkkkkkkkkkkkkkkkkkkkkkkkkkkkkkkkkkkkkkkkkkkkkkkkkkkkkkkkkkkkkkkkkkkkkkkkkkkkkkkkkkkkkkkkkkkkkkkkkkkkkkkkkkkkkkkkkkkkkkkkkkkkkkkkkk 0 0 1 noreply~5~ms kkkkkkkkkkkkkkkkkkkkkkkkkkkkkkkkkkkkkkkkkkkkkkkkkkkkkkkkkkkkkkkkkkkkkkkkkkkkkkkkkkkkkkkkkkkkkkkkkkkkkkkkkkkkkkkkkkkkkkkkkkkkkkkkkkkkkkkkkkkkkkkkkkkkkkkkkkkkkkkkkkkkkkkkkkkkkkkkkkkkkkkkkkkkkkkkkkkkkkkkkkkkkkkkkkkkkkkkkkkkkkkkkkkkkkkkkkkkkkkkkkkkkkkkkkk 1~5~set kkkkkkkkkkkkkkkkkkkkkkkkkkkkkkkkkkkkkkkkkkkkkkkkkkkkkkkkkkkkkkkkkkkkkkkkkkkkkkkkkkkkkkkkkkkkkkkkkkkkkkkkkkkkkkkkkkkkkkkkkkkkkkkkkkkkkkkkkkkkkkkkkkkkkkkkkkkkkkkkkkkkkkkkkkkkkkkkkkkkkkkkkkkkkkkkkkkkkkkkkkkkkkkkkkkkkkkkkkkkkkkkkkkkkkkkkkkkkkkkkkkkkkkkkk 0 0 1 noreply~5~mn~ => ERROR~CLIENT_ERROR bad command line format~ERROR~MN~
mg k vx~mg k foo~mg k kx O~ => EN~EN~EN kk O~
ms k 2 S5~hi~ms k 2 F-1~hi~ms k 2 Tx~hi~ms k 2 T-1~hi~mg k v~ => CLIENT_ERROR invalid flag~CLIENT_ERROR bad command line format~CLIENT_ERROR bad token in command line format~HD~EN~
ma k T50 N30 v t~mg k t~ => VA 1 t30~0~HD t30~
md k O12345678901234567890123456789012~ma k O12345678901234567890123456789012~ma k j O12345678901234567890123456789012~mn~ => CLIENT_ERROR opaque token too long~CLIENT_ERROR opaque token too long~CLIENT_ERROR invalid or duplicate flag~MN~
";

// What is kept under the key `k`, and how many items were kept there.
#[derive(Drop)]
struct Store {
    item: Option<Vec<u8>>,
    count: u64,
}

fn key_of<'a>(command: Command<'a>) -> &'a [u8] {
    match command {
        Command::Store { how, .. } | Command::TooLarge { how } | Command::MetaStore { how, .. } => {
            how.key
        }
        Command::Delete { key, .. }
        | Command::Count { key, .. }
        | Command::Touch { key, .. }
        | Command::MetaGet { key, .. }
        | Command::MetaDelete { key, .. }
        | Command::MetaCount { key, .. }
        | Command::MetaShow { key, .. } => key,
        _ => b"",
    }
}

fn found_in<'a>(store: &'a Store, key: &[u8]) -> Option<Item<'a>> {
    if key != b"k".as_slice() {
        return None;
    }
    match &store.item {
        Some(bytes) => seen(NOW, Item::decode(bytes.as_slice())),
        None => None,
    }
}

// Answers for one key.
fn say_one(
    alloc: Global,
    command: Command<'_>,
    key: &[u8],
    store: &mut Store,
    out: &mut Vec<u8>,
) -> Result<(), AllocError> {
    let cas = store.count.saturating_add(1);
    let about = b"VERSION 1.6.18\r\n";
    let put = answer(
        alloc,
        NOW,
        cas,
        about,
        command,
        key,
        found_in(store, key),
        out,
    )?;
    if put.is_some() {
        store.item = put;
        store.count = cas;
    }
    Ok(())
}

// Answers for each key.
fn say(
    alloc: Global,
    command: Command<'_>,
    store: &mut Store,
    out: &mut Vec<u8>,
) -> Result<(), AllocError> {
    match command {
        Command::Get { keys, .. } | Command::GetTouch { keys, .. } => {
            let mut keys = keys;
            for _ in 0..9 {
                match keys.next() {
                    Some(key) => say_one(alloc, command, key, store, out)?,
                    None => break,
                }
            }
            Notice::End.write(out)
        }
        other => say_one(alloc, other, key_of(other), store, out),
    }
}

// Answers all commands of a client.
fn talk(alloc: Global, bytes: &[u8], out: &mut Vec<u8>) -> Result<(), AllocError> {
    let mut store = Store {
        item: None,
        count: 0,
    };
    let mut input = Input::new(bytes, LIMITS);
    for _ in 0..99 {
        match input.take() {
            Taken::Command(Command::Quit) => break,
            Taken::Command(command) => say(alloc, command, &mut store, out)?,
            Taken::Partial | Taken::Refused => break,
        }
    }
    Ok(())
}

// The bytes that a text stands for.
fn bytes_of(alloc: Global, text: &str) -> Result<Vec<u8>, AllocError> {
    let mut bytes = Vec::new(alloc);
    for byte in text.as_bytes() {
        if *byte == b'~' {
            bytes.extend_from_slice(b"\r\n")?;
        } else {
            bytes.push(*byte)?;
        }
    }
    Ok(bytes)
}

// Whether a row's lines are answered as the row says.
fn is_answered(alloc: Global, row: &str) -> Result<bool, AllocError> {
    let Some((lines, reply)) = row.split_once(" => ") else {
        return Ok(false);
    };
    let mut out = Vec::new(alloc);
    talk(alloc, bytes_of(alloc, lines)?.as_slice(), &mut out)?;
    Ok(out == bytes_of(alloc, reply)?)
}

#[test]
fn lines_are_answered_as_memcached_does(rt: HostRuntime) -> Result<(), Fail> {
    for row in ROWS.lines() {
        let is_same = is_answered(rt.alloc(), row).ok().ok_or("memory")?;
        assert!(rt; is_same, "{row}");
    }
    Ok(())
}
