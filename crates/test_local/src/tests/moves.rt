//! Runs of moves that reclaim blocks, have records written again, and destroy.
use crate::tests::asked::{cut, number_of};
use crate::tests::memories::Memory;
use crate::tests::over::{Over, USUAL, over_of};
use foyer_block_manager::block::eviction::EvictionPicker;
use foyer_core_run::moves::{Move, run};
use foyer_core_steps::apply::Env;
use foyer_core_steps::open::RecoverMode;
use foyer_core_steps::reply::Reply;
use foyer_core_steps::state::Core;
use foyer_device_page::error::{Error, ErrorKind, Result};
use foyer_format_record::serde::NoProperties;
use foyer_io_disk::disk::Disk;
use foyer_policy_filter::StorageFilterCondition;
use foyer_policy_piece::keeper::{Piece, PieceRef};
use foyer_testing::refusing::Refusing;
use foyer_testing::said::Said;
use std::alloc::{Allocator, Global};
use std::rt::Files;
use std::sync::Wait;
use std::test::Fail;

type TextMove<A> = Move<u64, String<A>, NoProperties, A>;

type TextReply<A> = Reply<u64, String<A>, NoProperties, A>;

type TextCore<A> = Core<u64, String<A>, NoProperties, A>;

// Three records fill a block, which the second batch leaves: the block has two writes, and the one of the second batch has three,
// since zeros are written behind its record. The long text is admitted.
const FIRST: &str =
    "put 1 a long text, put 2 b, put 3 c, receive, receive, receive, begin, block, wrote, wrote, end, put 4 d, receive, begin, block, block, wrote, wrote, wrote, end";

// The block is reclaimed, and the long text written again.
const AGAIN: &str =
    "read 0, reclaimed 0, reclaim, read 1, forget 0, read 0, read 0, read 0, reclaimed 0, forget 0, cleaned 1, reclaimed 0, reclaimed 0, idle, receive, begin, block, wrote, wrote, wrote, end, look 1, load 0, look 2, look 4, load 1";

// The only flusher's moves, and those of reclaims and destroys, by a word and the number of a key, a ticket or a block.
fn plain_move<A: Allocator>(word: &str, number: u64) -> TextMove<A> {
    let block = number.min(u64::from(u32::MAX)) as u32;
    let hash = number;
    let flusher = 0;
    match word {
        "receive" => Move::Receive { flusher },
        "begin" => Move::FlushBegin { flusher },
        "block" => Move::FlushBlock { flusher },
        "wrote" => Move::FlushWrote { flusher },
        "end" => Move::FlushEnd { flusher },
        "ask" => Move::MayContains { hash },
        "look" => Move::LoadBegin {
            hash,
            throttled: false,
        },
        "load" => Move::LoadEnd {
            ticket: block as usize,
        },
        "reclaim" => Move::ReclaimBegin,
        "read" => Move::ReclaimRead { block },
        "forget" => Move::ReclaimForget { block },
        "reclaimed" => Move::ReclaimCleaned { block },
        "idle" => Move::ReclaimIdle,
        "destroy" => Move::DestroyBegin,
        "clear" => Move::DestroyClear,
        "cleaned" => Move::DestroyCleaned { block },
        _ => Move::Close,
    }
}

fn push_line<A: Allocator + Clone>(
    heap: &A,
    moves: &mut Vec<TextMove<A>, A>,
    line: &str,
) -> Result<()> {
    let (word, rest) = cut(line);
    let (first, text) = cut(rest);
    let key = number_of(first);
    if word != "put" {
        moves.push(plain_move(word, key))?;
        return Ok(());
    }
    let value = String::from_str(heap.clone()?, text)?;
    let piece = Piece::new(heap.clone()?, key, value, key, NoProperties)?;
    let piece = PieceRef::from(piece);
    moves.push(Move::Enqueue { piece, size: 1 })?;
    Ok(())
}

// The lines that a word of a script stands for.
fn lines_of(part: &str) -> &str {
    match part {
        "first" => FIRST,
        "again" => AGAIN,
        other => other,
    }
}

// The moves that a script names, one after each comma.
fn moves_of<A: Allocator + Clone>(heap: &A, script: &str) -> Result<Vec<TextMove<A>, A>> {
    let mut moves = Vec::new(heap.clone()?);
    for part in script.split(", ") {
        for line in lines_of(part).split(", ") {
            push_line(heap, &mut moves, line)?;
        }
    }
    Ok(moves)
}

fn say_kind(said: &mut Said, word: &str, kind: ErrorKind) {
    said.word(word);
    said.word(kind.name());
}

fn say_scan(said: &mut Said, block: u32, offset: usize, len: usize) {
    said.number("scan ", u64::from(block));
    said.number(" ", offset as u64);
    said.number(" ", len as u64);
}

fn say_entry(said: &mut Said, key: u64, text: &str) {
    said.number("", key);
    said.word(" is ");
    said.word(text);
}

// Describes a reply, with the blocks and parts that it names.
fn describe<A: Allocator>(said: &mut Said, reply: &TextReply<A>) {
    match reply {
        Reply::NotNow(_) => said.word("not now"),
        Reply::Refused(kind, _) => say_kind(said, "refused ", *kind),
        Reply::Done => said.word("done"),
        Reply::Answer(is) => said.word(if *is { "true" } else { "false" }),
        Reply::Miss => said.word("miss"),
        Reply::Read(ticket) => said.number("at ", u64::from(ticket.address.offset)),
        Reply::Entry { key, value, .. } => say_entry(said, *key, value.as_str()),
        Reply::Write { block, .. } => said.number("write ", u64::from(*block)),
        Reply::NoBlock => said.word("no block"),
        Reply::Next => said.word("next"),
        Reply::Committed(count) => said.number("committed ", *count as u64),
        Reply::Picked { block, .. } => said.number("picked ", u64::from(*block)),
        Reply::Scan {
            block,
            offset,
            len,
            ..
        } => say_scan(said, *block, *offset, *len),
        Reply::Listed { .. } => said.word("listed"),
        Reply::Clean(block) => said.number("clean ", u64::from(*block)),
        Reply::Cleared => said.word("cleared"),
        Reply::Destroyed(None) => said.word("destroyed None"),
        Reply::Destroyed(Some(kind)) => say_kind(said, "destroyed ", *kind),
        Reply::Ignored(_)
        | Reply::Queued(_)
        | Reply::Dropped(_, _)
        | Reply::Deleted(_)
        | Reply::Throttled
        | Reply::Empty
        | Reply::Received(_)
        | Reply::Began { .. }
        | Reply::Failed
        | Reply::Ended { .. }
        | Reply::Destroying(_) => said.word("-"),
    }
}

fn say_replies<A: Allocator>(said: &mut Said, replies: &[TextReply<A>]) {
    for reply in replies {
        said.word(" ");
        describe(said, reply);
        said.word(",");
    }
}

fn open<A: Allocator + Clone, D: Disk, E: EvictionPicker, C: StorageFilterCondition>(
    heap: &A,
    env: &mut Env<E, C>,
    over: Over,
    disk: &mut D,
) -> Result<TextCore<A>> {
    let (alloc, mode) = (heap.clone()?, RecoverMode::None);
    TextCore::open(alloc, env, over.settings(), disk, mode, &[])
}

// Whether the first page of a block is zeros.
fn is_clean<D: Disk>(alloc: Global, disk: &mut D, block: u32) -> Result<bool> {
    let page = vec![in alloc; 1u8; 4096]?;
    let (bytes, outcome) = disk.read(block, 0, page);
    outcome?;
    Ok(bytes.iter().all(|byte| *byte == 0))
}

/// Notes what runs of these scripts, which strokes part, answer one after the other over one core.
pub fn say_runs<D: Disk, E: EvictionPicker, C: StorageFilterCondition>(
    alloc: Global,
    said: &mut Said,
    env: &mut Env<E, C>,
    over: Over,
    disk: &mut D,
    scripts: &str,
) -> Result<()> {
    let mut core = open(&alloc, env, over, disk)?;
    for script in scripts.split(" / ") {
        let replies = run(&mut core, env, disk, moves_of(&alloc, script)?)?;
        say_replies(said, replies.as_slice());
    }
    Ok(())
}

/// Notes the same over a memory, and whether each block's first page is zeros after it.
pub fn say_moves<R: Files + Wait + Clone + Drop>(
    rt: &R,
    alloc: Global,
    said: &mut Said,
    asked: &str,
) -> Result<()> {
    let (words, scripts) = asked.split_once(" < ").unwrap_or(("", asked));
    let over = over_of(USUAL, words);
    let memory = Memory::new(rt, alloc, over)?;
    let mut env = over.env(alloc)?;
    let mut disk = memory.disk(rt, &alloc, over)?;
    say_runs(alloc, said, &mut env, over, &mut disk, scripts)?;
    said.word(" zeros");
    for block in 0..over.blocks {
        said.flag(" ", is_clean(alloc, &mut disk, block)?);
    }
    Ok(())
}

// More allocations than the scripts make.
const MOST_ALLOCATIONS: u64 = 2000;

const BOTH: &str =
    " -, -, -, -, -, -, -, write 0, next, committed 3, -, -, -, -, write 0, write 1, next, next, committed 1, -, picked 0, not now, scan 0 4096 63, listed, clean 0, done, true, -, -, write 1, next, next, committed 1, -, at 8192, 1 is a long text, miss, at 4096, 4 is d,";

// What the run of both scripts answers, whose memory comes from an allocator.
fn say_both<R: Wait + Clone + Drop, A: Allocator + Clone>(
    rt: &R,
    said: &mut Said,
    memory: &Memory,
    over: Over,
    heap: &A,
) -> Result<()> {
    let mut env = over.env(memory.alloc)?;
    let mut disk = memory.disk(rt, &memory.alloc, over)?;
    let mut core = open(heap, &mut env, over, &mut disk)?;
    let replies = run(
        &mut core,
        &mut env,
        &mut disk,
        moves_of(heap, "first, again")?,
    )?;
    say_replies(said, replies.as_slice());
    Ok(())
}

// Gives the same if the allocation of this number is refused, and whether that allocation was reached. It gives nothing if the core can't be
// opened, the moves can't be made, or the run ends before.
fn refused<R: Files + AllocGlobal + Wait + Clone + Drop>(rt: &R, n: u64) -> Result<(String, bool)> {
    let over = over_of(USUAL, "blocks 2, admits 60");
    let memory = Memory::new(rt, rt.alloc(), over)?;
    let heap = Refusing::new(rt.alloc(), n);
    let mut said = Said::new(rt.alloc());
    match say_both(rt, &mut said, &memory, over, &&heap) {
        Ok(()) | Err(Error::Memory) => {}
        Err(error) => return Err(error),
    }
    Ok((said.text()?, heap.has_refused()))
}

// Whether each key that is answered has its text; without a refusal whether all is as wanted.
fn are_explained(words: &str, has_refused: bool) -> bool {
    if !has_refused {
        return words == BOTH;
    }
    words.split(',').all(|word| {
        !word.contains(" is ")
            || word == " 1 is a long text"
            || word == " 2 is b"
            || word == " 4 is d"
    })
}

// A run whose memory is refused ends, or a step is returned, and what follows it is returned or passed over. Memory that is refused for
// what a reclaim reads ends its listing alone.
#[test]
fn each_allocation_that_is_refused_ends_the_run_or_its_step(
    rt: HostRuntime,
) -> std::result::Result<(), Fail> {
    let (mut refusals, mut faults) = (0u32, 0u32);
    for n in 1..MOST_ALLOCATIONS {
        let (words, has_refused) = refused(&rt, n)?;
        let is_well = are_explained(words.as_str(), has_refused)
            && (has_refused || (refusals > 0 && faults > 0));
        assert!(rt; is_well, "allocation {n}: {words}");
        if !has_refused {
            return Ok(());
        }
        if words.contains("refused Memory") {
            refusals = refusals.saturating_add(1);
        } else if !words.is_empty() {
            faults = faults.saturating_add(1);
        }
    }
    Err(Fail::new("the script makes more allocations"))
}
