//! A core with its disk and its log, driven by lines. A step that is refused for memory comes again, except the steps that take none.
use crate::tests::hostile::values::{Number, Throttling, number_in};
use foyer_block_index::manager::BlockId;
use foyer_block_index::tombstone::Tombstone;
use foyer_block_manager::block::eviction::BuiltInPicker;
use foyer_core_access::disk::{do_read, do_write};
use foyer_core_access::reclaims::{BlockCleaner, Part, next_part, read_bytes};
use foyer_core_steps::apply::Env;
use foyer_core_steps::open::RecoverMode;
use foyer_core_steps::reply::{Reply, Write};
use foyer_core_steps::settings::Settings;
use foyer_core_steps::state::Core;
use foyer_core_steps::step::{Step, Ticket};
use foyer_device_page::error::{Error, ErrorKind, Result};
use foyer_format_record::serde::NoProperties;
use foyer_io_blocks::memory::MemoryDisk;
use foyer_policy_filter::StorageFilter;
use foyer_policy_piece::keeper::{Piece, PieceRef};
use foyer_testing::said::Said;
use std::alloc::{Allocator, Global};

type Given<A> = Step<Number, Number, NoProperties, A>;

type Answered<A> = Reply<Number, Number, NoProperties, A>;

type Numbers<A> = Core<Number, Number, NoProperties, A>;

const BLOCKS: u32 = 3;

const BLOCK: usize = 16384;

// The hash whose records are written again.
const ADMITTED: u64 = 2;

/// A line that isn't there.
pub const NO_LINE: usize = usize::MAX;

// The writes of a block that a reply issued, and which of them comes next.
#[derive(Drop)]
struct Issued<A: Allocator> {
    block: BlockId,
    writes: Vec<Write<A>, A>,
    next: usize,
}

/// A core with what it stands over, and what it issued.
#[derive(Drop)]
pub struct Driver<A: Allocator + Clone> {
    core: Numbers<A>,
    env: Env<BuiltInPicker, Throttling>,
    disk: MemoryDisk<Global>,
    log: Vec<Tombstone>,
    first: Option<Issued<A>>,
    second: Option<Issued<A>>,
    ticket: Option<Ticket>,
    part: Option<Part>,
    // The line whose write is reported as failed.
    fails_at: usize,
    // The word of the line that was refused and made again.
    refused: String,
}

// Three blocks of four pages, two flushers of 64 KiB, and a log.
fn settings() -> Settings {
    Settings {
        flushers: 2,
        indexer_shards: 2,
        buffer_pool_size: 131072,
        ..Settings::new(BLOCKS, BLOCK).with_tombstone_log(true)
    }
}

// The core with what the disk and the log have; tried twice.
fn open_core<A: Allocator + Clone>(
    heap: &A,
    env: &mut Env<BuiltInPicker, Throttling>,
    disk: &mut MemoryDisk<Global>,
    marks: &[Tombstone],
) -> Result<Numbers<A>> {
    let mode = RecoverMode::Quiet;
    match Core::open(heap.clone()?, env, settings(), disk, mode, marks) {
        Err(Error::Memory) => Core::open(heap.clone()?, env, settings(), disk, mode, marks),
        other => other,
    }
}

fn lent(alloc: Global) -> Result<Env<BuiltInPicker, Throttling>> {
    let filter = StorageFilter::new().with_condition(alloc, Throttling(ADMITTED))?;
    Ok(Env::with_default_pickers(alloc, 0)?.with_reinsertion(filter))
}

impl<A: Allocator + Clone> Driver<A> {
    /// Over zeros; the write of one line is reported as failed.
    pub fn new(alloc: Global, heap: &A, fails_at: usize) -> Result<Driver<A>> {
        let mut env = lent(alloc)?;
        let mut disk = MemoryDisk::new(alloc, BLOCKS, BLOCK)?;
        let core = open_core(heap, &mut env, &mut disk, &[])?;
        Ok(Driver {
            core,
            env,
            disk,
            log: Vec::new(alloc),
            first: None,
            second: None,
            ticket: None,
            part: None,
            fails_at,
            refused: String::new(alloc),
        })
    }

    /// The word of the line that was refused for memory, if one was.
    pub fn into_refused(self) -> String {
        let Driver { refused, .. } = self;
        refused
    }
}

// A line: a word, a number, and what stands behind it.
#[derive(Clone, Copy)]
struct Line<'a> {
    at: usize,
    word: &'a str,
    number: u64,
    text: &'a str,
}

fn parse(at: usize, line: &str) -> Line<'_> {
    let (word, rest) = line.split_once(' ').unwrap_or((line, ""));
    let (first, text) = rest.split_once(' ').unwrap_or((rest, ""));
    Line {
        at,
        word,
        number: first.parse::<u64>().unwrap_or(0),
        text,
    }
}

fn small(number: u64) -> u32 {
    number.min(u64::from(u32::MAX)) as u32
}

fn put_of<A: Allocator + Clone>(heap: &A, key: Number, line: Line<'_>) -> Result<Given<A>> {
    let value = number_in(line.text);
    let piece = Piece::new(heap.clone()?, key, value, line.number, NoProperties)?;
    let piece = PieceRef::from(piece);
    Ok(Step::Enqueue { piece, size: 16 })
}

// The end of the load that was begun last, with its read.
fn load_of<A: Allocator + Clone>(driver: &mut Driver<A>, heap: &A) -> Result<Option<Given<A>>> {
    let Some(ticket) = driver.ticket else {
        return Ok(None);
    };
    let mut buffer = Vec::new(heap.clone()?);
    let result = do_read(heap.clone()?, &mut driver.disk, &ticket, &mut buffer)?;
    Ok(Some(Step::LoadEnd { ticket, result }))
}

// What a reclaim is to read next, read.
fn read_of<A: Allocator + Clone>(
    driver: &mut Driver<A>,
    heap: &A,
    block: BlockId,
) -> Result<Option<Given<A>>> {
    let Some(part) = driver.part else {
        return Ok(None);
    };
    match read_bytes(heap, &mut driver.disk, block, part) {
        Err(Error::Memory) => Err(Error::Memory),
        result => Ok(Some(Step::ReclaimRead { block, result })),
    }
}

// The next write of a block, done.
fn write_next<A: Allocator>(
    disk: &mut MemoryDisk<Global>,
    issued: &mut Option<Issued<A>>,
    fails: bool,
) -> Option<Result<()>> {
    let Some(found) = issued else {
        return None;
    };
    let write = found.writes.get(found.next)?;
    let wrote = do_write(disk, found.block, write);
    let result = if fails { Err(Error::Io) } else { wrote };
    found.next = if result.is_ok() {
        found.next.saturating_add(1)
    } else {
        NO_LINE
    };
    Some(result)
}

fn wrote_of<A: Allocator + Clone>(
    driver: &mut Driver<A>,
    flusher: u32,
    fails: bool,
) -> Option<Given<A>> {
    let Driver {
        disk,
        first,
        second,
        ..
    } = driver;
    let wrote = if flusher == 0 {
        write_next(disk, first, fails)
    } else {
        write_next(disk, second, fails)
    };
    match wrote {
        Some(result) => Some(Step::FlushWrote { flusher, result }),
        None => None,
    }
}

// A step that carries nothing else than a number or two.
fn plain_step<A: Allocator>(line: Line<'_>) -> Given<A> {
    let hash = line.number;
    let flusher = small(line.number);
    match line.word {
        "delete" => Step::Delete { hash },
        "wait" => Step::Wait {
            flusher,
            id: line.text.parse::<u64>().unwrap_or(0),
        },
        "ask" => Step::MayContains { hash },
        "look" => Step::LoadBegin {
            hash,
            throttled: false,
        },
        "receive" => Step::Receive { flusher },
        "begin" => Step::FlushBegin { flusher },
        "block" => Step::FlushBlock { flusher },
        "logged" => Step::LogWrote {
            flusher,
            result: Ok(()),
        },
        "end" => Step::FlushEnd { flusher },
        "reclaim" => Step::ReclaimBegin,
        "forget" => Step::ReclaimForget { block: flusher },
        "idle" => Step::ReclaimIdle,
        "destroy" => Step::DestroyBegin,
        "clear" => Step::DestroyClear,
        _ => Step::Close,
    }
}

// Makes the step of a line. Gives None if no access was issued for it.
fn step_of<A: Allocator + Clone>(
    driver: &mut Driver<A>,
    heap: &A,
    line: Line<'_>,
) -> Result<Option<Given<A>>> {
    let block = small(line.number);
    match line.word {
        "put" => Ok(Some(put_of(heap, Number(Some(line.number)), line)?)),
        "keyless" => Ok(Some(put_of(heap, Number(None), line)?)),
        "load" => load_of(driver, heap),
        "read" => read_of(driver, heap, block),
        "wrote" => Ok(wrote_of(driver, block, line.at == driver.fails_at)),
        "cleaned" => Ok(Some(Step::ReclaimCleaned {
            block,
            result: BlockCleaner::clean(&mut driver.disk, block),
        })),
        "gone" => Ok(Some(Step::DestroyCleaned {
            block,
            result: BlockCleaner::clean(&mut driver.disk, block),
        })),
        _ => Ok(Some(plain_step(line))),
    }
}

// Makes the same, and tries once more if the driver itself has no memory for it.
fn step_again<A: Allocator + Clone>(
    driver: &mut Driver<A>,
    heap: &A,
    line: Line<'_>,
) -> Result<Option<Given<A>>> {
    match step_of(driver, heap, line) {
        Err(Error::Memory) => step_of(driver, heap, line),
        other => other,
    }
}

// Whether the steps of a word take no memory, so that none of them is ever refused for it.
fn takes_none(word: &str) -> bool {
    match word {
        "ask" | "look" | "wrote" | "logged" | "end" | "forget" | "idle" | "gone" | "close" => true,
        _ => false,
    }
}

// Applies a step, and once more if it is refused for memory that it may take.
fn apply<A: Allocator + Clone>(driver: &mut Driver<A>, word: &str, step: Given<A>) -> Answered<A> {
    match driver.core.apply(&mut driver.env, step) {
        Reply::Refused(ErrorKind::Memory, back) if !takes_none(word) => {
            let _ = driver.refused.push_str(word);
            driver.core.apply(&mut driver.env, back)
        }
        other => other,
    }
}

fn keep_marks<A: Allocator + Clone>(driver: &mut Driver<A>, marks: &[Tombstone]) {
    let _ = driver.log.extend_from_slice(marks);
}

fn keep_writes<A: Allocator + Clone>(
    driver: &mut Driver<A>,
    flusher: u64,
    block: BlockId,
    writes: Vec<Write<A>, A>,
) {
    let issued = Some(Issued {
        block,
        writes,
        next: 0,
    });
    if flusher == 0 {
        driver.first = issued;
    } else {
        driver.second = issued;
    }
}

// The first index of a block.
fn first_part() -> Part {
    Part {
        offset: 0,
        len: 4096,
    }
}

// Keeps what a reply issues to a flusher, a load or a reclaim.
fn keep<A: Allocator + Clone>(driver: &mut Driver<A>, number: u64, reply: Answered<A>) {
    match reply {
        Reply::Read(ticket) => driver.ticket = Some(ticket),
        Reply::Write { block, writes } => keep_writes(driver, number, block, writes),
        Reply::Began { blocks: _, marks } => keep_marks(driver, marks.as_slice()),
        Reply::Picked {
            block: _,
            answers: _,
            probation: _,
        } => driver.part = Some(first_part()),
        other => {
            if let Some(part) = next_part(&other) {
                driver.part = Some(part);
            }
        }
    }
}

fn say_writes<A: Allocator>(said: &mut Said, block: BlockId, writes: &[Write<A>]) {
    said.number("write ", u64::from(block));
    for write in writes {
        said.number(", ", write.offset as u64);
        said.number(" ", write.bytes.as_slice().len() as u64);
    }
}

fn say_two(said: &mut Said, word: &str, one: usize, two: usize) {
    said.number(word, one as u64);
    said.number(" ", two as u64);
}

fn say_part(said: &mut Said, block: BlockId, offset: usize, len: usize) {
    said.number("scan ", u64::from(block));
    say_two(said, " ", offset, len);
}

fn say_place(said: &mut Said, ticket: &Ticket) {
    said.number("read ", u64::from(ticket.address.block));
    said.number(" ", u64::from(ticket.address.offset));
}

fn say_kind(said: &mut Said, word: &str, kind: ErrorKind) {
    said.word(word);
    said.word(kind.name());
}

fn say_gone(said: &mut Said, fault: &Option<ErrorKind>) {
    match fault {
        Some(kind) => say_kind(said, "destroyed ", *kind),
        None => said.word("destroyed"),
    }
}

// Says a reply with the numbers that it carries.
fn say_reply<A: Allocator>(said: &mut Said, reply: &Answered<A>) {
    match reply {
        Reply::NotNow(_) => said.word("not now"),
        Reply::Refused(kind, _) => say_kind(said, "refused ", *kind),
        Reply::Queued(sequence) => said.number("queued ", *sequence),
        Reply::Deleted(sequence) => said.number("deleted ", *sequence),
        Reply::Destroying(sequence) => said.number("destroying ", *sequence),
        Reply::Answer(is) => said.flag("", *is),
        Reply::Miss => said.word("miss"),
        Reply::Read(ticket) => say_place(said, ticket),
        Reply::Entry {
            key: _,
            value,
            age: _,
        } => said.number("entry ", value.0.unwrap_or(0)),
        Reply::Received(None) => said.word("received"),
        Reply::Received(Some(_)) => said.word("handed back"),
        Reply::Began { blocks, marks } => say_two(said, "began ", *blocks, marks.len()),
        Reply::Write { block, writes } => say_writes(said, *block, writes.as_slice()),
        Reply::Next => said.word("next"),
        Reply::Committed(count) => said.number("committed ", *count as u64),
        Reply::Failed => said.word("failed"),
        Reply::Ended { pieces, waits } => say_two(said, "ended ", pieces.len(), waits.len()),
        Reply::Picked {
            block,
            answers: _,
            probation: _,
        } => said.number("picked ", u64::from(*block)),
        Reply::Scan {
            block,
            offset,
            len,
            verdicts: _,
        } => say_part(said, *block, *offset, *len),
        Reply::Listed { verdicts: _ } => said.word("listed"),
        Reply::Clean(block) => said.number("clean ", u64::from(*block)),
        Reply::Cleared => said.word("cleared"),
        Reply::Destroyed(fault) => say_gone(said, fault),
        Reply::Done => said.word("done"),
        Reply::Empty => said.word("empty"),
        Reply::Ignored(_) => said.word("ignored"),
        Reply::Dropped(_, _) => said.word("dropped"),
        Reply::Throttled => said.word("throttled"),
        Reply::NoBlock => said.word("no block"),
    }
}

// Applies the step of a line, and says the reply.
fn answer_step<A: Allocator + Clone>(
    said: &mut Said,
    driver: &mut Driver<A>,
    line: Line<'_>,
    step: Given<A>,
) {
    let reply = apply(driver, line.word, step);
    say_reply(said, &reply);
    keep(driver, line.number, reply);
}

// Opens the core again over what the disk and the log have.
fn say_opened<A: Allocator + Clone>(said: &mut Said, driver: &mut Driver<A>, heap: &A) {
    let Driver {
        core,
        env,
        disk,
        log,
        ..
    } = driver;
    match open_core(heap, env, disk, log.as_slice()) {
        Ok(opened) => {
            *core = opened;
            said.word("opened");
        }
        Err(error) => say_kind(said, "not opened ", error.kind()),
    }
}

/// Answers a line, the place of which is given.
pub fn say_answer<A: Allocator + Clone>(
    said: &mut Said,
    driver: &mut Driver<A>,
    heap: &A,
    at: usize,
    line: &str,
) {
    let line = parse(at, line);
    if line.word == "open" {
        say_opened(said, driver, heap);
        return;
    }
    match step_again(driver, heap, line) {
        Ok(Some(step)) => answer_step(said, driver, line, step),
        Ok(None) => said.word("left out"),
        Err(error) => say_kind(said, "no step ", error.kind()),
    }
}
