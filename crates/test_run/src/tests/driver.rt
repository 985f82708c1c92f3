//! A core with its disk, driven by lines.
use crate::tests::line::{Line, line_of, parse};
use crate::tests::reader::{bytes_of, is_record, range};
use crate::tests::replies::{
    TestAge, TestCore, TestReply, Value, piece_of, say_brief, say_full, say_kind, text_of,
};
use foyer_block_index::manager::BlockId;
use foyer_core_access::disk::{do_read, do_write};
use foyer_core_run::reclaims::reclaim_block;
use foyer_core_steps::apply::Env;
use foyer_core_steps::open::RecoverMode;
use foyer_core_steps::reply::{Reply, Write};
use foyer_core_steps::settings::Settings;
use foyer_core_steps::state::Core;
use foyer_core_steps::step::{Step, Ticket};
use foyer_device_page::error::{Error, ErrorKind, Result};
use foyer_io_blocks::memory::MemoryDisk;
use foyer_testing::failing::Failing;
use foyer_testing::said::Said;
use std::alloc::{Allocator, Global};

type Life<A> = Step<u64, Value<A>, TestAge, A>;

// How a core is driven.
#[derive(Clone, Copy)]
pub struct Way {
    // The call of the disk that fails, from 1.
    pub fails_at: u64,
    // Whether a step that is refused for memory is applied once more.
    pub comes_again: bool,
    // Whether answers are in brief, without places. Then a put has the text that stands in its line, a load is of the ticket
    // given last, and what the driver itself has no memory for is left out.
    pub is_brief: bool,
}

pub const FULL: Way = Way {
    fails_at: 0,
    comes_again: false,
    is_brief: false,
};

pub const BRIEF: Way = Way {
    fails_at: 0,
    comes_again: false,
    is_brief: true,
};

// Blocks of 16 KiB, and a buffer of 64 KiB.
pub fn small(blocks: u32) -> Settings {
    Settings {
        buffer_pool_size: 65536,
        ..Settings::new(blocks, 16384)
    }
}

// The writes of a block that a reply issued, and which of them comes next.
#[derive(Drop)]
struct Issued<A: Allocator> {
    block: BlockId,
    writes: Vec<Write<A>, A>,
    next: usize,
}

// A core with its disk, the tickets that it gave, the writes that it issued to each flusher, and what was read and kept last.
#[derive(Drop)]
pub struct Driver<A: Allocator + Clone> {
    pub core: TestCore<A>,
    pub env: Env,
    pub disk: Failing<MemoryDisk<A>>,
    tickets: Vec<Ticket>,
    issued: Vec<Option<Issued<A>>>,
    kept: Vec<u8>,
    way: Way,
}

// Nothing was issued to any flusher.
fn none_issued<A: Allocator>(alloc: Global, flushers: u32) -> Result<Vec<Option<Issued<A>>>> {
    let mut issued = Vec::new(alloc);
    for _ in 0..flushers {
        issued.push(None)?;
    }
    Ok(issued)
}

// A core over a disk of memory of which nothing is read.
pub fn new_driver<A: Allocator + Clone>(
    alloc: Global,
    heap: &A,
    settings: Settings,
    way: Way,
) -> Result<Driver<A>> {
    let mut env = Env::with_default_pickers(alloc, 0)?;
    let mut memory = MemoryDisk::new(heap.clone()?, settings.blocks, settings.block_size)?;
    let mode = RecoverMode::None;
    let core = Core::open(heap.clone()?, &mut env, settings, &mut memory, mode, &[])?;
    Ok(Driver {
        core,
        env,
        disk: Failing::new(memory, way.fails_at, 100),
        tickets: Vec::new(alloc),
        issued: none_issued(alloc, settings.flushers)?,
        kept: Vec::new(alloc),
        way,
    })
}

// The text of a put.
fn put_text(alloc: Global, line: Line<'_>, is_brief: bool) -> Result<String> {
    if is_brief && line.word != "long" {
        return Ok(String::from_str(alloc, line.text)?);
    }
    Ok(text_of(alloc, line.number, line.len as usize)?)
}

fn put_of<A: Allocator + Clone>(
    alloc: Global,
    heap: &A,
    line: Line<'_>,
    is_brief: bool,
) -> Result<Option<Life<A>>> {
    let text = put_text(alloc, line, is_brief)?;
    let piece = piece_of(heap, line.number, text.as_str(), line.word == "young")?;
    Ok(Some(Step::Enqueue {
        piece,
        size: text.len(),
    }))
}

// The ticket of a load, which in brief is given up.
fn ticket_of<A: Allocator + Clone>(driver: &mut Driver<A>, number: usize) -> Option<Ticket> {
    if driver.way.is_brief {
        driver.tickets.pop()
    } else {
        driver.tickets.get(number).copied()
    }
}

// The end of the load of a ticket, with its read.
fn load_of<A: Allocator + Clone>(
    driver: &mut Driver<A>,
    heap: &A,
    number: usize,
) -> Result<Option<Life<A>>> {
    let Some(ticket) = ticket_of(driver, number) else {
        return Ok(None);
    };
    let mut buffer = Vec::new(heap.clone()?);
    let outcome = do_read(heap.clone()?, &mut driver.disk, &ticket, &mut buffer)?;
    Ok(Some(Step::LoadEnd {
        ticket,
        result: outcome,
    }))
}

// How many bytes of a text are ahead of what was kept, so that this begins a page behind the page that the text's record
// begins. The header and the text's length are 44 bytes ahead of the text.
const AHEAD: usize = 4052;

// A put whose text ends with so many of the bytes that were kept.
fn wrap_of<A: Allocator + Clone>(
    alloc: Global,
    driver: &Driver<A>,
    heap: &A,
    line: Line<'_>,
) -> Result<Option<Life<A>>> {
    let mut text = ".".repeat(alloc, AHEAD)?;
    let kept = range(&driver.kept, 0, line.len as usize);
    text.push_str(str::from_utf8(kept).unwrap_or("no text"))?;
    Ok(Some(Step::Enqueue {
        piece: piece_of(heap, line.number, text.as_str(), false)?,
        size: text.len(),
    }))
}

// The end of the load of a ticket, with the bytes that were kept.
fn bring_of<A: Allocator + Clone>(
    driver: &Driver<A>,
    heap: &A,
    number: usize,
) -> Result<Option<Life<A>>> {
    let Some(ticket) = driver.tickets.get(number).copied() else {
        return Ok(None);
    };
    let kept = Vec::from_slice(heap.clone()?, &driver.kept)?;
    Ok(Some(Step::LoadEnd {
        ticket,
        result: Ok(kept),
    }))
}

// The next write that was issued to a flusher, done.
fn wrote_of<A: Allocator + Clone>(driver: &mut Driver<A>, flusher: u32) -> Option<Life<A>> {
    let slot = driver.issued.get_mut(flusher as usize)?;
    match slot {
        None => None,
        Some(found) => {
            let write = found.writes.get(found.next)?;
            let outcome = do_write(&mut driver.disk, found.block, write);
            found.next = if outcome.is_ok() {
                found.next.saturating_add(1)
            } else {
                usize::MAX
            };
            Some(Step::FlushWrote {
                flusher,
                result: outcome,
            })
        }
    }
}

// A number as one of a flusher or a block.
pub fn small_number(number: u64) -> u32 {
    number.min(u64::from(u32::MAX)) as u32
}

// The clean of a block for a destroy, with its outcome.
fn cleaned<A: Allocator>(block: u32, outcome: Result<()>) -> Life<A> {
    Step::DestroyCleaned {
        block,
        result: outcome,
    }
}

// The step of a word and two numbers, which carries nothing else.
fn plain_step<A: Allocator>(word: &str, number: u64, id: u64) -> Life<A> {
    let flusher = small_number(number);
    match word {
        "delete" => Step::Delete { hash: number },
        "wait" => Step::Wait { flusher, id },
        "ask" => Step::MayContains { hash: number },
        "look" => Step::LoadBegin {
            hash: number,
            throttled: false,
        },
        "throttled" => Step::LoadBegin {
            hash: number,
            throttled: true,
        },
        "receive" => Step::Receive { flusher },
        "begin" => Step::FlushBegin { flusher },
        "block" => Step::FlushBlock { flusher },
        "end" => Step::FlushEnd { flusher },
        "destroy" => Step::DestroyBegin,
        "clear" => Step::DestroyClear,
        "cleaned" => cleaned(flusher, Ok(())),
        "unclean" => cleaned(flusher, Err(Error::NoSpace)),
        _ => Step::Close,
    }
}

// Makes the step of a line. Gives None if no access was issued for it, and `Err` if the driver has no memory.
fn step_of<A: Allocator + Clone>(
    alloc: Global,
    driver: &mut Driver<A>,
    heap: &A,
    line: Line<'_>,
) -> Result<Option<Life<A>>> {
    match line.word {
        "put" | "young" | "long" => put_of(alloc, heap, line, driver.way.is_brief),
        "load" => load_of(driver, heap, line.number as usize),
        "wrap" => wrap_of(alloc, driver, heap, line),
        "bring" => bring_of(driver, heap, line.number as usize),
        "wrote" => Ok(wrote_of(driver, small_number(line.number))),
        _ => Ok(Some(plain_step(line.word, line.number, line.len))),
    }
}

// Makes the same, and tries once more if memory is refused, steps come again and answers are in full.
fn step_again<A: Allocator + Clone>(
    alloc: Global,
    driver: &mut Driver<A>,
    heap: &A,
    line: Line<'_>,
) -> Result<Option<Life<A>>> {
    let is_again = driver.way.comes_again && !driver.way.is_brief;
    match step_of(alloc, driver, heap, line) {
        Err(Error::Memory) if is_again => step_of(alloc, driver, heap, line),
        other => other,
    }
}

// Applies a step, and once more if steps come again and it is refused for memory.
fn apply<A: Allocator + Clone>(driver: &mut Driver<A>, step: Life<A>) -> TestReply<A> {
    match driver.core.apply(&mut driver.env, step) {
        Reply::Refused(ErrorKind::Memory, back) if driver.way.comes_again => {
            driver.core.apply(&mut driver.env, back)
        }
        other => other,
    }
}

fn keep_ticket<A: Allocator + Clone>(said: &mut Said, driver: &mut Driver<A>, ticket: Ticket) {
    if driver.tickets.push(ticket).is_err() {
        said.miss();
    }
}

fn keep_writes<A: Allocator + Clone>(
    driver: &mut Driver<A>,
    flusher: u64,
    block: BlockId,
    writes: Vec<Write<A>, A>,
) {
    if let Some(slot) = driver.issued.get_mut(flusher as usize) {
        *slot = Some(Issued {
            block,
            writes,
            next: 0,
        });
    }
}

// Keeps the accesses that a reply issues to a flusher.
fn keep<A: Allocator + Clone>(
    said: &mut Said,
    driver: &mut Driver<A>,
    flusher: u64,
    reply: TestReply<A>,
) {
    match reply {
        Reply::Read(ticket) => keep_ticket(said, driver, ticket),
        Reply::Write { block, writes } => keep_writes(driver, flusher, block, writes),
        _ => {}
    }
}

// Applies a step, and says the reply.
fn answer_step<A: Allocator + Clone>(
    alloc: Global,
    said: &mut Said,
    driver: &mut Driver<A>,
    flusher: u64,
    step: Life<A>,
) {
    let reply = apply(driver, step);
    if driver.way.is_brief {
        say_brief(said, &reply);
    } else {
        say_full(alloc, said, &reply);
    }
    keep(said, driver, flusher, reply);
}

// Applies the step of a line, and says the reply.
fn answer<A: Allocator + Clone>(
    alloc: Global,
    said: &mut Said,
    driver: &mut Driver<A>,
    heap: &A,
    line: Line<'_>,
) {
    match step_again(alloc, driver, heap, line) {
        Ok(Some(step)) => answer_step(alloc, said, driver, line.number, step),
        Ok(None) => said.word("left out"),
        Err(error) => say_kind(said, "no step ", error.kind()),
    }
}

// Looks a hash up, and loads what is found.
fn answer_get<A: Allocator + Clone>(
    alloc: Global,
    said: &mut Said,
    driver: &mut Driver<A>,
    heap: &A,
    hash: u64,
) {
    let ticket = driver.tickets.len();
    answer(alloc, said, driver, heap, line_of("look", hash, 0));
    if driver.tickets.len() > ticket {
        said.word(", ");
        answer(alloc, said, driver, heap, line_of("load", ticket as u64, 0));
    }
}

// Reads what stands at the place of a ticket and keeps it: whether it begins with the ticket's record.
fn keep_page<A: Allocator + Clone>(
    alloc: Global,
    driver: &mut Driver<A>,
    number: usize,
) -> Result<bool> {
    let Some(ticket) = driver.tickets.get(number).copied() else {
        return Ok(false);
    };
    let address = ticket.address;
    let (offset, len) = (address.offset as usize, ticket.read_len());
    driver.kept = bytes_of(alloc, &mut driver.disk, address.block, offset, len)?;
    let record = range(&driver.kept, 0, address.len as usize);
    Ok(is_record(record, ticket.hash, address.sequence))
}

fn answer_keep<A: Allocator + Clone>(
    alloc: Global,
    said: &mut Said,
    driver: &mut Driver<A>,
    number: usize,
) {
    match keep_page(alloc, driver, number) {
        Ok(true) => said.word("a record"),
        Ok(false) => said.word("none"),
        Err(_) => said.miss(),
    }
}

// Reclaims a block.
fn answer_reclaim<A: Allocator + Clone>(said: &mut Said, driver: &mut Driver<A>) {
    let last = reclaim_block(&mut driver.core, &mut driver.env, &mut driver.disk);
    say_brief(said, &last);
}

fn answer_any<A: Allocator + Clone>(
    alloc: Global,
    said: &mut Said,
    driver: &mut Driver<A>,
    heap: &A,
    line: Line<'_>,
) {
    match line.word {
        "get" => answer_get(alloc, said, driver, heap, line.number),
        "keep" => answer_keep(alloc, said, driver, line.number as usize),
        "reclaim" => answer_reclaim(said, driver),
        _ => answer(alloc, said, driver, heap, line),
    }
}

// Answers a line.
pub fn answer_line<A: Allocator + Clone>(
    alloc: Global,
    said: &mut Said,
    driver: &mut Driver<A>,
    heap: &A,
    line: &str,
) {
    answer_any(alloc, said, driver, heap, parse(line));
}

// Answers a line of a word and two numbers.
pub fn answer_numbers<A: Allocator + Clone>(
    alloc: Global,
    said: &mut Said,
    driver: &mut Driver<A>,
    heap: &A,
    word: &str,
    number: u64,
    len: u64,
) {
    answer_any(alloc, said, driver, heap, line_of(word, number, len));
}

// The step of a line of a script, which stands before its answer.
pub fn step_in(line: &str) -> &str {
    line.split_once(": ").unwrap_or((line, "")).0
}

// The answer of a line.
pub fn reply_in(line: &str) -> &str {
    line.split_once(": ").unwrap_or((line, "")).1
}

// The script with its answers, as they are.
pub fn answered<A: Allocator + Clone>(
    alloc: Global,
    driver: &mut Driver<A>,
    heap: &A,
    script: &str,
) -> Result<String> {
    let mut said = Said::new(alloc);
    for line in script.lines() {
        let line = step_in(line);
        said.word(line);
        said.word(": ");
        answer_line(alloc, &mut said, driver, heap, line);
        said.word("\n");
    }
    said.text()
}
