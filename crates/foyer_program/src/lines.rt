//! The answers to lines, by a store.

use foyer_cli::command::Command;
use foyer_cli::faults::print_fault;
use foyer_cli::lines::{Filled, Lines};
use foyer_device_page::error::{ErrorKind, Result};
use foyer_format_record::serde::{IdentityHashBuilder, NoProperties};
use foyer_policy_piece::keeper::Piece;
use foyer_storage_build::config::Engine;
use foyer_storage_build::engine::engine::Enqueued;
use foyer_storage_build::engine::load::Load;
use foyer_storage_build::store::Store;
use foyer_storage_build::threads::workers::Clock;
use std::alloc::Global;
use std::io;
use std::io::{Read, Write};
use std::sync::Wait;

// The store that the program uses.
pub(crate) type Texts<N> = Store<N, u64, String, NoProperties, IdentityHashBuilder>;

// What a line is answered with.
#[derive(Drop)]
enum Answer {
    Queued,
    Ignored,
    Deleted,
    Entry(String),
    Piece(Piece<u64, String, NoProperties, Global>),
    Throttled,
    Miss,
    Ok,
    Fault(ErrorKind),
}

fn answer_put(outcome: Result<Enqueued>) -> Answer {
    match outcome {
        Ok(Enqueued::Queued) => Answer::Queued,
        Ok(Enqueued::Ignored) => Answer::Ignored,
        Ok(Enqueued::Deleted) => Answer::Deleted,
        Err(error) => Answer::Fault(error.kind()),
    }
}

fn answer_load(outcome: Result<Load<u64, String, NoProperties, Global>>) -> Answer {
    match outcome {
        Ok(Load::Entry { value, .. }) => Answer::Entry(value),
        Ok(Load::Piece { piece, .. }) => Answer::Piece(piece),
        Ok(Load::Throttled) => Answer::Throttled,
        Ok(Load::Miss) => Answer::Miss,
        Err(error) => Answer::Fault(error.kind()),
    }
}

fn answer_end(outcome: Result<()>) -> Answer {
    match outcome {
        Ok(()) => Answer::Ok,
        Err(error) => Answer::Fault(error.kind()),
    }
}

fn print_text<W: Write>(output: &mut W, word: &[u8], text: &str) -> io::Result<()> {
    output.write_all(word)?;
    output.write_all(text.as_bytes())?;
    output.write_all(b"\n")
}

fn print<W: Write>(output: &mut W, answer: &Answer) -> io::Result<()> {
    match answer {
        Answer::Queued => output.write_all(b"queued\n"),
        Answer::Ignored => output.write_all(b"ignored\n"),
        Answer::Deleted => output.write_all(b"deleted\n"),
        Answer::Throttled => output.write_all(b"throttled\n"),
        Answer::Miss => output.write_all(b"miss\n"),
        Answer::Ok => output.write_all(b"ok\n"),
        Answer::Fault(kind) => print_fault(output, *kind),
        Answer::Entry(text) => print_text(output, b"entry ", text.as_str()),
        Answer::Piece(piece) => print_text(output, b"piece ", piece.value().as_str()),
    }
}

fn put<S: Drop, N: Engine<S, u64, String, NoProperties>>(
    rt: &impl Wait,
    alloc: Global,
    store: &Texts<N>,
    session: &mut S,
    key: u64,
    text: &str,
    now: u64,
) -> Result<Enqueued> {
    let value = String::from_str(alloc, text)?;
    store.put(rt, alloc, session, key, value, NoProperties, now)
}

// What a command is answered with at a moment.
fn reply_to<S: Drop, N: Engine<S, u64, String, NoProperties>>(
    rt: &impl Wait,
    alloc: Global,
    store: &Texts<N>,
    session: &mut S,
    command: Command<'_>,
    now: u64,
) -> Answer {
    match command {
        Command::Put { key, text } => answer_put(put(rt, alloc, store, session, key, text, now)),
        Command::Get { key } => answer_load(store.load(rt, session, &key, now)),
        Command::Delete { key } => answer_end(store.delete(rt, session, &key)),
        Command::Wait => answer_end(store.wait(rt, session)),
        Command::Destroy => answer_end(store.destroy(rt, session)),
        Command::Close => answer_end(store.close(rt, session)),
    }
}

// Answers a line. Gives whether it was a command and no fault was printed.
fn answer_line<S: Drop, N: Engine<S, u64, String, NoProperties>, W: Write>(
    rt: &impl Wait,
    alloc: Global,
    store: &Texts<N>,
    session: &mut S,
    line: &[u8],
    output: &mut W,
    now: u64,
) -> io::Result<bool> {
    let Some(command) = Command::parse(line) else {
        output.write_all(b"bad line\n")?;
        return Ok(false);
    };
    let answer = reply_to(rt, alloc, store, session, command, now);
    print(output, &answer)?;
    match &answer {
        Answer::Fault(_) => Ok(false),
        _ => Ok(true),
    }
}

// Answers the lines that were read whole. Gives whether all were commands and no fault was printed.
fn answer_whole<S, N, R, W>(
    rt: &impl Wait,
    alloc: Global,
    store: &Texts<N>,
    session: &mut S,
    clock: &impl Clock,
    lines: &mut Lines<R, Global>,
    output: &mut W,
) -> io::Result<bool>
where
    S: Drop,
    N: Engine<S, u64, String, NoProperties>,
    R: Read + Drop,
    W: Write,
{
    let mut is_well = true;
    for _ in 0..u64::MAX {
        let Some(line) = lines.next_whole() else {
            break;
        };
        let now = clock.now();
        let was_well = answer_line(rt, alloc, store, session, lines.bytes(line), output, now)?;
        is_well = is_well && was_well;
    }
    Ok(is_well)
}

// Answers every line, until the input ends or fails, or the output fails. Gives whether all lines were commands and no fault was printed.
// Answers are written out before more input is read.
pub(crate) fn answer_all<S, N, R, W>(
    rt: &impl Wait,
    alloc: Global,
    store: &Texts<N>,
    session: &mut S,
    clock: &impl Clock,
    lines: &mut Lines<R, Global>,
    output: &mut W,
) -> io::Result<bool>
where
    S: Drop,
    N: Engine<S, u64, String, NoProperties>,
    R: Read + Drop,
    W: Write,
{
    let mut is_well = true;
    for _ in 0..u64::MAX {
        let was_well = answer_whole(rt, alloc, store, session, clock, lines, output)?;
        is_well = is_well && was_well;
        output.flush()?;
        match lines.fill()? {
            Filled::More => {}
            Filled::TooLong => {
                is_well = false;
                print_fault(output, ErrorKind::Memory)?;
            }
            Filled::End => {
                if let Some(line) = lines.last() {
                    let was_well = answer_line(
                        rt,
                        alloc,
                        store,
                        session,
                        lines.bytes(line),
                        output,
                        clock.now(),
                    )?;
                    is_well = is_well && was_well;
                }
                return Ok(is_well);
            }
        }
    }
    Ok(is_well)
}
