//! Entries of the tests, and the core's replies as text.
ghost use Rattle.std.specs.Prelude.{None, Some, if◌then◌else◌};
ghost use Rattle.foyer_format_record.specs.declared.serde.ages.Age.TheVariants.{Young};

use foyer_block_index::indexer::EntryAddress;
use foyer_block_index::manager::BlockId;
use foyer_core_steps::reply::{Reply, Write, WriteBytes};
use foyer_core_steps::state::Core;
use foyer_device_page::error::{ErrorKind, Result};
use foyer_format_record::serde::{Age, Properties};
use foyer_policy_piece::keeper::{Piece, PieceRef};
use foyer_testing::said::Said;
use std::alloc::{AllocError, Allocator, Global};
use std::fmt::Write as _;

// An entry's age, as a test gives it.
#[derive(Clone, Copy)]
pub struct TestAge(pub bool);

impl Properties for TestAge {
    ghost age = { λ issued. if issued.0 then Some Young else None };

    fn age(&self) -> Option<Age> {
        if self.0 { Some(Age::Young) } else { None }
    }
}

pub type Value<A> = String<A>;

pub type TestReply<A> = Reply<u64, Value<A>, TestAge, A>;

pub type TestCore<A> = Core<u64, Value<A>, TestAge, A>;

type TestPiece<A> = PieceRef<u64, Value<A>, TestAge, A>;

// A piece of a key, which is its hash.
pub fn piece_of<A: Allocator + Clone>(
    heap: &A,
    key: u64,
    text: &str,
    is_young: bool,
) -> Result<TestPiece<A>> {
    let value = String::from_str(heap.clone()?, text)?;
    let piece = Piece::new(heap.clone()?, key, value, key, TestAge(is_young))?;
    Ok(PieceRef::from(piece))
}

// The text of a key: its number and a filling up to the length, or in a short one a letter over and over.
pub fn text_of(alloc: Global, key: u64, len: usize) -> std::result::Result<String, AllocError> {
    let mut text = String::new(alloc);
    if len < 24 {
        for _ in 0..len {
            text.push_str("a")?;
        }
        return Ok(text);
    }
    write!(text, "{key}.")?;
    let left = len.saturating_sub(text.len());
    for _ in 0..left / 32 {
        text.push_str("................................")?;
    }
    for _ in 0..left % 32 {
        text.push_str(".")?;
    }
    Ok(text)
}

// A reply in words.
pub fn word_of<A: Allocator>(reply: &TestReply<A>) -> &'static str {
    match reply {
        Reply::NotNow(_) => "not now",
        Reply::Refused(_, _) => "refused",
        Reply::Ignored(_) => "ignored",
        Reply::Queued(_) => "queued",
        Reply::Dropped(_, _) => "dropped",
        Reply::Deleted(_) => "deleted",
        Reply::Done => "done",
        Reply::Answer(true) => "yes",
        Reply::Answer(false) => "no",
        Reply::Miss => "miss",
        Reply::Throttled => "throttled",
        Reply::Read(_) => "read",
        Reply::Entry {
            key: _,
            value: _,
            age: _,
        } => "entry",
        Reply::Empty => "empty",
        Reply::Received(None) => "received",
        Reply::Received(Some(_)) => "handed back",
        Reply::Began {
            blocks: _,
            marks: _,
        } => "began",
        Reply::Write {
            block: _,
            writes: _,
        } => "write",
        Reply::NoBlock => "no block",
        Reply::Next => "next",
        Reply::Committed(_) => "committed",
        Reply::Failed => "failed",
        Reply::Ended {
            pieces: _,
            waits: _,
        } => "ended",
        Reply::Destroying(_) => "destroying",
        Reply::Cleared => "cleared",
        Reply::Destroyed(_) => "destroyed",
        Reply::Picked { .. } => "picked",
        Reply::Scan { .. } => "scan",
        Reply::Listed { .. } => "listed",
        Reply::Clean(_) => "clean",
    }
}

// The kinds that a script can meet.
fn name_of(kind: ErrorKind) -> &'static str {
    match kind {
        ErrorKind::Io => "Io",
        ErrorKind::Memory => "Memory",
        ErrorKind::Closed => "Closed",
        _ => "of another kind",
    }
}

pub fn say_kind(said: &mut Said, word: &str, kind: ErrorKind) {
    said.word(word);
    said.word(name_of(kind));
}

fn say_text(said: &mut Said, text: &str) {
    said.word(" ");
    said.word(text);
}

fn say_two(said: &mut Said, one: usize, two: usize) {
    said.number(" ", one as u64);
    said.number(" ", two as u64);
}

// The keys of the pieces, and the waits.
fn say_ended<A: Allocator>(said: &mut Said, pieces: &[TestPiece<A>], waits: &[u64]) {
    for piece in pieces {
        said.number(" ", *piece.key());
    }
    said.word(" /");
    for id in waits {
        said.number(" ", *id);
    }
}

// What a reply carries.
fn say_carried<A: Allocator>(said: &mut Said, reply: &TestReply<A>) {
    match reply {
        Reply::Refused(kind, _) | Reply::Destroyed(Some(kind)) => say_kind(said, " ", *kind),
        Reply::Queued(sequence) | Reply::Dropped(_, sequence) | Reply::Deleted(sequence) => {
            said.number(" ", *sequence)
        }
        Reply::Entry {
            key: _,
            value,
            age: _,
        } => say_text(said, value.as_str()),
        Reply::Began { blocks, marks } => say_two(said, *blocks, marks.len()),
        Reply::Write { block, writes: _ } => said.number(" ", u64::from(*block)),
        Reply::Committed(count) => said.number(" ", *count as u64),
        Reply::Ended { pieces, waits } => say_ended(said, pieces.as_slice(), waits.as_slice()),
        _ => {}
    }
}

// Says a reply in words, with what it carries.
pub fn say_brief<A: Allocator>(said: &mut Said, reply: &TestReply<A>) {
    said.word(word_of(reply));
    say_carried(said, reply);
}

fn say_read(said: &mut Said, address: &EntryAddress) {
    said.number("read ", u64::from(address.block));
    said.number(" ", u64::from(address.offset));
    said.number(" ", u64::from(address.len));
}

fn word_of_write<A: Allocator>(bytes: &WriteBytes<A>) -> &'static str {
    match bytes {
        WriteBytes::Data(_) => ", data",
        WriteBytes::Zeros => ", zeros",
        WriteBytes::Index(_) => ", index",
    }
}

// Notes where each write goes, and how long it is.
fn say_writes<A: Allocator>(said: &mut Said, block: BlockId, writes: &[Write<A>]) {
    said.number("write ", u64::from(block));
    for write in writes {
        said.word(word_of_write(&write.bytes));
        say_two(said, write.offset, write.bytes.as_slice().len());
    }
}

// Whether a value is the text of its key.
fn is_text_of(alloc: Global, key: u64, value: &str) -> bool {
    match text_of(alloc, key, value.len()) {
        Ok(text) => text.as_str() == value,
        Err(_) => false,
    }
}

// A key, and the length of its text, if that is the key's.
fn say_entry(alloc: Global, said: &mut Said, key: u64, value: &str) {
    said.number("entry ", key);
    if is_text_of(alloc, key, value) {
        said.number(" ", value.len() as u64);
    } else {
        said.word(" of another text");
    }
}

// Says a reply with the places that it names, and of a text its length.
pub fn say_full<A: Allocator>(alloc: Global, said: &mut Said, reply: &TestReply<A>) {
    match reply {
        Reply::Read(ticket) => say_read(said, &ticket.address),
        Reply::Write { block, writes } => say_writes(said, *block, writes.as_slice()),
        Reply::Entry { key, value, age: _ } => say_entry(alloc, said, *key, value.as_str()),
        _ => say_brief(said, reply),
    }
}
