//! What a load gives.
use foyer_device_page::error::Result;
use foyer_format_record::serde::Age;
use foyer_policy_piece::keeper::Piece;
use foyer_storage_engine::load::{Load, Populated, decide_load};
use foyer_testing::rows::first_difference;
use foyer_testing::said::Said;
use std::alloc::Global;
use std::test::Fail;

type Byte = Piece<u64, u8, (), Global>;

type Answer = Load<u64, u8, (), Global>;

const OLD: Populated = Populated { age: Age::Old };

fn entry(key: u64, value: u8) -> Answer {
    Load::Entry {
        key,
        value,
        populated: OLD,
    }
}

fn piece(alloc: Global, key: u64, value: u8) -> Result<Byte> {
    Piece::new(alloc, key, value, 9, ())
}

fn piece_answer(alloc: Global, key: u64, value: u8) -> Result<Answer> {
    Ok(Load::Piece {
        piece: piece(alloc, key, value)?,
        populated: OLD,
    })
}

fn say_age(said: &mut Said, age: Age) {
    said.word(match age {
        Age::Young => " young",
        Age::Old => " old",
        _ => " another",
    });
}

// Which answer it is, its key and its value, and its age; whether it says that it is a miss or throttled.
fn say_answer(said: &mut Said, answer: &Answer) {
    match answer {
        Load::Entry {
            key,
            value,
            populated,
        } => {
            said.number("entry ", *key);
            said.number(" ", u64::from(*value));
            say_age(said, populated.age);
        }
        Load::Piece { piece, populated } => {
            said.number("piece ", *piece.key());
            said.number(" ", u64::from(*piece.value()));
            say_age(said, populated.age);
        }
        Load::Throttled => said.word("throttled"),
        Load::Miss => said.word("miss"),
    }
    if answer.is_miss() {
        said.word("!");
    }
    if answer.is_throttled() {
        said.word("?");
    }
}

// Of three words: a kind, a key and a value.
fn answer_of(alloc: Global, words: &str) -> Result<Answer> {
    let (kind, rest) = words.split_once(' ').unwrap_or((words, ""));
    let (key, value) = rest.split_once(' ').unwrap_or((rest, ""));
    let key = key.parse::<u64>().unwrap_or(0);
    let value = value.parse::<u8>().unwrap_or(0);
    match kind {
        "entry" => Ok(entry(key, value)),
        "piece" => piece_answer(alloc, key, value),
        "throttled" => Ok(Load::Throttled),
        _ => Ok(Load::Miss),
    }
}

// The piece that is kept, or none.
fn kept_of(alloc: Global, words: &str) -> Result<Option<Byte>> {
    match answer_of(alloc, words)? {
        Load::Piece { piece, .. } => Ok(Some(piece)),
        _ => Ok(None),
    }
}

// What a load of a key gives, with what is kept and what the engine answered.
fn say_load(said: &mut Said, alloc: Global, asked: &str) -> Result<()> {
    let (key, rest) = asked.split_once(": ").unwrap_or((asked, ""));
    let (kept, answered) = rest.split_once(" and ").unwrap_or((rest, ""));
    let key = key.parse::<u64>().unwrap_or(0);
    let given = decide_load(&key, kept_of(alloc, kept)?, answer_of(alloc, answered)?);
    say_answer(said, &given);
    Ok(())
}

fn rows_of(alloc: Global, rows: &str) -> Result<String> {
    let mut said = Said::new(alloc);
    for row in rows.lines() {
        let (asked, _) = row.split_once(" | ").unwrap_or((row, ""));
        said.word(asked);
        if asked.contains(" and ") {
            said.word(" | ");
            say_load(&mut said, alloc, asked)?;
        }
        said.word("\n");
    }
    said.text()
}

// Names, and below each name a key that is loaded, what is kept, what the engine answered, and what is given. What is given is a kind, a key,
// a value and an age. `!` stands behind it if it says that it is a miss, `?` if it says that it is throttled.
const ROWS: &str = "a kept piece goes before the entry
1: piece 1 7 and entry 1 8 | piece 1 7 young
without a piece the entry of the key is given
1: none and entry 1 8 | entry 1 8 old
an entry of another key is a miss
1: none and entry 2 8 | miss!
throttled stays throttled
1: none and throttled | throttled?
a miss stays a miss
1: none and miss | miss!
a piece of another key is a miss
1: none and piece 2 8 | miss!
2: none and piece 2 8 | piece 2 8 old
";

#[test]
fn a_load_gives_the_kept_piece_before_the_engines_answer(
    rt: HostRuntime,
) -> std::result::Result<(), Fail> {
    let answers = rows_of(rt.alloc(), ROWS)?;
    assert_eq!(rt; first_difference(answers.as_str(), ROWS), None);
    Ok(())
}

#[test]
fn an_entry_is_taken_out_of_an_entry_alone(rt: HostRuntime) -> std::result::Result<(), Fail> {
    assert!(rt; entry(1, 7).entry() == Some((1, 7, OLD)) && entry(1, 7).kv() == Some((1, 7)));
    let piece = piece_answer(rt.alloc(), 1, 7)?;
    assert!(rt; piece.entry().is_none());
    let piece = piece_answer(rt.alloc(), 1, 7)?;
    assert!(rt; piece.kv().is_none());
    Ok(())
}
