//! An engine on one thread, with keys of an own type, some of which have one hash, and values that are bytes.
ghost use Rattle.std.specs.Prelude.{◌≡◌, ◌%◌, ◌^◌, nat_lt};
ghost use Rattle.std.specs.Int.{w128};
ghost use Rattle.foyer_format_code.specs.CodeLaws.{number_coded, number_encoded, one_number};
ghost use Rattle.foyer_format_code.specs.Codes.{is_number, number_bytes};

use crate::tests::replies::TestAge;
use foyer_block_index::tombstone::Tombstone;
use foyer_core_steps::apply::Env;
use foyer_core_steps::open::RecoverMode;
use foyer_core_steps::settings::Settings;
use foyer_device_page::error::{Error, Result};
use foyer_format_record::serde::{Age, Code, HashBuilder, Sink};
use foyer_io_blocks::memory::MemoryDisk;
use foyer_storage_local::engine::{LocalEngine, MarkLog, NoLog};
use foyer_storage_local::load::{Enqueued, Load};
use foyer_testing::rows::first_difference;
use foyer_testing::said::Said;
use std::alloc::{Allocator, Global};
use std::test::Fail;

// A key whose hash is its low 64 bits.
#[derive(Clone, Copy, Debug, PartialEq, Eq)]
struct WideKey(u128);

const TWO_TO_64: u128 = 1 << 64;

impl<A: Allocator> Code<A> for WideKey {
    ghost encoding = { λ k. number_bytes w128 k.0 };

    ghost is_encodable = { λ k. nat_lt k.0 (2 ^ 128) };

    ghost is_decodable = { is_number w128 };

    ghost same = { λ k j. k.0 ≡ j.0 };

    ghost takes_memory = { λ _. ⊥ };

    fn encode_into<W: Sink>(&self, writer: &mut W) -> Result<()> {
        <u128 as Code<A>>::encode_into(&self.0, writer)
    }

    fn decode(alloc: A, bytes: &[u8]) -> Result<WideKey> {
        Ok(WideKey(<u128 as Code<A>>::decode(alloc, bytes)?))
    }

    fn estimated_size(&self) -> usize {
        <u128 as Code<A>>::estimated_size(&self.0)
    }

    ghost is_encoded = { λ k. number_encoded w128 k.0 };

    ghost one_value = { λ k j. one_number w128 k.0 j.0 };

    ghost coded = { λ k. number_coded w128 k.0 };
}

#[derive(Clone, Copy, Debug, Default)]
struct LowBits;

impl HashBuilder<WideKey> for LowBits {
    ghost hash_of = { λ _ key. key.0 % 2 ^ 64 };

    fn hash_one(&self, key: &WideKey) -> u64 {
        (key.0 % TWO_TO_64) as u64
    }
}

// A log of deletes that is a list.
#[derive(Drop)]
struct Marks(Vec<Tombstone>);

impl MarkLog for Marks {
    ghost appends = { λ _ _ _ _. Unit {0} };

    fn append_marks(&mut self, marks: &[Tombstone]) -> Result<()> {
        for mark in marks {
            self.0.push(*mark)?;
        }
        Ok(())
    }
}

type Opened<L> = LocalEngine<WideKey, Vec<u8>, TestAge, LowBits, Global, MemoryDisk<Global>, L>;

const BLOCK: usize = 16384;

// Gives the key of a word: its digits, and 2^64 more if a `b` ends the word.
fn key_of(word: &str) -> WideKey {
    match word.strip_suffix("b") {
        Some(digits) => WideKey(TWO_TO_64.saturating_add(digits.parse::<u128>().unwrap_or(0))),
        None => WideKey(word.parse::<u128>().unwrap_or(0)),
    }
}

// An engine over blocks of zeros, without a log.
fn opened_empty(alloc: Global) -> Result<Opened<NoLog>> {
    let env = Env::with_default_pickers(alloc, 0)?;
    LocalEngine::open(alloc, LowBits, env, Settings::new(2, BLOCK))
}

// One over blocks that were written, without a log.
fn opened_again(alloc: Global, disk: MemoryDisk<Global>) -> Result<Opened<NoLog>> {
    let env = Env::with_default_pickers(alloc, 0)?;
    let settings = Settings::new(2, BLOCK);
    LocalEngine::with_disk(alloc, LowBits, env, settings, disk, RecoverMode::Quiet)
}

// One whose log has these marks.
fn opened_logged(
    alloc: Global,
    disk: MemoryDisk<Global>,
    marks: &[Tombstone],
) -> Result<Opened<Marks>> {
    let env = Env::with_default_pickers(alloc, 0)?;
    let settings = Settings::new(2, BLOCK).with_tombstone_log(true);
    let log = Marks(Vec::new(alloc));
    let mode = RecoverMode::Quiet;
    LocalEngine::with_log(alloc, LowBits, env, settings, disk, mode, marks, log)
}

fn say_error(said: &mut Said, error: Error) {
    said.word(match error {
        Error::Closed => " Closed",
        Error::Memory => " Memory",
        _ => " another",
    });
}

fn say_done(said: &mut Said, done: Result<()>) {
    match done {
        Ok(()) => said.word(" ok"),
        Err(error) => say_error(said, error),
    }
}

fn say_enqueued(said: &mut Said, enqueued: Result<Enqueued>) {
    match enqueued {
        Ok(Enqueued::Queued) => said.word(" queued"),
        Ok(Enqueued::Ignored) => said.word(" ignored"),
        Ok(Enqueued::Deleted) => said.word(" deleted"),
        Err(error) => say_error(said, error),
    }
}

fn say_loaded(said: &mut Said, loaded: Result<Load<WideKey, Vec<u8>>>) {
    match loaded {
        Ok(
            Load::Entry {
                key: _,
                value,
                populated,
            },
        ) => {
            said.word(" ");
            said.word(str::from_utf8(&value).unwrap_or("?"));
            said.word(if populated.age == Age::Old {
                "/old"
            } else {
                ""
            });
        }
        Ok(Load::Throttled) => said.word(" throttled"),
        Ok(Load::Miss) => said.word(" miss"),
        Err(error) => say_error(said, error),
    }
}

fn say_question(said: &mut Said, asked: Result<bool>) {
    match asked {
        Ok(is) => said.flag(" ", is),
        Err(error) => say_error(said, error),
    }
}

fn bytes_of(alloc: Global, text: &str) -> Result<Vec<u8>> {
    let mut bytes = Vec::new(alloc);
    bytes.extend_from_slice(text.as_bytes())?;
    Ok(bytes)
}

fn put<L: MarkLog + Drop>(
    engine: &mut Opened<L>,
    value: Result<Vec<u8>>,
    key: WideKey,
    is_young: bool,
) -> Result<Enqueued> {
    match value {
        Ok(value) => engine.put(key, value, TestAge(is_young)),
        Err(error) => Err(error),
    }
}

// Notes what the engine answers to a word, a key and a text.
fn say_answer<L: MarkLog + Drop>(
    said: &mut Said,
    engine: &mut Opened<L>,
    alloc: Global,
    line: &str,
) {
    let (word, rest) = line.split_once(' ').unwrap_or((line, ""));
    let (key, text) = rest.split_once(' ').unwrap_or((rest, ""));
    let key = key_of(key);
    match word {
        "put" => say_enqueued(said, put(engine, bytes_of(alloc, text), key, false)),
        "young" => say_enqueued(said, put(engine, bytes_of(alloc, text), key, true)),
        "get" => say_loaded(said, engine.get(&key)),
        "throttled" => say_loaded(said, engine.load(&key, true)),
        "has" => say_question(said, engine.may_contains(&key)),
        "del" => say_done(said, engine.delete(&key)),
        "destroy" => say_done(said, engine.destroy()),
        "close" => say_done(said, engine.close()),
        _ => say_done(said, engine.wait()),
    }
}

// Notes what it answers to the lines of a script, which commas part, and gives its disk and log.
fn answered<L: MarkLog + Drop>(
    said: &mut Said,
    mut engine: Opened<L>,
    alloc: Global,
    script: &str,
) -> (MemoryDisk<Global>, L) {
    for line in script.split(", ") {
        say_answer(said, &mut engine, alloc, line);
    }
    said.word("\n");
    engine.into_parts()
}

// The newest put of a hash is its key's; the other key of that hash is a miss. A young piece isn't taken.
const ONE_HASH: &str =
    "put 7 a, get 7, wait, get 7, has 7b, get 7b, throttled 7, put 7b b, wait, get 7b, get 7, young 8 c, wait, get 8, has 8";

const DELETES: &str =
    "put 1 a, put 2 b, wait, del 1, get 1, has 1, wait, get 2, close, del 2, get 2";

const AGAIN: &str = "get 1, get 2, put 1 c, wait, get 1, destroy, get 1, get 2";

// A delete is forgotten by an opening without a log, and isn't with one.
const WANTED: &str =
    "one hash: queued miss ok a yes miss throttled queued ok b miss ignored ok miss no
deletes: queued queued ok ok miss no ok b ok Closed b
opened again: a b queued ok c ok miss miss
deletes with a log: queued queued ok ok miss no ok b ok Closed b
opened again with it: miss b queued ok c ok miss miss
";

fn say_unlogged(said: &mut Said, alloc: Global) -> Result<()> {
    said.word("one hash:");
    let _ = answered(said, opened_empty(alloc)?, alloc, ONE_HASH);
    said.word("deletes:");
    let (disk, _) = answered(said, opened_empty(alloc)?, alloc, DELETES);
    said.word("opened again:");
    let _ = answered(said, opened_again(alloc, disk)?, alloc, AGAIN);
    Ok(())
}

fn say_logged(said: &mut Said, alloc: Global) -> Result<()> {
    said.word("deletes with a log:");
    let disk = MemoryDisk::new(alloc, 2, BLOCK)?;
    let (disk, log) = answered(said, opened_logged(alloc, disk, &[])?, alloc, DELETES);
    said.word("opened again with it:");
    let _ = answered(said, opened_logged(alloc, disk, &log.0)?, alloc, AGAIN);
    Ok(())
}

fn answers_of(alloc: Global) -> Result<String> {
    let mut said = Said::new(alloc);
    say_unlogged(&mut said, alloc)?;
    say_logged(&mut said, alloc)?;
    said.text()
}

#[test]
fn an_engine_on_one_thread_answers_keys(rt: HostRuntime) -> std::result::Result<(), Fail> {
    let answers = answers_of(rt.alloc())?;
    assert_eq!(rt; first_difference(answers.as_str(), WANTED), None);
    Ok(())
}
