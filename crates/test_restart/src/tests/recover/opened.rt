//! A core that is opened over forged blocks: what it lists, and what its loads answer of forged records.
use crate::tests::restart::running::TextCore;
use foyer_core_run::accesses::load;
use foyer_core_steps::apply::Env;
use foyer_core_steps::open::RecoverMode;
use foyer_core_steps::reply::Reply;
use foyer_core_steps::settings::Settings;
use foyer_core_steps::state::Core;
use foyer_core_steps::step::Step;
use foyer_device_page::error::Result;
use foyer_testing::forged::{BLOCK_SIZE, ForgedDisk};
use foyer_testing::images::image;
use foyer_testing::rows::first_difference;
use foyer_testing::said::Said;
use std::alloc::Global;
use std::test::Fail;

// A core with what its loads need.
#[derive(Drop)]
struct Opened {
    core: TextCore,
    env: Env,
    disk: ForgedDisk,
    spare: Vec<u8>,
}

// A core over one block of this description.
fn open(alloc: Global, description: &str) -> Result<Opened> {
    let mut disk = ForgedDisk::new(alloc, 1)?;
    disk.bytes = image(alloc, description)?;
    let mut env = Env::with_default_pickers(alloc, 0)?;
    let settings = Settings::new(1, BLOCK_SIZE);
    let mode = RecoverMode::Strict;
    let core = Core::open(alloc, &mut env, settings, &mut disk, mode, &[])?;
    Ok(Opened {
        core,
        env,
        disk,
        spare: Vec::new(alloc),
    })
}

// Notes what a load of a hash answers.
fn say_load(said: &mut Said, opened: &mut Opened, hash: u64) {
    let Opened {
        core,
        env,
        disk,
        spare,
    } = opened;
    match load(core, env, disk, spare, hash, false) {
        Ok(Reply::Entry { value, .. }) => said.word(value.as_str()),
        Ok(Reply::Miss) => said.word("miss"),
        Ok(Reply::Refused(kind, _)) => said.word(kind.name()),
        _ => said.word("another"),
    }
}

// Notes whether a hash is indexed.
fn say_whether(said: &mut Said, opened: &mut Opened, hash: u64) {
    let step = Step::MayContains { hash };
    match opened.core.apply(&mut opened.env, step) {
        Reply::Answer(is) => said.flag("", is),
        _ => said.word("another"),
    }
}

// Notes the sequence that is drawn next.
fn say_next(said: &mut Said, opened: &mut Opened) {
    let step = Step::Delete { hash: 1000 };
    match opened.core.apply(&mut opened.env, step) {
        Reply::Deleted(sequence) => said.number("", sequence),
        Reply::Refused(kind, _) => said.word(kind.name()),
        _ => said.word("another"),
    }
}

// Whether the block may be written: a wait makes a batch, which takes it.
fn is_clean(opened: &mut Opened) -> bool {
    let Opened { core, env, .. } = opened;
    let _ = core.apply(env, Step::Wait { flusher: 0, id: 1 });
    let _ = core.apply(env, Step::Receive { flusher: 0 });
    let _ = core.apply(env, Step::FlushBegin { flusher: 0 });
    match core.apply(env, Step::FlushBlock { flusher: 0 }) {
        Reply::Write { .. } => true,
        _ => false,
    }
}

fn say_line(said: &mut Said, opened: &mut Opened, line: &str) {
    let (word, number) = line.split_once(' ').unwrap_or((line, ""));
    let hash = number.parse::<u64>().unwrap_or(0);
    match word {
        "get" => say_load(said, opened, hash),
        "has" => say_whether(said, opened, hash),
        "next" => say_next(said, opened),
        _ => said.flag("", is_clean(opened)),
    }
}

// Notes what a core over a block of this description answers to lines, or why it isn't opened.
fn say_block(alloc: Global, said: &mut Said, description: &str, script: &str) {
    match open(alloc, description) {
        Ok(mut opened) => {
            for line in script.split(", ") {
                said.word(" ");
                say_line(said, &mut opened, line);
            }
        }
        Err(error) => {
            said.word(" refused ");
            said.word(error.kind().name());
        }
    }
}

fn rows_of(alloc: Global, rows: &str) -> Result<String> {
    let mut said = Said::new(alloc);
    for row in rows.lines() {
        let (asked, _) = row.split_once(" | ").unwrap_or((row, ""));
        said.word(asked);
        if let Some((description, script)) = asked.split_once(" < ") {
            said.word(" |");
            say_block(alloc, &mut said, description, script);
        }
        said.word("\n");
    }
    said.text()
}

// A name, and below it the block, what is asked, and what is answered: of `get` what a load gives, of `has` whether a hash is
// indexed, of `next` the sequence that is drawn next, of `clean` whether the block is written next. Each index has a right
// checksum unless a bit is flipped.
const ROWS: &str =
    "an index that lies where an entry has its record, and an entry whose record is zeros: both are found, and each goes when it is loaded
index 0 1 5 4096 53; index 8192 9 6 4096 53 < has 1, has 9, get 9, has 9, get 1, has 1, get 2, next | yes yes miss no miss no miss 7
with a right record it is an entry
index 0 1 5 4096 53; index 8192 9 6 4096 53; record 12288 9 9 6 plain x < get 9, get 9, has 9, get 1, has 1, next | x x yes miss no 7
a record that says another hash, or another sequence, is a miss and goes
index 0 1 5 4096 53; record 4096 1 2 5 plain x < has 1, get 1, has 1, get 2, next | yes miss no miss 6
index 0 1 5 4096 53; record 4096 1 1 6 plain x < has 1, get 1, has 1, next | yes miss no 6
index 0 9 6 4096 53; record 4096 9 9 7 plain x < get 9, get 9, has 9 | miss miss no
a record that is listed shorter or longer than it is is a miss and goes
index 0 9 6 4096 52; record 4096 9 9 6 plain x < has 9, get 9, has 9 | yes miss no
index 0 9 6 4096 54; record 4096 9 9 6 plain x < has 9, get 9, has 9 | yes miss no
an index without entries ends the block, whatever stands behind it
index 0; full 8192 20 < has 20, has 189, get 20, next, clean | no no miss 1 yes
full 0 20 < has 20, has 189, get 20, get 189, next, clean | yes yes miss miss 171 no
entries are listed in any order of their offsets, and the next index stands behind the last of them
index 0 1 1 8192 53, 2 2 4096 53; index 8192 9 6 4096 53; record 4096 2 2 2 plain x; record 12288 9 9 6 plain x < get 2, get 9, has 1, get 1, has 1, next, clean | x x yes miss no 7 no
a compressed record is named each time, and stays
index 0 9 6 4096 53; record 4096 9 9 6 zstd x < get 9, get 9, has 9 | Unsupported Unsupported yes
a text that is none is named each time, and stays
index 0 9 6 4096 53; record 4096 9 9 6 plain FF < get 9, get 9, has 9 | Parse Parse yes
a record of an unknown compression, or of another magic number, is a miss and goes
index 0 9 6 4096 53; record 4096 9 9 6 three x < has 9, get 9, has 9 | yes miss no
index 0 9 6 4096 53; record 4096 9 9 6 other x < has 9, get 9, has 9 | yes miss no
a record that is damaged is a miss and goes
index 0 9 6 4096 53; record 4096 9 9 6 plain x; flip 4140 < has 9, get 9, has 9 | yes miss no
an index whose checksum is off by one bit lists nothing
index 0 9 6 4096 53; record 4096 9 9 6 plain x; flip 7 < has 9, get 9, next, clean | no miss 1 yes
index 0 9 6 4096 53; record 4096 9 9 6 plain x; flip 4095 < has 9, get 9, next, clean | no miss 1 yes
the last sequence refuses the opening, and the one before it leaves none to be drawn
index 0 9 18446744073709551615 4096 53 < next | refused SequenceEnd
index 0 9 18446744073709551614 4096 53 < next | SequenceEnd
";

#[test]
fn a_core_over_forged_blocks_answers_each_call(rt: HostRuntime) -> std::result::Result<(), Fail> {
    let answers = rows_of(rt.alloc(), ROWS)?;
    assert_eq!(rt; first_difference(answers.as_str(), ROWS), None);
    Ok(())
}
