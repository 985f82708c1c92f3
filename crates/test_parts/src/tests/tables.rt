//! What the tables of these tests share. A line of a table is `opening < calls | answers`, or a name above its lines.
use foyer_device_page::error::Error;
use foyer_testing::said::Said;

// What a line asks: all before its answers.
pub fn asked(row: &str) -> &str {
    row.split_once(" | ").unwrap_or((row, "")).0
}

// The first word, and the others.
pub fn cut(words: &str) -> (&str, &str) {
    words.split_once(' ').unwrap_or((words, ""))
}

pub fn number(word: &str) -> u64 {
    word.parse::<u64>().unwrap_or(0)
}

pub fn size(word: &str) -> usize {
    word.parse::<usize>().unwrap_or(0)
}

// `ok`, or the name of the error.
pub fn say_done(said: &mut Said, answer: Result<(), Error>) {
    match answer {
        Ok(()) => said.word("ok"),
        Err(error) => said.word(error.kind().name()),
    }
}

fn say_run(said: &mut Said, before: &str, many: u64, byte: u8) {
    said.number(before, many);
    said.number("*", u64::from(byte));
}

// Bytes as runs of equal ones: `10*6+4086*0`.
pub fn say_runs(said: &mut Said, bytes: &[u8]) {
    let mut before = "";
    let mut many = 0u64;
    let mut last = 0u8;
    for byte in bytes {
        if many > 0 && *byte != last {
            say_run(said, before, many, last);
            before = "+";
            many = 0;
        }
        last = *byte;
        many = many.saturating_add(1);
    }
    if many > 0 {
        say_run(said, before, many, last);
    }
}
