//! Who has a directory, and for which shape: scripts of locks, with their answers.
use crate::tests::tables::{asked, cut, number};
use foyer_device_page::error::Result;
use foyer_directory::lock::{DirectoryLock, LockError};
use foyer_directory::shape::{DirectoryShape, WantedShape};
use foyer_testing::rows::first_difference;
use foyer_testing::said::Said;
use std::alloc::Global;
use std::fs;
use std::test::Fail;

// A shape, its block size, its number of cores and `1` for a log behind each other.
fn shape(words: &str) -> DirectoryShape {
    let (block_size, rest) = cut(words);
    let (cores, log) = cut(rest);
    DirectoryShape::new(number(block_size), number(cores), log == "1")
}

// The line that says why a directory isn't locked, without its end.
fn say_line(said: &mut Said, alloc: Global, refusal: &LockError, directory: &str) {
    let mut line = Vec::new(alloc);
    if refusal.print(&mut line, "test", directory).is_ok() {
        let text = str::from_utf8(line.as_slice()).unwrap_or("no text");
        said.word(text.trim_end_matches('\n'));
    }
}

// Holds a lock that was taken. If it was refused, says the kind of the error, or the whole line.
fn say_taken(
    said: &mut Said,
    alloc: Global,
    held: &mut Vec<DirectoryLock>,
    taken: std::result::Result<DirectoryLock, LockError>,
    directory: &str,
    is_whole: bool,
) -> Result<()> {
    match taken {
        Ok(lock) => {
            held.push(lock)?;
            said.word("held");
        }
        Err(refusal) if is_whole => say_line(said, alloc, &refusal, directory),
        Err(refusal) => said.word(refusal.error().kind().name()),
    }
    Ok(())
}

// Takes a lock: `within` tries twice more, and `why` says the line of a refusal.
fn say_lock(
    said: &mut Said,
    rt: &HostRuntime,
    held: &mut Vec<DirectoryLock>,
    word: &str,
    words: &str,
) -> Result<()> {
    let (directory, words) = cut(words);
    let shape = shape(words);
    let taken = if word == "within" {
        DirectoryLock::take_within(rt, rt.alloc(), directory, &shape, 2)
    } else {
        DirectoryLock::take(rt, rt.alloc(), directory, &shape)
    };
    say_taken(said, rt.alloc(), held, taken, directory, word == "why")
}

// Takes a lock for a shape that may leave its log to the directory, and says whether that has one.
fn say_wanted(
    said: &mut Said,
    rt: &HostRuntime,
    held: &mut Vec<DirectoryLock>,
    words: &str,
) -> Result<()> {
    let (directory, words) = cut(words);
    let (block_size, rest) = cut(words);
    let (cores, log) = cut(rest);
    let wanted = WantedShape {
        block_size: number(block_size),
        cores: number(cores),
        log: match log {
            "0" => Some(false),
            "1" => Some(true),
            _ => None,
        },
    };
    match DirectoryLock::take_wanted_within(rt, rt.alloc(), directory, &wanted, 1) {
        Ok((lock, shape)) => {
            held.push(lock)?;
            said.word(if shape.has_log { "logged" } else { "unlogged" });
        }
        Err(refusal) => said.word(refusal.without_number().error().kind().name()),
    }
    Ok(())
}

// The text of a file, with a bar for each line's end.
fn say_file(said: &mut Said, rt: &HostRuntime, path: &str) {
    match fs::read(rt, path) {
        Ok(bytes) => {
            for part in str::from_utf8(bytes.as_slice())
                .unwrap_or("no text")
                .lines()
            {
                said.word(part);
                said.word("/");
            }
        }
        Err(_) => said.word("none"),
    }
}

fn say_call(
    said: &mut Said,
    rt: &HostRuntime,
    held: &mut Vec<DirectoryLock>,
    call: &str,
) -> Result<()> {
    let (word, rest) = cut(call);
    let (path, text) = cut(rest);
    match word {
        "take" | "why" | "within" => return say_lock(said, rt, held, word, rest),
        "want" => return say_wanted(said, rt, held, rest),
        "drop" => said.flag("", held.pop().is_some()),
        "forget" => match held.pop() {
            Some(lock) => {
                lock.forget();
                said.flag("", true);
            }
            None => said.flag("", false),
        },
        "read" => say_file(said, rt, path),
        "write" => said.flag("", fs::write(rt, path, text).is_ok()),
        "mkdir" => said.flag("", fs::create_dir(rt, path).is_ok()),
        _ => said.flag("", fs::remove_dir_all(rt, path).is_ok()),
    }
    Ok(())
}

// Says what calls answer. What is held at the end is dropped.
fn say_row(said: &mut Said, rt: &HostRuntime, calls: &str) -> Result<()> {
    let mut held = Vec::new(rt.alloc());
    let mut is_first = true;
    for call in calls.split(", ") {
        if !is_first {
            said.word(", ");
        }
        is_first = false;
        say_call(said, rt, &mut held, call)?;
    }
    Ok(())
}

const ROWS: &str = "one lock is held at a time, until it is dropped
take one 4096 1 0, take one 4096 1 0, drop, drop, take one 4096 1 0 | held, Io, yes, no, held
within one 4096 1 0, within one 4096 1 0, drop, within one 4096 1 0, drop, within one 8192 1 0 | held, Io, yes, held, yes, Config
the file has the line of the first shape, and each later lock is for this shape
take made/below 4096 2 1, drop, read made/below/foyer.lock, take made/below 4096 2 1, drop | held, yes, block=4096 cores=2 log=1/, held, yes
take made/below 8192 2 1, take made/below 4096 1 1, take made/below 4096 20 1, take made/below 4096 2 0, read made/below/foyer.lock | Config, Config, Config, Config, block=4096 cores=2 log=1/
a block size is rounded up to whole pages
take whole 4095 1 0, drop, read whole/foyer.lock, take whole 4096 1 0, drop, take whole 4097 1 0, forget, take whole 8192 1 0 | held, yes, block=4096 cores=1 log=0/, held, yes, Config, no, Config
a first lock can be forgotten, a later one isn't
take gone 4096 1 0, forget, read gone/foyer.lock, take gone 8192 1 0, drop, take gone 8192 1 0, forget, take gone 4096 1 0, take gone 8192 1 0 | held, yes, , held, yes, held, yes, Config, held
a shape that isn't kept leaves no lock
take made/below 4096 2 0, take made/below 4096 2 1 | Config, held
a line that was begun is ended, and a file of something else stays
mkdir begun, write begun/foyer.lock block=4096 cores=2, take begun 4096 21 0, drop, read begun/foyer.lock | yes, yes, held, yes, block=4096 cores=21 log=0/
mkdir other, write other/foyer.lock block=4096 cores=2 log=0, take other 4096 2 1, read other/foyer.lock, take other 4096 2 0, read other/foyer.lock | yes, yes, Config, block=4096 cores=2 log=0/, held, block=4096 cores=2 log=0/
write other/foyer.lock text of another program that has no end before a line of a shape would have one, take other 4096 2 0, read other/foyer.lock | yes, Config, text of another program that has no end before a line of a shape would have one/
the greatest numbers have room
take great 18446744073709551615 18446744073709551615 1, drop, take great 18446744073709551615 18446744073709551615 1, read great/foyer.lock | held, yes, held, block=18446744073709551615 cores=18446744073709551615 log=1/
a directory that can't be made, and a lock that is none, are Io
write great/file a, take great/file/below 4096 1 0, mkdir none, mkdir none/foyer.lock, take none 4096 1 0 | yes, Io, yes, yes, Io
a log that nobody asks for or declines is the directory's: a new one gets one, and one without a line that has blocks has none
want fresh 4096 1 ?, want fresh 4096 1 ?, drop, read fresh/foyer.lock, want fresh 4096 1 ?, drop, want fresh 4096 1 0, want fresh 8192 1 ?, want fresh 4096 1 1 | logged, Io, yes, block=4096 cores=1 log=1/, logged, yes, Config, Config, logged
take old 4096 1 0, drop, want old 4096 1 ?, drop, want old 4096 1 1, want old 4096 1 0 | held, yes, unlogged, yes, Config, unlogged
mkdir before, write before/foyer-storage-direct-fs-00000000 x, want before 4096 1 ?, drop, read before/foyer.lock | yes, yes, unlogged, yes, block=4096 cores=1 log=0/
mkdir parts, mkdir parts/core-0, write parts/core-0/foyer-storage-direct-fs-00000000 x, want parts 4096 2 ?, forget, want parts 4096 2 1, forget, read parts/foyer.lock | yes, yes, yes, unlogged, yes, logged, yes, 
mkdir half, write half/foyer.lock block=40, want half 4096 1 ?, drop, read half/foyer.lock | yes, yes, logged, yes, block=4096 cores=1 log=1/
want none 4096 1 ? | Io
clear fresh, clear old, clear before, clear parts, clear half | yes, yes, yes, yes, yes
a refusal is a line
why made/below 4096 2 1, why made/below 4096 2 1, why made/below 4096 2 0, why none 4096 1 0 | held, test: made/below: the directory is in use: Io, test: made/below: the directory is in use: Io, test: none: the directory couldn't be opened: Is a directory (os error 21)
why made/below 4096 2 0 | test: made/below: its block size, cores and log must be those in its foyer.lock: Config
clear one, clear made, clear whole, clear gone, clear begun, clear other, clear great, clear none | yes, yes, yes, yes, yes, yes, yes, yes
";

#[test]
fn a_directory_has_one_holder_and_one_shape(rt: HostRuntime) -> std::result::Result<(), Fail> {
    let mut said = Said::new(rt.alloc());
    for row in ROWS.lines() {
        let asked = asked(row);
        said.word(asked);
        if asked != row {
            said.word(" | ");
            if let Err(error) = say_row(&mut said, &rt, asked) {
                said.word(error.kind().name());
            }
        }
        said.word("\n");
    }
    let answers = said.text()?;
    assert_eq!(rt; first_difference(answers.as_str(), ROWS), None);
    Ok(())
}
