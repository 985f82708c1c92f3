//! What the program over a store answers to lines, also over a directory with a forged block.
use foyer_core_tally::book::Blanks;
use foyer_device_page::error::Result;
use foyer_program::serve::serve;
use foyer_testing::images::image;
use foyer_testing::said::Said;
use std::alloc::Global;
use std::fs::File;
use std::io::{ErrorKind, Read, Write};
use std::marker::Brand;
use std::rt::Files;
use std::sync::Wait;
use std::thread::Threads;
use std::{fs, io};

// What it printed, and its status.
#[derive(Drop)]
struct Printed {
    output: Vec<u8>,
    errors: Vec<u8>,
    status: u8,
}

// An output of which each write fails, and an input of which each read does.
#[derive(Drop)]
struct Broken;

impl Write for Broken {
    fn write(&mut self, _buf: &[u8]) -> io::Result<usize> {
        Err(ErrorKind::BrokenPipe.into())
    }

    fn flush(&mut self) -> io::Result<()> {
        Ok(())
    }
}

impl Read for Broken {
    fn read(&mut self, _buf: &mut [u8]) -> io::Result<usize> {
        Err(ErrorKind::BrokenPipe.into())
    }
}

// Its status.
fn status_of<
    R: Threads + Wait + std::rt::Clock + Files<File = File> + AllocGlobal + Copy + Send + 'static,
    I: Read + Drop,
    O: Write + Drop,
>(rt: R, alloc: Global, words: &[String], input: I, output: O, errors: &mut Vec<u8>) -> u8 {
    serve::<Brand, R, _, _, _, _>(
        rt,
        alloc,
        Blanks::new(1 << 32),
        words,
        input,
        output,
        errors,
    )
}

fn served<
    R: Threads + Wait + std::rt::Clock + Files<File = File> + AllocGlobal + Copy + Send + 'static,
>(rt: R, alloc: Global, words: &[String], input: &[u8]) -> Printed {
    let mut output = Vec::new(alloc);
    let mut errors = Vec::new(alloc);
    let status = status_of(rt, alloc, words, input, &mut output, &mut errors);
    Printed {
        output,
        errors,
        status,
    }
}

fn words_of(alloc: Global, words: &str) -> Result<Vec<String>> {
    let mut all = Vec::new(alloc);
    for word in words.split(", ") {
        all.push(String::from_str(alloc, word)?)?;
    }
    Ok(all)
}

// A hundred letters.
const LETTERS: &str =
    "xxxxxxxxxxxxxxxxxxxxxxxxxxxxxxxxxxxxxxxxxxxxxxxxxxxxxxxxxxxxxxxxxxxxxxxxxxxxxxxxxxxxxxxxxxxxxxxxxxxx";

// A line; a number after a star stands for so many hundreds of letters.
fn add_line(input: &mut Said, line: &str) {
    let (begin, count) = line.split_once('*').unwrap_or((line, "0"));
    input.word(begin);
    for _ in 0..count.parse::<u64>().unwrap_or(0) {
        input.word(LETTERS);
    }
    input.word("\n");
}

// The lines of a script; a byte of 1 stands for one that no text has.
fn input_of(alloc: Global, script: &str) -> Result<Vec<u8>> {
    let mut input = Said::new(alloc);
    for line in script.split(", ") {
        add_line(&mut input, line);
    }
    let mut bytes = Vec::from_slice(alloc, input.text()?.as_bytes())?;
    for byte in bytes.iter_mut() {
        if *byte == 1 {
            *byte = 0xff;
        }
    }
    Ok(bytes)
}

// A line, whose letters at its end are said as `add_line` takes them.
fn say_line(said: &mut Said, line: &str) {
    let begin = line.trim_end_matches('x');
    let count = line.len().saturating_sub(begin.len());
    if count < 100 || !count.is_multiple_of(100) {
        said.word(line);
    } else {
        said.word(begin);
        said.number("*", (count / 100) as u64);
    }
    said.word(", ");
}

// The lines, a comma for each end of one, and the status.
fn say_printed(said: &mut Said, printed: &Printed) {
    for line in str::from_utf8(printed.output.as_slice())
        .unwrap_or("no text")
        .lines()
    {
        say_line(said, line);
    }
    for line in str::from_utf8(printed.errors.as_slice())
        .unwrap_or("no text")
        .lines()
    {
        said.word("errors ");
        say_line(said, line);
    }
    said.number("status ", u64::from(printed.status));
}

/// Notes the program's status if its output is broken. Without lines its input is broken too.
pub(crate) fn say_broken<
    R: Threads + Wait + std::rt::Clock + Files<File = File> + AllocGlobal + Copy + Send + 'static,
>(rt: R, alloc: Global, said: &mut Said, asked: &str) -> Result<()> {
    let (words, script) = asked.split_once(" < ").unwrap_or((asked, ""));
    let input = input_of(alloc, script)?;
    let words = words_of(alloc, words)?;
    let mut errors = Vec::new(alloc);
    let status = if script.is_empty() {
        status_of(rt, alloc, words.as_slice(), Broken, Broken, &mut errors)
    } else {
        status_of(
            rt,
            alloc,
            words.as_slice(),
            input.as_slice(),
            Broken,
            &mut errors,
        )
    };
    said.number("status ", u64::from(status));
    Ok(())
}

/// Notes what it answers to lines, which commas part, the last of which has an end or not: before them come its arguments.
pub(crate) fn say_served<
    R: Threads + Wait + std::rt::Clock + Files<File = File> + AllocGlobal + Copy + Send + 'static,
>(rt: R, alloc: Global, said: &mut Said, asked: &str, is_ended: bool) -> Result<()> {
    let (words, script) = asked.split_once(" < ").unwrap_or((asked, ""));
    let mut input = input_of(alloc, script)?;
    if !is_ended {
        let _ = input.pop();
    }
    let words = words_of(alloc, words)?;
    let printed = served(rt, alloc, words.as_slice(), input.as_slice());
    say_printed(said, &printed);
    Ok(())
}

fn path_of(alloc: Global, directory: &str) -> Result<String> {
    let mut path = Said::new(alloc);
    path.word(directory);
    path.word("/foyer-storage-direct-fs-00000000");
    path.text()
}

/// Notes whether a directory is made whose first block is the one of a description.
pub(crate) fn say_forged<R: Files<File = File>>(
    rt: &R,
    alloc: Global,
    said: &mut Said,
    asked: &str,
) -> Result<()> {
    let (directory, description) = asked.split_once(" < ").unwrap_or((asked, ""));
    let bytes = image(alloc, description)?;
    let path = path_of(alloc, directory)?;
    let is_made = fs::create_dir_all(rt, directory).is_ok();
    let is_written = fs::write(rt, path.as_str(), bytes.as_slice()).is_ok();
    said.flag("", is_made && is_written);
    Ok(())
}

/// Notes whether a call of the files went well, or of `length` the length of a file.
pub(crate) fn say_file<R: Files<File = File> + AllocGlobal>(
    rt: &R,
    said: &mut Said,
    word: &str,
    path: &str,
) {
    match word {
        "make" => said.flag("", fs::create_dir_all(rt, path).is_ok()),
        "touch" => said.flag("", fs::write(rt, path, "a file").is_ok()),
        "unlink" => said.flag("", fs::remove_file(rt, path).is_ok()),
        "remove" => said.flag("", fs::remove_dir_all(rt, path).is_ok()),
        _ => match fs::metadata(rt, path) {
            Ok(metadata) => said.number("", metadata.len()),
            Err(_) => said.word("missing"),
        },
    }
}
