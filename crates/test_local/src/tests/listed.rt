//! What lies in directories: their files, and the list of their blocks.
use crate::tests::asked::number_of;
use crate::tests::directories::{is_cut, path_of};
use foyer_device_page::error::Result;
use foyer_format_checksum::Checksummer;
use foyer_list::list::list;
use foyer_testing::images::image;
use foyer_testing::said::Said;
use std::alloc::Global;
use std::fs::File;
use std::rt::Files;
use std::{fs, io};

fn words_of(alloc: Global, words: &str) -> Result<Vec<String>> {
    let mut all = Vec::new(alloc);
    for word in words.split(", ") {
        all.push(String::from_str(alloc, word)?)?;
    }
    Ok(all)
}

// The lines, a comma for each end of one.
fn say_lines(said: &mut Said, word: &str, bytes: &[u8]) {
    for line in str::from_utf8(bytes).unwrap_or("no text").lines() {
        said.word(word);
        said.word(line);
        said.word(",");
    }
}

// Of the lengths and bytes of a directory's first four files, as far as they are there, a number.
fn sum_of<R: Files<File = File> + AllocGlobal + Clone>(
    rt: &R,
    alloc: Global,
    directory: &str,
) -> Result<u64> {
    let mut sum = 0u64;
    for number in 0..4 {
        let path = path_of(alloc, directory, number)?;
        if let Ok(bytes) = fs::read(rt, path.as_str()) {
            let more = Checksummer::checksum64(bytes.as_slice()).wrapping_add(bytes.len() as u64);
            sum = sum.wrapping_mul(31).wrapping_add(more);
        }
    }
    Ok(sum)
}

// Notes the list of a directory, and whether its files stay as they are.
fn say_list<R: Files<File = File> + AllocGlobal + Clone>(
    rt: &R,
    alloc: Global,
    said: &mut Said,
    words: &str,
) -> Result<()> {
    let (directory, _) = words.split_once(", ").unwrap_or((words, ""));
    let before = sum_of(rt, alloc, directory)?;
    let all = words_of(alloc, words)?;
    let mut output = Vec::new(alloc);
    let mut errors = Vec::new(alloc);
    let status = list(rt, alloc, all.as_slice(), &mut output, &mut errors);
    say_lines(said, " ", output.as_slice());
    say_lines(said, " errors ", errors.as_slice());
    said.number(" status ", u64::from(status));
    said.flag(", stays ", before == sum_of(rt, alloc, directory)?);
    Ok(())
}

// Notes whether a directory is made whose first block is the one of a description.
fn say_forged<R: Files<File = File> + AllocGlobal + Clone>(
    rt: &R,
    alloc: Global,
    said: &mut Said,
    asked: &str,
) -> Result<()> {
    let (directory, description) = asked.split_once(" < ").unwrap_or((asked, ""));
    let bytes = image(alloc, description)?;
    let path = path_of(alloc, directory, 0)?;
    let is_made = fs::create_dir_all(rt, directory).is_ok();
    let is_written = fs::write(rt, path.as_str(), bytes.as_slice()).is_ok();
    said.flag(" ", is_made && is_written);
    Ok(())
}

// How many names a directory has.
fn count_of<R: Files<File = File> + AllocGlobal + Clone>(
    rt: &R,
    directory: &str,
) -> io::Result<u64> {
    let mut count = 0u64;
    for name in fs::read_dir(rt, directory)? {
        let _ = name?;
        count = count.saturating_add(1);
    }
    Ok(count)
}

fn len_of<R: Files<File = File> + AllocGlobal + Clone>(rt: &R, path: &str) -> io::Result<u64> {
    Ok(fs::metadata(rt, path)?.len())
}

fn say_number(said: &mut Said, number: io::Result<u64>) {
    match number {
        Ok(number) => said.number(" ", number),
        Err(_) => said.word(" missing"),
    }
}

fn say_text<R: Files<File = File> + AllocGlobal + Clone>(rt: &R, said: &mut Said, path: &str) {
    said.word(" ");
    match fs::read_to_string(rt, path) {
        Ok(text) => said.word(text.as_str()),
        Err(_) => said.word("missing"),
    }
}

/// Notes what a call of the files gives, or a list.
pub fn say_files<R: Files<File = File> + AllocGlobal + Clone>(
    rt: &R,
    alloc: Global,
    said: &mut Said,
    word: &str,
    asked: &str,
) -> Result<()> {
    match word {
        "list" => return say_list(rt, alloc, said, asked),
        "forge" => return say_forged(rt, alloc, said, asked),
        "cut" => {
            let (path, len) = asked.split_once(", ").unwrap_or((asked, ""));
            said.flag(" ", is_cut(rt, path, number_of(len)));
        }
        "names" => say_number(said, count_of(rt, asked)),
        "length" => say_number(said, len_of(rt, asked)),
        "text" => say_text(rt, said, asked),
        "make" => said.flag(" ", fs::create_dir_all(rt, asked).is_ok()),
        "file" => said.flag(" ", fs::write(rt, asked, "a file").is_ok()),
        "unlink" => said.flag(" ", fs::remove_file(rt, asked).is_ok()),
        _ => said.flag(" ", fs::remove_dir_all(rt, asked).is_ok()),
    }
    Ok(())
}
