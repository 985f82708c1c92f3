//! A line of a script that drives a core.

// A line: a word, a number, and what stands behind it, also as a number.
#[derive(Clone, Copy)]
pub struct Line<'a> {
    pub word: &'a str,
    pub number: u64,
    pub text: &'a str,
    pub len: u64,
}

pub fn parse(line: &str) -> Line<'_> {
    let (word, rest) = line.split_once(' ').unwrap_or((line, ""));
    let (first, text) = rest.split_once(' ').unwrap_or((rest, ""));
    Line {
        word,
        number: first.parse::<u64>().unwrap_or(0),
        text,
        len: text.parse::<u64>().unwrap_or(0),
    }
}

// A line of a word and two numbers.
pub fn line_of(word: &str, number: u64, len: u64) -> Line<'_> {
    Line {
        word,
        number,
        text: "",
        len,
    }
}
