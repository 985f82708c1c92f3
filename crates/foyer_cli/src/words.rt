//! Words that programs refuse, and help.
ghost use Rattle.std.specs.Prelude.{◌≡◌, ◌⊎◌, ◌↔◌, ◌++◌, IfErr, IfOk, IsTrue, OnOk, codes, take};
ghost use Rattle.std.specs.Io.KnownBytes.{Appends};
ghost use Rattle.foyer_cli.specs.Arguments.{AreWords, AskHelp, bad_text};
ghost use Rattle.foyer_cli.specs.declared.options.Options.{Options as Sizes};

use crate::command::number;
use crate::options::Options;
use std::alloc::Allocator;
use std::io;
use std::io::Write;

/// Whether the words ask for help: `--help` alone.
pub fn ask_help<A: Allocator>(words: &[String<A>]) -> bool
    ensures { IsTrue result ↔ AskHelp words.now }
{
    match words {
        [word] => word.as_str() == "--help",
        _ => false,
    }
}

/// Prints a program's usage and its settings, and gives the exit status: 0, or 1 if the output failed.
pub fn print_help<W: Write + Drop>(mut output: W, usage: &str, settings: &str) -> u8
    ensures { (result ≡ 0) ⊎ (result ≡ 1) }
{
    let is_written = output.write_all(usage.as_bytes()).is_ok()
        && output.write_all(settings.as_bytes()).is_ok()
        && output.flush().is_ok();
    if is_written { 0 } else { 1 }
}

/// Why words are refused, and which of them is bad, or `""` if a word is missing.
#[derive(Clone, Copy, Debug, PartialEq, Eq)]
pub struct BadWord<'a> {
    /// What is wrong.
    pub what: &'static str,
    /// The word.
    pub word: &'a str,
}

impl BadWord<'_> {
    /// Prints a line: the program, what is wrong, and the word. An error is the writer's.
    pub fn print<W: Write>(&self, errors: &mut W, program: &str) -> io::Result<()>
        ensures { OnOk result (Appends (W.contents errors.old) (W.contents errors.new) (bad_text program.now self.now)) }
    {
        errors.write_all(program.as_bytes())?;
        errors.write_all(b": ")?;
        errors.write_all(self.what.as_bytes())?;
        errors.write_all(self.word.as_bytes())?;
        errors.write_all(b"\n")
    }
}

/// Reads the directory and the sizes, which are the first three of the words. If they can't be read, says which of them is bad.
pub fn sizes_of<A: Allocator>(words: &[String<A>]) -> std::result::Result<Options<'_>, BadWord<'_>>
    ensures sizes { IfOk result (AreWords (take 3 words.now)) }
    ensures refused { IfErr result (λ _. (o : Sizes) → ¬ AreWords (take 3 words.now) o) }
{
    if words.len() < 3 {
        return Err(BadWord {
            what: "DIR, CAPACITY or BLOCK is missing, or a word isn't UTF-8",
            word: "",
        });
    }
    match Options::parse(&words[..3]) {
        Some(sizes) => Ok(sizes),
        None => Err(BadWord {
            what: "no number of bytes: ",
            word: bad_number(words[1].as_str(), words[2].as_str()),
        }),
    }
}

// The first of two words that is no number, if one isn't.
fn bad_number<'a>(first: &'a str, second: &'a str) -> &'a str {
    if number(first.as_bytes()).is_none() {
        first
    } else {
        second
    }
}
