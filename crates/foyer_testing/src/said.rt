//! What was answered, as one text. To note a part gives no error; only `text` gives one, so a test has one way out.
use foyer_device_page::error::{Error, Result};
use std::alloc::Global;
use std::fmt::Write as _;

/// A text, and whether a part of it is missing.
#[derive(Drop)]
pub struct Said {
    text: String,
    is_short: bool,
}

impl Said {
    pub fn new(alloc: Global) -> Said {
        Said {
            text: String::new(alloc),
            is_short: false,
        }
    }

    pub fn word(&mut self, word: &str) {
        if self.text.push_str(word).is_err() {
            self.is_short = true;
        }
    }

    /// Notes a word and a number.
    pub fn number(&mut self, word: &str, number: u64) {
        if write!(self.text, "{word}{number}").is_err() {
            self.is_short = true;
        }
    }

    /// Notes a word and `yes` or `no`.
    pub fn flag(&mut self, word: &str, is: bool) {
        self.word(word);
        self.word(if is { "yes" } else { "no" });
    }

    /// Notes that a part is missing.
    pub fn miss(&mut self) {
        self.is_short = true;
    }

    /// Gives the text. Errors: `Memory` if a part is missing.
    pub fn text(self) -> Result<String> {
        if self.is_short {
            return Err(Error::Memory);
        }
        Ok(self.text)
    }
}
