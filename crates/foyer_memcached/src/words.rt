//! The words of a line, and the numbers that they write.
ghost use Rattle.std.specs.Prelude.{◌≡◌, ◌≢◌, ◌<◌, ◌≤◌, ◌∷◌, [], length, slice_index, MatchOption, Some, None, IfSome};
ghost use Rattle.foyer_memcached.specs.Words.{line_at, number_of, without_return, words};

use memchr::memchr;

// The line at the front of the bytes, without its line feed, and what stands behind that. None if there is no line feed.
pub(crate) fn split_line(bytes: &[u8]) -> Option<(&[u8], &[u8])>
    ensures { MatchOption result (line_at bytes.now ≡ None) (λ x. line_at bytes.now ≡ Some (x.0.now, x.1.now)) }
{
    let end = memchr(b'\n', bytes)?;
    Some((&bytes[..end], &bytes[end + 1..]))
}

// A line without the carriage return that may end it.
pub(crate) fn strip_return(line: &[u8]) -> &[u8]
    ensures { result.now ≡ without_return line.now }
{
    let len = line.len();
    if len > 0 && line[len - 1] == b'\r' {
        &line[..len - 1]
    } else {
        line
    }
}

// What follows the blanks at the front.
fn skip_blanks(line: &[u8]) -> &[u8]
    ensures words { words result.now ≡ words line.now }
    ensures first { 0 < length result.now → slice_index result.now 0 ≢ 32 }
    ensures len { length result.now ≤ length line.now }
{
    for (i, byte) in line.iter().enumerate() {
        if *byte != b' ' {
            return &line[i..];
        }
    }
    &[]
}

// The first word, and what follows it. None if there is no word.
pub(crate) fn split_word(line: &[u8]) -> Option<(&[u8], &[u8])>
    ensures words { MatchOption result (words line.now ≡ []) (λ x. words line.now ≡ x.0.now ∷ words x.1.now) }
    ensures shorter { IfSome result (λ x. length x.1.now < length line.now) }
{
    let rest = skip_blanks(line);
    if rest.is_empty() {
        return None;
    }
    match memchr(b' ', rest) {
        Some(end) => Some((&rest[..end], &rest[end + 1..])),
        None => Some((rest, &[])),
    }
}

/// Reads a number of decimal digits alone, at most `u64::MAX`. Gives `None` for all other bytes.
pub fn number(digits: &[u8]) -> Option<u64>
    ensures { result ≡ number_of digits.now }
{
    if digits.is_empty() {
        return None;
    }
    let mut value = 0u64;
    for byte in digits {
        if !byte.is_ascii_digit() {
            return None;
        }
        value = value.checked_mul(10)?.checked_add(u64::from(*byte - b'0'))?;
    }
    Some(value)
}

/// The words of a line that weren't taken yet.
#[derive(Clone, Copy, Debug, PartialEq, Eq)]
pub struct Words<'a> {
    rest: &'a [u8],
}

impl<'a> Words<'a> {
    /// Gives the words of a line: what stands before, between and behind its blanks, without what is empty.
    pub fn new(line: &'a [u8]) -> Words<'a>
        ensures { words result.rest.now ≡ words line.now }
    {
        Words { rest: line }
    }

    pub(crate) fn rest(self) -> &'a [u8]
        ensures { result.now ≡ self.entry.rest.now }
    {
        self.rest
    }

    /// Takes the next word. `None` if there is none.
    pub fn next(&mut self) -> Option<&'a [u8]>
        ensures { MatchOption result ((words self.old.rest.now ≡ []) × (words self.new.rest.now ≡ [])) (λ w. words self.old.rest.now ≡ w.now ∷ words self.new.rest.now) }
    {
        match split_word(self.rest) {
            Some((word, rest)) => {
                self.rest = rest;
                Some(word)
            }
            None => None,
        }
    }
}
