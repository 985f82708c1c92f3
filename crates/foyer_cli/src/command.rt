//! The lines that the program understands.
ghost use Rattle.std.specs.Prelude.{◌≡◌, ℕ, ◌-◌, ◌<◌, IfSome, MatchOption, slice_index};
ghost use Rattle.foyer_cli.specs.declared.command.Command.{Command};
ghost use Rattle.std.specs.Char.{IsAsciiDigit, IsNotAsciiDigit};
ghost use Rattle.foyer_cli.specs.Lines.{AreFour, IsLine, IsNumber};

use memchr::memchr;

/// One line of the input.
#[derive(Clone, Copy, Debug, PartialEq, Eq)]
pub enum Command<'a> {
    /// `put KEY TEXT`: the text is all that follows the space after the key, and may be empty.
    Put { key: u64, text: &'a str },
    /// `get KEY`.
    Get { key: u64 },
    /// `del KEY`.
    Delete { key: u64 },
    /// `wait`.
    Wait,
    /// `destroy`.
    Destroy,
    /// `close`.
    Close,
}

// A digit's number. None for any other byte.
fn digit(byte: u8) -> Option<u64>
    ensures small { IfSome result (λ n. n < 10) }
    ensures value { MatchOption result (IsNotAsciiDigit byte)
        (λ n. IsAsciiDigit byte × (n ≡ byte - 48)) }
{
    if byte.is_ascii_digit() {
        Some(u64::from(byte - b'0'))
    } else {
        None
    }
}

// Reads the number of four digits. Gives None if one of the bytes is no digit.
fn four_digits(four: &[u8; 4]) -> Option<u64>
    ensures { MatchOption result
        ((k : ℕ) × (k < 4) × IsNotAsciiDigit (slice_index four.now k)) (AreFour four.now) }
{
    let high = digit(four[0])? * 10 + digit(four[1])?;
    let low = digit(four[2])? * 10 + digit(four[3])?;
    Some(high * 100 + low)
}

/// Reads a number of decimal digits alone, at most `u64::MAX`. Gives `None` for all other bytes.
pub fn number(digits: &[u8]) -> Option<u64>
    ensures { MatchOption result ((n : ℕ) → ¬ (IsNumber digits.now n)) (IsNumber digits.now) }
{
    if digits.is_empty() {
        return None;
    }
    let (fours, rest) = digits.as_chunks::<4>();
    let mut value = 0u64;
    for four in fours {
        let number = four_digits(four)?;
        value = value.checked_mul(10_000)?.checked_add(number)?;
    }
    for byte in rest {
        let digit = digit(*byte)?;
        value = value.checked_mul(10)?.checked_add(digit)?;
    }
    Some(value)
}

impl<'a> Command<'a> {
    /// Reads a line without its end. Gives None if the line is no command, or its text isn't UTF-8.
    pub fn parse(line: &'a [u8]) -> Option<Command<'a>>
        ensures { MatchOption result ((c : Command) → ¬ (IsLine line.entry.now c))
            (IsLine line.entry.now) }
    {
        if let Some(rest) = line.strip_prefix(b"get ") {
            let key = number(rest)?;
            return Some(Command::Get { key });
        }
        if let Some(rest) = line.strip_prefix(b"put ") {
            let end = memchr(b' ', rest)?;
            let key = number(&rest[..end])?;
            let Ok(text) = str::from_utf8(&rest[end + 1..]) else {
                return None;
            };
            return Some(Command::Put { key, text });
        }
        if let Some(rest) = line.strip_prefix(b"del ") {
            let key = number(rest)?;
            return Some(Command::Delete { key });
        }
        match line {
            b"wait" => Some(Command::Wait),
            b"destroy" => Some(Command::Destroy),
            b"close" => Some(Command::Close),
            _ => None,
        }
    }
}
