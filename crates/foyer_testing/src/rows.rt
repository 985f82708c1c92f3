//! Answers, compared line by line with the answers that are wanted.

/// A line that isn't as wanted. Lines count from 1. A line that is missing is empty.
#[derive(Clone, Copy, Debug, PartialEq, Eq)]
pub struct Difference<'a> {
    pub line: usize,
    pub answered: &'a str,
    pub wanted: &'a str,
}

/// Gives the first line that differs, or `None` if the texts are equal. If only line ends differ, it gives the line after the last, with
/// two empty texts.
pub fn first_difference<'a>(answered: &'a str, wanted: &'a str) -> Option<Difference<'a>> {
    if answered == wanted {
        return None;
    }
    let pairs = answered.lines().zip(wanted.lines());
    let equal = pairs
        .take_while(|(answered, wanted)| answered == wanted)
        .count();
    Some(Difference {
        line: equal.saturating_add(1),
        answered: answered.lines().nth(equal).unwrap_or(""),
        wanted: wanted.lines().nth(equal).unwrap_or(""),
    })
}
