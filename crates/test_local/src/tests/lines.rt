//! The lines of an input, one of which is longer than the buffer, also once that was doubled.
use crate::tests::asked::{cut, number_of};
use foyer_cli::lines::{Filled, Lines};
use foyer_device_page::error::Result;
use foyer_testing::refusing::Refusing;
use foyer_testing::said::Said;
use std::alloc::Global;

type Input<'a> = Lines<&'a [u8], &'a Refusing<Global>>;

// Notes the lengths of the lines that were read whole.
fn say_whole(said: &mut Said, lines: &mut Input<'_>) {
    for _ in 0..8 {
        let Some(line) = lines.next_whole() else {
            return;
        };
        said.number(" ", lines.bytes(line).len() as u64);
    }
}

// Notes the same of all lines, and says if memory doesn't hold one.
fn say_lines(said: &mut Said, lines: &mut Input<'_>) {
    for _ in 0..16 {
        say_whole(said, lines);
        match lines.fill() {
            Ok(Filled::More) => {}
            Ok(Filled::TooLong) => said.word(" too-long"),
            Ok(Filled::End) => {
                if let Some(line) = lines.last() {
                    said.number(" ", lines.bytes(line).len() as u64);
                }
                return;
            }
            Err(_) => return said.word(" Io"),
        }
    }
    said.miss();
}

/// Notes the lines of an input if an allocation is refused. The third line is longer than the buffer. It ends the input, or others follow.
pub fn say_input(alloc: Global, said: &mut Said, asked: &str) -> Result<()> {
    let (word, allocation) = cut(asked);
    let mut input = Vec::from_slice(alloc, b"get 1\nwait\n")?;
    input.resize(200_000, b'x')?;
    if word == "goes-on" {
        input.extend_from_slice(b"\nget 1\nput 1\nwait\n")?;
    }
    let heap = Refusing::new(alloc, number_of(allocation));
    match Lines::new(&heap, input.as_slice()) {
        Ok(mut lines) => say_lines(said, &mut lines),
        Err(_) => said.word(" none"),
    }
    Ok(())
}

/// Of lines their lengths.
pub const ROWS: &str = "lines ends 0 | 5 4 199989
lines ends 1 | none
lines ends 2 | 5 4 too-long
lines ends 3 | 5 4 too-long
lines ends 4 | 5 4 199989
lines goes-on 0 | 5 4 199989 5 5 4
lines goes-on 1 | none
lines goes-on 2 | 5 4 too-long 5 5 4
lines goes-on 3 | 5 4 too-long 5 5 4
lines goes-on 4 | 5 4 199989 5 5 4
";
