//! The lines of a reader, in one buffer that is used again.
ghost use Rattle.std.specs.Prelude.{◌≤◌, ◌<◌, vec_len};

use memchr::memchr;
use std::alloc::{AllocError, Allocator};
use std::io;
use std::io::Read;

// The buffer's first size in bytes.
const FIRST_CAPACITY: usize = 64 * 1024;

/// The place of a line in the buffer, without the line's end.
#[derive(Clone, Copy, Debug, PartialEq, Eq)]
pub struct Line {
    start: usize,
    end: usize,
}

/// What `Lines::fill` found.
#[derive(Clone, Copy, Debug, PartialEq, Eq)]
pub enum Filled {
    /// More was read.
    More,
    /// The input has ended.
    End,
    /// The buffer can't grow to hold the line that has begun. The line is passed over, up to its end.
    TooLong,
}

/// A reader's lines. A line is borrowed from the buffer. The buffer grows only if one line fills it.
pub struct Lines<R: Read + Drop, A: Allocator> {
    input: R,
    buffer: Vec<u8, A>,
    // The bytes from `start` to `end` have been read and not been taken; up to `searched` there is no line's end.
    start: usize,
    searched: usize,
    end: usize,
    // Whether the next bytes are the rest of a line that was too long.
    is_skipping: bool,
    ghost in_order: { start ≤ searched },
    ghost searched_in: { searched ≤ end },
    ghost in_buffer: { end ≤ vec_len buffer },
    ghost some_room: { 0 < vec_len buffer },
}

// Written out, so that it is proved once.
impl<R: Read + Drop, A: Allocator> Drop for Lines<R, A> {
    fn drop(self) {
        let Lines {
            input: _,
            buffer: _,
            start: _,
            searched: _,
            end: _,
            is_skipping: _,
        } = self;
    }
}

impl<R: Read + Drop, A: Allocator> Lines<R, A> {
    /// Gives the lines of a reader. Nothing is read yet. Errors: `AllocError` if there is no memory for a buffer of 64 KiB.
    pub fn new(alloc: A, input: R) -> Result<Lines<R, A>, AllocError> {
        Ok(Lines {
            input,
            buffer: Vec::from_elem(alloc, 0, FIRST_CAPACITY)?,
            start: 0,
            searched: 0,
            end: 0,
            is_skipping: false,
        })
    }

    /// Gives the next line that the buffer has up to its end, without reading. `None` if there is no such line.
    pub fn next_whole(&mut self) -> Option<Line> {
        if self.is_skipping {
            self.skip_rest();
        }
        let rest = &self.buffer.as_slice()[self.searched..self.end];
        match memchr(b'\n', rest) {
            Some(place) => {
                let line = Line {
                    start: self.start,
                    end: self.searched + place,
                };
                self.start = line.end + 1;
                self.searched = self.start;
                Some(line)
            }
            None => {
                self.searched = self.end;
                None
            }
        }
    }

    /// After the input has ended, gives the bytes after the last line's end as a line. `None` if there are none.
    pub fn last(&mut self) -> Option<Line> {
        let line = Line {
            start: self.start,
            end: self.end,
        };
        self.start = self.end;
        self.searched = self.end;
        if line.start < line.end {
            Some(line)
        } else {
            None
        }
    }

    /// Gives the bytes of a line. Once `fill` was called again, it may give other bytes, or none.
    pub fn bytes(&self, line: Line) -> &[u8] {
        if line.start <= line.end && line.end <= self.buffer.len() {
            &self.buffer.as_slice()[line.start..line.end]
        } else {
            &[]
        }
    }

    /// Reads more, and reads again if a read was interrupted. Another error of a read is the call's error. First take all lines by
    /// `next_whole`. If the line that has begun fills the buffer, the buffer grows. If it can't grow, nothing is read, and the line is
    /// passed over, with all lines not taken yet.
    pub fn fill(&mut self) -> io::Result<Filled> {
        if self.start > 0 {
            self.move_to_front();
        }
        if self.end == self.buffer.len() {
            let more = self.buffer.len();
            if self.buffer.resize(more.saturating_add(more), 0).is_err() {
                self.skip_line();
                return Ok(Filled::TooLong);
            }
        }
        for _ in 0..u64::MAX {
            let room = &mut self.buffer.as_mut_slice()[self.end..];
            match self.input.read(room) {
                Ok(count) => {
                    self.end += count;
                    return Ok(if count > 0 { Filled::More } else { Filled::End });
                }
                Err(error) => {
                    if error.kind() != io::ErrorKind::Interrupted {
                        return Err(error);
                    }
                }
            }
        }
        Ok(Filled::End)
    }

    // Lets go of a line that fills the buffer.
    fn skip_line(&mut self) {
        self.start = 0;
        self.searched = 0;
        self.end = 0;
        self.is_skipping = true;
    }

    // Passes over the rest of a line that was too long, as far as it has been read.
    fn skip_rest(&mut self) {
        let rest = &self.buffer.as_slice()[self.searched..self.end];
        match memchr(b'\n', rest) {
            Some(place) => {
                self.searched += place + 1;
                self.is_skipping = false;
            }
            None => self.searched = self.end,
        }
        self.start = self.searched;
    }

    fn move_to_front(&mut self) {
        let start = self.start;
        let end = self.end;
        self.buffer.as_mut_slice().copy_within(start..end, 0);
        self.start = 0;
        self.searched -= start;
        self.end -= start;
    }
}
