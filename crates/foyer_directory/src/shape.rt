//! What a directory is made for, and what its lock's file says of that.
ghost use Rattle.std.specs.Prelude.{◌≡◌, ℕ, ◌+◌, ◌^◌, ◌≤◌, List, ◌++◌, IfOk, IsOkUnless, string_bytes};
ghost use Rattle.foyer_device_page.specs.declared.error.Error.TheVariants.{Memory};
ghost use Rattle.foyer_directory.specs.Shapes.{IsShape, recorded_as, shape_line, wanted_log, whole_pages};
ghost use Rattle.foyer_directory.specs.declared.shape.DirectoryShape.{DirectoryShape};

use foyer_device_page::error::Result;
use std::alloc::Allocator;

/// What a directory is made for. It can't change while the directory has a cache: under another shape, keys would be missed, and older
/// values could come back.
#[derive(Clone, Copy, Debug, PartialEq, Eq)]
pub struct DirectoryShape {
    /// The size of a block in bytes. `new` rounds it up.
    pub block_size: u64,
    /// Into how many cores the keys are divided.
    pub cores: u64,
    /// Whether deletes are logged.
    pub has_log: bool,
}

// The size of a page in bytes.
const PAGE: u64 = 4096;

/// What a lock's file has, compared with the line of a shape.
#[derive(Clone, Copy, Debug, PartialEq, Eq)]
pub enum Recorded {
    /// The line.
    Same,
    /// Not all of the line: nothing, or its first bytes.
    Begun,
    /// Something else.
    Other,
}

impl DirectoryShape {
    /// Gives the shape for such blocks, so many cores, and a log of deletes or none. The size of a block is rounded up to whole pages of
    /// 4096 bytes, as a store does it.
    pub fn new(block_size: u64, cores: u64, has_log: bool) -> DirectoryShape
        ensures cores { result.cores ≡ cores }
        ensures log { result.has_log ≡ has_log }
        ensures size { block_size + 4096 ≤ 2 ^ 64 → result.block_size ≡ whole_pages block_size }
    {
        let rest = block_size % PAGE;
        let block_size = if rest == 0 {
            block_size
        } else {
            block_size.saturating_add(PAGE - rest)
        };
        DirectoryShape {
            block_size,
            cores,
            has_log,
        }
    }

    /// Gives the line that stands for it: `block=4096 cores=1 log=0` and a line end, with these numbers in decimal digits, and with `log=1`
    /// if deletes are logged. Errors: `Memory`.
    pub fn line<A: Allocator>(&self, alloc: A) -> Result<String<A>>
        ensures text { IfOk result (λ line. string_bytes line ≡ shape_line self.now) }
        ensures memory { IsOkUnless result Memory }
    {
        let block_size = self.block_size;
        let cores = self.cores;
        let log = if self.has_log { "1" } else { "0" };
        let line = format!(in alloc; "block={block_size} cores={cores} log={log}\n")?;
        Ok(line)
    }
}

/// What a caller asks of a directory, which may leave the log to the directory.
#[derive(Clone, Copy, Debug, PartialEq, Eq)]
pub struct WantedShape {
    /// The size of a block in bytes. It is rounded up to whole pages.
    pub block_size: u64,
    /// Into how many cores the keys are divided.
    pub cores: u64,
    /// Whether deletes are logged. `None`: as the directory was made. A new directory gets a log, and one from before directories had
    /// such a line has none.
    pub log: Option<bool>,
}

/// What a directory says of its log.
#[derive(Clone, Copy, Debug, PartialEq, Eq)]
pub enum LogFound {
    /// Its line has `log=1`.
    Logged,
    /// It has neither a line nor a block's file.
    New,
    /// Its line says otherwise, or it has block files without a line.
    Unlogged,
}

impl WantedShape {
    /// The shape that is wanted of a directory that says this of its log.
    pub fn shape(&self, found: LogFound) -> DirectoryShape
        ensures cores { result.cores ≡ self.now.cores }
        ensures log { result.has_log ≡ wanted_log self.now.log found }
        ensures size { self.now.block_size + 4096 ≤ 2 ^ 64 → result.block_size ≡ whole_pages self.now.block_size }
    {
        let has_log = match self.log {
            Some(has_log) => has_log,
            None => found != LogFound::Unlogged,
        };
        DirectoryShape::new(self.block_size, self.cores, has_log)
    }
}

/// Compares the bytes of a lock's file with the line of a shape.
pub fn compare(found: &[u8], line: &[u8]) -> Recorded
    ensures { result ≡ recorded_as found.now line.now }
{
    if found == line {
        return Recorded::Same;
    }
    if line.starts_with(found) {
        return Recorded::Begun;
    }
    Recorded::Other
}

/// Does nothing; its contract is a law. The line of a shape is the beginning of no other shape's line. So bytes that begin with the line of
/// one shape are refused for every other shape.
pub fn one_shape()
    ensures { (s t : DirectoryShape) (a b : List ℕ) → IsShape s → IsShape t
        → shape_line s ++ a ≡ shape_line t ++ b → (s ≡ t) × (a ≡ b) }
{}
