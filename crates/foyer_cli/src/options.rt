//! The program's arguments.
ghost use Rattle.std.specs.Prelude.{◌≡◌, ◌⊎◌, ◌↔◌, ◌-◌, ◌/◌, ◌<◌, ◌≤◌, true, false, IfOk, IsOk, IsOkUnless, IsTrue, MatchOption, codes};
ghost use Rattle.foyer_block_tombstone.specs.Pages.{log_pages};
ghost use Rattle.foyer_device_page.specs.declared.error.Error.TheVariants.{Config};
ghost use Rattle.foyer_core_settings.specs.Sizes.{AreValid};
ghost use Rattle.foyer_cli.specs.Arguments.{AreAsked, AreWords, AskVersion, GoTogether};

use crate::command::number;
use foyer_block_tombstone::block::tombstone::log_pages;
use foyer_core_settings::settings::{DEFAULT_TOMBSTONE_LOG, MAX_BLOCK_SIZE, Settings};
use foyer_device_page::error::{Error, Result};
use foyer_format_record::block::buffer::PAGE;
use std::alloc::Allocator;
use std::io::Write;

/// The text that is printed if the arguments are bad.
pub const USAGE: &str = "usage: foyerdisk DIR CAPACITY BLOCK\n";

/// Printed after a program's name if its only argument is `--version`: the library's version, and the toolchain that proved it.
pub const VERSION: &str = " 0.1.0, rattle-kit-13f\n";

/// The word that is given in place of a directory to keep the blocks in memory.
pub const MEMORY: &str = ":memory:";

/// The seed of the generator that chooses a block if no picker picks one. It is the same in each run.
pub const GENERATOR_SEED: u64 = 0;

/// `DIR CAPACITY BLOCK`, the numbers in bytes.
#[derive(Clone, Copy, Debug, PartialEq, Eq)]
pub struct Options<'a> {
    /// The directory's path, or `:memory:`.
    pub directory: &'a str,
    /// What the blocks may take together, in bytes.
    pub capacity: u64,
    /// The size of a block in bytes, before it is rounded up to whole pages of 4096.
    pub block_size: u64,
}

/// Whether the words ask for the version: `--version` alone.
pub fn ask_version<A: Allocator>(words: &[String<A>]) -> bool
    ensures { IsTrue result ↔ AskVersion words.now }
{
    match words {
        [word] => word.as_str() == "--version",
        _ => false,
    }
}

/// Prints a program's name and the version, and gives the exit status: 0, or 1 if the output failed.
pub fn print_version<W: Write + Drop>(mut output: W, program: &str) -> u8
    ensures { (result ≡ 0) ⊎ (result ≡ 1) }
{
    let is_named = output.write_all(program.as_bytes()).is_ok();
    if is_named && output.write_all(VERSION.as_bytes()).is_ok() && output.flush().is_ok() {
        0
    } else {
        1
    }
}

/// Gives how many blocks a device of `capacity` bytes has room for. Both sizes are rounded down to whole pages. If the device has a log
/// of deletes, the log's pages are left out. If `block_size` is less than a page, there is room for no block.
pub fn blocks_in(capacity: usize, block_size: usize, tombstone_log: bool) -> usize
    ensures bare { tombstone_log ≡ false → 4096 ≤ block_size → result ≡ capacity / 4096 / (block_size / 4096) }
    ensures logged { tombstone_log ≡ true → 4096 ≤ block_size
        → result ≡ (capacity / 4096 - log_pages capacity) / (block_size / 4096) }
    ensures none { block_size < 4096 → result ≡ 0 }
{
    let block_pages = block_size / PAGE;
    if block_pages == 0 {
        return 0;
    }
    let pages = capacity / PAGE;
    if tombstone_log {
        pages.saturating_sub(log_pages(capacity)) / block_pages
    } else {
        pages / block_pages
    }
}

impl<'a> Options<'a> {
    /// Reads the words. Gives None if there aren't three, or if the second or third is no number.
    pub fn parse<A: Allocator>(words: &'a [String<A>]) -> Option<Options<'a>>
        ensures { MatchOption result ((o : Options) → ¬ AreWords words.now o) (AreWords words.now) }
    {
        if words.len() != 3 {
            return None;
        }
        Some(Options {
            directory: words[0].as_str(),
            capacity: number(words[1].as_bytes())?,
            block_size: number(words[2].as_bytes())?,
        })
    }

    /// Whether the directory is `:memory:`, so that the blocks are in memory.
    pub fn is_memory(&self) -> bool
        ensures { IsTrue result ↔ ((self.now.directory).now ≡ codes ":memory:") }
    {
        self.directory == MEMORY
    }

    /// Gives the settings for an engine: the block size rounded up to whole pages, as many blocks as the capacity holds, and defaults for
    /// all else. Errors: `Config` unless a block has more than 4096 and at most 2^32 bytes, and there are at least 1 and at most 2^32 - 1
    /// blocks.
    pub fn settings(&self) -> Result<Settings>
        ensures sizes { IfOk result (AreAsked self.now) }
        ensures valid { IfOk result AreValid }
        ensures together { IsOk result ↔ GoTogether self.now }
        ensures refused { IsOkUnless result Config }
    {
        if self.block_size == 0 || self.block_size > MAX_BLOCK_SIZE as u64 {
            return Err(Error::Config);
        }
        let block_size = (self.block_size as usize).div_ceil(PAGE) * PAGE;
        let blocks = blocks_in(self.capacity as usize, block_size, DEFAULT_TOMBSTONE_LOG);
        if blocks > u32::MAX as usize {
            return Err(Error::Config);
        }
        let settings = Settings::new(blocks as u32, block_size);
        settings.check()?;
        Ok(settings)
    }
}
