//! The program.
ghost use Rattle.std.specs.Prelude.{◌≡◌, ◌⊎◌};
ghost use Rattle.foyer_cli.specs.Arguments.{AskVersion};

use crate::files::BlockFiles;
use crate::lines::{block_line, end_line, entry_line};
use crate::listing::{Listing, list_block};
use crate::verdict::{verdict_of, winners};
use foyer_block_index::indexer::Indexer;
use foyer_block_index::manager::BlockId;
use foyer_cli::faults::{name_of, print_fault};
use foyer_cli::options::{Options, ask_version, print_version};
use foyer_cli::words::{BadWord, ask_help, print_help, sizes_of};
use foyer_core_settings::settings::Settings;
use foyer_device_page::error::{Error, ErrorKind};
use foyer_io_disk::disk::Disk;
use std::alloc::{AllocError, Allocator};
use std::fs::File;
use std::io;
use std::io::{BufWriter, Write};
use std::rt::Files;

/// The text that is printed if the arguments are bad.
pub const USAGE: &str = "usage: foyerlist DIR CAPACITY BLOCK\n";

// The size of the output's buffer in bytes.
const OUTPUT_CAPACITY: usize = 64 * 1024;

// All went well; something was refused, or the output failed; the arguments were bad.
const STATUS_OK: u8 = 0;

const STATUS_FAULT: u8 = 1;

const STATUS_USAGE: u8 = 2;

// Printed after the usage by `--help`.
const HELP: &str = "\
DIR is the directory of a cache without a log of deletes, or one of its core-N. CAPACITY and BLOCK are the bytes that it was made with.
It prints a line for each entry. No file is changed.
";

// Why a list ended early.
#[derive(Clone, Copy, Debug)]
enum Stopped {
    // It was refused, as a fault says.
    Fault(ErrorKind),
    // The output failed.
    Output,
}

impl From<Error> for Stopped {
    fn from(error: Error) -> Stopped {
        Stopped::Fault(error.kind())
    }
}

impl From<AllocError> for Stopped {
    fn from(_: AllocError) -> Stopped {
        Stopped::Fault(ErrorKind::Memory)
    }
}

impl From<io::Error> for Stopped {
    fn from(_: io::Error) -> Stopped {
        Stopped::Output
    }
}

/// Lists what the blocks of a directory hold, by the words `DIR CAPACITY BLOCK`, and gives the exit status. The status is 0, or 1 if a fault
/// was printed or the output failed, or 2 for bad words. `:memory:` is a bad word. `--version` alone prints the version.
///
/// Files are opened only for reading. A missing file, or one that is too short, is a failed read. If a file that is there can't be
/// opened, or memory for the files is refused, a line of `errors` says so. The fault is printed as well.
pub fn list<T, A, B, W, E>(
    rt: &T,
    alloc: A,
    words: &[String<B>],
    mut output: W,
    mut errors: E,
) -> u8
where
    T: Files<File = File>,
    A: Allocator + Clone,
    B: Allocator,
    W: Write + Drop,
    E: Write + Drop,
    ensures version { AskVersion words.now → (result ≡ 0) ⊎ (result ≡ 1) }
{
    if ask_version(words) {
        return print_version(output, "foyerlist");
    }
    if ask_help(words) {
        return print_help(output, USAGE, HELP);
    }
    let options = match options_of(words) {
        Ok(options) => options,
        Err(bad) => {
            let _ = bad.print(&mut errors, "foyerlist");
            let _ = errors.write_all(USAGE.as_bytes());
            return STATUS_USAGE;
        }
    };
    // `Config` is found before anything is opened.
    let settings = match options.settings() {
        Ok(settings) => settings,
        Err(error) => return print_refusal(&mut output, error.kind()),
    };
    let mut files = match BlockFiles::open(rt, &alloc, options.directory, settings.blocks) {
        Ok(files) => files,
        Err(error) => {
            let _ = report(&mut errors, options.directory, error.kind());
            return print_refusal(&mut output, error.kind());
        }
    };
    print_list(&alloc, &mut files, &settings, output)
}

// The words' meaning, or which of them is bad.
fn options_of<'a, B: Allocator>(
    words: &'a [String<B>],
) -> std::result::Result<Options<'a>, BadWord<'a>> {
    let options = sizes_of(words)?;
    if let Some(word) = words.get(3) {
        return Err(BadWord {
            what: "one word too many: ",
            word: word.as_str(),
        });
    }
    if options.is_memory() {
        return Err(BadWord {
            what: "no directory: ",
            word: options.directory,
        });
    }
    Ok(options)
}

fn print_refusal<W: Write>(output: &mut W, kind: ErrorKind) -> u8 {
    let _ = print_fault(output, kind);
    STATUS_FAULT
}

fn report<E: Write>(errors: &mut E, directory: &str, kind: ErrorKind) -> io::Result<()> {
    errors.write_all(b"foyerlist: ")?;
    errors.write_all(directory.as_bytes())?;
    errors.write_all(b": a file of a block couldn't be opened: ")?;
    errors.write_all(name_of(kind).as_bytes())?;
    errors.write_all(b"\n")
}

// Prints the list of a disk's blocks, or the fault for which it ends.
fn print_list<A, D, W>(alloc: &A, disk: &mut D, settings: &Settings, mut direct: W) -> u8
where
    A: Allocator + Clone,
    D: Disk,
    W: Write + Drop,
{
    let Ok(own) = alloc.clone() else {
        return print_refusal(&mut direct, ErrorKind::Memory);
    };
    let Ok(mut output) = BufWriter::with_capacity(own, OUTPUT_CAPACITY, &mut direct) else {
        return print_refusal(&mut direct, ErrorKind::Memory);
    };
    let status = match print_blocks(alloc, disk, settings, &mut output) {
        Ok(()) => STATUS_OK,
        Err(Stopped::Fault(kind)) => print_refusal(&mut output, kind),
        Err(Stopped::Output) => STATUS_FAULT,
    };
    match output.flush() {
        Ok(()) => status,
        Err(_) => STATUS_FAULT,
    }
}

// Prints the list of each block, by what an opening finds.
fn print_blocks<A, D, W>(
    alloc: &A,
    disk: &mut D,
    settings: &Settings,
    output: &mut W,
) -> Result<(), Stopped>
where
    A: Allocator + Clone,
    D: Disk,
    W: Write,
{
    let found = winners(alloc, disk, settings)?;
    for block in 0..settings.blocks {
        let listing = list_block(
            alloc,
            disk,
            block,
            settings.block_size,
            settings.blob_index_size,
        )?;
        print_block(alloc, block, &listing, &found, output)?;
    }
    Ok(())
}

// Prints one block's list.
fn print_block<A, W>(
    alloc: &A,
    block: BlockId,
    listing: &Listing<A>,
    found: &Indexer<A>,
    output: &mut W,
) -> Result<(), Stopped>
where
    A: Allocator + Clone,
    W: Write,
{
    let line = block_line(alloc.clone()?, block)?;
    output.write_all(line.as_str().as_bytes())?;
    for (index, info) in listing.entries.iter().enumerate() {
        let verdict = verdict_of(found, info, index < listing.kept);
        let line = entry_line(alloc.clone()?, info, verdict)?;
        output.write_all(line.as_str().as_bytes())?;
    }
    let line = end_line(alloc.clone()?, listing.end)?;
    output.write_all(line.as_str().as_bytes())?;
    Ok(())
}
