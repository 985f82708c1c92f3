//! `foyerimages` opens directories with a log of deletes, one after the other, and gets keys from each. A line of its input has a
//! directory, the capacity and the block size in bytes, and keys, with a space between each two. It prints a line for each key, and then
//! an empty line. If a directory can't be opened, it prints the fault and an empty line. A key is its own hash. A get doesn't compare the
//! record's key. `soak/images.py` runs it.
#![tactic(auto)]

use foyer_block_tombstone::block::tombstone::{TombstoneLog, log_pages};
use foyer_cli::faults::print_fault;
use foyer_cli::options::{GENERATOR_SEED, blocks_in};
use foyer_core_steps::apply::Env;
use foyer_core_steps::open::RecoverMode;
use foyer_core_steps::settings::Settings;
use foyer_device_page::error::Result;
use foyer_device_partition::io::device::{Device, DeviceBuilder, FsDeviceBuilder, FsPartition};
use foyer_format_record::serde::{IdentityHashBuilder, NoProperties};
use foyer_io_blocks::partitions::{PartitionedDisk, create_blocks};
use foyer_io_engine::io::engine::{
    IoEngineBuildContext, IoEngineConfig, PsyncIoEngine, PsyncIoEngineConfig,
};
use foyer_storage_local::engine::LocalEngine;
use foyer_storage_local::load::Load;
use std::alloc::Global;
use std::io;
use std::io::{BufWriter, Write};
use std::process::ExitCode;

const BUFFER: usize = 65536;

const PAGE: usize = 4096;

type Blocks = PartitionedDisk<PsyncIoEngine<Global>, FsPartition, Global>;

type Log = TombstoneLog<PsyncIoEngine<Global>, FsPartition, Global>;

type FileEngine = LocalEngine<u64, String, NoProperties, IdentityHashBuilder, Global, Blocks, Log>;

fn number_in(word: &str) -> u64 {
    word.parse::<u64>().unwrap_or(0)
}

fn cut(text: &str) -> (&str, &str) {
    text.split_once(' ').unwrap_or((text, ""))
}

fn settings_of(capacity: usize, block_size: usize) -> Settings {
    let blocks = u32::try_from(blocks_in(capacity, block_size, true)).unwrap_or(0);
    Settings {
        buffer_pool_size: BUFFER,
        ..Settings::new(blocks, block_size).with_tombstone_log(true)
    }
}

// The files of a directory.
fn files_of(rt: &HostRuntime, paths: &[String]) -> Result<PsyncIoEngine<Global>> {
    PsyncIoEngineConfig::new().build(rt, &IoEngineBuildContext { files: paths })
}

// An engine over a directory, whose first file is the log of deletes.
fn open(
    rt: &HostRuntime,
    directory: &str,
    capacity: usize,
    settings: Settings,
) -> Result<FileEngine> {
    let alloc = rt.alloc();
    let builder = FsDeviceBuilder::new(directory).with_capacity(capacity);
    let mut device = builder.build(rt, alloc, 0)?;
    let log = device.create_partition(rt, log_pages(capacity) * PAGE)?;
    let blocks = create_blocks(rt, alloc, &mut device, settings.blocks, settings.block_size)?;
    let paths = device.files(alloc)?;
    let disk = PartitionedDisk::new(files_of(rt, paths.as_slice())?, blocks);
    let mut marks = Vec::new(alloc);
    let partitions = Vec::from_slice(alloc, &[log])?;
    let files = files_of(rt, paths.as_slice())?;
    let log = TombstoneLog::open(alloc, partitions, files, &mut marks)?;
    let env = Env::with_default_pickers(alloc, GENERATOR_SEED)?;
    let (hasher, mode) = (IdentityHashBuilder, RecoverMode::Quiet);
    LocalEngine::with_log(alloc, hasher, env, settings, disk, mode, &marks, log)
}

fn print_entry<W: Write>(output: &mut W, text: &str) -> io::Result<()> {
    output.write_all(b"entry ")?;
    output.write_all(text.as_bytes())?;
    output.write_all(b"\n")
}

fn print_load<W: Write>(output: &mut W, found: Result<Load<u64, String>>) -> io::Result<()> {
    match found {
        Ok(Load::Entry { value, .. }) => print_entry(output, value.as_str()),
        Ok(_) => output.write_all(b"miss\n"),
        Err(error) => print_fault(output, error.kind()),
    }
}

fn answer_keys<W: Write>(output: &mut W, engine: &mut FileEngine, keys: &str) -> io::Result<()> {
    for key in keys.split(' ') {
        print_load(output, engine.load_hash(number_in(key), false))?;
    }
    Ok(())
}

fn answer_line<W: Write>(rt: &HostRuntime, output: &mut W, line: &str) -> io::Result<()> {
    let (directory, rest) = cut(line);
    let (capacity, rest) = cut(rest);
    let (block_size, keys) = cut(rest);
    let capacity = number_in(capacity) as usize;
    let settings = settings_of(capacity, number_in(block_size) as usize);
    match open(rt, directory, capacity, settings) {
        Ok(mut engine) => answer_keys(output, &mut engine, keys),
        Err(error) => print_fault(output, error.kind()),
    }
}

fn answer_all(rt: &HostRuntime) -> io::Result<()> {
    let input = io::read_to_string(rt.alloc(), rt.stdin())?;
    let mut output = BufWriter::new(rt.alloc(), rt.stdout())?;
    for line in input.lines() {
        answer_line(rt, &mut output, line)?;
        output.write_all(b"\n")?;
    }
    output.flush()
}

fn main(rt: HostRuntime) -> ExitCode {
    match answer_all(&rt) {
        Ok(()) => ExitCode::from(0),
        Err(_) => ExitCode::from(1),
    }
}
