//! An engine over the files of a directory, whose accesses of blocks are counted, and whose gets keep to limits.
use crate::tests::asked::{Asked, Texts, number_of, say_refused, say_script};
use crate::tests::over::{Over, USUAL, over_of};
use foyer_block_index::tombstone::Tombstone;
use foyer_block_manager::block::eviction::BuiltInPicker;
use foyer_block_tombstone::block::tombstone::{TombstoneLog, log_pages};
use foyer_cli::options::blocks_in;
use foyer_core_steps::apply::Env;
use foyer_device_page::error::Result;
use foyer_device_partition::io::device::{
    Device, DeviceBuilder, FsDevice, FsDeviceBuilder, FsPartition,
};
use foyer_device_statistics::{Recorder, Statistics};
use foyer_device_throttle::{IopsCounter, Throttle};
use foyer_format_record::serde::IdentityHashBuilder;
use foyer_io_blocks::partitions::{PartitionedDisk, create_blocks};
use foyer_io_engine::io::engine::{
    IoEngineBuildContext, IoEngineConfig, PsyncIoEngine, PsyncIoEngineConfig,
};
use foyer_io_monitor::MonitoredIoEngine;
use foyer_policy_filter::BuiltInCondition;
use foyer_storage_local::engine::LocalEngine;
use foyer_testing::said::Said;
use std::alloc::Global;
use std::fs::{File, OpenOptions};
use std::rt::Files;
use std::sync::{Arc, Wait};

type Blocks = PartitionedDisk<
    MonitoredIoEngine<PsyncIoEngine<Global>, Global>,
    FsPartition,
    Global,
>;

type Log = Option<TombstoneLog<PsyncIoEngine<Global>, FsPartition, Global>>;

// How a directory is opened.
#[derive(Clone, Copy)]
struct Opening<'a> {
    directory: &'a str,
    capacity: usize,
    over: Over,
    throttle: Throttle,
}

// The limit that a word stands for.
fn throttle_of(word: &str) -> Throttle {
    match word {
        "one-read" => Throttle::new().with_read_iops(1),
        "27-bytes" => Throttle::new().with_read_throughput(27),
        "one-write" => Throttle::new().with_write_iops(1).with_write_throughput(1),
        "1024-an-access" => Throttle::new().with_iops_counter(IopsCounter::per_io_size(1024)),
        _ => Throttle::new(),
    }
}

// Of the words `DIR, CAPACITY, BLOCK`, after which come those of what it is opened over, and a limit.
fn opening_of(words: &str) -> Opening<'_> {
    let (directory, rest) = words.split_once(", ").unwrap_or((words, ""));
    let (capacity, rest) = rest.split_once(", ").unwrap_or((rest, ""));
    let (block_size, how) = rest.split_once(", ").unwrap_or((rest, ""));
    let (capacity, block_size) = (number_of(capacity) as usize, number_of(block_size) as usize);
    let over = over_of(USUAL, how);
    Opening {
        directory,
        capacity,
        over: Over {
            blocks: u32::try_from(blocks_in(capacity, block_size, over.has_log)).unwrap_or(0),
            pages: block_size / 4096,
            ..over
        },
        throttle: throttle_of(how.strip_prefix("unread, ").unwrap_or(how)),
    }
}

// The log of deletes in the first file, and its marks.
fn log_of<R: Files<File = File> + AllocGlobal>(
    rt: &R,
    partition: FsPartition,
    paths: &[String],
    marks: &mut Vec<Tombstone>,
) -> Result<Log> {
    let alloc = rt.alloc();
    let partitions = Vec::from_slice(alloc, &[partition])?;
    let files = PsyncIoEngineConfig::new().build(rt, &IoEngineBuildContext { files: paths })?;
    Ok(Some(TombstoneLog::open(alloc, partitions, files, marks)?))
}

// Makes the partition of the log ahead of the blocks' partitions, if there is to be one.
fn partition_of<R: Files<File = File> + AllocGlobal>(
    rt: &R,
    device: &mut FsDevice<Global>,
    opening: Opening<'_>,
) -> Result<Option<FsPartition>> {
    if !opening.over.has_log {
        return Ok(None);
    }
    let partition = device.create_partition(rt, log_pages(opening.capacity) * 4096)?;
    Ok(Some(partition))
}

// The engine over the files, one of whose two recorders is its caller's.
fn engine_of<'a, R: Files<File = File> + AllocGlobal + Wait>(
    rt: &'a R,
    opening: Opening<'_>,
) -> Result<Limited<'a, R>> {
    let alloc = rt.alloc();
    let Opening {
        directory,
        capacity,
        over,
        throttle,
    } = opening;
    let settings = over.settings();
    let builder = FsDeviceBuilder::new(directory).with_capacity(capacity);
    let mut device = builder.with_throttle(throttle).build(rt, alloc, 0)?;
    let partition = partition_of(rt, &mut device, opening)?;
    let blocks = create_blocks(rt, alloc, &mut device, settings.blocks, settings.block_size)?;
    let paths = device.files(alloc)?;
    let mut marks = Vec::new(alloc);
    let log = match partition {
        Some(partition) => log_of(rt, partition, paths.as_slice(), &mut marks)?,
        None => None,
    };
    let context = IoEngineBuildContext {
        files: paths.as_slice(),
    };
    let files = PsyncIoEngineConfig::new().build(rt, &context)?;
    let (statistics, seat) = Statistics::new(alloc, throttle, 0)?;
    let mut own = Recorder::new(seat, Arc::new(alloc, statistics)?);
    let recorder = own.split(1 << 31)?;
    let disk = PartitionedDisk::new(MonitoredIoEngine::new(files, own), blocks);
    let env = Env::with_default_pickers(alloc, 0)?;
    let (hasher, mode) = (IdentityHashBuilder, over.mode);
    Ok(Limited {
        rt,
        engine: LocalEngine::with_log(alloc, hasher, env, settings, disk, mode, &marks, log)?,
        recorder,
        path: path_of(alloc, directory, 0)?,
    })
}

// An engine, and beside it a recorder at the counters of its blocks, and the path of the first file.
#[derive(Drop)]
struct Limited<'a, R: Files<File = File> + Wait> {
    rt: &'a R,
    engine: Texts<Global, Blocks, Log, BuiltInPicker, BuiltInCondition>,
    recorder: Recorder<Global>,
    path: String,
}

impl<R: Files<File = File> + Wait> Limited<'_, R> {
    // Whether a read waits at a moment in nanoseconds. Without a limit of reads nothing is asked.
    fn is_throttled(&mut self, now: u64) -> bool {
        let limits = self.recorder.throttle();
        if limits.read_throughput.is_none() && limits.read_iops.is_none() {
            return false;
        }
        self.recorder.is_read_throttled(self.rt, now)
    }

    // The bytes written and read, and the calls that wrote and read.
    fn say_counters(&mut self, said: &mut Said) {
        said.number("", self.recorder.disk_write_bytes());
        said.number(" ", self.recorder.disk_read_bytes());
        said.number(" ", self.recorder.disk_write_ios());
        said.number(" ", self.recorder.disk_read_ios());
    }
}

// A get has its moment. `cut` cuts the first file to a length.
impl<R: Files<File = File> + Wait> Asked for Limited<'_, R> {
    fn say_answer(&mut self, said: &mut Said, word: &str, key: u64, text: &str) {
        match word {
            "counters" => self.say_counters(said),
            "cut" => said.flag("", is_cut(self.rt, self.path.as_str(), key)),
            "get" => {
                let is_throttled = self.is_throttled(number_of(text));
                let word = if is_throttled { "throttled" } else { "get" };
                self.engine.say_answer(said, word, key, "");
            }
            _ => self.engine.say_answer(said, word, key, text),
        }
    }
}

/// The path of one of a directory's files.
pub fn path_of(alloc: Global, directory: &str, number: u64) -> Result<String> {
    let mut path = Said::new(alloc);
    path.word(directory);
    path.number("/foyer-storage-direct-fs-0000000", number);
    path.text()
}

/// Whether a file has this length from now on.
pub fn is_cut<R: Files<File = File>>(rt: &R, path: &str, len: u64) -> bool {
    match OpenOptions::new().write(true).open(rt, path) {
        Ok(file) => file.set_len(len).is_ok(),
        Err(_) => false,
    }
}

/// Notes what an engine over a directory answers to a script, each line after a blank.
pub fn say_directory<R: Files<File = File> + AllocGlobal + Wait>(
    rt: &R,
    said: &mut Said,
    asked: &str,
) -> Result<()> {
    let (words, script) = asked.split_once(" < ").unwrap_or((asked, ""));
    match engine_of(rt, opening_of(words)) {
        Ok(mut engine) => say_script(rt.alloc(), said, &mut engine, script),
        Err(error) => {
            say_refused(said, error);
            Ok(())
        }
    }
}

/// Notes how many blocks there is room for.
pub fn say_room(said: &mut Said, asked: &str) {
    said.number(" ", u64::from(opening_of(asked).over.blocks));
}
