//! What the tests share: a memory that outlives its logs, and a slow reader of it.
use foyer_block_tombstone::block::tombstone::{Tombstone, TombstoneLog};
use foyer_device_page::error::{Error, ErrorKind};
use foyer_device_page::io::bytes::Raw;
use foyer_device_partition::io::device::{
    Device, DeviceBuilder, MemoryDevice, MemoryDeviceBuilder, MemoryPartition, Partition,
};
use foyer_io_engine::io::engine::{
    FaultIoEngine, IoEngine, IoEngineBuildContext, IoEngineConfig, MemoryIoEngine,
    SharedMemoryIoEngine, SharedMemoryIoEngineConfig,
};
use std::alloc::Global;
use std::rt::Files;
use std::sync::Wait;

pub type Log<R> = TombstoneLog<
    FaultIoEngine<SharedMemoryIoEngine<R, Global>>,
    MemoryPartition,
    Global,
>;

// A memory, and its partitions.
#[derive(Drop)]
pub struct Disk {
    alloc: Global,
    config: SharedMemoryIoEngineConfig<Global>,
    partitions: Vec<MemoryPartition, Global>,
}

impl Disk {
    pub fn new<R: Files>(rt: &R, alloc: Global, sizes: &[usize]) -> Result<Disk, Error> {
        let mut engine = MemoryIoEngine::new(alloc);
        engine.add_file(alloc, 65536)?;
        let mut device: MemoryDevice<Global> = MemoryDeviceBuilder::new(65536).build(rt, alloc, 0)?;
        let mut partitions = Vec::new(alloc);
        for size in sizes {
            partitions.push(device.create_partition(rt, *size)?)?;
        }
        let config = SharedMemoryIoEngineConfig::new(alloc, engine)?;
        Ok(Disk {
            alloc,
            config,
            partitions,
        })
    }

    pub fn alloc(&self) -> Global {
        self.alloc
    }

    pub fn partitions(&self) -> Result<Vec<MemoryPartition, Global>, Error> {
        Ok(Vec::from_slice(self.alloc, &self.partitions)?)
    }

    pub fn engine<R: Wait + Clone + Drop>(
        &self,
        rt: &R,
    ) -> Result<SharedMemoryIoEngine<R, Global>, Error> {
        let files: Vec<String<Global>, Global> = Vec::new(self.alloc);
        let context = IoEngineBuildContext {
            files: files.as_slice(),
        };
        self.config.build(rt, &context)
    }

    // A log whose n-th access fails, a write after `kept` bytes; with n beyond them none.
    pub fn open<R: Wait + Clone + Drop>(
        &self,
        rt: &R,
        n: u64,
        kept: usize,
        marks: &mut Vec<Tombstone, Global>,
    ) -> Result<Log<R>, Error> {
        let engine = FaultIoEngine::new(self.engine(rt)?, n, kept, false);
        TombstoneLog::open(self.alloc, self.partitions()?, engine, marks)
    }

    // The bytes of a page, read by themselves.
    pub fn page<R: Wait + Clone + Drop>(&self, rt: &R, page: usize) -> Result<Raw<Global>, Error> {
        let mut left = page;
        for partition in &self.partitions {
            let pages = partition.size() / 4096;
            if left < pages {
                let bytes = Raw::new(self.alloc, 4096)?;
                let (bytes, outcome) = self
                    .engine(rt)?
                    .read(bytes, partition, (left as u64).saturating_mul(4096))
                    .into_inner();
                outcome?;
                return Ok(bytes);
            }
            left -= pages;
        }
        Err(Error::OutOfRange)
    }

    // Writes a page.
    pub fn put_page<R: Wait + Clone + Drop>(
        &self,
        rt: &R,
        page: usize,
        bytes: Raw<Global>,
    ) -> Result<(), Error> {
        let mut left = page;
        for partition in &self.partitions {
            let pages = partition.size() / 4096;
            if left < pages {
                let (_bytes, outcome) = self
                    .engine(rt)?
                    .write(bytes, partition, (left as u64).saturating_mul(4096))
                    .into_inner();
                return outcome;
            }
            left -= pages;
        }
        Err(Error::OutOfRange)
    }
}

// Opens the log: the slot that it goes on at, and how many marks it lists.
pub fn opened<R: Wait + Clone + Drop>(rt: &R, disk: &Disk) -> Result<(u64, usize), Error> {
    let mut found = Vec::new(disk.alloc);
    let log = disk.open(rt, 0, 0, &mut found)?;
    Ok((log.slot(), found.len()))
}

// Opens the log and appends so many marks from a sequence on: the slot behind them.
pub fn appended<R: Wait + Clone + Drop>(
    rt: &R,
    disk: &Disk,
    first: u64,
    count: u64,
) -> Result<u64, Error> {
    let mut found = Vec::new(disk.alloc);
    let mut log = disk.open(rt, 0, 0, &mut found)?;
    let marks = marks(disk.alloc, first, count)?;
    log.append(&marks)?;
    Ok(log.slot())
}

// How many pages an append of so many marks writes, behind so many others that a fresh log has from slot 1 on.
pub fn written<R: Wait + Clone + Drop + Files>(
    rt: &R,
    alloc: Global,
    sizes: &[usize],
    slot: u64,
    count: u64,
) -> Result<u64, Error> {
    let disk = Disk::new(rt, alloc, sizes)?;
    let mut found = Vec::new(alloc);
    let mut log = disk.open(rt, 0, 0, &mut found)?;
    let before = marks(alloc, 1, slot.saturating_sub(1))?;
    log.append(&before)?;
    let old = log.page_writes();
    let behind = marks(alloc, slot, count)?;
    log.append(&behind)?;
    Ok(log.page_writes().wrapping_sub(old))
}

// Appends this many marks when the n-th access fails. Gives whether the append was refused with Io, and the slot then.
pub fn refused<R: Wait + Clone + Drop>(
    rt: &R,
    disk: &Disk,
    n: u64,
    kept: usize,
    first: u64,
    count: u64,
) -> Result<(bool, u64), Error> {
    let mut found = Vec::new(disk.alloc);
    let mut log = disk.open(rt, n, kept, &mut found)?;
    let marks = marks(disk.alloc, first, count)?;
    let answer = log.append(&marks).err().map(|e| e.kind());
    Ok((answer == Some(ErrorKind::Io), log.slot()))
}

// The sequence in a slot of a page.
pub fn sequence_at<R: Wait + Clone + Drop>(
    rt: &R,
    disk: &Disk,
    page: usize,
    slot: usize,
) -> Result<u64, Error> {
    let bytes = disk.page(rt, page)?;
    Ok(mark_in(bytes.as_slice(), slot).sequence)
}

// Marks of these sequences, whose hash is twice the sequence.
pub fn marks(alloc: Global, first: u64, count: u64) -> Result<Vec<Tombstone, Global>, Error> {
    let mut marks = Vec::new(alloc);
    for i in 0..count {
        let sequence = first.saturating_add(i);
        marks.push(Tombstone {
            hash: sequence.saturating_mul(2),
            sequence,
        })?;
    }
    Ok(marks)
}

// The number in 8 bytes, highest first.
fn number(bytes: &[u8], at: usize) -> u64 {
    let mut number = 0u64;
    for byte in bytes.iter().skip(at).take(8) {
        number = number.wrapping_mul(256).wrapping_add(*byte as u64);
    }
    number
}

// The mark in a slot of a page, read slowly.
pub fn mark_in(bytes: &[u8], slot: usize) -> Tombstone {
    let at = slot.saturating_mul(16);
    Tombstone {
        hash: number(bytes, at),
        sequence: number(bytes, at.saturating_add(8)),
    }
}
