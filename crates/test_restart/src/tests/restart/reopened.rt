//! A core that is opened on the bytes of a stopped run, and what it answers.
use crate::tests::restart::running::{Running, TextCore, key_of, text_of};
use foyer_block_index::indexer::EntryAddress;
use foyer_block_index::manager::BlockId;
use foyer_core_access::disk::do_read;
use foyer_core_steps::apply::Env;
use foyer_core_steps::open::RecoverMode;
use foyer_core_steps::reply::Reply;
use foyer_core_steps::state::Core;
use foyer_core_steps::step::{Step, Ticket};
use foyer_device_page::error::Result;
use foyer_io_blocks::memory::MemoryDisk;
use foyer_io_disk::disk::Disk;
use std::alloc::Global;

/// A core over a copy of the bytes that a run left.
#[derive(Drop)]
pub(crate) struct Reopened {
    pub(crate) core: TextCore,
    pub(crate) env: Env,
    pub(crate) disk: MemoryDisk<Global>,
}

/// What a look-up found: its address, and whether a load answers the text of that sequence, which is one of the key.
#[derive(Clone, Copy, Debug)]
pub(crate) struct Found {
    pub(crate) address: EntryAddress,
    pub(crate) is_text: bool,
}

// The bytes that a write was stopped behind.
#[derive(Clone, Copy)]
pub(crate) struct Torn<'a> {
    pub(crate) block: BlockId,
    pub(crate) offset: usize,
    pub(crate) bytes: &'a [u8],
}

/// A copy of a run's bytes.
pub(crate) fn copy_of(alloc: Global, run: &mut Running) -> Result<MemoryDisk<Global>> {
    let settings = run.core.settings();
    let mut copy = MemoryDisk::new(alloc, settings.blocks, settings.block_size)?;
    for block in 0..settings.blocks {
        let mut bytes = Vec::new(alloc);
        bytes.resize(settings.block_size, 0)?;
        let (bytes, outcome) = run.disk.read(block, 0, bytes);
        outcome?;
        copy.write(block, 0, bytes.as_slice())?;
    }
    Ok(copy)
}

/// Opens a core on a run's bytes, over which the front of a write has come.
pub(crate) fn reopen(
    alloc: Global,
    run: &mut Running,
    torn: Option<Torn<'_>>,
    mode: RecoverMode,
) -> Result<Reopened> {
    let settings = run.core.settings();
    let mut disk = copy_of(alloc, run)?;
    if let Some(torn) = torn {
        disk.write(torn.block, torn.offset, torn.bytes)?;
    }
    let mut env = Env::with_default_pickers(alloc, 0)?;
    let core = Core::open(alloc, &mut env, settings, &mut disk, mode, &[])?;
    Ok(Reopened { core, env, disk })
}

// Whether an entry is the text of the put of this number, which is one of this key.
fn is_text(alloc: Global, key: u64, value: &str, number: u64, wanted: u64) -> Result<bool> {
    Ok(key == wanted && key_of(number) == wanted && text_of(alloc, number)?.as_str() == value)
}

// Reads what a ticket asks for, and whether its load answers the text of its sequence.
fn answers_text(alloc: Global, opened: &mut Reopened, ticket: &Ticket) -> Result<bool> {
    let mut buffer = Vec::new(alloc);
    let result = do_read(alloc, &mut opened.disk, ticket, &mut buffer)?;
    let step = Step::LoadEnd {
        ticket: *ticket,
        result,
    };
    match opened.core.apply(&mut opened.env, step) {
        Reply::Entry { key, value, age: _ } => is_text(
            alloc,
            key,
            value.as_str(),
            ticket.address.sequence,
            ticket.hash,
        ),
        _ => Ok(false),
    }
}

/// Looks a key up, and loads what is found.
pub(crate) fn find(alloc: Global, opened: &mut Reopened, key: u64) -> Result<Option<Found>> {
    let step = Step::LoadBegin {
        hash: key,
        throttled: false,
    };
    let Reply::Read(ticket) = opened.core.apply(&mut opened.env, step) else {
        return Ok(None);
    };
    let is_text = answers_text(alloc, opened, &ticket)?;
    Ok(Some(Found {
        address: ticket.address,
        is_text,
    }))
}
