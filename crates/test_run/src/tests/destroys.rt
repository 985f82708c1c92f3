//! A destroy, step by step, and one of an engine whose disk fails its cleans.
use crate::tests::driver::{BRIEF, small};
use crate::tests::replies::TestAge;
use crate::tests::runs::run_of;
use foyer_block_index::manager::BlockId;
use foyer_core_steps::apply::Env;
use foyer_core_steps::open::RecoverMode;
use foyer_device_page::error::{Error, Result};
use foyer_format_record::serde::IdentityHashBuilder;
use foyer_io_blocks::memory::MemoryDisk;
use foyer_io_disk::disk::Disk;
use foyer_storage_local::engine::{LocalEngine, NoLog};
use foyer_testing::rows::first_difference;
use std::alloc::{Allocator, Global};
use std::test::Fail;

// Each clean comes once, and the destroy names the first fault.
const SCRIPT: &str = "clear: not now
cleaned 0: not now
destroy: destroying
destroy: not now
clear: not now
receive 0: received
begin 0: began 1 1
block 0: write 0
clear: not now
end 0: ended /
clear: cleared
clear: not now
destroy: not now
cleaned 2: not now
unclean 1: done
cleaned 1: not now
cleaned 0: destroyed Io
cleaned 0: not now
destroy: destroying
";

#[test]
fn each_clean_is_issued_once_and_the_first_fault_is_named(
    rt: HostRuntime,
) -> std::result::Result<(), Fail> {
    let run = run_of(rt.alloc(), small(2), BRIEF, SCRIPT)?;
    assert_eq!(rt; first_difference(run.answers.as_str(), SCRIPT), None);
    Ok(())
}

// A disk whose first pages can't be written: that of the first block as if there were no space, the others as a device fails.
#[derive(Drop)]
struct Unclean(MemoryDisk<Global>);

impl Disk for Unclean {
    ghost is_known = { λ _. ⊥ };

    ghost byte_at = { λ _ _ _. 0 };

    ghost surely_has = { λ _ _ _ _. ⊥ };

    ghost faults = { λ _. 0 };

    ghost surely_lies = { λ _ _ _ _. ⊥ };

    fn read<A: Allocator>(
        &mut self,
        block: BlockId,
        offset: usize,
        buffer: Vec<u8, A>,
    ) -> (Vec<u8, A>, Result<()>) {
        self.0.read(block, offset, buffer)
    }

    fn write(&mut self, block: BlockId, offset: usize, bytes: &[u8]) -> Result<()> {
        if offset != 0 {
            return self.0.write(block, offset, bytes);
        }
        if block == 0 {
            Err(Error::NoSpace)
        } else {
            Err(Error::Io)
        }
    }
}

type OverUnclean = LocalEngine<u64, String, TestAge, IdentityHashBuilder, Global, Unclean, NoLog>;

fn over_unclean(alloc: Global) -> Result<OverUnclean> {
    let disk = Unclean(MemoryDisk::new(alloc, 2, 16384)?);
    let env = Env::with_default_pickers(alloc, 0)?;
    let hasher = IdentityHashBuilder;
    LocalEngine::with_disk(alloc, hasher, env, small(2), disk, RecoverMode::None)
}

fn destroyed(alloc: Global) -> Result<()> {
    let mut engine = over_unclean(alloc)?;
    engine.destroy()
}

// A destroy that answers the last fault, or one of another kind, fails here.
#[test]
fn the_first_failed_clean_is_answered_by_the_disks_own_error(
    rt: HostRuntime,
) -> std::result::Result<(), Fail> {
    assert!(rt; destroyed(rt.alloc()) == Err(Error::NoSpace));
    Ok(())
}
