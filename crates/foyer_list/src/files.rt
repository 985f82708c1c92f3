//! The files of a directory's blocks, which are read and never written.
ghost use Rattle.std.specs.Prelude.{◌≡◌, ◌⊎◌, length, IfOk, IfErr};
ghost use Rattle.foyer_device_page.specs.declared.error.Error.TheVariants as error;

use foyer_block_index::manager::BlockId;
use foyer_device_page::error::{Error, Result};
use foyer_device_partition::io::device::partition_path;
use foyer_io_disk::disk::Disk;
use std::alloc::Allocator;
use std::fs::{File, OpenOptions};
use std::io;
use std::os::unix::fs::FileExt;
use std::rt::Files;

/// The files of a directory's blocks. A read is `Io` if it fails, also because its file is missing or too short. A write is
/// `Unsupported`. No file is made, cut or lengthened.
#[derive(Drop)]
pub struct BlockFiles<A: Allocator> {
    // The file of each block, if there is one.
    files: Vec<Option<File>, A>,
    // How many accesses failed, up to 2^64 - 1.
    failures: u64,
}

// Opens the file at a path for reading. None if there is no file. Errors: `Io`.
fn open_file<R: Files<File = File>>(rt: &R, path: &str) -> Result<Option<File>>
    ensures { IfErr result (λ e. e ≡ error.Io) }
{
    match OpenOptions::new().read(true).open(rt, path) {
        Ok(file) => Ok(Some(file)),
        Err(error) => {
            if error.kind() == io::ErrorKind::NotFound {
                Ok(None)
            } else {
                Err(Error::Io)
            }
        }
    }
}

impl<A: Allocator + Clone> BlockFiles<A> {
    /// Opens the files of this many blocks by their names, for reading. Errors: `Io` if a file that is there can't be opened; `Memory`.
    pub fn open<R: Files<File = File>>(
        rt: &R,
        alloc: &A,
        directory: &str,
        blocks: u32,
    ) -> Result<BlockFiles<A>>
        ensures count { IfOk result (λ opened. length opened.files.items ≡ blocks) }
        ensures refused { IfErr result (λ e. (e ≡ error.Io) ⊎ (e ≡ error.Memory)) }
    {
        let mut files = Vec::with_capacity(alloc.clone()?, blocks as usize)?;
        'each_block: for block in 0..blocks {
            let path = partition_path(alloc.clone()?, directory, block)?;
            files.push(open_file(rt, path.as_str())?)?;
        }
        Ok(BlockFiles { files, failures: 0 })
    }
}

impl<A: Allocator> Disk for BlockFiles<A> {
    ghost is_known = { λ _. ⊥ };

    ghost byte_at = { λ _ _ _. 0 };

    ghost surely_has = { λ _ _ _ _. ⊥ };

    ghost faults = { λ d. d.failures };

    ghost surely_lies = { λ _ _ _ _. Unit {0} };

    ghost may_answer = { λ _ _ _ _ e. (e ≡ error.Io) ⊎ (e ≡ error.Unsupported) };

    fn read<B: Allocator>(
        &mut self,
        block: BlockId,
        offset: usize,
        mut buffer: Vec<u8, B>,
    ) -> (Vec<u8, B>, Result<()>) {
        let Some(Some(file)) = self.files.get(block as usize) else {
            self.failures = self.failures.saturating_add(1);
            return (buffer, Err(Error::Io));
        };
        match file.read_exact_at(buffer.as_mut_slice(), offset as u64) {
            Ok(()) => (buffer, Ok(())),
            Err(_) => {
                self.failures = self.failures.saturating_add(1);
                (buffer, Err(Error::Io))
            }
        }
    }

    fn write(&mut self, _block: BlockId, _offset: usize, _bytes: &[u8]) -> Result<()> {
        self.failures = self.failures.saturating_add(1);
        Err(Error::Unsupported)
    }
}
