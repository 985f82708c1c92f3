//! The places of standard streams that are closed.
use std::fs::File;
use std::io;
use std::os::fd::{AsRawFd, IntoRawFd};
use std::rt::Files;

// The greatest number of a standard stream.
const LAST_STREAM: i32 = 2;

// Opens a directory for reading, so that no read and no write of it succeeds. If it gets the number of a standard stream, it stays open
// until the program ends.
fn fill<R: Files<File = File>>(rt: &R, directory: &str) -> io::Result<()> {
    let file = File::open(rt, directory)?;
    if file.as_raw_fd() <= LAST_STREAM {
        let _ = file.into_raw_fd();
    }
    Ok(())
}

// Takes the places of the standard streams that are closed, until the program ends. A file that is opened gets the least number that is
// free. So without this a block's file could be the output, and answers would be written into the block. It fails if the directory can't be
// read.
pub(crate) fn fill_closed_streams<R: Files<File = File>>(
    rt: &R,
    directory: &str,
) -> io::Result<()> {
    fill(rt, directory)?;
    fill(rt, directory)?;
    fill(rt, directory)
}
