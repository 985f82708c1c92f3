//! The files of a device.
ghost use Rattle.std.specs.Prelude.{◌≡◌, IfOk, OnErr, vec_len};
ghost use Rattle.foyer_device_page.specs.declared.error.Error.TheVariants as error;

use foyer_device_page::error::Result;
use std::alloc::Allocator;
use std::fs::{OpenFile, OpenOptions};
use std::io;
use std::rt::Files;

// Gives the file at a path that many bytes, and makes the file if it is missing. The bytes that it gains
// are zeros.
pub(super) fn lay_file<R: Files>(rt: &R, path: &str, len: usize) -> io::Result<()> {
    let file = OpenOptions::new()
        .read(true)
        .write(true)
        .create(true)
        .open(rt, path)?;
    file.set_len(len as u64)
}

// A list of one path.
pub(super) fn one_path<B: Allocator + Clone>(alloc: B, path: &str) -> Result<Vec<String<B>, B>>
    ensures count { IfOk result (λ paths. vec_len paths ≡ 1) }
    ensures memory { OnErr result (result ≡ Err error.Memory) }
{
    let path = String::from_str(alloc.clone()?, path)?;
    let mut paths = Vec::new(alloc);
    paths.push(path)?;
    Ok(paths)
}
