//! The lock of a directory.
ghost use Rattle.std.specs.Prelude.{◌≡◌, ◌⊎◌, Bool, IfErr, IfOk, OnOk, Some};
ghost use Rattle.std.specs.Io.KnownBytes.{Appends};
ghost use Rattle.foyer_device_page.specs.declared.error.Error.TheVariants as error;
ghost use Rattle.foyer_directory.specs.Refusals.{IsLockError, IsNamed, after, error_of, reason, refusal_line, text_of};
ghost use Rattle.foyer_directory.specs.declared.lock.LockError.TheVariants as refusal;

use crate::shape::{DirectoryShape, LogFound, Recorded, WantedShape, compare};
use crate::streams::fill_closed_streams;
use foyer_device_page::error::{Error, Result};
use std::alloc::{AllocError, Allocator};
use std::fs::{File, OpenOptions, TryLockError};
use std::io::Write;
use std::os::unix::fs::{FileExt, MetadataExt};
use std::rt::{Clock, Files};
use std::time::Duration;
use std::{fs, io, thread};

/// How often a program tries again, for five seconds in all.
pub const PROGRAM_TRIES: u32 = 100;

// For how many milliseconds it sleeps before it tries again.
const PAUSE: u64 = 50;

// No line of a shape has more bytes than this.
const LINE_LIMIT: u64 = 64;

/// Why a directory isn't locked.
#[derive(Clone, Copy, Debug, PartialEq, Eq)]
pub enum LockError {
    /// Another lock of this directory is held, by this program or another one.
    InUse,
    /// The directory was made for another shape.
    OtherShape,
    /// `Io`, also if the directory's file system has no locks; or `Memory`.
    Fault(Error),
    /// `Io`, and the system's number of the error.
    System(i32),
}

impl From<Error> for LockError {
    ghost from_gives = { λ e l. l ≡ refusal.Fault e };

    fn from(error: Error) -> LockError {
        LockError::Fault(error)
    }
}

impl From<AllocError> for LockError {
    ghost from_gives = { λ _ l. l ≡ refusal.Fault error.Memory };

    fn from(_error: AllocError) -> LockError {
        LockError::Fault(Error::Memory)
    }
}

impl LockError {
    /// The error that a call answers in its place: `Io` if the lock is held, `Config` for another shape.
    pub fn error(&self) -> Error
        ensures { result ≡ error_of self.now }
    {
        match self {
            LockError::InUse => Error::Io,
            LockError::OtherShape => Error::Config,
            LockError::Fault(error) => *error,
            LockError::System(_) => Error::Io,
        }
    }

    /// The same without the system's number.
    pub fn without_number(self) -> LockError
        ensures named { IsNamed result }
        ensures error { error_of result ≡ error_of self }
    {
        match self {
            LockError::System(_) => LockError::Fault(Error::Io),
            other => other,
        }
    }

    // Why a directory isn't locked, in words.
    fn text(&self) -> &'static str
        ensures { result.now ≡ text_of self.now }
    {
        match self {
            LockError::InUse => "the directory is in use",
            LockError::OtherShape =>
                "its block size, cores and log must be those in its foyer.lock",
            LockError::Fault(_) | LockError::System(_) => "the directory couldn't be opened",
        }
    }

    /// Prints a line: a program, the directory, why the program can't open the directory, and the kind of `error`, or the system's words for
    /// it with its number. No clause says what the system's words are. An error is the writer's.
    pub fn print<W: Write>(&self, output: &mut W, program: &str, directory: &str) -> io::Result<()>
        ensures { OnOk result (IsNamed self.now
            → Appends (W.contents output.old) (W.contents output.new) (refusal_line program.now directory.now self.now)) }
    {
        output.write_all(program.as_bytes())?;
        print_after(output, directory)?;
        self.print_reason(output)
    }

    fn print_reason<W: Write>(&self, output: &mut W) -> io::Result<()>
        ensures { OnOk result (IsNamed self.now → Appends (W.contents output.old) (W.contents output.new) (reason self.now)) }
    {
        print_after(output, self.text())?;
        if let LockError::System(code) = self {
            let error = io::Error::from_raw_os_error(*code);
            return write!(output, ": {error}\n");
        }
        print_after(output, self.error().kind().name())?;
        output.write_all(b"\n")
    }
}

// What the system said of a call that failed.
fn system_error(error: &io::Error) -> LockError
    ensures { IsLockError result }
{
    match error.raw_os_error() {
        Some(code) => LockError::System(code),
        None => LockError::Fault(Error::Io),
    }
}

// Prints words after a colon.
fn print_after<W: Write>(output: &mut W, words: &str) -> io::Result<()>
    ensures { OnOk result (Appends (W.contents output.old) (W.contents output.new) (after words.now)) }
{
    output.write_all(b": ")?;
    output.write_all(words.as_bytes())
}

/// A lock of a directory. It is held until it is dropped, or until its program ends, also by a kill.
#[derive(Drop)]
pub struct DirectoryLock {
    file: File,
    // Whether it wrote the line of the shape.
    is_first: bool,
}

// Opens the file at a path, and makes it if it is missing.
fn open_file<R: Files<File = File>>(rt: &R, path: &str) -> std::result::Result<File, LockError>
    ensures { IfErr result IsLockError }
{
    let opened = OpenOptions::new()
        .read(true)
        .write(true)
        .create(true)
        .open(rt, path);
    match opened {
        Ok(file) => Ok(file),
        Err(error) => Err(system_error(&error)),
    }
}

// Locks a file for one holder.
fn lock_file(file: &File) -> std::result::Result<(), LockError>
    ensures { IfErr result IsLockError }
{
    match file.try_lock() {
        Ok(()) => Ok(()),
        Err(TryLockError::WouldBlock) => Err(LockError::InUse),
        Err(TryLockError::Error(error)) => Err(system_error(&error)),
    }
}

// All bytes of a file, or none if it has more than the line of any shape. Errors: `Io`, `Memory`.
fn bytes_of<A: Allocator>(alloc: A, file: &File) -> Result<Option<Vec<u8, A>>>
    ensures { IfErr result (λ e. (e ≡ error.Io) ⊎ (e ≡ error.Memory)) }
{
    let Ok(metadata) = file.metadata() else {
        return Err(Error::Io);
    };
    let len = metadata.len();
    if len > LINE_LIMIT {
        return Ok(None);
    }
    let mut bytes = Vec::new(alloc);
    bytes.resize(len as usize, 0)?;
    match file.read_exact_at(bytes.as_mut_slice(), 0) {
        Ok(()) => Ok(Some(bytes)),
        Err(_) => Err(Error::Io),
    }
}

// Whether a path leads to an open file. The file may have been removed, or another one may have been put in its place.
fn is_at<R: Files<File = File>>(rt: &R, file: &File, path: &str) -> bool {
    match (file.metadata(), fs::metadata(rt, path)) {
        (Ok(held), Ok(found)) => held.ino() == found.ino() && held.dev() == found.dev(),
        _ => false,
    }
}

// Writes a line into a file, also to the disk. Errors: `Io`.
fn write_line(file: &File, line: &[u8]) -> Result<()>
    ensures { IfErr result (λ e. e ≡ error.Io) }
{
    if file.write_all_at(line, 0).is_ok() && file.sync_all().is_ok() {
        Ok(())
    } else {
        Err(Error::Io)
    }
}

// Compares a locked file with a line. Writes the line if the file has none, or only its first bytes. Gives whether it wrote the line.
fn keep_line<A: Allocator>(
    alloc: A,
    file: &File,
    line: &[u8],
) -> std::result::Result<bool, LockError>
    ensures { IfErr result IsLockError }
{
    let Some(found) = bytes_of(alloc, file)? else {
        return Err(LockError::OtherShape);
    };
    match compare(&found, line) {
        Recorded::Same => Ok(false),
        Recorded::Begun => {
            write_line(file, line)?;
            Ok(true)
        }
        Recorded::Other => Err(LockError::OtherShape),
    }
}

// Whether a path leads to a file. If the system doesn't say that there is none, there may be one.
fn may_exist<R: Files<File = File>>(rt: &R, path: &str) -> bool {
    match fs::metadata(rt, path) {
        Ok(_) => true,
        Err(error) => error.kind() != io::ErrorKind::NotFound,
    }
}

// Whether a directory may have the file of a block.
fn may_have_blocks<R: Files<File = File>, A: Allocator + Clone>(
    rt: &R,
    alloc: A,
    directory: &str,
) -> Result<bool>
    ensures { IfErr result (λ e. e ≡ error.Memory) }
{
    let path = format!(in alloc.clone()?; "{directory}/foyer-storage-direct-fs-00000000")?;
    if may_exist(rt, path.as_str()) {
        return Ok(true);
    }
    let path = format!(in alloc; "{directory}/core-0/foyer-storage-direct-fs-00000000")?;
    Ok(may_exist(rt, path.as_str()))
}

// What a locked directory says of its log. The file has its line, or its first bytes if the line was never written to its end.
fn find_log<R: Files<File = File>, A: Allocator + Clone>(
    rt: &R,
    alloc: A,
    directory: &str,
    file: &File,
    wanted: &WantedShape,
) -> std::result::Result<LogFound, LockError>
    ensures { IfErr result IsLockError }
{
    let Some(found) = bytes_of(alloc.clone()?, file)? else {
        return Ok(LogFound::Unlogged);
    };
    let line = wanted.shape(LogFound::Logged).line(alloc.clone()?)?;
    match compare(&found, line.as_bytes()) {
        Recorded::Same => Ok(LogFound::Logged),
        Recorded::Other => Ok(LogFound::Unlogged),
        Recorded::Begun => {
            if may_have_blocks(rt, alloc, directory)? {
                Ok(LogFound::Unlogged)
            } else {
                Ok(LogFound::New)
            }
        }
    }
}

// Locks a directory, which is made with its parents if it is missing, for one holder. Gives its locked file.
fn lock_directory<R: Files<File = File>, A: Allocator + Clone>(
    rt: &R,
    alloc: A,
    directory: &str,
) -> std::result::Result<File, LockError>
    ensures { IfErr result IsLockError }
{
    let path = format!(in alloc; "{directory}/foyer.lock")?;
    if let Err(error) = fs::create_dir_all(rt, directory) {
        return Err(system_error(&error));
    }
    if let Err(error) = fill_closed_streams(rt, directory) {
        return Err(system_error(&error));
    }
    let file = open_file(rt, path.as_str())?;
    lock_file(&file)?;
    if !is_at(rt, &file, path.as_str()) {
        return Err(LockError::InUse);
    }
    Ok(file)
}

impl DirectoryLock {
    /// Locks a directory, which is made with its parents if it is missing, for a cache of this shape. The lock is the system's advisory
    /// lock of the file `foyer.lock` in the directory, so it holds off only programs that take it too. The first lock writes the line of
    /// the shape into this file. Each later lock must be for the same shape. To change the shape, delete the whole directory. If a standard
    /// stream of the program is closed, no file that is opened later takes its place. Drop the lock after all that uses the directory.
    /// Errors: `InUse`, `OtherShape`; `Fault` of `Io` or `Memory`.
    pub fn take<R: Files<File = File>, A: Allocator + Clone>(
        rt: &R,
        alloc: A,
        directory: &str,
        shape: &DirectoryShape,
    ) -> std::result::Result<DirectoryLock, LockError>
        ensures refused { IfErr result IsLockError }
    {
        let file = lock_directory(rt, alloc.clone()?, directory)?;
        let line = shape.line(alloc.clone()?)?;
        let is_first = keep_line(alloc, &file, line.as_bytes())?;
        Ok(DirectoryLock { file, is_first })
    }

    /// As `take`, for a shape whose log may be left to the directory. Gives the shape, too, for which the directory is locked. Block files are
    /// those of a directory's device: `foyer-storage-direct-fs-00000000` in the directory, or in `core-0` in it.
    pub fn take_wanted<R: Files<File = File>, A: Allocator + Clone>(
        rt: &R,
        alloc: A,
        directory: &str,
        wanted: &WantedShape,
    ) -> std::result::Result<(DirectoryLock, DirectoryShape), LockError>
        ensures refused { IfErr result IsLockError }
        ensures cores { IfOk result (λ r. r.1.cores ≡ wanted.now.cores) }
        ensures log { IfOk result (λ r. (log : Bool) → wanted.now.log ≡ Some log → r.1.has_log ≡ log) }
    {
        let file = lock_directory(rt, alloc.clone()?, directory)?;
        let found = find_log(rt, alloc.clone()?, directory, &file, wanted)?;
        let shape = wanted.shape(found);
        let line = shape.line(alloc.clone()?)?;
        let is_first = keep_line(alloc, &file, line.as_bytes())?;
        Ok((DirectoryLock { file, is_first }, shape))
    }

    /// Gives the lock back after the cache couldn't be opened. If it was the first lock, the file has no shape again.
    pub fn forget(self) {
        if self.is_first {
            let _ = self.file.set_len(0);
        }
    }

    /// As `take`. If the lock is held, it tries again up to `tries` times, each time after 50 milliseconds. So it gets the lock of a program
    /// that ends meanwhile.
    pub fn take_within<R: Files<File = File> + Clock, A: Allocator + Clone>(
        rt: &R,
        alloc: A,
        directory: &str,
        shape: &DirectoryShape,
        tries: u32,
    ) -> std::result::Result<DirectoryLock, LockError>
        ensures refused { IfErr result IsLockError }
    {
        for _ in 0..tries {
            match DirectoryLock::take(rt, alloc.clone()?, directory, shape) {
                Err(LockError::InUse) => thread::sleep(rt, Duration::from_millis(PAUSE)),
                taken => return taken,
            }
        }
        DirectoryLock::take(rt, alloc, directory, shape)
    }

    /// As `take_wanted`, with the tries of `take_within`.
    pub fn take_wanted_within<R: Files<File = File> + Clock, A: Allocator + Clone>(
        rt: &R,
        alloc: A,
        directory: &str,
        wanted: &WantedShape,
        tries: u32,
    ) -> std::result::Result<(DirectoryLock, DirectoryShape), LockError>
        ensures refused { IfErr result IsLockError }
        ensures cores { IfOk result (λ r. r.1.cores ≡ wanted.now.cores) }
        ensures log { IfOk result (λ r. (log : Bool) → wanted.now.log ≡ Some log → r.1.has_log ≡ log) }
    {
        for _ in 0..tries {
            match DirectoryLock::take_wanted(rt, alloc.clone()?, directory, wanted) {
                Err(LockError::InUse) => thread::sleep(rt, Duration::from_millis(PAUSE)),
                taken => return taken,
            }
        }
        DirectoryLock::take_wanted(rt, alloc, directory, wanted)
    }
}
