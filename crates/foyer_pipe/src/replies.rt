//! Replies, which several threads write.
ghost use Rattle.std.specs.Prelude.{◌≡◌, OnOk};
ghost use Rattle.std.specs.Io.KnownBytes.{Appends};
ghost use Rattle.foyer_frames.specs.Reply.{reply_bytes};

use crate::coded::Coded;
use foyer_frames::reply::Reply;
use foyer_lock::lock_spinning;
use std::io;
use std::io::Write;
use std::sync::atomic::{AtomicBool, Ordering};
use std::sync::{Mutex, Wait};

/// Shows that a reply to the request of this number was written, or that its writing failed, which all later flushes say. Only
/// `Replies::write` makes one.
#[derive(Clone, Copy)]
pub(crate) struct Replied {
    number: u32,
}

/// The program's output, to which each thread writes whole replies.
pub(crate) struct Replies<O: Write + Drop> {
    output: Mutex<O>,
    // Whether something couldn't be written.
    has_failed: AtomicBool,
}

// Written out, so that it is proved once.
impl<O: Write + Drop> Drop for Replies<O> {
    fn drop(self) {
        let Replies {
            output: _,
            has_failed: _,
        } = self;
    }
}

// Writes the frame of a reply.
fn write_frame<O: Write>(output: &mut O, number: u32, code: u8, bytes: &[u8]) -> io::Result<()>
    ensures { OnOk result (Appends (O.contents output.old) (O.contents output.new) (reply_bytes (record { number = number; code = code; bytes = bytes.now }))) }
{
    let reply = Reply {
        number,
        code,
        bytes,
    };
    reply.write_to(output)
}

impl<O: Write + Drop> Replies<O> {
    /// Replies to this output, which has a buffer of its own.
    pub(crate) fn new(output: O) -> Replies<O> {
        Replies {
            output: Mutex::new(output),
            has_failed: AtomicBool::new(false),
        }
    }

    /// Writes a reply. If it can't be written, or has more than `u32::MAX` bytes, all later flushes give false.
    pub(crate) fn write(&self, rt: &impl Wait, number: u32, coded: Coded<'_>) -> Replied
        ensures { result.number ≡ number }
    {
        let written = write_frame(
            &mut *lock_spinning(&self.output, rt),
            number,
            coded.code(),
            coded.bytes(),
        );
        if written.is_err() {
            self.has_failed.store(true, Ordering::Relaxed);
        }
        Replied { number }
    }

    /// Writes out what the output has in its buffer. Gives whether that went well and every reply so far could be written.
    pub(crate) fn flush(&self, rt: &impl Wait) -> bool {
        let flushed = lock_spinning(&self.output, rt).flush();
        flushed.is_ok() && !self.has_failed.load(Ordering::Relaxed)
    }
}
