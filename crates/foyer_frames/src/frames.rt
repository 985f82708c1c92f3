//! The requests of a stream, one at a time.
ghost use Rattle.std.specs.Prelude.{◌≡◌, ◌+◌, ◌≤◌, ◌++◌, ◌⊎◌, ℕ, List, Err, Some, max, IfErr, IfOk, IfSome, OnErr};
ghost use Rattle.std.specs.Io.KnownBytes.{Keeps};
ghost use Rattle.std.specs.IoError.{error_kind};
ghost use Rattle.std.specs.declared.io.ErrorKind.TheVariants.{OutOfMemory};
ghost use Rattle.foyer_frames.specs.declared.request.Fault.TheVariants.{Short};
ghost use Rattle.foyer_frames.specs.Request.{request_at};

use crate::read::FrameReader;
use crate::request::{Fault, Head, Limits};
use crate::window::Window;
pub use crate::window::{Filled, Taken};
use std::alloc::{AllocError, Allocator};
use std::io;
use std::io::Read;

/// What `next` found.
#[derive(Clone, Copy, Debug, PartialEq, Eq)]
pub enum Next {
    /// A request.
    Request(Head),
    /// The bytes are no frame within the limits. The stream stays where it is: after a broken frame no other frame can be found.
    Refused(Fault),
    /// The stream has ended, and all of its bytes were taken.
    End,
    /// The stream has ended within a frame.
    Cut,
}

/// A reader's requests. The bytes that were read are in a buffer of 64 KiB. If a frame is longer, the buffer grows, at most to the
/// longest frame within the limits.
pub struct Frames<R: Read + Drop, A: Allocator> {
    input: R,
    window: Window<A>,
}

// Written out, so that it is proved once.
impl<R: Read + Drop, A: Allocator> Drop for Frames<R, A> {
    fn drop(self) {
        let Frames {
            input: _,
            window: _,
        } = self;
    }
}

impl<R: FrameReader + Drop, A: Allocator> Frames<R, A> {
    ghost use Rattle.foyer_frames.specs.Stream.{Fills, Finds, Takes, buffer_len, buffered, last_key, last_value, limits_of, unread};

    /// Gives the requests of a reader. Nothing is read yet. Errors: `AllocError` if there is no memory for 64 KiB.
    pub fn new(alloc: A, input: R, limits: Limits) -> Result<Frames<R, A>, AllocError>
        ensures limits { IfOk result (λ f. limits_of f ≡ limits) }
        ensures unread { IfOk result (λ f. Keeps (R.remaining input) (unread R.remaining f)) }
    {
        Ok(Frames {
            input,
            window: Window::new(alloc, limits)?,
        })
    }

    /// Gives the buffer's length in bytes. It is at most 64 KiB or the longest frame within the limits, whichever is more.
    pub fn buffer_len(&self) -> usize
        ensures len { result ≡ buffer_len self.now }
        ensures bound { result ≤ max 65536 (13 + ((limits_of self.now).key + (limits_of self.now).value)) }
    {
        self.window.len()
    }

    /// Takes the request at the front of what was read, without reading.
    pub fn take(&mut self) -> Taken
        ensures taken { Takes (limits_of self.old) (buffered self.old) result (last_key self.new) (last_value self.new) (buffered self.new) }
        ensures kept { self.new ≡ record self.old { window = self.new.window } }
        ensures limits { limits_of self.new ≡ limits_of self.old }
    {
        self.window.take()
    }

    /// The key of the request that was taken last, until `fill` or `next` reads on.
    pub fn key(&self) -> &[u8]
        ensures { result.now ≡ last_key self.now }
    {
        self.window.key()
    }

    /// The value of the request that was taken last, until `fill` or `next` reads on.
    pub fn value(&self) -> &[u8]
        ensures { result.now ≡ last_value self.now }
    {
        self.window.value()
    }

    /// Reads more if the bytes that were read and not taken are less than a frame. An error is the reader's, or `OutOfMemory` if the
    /// buffer can't grow. An error loses nothing, and the call may be made again.
    pub fn fill(&mut self) -> io::Result<Filled>
        ensures filled { IfOk result (λ f. Fills (limits_of self.old) (buffered self.old) f (buffered self.new) (R.remaining self.new.input)) }
        // An error comes only if a read is needed. It is the reader's, or memory was refused.
        ensures needed { OnErr result (request_at (limits_of self.old) (buffered self.old) ≡ Err Short) }
        ensures refused { IfErr result (λ e. R.may_fail e ⊎ (error_kind e ≡ OutOfMemory)) }
        ensures front { (more : List ℕ) × (buffered self.new ≡ buffered self.old ++ more) }
        ensures kept { Keeps (unread R.remaining self.old) (unread R.remaining self.new) }
        ensures limits { limits_of self.new ≡ limits_of self.old }
    {
        if !self.window.is_partial() {
            return Ok(Filled::Ready);
        }
        self.window.make_room()?;
        let count = self.window.read_from(&mut self.input)?;
        if count > 0 {
            return Ok(Filled::More);
        }
        if self.window.as_slice().is_empty() {
            Ok(Filled::End)
        } else {
            Ok(Filled::Cut)
        }
    }

    /// Takes the next request of the stream, and reads as much as that needs. Errors: those of `fill`. An error loses nothing.
    pub fn next(&mut self) -> io::Result<Next>
        ensures found { IfOk result (λ n. IfSome (unread R.remaining self.old)
            (λ bytes. Finds (limits_of self.old) bytes n (last_key self.new) (last_value self.new) (unread R.remaining self.new))) }
        // Even if the input's bytes aren't known, the same holds of the bytes held before and the bytes that were read.
        ensures read { IfOk result (λ n. (more : List ℕ)
            × Finds (limits_of self.old) (buffered self.old ++ more) n (last_key self.new) (last_value self.new) (Some (buffered self.new))) }
        ensures err { OnErr result (Keeps (unread R.remaining self.old) (unread R.remaining self.new)) }
        ensures refused { IfErr result (λ e. R.may_fail e ⊎ (error_kind e ≡ OutOfMemory)) }
        ensures front { OnErr result ((more : List ℕ) × (buffered self.new ≡ buffered self.old ++ more)) }
        ensures limits { limits_of self.new ≡ limits_of self.old }
    {
        for _ in 0..u64::MAX {
            match self.take() {
                Taken::Request(head) => return Ok(Next::Request(head)),
                Taken::Refused(fault) => return Ok(Next::Refused(fault)),
                Taken::Partial => {}
            }
            match self.fill()? {
                Filled::More | Filled::Ready => {}
                Filled::End => return Ok(Next::End),
                Filled::Cut => return Ok(Next::Cut),
            }
        }
        // No memory holds so many bytes.
        Err(io::Error::from(io::ErrorKind::OutOfMemory))
    }
}
