//! What frames are read from.
ghost use Rattle.std.specs.Prelude.{◌≡◌, ◌<◌, length, take, IfErr, IfOk, OnErr, ⊤};
ghost use Rattle.std.specs.Io.{ReadsAtMost};
ghost use Rattle.std.specs.Io.KnownBytes.{Consumes, IsAtEnd, Keeps, ReadConsumes};
ghost use Rattle.std.specs.declared.io.Error.{Error};

use std::io;
use std::io::Read;

/// A reader of frames. Every reader is one. Contracts over any such reader can say of an error that it is the reader's own.
pub trait FrameReader: Read {
    // What errors it may give.
    ghost may_fail: { Error → Type 0 };

    /// Does one read. Errors: the reader's.
    fn read_part(&mut self, room: &mut [u8]) -> io::Result<usize>
        ensures bound { ReadsAtMost result room.new }
        ensures bytes { ReadConsumes (Self.remaining self.old) (Self.remaining self.new) result room.new }
        ensures own { IfErr result may_fail };
}

impl<R: Read> FrameReader for R {
    ghost may_fail = { λ _. ⊤ };

    fn read_part(&mut self, room: &mut [u8]) -> io::Result<usize> {
        self.read(room)
    }
}

// Does one read, and does it again if it was interrupted. An error is the reader's.
pub(crate) fn read_some<R: FrameReader>(input: &mut R, room: &mut [u8]) -> io::Result<usize>
    ensures bound { ReadsAtMost result room.new }
    ensures ok { IfOk result (λ n. Consumes (R.remaining input.old) (R.remaining input.new) (take n room.new)) }
    ensures end { IfOk result (λ n. n ≡ 0 → 0 < length room.new → IsAtEnd (R.remaining input.new)) }
    ensures err { OnErr result (Keeps (R.remaining input.old) (R.remaining input.new)) }
    ensures own { IfErr result R.may_fail }
{
    for _ in 0..u64::MAX {
        match input.read_part(room) {
            Ok(count) => return Ok(count),
            Err(error) => {
                if error.kind() != io::ErrorKind::Interrupted {
                    return Err(error);
                }
            }
        }
    }
    input.read_part(room)
}
