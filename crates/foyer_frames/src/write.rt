//! What frames are written to.
ghost use Rattle.std.specs.Prelude.{IfErr, OnOk, ⊤};
ghost use Rattle.std.specs.Io.KnownBytes.{Appends};
ghost use Rattle.std.specs.declared.io.Error.{Error};

use std::io;
use std::io::Write;

/// A writer of frames. Every writer is one. Contracts over any such writer can say of an error that it is the writer's own.
pub trait FrameWriter: Write {
    // What errors it may give.
    ghost may_fail: { Error → Type 0 };

    /// Writes all bytes. Errors: the writer's. It may have taken a part of the bytes then.
    fn write_part(&mut self, bytes: &[u8]) -> io::Result<()>
        ensures bytes { OnOk result (Appends (Self.contents self.old) (Self.contents self.new) bytes.now) }
        ensures own { IfErr result may_fail };
}

impl<W: Write> FrameWriter for W {
    ghost may_fail = { λ _. ⊤ };

    fn write_part(&mut self, bytes: &[u8]) -> io::Result<()> {
        self.write_all(bytes)
    }
}
