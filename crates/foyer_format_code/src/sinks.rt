//! Writers that count, and that may say how much they surely take.
ghost use Rattle.std.specs.Prelude.{◌≡◌, ℕ, Option, None, length, IfErr, IfOk, OnErr, OnOk};
ghost use Rattle.std.specs.Io.KnownBytes.{Appends, Keeps, WriteAppends};
ghost use Rattle.std.specs.Io.{WritesAtMost};
ghost use Rattle.foyer_format_code.specs.Writing.{Lacks, Takes, Extends, IsFaultAt, counted_on};
ghost use Rattle.foyer_format_code.specs.Tracked.{written_of, inner_of};

use foyer_device_page::error::Result;
use std::io;
use std::io::Write;

/// A writer that counts its bytes. If its room is known, only a lack of room makes it fail. So a
/// caller can tell the writer's failure from a code's.
pub trait Sink: Write {
    // How many bytes it surely takes, if that is known.
    ghost room: { Self → Option ℕ };

    // How many bytes it has taken.
    ghost taken: { Self → ℕ };

    // The borrow that the writer writes through, which never changes. It is 0 if the writer owns
    // what it writes into.
    ghost borrow: { Self → ℕ };

    /// How many bytes it has taken, at most `usize::MAX`.
    fn taken(&self) -> usize
        ensures { result ≡ taken self.now };

    /// Writes all the bytes. Errors: BufferSizeLimit if room is missing, Io if the writer failed.
    /// After an `Err` some of the bytes may have been written.
    fn put(&mut self, bytes: &[u8]) -> Result<()>
        ensures bytes { OnOk result
            (Appends (Self.contents self.old) (Self.contents self.new) bytes.now) }
        ensures room { OnOk result (Takes (room self.old) (room self.new) (length bytes.now)) }
        ensures taken { OnOk result
            (taken self.new ≡ counted_on (taken self.old) (length bytes.now)) }
        ensures full { OnErr result (Lacks (room self.old) (length bytes.now)) }
        ensures kept { OnErr result (Extends (room self.old) (room self.new)
            (Self.contents self.old) (Self.contents self.new)) }
        ensures fault { IfErr result (IsFaultAt (room self.old)) }
        ensures borrow { borrow self.new ≡ borrow self.old };
}

/// A writer that counts the bytes it takes. The count stops at `usize::MAX`.
#[derive(Drop)]
pub struct TrackedWriter<W> {
    inner: W,
    written: usize,
}

impl<W: Write> TrackedWriter<W> {
    /// A writer into `inner` that has taken nothing.
    pub fn new(inner: W) -> TrackedWriter<W>
        ensures inner { inner_of result ≡ inner }
        ensures written { written_of result ≡ 0 }
    {
        TrackedWriter { inner, written: 0 }
    }

    /// How many bytes were written.
    pub fn written(&self) -> usize
        ensures { result ≡ written_of self.now }
    {
        self.written
    }
}

impl<W: Write> Write for TrackedWriter<W> {
    ghost contents = { λ t. W.contents (inner_of t) };

    fn write(&mut self, buf: &[u8]) -> io::Result<usize>
        ensures bound { WritesAtMost result buf.now }
        ensures bytes { WriteAppends (W.contents (inner_of self.old))
            (W.contents (inner_of self.new)) result buf.now }
        ensures written { IfOk result (λ n.
            written_of self.new ≡ counted_on (written_of self.old) n) }
        ensures refused { OnErr result (written_of self.new ≡ written_of self.old) }
    {
        let n = self.inner.write(buf)?;
        self.written = self.written.saturating_add(n);
        Ok(n)
    }

    fn flush(&mut self) -> io::Result<()>
        ensures bytes { Keeps (W.contents (inner_of self.old)) (W.contents (inner_of self.new)) }
        ensures written { written_of self.new ≡ written_of self.old }
    {
        self.inner.flush()
    }
}

impl<W: Write> Sink for TrackedWriter<W> {
    ghost room = { λ _. None };

    ghost taken = { λ t. written_of t };

    ghost borrow = { λ _. 0 };

    fn taken(&self) -> usize {
        self.written
    }

    fn put(&mut self, bytes: &[u8]) -> Result<()> {
        self.inner.write_all(bytes)?;
        self.written = self.written.saturating_add(bytes.len());
        Ok(())
    }
}
