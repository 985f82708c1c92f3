//! Buffers for an engine's calls: one that owns the bytes to be read, one that borrows the bytes to be written.
ghost use Rattle.std.specs.Prelude.{◌≡◌, ℕ, List, length};
ghost use Rattle.std.specs.Borrow.{sem, Lends, Array, u8};
ghost use Rattle.foyer_device_page.specs.Refilled.{refilled, refilled-same};
ghost use Rattle.foyer_io_engine.specs.contracts.io.engine.buffers.ReadBuffer.{the_row};

use foyer_device_page::io::bytes::{IoB, IoBuf, IoBufMut};
use std::alloc::Allocator;
use std::marker::Model;

/// A vector whose bytes a read replaces.
#[derive(Drop)]
pub struct ReadBuffer<A: Allocator> {
    bytes: Vec<u8, A>,
}

impl<A: Allocator> Model for ReadBuffer<A> {
    ghost use Rattle.std.specs.Prelude.{ℕ, List};

    ghost Value = { List ℕ };

    ghost view = { λ b. b.bytes.items };
}

impl<A: Allocator> ReadBuffer<A> {
    /// As many bytes are read as the vector has.
    pub fn new(bytes: Vec<u8, A>) -> ReadBuffer<A>
        ensures { result ≡ bytes.items }
    {
        ReadBuffer { bytes }
    }

    /// The vector again.
    pub fn into_vec(self) -> Vec<u8, A>
        ensures { result.items ≡ self }
    {
        let ReadBuffer { bytes } = self;
        bytes
    }

    fn as_mut(&mut self) -> &mut [u8]
        ensures* writes_back { sem 𝓛
            (Lends (the_row A.row A.Allocator) (Array u8 0) self.entry result
            (refilled self.old)) }
        ensures value { result.now ≡ self.old }
    {
        self.bytes.as_mut_slice()
    }
}

impl<A: Allocator> IoB for ReadBuffer<A> {
    ghost bytes = { λ b. b };

    fn as_slice(&self) -> &[u8] {
        self.bytes.as_slice()
    }
}

impl<A: Allocator> IoBufMut for ReadBuffer<A> {
    ghost filled = { refilled };

    ghost fills = { refilled-same };

    fn as_mut_slice(&mut self) -> &mut [u8] {
        self.as_mut()
    }

    fn into_iob(self) -> ReadBuffer<A> {
        self
    }
}

/// Bytes that are borrowed for a write.
pub struct WriteBuffer<'a>(pub &'a [u8]);

impl Drop for WriteBuffer<'_> {
    fn drop(self) {
        let WriteBuffer(_) = self;
    }
}

impl IoB for WriteBuffer<'_> {
    ghost bytes = { λ b. b.0.now };

    fn as_slice(&self) -> &[u8] {
        self.0
    }
}

impl IoBuf for WriteBuffer<'_> {
    fn into_iob(self) -> Self {
        self
    }
}
