//! What an engine asks of the buffers that it reads into and writes from.
ghost use Rattle.std.specs.Prelude.{◌≡◌, ℕ, List, length};
ghost use Rattle.std.specs.Borrow.{sem, Lends, Array, u8};

/// A view of bytes.
pub trait IoB: Drop {
    ghost bytes: { Self → List ℕ };

    /// Its bytes.
    fn as_slice(&self) -> &[u8]
        ensures { result.now ≡ bytes self.now };
}

/// Bytes that are written to a device.
pub trait IoBuf: IoB {
    /// The buffer, as a view of its bytes.
    fn into_iob(self) -> Self
    where
        Self: Sized,
        ensures { result ≡ self };
}

/// Bytes that a device is read into.
pub trait IoBufMut: IoB {
    // The buffer with these bytes in the place of its own.
    ghost filled: { Self → List ℕ → Self };

    /// Its bytes, to be written over.
    fn as_mut_slice(&mut self) -> &mut [u8]
        ensures* writes_back { sem 𝓛
            (Lends Self.row (Array u8 0) self.entry result (filled self.old)) }
        ensures value { result.now ≡ Self.bytes self.old };

    /// The buffer, as a view of its bytes.
    fn into_iob(self) -> Self
    where
        Self: Sized,
        ensures { result ≡ self };

    // If the buffer is filled with as many bytes as it has, it then has these bytes.
    ghost fills: { (s : Self) (bytes : List ℕ) → length bytes ≡ length (Self.bytes s)
        → Self.bytes (filled s bytes) ≡ bytes };
}
