//! Types whose values are encoded as bytes.
ghost use Rattle.std.specs.Prelude.{◌≡◌, ◌≢◌, ◌⊎◌, ◌-◌, ◌^◌, ℕ, List, Bool, None, true, false, min, length, OnOk, OnErr, IfOk, IfErr};
ghost use Rattle.std.specs.Io.KnownBytes.{Appends};
ghost use Rattle.foyer_device_page.specs.Error.{IsDecodeFault};
ghost use Rattle.foyer_device_page.specs.declared.error.Error.TheVariants.{Memory};
ghost use Rattle.foyer_format_code.specs.Writing.{Takes, Extends, IsFaultAt, IsWriteFault, counted_on};

use super::sinks::Sink;
use foyer_device_page::error::Result;
use std::alloc::Allocator;
use std::hash::Hash;
use std::io;
use std::io::Write;

/// A type whose values are encoded as bytes, and decoded with an allocator of type `A`.
pub trait Code<A: Allocator> {
    // The bytes of a value.
    ghost encoding: { Self → List ℕ };

    // Whether the value can be encoded.
    ghost is_encodable: { Self → Bool };

    // Whether some value has this encoding.
    ghost is_decodable: { List ℕ → Bool };

    // The two values are the same, whatever memory they lie in.
    ghost same: { Self → Self → Type 0 };

    // Decoding these bytes takes memory, which may be refused.
    ghost takes_memory: { List ℕ → Type 0 };

    /// Writes the value's bytes. An error is the writer's, or means that the value can't be
    /// encoded. After an `Err` some of the bytes may have been written.
    fn encode_into<W: Sink>(&self, writer: &mut W) -> Result<()>
        ensures bytes { OnOk result
            (Appends (W.contents writer.old) (W.contents writer.new) (encoding self.now)) }
        ensures room { OnOk result
            (Takes (W.room writer.old) (W.room writer.new) (length (encoding self.now))) }
        ensures taken { OnOk result
            (W.taken writer.new ≡ counted_on (W.taken writer.old) (length (encoding self.now))) }
        ensures encoded { OnOk result (is_encodable self.now ≡ true) }
        ensures borrow { W.borrow writer.new ≡ W.borrow writer.old }
        ensures kept { OnErr result (Extends (W.room writer.old) (W.room writer.new)
            (W.contents writer.old) (W.contents writer.new)) }
        ensures refused { IfErr result (λ e. (is_encodable self.now ≡ true → ⊥)
            ⊎ IsWriteFault (W.room writer.old) (length (encoding self.now)) e) };

    /// Writes the value's bytes to any writer. Errors: Io if the writer failed, BufferSizeLimit if it
    /// takes no more, else the code's own error. After an `Err` some of the bytes may have been
    /// written.
    final fn encode<W: Write>(&self, writer: &mut W) -> Result<()>
    where
        Self: Sized,
        ensures bytes { OnOk result
            (Appends (W.contents writer.old) (W.contents writer.new) (encoding self.now)) }
        ensures encoded { OnOk result (is_encodable self.now ≡ true) }
        ensures refused { IfErr result (λ e. (is_encodable self.now ≡ true → ⊥) ⊎ IsFaultAt None e) }
    {
        let mut lent = Lent {
            inner: writer,
            written: 0,
        };
        self.encode_into(&mut lent)
    }

    /// Gives the value whose encoding is all of these bytes. Errors: Parse if there is none, Memory if
    /// an allocation was refused.
    fn decode(alloc: A, bytes: &[u8]) -> Result<Self>
    where
        Self: Sized,
        ensures found { IfOk result (λ v. encoding v ≡ bytes.now) }
        ensures is_encodable { IfOk result (λ v. is_encodable v ≡ true) }
        ensures is_decodable { OnOk result (is_decodable bytes.now ≡ true) }
        ensures refused { IfErr result (λ e. e ≢ Memory → is_decodable bytes.now ≡ false) }
        ensures memory { IfErr result (λ e. e ≡ Memory → takes_memory bytes.now) }
        ensures fault { IfErr result IsDecodeFault };

    /// How many bytes the value takes, at most `usize::MAX`.
    fn estimated_size(&self) -> usize
        ensures { is_encodable self.now ≡ true → result ≡ min (length (encoding self.now)) (2 ^ 64 - 1) };

    // The encoding of a value that can be encoded is decodable.
    ghost is_encoded: { (v : Self) → is_encodable v ≡ true → is_decodable (encoding v) ≡ true };

    // Bytes encode one value at most.
    ghost one_value: { (v w : Self) → is_encodable v ≡ true → is_encodable w ≡ true → encoding v ≡ encoding w → same v w };

    // A value whose encoding is decodable can be encoded.
    ghost coded: { (v : Self) → is_decodable (encoding v) ≡ true → is_encodable v ≡ true };
}

// A writer that is borrowed for one encoding, and that counts the bytes written.
#[derive(Drop)]
struct Lent<'a, W: Write> {
    inner: &'a mut W,
    written: usize,
}

impl<W: Write> Write for Lent<'_, W> {
    ghost contents = { λ t. W.contents t.inner.now };

    fn write(&mut self, buf: &[u8]) -> io::Result<usize> {
        let n = self.inner.write(buf)?;
        self.written = self.written.saturating_add(n);
        Ok(n)
    }

    fn flush(&mut self) -> io::Result<()> {
        self.inner.flush()
    }
}

impl<W: Write> Sink for Lent<'_, W> {
    ghost room = { λ _. None };

    ghost taken = { λ t. t.written };

    ghost borrow = { λ t. t.inner.ghost_name };

    fn taken(&self) -> usize {
        self.written
    }

    fn put(&mut self, bytes: &[u8]) -> Result<()> {
        self.inner.write_all(bytes)?;
        self.written = self.written.saturating_add(bytes.len());
        Ok(())
    }
}

/// A key of the disk cache. Each type that has these bounds is one.
pub trait StorageKey<A: Allocator>: Code<A> + Hash + Eq + Send + Sync + 'static {}

impl<A: Allocator, T: Code<A> + Hash + Eq + Send + Sync + 'static> StorageKey<A> for T {}

/// A value of the disk cache. Each type that has these bounds is one.
pub trait StorageValue<A: Allocator>: Code<A> + Send + Sync + 'static {}

impl<A: Allocator, T: Code<A> + Send + Sync + 'static> StorageValue<A> for T {}
