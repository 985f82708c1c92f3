//! A file in memory.
ghost use Rattle.std.specs.Prelude.{◌≡◌, ℕ, [], ◌+◌, ◌<◌, ◌≤◌, ◌⊎◌, ◌↔◌, length, vec_len, vec_capacity, slice_index, IsTrue, IsSome, IfSome, IfOk, OnErr};
ghost use Rattle.foyer_device_page.specs.declared.error.Error.TheVariants as error;

use foyer_device_page::error::Result;
use std::alloc::Allocator;
use std::marker::Model;

/// A fixed number of bytes in memory. The memory is first touched when it is written. Bytes that were never written are zeros.
#[derive(Drop)]
pub struct MemoryFile<A: Allocator> {
    // The bytes up to the last one that was written.
    bytes: Vec<u8, A>,
    len: usize,
}

impl<A: Allocator> Model for MemoryFile<A> {
    ghost use Rattle.std.specs.Prelude.{◌≤◌, length, vec_capacity};
    ghost use Rattle.foyer_io_engine.specs.MemoryFile.{Contents};

    ghost Value = { Contents };

    ghost view = { λ f. record { len = f.len; bytes = f.bytes.items } };

    ghost invariant = { λ f. (f.len ≤ vec_capacity f.bytes) };
}

// Puts the bytes at a place that the memory has room for.
fn put_at<A: Allocator>(memory: &mut Vec<u8, A>, start: usize, bytes: &[u8])
    requires { start + length bytes.now ≤ vec_capacity memory.old }
    ensures put { (i : ℕ) → i < length bytes.now
        → slice_index bytes.now i ≡ slice_index memory.new.items (start + i) }
    ensures others { (o : ℕ) → (o < start) ⊎ (start + length bytes.now ≤ o)
        → slice_index memory.new.items o ≡ slice_index memory.old.items o }
    ensures capacity { vec_capacity memory.old ≤ vec_capacity memory.new }
{
    if memory.len() < start {
        memory.resize(start, 0).unwrap();
    }
    let end = start + bytes.len();
    if end < memory.len() {
        memory.as_mut_slice()[start..end].copy_from_slice(bytes);
    } else {
        memory.truncate(start);
        memory.extend_from_slice(bytes).unwrap();
    }
}

// Fills `into` with the bytes from a place on. A byte that was never written is zero.
fn get_at(memory: &[u8], start: usize, into: &mut [u8])
    ensures { (i : ℕ) → i < length into.new → slice_index into.new i ≡ slice_index memory.now (start + i) }
{
    if start >= memory.len() {
        into.fill(0);
        return;
    }
    let there = memory.len() - start;
    if there >= into.len() {
        into.copy_from_slice(&memory[start..start + into.len()]);
        return;
    }
    into.fill(0);
    into[..there].copy_from_slice(&memory[start..]);
}

impl<A: Allocator> MemoryFile<A> {
    /// A file of `len` zeros. Error: Memory.
    pub fn new(alloc: A, len: usize) -> Result<MemoryFile<A>>
        ensures zeros { IfOk result (λ f. f ≡ record { len = len; bytes = [] }) }
        ensures memory { OnErr result (result ≡ Err error.Memory) }
    {
        Ok(MemoryFile {
            bytes: Vec::with_capacity(alloc, len)?,
            len,
        })
    }

    /// Whether `len` bytes from a place on lie in it.
    pub fn has(&self, at: u64, len: usize) -> bool
        ensures { IsTrue result ↔ (at + len ≤ self.now.len) }
    {
        len <= self.len && at <= (self.len - len) as u64
    }

    /// Fills `into` with the bytes from a place on. They must lie in the file.
    pub fn read_at(&self, at: u64, into: &mut [u8])
        requires { at + length into.old ≤ self.now.len }
        ensures { (i : ℕ) → i < length into.new
            → slice_index into.new i ≡ slice_index self.now.bytes (at + i) }
    {
        get_at(self.bytes.as_slice(), at as usize, into);
    }

    /// Writes the bytes over those from a place on. These must lie in the file.
    pub fn write_at(&mut self, at: u64, bytes: &[u8])
        requires { at + length bytes.now ≤ self.old.len }
        ensures same { self.new.len ≡ self.old.len }
        ensures put { (i : ℕ) → i < length bytes.now
            → slice_index bytes.now i ≡ slice_index self.new.bytes (at + i) }
        ensures others { (o : ℕ) → (o < at) ⊎ (at + length bytes.now ≤ o)
            → slice_index self.new.bytes o ≡ slice_index self.old.bytes o }
    {
        let _room = self.len;
        put_at(&mut self.bytes, at as usize, bytes);
    }
}
