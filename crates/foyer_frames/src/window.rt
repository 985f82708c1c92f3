// The bytes that were read of a stream of requests, in one buffer that is used again.
ghost use Rattle.std.specs.Prelude.{◌≡◌, ◌+◌, ◌<◌, ◌≤◌, ℕ, List, [], ◌++◌, length, max, take, vec_len, IfErr, IfOk, OnOk, OnErr, Err, IsTrue, ◌↔◌};
ghost use Rattle.std.specs.Io.KnownBytes.{Consumes, IsAtEnd, Keeps};
ghost use Rattle.foyer_frames.specs.declared.request.Fault.TheVariants.{Short};
ghost use Rattle.foyer_frames.specs.Request.{request_at};

use crate::read::{FrameReader, read_some};
use crate::request::{Fault, HEAD_LEN, Head, Limits};
use std::alloc::{AllocError, Allocator};
use std::io;

// The buffer's first length in bytes.
const FIRST_LEN: usize = 64 * 1024;

/// What `take` found at the front of the bytes that were read and not taken.
#[derive(Clone, Copy, Debug, PartialEq, Eq)]
pub enum Taken {
    /// A request.
    Request(Head),
    /// Bytes that are no frame within the limits, nor the beginning of one. Nothing was taken.
    Refused(Fault),
    /// Less than a frame. Nothing was taken.
    Partial,
}

/// What `fill` found.
#[derive(Clone, Copy, Debug, PartialEq, Eq)]
pub enum Filled {
    /// At least one more byte was read.
    More,
    /// The buffer has a whole frame already, or bytes that are refused. Nothing was read.
    Ready,
    /// The stream has ended, and all of its bytes were taken.
    End,
    /// The stream has ended within a frame.
    Cut,
}

// The bytes from `start` to `end` were read and not taken. Before them are the key and the value of the request that was taken last, from
// `key` and from `value` on.
pub(crate) struct Window<A: Allocator> {
    bytes: Vec<u8, A>,
    limits: Limits,
    key: usize,
    value: usize,
    start: usize,
    end: usize,
    ghost key_first: { key ≤ value },
    ghost value_next: { value ≤ start },
    ghost in_order: { start ≤ end },
    ghost in_bytes: { end ≤ vec_len bytes },
    ghost some_room: { 65536 ≤ vec_len bytes },
    ghost bounded: { vec_len bytes ≤ max 65536 (13 + (limits.key + limits.value)) },
}

// Written out, so that it is proved once.
impl<A: Allocator> Drop for Window<A> {
    fn drop(self) {
        let Window {
            bytes: _,
            limits: _,
            key: _,
            value: _,
            start: _,
            end: _,
        } = self;
    }
}

// Lengthens the bytes to `len` by zeros. If there is no memory, the bytes stay as they are.
fn lengthen<A: Allocator>(bytes: &mut Vec<u8, A>, len: usize) -> Result<(), AllocError>
    requires { vec_len bytes.old ≤ len }
    ensures ok { OnOk result (vec_len bytes.new ≡ len) }
    ensures err { OnErr result (vec_len bytes.new ≡ vec_len bytes.old) }
    ensures front { take (vec_len bytes.old) bytes.new.items ≡ bytes.old.items }
{
    bytes.reserve_exact(len - bytes.len())?;
    bytes.resize(len, 0)
}

impl<A: Allocator> Window<A> {
    ghost use Rattle.foyer_frames.specs.Stream.{Takes, held, held_key, held_value};

    pub(crate) fn new(alloc: A, limits: Limits) -> Result<Window<A>, AllocError>
        ensures empty { IfOk result (λ w. held w ≡ []) }
        ensures limits { IfOk result (λ w. w.limits ≡ limits) }
    {
        Ok(Window {
            bytes: Vec::from_elem(alloc, 0, FIRST_LEN)?,
            limits,
            key: 0,
            value: 0,
            start: 0,
            end: 0,
        })
    }

    pub(crate) fn as_slice(&self) -> &[u8]
        ensures { result.now ≡ held self.now }
    {
        &self.bytes.as_slice()[self.start..self.end]
    }

    pub(crate) fn len(&self) -> usize
        ensures { result ≡ vec_len self.now.bytes }
    {
        self.bytes.len()
    }

    pub(crate) fn key(&self) -> &[u8]
        ensures { result.now ≡ held_key self.now }
    {
        &self.bytes.as_slice()[self.key..self.value]
    }

    pub(crate) fn value(&self) -> &[u8]
        ensures { result.now ≡ held_value self.now }
    {
        &self.bytes.as_slice()[self.value..self.start]
    }

    // Takes the frame at the front of what is held.
    #[tactic(auto, unfolding(crate::specs::Request::request_at))]
    pub(crate) fn take(&mut self) -> Taken
        ensures taken { Takes self.old.limits (held self.old) result (held_key self.new) (held_value self.new) (held self.new) }
        ensures limits { self.new.limits ≡ self.old.limits }
    {
        let head = match Head::decode(self.as_slice(), self.limits) {
            Ok(head) => head,
            Err(Fault::Short) => return Taken::Partial,
            Err(fault) => return Taken::Refused(fault),
        };
        let keys = head.key_len as usize;
        let values = head.value_len as usize;
        if self.end - self.start - HEAD_LEN < keys + values {
            return Taken::Partial;
        }
        self.key = self.start + HEAD_LEN;
        self.value = self.key + keys;
        self.start = self.value + values;
        Taken::Request(head)
    }

    // Whether what is held is less than a frame.
    #[tactic(auto, unfolding(crate::specs::Request::request_at))]
    pub(crate) fn is_partial(&self) -> bool
        ensures { IsTrue result ↔ (request_at self.now.limits (held self.now) ≡ Err Short) }
    {
        match Head::decode(self.as_slice(), self.limits) {
            Ok(head) => {
                let body = head.key_len as usize + head.value_len as usize;
                self.end - self.start - HEAD_LEN < body
            }
            Err(fault) => fault == Fault::Short,
        }
    }

    // Moves what is held to the front. If the buffer is full, makes it longer: up to twice as long, but never longer than a
    // frame within the limits. The last key and value are gone.
    pub(crate) fn make_room(&mut self) -> Result<(), AllocError>
        requires { request_at self.old.limits (held self.old) ≡ Err Short }
        ensures held { held self.new ≡ held self.old }
        ensures limits { self.new.limits ≡ self.old.limits }
        ensures room { OnOk result (self.new.end < vec_len self.new.bytes) }
    {
        self.move_to_front();
        let len = self.bytes.len();
        if self.end == len {
            let most = HEAD_LEN + self.limits.key as usize + self.limits.value as usize;
            lengthen(&mut self.bytes, most.min(len.saturating_add(len)))?;
        }
        Ok(())
    }

    fn move_to_front(&mut self)
        ensures held { held self.new ≡ held self.old }
        ensures front { self.new.start ≡ 0 }
        ensures limits { self.new.limits ≡ self.old.limits }
        ensures len { vec_len self.new.bytes ≡ vec_len self.old.bytes }
    {
        let start = self.start;
        let end = self.end;
        if start > 0 {
            self.bytes.as_mut_slice().copy_within(start..end, 0);
        }
        self.key = 0;
        self.value = 0;
        self.start = 0;
        self.end = end - start;
    }

    // Does one read into the room after what is held, and does it again if it was interrupted.
    pub(crate) fn read_from<R: FrameReader>(&mut self, input: &mut R) -> io::Result<usize>
        ensures ok { IfOk result (λ n. (more : List ℕ) × (length more ≡ n) × (held self.new ≡ held self.old ++ more)
            × Consumes (R.remaining input.old) (R.remaining input.new) more) }
        ensures end { IfOk result (λ n. n ≡ 0 → self.old.end < vec_len self.old.bytes → IsAtEnd (R.remaining input.new)) }
        ensures err { OnErr result ((held self.new ≡ held self.old) × Keeps (R.remaining input.old) (R.remaining input.new)) }
        ensures own { IfErr result R.may_fail }
        ensures limits { self.new.limits ≡ self.old.limits }
    {
        let end = self.end;
        let count = read_some(input, &mut self.bytes.as_mut_slice()[end..])?;
        self.end = end + count;
        Ok(count)
    }
}
