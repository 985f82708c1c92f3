//! The frame of a reply.
ghost use Rattle.std.specs.Prelude.{◌≡◌, ◌<◌, ◌≤◌, ◌^◌, ◌∷◌, ◌++◌, ◌⊎◌, ℕ, List, length, IfErr, IfOk, OnOk, Ok};
ghost use Rattle.std.specs.Io.KnownBytes.{Appends, Keeps};
ghost use Rattle.std.specs.IoError.{error_kind};
ghost use Rattle.std.specs.declared.io.ErrorKind.TheVariants.{InvalidInput};
ghost use Rattle.foyer_frames.specs.Numbers.{Reads, number_bytes};
ghost use Rattle.foyer_frames.specs.Reply.{Answer, Fits, IsReadAs, answer, reply_at, reply_bytes};

use crate::number::number;
use crate::request::Fault;
use crate::write::FrameWriter;
use std::io;

/// The length of a reply's head in bytes: its number, its code, the length of its bytes.
pub const REPLY_LEN: usize = 9;

/// A reply. Its bytes are borrowed from those of its frame.
#[derive(Clone, Copy, Debug, PartialEq, Eq)]
pub struct Reply<'a> {
    /// The number of the request that is answered.
    pub number: u32,
    /// The outcome of the request, as one of the program's codes. The frame says nothing about these codes.
    pub code: u8,
    /// The bytes that belong to the code: a value, or the counters.
    pub bytes: &'a [u8],
}

// A reply's head.
fn reply_head(number: u32, code: u8, len: u32) -> [u8; REPLY_LEN]
    ensures { result ≡ number_bytes number ++ code ∷ number_bytes len }
{
    let number = number.to_le_bytes();
    let len = len.to_le_bytes();
    [
        number[0], number[1], number[2], number[3], code, len[0], len[1], len[2], len[3],
    ]
}

// The reply at the front of the bytes, and the bytes after its frame.
#[tactic(auto, unfolding(crate::specs::Reply::reply_at))]
fn read_reply<'a>(bytes: &'a [u8], limit: u32) -> Result<(Reply<'a>, &'a [u8]), Fault>
    ensures { Reads (λ x. (answer x.0, x.1.now)) result (reply_at limit bytes.now) }
{
    if bytes.len() < REPLY_LEN {
        return Err(Fault::Short);
    }
    let len = number(bytes, 5);
    if len > limit {
        return Err(Fault::ValueTooLong);
    }
    let (_, body) = bytes.split_at(REPLY_LEN);
    if body.len() < len as usize {
        return Err(Fault::Short);
    }
    let (text, rest) = body.split_at(len as usize);
    let reply = Reply {
        number: number(bytes, 0),
        code: bytes[4],
        bytes: text,
    };
    Ok((reply, rest))
}

impl<'a> Reply<'a> {
    /// Reads the reply at the front of the bytes. Gives it and the bytes after its frame. Errors: `ValueTooLong` if the reply says that
    /// it has more than `limit` bytes, `Short` if the frame isn't whole.
    pub fn decode(bytes: &'a [u8], limit: u32) -> Result<(Reply<'a>, &'a [u8]), Fault>
        // If a reply is read, the bytes are its frame, within the limit, and then the rest.
        ensures found { IfOk result (λ x. Fits limit (answer x.0) × (bytes.now ≡ reply_bytes (answer x.0) ++ x.1.now)) }
        // Bytes that begin with the frame of a reply within the limit are read as that reply and the rest.
        ensures only { (r : Answer) (rest : List ℕ) → Fits limit r → bytes.now ≡ reply_bytes r ++ rest
            → IsReadAs result r rest }
        // The fault is the one that the definition `reply_at` gives.
        ensures exact { Reads (λ x. (answer x.0, x.1.now)) result (reply_at limit bytes.now) }
    {
        read_reply(bytes, limit)
    }

    /// Writes the reply's frame. Errors: `InvalidInput` if it has more than `u32::MAX` bytes, and only then. Then nothing is written. If the
    /// writer fails, the error is the writer's, and it may have taken a part of the frame.
    pub fn write_to<W: FrameWriter>(&self, output: &mut W) -> io::Result<()>
        ensures written { OnOk result
            (Appends (W.contents output.old) (W.contents output.new) (reply_bytes (answer self.now))) }
        // A reply that is written is within the limit of `u32::MAX` bytes, so it can be read again.
        ensures fits { OnOk result (length (self.now.bytes).now < 2 ^ 32) }
        ensures unsent { 2 ^ 32 ≤ length (self.now.bytes).now → Keeps (W.contents output.old) (W.contents output.new) }
        ensures refused { IfErr result (λ e. W.may_fail e ⊎ ((error_kind e ≡ InvalidInput) × (2 ^ 32 ≤ length (self.now.bytes).now))) }
    {
        if self.bytes.len() > u32::MAX as usize {
            return Err(io::Error::from(io::ErrorKind::InvalidInput));
        }
        output.write_part(&reply_head(self.number, self.code, self.bytes.len() as u32))?;
        output.write_part(self.bytes)
    }
}

/// Does nothing; its contract is a law of frames within a limit. A reply's frame is read as that reply, whatever follows. No reply's
/// frame is the beginning of another reply's frame.
pub fn one_reading()
    ensures again { (limit : ℕ) (r : Answer) (rest : List ℕ) → Fits limit r
        → reply_at limit (reply_bytes r ++ rest) ≡ Ok (r, rest) }
    ensures prefix { (limit : ℕ) (r s : Answer) (a b : List ℕ) → Fits limit r → Fits limit s
        → reply_bytes r ++ a ≡ reply_bytes s ++ b → (r ≡ s) × (a ≡ b) }
{}
