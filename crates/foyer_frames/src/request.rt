//! The frame of a request.
ghost use Rattle.std.specs.Prelude.{◌≡◌, ◌∷◌, ◌++◌, ◌⊎◌, ℕ, List, IfErr, IfOk, OnOk, Ok};
ghost use Rattle.std.specs.Io.KnownBytes.{Appends, Keeps};
ghost use Rattle.std.specs.IoError.{error_kind};
ghost use Rattle.std.specs.declared.io.ErrorKind.TheVariants.{InvalidInput};
ghost use Rattle.foyer_frames.specs.Kind.{kind_byte};
ghost use Rattle.foyer_frames.specs.Numbers.{Reads, number_bytes};
ghost use Rattle.foyer_frames.specs.Request.{Asked, Fits, IsReadAs, IsSendable, asked, head_at, key_fault, key_limit, request_at, request_bytes, value_fault, value_limit};
ghost use Rattle.foyer_frames.specs.declared.request.Limits.{Limits};

use crate::kind::Kind;
use crate::number::number;
use crate::write::FrameWriter;
use std::io;

/// The length of a request's head in bytes: its kind, its number, the lengths of its key and of its value.
pub const HEAD_LEN: usize = 13;

/// The most bytes that a key and a value may have.
#[derive(Clone, Copy, Debug, PartialEq, Eq)]
pub struct Limits {
    /// Of a key, in bytes.
    pub key: u32,
    /// Of a value, in bytes.
    pub value: u32,
}

impl Limits {
    /// The widest limits: the greatest lengths that the four bytes of a length can hold.
    pub const WIDEST: Limits = Limits {
        key: u32::MAX,
        value: u32::MAX,
    };

    /// Gives the most bytes of key that a request of this kind may have, which is 0 if the kind has no key.
    pub fn key_of(self, kind: Kind) -> u32
        ensures { result ≡ key_limit self kind }
    {
        if kind.has_key() { self.key } else { 0 }
    }

    /// Gives the most bytes of value that a request of this kind may have, which is 0 if the kind has no value.
    pub fn value_of(self, kind: Kind) -> u32
        ensures { result ≡ value_limit self kind }
    {
        if kind.has_value() { self.value } else { 0 }
    }
}

/// Why bytes are no frame. Fewer bytes than a head has are `Short`, whatever they are. Else this is the first fault from left to right.
#[derive(Clone, Copy, Debug, PartialEq, Eq)]
pub enum Fault {
    /// The bytes are fewer than a head has, or than the frame that the head begins. More bytes may follow.
    Short,
    /// The first byte is no kind's letter.
    UnknownKind,
    /// The key is longer than the limit.
    KeyTooLong,
    /// The value, or a reply's bytes, are longer than the limit.
    ValueTooLong,
    /// A key of a request whose kind has none.
    UnwantedKey,
    /// A value of a request whose kind has none.
    UnwantedValue,
}

// The fault of a key that is longer than its kind's limit.
fn key_fault_of(kind: Kind) -> Fault
    ensures { result ≡ key_fault kind }
{
    if kind.has_key() {
        Fault::KeyTooLong
    } else {
        Fault::UnwantedKey
    }
}

// The fault of a value that is longer than its kind's limit.
fn value_fault_of(kind: Kind) -> Fault
    ensures { result ≡ value_fault kind }
{
    if kind.has_value() {
        Fault::ValueTooLong
    } else {
        Fault::UnwantedValue
    }
}

/// The head of a request's frame.
#[derive(Clone, Copy, Debug, PartialEq, Eq)]
pub struct Head {
    /// What is asked for.
    pub kind: Kind,
    /// The caller's own number for the request. The reply carries this number, too.
    pub number: u32,
    /// The length of the key in bytes.
    pub key_len: u32,
    /// The length of the value in bytes.
    pub value_len: u32,
}

impl Head {
    /// Reads the head at the front of the bytes. The key and the value needn't be there yet. Errors: the head's `Fault`.
    pub fn decode(bytes: &[u8], limits: Limits) -> Result<Head, Fault>
        ensures { result ≡ head_at limits bytes.now }
    {
        if bytes.len() < HEAD_LEN {
            return Err(Fault::Short);
        }
        let Some(kind) = Kind::of_byte(bytes[0]) else {
            return Err(Fault::UnknownKind);
        };
        let head = Head {
            kind,
            number: number(bytes, 1),
            key_len: number(bytes, 5),
            value_len: number(bytes, 9),
        };
        if head.key_len > limits.key_of(kind) {
            return Err(key_fault_of(kind));
        }
        if head.value_len > limits.value_of(kind) {
            return Err(value_fault_of(kind));
        }
        Ok(head)
    }
}

/// A request. Its key and its value are borrowed from the bytes of its frame.
#[derive(Clone, Copy, Debug, PartialEq, Eq)]
pub struct Request<'a> {
    /// What is asked for.
    pub kind: Kind,
    /// The caller's own number for the request. The reply carries this number, too.
    pub number: u32,
    /// The key's bytes. They are empty if the kind has no key.
    pub key: &'a [u8],
    /// The value's bytes. They are empty if the kind has no value.
    pub value: &'a [u8],
}

// A request's head.
fn request_head(kind: Kind, number: u32, keys: u32, values: u32) -> [u8; HEAD_LEN]
    ensures { result ≡ kind_byte kind ∷ (number_bytes number ++ (number_bytes keys ++ number_bytes values)) }
{
    let number = number.to_le_bytes();
    let keys = keys.to_le_bytes();
    let values = values.to_le_bytes();
    [
        kind.byte(),
        number[0],
        number[1],
        number[2],
        number[3],
        keys[0],
        keys[1],
        keys[2],
        keys[3],
        values[0],
        values[1],
        values[2],
        values[3],
    ]
}

// The request at the front of the bytes, and the bytes after its frame.
#[tactic(auto, unfolding(crate::specs::Request::request_at))]
fn read_request<'a>(bytes: &'a [u8], limits: Limits) -> Result<(Request<'a>, &'a [u8]), Fault>
    ensures { Reads (λ x. (asked x.0, x.1.now)) result (request_at limits bytes.now) }
{
    let head = Head::decode(bytes, limits)?;
    let (_, body) = bytes.split_at(HEAD_LEN);
    if body.len() < head.key_len as usize + head.value_len as usize {
        return Err(Fault::Short);
    }
    let (key, rest) = body.split_at(head.key_len as usize);
    let (value, rest) = rest.split_at(head.value_len as usize);
    let request = Request {
        kind: head.kind,
        number: head.number,
        key,
        value,
    };
    Ok((request, rest))
}

impl<'a> Request<'a> {
    /// Reads the request at the front of the bytes. Gives it and the bytes after its frame. Errors: the first `Fault` of the bytes.
    pub fn decode(bytes: &'a [u8], limits: Limits) -> Result<(Request<'a>, &'a [u8]), Fault>
        // If a request is read, the bytes are its frame, within the limits, and then the rest.
        ensures found { IfOk result (λ x. Fits limits (asked x.0) × (bytes.now ≡ request_bytes (asked x.0) ++ x.1.now)) }
        // Bytes that begin with the frame of a request within the limits are read as that request and the rest.
        ensures only { (r : Asked) (rest : List ℕ) → Fits limits r → bytes.now ≡ request_bytes r ++ rest
            → IsReadAs result r rest }
        // The fault is the one that the definition `request_at` gives.
        ensures exact { Reads (λ x. (asked x.0, x.1.now)) result (request_at limits bytes.now) }
    {
        read_request(bytes, limits)
    }

    /// Writes the request's frame. Errors: `InvalidInput` if a key or a value has more than `u32::MAX` bytes, or has any bytes although
    /// the kind has none, and only then. Then nothing is written. If the writer fails, the error is the writer's, and it may have taken a
    /// part of the frame.
    pub fn write_to<W: FrameWriter>(&self, output: &mut W) -> io::Result<()>
        ensures written { OnOk result
            (Appends (W.contents output.old) (W.contents output.new) (request_bytes (asked self.now))) }
        // A request that is written is within the widest limits, so it can be read again.
        ensures fits { OnOk result (IsSendable (asked self.now)) }
        ensures unsent { ¬ IsSendable (asked self.now) → Keeps (W.contents output.old) (W.contents output.new) }
        ensures refused { IfErr result (λ e. W.may_fail e ⊎ ((error_kind e ≡ InvalidInput) × (¬ IsSendable (asked self.now)))) }
    {
        let widest = Limits::WIDEST;
        if self.key.len() > widest.key_of(self.kind) as usize
            || self.value.len() > widest.value_of(self.kind) as usize
        {
            return Err(io::Error::from(io::ErrorKind::InvalidInput));
        }
        let keys = self.key.len() as u32;
        let values = self.value.len() as u32;
        output.write_part(&request_head(self.kind, self.number, keys, values))?;
        output.write_part(self.key)?;
        output.write_part(self.value)
    }
}

/// Does nothing; its contract is a law of frames within limits. A request's frame is read as that request, whatever follows. No request's
/// frame is the beginning of another request's frame.
pub fn one_reading()
    ensures again { (limits : Limits) (r : Asked) (rest : List ℕ) → Fits limits r
        → request_at limits (request_bytes r ++ rest) ≡ Ok (r, rest) }
    ensures prefix { (limits : Limits) (r s : Asked) (a b : List ℕ) → Fits limits r → Fits limits s
        → request_bytes r ++ a ≡ request_bytes s ++ b → (r ≡ s) × (a ≡ b) }
{}
