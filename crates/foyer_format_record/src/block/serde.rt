//! The header of a record, and reading a record back.
ghost use Rattle.std.specs.Prelude.{◌≡◌, ◌⊎◌, ◌+◌, ◌<◌, ◌^◌, ◌↔◌, ℕ, List, Bool, true, length, take, drop, Ok, Err, None, IfOk, IfSome, IfNone, IfErr};
ghost use Rattle.foyer_format_record.specs.Header.{header_bytes, header_of, FitsFields};
ghost use Rattle.foyer_format_record.specs.Record.{body_outcome, pair_of, record_bytes};
ghost use Rattle.foyer_format_record.specs.Record.{Outcome as outcome};
ghost use Rattle.foyer_format_record.specs.Refusals.{IsRecordFault};
ghost use Rattle.foyer_format_record.specs.declared.block.serde.EntryHeader.{EntryHeader};
ghost use Rattle.foyer_format_code.specs.Error.{Error as error};

use crate::compress::Compression;
use crate::serde::{Code, EntryDeserializer};
use byteorder::{BigEndian, ByteOrder};
use foyer_format_code::device_page::error::{Error, Result};
use std::alloc::Allocator;

/// The place of a write in the order of all writes.
pub type Sequence = u64;

/// A sequence that threads share.
pub use std::sync::atomic::AtomicU64 as AtomicSequence;

/// What the last word of a header begins with; its lowest byte names the compression.
const ENTRY_MAGIC: u32 = 0x9703_2700;

/// The bytes that a header takes.
const HEADER_LEN: usize = 36;

/// The header of a record: the lengths in bytes of its encoded key and value, and the checksum of
/// both.
#[derive(Debug, PartialEq, Eq, Drop)]
pub struct EntryHeader {
    /// The length of the encoded key in bytes.
    pub key_len: u32,
    /// The length of the encoded value in bytes.
    pub value_len: u32,
    /// The hash of the key.
    pub hash: u64,
    /// The sequence of the put.
    pub sequence: Sequence,
    /// The checksum of the encoded value and key.
    pub checksum: u64,
    /// How the value is compressed.
    pub compression: Compression,
}

impl EntryHeader {
    /// How many bytes a header takes.
    pub fn serialized_len() -> usize
        ensures { result ≡ 36 }
    {
        HEADER_LEN
    }

    /// Writes the header over the buffer's 36 bytes, each number with its highest byte first.
    #[tactic(auto, unfolding(crate::specs::Header::header_bytes))]
    pub fn write(&self, buf: &mut [u8])
        requires { length buf.old ≡ 36 }
        ensures { buf.new ≡ header_bytes self.now }
    {
        BigEndian::write_u32(buf, self.key_len);
        BigEndian::write_u32(&mut buf[4..], self.value_len);
        BigEndian::write_u64(&mut buf[8..], self.hash);
        BigEndian::write_u64(&mut buf[16..], self.sequence);
        BigEndian::write_u64(&mut buf[24..], self.checksum);
        let word = ENTRY_MAGIC + u32::from(self.compression.to_u8());
        BigEndian::write_u32(&mut buf[32..], word);
    }

    /// Gives the header that 36 bytes encode. Errors: MagicMismatch if the bytes have another
    /// magic, else Parse if the last byte names no compression. Nothing else is refused.
    #[tactic(auto, using(crate::proofs::HeaderLemmas::header_again_of))]
    pub fn read(buf: &[u8]) -> Result<EntryHeader>
        requires { length buf.now ≡ 36 }
        ensures exact { result ≡ header_of buf.now }
        ensures again { (h : EntryHeader) → FitsFields h → buf.now ≡ header_bytes h
            → result ≡ Ok h }
    {
        Self::read_exactly(buf)
    }

    #[tactic(auto, unfolding(crate::specs::Header::header_of, crate::specs::Header::number_at))]
    fn read_exactly(buf: &[u8]) -> Result<EntryHeader>
        requires { length buf.now ≡ 36 }
        ensures { result ≡ header_of buf.now }
    {
        let word = BigEndian::read_u32(&buf[32..]);
        if word / 256 != ENTRY_MAGIC / 256 {
            return Err(Error::MagicMismatch);
        }
        match Compression::try_from((word % 256) as u8) {
            Err(e) => Err(e),
            Ok(compression) => Ok(EntryHeader {
                key_len: BigEndian::read_u32(buf),
                value_len: BigEndian::read_u32(&buf[4..]),
                hash: BigEndian::read_u64(&buf[8..]),
                sequence: BigEndian::read_u64(&buf[16..]),
                checksum: BigEndian::read_u64(&buf[24..]),
                compression,
            }),
        }
    }
}

/// Gives the key and the value if the bytes are a record of this hash and this sequence, without
/// padding. Gives `None` if they aren't exactly such a record, also if the checksum is wrong.
/// Errors: Unsupported if the record is compressed, Parse if its value or its key isn't encoded
/// right, Memory if an allocation, or a clone of the allocator, was refused. Nothing else is
/// refused.
#[tactic(auto, using(crate::proofs::RefusalLemmas::record_answers))]
pub fn read_record<A: Allocator + Clone, K: Code<A> + Drop, V: Code<A> + Drop>(
    alloc: &A,
    bytes: &[u8],
    hash: u64,
    sequence: Sequence,
) -> Result<Option<(K, V)>>
    ensures pair { IfOk result (λ r. IfSome r (λ p.
        pair_of K.is_decodable V.is_decodable bytes.now hash sequence
        ≡ outcome.Pair (K.encoding p.0) (V.encoding p.1))) }
    ensures is_encodable { IfOk result (λ r. IfSome r (λ p. (K.is_encodable p.0 ≡ true) × (V.is_encodable p.1 ≡ true))) }
    ensures absent { (result ≡ Ok None)
        ↔ (pair_of K.is_decodable V.is_decodable bytes.now hash sequence ≡ outcome.NoRecord) }
    ensures unsupported { (result ≡ Err error.Unsupported)
        ↔ (pair_of K.is_decodable V.is_decodable bytes.now hash sequence ≡ outcome.Unsupported) }
    ensures fault { IfErr result
        (IsRecordFault (pair_of K.is_decodable V.is_decodable bytes.now hash sequence)) }
    ensures memory { IfErr result (λ e. e ≡ error.Memory → (value_len key_len : ℕ)
        × (V.takes_memory (take value_len (drop 36 bytes.now))
        ⊎ K.takes_memory (take key_len (drop value_len (drop 36 bytes.now)))
        ⊎ (A.is_infallible alloc.now → ⊥))) }
{
    find_record(alloc, bytes, hash, sequence)
}

// As `read_record`, with clauses that only lead from the answer to the outcome.
#[tactic(auto, using(crate::proofs::RecordLemmas::outcomes))]
fn find_record<A: Allocator + Clone, K: Code<A> + Drop, V: Code<A> + Drop>(
    alloc: &A,
    bytes: &[u8],
    hash: u64,
    sequence: Sequence,
) -> Result<Option<(K, V)>>
    ensures pair { IfOk result (λ r. IfSome r (λ p.
        pair_of K.is_decodable V.is_decodable bytes.now hash sequence
        ≡ outcome.Pair (K.encoding p.0) (V.encoding p.1))) }
    ensures is_encodable { IfOk result (λ r. IfSome r (λ p. (K.is_encodable p.0 ≡ true) × (V.is_encodable p.1 ≡ true))) }
    ensures absent { IfOk result (λ r. IfNone r
        (pair_of K.is_decodable V.is_decodable bytes.now hash sequence ≡ outcome.NoRecord)) }
    ensures fault { IfErr result
        (IsRecordFault (pair_of K.is_decodable V.is_decodable bytes.now hash sequence)) }
    ensures memory { IfErr result (λ e. e ≡ error.Memory → (value_len key_len : ℕ)
        × (V.takes_memory (take value_len (drop 36 bytes.now))
        ⊎ K.takes_memory (take key_len (drop value_len (drop 36 bytes.now)))
        ⊎ (A.is_infallible alloc.now → ⊥))) }
{
    let Some(header) = record_header(bytes, hash, sequence) else {
        return Ok(None);
    };
    read_body(alloc, &header, &bytes[HEADER_LEN..])
}

// The pair of the bytes after this header.
#[tactic(auto, using(crate::proofs::RecordLemmas::bodies))]
fn read_body<A: Allocator + Clone, K: Code<A> + Drop, V: Code<A> + Drop>(
    alloc: &A,
    header: &EntryHeader,
    body: &[u8],
) -> Result<Option<(K, V)>>
    ensures pair { IfOk result (λ r. IfSome r (λ p.
        body_outcome K.is_decodable V.is_decodable header.now body.now
        ≡ outcome.Pair (K.encoding p.0) (V.encoding p.1))) }
    ensures is_encodable { IfOk result (λ r. IfSome r (λ p. (K.is_encodable p.0 ≡ true) × (V.is_encodable p.1 ≡ true))) }
    ensures absent { IfOk result (λ r. IfNone r
        (body_outcome K.is_decodable V.is_decodable header.now body.now ≡ outcome.NoRecord)) }
    ensures fault { IfErr result
        (IsRecordFault (body_outcome K.is_decodable V.is_decodable header.now body.now)) }
    ensures memory { IfErr result (λ e. e ≡ error.Memory
        → V.takes_memory (take header.now.value_len body.now)
        ⊎ K.takes_memory (take header.now.key_len (drop header.now.value_len body.now))
        ⊎ (A.is_infallible alloc.now → ⊥)) }
{
    let key_len = header.key_len as usize;
    let value_len = header.value_len as usize;
    let given = Some(header.checksum);
    match EntryDeserializer::deserialize(
        alloc,
        body,
        key_len,
        value_len,
        header.compression,
        given,
    ) {
        Ok(pair) => Ok(Some(pair)),
        Err(e) => {
            if e == Error::OutOfRange || e == Error::ChecksumMismatch {
                return Ok(None);
            }
            Err(e)
        }
    }
}

// The header of a record of this hash, this sequence and exactly these bytes' length.
#[tactic(auto, using(crate::proofs::RecordLemmas::outcomes))]
fn record_header(bytes: &[u8], hash: u64, sequence: Sequence) -> Option<EntryHeader>
    ensures header { IfSome result (λ head. header_of (take 36 bytes.now) ≡ Ok head) }
    ensures hash { IfSome result (λ head. head.hash ≡ hash) }
    ensures sequence { IfSome result (λ head. head.sequence ≡ sequence) }
    ensures len { IfSome result (λ head. length bytes.now ≡ 36 + head.key_len + head.value_len) }
    ensures none { (is_key is_value : List ℕ → Bool)
        → IfNone result (pair_of is_key is_value bytes.now hash sequence ≡ outcome.NoRecord) }
{
    if bytes.len() < HEADER_LEN {
        return None;
    }
    match EntryHeader::read(&bytes[..HEADER_LEN]) {
        Err(_) => None,
        Ok(header) => {
            let body_len = header.key_len as usize + header.value_len as usize;
            if header.hash == hash
                && header.sequence == sequence
                && bytes.len() - HEADER_LEN == body_len
            {
                Some(header)
            } else {
                None
            }
        }
    }
}
