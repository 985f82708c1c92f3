//! The bytes of an entry: the value's, and then the key's.
ghost use Rattle.std.specs.Prelude.{◌≡◌, ◌≤◌, ◌+◌, ◌-◌, ◌^◌, ◌++◌, ◌⊎◌, min, length, take, drop, None, Some, OnOk, OnErr, IfOk, IfErr, true};
ghost use Rattle.std.specs.Io.KnownBytes.{Appends};
ghost use Rattle.foyer_format_code.specs.Error.TheVariants.{Memory};
ghost use Rattle.foyer_format_record.specs.declared.compress.Compression.TheVariants as compression_of;
ghost use Rattle.foyer_format_record.specs.Record.{entry_fault, outer_fault};
ghost use Rattle.foyer_format_record.specs.Refusals.{IsSerializeFault, IsEntryFault};
ghost use Rattle.foyer_format_record.specs.Written.{IsWritten};
ghost use Rattle.foyer_format_code.specs.Writing.{Takes, Extends};

use crate::compress::Compression;
use foyer_format_checksum::Checksummer;
use foyer_format_code::device_page::error::{Error, Result};
use foyer_format_code::{Code, Sink};
use std::alloc::Allocator;

/// How many bytes a key and a value took.
#[derive(Debug, Drop)]
pub struct KvInfo {
    /// The length of the encoded key in bytes.
    pub key_len: usize,
    /// The length of the encoded value in bytes.
    pub value_len: usize,
}

/// Writes entries.
pub struct EntrySerializer;

impl EntrySerializer {
    /// Writes the value and then the key. Errors: Unsupported for another compression than `None`; else
    /// BufferSizeLimit if room is missing, Io if the writer failed, or a code's own error. After an `Err` some
    /// of the bytes may have been written. A `TrackedWriter` makes a `Sink` of any other `Write`.
    #[tactic(auto, using(foyer_format_code::proofs::WritingLemmas::two_writes))]
    pub fn serialize<A: Allocator, K: Code<A>, V: Code<A>, W: Sink>(
        key: &K,
        value: &V,
        compression: Compression,
        writer: &mut W,
    ) -> Result<KvInfo>
        ensures bytes { OnOk result (Appends (W.contents writer.old) (W.contents writer.new)
            (V.encoding value.now ++ K.encoding key.now)) }
        ensures lens { IfOk result (λ info. IsWritten (W.taken writer.old)
            (V.encoding value.now) (K.encoding key.now) info) }
        ensures plain { OnOk result (compression ≡ compression_of.None) }
        ensures encoded { OnOk result ((V.is_encodable value.now ≡ true) × (K.is_encodable key.now ≡ true)) }
        ensures room { OnOk result (Takes (W.room writer.old) (W.room writer.new)
            (length (V.encoding value.now) + length (K.encoding key.now))) }
        ensures borrow { W.borrow writer.new ≡ W.borrow writer.old }
        ensures kept { OnErr result (Extends (W.room writer.old) (W.room writer.new)
            (W.contents writer.old) (W.contents writer.new)) }
        ensures refused { IfErr result (IsSerializeFault compression
            ((V.is_encodable value.now ≡ true) × (K.is_encodable key.now ≡ true)) (W.room writer.old)
            (length (V.encoding value.now) + length (K.encoding key.now))) }
    {
        if compression != Compression::None {
            return Err(Error::Unsupported);
        }
        let start = writer.taken();
        value.encode_into(writer)?;
        let middle = writer.taken();
        key.encode_into(writer)?;
        let end = writer.taken();
        Ok(KvInfo {
            key_len: end.saturating_sub(middle),
            value_len: middle.saturating_sub(start),
        })
    }

    /// How many bytes both codes take together, at most `usize::MAX`.
    pub fn estimated_size<A: Allocator, K: Code<A>, V: Code<A>>(key: &K, value: &V) -> usize
        ensures { K.is_encodable key.now ≡ true → V.is_encodable value.now ≡ true → result
            ≡ min (length (V.encoding value.now) + length (K.encoding key.now)) (2 ^ 64 - 1) }
    {
        key.estimated_size().saturating_add(value.estimated_size())
    }
}

// Refuses the bytes of an entry by the first fault that shows before its codes are asked.
#[tactic(auto, unfolding(crate::specs::Record::outer_fault))]
fn check_entry(
    bytes: &[u8],
    key_len: usize,
    value_len: usize,
    compression: Compression,
    checksum: Option<u64>,
) -> Result<()>
    ensures within { OnOk result (value_len + key_len ≤ length bytes.now) }
    ensures sound { OnOk result (outer_fault bytes.now key_len value_len compression checksum ≡ None) }
    ensures fault { IfErr result (λ e. outer_fault bytes.now key_len value_len compression checksum ≡ Some e) }
    ensures kind { IfErr result (λ e. e ≡ Memory → ⊥) }
{
    if bytes.len() < value_len || bytes.len() - value_len < key_len {
        return Err(Error::OutOfRange);
    }
    if let Some(expected) = checksum {
        if Checksummer::checksum64(&bytes[..value_len + key_len]) != expected {
            return Err(Error::ChecksumMismatch);
        }
    }
    let Compression::None = compression else {
        return Err(Error::Unsupported);
    };
    Ok(())
}

/// Reads entries.
pub struct EntryDeserializer;

impl EntryDeserializer {
    /// Gives the key and the value of bytes that begin with the value and then the key. The first of these
    /// faults is answered: OutOfRange if there are fewer bytes than both lengths together, ChecksumMismatch if a
    /// checksum was given and isn't that of the value and the key, Unsupported for another compression than
    /// `None`, Parse if a code refuses its bytes. Memory is answered if an allocation, or a clone of the
    /// allocator, was refused.
    #[tactic(auto, using(crate::proofs::RefusalLemmas::decode_fault, crate::proofs::OuterFault::outer_faults))]
    pub fn deserialize<A: Allocator + Clone, K: Code<A> + Drop, V: Code<A> + Drop>(
        alloc: &A,
        bytes: &[u8],
        key_len: usize,
        value_len: usize,
        compression: Compression,
        checksum: Option<u64>,
    ) -> Result<(K, V)>
        ensures value { IfOk result (λ p. V.encoding p.1 ≡ take value_len bytes.now) }
        ensures key { IfOk result (λ p. K.encoding p.0 ≡ take key_len (drop value_len bytes.now)) }
        ensures is_encodable { IfOk result (λ p. (V.is_encodable p.1 ≡ true) × (K.is_encodable p.0 ≡ true)) }
        ensures sound { OnOk result (entry_fault K.is_decodable V.is_decodable
            bytes.now key_len value_len compression checksum ≡ None) }
        ensures fault { IfErr result (IsEntryFault (entry_fault K.is_decodable V.is_decodable
            bytes.now key_len value_len compression checksum)) }
        ensures memory { IfErr result (λ e. e ≡ Memory
            → V.takes_memory (take value_len bytes.now)
            ⊎ K.takes_memory (take key_len (drop value_len bytes.now))
            ⊎ (A.is_infallible alloc.now → ⊥)) }
    {
        check_entry(bytes, key_len, value_len, compression, checksum)?;
        let value = V::decode(alloc.clone()?, &bytes[..value_len])?;
        let key = K::decode(alloc.clone()?, &bytes[value_len..value_len + key_len])?;
        Ok((key, value))
    }
}
