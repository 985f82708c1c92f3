//! The codes of bytes and of texts: the length as a number of 64 bits, and then the bytes.
ghost use Rattle.std.specs.Prelude.{◌≡◌, ◌^◌, nat_lt, drop, length, true, false, Some, MatchOption, string_bytes};
ghost use Rattle.foyer_format_code.specs.Codes.{counted, is_counted, is_sized_text, is_counted_text, bytes_read, text_read};
ghost use Rattle.foyer_format_code.specs.CodeLaws.{one_list, bytes_encoded, bytes_coded, text_encoded, text_coded};

use crate::coding::Code;
use crate::sinks::Sink;
use foyer_device_page::error::{Error, Result};
use std::alloc::{Allocator, Global};

// The bytes after a length of eight bytes, if there are as many as the length says.
fn counted_bytes(bytes: &[u8]) -> Option<&[u8]>
    ensures { MatchOption result (is_counted bytes.now ≡ false)
        (λ b. (is_counted bytes.now ≡ true) × (b.now ≡ drop 8 bytes.now)
        × (counted b.now ≡ bytes.now)) }
{
    if bytes.len() < 8 {
        return None;
    }
    let count = u64::from_le_bytes([
        bytes[0], bytes[1], bytes[2], bytes[3], bytes[4], bytes[5], bytes[6], bytes[7],
    ]);
    let rest = &bytes[8..];
    if count == rest.len() as u64 {
        Some(rest)
    } else {
        None
    }
}

impl<A: Allocator> Code<A> for Vec<u8, A> {
    ghost encoding = { λ v. counted v.items };

    ghost is_encodable = { λ v. nat_lt (length v.items) (2 ^ 64) };

    ghost is_decodable = { is_counted };

    ghost same = { λ v w. v.items ≡ w.items };

    ghost takes_memory = { λ b. is_counted b ≡ true };

    #[tactic(auto, using(crate::proofs::WritingLemmas::two_writes, crate::specs::CodeLaws::sized_number))]
    fn encode_into<W: Sink>(&self, writer: &mut W) -> Result<()> {
        let len = self.len() as u64;
        writer.put(&len.to_le_bytes())?;
        writer.put(self.as_slice())
    }

    fn decode(alloc: A, bytes: &[u8]) -> Result<Vec<u8, A>> {
        match counted_bytes(bytes) {
            None => Err(Error::Parse),
            Some(rest) => Ok(Vec::from_slice(alloc, rest)?),
        }
    }

    fn estimated_size(&self) -> usize {
        8usize.saturating_add(self.len())
    }

    ghost is_encoded = { λ v. bytes_encoded v.items };

    ghost one_value = { λ v w _ _ same. one_list v.items w.items same };

    ghost coded = { λ v. bytes_coded v.items };
}

impl<A: Allocator> Code<A> for String<A> {
    ghost encoding = { λ s. counted (string_bytes s) };

    ghost is_encodable = { λ s. is_sized_text (string_bytes s) };

    ghost is_decodable = { is_counted_text };

    ghost same = { λ s t. string_bytes s ≡ string_bytes t };

    ghost takes_memory = { λ b. is_counted_text b ≡ true };

    #[tactic(auto, using(crate::proofs::WritingLemmas::two_writes, crate::proofs::CodeLemmas::text_lemmas))]
    fn encode_into<W: Sink>(&self, writer: &mut W) -> Result<()> {
        let bytes = self.as_str().as_bytes();
        let count = bytes.len() as u64;
        writer.put(&count.to_le_bytes())?;
        writer.put(bytes)
    }

    #[tactic(auto, using(crate::proofs::CodeLemmas::text_lemmas))]
    fn decode(alloc: A, bytes: &[u8]) -> Result<String<A>> {
        match counted_bytes(bytes) {
            None => Err(Error::Parse),
            Some(rest) => match str::from_utf8(rest) {
                Err(_) => Err(Error::Parse),
                Ok(text) => Ok(String::from_str(alloc, text)?),
            },
        }
    }

    fn estimated_size(&self) -> usize {
        self.len().saturating_add(8)
    }

    ghost is_encoded = { λ s. text_encoded (string_bytes s) };

    ghost one_value = { λ s t a b same. one_list (string_bytes s) (string_bytes t) same };

    ghost coded = { λ s. text_coded (string_bytes s) };
}

/// Bytes read back from their encoding.
#[tactic(auto, using(crate::proofs::CodeLemmas::bytes_read_back))]
pub fn bytes_read_back()
    ensures { (v : _) → ⟦<Vec<u8> as Code<Global>>⟧.is_encodable v ≡ true
        → bytes_read (⟦<Vec<u8> as Code<Global>>⟧.encoding v) ≡ Some v.items }
{}

/// Each text reads back from its encoding.
#[tactic(auto, using(crate::proofs::CodeLemmas::text_read_back))]
pub fn string_read_back()
    ensures { (s : _) → ⟦<String as Code<Global>>⟧.is_encodable s ≡ true
        → text_read (⟦<String as Code<Global>>⟧.encoding s) ≡ Some (string_bytes s) }
{}
