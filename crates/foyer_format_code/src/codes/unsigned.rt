//! The codes of unsigned numbers: the bytes of the type, the lowest first.
ghost use Rattle.std.specs.Prelude.{◌≡◌, ◌<◌, ◌^◌, ℕ, Some, nat_lt};
ghost use Rattle.std.specs.Int.{w8, w16, w32, w64, w128};
ghost use Rattle.foyer_format_code.specs.Codes.{number_bytes, is_number, number_read};
ghost use Rattle.foyer_format_code.specs.CodeLaws.{one_number, number_encoded, number_coded};

use super::exactly;
use crate::coding::Code;
use crate::sinks::Sink;
use foyer_device_page::error::Result;
use std::alloc::{Allocator, Global};

#[tactic(auto, using(crate::specs::CodeLaws::numbers))]
impl<A: Allocator> Code<A> for u8 {
    ghost encoding = { number_bytes w8 };

    ghost is_encodable = { λ n. nat_lt n (2 ^ 8) };

    ghost is_decodable = { is_number w8 };

    ghost same = { λ n m. n ≡ m };

    ghost takes_memory = { λ _. ⊥ };

    fn encode_into<W: Sink>(&self, writer: &mut W) -> Result<()> {
        writer.put(&u8::to_le_bytes(*self))
    }

    fn decode(_alloc: A, bytes: &[u8]) -> Result<u8> {
        Ok(u8::from_le_bytes(exactly(bytes)?))
    }

    fn estimated_size(&self) -> usize {
        1
    }

    ghost is_encoded = { number_encoded w8 };

    ghost one_value = { one_number w8 };

    ghost coded = { number_coded w8 };
}

/// Each `u8` reads back from its encoding.
#[tactic(auto, using(crate::proofs::CodeLemmas::number_read_back_8))]
pub fn u8_read_back()
    ensures { (n : ℕ) → n < 2 ^ 8
        → number_read w8 (⟦<u8 as Code<Global>>⟧.encoding n) ≡ Some n }
{}

#[tactic(auto, using(crate::specs::CodeLaws::numbers))]
impl<A: Allocator> Code<A> for u16 {
    ghost encoding = { number_bytes w16 };

    ghost is_encodable = { λ n. nat_lt n (2 ^ 16) };

    ghost is_decodable = { is_number w16 };

    ghost same = { λ n m. n ≡ m };

    ghost takes_memory = { λ _. ⊥ };

    fn encode_into<W: Sink>(&self, writer: &mut W) -> Result<()> {
        writer.put(&u16::to_le_bytes(*self))
    }

    fn decode(_alloc: A, bytes: &[u8]) -> Result<u16> {
        Ok(u16::from_le_bytes(exactly(bytes)?))
    }

    fn estimated_size(&self) -> usize {
        2
    }

    ghost is_encoded = { number_encoded w16 };

    ghost one_value = { one_number w16 };

    ghost coded = { number_coded w16 };
}

/// Each `u16` reads back from its encoding.
#[tactic(auto, using(crate::proofs::CodeLemmas::number_read_back_16))]
pub fn u16_read_back()
    ensures { (n : ℕ) → n < 2 ^ 16
        → number_read w16 (⟦<u16 as Code<Global>>⟧.encoding n) ≡ Some n }
{}

#[tactic(auto, using(crate::specs::CodeLaws::numbers))]
impl<A: Allocator> Code<A> for u32 {
    ghost encoding = { number_bytes w32 };

    ghost is_encodable = { λ n. nat_lt n (2 ^ 32) };

    ghost is_decodable = { is_number w32 };

    ghost same = { λ n m. n ≡ m };

    ghost takes_memory = { λ _. ⊥ };

    fn encode_into<W: Sink>(&self, writer: &mut W) -> Result<()> {
        writer.put(&u32::to_le_bytes(*self))
    }

    fn decode(_alloc: A, bytes: &[u8]) -> Result<u32> {
        Ok(u32::from_le_bytes(exactly(bytes)?))
    }

    fn estimated_size(&self) -> usize {
        4
    }

    ghost is_encoded = { number_encoded w32 };

    ghost one_value = { one_number w32 };

    ghost coded = { number_coded w32 };
}

/// Each `u32` reads back from its encoding.
#[tactic(auto, using(crate::proofs::CodeLemmas::number_read_back_32))]
pub fn u32_read_back()
    ensures { (n : ℕ) → n < 2 ^ 32
        → number_read w32 (⟦<u32 as Code<Global>>⟧.encoding n) ≡ Some n }
{}

#[tactic(auto, using(crate::specs::CodeLaws::numbers))]
impl<A: Allocator> Code<A> for u64 {
    ghost encoding = { number_bytes w64 };

    ghost is_encodable = { λ n. nat_lt n (2 ^ 64) };

    ghost is_decodable = { is_number w64 };

    ghost same = { λ n m. n ≡ m };

    ghost takes_memory = { λ _. ⊥ };

    fn encode_into<W: Sink>(&self, writer: &mut W) -> Result<()> {
        writer.put(&u64::to_le_bytes(*self))
    }

    fn decode(_alloc: A, bytes: &[u8]) -> Result<u64> {
        Ok(u64::from_le_bytes(exactly(bytes)?))
    }

    fn estimated_size(&self) -> usize {
        8
    }

    ghost is_encoded = { number_encoded w64 };

    ghost one_value = { one_number w64 };

    ghost coded = { number_coded w64 };
}

/// Each `u64` reads back from its encoding.
#[tactic(auto, using(crate::proofs::CodeLemmas::number_read_back_64))]
pub fn u64_read_back()
    ensures { (n : ℕ) → n < 2 ^ 64
        → number_read w64 (⟦<u64 as Code<Global>>⟧.encoding n) ≡ Some n }
{}

#[tactic(auto, using(crate::specs::CodeLaws::numbers))]
impl<A: Allocator> Code<A> for u128 {
    ghost encoding = { number_bytes w128 };

    ghost is_encodable = { λ n. nat_lt n (2 ^ 128) };

    ghost is_decodable = { is_number w128 };

    ghost same = { λ n m. n ≡ m };

    ghost takes_memory = { λ _. ⊥ };

    fn encode_into<W: Sink>(&self, writer: &mut W) -> Result<()> {
        writer.put(&u128::to_le_bytes(*self))
    }

    fn decode(_alloc: A, bytes: &[u8]) -> Result<u128> {
        Ok(u128::from_le_bytes(exactly(bytes)?))
    }

    fn estimated_size(&self) -> usize {
        16
    }

    ghost is_encoded = { number_encoded w128 };

    ghost one_value = { one_number w128 };

    ghost coded = { number_coded w128 };
}

/// Each `u128` reads back from its encoding.
#[tactic(auto, using(crate::proofs::CodeLemmas::number_read_back_128))]
pub fn u128_read_back()
    ensures { (n : ℕ) → n < 2 ^ 128
        → number_read w128 (⟦<u128 as Code<Global>>⟧.encoding n) ≡ Some n }
{}

#[tactic(auto, using(crate::specs::CodeLaws::numbers))]
impl<A: Allocator> Code<A> for usize {
    ghost encoding = { number_bytes w64 };

    ghost is_encodable = { λ n. nat_lt n (2 ^ 64) };

    ghost is_decodable = { is_number w64 };

    ghost same = { λ n m. n ≡ m };

    ghost takes_memory = { λ _. ⊥ };

    fn encode_into<W: Sink>(&self, writer: &mut W) -> Result<()> {
        writer.put(&usize::to_le_bytes(*self))
    }

    fn decode(_alloc: A, bytes: &[u8]) -> Result<usize> {
        Ok(usize::from_le_bytes(exactly(bytes)?))
    }

    fn estimated_size(&self) -> usize {
        8
    }

    ghost is_encoded = { number_encoded w64 };

    ghost one_value = { one_number w64 };

    ghost coded = { number_coded w64 };
}

/// Each `usize` reads back from its encoding.
#[tactic(auto, using(crate::proofs::CodeLemmas::number_read_back_64))]
pub fn usize_read_back()
    ensures { (n : ℕ) → n < 2 ^ 64
        → number_read w64 (⟦<usize as Code<Global>>⟧.encoding n) ≡ Some n }
{}
