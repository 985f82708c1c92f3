//! The codes of signed numbers: two's complement in the bytes of the type, the lowest first.
ghost use Rattle.std.specs.Prelude.{◌≡◌, ℤ, Some};
ghost use Rattle.std.specs.Int.{w8, w16, w32, w64, w128};
ghost use Rattle.std.specs.Int.RustNames.{FitsSigned};
ghost use Rattle.foyer_format_code.specs.Codes.{int_fits, int_bytes, is_number, int_read};
ghost use Rattle.foyer_format_code.specs.IntLaws.{one_int, int_encoded, int_coded};

use super::exactly;
use crate::coding::Code;
use crate::sinks::Sink;
use foyer_device_page::error::Result;
use std::alloc::{Allocator, Global};

#[tactic(auto, using(crate::specs::IntLaws::ints))]
impl<A: Allocator> Code<A> for i8 {
    ghost encoding = { int_bytes w8 };

    ghost is_encodable = { int_fits w8 };

    ghost is_decodable = { is_number w8 };

    ghost same = { λ n m. n ≡ m };

    ghost takes_memory = { λ _. ⊥ };

    fn encode_into<W: Sink>(&self, writer: &mut W) -> Result<()> {
        writer.put(&i8::to_le_bytes(*self))
    }

    fn decode(_alloc: A, bytes: &[u8]) -> Result<i8> {
        Ok(i8::from_le_bytes(exactly(bytes)?))
    }

    fn estimated_size(&self) -> usize {
        1
    }

    ghost is_encoded = { int_encoded w8 };

    ghost one_value = { one_int w8 };

    ghost coded = { int_coded w8 };
}

/// Each `i8` reads back from its encoding.
#[tactic(auto, using(crate::proofs::CodeLemmas::int_read_back_8))]
pub fn i8_read_back()
    ensures { (z : ℤ) → FitsSigned w8 z
        → int_read w8 (⟦<i8 as Code<Global>>⟧.encoding z) ≡ Some z }
{}

#[tactic(auto, using(crate::specs::IntLaws::ints))]
impl<A: Allocator> Code<A> for i16 {
    ghost encoding = { int_bytes w16 };

    ghost is_encodable = { int_fits w16 };

    ghost is_decodable = { is_number w16 };

    ghost same = { λ n m. n ≡ m };

    ghost takes_memory = { λ _. ⊥ };

    fn encode_into<W: Sink>(&self, writer: &mut W) -> Result<()> {
        writer.put(&i16::to_le_bytes(*self))
    }

    fn decode(_alloc: A, bytes: &[u8]) -> Result<i16> {
        Ok(i16::from_le_bytes(exactly(bytes)?))
    }

    fn estimated_size(&self) -> usize {
        2
    }

    ghost is_encoded = { int_encoded w16 };

    ghost one_value = { one_int w16 };

    ghost coded = { int_coded w16 };
}

/// Each `i16` reads back from its encoding.
#[tactic(auto, using(crate::proofs::CodeLemmas::int_read_back_16))]
pub fn i16_read_back()
    ensures { (z : ℤ) → FitsSigned w16 z
        → int_read w16 (⟦<i16 as Code<Global>>⟧.encoding z) ≡ Some z }
{}

#[tactic(auto, using(crate::specs::IntLaws::ints))]
impl<A: Allocator> Code<A> for i32 {
    ghost encoding = { int_bytes w32 };

    ghost is_encodable = { int_fits w32 };

    ghost is_decodable = { is_number w32 };

    ghost same = { λ n m. n ≡ m };

    ghost takes_memory = { λ _. ⊥ };

    fn encode_into<W: Sink>(&self, writer: &mut W) -> Result<()> {
        writer.put(&i32::to_le_bytes(*self))
    }

    fn decode(_alloc: A, bytes: &[u8]) -> Result<i32> {
        Ok(i32::from_le_bytes(exactly(bytes)?))
    }

    fn estimated_size(&self) -> usize {
        4
    }

    ghost is_encoded = { int_encoded w32 };

    ghost one_value = { one_int w32 };

    ghost coded = { int_coded w32 };
}

/// Each `i32` reads back from its encoding.
#[tactic(auto, using(crate::proofs::CodeLemmas::int_read_back_32))]
pub fn i32_read_back()
    ensures { (z : ℤ) → FitsSigned w32 z
        → int_read w32 (⟦<i32 as Code<Global>>⟧.encoding z) ≡ Some z }
{}

#[tactic(auto, using(crate::specs::IntLaws::ints))]
impl<A: Allocator> Code<A> for i64 {
    ghost encoding = { int_bytes w64 };

    ghost is_encodable = { int_fits w64 };

    ghost is_decodable = { is_number w64 };

    ghost same = { λ n m. n ≡ m };

    ghost takes_memory = { λ _. ⊥ };

    fn encode_into<W: Sink>(&self, writer: &mut W) -> Result<()> {
        writer.put(&i64::to_le_bytes(*self))
    }

    fn decode(_alloc: A, bytes: &[u8]) -> Result<i64> {
        Ok(i64::from_le_bytes(exactly(bytes)?))
    }

    fn estimated_size(&self) -> usize {
        8
    }

    ghost is_encoded = { int_encoded w64 };

    ghost one_value = { one_int w64 };

    ghost coded = { int_coded w64 };
}

/// Each `i64` reads back from its encoding.
#[tactic(auto, using(crate::proofs::CodeLemmas::int_read_back_64))]
pub fn i64_read_back()
    ensures { (z : ℤ) → FitsSigned w64 z
        → int_read w64 (⟦<i64 as Code<Global>>⟧.encoding z) ≡ Some z }
{}

#[tactic(auto, using(crate::specs::IntLaws::ints))]
impl<A: Allocator> Code<A> for i128 {
    ghost encoding = { int_bytes w128 };

    ghost is_encodable = { int_fits w128 };

    ghost is_decodable = { is_number w128 };

    ghost same = { λ n m. n ≡ m };

    ghost takes_memory = { λ _. ⊥ };

    fn encode_into<W: Sink>(&self, writer: &mut W) -> Result<()> {
        writer.put(&i128::to_le_bytes(*self))
    }

    fn decode(_alloc: A, bytes: &[u8]) -> Result<i128> {
        Ok(i128::from_le_bytes(exactly(bytes)?))
    }

    fn estimated_size(&self) -> usize {
        16
    }

    ghost is_encoded = { int_encoded w128 };

    ghost one_value = { one_int w128 };

    ghost coded = { int_coded w128 };
}

/// Each `i128` reads back from its encoding.
#[tactic(auto, using(crate::proofs::CodeLemmas::int_read_back_128))]
pub fn i128_read_back()
    ensures { (z : ℤ) → FitsSigned w128 z
        → int_read w128 (⟦<i128 as Code<Global>>⟧.encoding z) ≡ Some z }
{}

#[tactic(auto, using(crate::specs::IntLaws::ints))]
impl<A: Allocator> Code<A> for isize {
    ghost encoding = { int_bytes w64 };

    ghost is_encodable = { int_fits w64 };

    ghost is_decodable = { is_number w64 };

    ghost same = { λ n m. n ≡ m };

    ghost takes_memory = { λ _. ⊥ };

    fn encode_into<W: Sink>(&self, writer: &mut W) -> Result<()> {
        writer.put(&isize::to_le_bytes(*self))
    }

    fn decode(_alloc: A, bytes: &[u8]) -> Result<isize> {
        Ok(isize::from_le_bytes(exactly(bytes)?))
    }

    fn estimated_size(&self) -> usize {
        8
    }

    ghost is_encoded = { int_encoded w64 };

    ghost one_value = { one_int w64 };

    ghost coded = { int_coded w64 };
}

/// Each `isize` reads back from its encoding.
#[tactic(auto, using(crate::proofs::CodeLemmas::int_read_back_64))]
pub fn isize_read_back()
    ensures { (z : ℤ) → FitsSigned w64 z
        → int_read w64 (⟦<isize as Code<Global>>⟧.encoding z) ≡ Some z }
{}
