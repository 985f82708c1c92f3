//! The code of a flag: one byte, 0 or 1.
ghost use Rattle.std.specs.Prelude.{◌≡◌, Bool, Some, true, refl};
ghost use Rattle.foyer_format_code.specs.Codes.{flag_bytes, is_flag, flag_read};
ghost use Rattle.foyer_format_code.specs.FlagLaws.{one_flag, flag_encoded};

use crate::coding::Code;
use crate::sinks::Sink;
use foyer_device_page::error::{Error, Result};
use std::alloc::{Allocator, Global};

impl<A: Allocator> Code<A> for bool {
    ghost encoding = { flag_bytes };

    ghost is_encodable = { λ _. true };

    ghost is_decodable = { is_flag };

    ghost same = { λ a b. a ≡ b };

    ghost takes_memory = { λ _. ⊥ };

    fn encode_into<W: Sink>(&self, writer: &mut W) -> Result<()> {
        let byte = if *self { 1 } else { 0 };
        writer.put(&[byte])
    }

    fn decode(_alloc: A, bytes: &[u8]) -> Result<bool> {
        match bytes {
            [0] => Ok(false),
            [1] => Ok(true),
            _ => Err(Error::Parse),
        }
    }

    fn estimated_size(&self) -> usize {
        1
    }

    ghost is_encoded = { λ b _. flag_encoded b };

    ghost one_value = { λ a b _ _ same. one_flag a b same };

    ghost coded = { λ _ _. refl };
}

/// Each flag reads back from its encoding.
#[tactic(auto, using(crate::proofs::CodeLemmas::flag_read_back))]
pub fn bool_read_back()
    ensures { (b : Bool) → flag_read (⟦<bool as Code<Global>>⟧.encoding b) ≡ Some b }
{}
