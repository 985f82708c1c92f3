//! The codes of the types that most keys and values are made of.
ghost use Rattle.std.specs.Prelude.{◌≡◌, ◌≢◌, length, MatchResult};
ghost use Rattle.foyer_device_page.specs.declared.error.Error.TheVariants.{Parse};
ghost use Rattle.foyer_format_code.specs.Vectors.{NumberVector, IntVector, FlagVector, TextVector};

use foyer_device_page::error::{Error, Result};

mod counted;
mod flags;
mod signed;
mod unsigned;

pub use counted::{bytes_read_back, string_read_back};
pub use flags::bool_read_back;
pub use signed::{
    i8_read_back, i16_read_back, i32_read_back, i64_read_back, i128_read_back, isize_read_back,
};
pub use unsigned::{
    u8_read_back, u16_read_back, u32_read_back, u64_read_back, u128_read_back, usize_read_back,
};

// The bytes, if they are exactly `N`. Error: Parse if they aren't.
fn exactly<const N: usize>(bytes: &[u8]) -> Result<[u8; N]>
    ensures { MatchResult result (λ all. (all ≡ bytes.now) × (length bytes.now ≡ N))
        (λ e. (e ≡ Parse) × (length bytes.now ≢ N)) }
{
    match <[u8; N]>::try_from(bytes) {
        Ok(all) => Ok(all),
        Err(_) => Err(Error::Parse),
    }
}

/// Numbers, a flag and a text with their encodings, in bytes.
#[tactic(auto, unfolding(crate::specs::Codes::number_bytes, crate::specs::Codes::int_bytes))]
pub fn code_vectors()
    ensures number { NumberVector }
    ensures int { IntVector }
    ensures flag { FlagVector }
    ensures text { TextVector }
{}
