//! The key under which a meta command's item is kept.
ghost use Rattle.std.specs.Prelude.{◌≡◌, IfOk, MatchOption, None, Some};
ghost use Rattle.foyer_memcached.specs.Key.{key_for};

use base64::DecodeAllocError;
use base64::engine::general_purpose::STANDARD;
use std::alloc::{AllocError, Allocator};

/// Gives the key under which an item is kept: the bytes that a meta command's key writes in base64, if it has the flag `b`, else the key itself. `None`
/// if it has the flag and isn't base64. Errors: `AllocError` if there is no memory for it.
#[tactic(auto, unfolding(base64::specs::GeneralPurpose::decoded_of))]
pub fn stored_key<A: Allocator>(
    alloc: A,
    is_binary: bool,
    key: &[u8],
) -> Result<Option<Vec<u8, A>>, AllocError>
    ensures { IfOk result (λ k. MatchOption k (key_for is_binary key.now ≡ None) (λ v. key_for is_binary key.now ≡ Some v.items)) }
{
    if !is_binary {
        return Ok(Some(Vec::from_slice(alloc, key)?));
    }
    match STANDARD.decode(alloc, key) {
        Ok(bytes) => Ok(Some(bytes)),
        Err(DecodeAllocError::OutOfMemory) => Err(AllocError),
        Err(DecodeAllocError::DecodeError(_)) => Ok(None),
    }
}
