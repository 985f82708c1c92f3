//! The bytes of the reply to a request `v`, by which a caller knows the program before it believes any other reply.
ghost use Rattle.std.specs.Prelude.{◌≡◌, IfOk};
ghost use Rattle.foyer_frames.specs.Greeting.{greeting};

use crate::request::Limits;
use std::alloc::{AllocError, Allocator};

// What no other program's first bytes are likely to be.
const NAME: &[u8] = b"foyerpipe\n";

// The version of the frames. It grows if a caller of an older version could no longer read the replies.
const FRAMES_VERSION: u32 = 1;

/// Gives the bytes that a request `v` is answered with: the 10 bytes `foyerpipe\n`, the version of the frames, the most bytes of a key, the
/// most bytes of a value, and then the program's own version, to the end. Errors: `AllocError` if there is no memory for them.
pub fn greeting_bytes<A: Allocator>(
    alloc: A,
    limits: &Limits,
    version: &str,
) -> Result<Vec<u8, A>, AllocError>
    ensures { IfOk result (λ bytes. bytes.items ≡ greeting limits.now version.now) }
{
    let mut bytes = Vec::from_slice(alloc, NAME)?;
    bytes.extend_from_slice(&FRAMES_VERSION.to_le_bytes())?;
    bytes.extend_from_slice(&limits.key.to_le_bytes())?;
    bytes.extend_from_slice(&limits.value.to_le_bytes())?;
    bytes.extend_from_slice(version.as_bytes())?;
    Ok(bytes)
}
