//! What the beginning of a batch takes.
ghost use Rattle.std.specs.Prelude.{◌≡◌, IfErr};
ghost use Rattle.foyer_device_page.specs.declared.error.Error.{Error as error};

use foyer_device_page::error::Result;
use std::alloc::Allocator;

// Handles for the five lists that are made once nothing can be refused any more.
pub(crate) fn handles<A: Allocator + Clone>(alloc: &A) -> Result<(A, A, A, A, A)>
    ensures memory { IfErr result (λ e. e ≡ error.Memory) }
{
    Ok((
        alloc.clone()?,
        alloc.clone()?,
        alloc.clone()?,
        alloc.clone()?,
        alloc.clone()?,
    ))
}
