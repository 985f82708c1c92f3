//! What makes an engine.
ghost use Rattle.std.specs.Prelude.{◌≡◌, ◌⊎◌, IfErr};
ghost use Rattle.foyer_device_page.specs.declared.error.Error.TheVariants as error;

use super::IoEngine;
use foyer_device_page::error::Result;
use std::alloc::{AllocError, Allocator};

/// What an engine is built for: the path of each file of the device, as `Device::files` gives them.
#[derive(Clone, Copy)]
pub struct IoEngineBuildContext<'a, A: Allocator> {
    /// The paths of the device's files, in the order of their numbers.
    pub files: &'a [String<A>],
}

/// Builds engines over a runtime R.
pub trait IoEngineConfig<R> {
    type Engine: IoEngine + Drop;

    /// Builds an engine over the files of the context. Errors: Io if a file couldn't be opened,
    /// Memory.
    fn build<A: Allocator>(
        &self,
        rt: &R,
        context: &IoEngineBuildContext<'_, A>,
    ) -> Result<Self::Engine>
        ensures refused { IfErr result (λ e. (e ≡ error.Io) ⊎ (e ≡ error.Memory)) };

    /// Puts the config in a box. Error: AllocError if the box was refused.
    fn boxed<A: Allocator>(self, alloc: A) -> std::result::Result<Box<Self, A>, AllocError>
    where
        Self: Sized + Drop,
    {
        Ok(Box::new(alloc, self)?)
    }
}
