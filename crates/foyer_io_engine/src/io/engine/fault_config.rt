//! What makes engines that fail a call, for tests.
ghost use Rattle.std.specs.Prelude.{◌≡◌, ◌⊎◌, IfErr, IfOk};
ghost use Rattle.foyer_device_page.specs.declared.error.Error.TheVariants as error;

use super::fault::FaultIoEngine;
use super::{IoEngineBuildContext, IoEngineConfig};
use foyer_device_page::error::Result;
use std::alloc::Allocator;

/// Builds a `FaultIoEngine` over each engine that another config builds. Each of them counts its own calls.
#[derive(Drop)]
pub struct FaultIoEngineConfig<C: Drop> {
    inner: C,
    n: u64,
    kept: usize,
    stop: bool,
}

impl<C: Drop> FaultIoEngineConfig<C> {
    /// Each engine is made with `n`, `kept` and `stop`, as `FaultIoEngine::new` has them.
    pub fn new(inner: C, n: u64, kept: usize, stop: bool) -> FaultIoEngineConfig<C>
        ensures inner { result.inner ≡ inner }
        ensures armed { (result.n ≡ n) × (result.kept ≡ kept) × (result.stop ≡ stop) }
    {
        FaultIoEngineConfig {
            inner,
            n,
            kept,
            stop,
        }
    }
}

impl<R, C: IoEngineConfig<R> + Drop> IoEngineConfig<R> for FaultIoEngineConfig<C> {
    type Engine = FaultIoEngine<C::Engine>;

    fn build<A: Allocator>(
        &self,
        rt: &R,
        context: &IoEngineBuildContext<'_, A>,
    ) -> Result<FaultIoEngine<C::Engine>>
        ensures refused { IfErr result (λ e. (e ≡ error.Io) ⊎ (e ≡ error.Memory)) }
        ensures armed { IfOk result (λ e. (e.left ≡ self.now.n) × (e.kept ≡ self.now.kept) × (e.stop ≡ self.now.stop) × (e.failed ≡ 0)) }
    {
        let inner = self.inner.build(rt, context)?;
        Ok(FaultIoEngine::new(inner, self.n, self.kept, self.stop))
    }
}
