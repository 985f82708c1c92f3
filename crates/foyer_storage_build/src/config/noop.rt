//! How an engine that keeps nothing is built.
ghost use Rattle.std.specs.Prelude.{◌≡◌, ◌+◌, ◌<◌, ◌^◌, IfErr, IfOk, vec_len};
ghost use Rattle.foyer_device_page.specs.declared.error.Error.TheVariants as error;
ghost use Rattle.foyer_core_tally.specs.Ledgers.{AreOf};

use super::{Built, EngineBuildContext, EngineConfig, NoopEngine, Recovering};
use crate::whole::WholeSession;
use foyer_core_tally::book::{Blanks, Kinds};
use foyer_device_page::error::Result;
use foyer_device_statistics::Statistics;
use foyer_device_throttle::Throttle;
use foyer_policy_keeper::keeper::Keeper;
use foyer_storage_store::engine::core_shared::session::Session;
use foyer_storage_store::engine::engine::signals::Signals;
use foyer_storage_workers::recover::NoRecoverer;
use foyer_storage_workers::workers::{Clock, NoWorker};
use std::alloc::{AllocError, Allocator, Global};
use std::sync::Arc;

/// Builds engines that keep nothing.
#[derive(Clone, Copy, Debug, Default, PartialEq, Eq)]
pub struct NoopEngineConfig;

impl NoopEngineConfig {
    /// Puts the config into a box. Errors: AllocError if the box was refused.
    pub fn boxed<A: Allocator>(
        self,
        alloc: A,
    ) -> std::result::Result<Box<NoopEngineConfig, A>, AllocError> {
        Ok(Box::new(alloc, self)?)
    }
}

/// The moment from which such an engine's counters count, in nanoseconds.
#[derive(Clone, Copy, Debug, PartialEq, Eq)]
pub struct NoopOpening {
    now: u64,
}

impl<R: Copy, I: Drop, T: Clock, L: Kinds, K: Eq + Drop, V: Drop, P: Drop> EngineConfig<
    R,
    EngineBuildContext<I, T>,
    WholeSession<L>,
    K,
    V,
    P,
> for NoopEngineConfig {
    ghost use Rattle.std.specs.Prelude.{◌≡◌, ◌^◌, true, None};
    ghost use Rattle.foyer_device_page.specs.declared.error.Error.TheVariants as error;
    ghost use Rattle.foyer_core_tally.specs.Ledgers.{AreOf};
    ghost use Rattle.foyer_device_partition.specs.Unlimited.{unlimited};
    ghost use Rattle.foyer_storage_build.specs.declared.config.EngineBuildContext.{EngineBuildContext};
    ghost use Rattle.foyer_storage_build.specs.declared.config.noop.NoopEngineConfig.{NoopEngineConfig};

    ghost fits = { λ blanks. AreOf L.name_of L.all blanks × (L.all ≡ 2 ^ 32) };

    ghost keeps_nothing = { λ _. true };

    type Engine = NoopEngine<L>;

    type Flusher = NoWorker;

    type Reclaimer = NoWorker;

    type Opening = NoopOpening;

    type Recoverer = NoRecoverer;

    type Listed = NoRecoverer;

    ghost may_begin = { λ _ _ _. Unit {0} };

    ghost may_refuse = { λ _ _ e. e ≡ error.Memory };

    ghost may_build = { λ _ _ _ throttle flushers reclaimers. (throttle ≡ unlimited) × (flushers ≡ 0) × (reclaimers ≡ 0) };

    fn is_noop(&self) -> bool {
        true
    }

    fn begin(
        self,
        _rt: R,
        alloc: Global,
        context: EngineBuildContext<I, T>,
    ) -> Result<Recovering<NoopOpening, NoRecoverer>>
        ensures begun { IfOk result (λ _. Unit {0}) }
        ensures refused { IfErr result (λ e. e ≡ error.Memory) }
    {
        let now = context.clock.now();
        Ok(Recovering {
            opening: NoopOpening { now },
            recoverers: Vec::new(alloc),
        })
    }

    fn add(opening: NoopOpening, _listed: NoRecoverer) -> NoopOpening
        ensures kept { (config : NoopEngineConfig) (context : EngineBuildContext I T) → Unit {0} → Unit {0} }
    {
        opening
    }

    fn build(
        opening: NoopOpening,
        _rt: R,
        alloc: Global,
        blanks: Blanks,
        _keeper: &Arc<Keeper<K, V, P, Global>, Global>,
    ) -> Result<Built<NoopEngine<L>, NoWorker, NoWorker, WholeSession<L>>>
        requires { AreOf L.name_of L.all blanks × (L.all ≡ 2 ^ 32) }
        ensures parts { IfOk result (λ b. vec_len b.flushers + vec_len b.reclaimers + 1 < 2 ^ 32) }
        ensures built { (config : NoopEngineConfig) (context : EngineBuildContext I T) → Unit {0}
            → IfOk result (λ b. (b.throttle ≡ unlimited) × (vec_len b.flushers ≡ 0) × (vec_len b.reclaimers ≡ 0)) }
        ensures refused { (config : NoopEngineConfig) (context : EngineBuildContext I T) → Unit {0} → IfErr result (λ e. e ≡ error.Memory) }
    {
        let throttle = Throttle::new();
        let (statistics, _) = Statistics::new(alloc, throttle, opening.now)?;
        let statistics = Arc::new(alloc, statistics)?;
        let signals = Arc::new(alloc, Signals::new(alloc))?;
        let (books, session) = Session::first(blanks);
        let engine = NoopEngine::new(books);
        Ok(Built {
            engine,
            session: WholeSession::new(session),
            signals,
            flushers: Vec::new(alloc),
            reclaimers: Vec::new(alloc),
            statistics,
            throttle,
        })
    }
}
