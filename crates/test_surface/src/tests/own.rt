//! A config of a caller's own, and sizes that are checked before a store is built, by the door alone.
ghost use Rattle.foyer_storage.specs.Ledgers.{AreOf};
ghost use Rattle.std.specs.Prelude.{◌≡◌, ◌^◌};

use foyer_storage::error::Result;
use foyer_storage::{
    Blanks, Built, EngineConfig, EngineSizes, Enqueued, IdentityHashBuilder, Keeper, Kinds, Moment,
    NoProperties, NoopEngineConfig, Recovering, StoreBuilder,
};
use std::alloc::Global;
use std::marker::Brand;
use std::sync::{Arc, Wait};
use std::test::Fail;
use std::thread::Threads;

/// A config that is another one under a name of its own.
#[derive(Drop)]
struct Named<M: Drop> {
    inner: M,
}

impl<R, X, S, K, V, P, M> EngineConfig<R, X, S, K, V, P> for Named<M>
where
    R: Copy,
    X: Drop,
    S: Drop,
    K: Eq,
    M: EngineConfig<R, X, S, K, V, P>,
{
    ghost fits = { λ blanks. M.fits blanks };

    ghost keeps_nothing = { λ config. M.keeps_nothing config.inner };

    type Engine = M::Engine;

    type Flusher = M::Flusher;

    type Reclaimer = M::Reclaimer;

    type Opening = M::Opening;

    type Recoverer = M::Recoverer;

    type Listed = M::Listed;

    ghost may_begin = { λ config context opening. M.may_begin config.inner context opening };

    ghost may_refuse = { λ config context e. M.may_refuse config.inner context e };

    ghost may_build = { λ config context engine throttle flushers reclaimers. M.may_build config.inner context engine throttle flushers reclaimers };

    fn is_noop(&self) -> bool {
        self.inner.is_noop()
    }

    fn begin(
        self,
        rt: R,
        alloc: Global,
        context: X,
    ) -> Result<Recovering<M::Opening, M::Recoverer>> {
        let Named { inner } = self;
        inner.begin(rt, alloc, context)
    }

    fn add(opening: M::Opening, listed: M::Listed) -> M::Opening {
        M::add(opening, listed)
    }

    fn build(
        opening: M::Opening,
        rt: R,
        alloc: Global,
        blanks: Blanks,
        keeper: &Arc<Keeper<K, V, P, Global>, Global>,
    ) -> Result<Built<M::Engine, M::Flusher, M::Reclaimer, S>> {
        M::build(opening, rt, alloc, blanks, keeper)
    }
}

/// A store of such a config over one that keeps nothing ignores what is put.
fn is_ignored<L, R>(rt: R, alloc: Global, blanks: Blanks) -> Result<bool>
where
    L: Kinds + Send + Sync + 'static,
    R: Threads + Wait + Copy + Send + 'static,
    requires { AreOf L.name_of L.all blanks × (L.all ≡ 2 ^ 32) }
{
    let inner = NoopEngineConfig;
    let builder = StoreBuilder::new("own", IdentityHashBuilder, 4).with_engine_config(Named {
        inner,
    });
    let (store, mut session, workers) = builder.build::<R, Moment, L, u64, String, NoProperties>(
        rt,
        alloc,
        blanks,
        Moment(0),
        0,
    )?;
    let value = String::from_str(alloc, "a")?;
    let piece = store.piece(alloc, 1, value, NoProperties)?;
    let answer = store.enqueue(&rt, &mut session, &piece, true, 0)?;
    let _ = workers.join(&rt, session.into_steps());
    Ok(answer == Enqueued::Ignored)
}

/// Four blocks of 16 KiB, and of what goes with them.
fn small() -> EngineSizes {
    EngineSizes {
        block_size: 16384,
        ..EngineSizes::new()
    }
}

/// How many blocks are planned of so many bytes.
fn planned(sizes: EngineSizes, free: usize) -> Option<u32> {
    match sizes.plan(free, 0) {
        Ok(settings) => Some(settings.blocks),
        Err(_) => None,
    }
}

#[test]
fn a_store_over_an_engine_that_keeps_nothing_ignores_puts(
    rt: HostRuntime,
) -> std::result::Result<(), Fail> {
    let blanks = Blanks::new(1 << 32);
    assert!(rt; is_ignored::<Brand, HostRuntime>(rt, rt.alloc(), blanks)?);
    Ok(())
}

#[test]
fn sizes_are_checked_before_a_store_is_built(rt: HostRuntime) -> std::result::Result<(), Fail> {
    let bad = EngineSizes {
        blob_index_size: 16384,
        ..small()
    };
    assert!(rt; small().check().is_ok() && bad.check().is_err());
    assert!(rt; planned(small(), 65536) == Some(4) && planned(small(), 16383).is_none());
    Ok(())
}
