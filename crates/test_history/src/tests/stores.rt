//! A store over a history, asked by one thread and by three. Every `requires` on the way is met by callers who know nothing but what they made.
ghost use Rattle.std.specs.Prelude.{◌≡◌, ◌-◌, ◌^◌, [], IfOk};
ghost use Rattle.foyer_core_chronicle.specs.SharedHistory.{newcomer};
ghost use Rattle.foyer_core_model.specs.Ids.{ids};
ghost use Rattle.foyer_core_tally.specs.Ledgers.{AreOf};
ghost use Rattle.foyer_core_told.specs.ToldRights.{rights_count};

use foyer_block_manager::block::eviction::BuiltInPicker;
use foyer_core_tally::book::{Blanks, Kinds};
use foyer_device_page::error::{Error, Result};
use foyer_format_record::serde::{NoProperties, StdHashBuilder};
use foyer_io_blocks::memory::MemoryDisk;
use foyer_policy_filter::BuiltInCondition;
use foyer_storage_engine::core_steps::apply::Env;
use foyer_storage_engine::core_steps::open::RecoverMode;
use foyer_storage_engine::core_steps::settings::Settings;
use foyer_storage_engine::engine::Enqueued;
use foyer_storage_engine::load::Load;
use foyer_storage_history::core_threads::core_told::history::{
    ToldHistory, ToldWitness, open_history,
};
use foyer_storage_history::core_threads::io_told::disk::HistoryName;
use foyer_storage_history::engine::HistoryEngine;
use foyer_storage_history::session::HistorySession;
use foyer_storage_store::calls::Engine;
use foyer_storage_store::store::Store;
use std::alloc::Global;
use std::hash::{BuildHasherDefault, FoldHasher};
use std::marker::Brand;
use std::sync::Wait;
use std::test::Fail;
use std::thread;
use std::thread::Threads;

type Disk = MemoryDisk<Global>;

type Hashes = StdHashBuilder<BuildHasherDefault<FoldHasher>>;

type Numbers<N> = Store<N, u64, u64, NoProperties, Hashes>;

type NumberEngine<J, L> = HistoryEngine<
    J,
    L,
    u64,
    u64,
    NoProperties,
    BuiltInPicker,
    BuiltInCondition,
    Disk,
>;

type Caller<J, L> = HistorySession<J, L, u64, u64, NoProperties, Disk>;

// An engine with this many flushers over four blocks of 64 KiB in memory, and the session that has all parts but one.
fn opened<J: HistoryName, L: Kinds>(
    alloc: Global,
    history: ToldHistory<u64, u64, NoProperties, Global, Disk>,
    witness: ToldWitness<u64, u64, NoProperties, Global, Disk>,
    blanks: Blanks,
    flushers: u32,
) -> Result<(NumberEngine<J, L>, Caller<J, L>)>
    requires history { history.table.shared.table_id ≡ J.table }
    requires witness { (witness.table_id ≡ J.table) × (witness.me ≡ (newcomer (ids rights_count), [])) }
    requires ledgers { AreOf L.name_of L.all blanks × (L.all ≡ 2 ^ 32) }
    ensures parts { IfOk result (λ r. r.1.told.session.shares.parts ≡ 2 ^ 32 - 1) }
{
    let env = Env::with_default_pickers(alloc, 0)?;
    let settings = Settings {
        flushers,
        ..Settings::new(4, 1 << 16)
    };
    let disk = MemoryDisk::new(alloc, settings.blocks, settings.block_size)?;
    let mode = RecoverMode::None;
    NumberEngine::<J, L>::open(
        history, witness, alloc, env, settings, disk, mode, 4, blanks,
    )
}

fn hashes() -> Hashes {
    StdHashBuilder {
        build: BuildHasherDefault::<FoldHasher>::default(),
    }
}

// The number under a key, and whether it was read from the device; or none.
fn number<S: Drop, N: Engine<S, u64, u64, NoProperties>>(
    rt: &impl Wait,
    store: &Numbers<N>,
    session: &mut S,
    key: u64,
) -> Result<Option<(u64, bool)>> {
    match store.load(rt, session, &key, 0)? {
        Load::Entry { value, .. } => Ok(Some((value, true))),
        Load::Piece { piece, .. } => Ok(Some((*piece.value(), false))),
        Load::Miss => Ok(None),
        Load::Throttled => Err(Error::Io),
    }
}

// Puts the numbers below this one under a key, one after the other, and has them written now and then: whether each was queued.
fn put_all<S: Drop, N: Engine<S, u64, u64, NoProperties>>(
    rt: &impl Wait,
    alloc: Global,
    store: &Numbers<N>,
    session: &mut S,
    key: u64,
    count: u64,
) -> Result<bool> {
    for value in 0..count {
        if store.put(rt, alloc, session, key, value, NoProperties, 0)? != Enqueued::Queued {
            return Ok(false);
        }
        if value % 100 == 99 {
            store.wait(rt, session)?;
        }
    }
    Ok(true)
}

// Loads a key: whether its number isn't below the last one that was found, which it becomes then. A number whose block was reclaimed is a miss.
fn load_on<S: Drop, N: Engine<S, u64, u64, NoProperties>>(
    rt: &impl Wait,
    store: &Numbers<N>,
    session: &mut S,
    key: u64,
    last: &mut u64,
) -> Result<bool> {
    match number(rt, store, session, key)? {
        None => Ok(true),
        Some((found, _)) => {
            let goes_on = *last <= found;
            *last = found;
            Ok(goes_on)
        }
    }
}

// Loads two keys so often: whether no number is below one that was found before under its key.
fn load_all<S: Drop, N: Engine<S, u64, u64, NoProperties>>(
    rt: &impl Wait,
    store: &Numbers<N>,
    session: &mut S,
    count: u64,
) -> Result<bool> {
    let mut last = 0;
    let mut other = 0;
    for _ in 0..count {
        if !load_on(rt, store, session, 0, &mut last)?
            || !load_on(rt, store, session, 1, &mut other)?
        {
            return Ok(false);
        }
    }
    Ok(true)
}

// What a store answers to one caller, call by call.
fn ask<S: Drop, N: Engine<S, u64, u64, NoProperties>>(
    rt: &impl Wait,
    alloc: Global,
    store: &Numbers<N>,
    session: &mut S,
) -> Result<[Option<(u64, bool)>; 5]> {
    let _ = put_all(rt, alloc, store, session, 1, 10)?;
    let queued = number(rt, store, session, 1)?;
    store.wait(rt, session)?;
    let written = number(rt, store, session, 1)?;
    store.delete(rt, session, &1)?;
    let deleted = number(rt, store, session, 1)?;
    let _ = put_all(rt, alloc, store, session, 2, 3)?;
    store.wait(rt, session)?;
    let other = number(rt, store, session, 2)?;
    store.destroy(rt, session)?;
    let destroyed = number(rt, store, session, 2)?;
    Ok([queued, written, deleted, other, destroyed])
}

// The answers to one caller, and whether a put is refused once the store is closed.
fn run<J: HistoryName, L: Kinds>(
    rt: &impl Wait,
    alloc: Global,
    history: ToldHistory<u64, u64, NoProperties, Global, Disk>,
    witness: ToldWitness<u64, u64, NoProperties, Global, Disk>,
    blanks: Blanks,
) -> Result<([Option<(u64, bool)>; 5], bool)>
    requires history { history.table.shared.table_id ≡ J.table }
    requires witness { (witness.table_id ≡ J.table) × (witness.me ≡ (newcomer (ids rights_count), [])) }
    requires ledgers { AreOf L.name_of L.all blanks × (L.all ≡ 2 ^ 32) }
{
    let (engine, mut session) = opened::<J, L>(alloc, history, witness, blanks, 1)?;
    let store = engine.into_store(alloc, "numbers", hashes(), 0)?;
    let answers = ask(rt, alloc, &store, &mut session)?;
    store.close(rt, &mut session)?;
    let refused = store.put(rt, alloc, &mut session, 1, 1, NoProperties, 0);
    Ok((answers, refused == Err(Error::Closed)))
}

// Puts a number under a key: what another key has then, and what the first has after that.
fn ask_beside<S: Drop, N: Engine<S, u64, u64, NoProperties>>(
    rt: &impl Wait,
    alloc: Global,
    store: &Numbers<N>,
    session: &mut S,
    key: u64,
    other: u64,
) -> Result<[Option<(u64, bool)>; 2]> {
    let _ = put_all(rt, alloc, store, session, key, 1)?;
    let beside = number(rt, store, session, other)?;
    let own = number(rt, store, session, key)?;
    Ok([beside, own])
}

// The same of two keys whose hashes are of one class, and of two whose hashes aren't.
fn run_beside<J: HistoryName, L: Kinds>(
    rt: &impl Wait,
    alloc: Global,
    history: ToldHistory<u64, u64, NoProperties, Global, Disk>,
    witness: ToldWitness<u64, u64, NoProperties, Global, Disk>,
    blanks: Blanks,
    flushers: u32,
) -> Result<[[Option<(u64, bool)>; 2]; 2]>
    requires history { history.table.shared.table_id ≡ J.table }
    requires witness { (witness.table_id ≡ J.table) × (witness.me ≡ (newcomer (ids rights_count), [])) }
    requires ledgers { AreOf L.name_of L.all blanks × (L.all ≡ 2 ^ 32) }
{
    let (engine, mut session) = opened::<J, L>(alloc, history, witness, blanks, flushers)?;
    let store = engine.into_store(alloc, "numbers", hashes(), 0)?;
    let same = ask_beside(rt, alloc, &store, &mut session, 202, 264)?;
    let apart = ask_beside(rt, alloc, &store, &mut session, 1, 2)?;
    Ok([same, apart])
}

// Two threads put numbers, each under a key of its own, while a third loads both: whether all puts were queued, and no load went back.
fn run_by_three<S, N, R>(
    rt: &R,
    alloc: Global,
    store: &Numbers<N>,
    one: S,
    two: S,
    three: S,
) -> Result<(bool, bool, bool)>
where
    S: Drop + Send,
    N: Engine<S, u64, u64, NoProperties> + Send + Sync,
    R: Threads + Wait + Sync,
{
    let mut one = one;
    let mut two = two;
    let mut three = three;
    let put_one = || put_all(rt, alloc, store, &mut one, 0, 2000);
    let put_two = || put_all(rt, alloc, store, &mut two, 1, 2000);
    let load_both = || load_all(rt, store, &mut three, 2000);
    let (first, others) = thread::join(rt, put_one, || thread::join(rt, put_two, load_both));
    Ok((first?, others.0?, others.1?))
}

// The same over a history, whose sessions are split before.
fn run_threads<J, L, R>(
    rt: &R,
    alloc: Global,
    history: ToldHistory<u64, u64, NoProperties, Global, Disk>,
    witness: ToldWitness<u64, u64, NoProperties, Global, Disk>,
    blanks: Blanks,
) -> Result<(bool, bool, bool)>
where
    J: HistoryName + Send + Sync,
    L: Kinds + Send + Sync,
    R: Threads + Wait + Sync,
    requires history { history.table.shared.table_id ≡ J.table }
    requires witness { (witness.table_id ≡ J.table) × (witness.me ≡ (newcomer (ids rights_count), [])) }
    requires ledgers { AreOf L.name_of L.all blanks × (L.all ≡ 2 ^ 32) }
{
    let (engine, mut one) = opened::<J, L>(alloc, history, witness, blanks, 1)?;
    let two = engine.split(&mut one, 1);
    let three = engine.split(&mut one, 1);
    let store = engine.into_store(alloc, "numbers", hashes(), 0)?;
    run_by_three::<Caller<J, L>, NumberEngine<J, L>, R>(rt, alloc, &store, one, two, three)
}

#[test]
fn calls_of_one_thread_answer_the_newest_pair(rt: HostRuntime) -> std::result::Result<(), Fail> {
    let alloc = rt.alloc();
    let (history, witness) = open_history(alloc)?;
    let ran = run::<Brand, Brand>(&rt, alloc, history, witness, Blanks::new(1 << 32));
    let answers = [
        Some((9, false)),
        Some((9, true)),
        None,
        Some((2, true)),
        None,
    ];
    assert_eq!(rt; ran?, (answers, true));
    Ok(())
}

#[test]
fn a_load_writes_what_is_queued_of_its_class_alone(
    rt: HostRuntime,
) -> std::result::Result<(), Fail> {
    let alloc = rt.alloc();
    let (history, witness) = open_history(alloc)?;
    let ran = run_beside::<Brand, Brand>(&rt, alloc, history, witness, Blanks::new(1 << 32), 1);
    let answers = [[None, Some((0, true))], [None, Some((0, false))]];
    assert_eq!(rt; ran?, answers);
    Ok(())
}

// The hashes of 202 and 264 have one remainder by 65,536, but belong to different flushers of three.
#[test]
fn a_load_returns_while_another_flusher_has_pieces(
    rt: HostRuntime,
) -> std::result::Result<(), Fail> {
    let alloc = rt.alloc();
    let (history, witness) = open_history(alloc)?;
    let ran = run_beside::<Brand, Brand>(&rt, alloc, history, witness, Blanks::new(1 << 32), 3);
    let answers = [[None, Some((0, false))], [None, Some((0, false))]];
    assert_eq!(rt; ran?, answers);
    Ok(())
}

#[test]
fn no_load_goes_back_while_two_threads_put(rt: HostRuntime) -> std::result::Result<(), Fail> {
    let alloc = rt.alloc();
    let (history, witness) = open_history(alloc)?;
    let blanks = Blanks::new(1 << 32);
    let ran = run_threads::<Brand, Brand, HostRuntime>(&rt, alloc, history, witness, blanks);
    assert_eq!(rt; ran?, (true, true, true));
    Ok(())
}
