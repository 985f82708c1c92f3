//! Sessions and threads that share a core and its disk in memory, of which each step and each access is added to one history.
ghost use Rattle.std.specs.Prelude.{◌≡◌, ◌-◌, ◌<◌, ◌^◌, [], IfOk};
ghost use Rattle.foyer_core_chronicle.specs.Rights.{times};
ghost use Rattle.foyer_core_chronicle.specs.SharedHistory.{newcomer};
ghost use Rattle.foyer_core_model.specs.Ids.{ids};
ghost use Rattle.foyer_core_tally.specs.Ledgers.{AreOf};
ghost use Rattle.foyer_core_told.specs.ToldRights.{rights_count, writes_right};

use foyer_block_manager::block::eviction::BuiltInPicker;
use foyer_core_tally::book::{Blanks, Kinds};
use foyer_core_threads::core_told::history::{ToldHistory, ToldWitness, open_history};
use foyer_core_threads::io_told::disk::HistoryName;
use foyer_core_threads::session::ToldSession;
use foyer_core_threads::shared::ToldShared;
use foyer_device_page::error::{Error, Result};
use foyer_format_record::serde::NoProperties;
use foyer_io_blocks::memory::MemoryDisk;
use foyer_policy_filter::BuiltInCondition;
use foyer_policy_piece::keeper::{Piece, PieceRef};
use foyer_storage_engine::core_shared::notes::NoNotes;
use foyer_storage_engine::core_steps::apply::{Env, no_io};
use foyer_storage_engine::core_steps::open::RecoverMode;
use foyer_storage_engine::core_steps::reply::Reply;
use foyer_storage_engine::core_steps::settings::Settings;
use foyer_storage_engine::core_steps::step::Step;
use std::alloc::Global;
use std::marker::Brand;
use std::sync::Wait;
use std::test::Fail;
use std::thread;
use std::thread::Threads;

type Numbers<J, L> = ToldShared<
    J,
    L,
    u64,
    u64,
    NoProperties,
    Global,
    BuiltInPicker,
    BuiltInCondition,
    NoNotes,
    MemoryDisk<Global>,
>;

type Mine<L> = ToldSession<L, u64, u64, NoProperties, Global, MemoryDisk<Global>>;

// Puts a number under a hash, and has it written.
fn put<J: HistoryName, L: Kinds>(
    rt: &impl Wait,
    alloc: Global,
    shared: &Numbers<J, L>,
    session: &mut Mine<L>,
    hash: u64,
    value: u64,
) -> Result<()>
    requires mine { (session.old.witness.table_id ≡ J.table) × (session.old.witness.me.1 ≡ []) }
    requires right { 0 < times (writes_right 0) session.old.witness.me.0.has }
    requires part { 0 < session.old.session.shares.parts }
    ensures mine { (session.new.witness.table_id ≡ J.table) × (session.new.witness.me.1 ≡ []) }
    ensures right { 0 < times (writes_right 0) session.new.witness.me.0.has }
    ensures parts { session.new.session.shares.parts ≡ session.old.session.shares.parts }
{
    let piece = PieceRef::from(Piece::new(alloc, hash, value, hash, NoProperties)?);
    let _ = shared.ask(rt, session, no_io(), Step::Enqueue { piece, size: 16 });
    let _ = shared.ask(rt, session, no_io(), Step::Receive { flusher: 0 });
    let _ = shared.ask(rt, session, no_io(), Step::FlushBegin { flusher: 0 });
    if let Reply::Write { block, writes } = shared.issue(rt, session, 0) {
        let _ = shared.write_all(rt, session, 0, block, &writes);
    }
    let _ = shared.ask(rt, session, no_io(), Step::FlushEnd { flusher: 0 });
    Ok(())
}

// The number under a hash, or none.
fn value_of<J: HistoryName, L: Kinds>(
    rt: &impl Wait,
    alloc: Global,
    shared: &Numbers<J, L>,
    session: &mut Mine<L>,
    hash: u64,
) -> Result<Option<u64>>
    requires mine { (session.old.witness.table_id ≡ J.table) × (session.old.witness.me.1 ≡ []) }
    requires part { 0 < session.old.session.shares.parts }
    ensures mine { (session.new.witness.table_id ≡ J.table) × (session.new.witness.me.1 ≡ []) }
    ensures parts { session.new.session.shares.parts ≡ session.old.session.shares.parts }
{
    match shared.load(rt, session, &alloc, hash, false)? {
        Reply::Entry { value, .. } => Ok(Some(value)),
        Reply::Miss => Ok(None),
        _ => Err(Error::Io),
    }
}

// Puts the numbers below three hundred under one hash.
fn put_all<J: HistoryName, L: Kinds>(
    rt: &impl Wait,
    alloc: Global,
    shared: &Numbers<J, L>,
    mut session: Mine<L>,
) -> Result<Mine<L>>
    requires mine { (session.witness.table_id ≡ J.table) × (session.witness.me.1 ≡ []) }
    requires right { 0 < times (writes_right 0) session.witness.me.0.has }
    requires part { 0 < session.session.shares.parts }
    ensures mine { IfOk result (λ s. (s.witness.table_id ≡ J.table) × (s.witness.me.1 ≡ [])) }
    ensures parts { IfOk result (λ s. s.session.shares.parts ≡ session.session.shares.parts) }
{
    'values: for value in 0..300 {
        put(rt, alloc, shared, &mut session, 7, value)?;
    }
    Ok(session)
}

// Loads three hundred times: whether nothing was missed once something was found, and no number is below one that was loaded before.
fn load_all<J: HistoryName, L: Kinds>(
    rt: &impl Wait,
    alloc: Global,
    shared: &Numbers<J, L>,
    mut session: Mine<L>,
) -> Result<(Mine<L>, bool)>
    requires mine { (session.witness.table_id ≡ J.table) × (session.witness.me.1 ≡ []) }
    requires part { 0 < session.session.shares.parts }
    ensures mine { IfOk result (λ r. (r.0.witness.table_id ≡ J.table) × (r.0.witness.me.1 ≡ [])) }
    ensures parts { IfOk result (λ r. r.0.session.shares.parts ≡ session.session.shares.parts) }
{
    let mut is_right = true;
    let mut last = None;
    'loads: for _ in 0..300 {
        let loaded = value_of(rt, alloc, shared, &mut session, 7)?;
        is_right = is_right && last <= loaded;
        last = loaded;
    }
    Ok((session, is_right))
}

// A core over a disk of two blocks in memory, and the session that has everything.
fn opened<J: HistoryName, L: Kinds>(
    alloc: Global,
    history: ToldHistory<u64, u64, NoProperties, Global, MemoryDisk<Global>>,
    witness: ToldWitness<u64, u64, NoProperties, Global, MemoryDisk<Global>>,
    blanks: Blanks,
) -> Result<(Numbers<J, L>, Mine<L>)>
    requires history { history.table.shared.table_id ≡ J.table }
    requires witness { (witness.table_id ≡ J.table) × (witness.me ≡ (newcomer (ids rights_count), [])) }
    requires ledgers { AreOf L.name_of L.all blanks × (L.all ≡ 2 ^ 32) }
    ensures mine { IfOk result (λ r. (r.1.witness.table_id ≡ J.table) × (r.1.witness.me.1 ≡ [])) }
    ensures right { IfOk result (λ r. 0 < times (writes_right 0) r.1.witness.me.0.has) }
    ensures parts { IfOk result (λ r. r.1.session.shares.parts ≡ 2 ^ 32) }
{
    let env = Env::with_default_pickers(alloc, 0)?;
    let settings = Settings::new(2, 1 << 20);
    let disk = MemoryDisk::new(alloc, settings.blocks, settings.block_size)?;
    let mode = RecoverMode::None;
    Numbers::<J, L>::open(
        history,
        witness,
        alloc,
        env,
        settings,
        disk,
        mode,
        &[],
        blanks,
    )
}

// Two sessions of one history: one puts the numbers below a hundred, and after each the other loads. Whether it always loaded what was put
// last, and what is loaded once they are joined.
fn run<J: HistoryName, L: Kinds>(
    rt: &impl Wait,
    alloc: Global,
    history: ToldHistory<u64, u64, NoProperties, Global, MemoryDisk<Global>>,
    witness: ToldWitness<u64, u64, NoProperties, Global, MemoryDisk<Global>>,
    blanks: Blanks,
) -> Result<(bool, Option<u64>)>
    requires history { history.table.shared.table_id ≡ J.table }
    requires witness { (witness.table_id ≡ J.table) × (witness.me ≡ (newcomer (ids rights_count), [])) }
    requires ledgers { AreOf L.name_of L.all blanks × (L.all ≡ 2 ^ 32) }
{
    let (shared, mut one) = opened::<J, L>(alloc, history, witness, blanks)?;
    let mut two = one.split(shared.history(), 1);
    let mut is_right = true;
    'values: for value in 0..100 {
        put(rt, alloc, &shared, &mut one, 7, value)?;
        let loaded = value_of(rt, alloc, &shared, &mut two, 7)?;
        is_right = is_right && loaded == Some(value);
    }
    one.join(shared.history(), two);
    let last = value_of(rt, alloc, &shared, &mut one, 7)?;
    Ok((is_right, last))
}

// One thread puts while another loads. Whether what was loaded never went back, and what is loaded once they are joined.
fn run_by_two<J, L, R>(
    rt: &R,
    alloc: Global,
    history: ToldHistory<u64, u64, NoProperties, Global, MemoryDisk<Global>>,
    witness: ToldWitness<u64, u64, NoProperties, Global, MemoryDisk<Global>>,
    blanks: Blanks,
) -> Result<(bool, Option<u64>)>
where
    J: HistoryName + Send + Sync,
    L: Kinds + Send + Sync,
    R: Threads + Wait + Sync,
    requires history { history.table.shared.table_id ≡ J.table }
    requires witness { (witness.table_id ≡ J.table) × (witness.me ≡ (newcomer (ids rights_count), [])) }
    requires ledgers { AreOf L.name_of L.all blanks × (L.all ≡ 2 ^ 32) }
{
    let (shared, mut one) = opened::<J, L>(alloc, history, witness, blanks)?;
    let two = one.split(shared.history(), 1);
    let lent = &shared;
    let (one, two) = thread::join(
        rt,
        move || -> Result<Mine<L>>
            requires { (one.witness.table_id ≡ J.table) × (one.witness.me.1 ≡ []) × (0 < times (writes_right 0) one.witness.me.0.has)
                × (one.session.shares.parts ≡ 2 ^ 32 - 1) }
            ensures { IfOk result (λ s. (s.witness.table_id ≡ J.table) × (s.witness.me.1 ≡ []) × (s.session.shares.parts ≡ 2 ^ 32 - 1)) }
        { put_all(rt, alloc, lent, one) },
        move || -> Result<(Mine<L>, bool)>
            requires { (two.witness.table_id ≡ J.table) × (two.witness.me.1 ≡ []) × (two.session.shares.parts ≡ 1) }
            ensures { IfOk result (λ r. (r.0.witness.table_id ≡ J.table) × (r.0.witness.me.1 ≡ []) × (r.0.session.shares.parts ≡ 1)) }
        { load_all(rt, alloc, lent, two) },
    );
    let mut one = one?;
    let (two, is_right) = two?;
    one.join(shared.history(), two);
    let last = value_of(rt, alloc, &shared, &mut one, 7)?;
    Ok((is_right, last))
}

#[test]
fn a_session_loads_what_another_put(rt: HostRuntime) -> std::result::Result<(), Fail> {
    let alloc = rt.alloc();
    let (history, witness) = open_history(alloc)?;
    let ran = run::<Brand, Brand>(&rt, alloc, history, witness, Blanks::new(1 << 32));
    assert_eq!(rt; ran?, (true, Some(99)));
    Ok(())
}

#[test]
fn a_thread_loads_what_another_puts(rt: HostRuntime) -> std::result::Result<(), Fail> {
    let alloc = rt.alloc();
    let (history, witness) = open_history(alloc)?;
    let blanks = Blanks::new(1 << 32);
    let ran = run_by_two::<Brand, Brand, HostRuntime>(&rt, alloc, history, witness, blanks);
    assert_eq!(rt; ran?, (true, Some(299)));
    Ok(())
}
