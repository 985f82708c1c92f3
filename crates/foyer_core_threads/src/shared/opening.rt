//! An opening, recorded as the first event of the history.
ghost use Rattle.std.specs.Prelude.{◌≡◌, ◌≢◌, ◌⊎◌, ◌<◌, ℕ, [], ◌∷◌, IfErr, IfOk};
ghost use Rattle.foyer_block_recover.specs.Recovery.{marks_of};
ghost use Rattle.foyer_block_recover.specs.declared.block.recover.RecoverMode.TheVariants as recover_mode;
ghost use Rattle.foyer_core_chronicle.specs.Rights.{times};
ghost use Rattle.foyer_core_chronicle.specs.SharedHistory.{newcomer};
ghost use Rattle.foyer_core_model.specs.Ids.{ids};
ghost use Rattle.foyer_core_laws.specs.Sizes.{AreValid};
ghost use Rattle.foyer_core_steps.specs.Opened.{IsOpenedFrom};
ghost use Rattle.foyer_core_steps.specs.declared.state.Core.{Core};
ghost use Rattle.foyer_core_told.specs.ToldSteps.{IsOpeningOf};
ghost use Rattle.foyer_device_page.specs.declared.error.Error.TheVariants.{Config, Memory, Recover, SequenceEnd};
ghost use Rattle.foyer_io_disk.specs.Disk.{SurelyCame};
ghost use Rattle.foyer_core_tally.specs.Ledgers.{AreOf};
ghost use Rattle.foyer_core_tally.specs.Tally.{none};
ghost use Rattle.foyer_core_laws.specs.Content.{meaning};
ghost use Rattle.foyer_core_threads.specs.Asking.{HasSizes};
ghost use Rattle.foyer_core_told.specs.ToldRights.{disk_right, rights_count};

use super::ToldShared;
use crate::queued::NoneQueued;
use crate::session::ToldSession;
use foyer_block_index::tombstone::Tombstone;
use foyer_block_manager::block::eviction::EvictionPicker;
use foyer_block_recover::block::listing::Listings;
use foyer_core_shared::locked::Locked;
use foyer_core_shared::notes::Noting;
use foyer_core_steps::apply::Env;
use foyer_core_steps::open::RecoverMode;
use foyer_core_steps::settings::Settings;
use foyer_core_tally::book::{Blanks, Kinds};
use foyer_core_told::history::{ToldHistory, ToldWitness};
use foyer_device_page::error::Result;
use foyer_format_record::serde::{Code, Properties};
use foyer_io_disk::disk::Disk;
use foyer_io_told::disk::HistoryName;
use foyer_policy_filter::StorageFilterCondition;
use std::alloc::Allocator;

impl<J, L, K, V, P, A, E, C, N, D> ToldShared<J, L, K, V, P, A, E, C, N, D>
where
    J: HistoryName,
    L: Kinds,
    K: Code<A> + Drop,
    V: Code<A> + Drop,
    P: Properties + Drop,
    A: Allocator + Clone,
    E: EvictionPicker,
    C: StorageFilterCondition,
    N: Noting,
    D: Disk + Drop,
{
    /// Opens a core over a disk whose bytes are known, as `Locked::open` does. The first event of a new history is this opening of a core
    /// from the disk's bytes. The session has all parts, and all rights of flushers and blocks.
    pub fn open(
        history: ToldHistory<K, V, P, A, D>,
        witness: ToldWitness<K, V, P, A, D>,
        alloc: A,
        env: Env<E, C>,
        settings: Settings,
        disk: D,
        mode: RecoverMode,
        marks: &[Tombstone],
        blanks: Blanks,
    ) -> Result<
        (
            ToldShared<J, L, K, V, P, A, E, C, N, D>,
            ToldSession<L, K, V, P, A, D>,
        ),
    >
        requires history { history.table.shared.table_id ≡ J.table }
        requires witness { (witness.table_id ≡ J.table) × (witness.me ≡ (newcomer (ids rights_count), [])) }
        requires known { D.is_known disk }
        requires ledgers { AreOf L.name_of L.all blanks }
        ensures session { IfOk result (λ r. r.1.session.shares ≡ record { parts = L.all; amounts = none }) }
        ensures whole { IfOk result (λ r. (r.1.witness.table_id ≡ J.table) × (r.1.witness.me.1 ≡ [])) }
        ensures seen { IfOk result (λ r. (core : Core K V P A) × (over : D) × (e : _) × IsOpeningOf core over e × (r.1.witness.me.0.seen ≡ e ∷ [])
            × (D.byte_at over ≡ D.byte_at disk)
            × IsOpenedFrom settings (D.byte_at disk) (SurelyCame (D.surely_has disk) (D.surely_lies disk) (D.faults disk) (D.faults over)) mode (marks_of marks.now)
            ((mode ≡ recover_mode.None) ⊎ D.is_known disk) core) }
        ensures sizes { IfOk result (λ r. HasSizes (meaning K.encoding V.encoding K.is_encodable V.is_encodable K.is_decodable V.is_decodable P.age) D.byte_at r.1.witness.me.0.seen settings) }
        ensures sound { IfOk result (λ _. AreValid settings) }
        ensures refused { IfErr result (λ e. (e ≡ Memory) ⊎ ((e ≡ Config) × (AreValid settings → ⊥))
            ⊎ ((e ≡ Recover) × (mode ≡ recover_mode.Strict)) ⊎ ((e ≡ SequenceEnd) × (mode ≡ recover_mode.None → marks.now ≢ []))) }
        ensures rights { IfOk result (λ r. (k : ℕ) → disk_right < k → k < rights_count → 0 < times k r.1.witness.me.0.has) }
    {
        let mut disk = disk;
        let listings = Listings::none(alloc.clone()?);
        let spare = Vec::new(alloc.clone()?);
        let none = NoneQueued::new(&alloc, settings.flushers)?;
        let opened = Locked::open(
            alloc, env, settings, &mut disk, mode, marks, listings, blanks,
        );
        let (locked, session) = match opened {
            Ok(opened) => opened,
            Err(error) => return Err(error),
        };
        Ok(ToldShared::new(history, witness, locked, session, disk, spare, none))
    }
}
