//! A disk with the witness of its lock.
ghost use Rattle.std.specs.Prelude.{◌≡◌, ◌<◌, [], ◌∷◌, IfErr, IfOk, is_ok};
ghost use Rattle.foyer_core_chronicle.specs.Rights.{times};
ghost use Rattle.foyer_core_model.specs.Access.{ReadIssued, ReadDone, CleanIssued, CleanDone};
ghost use Rattle.foyer_core_flusher.specs.Issuing.{write_of};
ghost use Rattle.foyer_core_laws.specs.Content.{meaning};
ghost use Rattle.foyer_core_steps.specs.Asked.{came_of};
ghost use Rattle.foyer_core_told.specs.ToldLoads.{IsReadOf};
ghost use Rattle.foyer_core_told.specs.ToldRights.{disk_right, writes_right, clean_right, scan_right, ticket_right};
ghost use Rattle.foyer_core_told.specs.Telling.{HasGoneOn};
ghost use Rattle.foyer_io_told.specs.ToldAccess.{IsScanOf, IsWriteOf, IsCleanOf, LiesAt, HasTicket, HasScan, HasWrites, HasClean, HasWritten};

use foyer_block_index::manager::BlockId;
use foyer_core_access::disk::{do_read, do_write};
use foyer_core_access::reclaims::{BlockCleaner, Part, read_bytes};
use foyer_core_chronicle::RightNumber;
use foyer_core_steps::reply::Write;
use foyer_core_steps::step::Ticket;
use foyer_core_told::event::Told;
use foyer_core_told::history::{ToldHistory, ToldWitness};
use foyer_device_page::error::Result;
use foyer_format_record::serde::{Code, Properties};
use foyer_io_disk::disk::Disk;
use std::alloc::{AllocError, Allocator};
use std::marker::{Brand, Model, PhantomData};
use std::snapshot::Snapshot;

/// The number of the disk's right.
pub struct DiskRight;

impl RightNumber for DiskRight {
    ghost use Rattle.foyer_core_told.specs.ToldRights.{disk_right};

    ghost right = { disk_right };
}

/// Names a history by its table. For a call that passes `Brand`, the caller's proof picks the table.
pub trait HistoryName {
    ghost use Rattle.atomic_table.specs.Seated.{TableId};

    ghost table: { TableId };
}

impl HistoryName for Brand {
    ghost use Rattle.foyer_io_told.specs.ToldAccess.{no_table};

    ghost table = { no_table };
}

/// A disk whose bytes are known, with the witness that adds its accesses to the history. It lies behind a lock.
pub struct ToldDisk<J, K, V, P, A, D>
where
    J: HistoryName,
    K: Code<A>,
    V: Code<A>,
    P: Properties,
    A: Allocator,
    D: Disk,
{
    disk: D,
    // For the next read.
    spare: Vec<u8, A>,
    witness: ToldWitness<K, V, P, A, D>,
    name: PhantomData<J>,
}

// Written out, so that it is proved once.
impl<J, K, V, P, A, D> Drop for ToldDisk<J, K, V, P, A, D>
where
    J: HistoryName,
    K: Code<A>,
    V: Code<A>,
    P: Properties,
    A: Allocator,
    D: Disk + Drop,
{
    fn drop(self) {
        let ToldDisk {
            disk: _,
            spare: _,
            witness: _,
            name: _,
        } = self;
    }
}

impl<J, K, V, P, A, D> Model for ToldDisk<J, K, V, P, A, D>
where
    J: HistoryName,
    K: Code<A>,
    V: Code<A>,
    P: Properties,
    A: Allocator,
    D: Disk,
{
    ghost use Rattle.std.specs.Prelude.{◌≡◌, ◌<◌, []};
    ghost use Rattle.foyer_core_chronicle.specs.Rights.{times};
    ghost use Rattle.foyer_core_laws.specs.Content.{meaning};
    ghost use Rattle.foyer_core_told.specs.ToldRights.{disk_right};
    ghost use Rattle.foyer_io_told.specs.ToldAccess.{LiesAt};

    ghost Value = { Unit {0} };

    ghost view = { λ d. tt };

    ghost invariant = { λ d. (d.witness.table_id ≡ J.table) × (d.witness.me.1 ≡ []) × (0 < times disk_right d.witness.me.0.has) × D.is_known d.disk
        × LiesAt (meaning K.encoding V.encoding K.is_encodable V.is_encodable K.is_decodable V.is_decodable P.age) D.byte_at d.witness.me.0.seen d.disk };
}

impl<J, K, V, P, A, D> ToldDisk<J, K, V, P, A, D>
where
    J: HistoryName,
    K: Code<A> + Drop,
    V: Code<A> + Drop,
    P: Properties,
    A: Allocator + Clone,
    D: Disk,
{
    /// Makes the disk of a history. Requires that the disk's bytes are known, and that the witness has the disk's right. The events that
    /// the witness has seen must lead to these bytes.
    pub fn new(
        disk: D,
        spare: Vec<u8, A>,
        witness: ToldWitness<K, V, P, A, D>,
    ) -> ToldDisk<J, K, V, P, A, D>
        requires history { (witness.table_id ≡ J.table) × (witness.me.1 ≡ []) }
        requires right { 0 < times disk_right witness.me.0.has }
        requires known { D.is_known disk }
        requires told { LiesAt (meaning K.encoding V.encoding K.is_encodable V.is_encodable K.is_decodable V.is_decodable P.age) D.byte_at witness.me.0.seen disk }
    {
        ToldDisk {
            disk,
            spare,
            witness,
            name: PhantomData,
        }
    }

    /// Does the read of a ticket, and adds the read to the history. Requires that the caller has the ticket's right, and that the read was
    /// issued and isn't done. `Err` is a refused allocation: then nothing is added.
    pub fn read(
        &mut self,
        history: &ToldHistory<K, V, P, A, D>,
        mine: &mut ToldWitness<K, V, P, A, D>,
        alloc: A,
        number: u64,
        ticket: &Ticket,
    ) -> std::result::Result<Result<Vec<u8, A>>, AllocError>
        requires history { history.now.table.shared.table_id ≡ J.table }
        requires mine { (mine.old.table_id ≡ J.table) × (mine.old.me.1 ≡ []) }
        requires right { 0 < times (ticket_right number) mine.old.me.0.has }
        requires ticket { HasTicket (meaning K.encoding V.encoding K.is_encodable V.is_encodable K.is_decodable V.is_decodable P.age) D.byte_at mine.old.me.0.seen number ticket.now ReadIssued }
        ensures mine { (mine.new.table_id ≡ J.table) × (mine.new.me.1 ≡ []) }
        ensures told { IfOk result (λ outcome. HasGoneOn (meaning K.encoding V.encoding K.is_encodable V.is_encodable K.is_decodable V.is_decodable P.age) D.byte_at mine.old.me.0 mine.new.me.0 (λ e. IsReadOf e number outcome)) }
        ensures read { IfOk result (λ outcome. HasTicket (meaning K.encoding V.encoding K.is_encodable V.is_encodable K.is_decodable V.is_decodable P.age) D.byte_at mine.new.me.0.seen number ticket.now (ReadDone (came_of outcome))) }
        ensures untold { IfErr result (λ _. mine.new ≡ mine.old) }
    {
        let outcome = match do_read(alloc, &mut self.disk, ticket, &mut self.spare) {
            Ok(outcome) => outcome,
            Err(error) => return Err(error),
        };
        let event = Told::Reads {
            number,
            outcome: Snapshot::of(&outcome),
        };
        history.add_with::<DiskRight>(&mut self.witness, mine, &event);
        Ok(outcome)
    }

    /// Does a read for the reclaim of a block, and adds the read to the history. Requires that the caller has the right of the block's
    /// reads, and that this read was issued and isn't done. If memory for the read is refused, that is a fault of the read, too.
    pub fn scan(
        &mut self,
        history: &ToldHistory<K, V, P, A, D>,
        mine: &mut ToldWitness<K, V, P, A, D>,
        alloc: &A,
        block: BlockId,
        part: Part,
    ) -> Result<Vec<u8, A>>
        requires history { history.now.table.shared.table_id ≡ J.table }
        requires mine { (mine.old.table_id ≡ J.table) × (mine.old.me.1 ≡ []) }
        requires right { 0 < times (scan_right block) mine.old.me.0.has }
        requires scan { HasScan (meaning K.encoding V.encoding K.is_encodable V.is_encodable K.is_decodable V.is_decodable P.age) D.byte_at mine.old.me.0.seen block part ReadIssued }
        ensures mine { (mine.new.table_id ≡ J.table) × (mine.new.me.1 ≡ []) }
        ensures told { HasGoneOn (meaning K.encoding V.encoding K.is_encodable V.is_encodable K.is_decodable V.is_decodable P.age) D.byte_at mine.old.me.0 mine.new.me.0 (λ e. IsScanOf e block result) }
        ensures scanned { HasScan (meaning K.encoding V.encoding K.is_encodable V.is_encodable K.is_decodable V.is_decodable P.age) D.byte_at mine.new.me.0.seen block part (ReadDone (came_of result)) }
    {
        let outcome = read_bytes(alloc, &mut self.disk, block, part);
        let event = Told::Scans {
            block,
            outcome: Snapshot::of(&outcome),
        };
        history.add_with::<DiskRight>(&mut self.witness, mine, &event);
        outcome
    }

    /// Does the next write of a flusher, and adds the write to the history, even if it fails. Requires that the caller has the right of the
    /// flusher's writes, and that this write is the next one issued. After a write that failed, any bytes may be in its range.
    pub fn write(
        &mut self,
        history: &ToldHistory<K, V, P, A, D>,
        mine: &mut ToldWitness<K, V, P, A, D>,
        flusher: u32,
        block: BlockId,
        write: &Write<A>,
    ) -> Result<()>
        requires history { history.now.table.shared.table_id ≡ J.table }
        requires mine { (mine.old.table_id ≡ J.table) × (mine.old.me.1 ≡ []) }
        requires right { 0 < times (writes_right flusher) mine.old.me.0.has }
        requires write { (results : _) × (left : _) × HasWrites (meaning K.encoding V.encoding K.is_encodable V.is_encodable K.is_decodable V.is_decodable P.age) D.byte_at mine.old.me.0.seen flusher block results (write_of write.now ∷ left) }
        ensures mine { (mine.new.table_id ≡ J.table) × (mine.new.me.1 ≡ []) }
        ensures told { (disk : D) × HasGoneOn (meaning K.encoding V.encoding K.is_encodable V.is_encodable K.is_decodable V.is_decodable P.age) D.byte_at mine.old.me.0 mine.new.me.0 (λ e. IsWriteOf e flusher (is_ok result) disk) }
        ensures wrote { HasWritten (meaning K.encoding V.encoding K.is_encodable V.is_encodable K.is_decodable V.is_decodable P.age) D.byte_at mine.old.me.0 mine.new.me.0 flusher block (write_of write.now) (is_ok result) }
    {
        let outcome = do_write(&mut self.disk, block, write);
        let went_well = outcome.is_ok();
        let event = Told::Writes {
            flusher,
            is_ok: went_well,
            disk: Snapshot::of(&self.disk),
        };
        history.add_with::<DiskRight>(&mut self.witness, mine, &event);
        outcome
    }

    /// Cleans a block, and adds the clean to the history, even if it fails. Requires that the caller has the right of the block's clean,
    /// and that the clean was issued and isn't done. After a clean that failed, any bytes may be in the block's first page.
    pub fn clean(
        &mut self,
        history: &ToldHistory<K, V, P, A, D>,
        mine: &mut ToldWitness<K, V, P, A, D>,
        block: BlockId,
    ) -> Result<()>
        requires history { history.now.table.shared.table_id ≡ J.table }
        requires mine { (mine.old.table_id ≡ J.table) × (mine.old.me.1 ≡ []) }
        requires right { 0 < times (clean_right block) mine.old.me.0.has }
        requires clean { HasClean (meaning K.encoding V.encoding K.is_encodable V.is_encodable K.is_decodable V.is_decodable P.age) D.byte_at mine.old.me.0.seen block CleanIssued }
        ensures mine { (mine.new.table_id ≡ J.table) × (mine.new.me.1 ≡ []) }
        ensures told { (disk : D) × HasGoneOn (meaning K.encoding V.encoding K.is_encodable V.is_encodable K.is_decodable V.is_decodable P.age) D.byte_at mine.old.me.0 mine.new.me.0 (λ e. IsCleanOf e block (is_ok result) disk) }
        ensures cleaned { HasClean (meaning K.encoding V.encoding K.is_encodable V.is_encodable K.is_decodable V.is_decodable P.age) D.byte_at mine.new.me.0.seen block (CleanDone (is_ok result)) }
    {
        let outcome = BlockCleaner::clean(&mut self.disk, block);
        let went_well = outcome.is_ok();
        let event = Told::Cleans {
            block,
            is_ok: went_well,
            disk: Snapshot::of(&self.disk),
        };
        history.add_with::<DiskRight>(&mut self.witness, mine, &event);
        outcome
    }
}
