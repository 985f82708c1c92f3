//! What an engine's loads read from.
ghost use Rattle.std.specs.Prelude.{◌≡◌, ◌≤◌, IfErr, IfOk, IsOk, OnErr, OnOk, vec_len, ℕ};
ghost use Rattle.foyer_io_disk.specs.Disk.{IsRead, IsTorn, SurelyCame};
ghost use Rattle.foyer_core_model.specs.Numbers.{page};
ghost use Rattle.foyer_core_access.specs.Reclaims.{IsCleaned};
ghost use Rattle.foyer_device_page.specs.declared.error.Error.{Error as error};
ghost use Rattle.foyer_storage_engine.specs.Accessing.{IsCleanedBy, IsReadBy};

use foyer_block_index::manager::BlockId;
use foyer_core_access::disk::do_read;
use foyer_core_access::reclaims::BlockCleaner;
use foyer_core_shared::core_steps::step::Ticket;
use foyer_device_page::error::Result;
use foyer_io_disk::disk::Disk;
use std::alloc::Allocator;

// A disk that loads read from, and the memory that they read into.
pub(super) struct Reader<D: Disk + Drop, A: Allocator> {
    pub(super) disk: D,
    pub(super) spare: Vec<u8, A>,
    pub(super) alloc: A,
}

// Written out, so that it is proved once.
impl<D: Disk + Drop, A: Allocator> Drop for Reader<D, A> {
    fn drop(self) {
        let Reader {
            disk: _,
            spare: _,
            alloc: _,
        } = self;
    }
}

impl<D: Disk + Drop, A: Allocator + Clone> Reader<D, A> {
    // Does the read of a ticket, as `do_read` does. `Err` is a refused allocation.
    pub(super) fn read(&mut self, ticket: &Ticket) -> Result<Result<Vec<u8, A>>>
        ensures read { D.is_known self.old.disk → IfOk result (λ outcome. IfOk outcome (λ bytes.
            IsRead (D.byte_at self.old.disk) ticket.now.address.block ticket.now.address.offset bytes.items)) }
        ensures len { IfOk result (λ outcome. IfOk outcome (λ bytes. vec_len bytes ≡ ticket.now.address.len)) }
        ensures succeeds { D.surely_has self.old.disk ticket.now.address.block ticket.now.address.offset ticket.now.address.len
            → IfOk result IsOk }
        ensures fails { IfOk result (λ outcome. OnErr outcome (SurelyCame (D.surely_has self.old.disk) (D.surely_lies self.old.disk) (D.faults self.old.disk) (D.faults self.new.disk)
            ticket.now.address.block ticket.now.address.offset ticket.now.address.len → ⊥)) }
        ensures fault { IfOk result (λ outcome. IfErr outcome (D.may_answer self.old.disk ticket.now.address.block
            ticket.now.address.offset ticket.now.address.len)) }
        ensures by { IfOk result (IsReadBy D.is_known D.byte_at D.may_answer ticket.now) }
        ensures known { D.is_known self.old.disk → D.is_known self.new.disk }
        ensures has { (b o n : ℕ) → D.surely_has self.old.disk b o n → D.surely_has self.new.disk b o n }
        ensures lies { (b o n : ℕ) → D.surely_lies self.old.disk b o n → D.surely_lies self.new.disk b o n }
        ensures counted { D.faults self.old.disk ≤ D.faults self.new.disk }
        ensures same { D.byte_at self.new.disk ≡ D.byte_at self.old.disk }
        ensures refused { IfErr result (λ e. e ≡ error.Memory) }
    {
        let alloc = self.alloc.clone()?;
        Ok(do_read(alloc, &mut self.disk, ticket, &mut self.spare)?)
    }

    // Cleans a block: its first page becomes zeros.
    pub(super) fn clean(&mut self, block: BlockId) -> Result<()>
        ensures cleaned { D.is_known self.old.disk → OnOk result (IsCleaned (D.byte_at self.old.disk) block (D.byte_at self.new.disk)) }
        ensures torn { D.is_known self.old.disk → OnErr result (IsTorn (D.byte_at self.old.disk) block 0 page (D.byte_at self.new.disk)) }
        ensures fails { OnErr result (SurelyCame (D.surely_has self.old.disk) (D.surely_lies self.old.disk) (D.faults self.old.disk) (D.faults self.new.disk)
            block 0 page → ⊥) }
        ensures by { IsCleanedBy D.is_known D.byte_at D.surely_has D.surely_lies D.faults block result }
        ensures known { D.is_known self.old.disk → D.is_known self.new.disk }
        ensures lies { (b o n : ℕ) → D.surely_lies self.old.disk b o n → D.surely_lies self.new.disk b o n }
        ensures counted { D.faults self.old.disk ≤ D.faults self.new.disk }
    {
        BlockCleaner::clean(&mut self.disk, block)
    }
}
