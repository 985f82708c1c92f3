//! The accesses of a core's tickets and writes, done at a disk.
ghost use Rattle.std.specs.Prelude.{◌≡◌, length, vec_len, IsOk, IfOk, IfErr, OnOk, OnErr, ℕ, ◌≤◌};
ghost use Rattle.foyer_core_steps.specs.Issuing.{written_bytes};
ghost use Rattle.foyer_io_disk.specs.Disk.{IsRead, IsWritten, IsTorn, SurelyCame};

use foyer_block_index::manager::BlockId;
use foyer_core_steps::reply::Write;
use foyer_core_steps::step::Ticket;
use foyer_device_page::error::Result;
use foyer_io_disk::disk::Disk;
use std::alloc::{AllocError, Allocator};
use std::mem::replace;

/// Does the read that a ticket issues, into the memory of `spare`, which grows if it is too small. The outer `Err` is a refused allocation,
/// and drops that memory. The inner result is the disk's. A fault leaves the memory in `spare`.
pub fn do_read<A: Allocator, D: Disk>(
    alloc: A,
    disk: &mut D,
    ticket: &Ticket,
    spare: &mut Vec<u8, A>,
) -> std::result::Result<Result<Vec<u8, A>>, AllocError>
    ensures read { D.is_known disk.old → IfOk result (λ outcome. IfOk outcome (λ bytes.
        IsRead (D.byte_at disk.old) ticket.now.address.block ticket.now.address.offset bytes.items)) }
    ensures len { IfOk result (λ outcome. IfOk outcome (λ bytes.
        vec_len bytes ≡ ticket.now.address.len)) }
    ensures succeeds { D.surely_has disk.old ticket.now.address.block ticket.now.address.offset ticket.now.address.len
        → IfOk result IsOk }
    ensures fails { IfOk result (λ outcome. OnErr outcome (SurelyCame (D.surely_has disk.old) (D.surely_lies disk.old) (D.faults disk.old) (D.faults disk.new)
        ticket.now.address.block ticket.now.address.offset ticket.now.address.len → ⊥)) }
    ensures within { IfOk result (λ outcome. OnOk outcome (D.may_have disk.old ticket.now.address.block ticket.now.address.offset ticket.now.address.len)) }
    ensures fault { IfOk result (λ outcome. IfErr outcome (D.may_answer disk.old ticket.now.address.block ticket.now.address.offset ticket.now.address.len)) }
    ensures known { D.is_known disk.old → D.is_known disk.new }
    ensures has { (b o n : ℕ) → D.surely_has disk.old b o n → D.surely_has disk.new b o n }
    ensures lies { (b o n : ℕ) → D.surely_lies disk.old b o n → D.surely_lies disk.new b o n }
    ensures counted { D.faults disk.old ≤ D.faults disk.new }
    ensures same { D.byte_at disk.new ≡ D.byte_at disk.old }
{
    let len = ticket.read_len();
    let mut buffer = replace(spare, Vec::new(alloc));
    buffer.resize(len, 0)?;
    let (block, offset) = (ticket.address.block, ticket.address.offset as usize);
    let (buffer, outcome) = disk.read(block, offset, buffer);
    match outcome {
        Ok(()) => Ok(Ok(buffer)),
        Err(error) => {
            *spare = buffer;
            Ok(Err(error))
        }
    }
}

/// Does a write that a reply issues. An error may leave any bytes in the write's range.
pub fn do_write<A: Allocator, D: Disk>(disk: &mut D, block: BlockId, write: &Write<A>) -> Result<()>
    ensures wrote { D.is_known disk.old → OnOk result
        (IsWritten (D.byte_at disk.old) block write.now.offset (written_bytes write.now.bytes) (D.byte_at disk.new)) }
    ensures torn { D.is_known disk.old → OnErr result
        (IsTorn (D.byte_at disk.old) block write.now.offset (length (written_bytes write.now.bytes)) (D.byte_at disk.new)) }
    ensures known { D.is_known disk.old → D.is_known disk.new }
    ensures has { (b o n : ℕ) → D.surely_has disk.old b o n → D.surely_has disk.new b o n }
    ensures lies { (b o n : ℕ) → D.surely_lies disk.old b o n → D.surely_lies disk.new b o n }
    ensures counted { D.faults disk.old ≤ D.faults disk.new }
    ensures succeeds { D.surely_has disk.old block write.now.offset (length (written_bytes write.now.bytes)) → IsOk result }
    ensures fails { OnErr result (SurelyCame (D.surely_has disk.old) (D.surely_lies disk.old) (D.faults disk.old) (D.faults disk.new)
        block write.now.offset (length (written_bytes write.now.bytes)) → ⊥) }
    ensures within { OnOk result (D.may_have disk.old block write.now.offset (length (written_bytes write.now.bytes))) }
    ensures fault { IfErr result (D.may_answer disk.old block write.now.offset (length (written_bytes write.now.bytes))) }
{
    disk.write(block, write.offset, write.bytes.as_slice())
}
