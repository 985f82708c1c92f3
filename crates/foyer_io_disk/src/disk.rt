//! What the engine's reads and writes go to.
ghost use Rattle.std.specs.Prelude.{◌≡◌, ◌≤◌, ℕ, length, vec_len, IsOk, IfErr, OnOk, OnErr};
ghost use Rattle.foyer_device_page.specs.declared.error.Error.{Error as error};
ghost use Rattle.foyer_io_disk.specs.Disk.{IsRead, IsWritten, IsTorn, HasFailed};

use foyer_block_index::manager::BlockId;
use foyer_device_page::error::Result;
use std::alloc::Allocator;

/// Blocks of bytes. The bytes stay, except for what `write` changes.
pub trait Disk {
    // Whether contracts see its bytes. They don't see those of a system's files: nothing is claimed about what a read gives.
    ghost is_known: { Self → Type 0 };

    // The byte at an offset of a block.
    ghost byte_at: { Self → ℕ → ℕ → ℕ };

    // This many bytes from an offset of a block on can be read and written without a fault.
    ghost surely_has: { Self → ℕ → ℕ → ℕ → Type 0 };

    // How many of its accesses the device failed, as far as it counts.
    ghost faults: { Self → ℕ };

    // This many bytes from an offset of a block on surely lie in it. An access of them fails only if the device failed.
    ghost surely_lies: { Self → ℕ → ℕ → ℕ → Type 0 };

    // This many bytes from an offset of a block on may be there. By default any may be.
    ghost may_have: { Self → ℕ → ℕ → ℕ → Type 0 } = { λ _ _ _ _. Unit {0} };

    // The errors that an access of this many bytes from an offset of a block on may give. By default these are all.
    ghost may_answer: { Self → ℕ → ℕ → ℕ → error → Type 0 } = { λ _ _ _ _ _. Unit {0} };

    /// Fills the buffer with the bytes from `offset` of a block on, and returns the buffer. After an error the buffer may
    /// have any bytes.
    fn read<A: Allocator>(
        &mut self,
        block: BlockId,
        offset: usize,
        buffer: Vec<u8, A>,
    ) -> (Vec<u8, A>, Result<()>)
        ensures len { vec_len result.0 ≡ vec_len buffer }
        ensures read { is_known self.old
            → OnOk result.1 (IsRead (byte_at self.old) block offset result.0.items) }
        ensures known { is_known self.old → is_known self.new }
        ensures same { byte_at self.new ≡ byte_at self.old }
        ensures has { (b o n : ℕ) → surely_has self.old b o n → surely_has self.new b o n }
        ensures lies { (b o n : ℕ) → surely_lies self.old b o n → surely_lies self.new b o n }
        ensures counted { faults self.old ≤ faults self.new }
        ensures succeeds { surely_has self.old block offset (vec_len buffer) → IsOk result.1 }
        ensures faulted { surely_lies self.old block offset (vec_len buffer)
            → OnErr result.1 (HasFailed (faults self.old) (faults self.new)) }
        ensures within { OnOk result.1 (may_have self.old block offset (vec_len buffer)) }
        ensures fault { IfErr result.1 (may_answer self.old block offset (vec_len buffer)) };

    /// Writes the bytes over those from `offset` of a block on. After an error that range may have any bytes.
    fn write(&mut self, block: BlockId, offset: usize, bytes: &[u8]) -> Result<()>
        ensures wrote { is_known self.old
            → OnOk result (IsWritten (byte_at self.old) block offset bytes.now (byte_at self.new)) }
        ensures torn { is_known self.old
            → OnErr result (IsTorn (byte_at self.old) block offset (length bytes.now) (byte_at self.new)) }
        ensures known { is_known self.old → is_known self.new }
        ensures has { (b o n : ℕ) → surely_has self.old b o n → surely_has self.new b o n }
        ensures lies { (b o n : ℕ) → surely_lies self.old b o n → surely_lies self.new b o n }
        ensures counted { faults self.old ≤ faults self.new }
        ensures succeeds { surely_has self.old block offset (length bytes.now) → IsOk result }
        ensures faulted { surely_lies self.old block offset (length bytes.now)
            → OnErr result (HasFailed (faults self.old) (faults self.new)) }
        ensures within { OnOk result (may_have self.old block offset (length bytes.now)) }
        ensures fault { IfErr result (may_answer self.old block offset (length bytes.now)) };
}
