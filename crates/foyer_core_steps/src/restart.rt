//! What a core has that is opened on the bytes which a run of a core left.
ghost use Rattle.std.specs.Prelude.{◌≡◌, ◌⊎◌, ℕ, Bool, List, Some};
ghost use Rattle.foyer_io_disk.specs.Disk.{SurelyCame};
ghost use Rattle.foyer_core_steps.specs.Reopened.{IsReopened, HasAgain, HasNewer, BeginsWithNewest};
ghost use Rattle.foyer_core_steps.specs.declared.state.Core.{Core};
ghost use Rattle.foyer_core_model.specs.Record.{Address, Indexed};
ghost use Rattle.foyer_core_model.specs.State.{Writing};
ghost use Rattle.foyer_core_model.specs.World.{World};
ghost use Rattle.foyer_block_recover.specs.declared.block.recover.RecoverMode.{RecoverMode};
ghost use Rattle.foyer_core_flusher.specs.Restart.{IsWriting, IsBeingWritten};
ghost use Rattle.foyer_core_flusher.specs.Content.{Content};
ghost use Rattle.foyer_core_flusher.specs.Sizes.{AreValid};
ghost use Rattle.foyer_core_flusher.specs.Settings.{Settings};

use foyer_io_disk::disk::Disk;

/// About a core that `Core::open` gave on the bytes that a run of a core left at a stop. It has the same sizes, and was opened without
/// marks. The disk's bytes are known. The run began empty, no batch and no read of a reclaim failed, and nothing was reinserted. Bytes at a
/// scanned place that pass as an index are one that the run wrote, or began to write, there.
///
/// Take an address that the run's index had. The new core's index has it, or a newer record of its hash, unless the address's block was
/// being written. If no flusher was writing a block, the new index has it. If the new index has it, what is newest of its hash is what was
/// newest at the stop.
///
/// The mode is `Strict`, or it is `Quiet` and no read of an index could fail. None could if the disk surely has each place at which an
/// index fits. None could either if each such place surely lies in the disk, and the disk's count of faults didn't change. The count must
/// be below 2^64 - 1.
pub fn reopening_finds<K, V, P, A, D: Disk>()
    ensures again { (is_key is_value : List ℕ → Bool) (s : Settings) (sound : AreValid s) (w : World Content) (disk after : D)
        (mode : RecoverMode) (core : Core K V P A) (h : ℕ) (a : Address)
        → IsReopened is_key is_value s sound w (D.byte_at disk) (SurelyCame (D.surely_has disk) (D.surely_lies disk) (D.faults disk) (D.faults after)) (D.is_known disk) mode core
        → w.core.index h ≡ Some (Indexed a) → (IsBeingWritten w.core a.block → ⊥)
        → HasAgain core h a ⊎ HasNewer w (D.byte_at disk) core h a }
    ensures all { (is_key is_value : List ℕ → Bool) (s : Settings) (sound : AreValid s) (w : World Content) (disk after : D)
        (mode : RecoverMode) (core : Core K V P A) (h : ℕ) (a : Address)
        → IsReopened is_key is_value s sound w (D.byte_at disk) (SurelyCame (D.surely_has disk) (D.surely_lies disk) (D.faults disk) (D.faults after)) (D.is_known disk) mode core
        → w.core.index h ≡ Some (Indexed a) → ((f : ℕ) (r : Writing Content) → IsWriting w.core f r → ⊥)
        → HasAgain core h a }
    ensures newest { (is_key is_value : List ℕ → Bool) (s : Settings) (sound : AreValid s) (w : World Content) (disk after : D)
        (mode : RecoverMode) (core : Core K V P A) (h : ℕ) (a : Address)
        (is : IsReopened is_key is_value s sound w (D.byte_at disk) (SurelyCame (D.surely_has disk) (D.surely_lies disk) (D.faults disk) (D.faults after)) (D.is_known disk) mode core)
        → w.core.index h ≡ Some (Indexed a) → HasAgain core h a
        → BeginsWithNewest is_key is_value s sound w (D.byte_at disk) (is.opened).found h }
{}
