//! What holds of every run that a history records.
ghost use Rattle.foyer_core_told.specs.ToldSteps.{OpeningIsTold, StepGoesOn, LeavesCore, LeavesDisk};
ghost use Rattle.foyer_core_told.specs.ToldLoads.{RunsAreCounted, AnswersToldNewest};
ghost use Rattle.foyer_core_told.specs.ToldMisses.{LooksUpToldNewest, EndsAsToldNewest, LookUpMissesAreCaused, EndMissesAreCaused};
ghost use Rattle.foyer_core_told.specs.ToldQueued.{LeftIsWritten};
ghost use Rattle.foyer_core_told.specs.ToldRights.{RightsAreThere, RightsKeepTheirParts};

use std::alloc::Allocator;

/// Whatever an opening found, over any disk: a history of this opening alone records a run.
pub fn opening_is_told<K, V, P, A: Allocator, D>()
    ensures { OpeningIsTold K V P A D }
{}

/// Take a core that stands for what the history recorded before some accesses. Take a step of this core whose report is true in each
/// recorded run. If the history records a run before the step, it records one after it. The core that an opening or a step left stands for
/// the state to which each recorded run leads.
pub fn step_goes_on<K, V, P, A: Allocator, D>()
    ensures goes_on { StepGoesOn K V P A D }
    ensures leaves { LeavesCore K V P A D }
{}

/// Right after an opening, a write or a clean, every recorded run has the bytes of the disk that this event left.
pub fn disk_is_left<K, V, P, A: Allocator, D>()
    ensures { LeavesDisk K V P A D }
{}

/// The rights of the core, of the disk, and of each flusher and block that 32 bits count are there from the start. The rights of writes, of
/// cleans and of a reclaim's reads have different numbers.
pub fn rights_are_there()
    ensures { RightsAreThere }
{}

/// While a thread has a right, no event of another thread changes what the right is for. For a read and for a clean this is so once it was
/// issued.
pub fn rights_keep_their_parts<K, V, P, A: Allocator, D>()
    ensures { RightsKeepTheirParts K V P A D }
{}

/// In each recorded run, the number of the next ticket and the count of steps are those of the history.
pub fn runs_are_counted<K, V, P, A: Allocator, D>()
    ensures { RunsAreCounted K V P A D }
{}

/// If a load ends with an entry by the bytes of its own read, it was the newest put of its hash at the look-up. This holds whatever threads
/// did before and between.
pub fn answers_told_newest<K, V, P, A: Allocator, D>()
    ensures { AnswersToldNewest K V P A D }
{}

/// While fewer than 2^64 - 1 steps count, a newest put is missed only for a cause. Either the history records the cause, or an opening
/// found the record and it is damaged.
pub fn misses_told_only<K, V, P, A: Allocator, D>()
    ensures looks_up { LooksUpToldNewest K V P A D }
    ensures ends { EndsAsToldNewest K V P A D }
{}

/// So if a put that is newest and not damaged is missed, the history records the cause. A reclaim of its block began, or a destroy cleared
/// the index between the look-up and the end. This holds while fewer than 2^64 - 1 steps count.
pub fn misses_are_caused<K, V, P, A: Allocator, D>()
    ensures looks_up { LookUpMissesAreCaused K V P A D }
    ensures ends { EndMissesAreCaused K V P A D }
{}

/// Take a hash whose queued pieces had all left their flusher when a batch of it ended. Each of these pieces was written or deleted, or
/// something newer of the hash was. The exceptions: since the piece was queued, a batch failed or a destroy cleared the index.
pub fn left_is_written<K, V, P, A: Allocator, D>()
    ensures { LeftIsWritten K V P A D }
{}
