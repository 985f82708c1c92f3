//! What an opening finds of a run that was stopped at any moment.
#![tactic(auto)]

ghost use Rattle.std.specs.Prelude.{◌≡◌, Bool, true, List};
ghost use Rattle.foyer_core_model.specs.Record.{Record};
ghost use Rattle.foyer_core_model.specs.Position.{Position, BlockLayout};
ghost use Rattle.foyer_core_model.specs.Rules.{Rules};
ghost use Rattle.foyer_core_restart.specs.Laid.{LaidIdleLaw, LaidRestartLaw};
ghost use Rattle.foyer_core_restart.specs.Newest.{LaidNewestLaw};
ghost use Rattle.foyer_core_restart.specs.Real.{IsFormat};
ghost use Rattle.foyer_core_restart.specs.Restart.{IdleLaw, RestartLaw};
ghost use Rattle.foyer_core_restart.specs.Splits.{RealIdleLaw, RealRestartLaw, SplitIsReal};
ghost use Rattle.foyer_core_restart.specs.Torn.{FindsAfterTorn, ReachesTorn};
ghost use Rattle.foyer_core_restart.specs.Total.{ListsExist, OpensUnlessLast};
ghost use Rattle.foyer_core_restart.specs.Witness.{ReachesIndexed};

use std::alloc::Allocator;

/// A run is stopped at any moment, and the bytes that it left are opened. Each address that the index had, and whose block wasn't being
/// written, is found again, or a newer record of its hash is found.
///
/// Conditions: the run began with nothing found. In it no write, no reclaim's read and no batch failed, and nothing was reinserted. The
/// bytes have no stray index. No read of the opening fails, it has no marks, and its mode isn't `None`.
pub fn restart_law<C, A: Allocator>()
    ensures { (rules : Rules C) (splits : Position → List (Record C) → List (BlockLayout C) → Bool) (is_value : C → Bool)
        → RestartLaw A rules (λ f rs ss. splits f rs ss ≡ true) (λ c. is_value c ≡ true) }
{}

/// With the conditions of `restart_law`, and if no block was being written at the stop, each address that the index had is found again.
pub fn idle_law<C, A: Allocator>()
    ensures { (rules : Rules C) (splits : Position → List (Record C) → List (BlockLayout C) → Bool) (is_value : C → Bool)
        → IdleLaw A rules (λ f rs ss. splits f rs ss ≡ true) (λ c. is_value c ≡ true) }
{}

/// The restart law, if the splitter places each batch.
pub fn real_restart_law<C, A: Allocator>()
    ensures { (rules : Rules C) (is_value : C → Bool) → RealRestartLaw A rules (λ c. is_value c ≡ true) }
{}

/// The same, if no block was being written.
pub fn real_idle_law<C, A: Allocator>()
    ensures { (rules : Rules C) (is_value : C → Bool) → RealIdleLaw A rules (λ c. is_value c ≡ true) }
{}

/// The restart law, if each batch is laid out as the splitter does it, over the model's own records.
pub fn laid_restart_law<C>()
    ensures { (rules : Rules C) (is_value : C → Bool) → LaidRestartLaw rules (λ c. is_value c ≡ true) }
{}

/// The same, if no block was being written.
pub fn laid_idle_law<C>()
    ensures { (rules : Rules C) (is_value : C → Bool) → LaidIdleLaw rules (λ c. is_value c ≡ true) }
{}

/// Take a world opened over the bytes of a stopped run, and an address that is found again. The newest event of the address's hash is the
/// one that was newest at the stop.
pub fn laid_newest_law<C>()
    ensures { (rules : Rules C) (is_value : C → Bool) → LaidNewestLaw rules (λ c. is_value c ≡ true) }
{}

/// Whatever the splitter places is a placing of the model.
pub fn split_is_real<C, A: Allocator>()
    ensures { (rules : Rules C) → IsFormat rules → SplitIsReal A rules }
{}

/// Every block lists some entries, maybe none, whatever its bytes are and whichever reads fail.
pub fn lists_exist<C>()
    ensures { (rules : Rules C) → IsFormat rules → ListsExist rules }
{}

/// If no read fails and there are no marks, an opening of any bytes gives an index, unless what it keeps has the last sequence.
pub fn opens_unless_last<C>()
    ensures { (rules : Rules C) → IsFormat rules → OpensUnlessLast rules }
{}

/// The laws speak of something: a run that goes well leaves an address in the index.
pub fn reaches_indexed<A: Allocator>()
    ensures { ReachesIndexed A }
{}

/// The laws also speak of a stop inside writes. Such a run is stopped with two flushers each inside a write, one of data and one of a
/// blob's index. The core's index has an address whose block neither flusher writes.
pub fn reaches_torn<A: Allocator>()
    ensures { ReachesTorn A }
{}

/// An opening of the bytes of such a stop as in `reaches_torn` finds the address again, or a newer record of its hash. No read of it fails,
/// it has no marks, and its mode isn't `None`.
pub fn finds_after_torn<A: Allocator>()
    ensures { FindsAfterTorn A }
{}
