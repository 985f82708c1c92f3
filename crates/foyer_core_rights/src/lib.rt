//! What threads do to a core and its disk, each access in one go under a lock, and which part of the world each right keeps.
#![tactic(auto)]

ghost use Rattle.std.specs.Prelude.{◌≡◌, Bool, true, List};
ghost use Rattle.foyer_core_model.specs.Position.{Position, BlockLayout};
ghost use Rattle.foyer_core_model.specs.Record.{Record};
ghost use Rattle.foyer_core_model.specs.Rules.{Rules};
ghost use Rattle.foyer_core_rights.specs.Frames.{FramesHold, AllIssuedStays};
ghost use Rattle.foyer_core_rights.specs.Serving.{LosesByReclaim, Serves};

/// A deed that doesn't take a right leaves that right's part of the world as it is. Exceptions: a reclaim's read is replaced if another
/// reclaim of its block begins. A clean that is done is replaced if it is issued again.
pub fn frames_hold<C>()
    ensures { FramesHold C }
{}

/// No read for a reclaim and no clean is issued again before it is reported.
pub fn issued_stays<C>()
    ensures { (rules : Rules C) (splits : Position → List (Record C) → List (BlockLayout C) → Bool) (is_value : C → Bool)
        → AllIssuedStays rules (λ f rs ss. splits f rs ss ≡ true) (λ c. is_value c ≡ true) }
{}

/// While a put is newest, the block of its commit is lost only to that block's reclaim.
pub fn loses_by_reclaim<C>()
    ensures { LosesByReclaim C }
{}

/// What a thread does by its right may happen. A load that ends with an entry gives what its look-up was promised.
pub fn serves<C>()
    ensures { (rules : Rules C) (splits : Position → List (Record C) → List (BlockLayout C) → Bool) (is_value : C → Bool)
        → Serves rules (λ f rs ss. splits f rs ss ≡ true) (λ c. is_value c ≡ true) }
{}
