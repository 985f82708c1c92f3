//! What a store's loads answer while pieces are queued: a law of every run.
#![tactic(auto)]

ghost use Rattle.std.specs.Prelude.{◌≡◌, ℕ, Bool, true, List};
ghost use Rattle.foyer_core_model.specs.Record.{Record};
ghost use Rattle.foyer_core_model.specs.Position.{Position, BlockLayout};
ghost use Rattle.foyer_core_model.specs.Rules.{Rules};
ghost use Rattle.foyer_core_store_runs.specs.StoreLaw.{QueuedAreFound};

/// Suppose that a piece of a key is queued and not released. If the keeper has a piece of the key, it is this piece or a newer one. If it
/// has none, no later look-up reads an older entry.
pub fn queued_are_found<C, Q>()
    ensures { (same : Q → Q → Bool) (key_of : C → Q) (hash_of : Q → ℕ)
        (rules : Rules C) (splits : Position → List (Record C) → List (BlockLayout C) → Bool) (is_value : C → Bool)
        → QueuedAreFound same key_of hash_of rules (λ f rs ss. splits f rs ss ≡ true) (λ c. is_value c ≡ true) }
{}
