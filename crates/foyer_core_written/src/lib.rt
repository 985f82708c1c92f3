//! What became of the pieces that were queued: laws of every run.
#![tactic(auto)]

ghost use Rattle.std.specs.Prelude.{◌≡◌, ℕ, Bool, true, List};
ghost use Rattle.foyer_core_model.specs.Record.{Record};
ghost use Rattle.foyer_core_model.specs.Position.{Position, BlockLayout};
ghost use Rattle.foyer_core_model.specs.Rules.{Rules};
ghost use Rattle.foyer_core_written.specs.Written.{PastStays, QueuedAreWritten, ReturnsQueued};

/// Take a queued piece whose flusher has no batch and has returned enough pieces to pass the piece's place. Pieces that it returned from
/// the front of its queue since its last batch began don't count. Then the piece was written or deleted, or something newer of its hash
/// was. The exceptions: since the piece was queued, a batch failed or a destroy cleared the index. Once this is so it stays so, with the
/// same exceptions. A flusher returns no more pieces than were queued at it.
pub fn queued_are_written<C>()
    ensures written { (rules : Rules C) (splits : Position → List (Record C) → List (BlockLayout C) → Bool) (is_value : C → Bool)
        → QueuedAreWritten rules (λ f rs ss. splits f rs ss ≡ true) (λ c. is_value c ≡ true) }
    ensures stays { (rules : Rules C) (splits : Position → List (Record C) → List (BlockLayout C) → Bool) (is_value : C → Bool)
        → PastStays rules (λ f rs ss. splits f rs ss ≡ true) (λ c. is_value c ≡ true) }
    ensures returns { (rules : Rules C) (splits : Position → List (Record C) → List (BlockLayout C) → Bool) (is_value : C → Bool)
        → ReturnsQueued rules (λ f rs ss. splits f rs ss ≡ true) (λ c. is_value c ≡ true) }
{}
