//! The model of the core, the world round it, and what holds of every run. Laws about worlds that are reached ask that the codes and the
//! layout meet `Demands`.
#![tactic(auto)]

ghost use Rattle.std.specs.Prelude.{◌≡◌, Bool, true, List};
ghost use Rattle.foyer_core_model.specs.Record.{Record};
ghost use Rattle.foyer_core_model.specs.Position.{Position, BlockLayout};
ghost use Rattle.foyer_core_model.specs.Rules.{Rules};
ghost use Rattle.foyer_core_model.specs.Laws.{AnswersOnly, AnswersNewest, MissedOnly, MissedNewest, PutsAreQueued, PromisesStay};
ghost use Rattle.foyer_core_model.specs.Witness.{ReachesEveryReply};
ghost use Rattle.foyer_core_model.specs.Companions.{QueueKeeps, CommitKeeps, ReclaimKeeps, NotNowKeeps, IsDetermined, InTurnReplies, WidthsStay, ListsClean};

/// Whatever steps are applied, and whichever reads and writes fail, a load answers only the record that was newest of its hash at its
/// look-up.
pub fn answers_only<C>()
    ensures { (rules : Rules C) (splits : Position → List (Record C) → List (BlockLayout C) → Bool) (is_value : C → Bool)
        → AnswersOnly rules (λ f rs ss. splits f rs ss ≡ true) (λ c. is_value c ≡ true) }
{}

/// The same for a whole run, from the load's look-up to its end.
pub fn answers_newest<C>()
    ensures { (rules : Rules C) (splits : Position → List (Record C) → List (BlockLayout C) → Bool) (is_value : C → Bool)
        → AnswersNewest rules (λ f rs ss. splits f rs ss ≡ true) (λ c. is_value c ≡ true) }
{}

/// A newest committed record is answered, unless the load was throttled, its read failed, or memory was refused. Exception: since the
/// record's last commit, a reclaim of its block began, or a destroy cleared the index. A recovered record that is broken is a miss. One
/// that isn't supported or doesn't decode is refused. After 2^64 - 1 steps each step is refused.
pub fn missed_only<C>()
    ensures { (rules : Rules C) (splits : Position → List (Record C) → List (BlockLayout C) → Bool) (is_value : C → Bool)
        → MissedOnly rules (λ f rs ss. splits f rs ss ≡ true) (λ c. is_value c ≡ true) }
{}

/// The same for a whole run, from the load's look-up to its end.
pub fn missed_newest<C>()
    ensures { (rules : Rules C) (splits : Position → List (Record C) → List (BlockLayout C) → Bool) (is_value : C → Bool)
        → MissedNewest rules (λ f rs ss. splits f rs ss ≡ true) (λ c. is_value c ≡ true) }
{}

/// A load's promise is the newest event of its hash at the moment when its read was issued. No later event changes the promise or the
/// ticket.
pub fn promises_stay<C>()
    ensures { (rules : Rules C) (splits : Position → List (Record C) → List (BlockLayout C) → Bool) (is_value : C → Bool)
        → PromisesStay rules (λ f rs ss. splits f rs ss ≡ true) (λ c. is_value c ≡ true) }
{}

/// Each put in the history was recovered by the opening, or has the content of the Enqueue that was queued under its hash and sequence.
pub fn puts_are_queued<C>()
    ensures { (rules : Rules C) (splits : Position → List (Record C) → List (BlockLayout C) → Bool) (is_value : C → Bool)
        → PutsAreQueued rules (λ f rs ss. splits f rs ss ≡ true) (λ c. is_value c ≡ true) }
{}

/// The core ignores a piece only if it is young, and drops one only if too much is queued. It returns a received piece only if the piece
/// doesn't fit or isn't encodable.
pub fn queue_clause<C>()
    ensures { (rules : Rules C) (splits : Position → List (Record C) → List (BlockLayout C) → Bool)
        → QueueKeeps rules (λ f rs ss. splits f rs ss ≡ true) }
{}

/// A flush lays out all that was received, and issues the writes of each block. When the last write of a block is reported and the index
/// takes its records, each piece of the block is put. If the batch fails, nothing is put.
pub fn commit_clause<C>()
    ensures { (rules : Rules C) (splits : Position → List (Record C) → List (BlockLayout C) → Bool)
        → CommitKeeps rules (λ f rs ss. splits f rs ss ≡ true) }
{}

/// A reclaim begins only at an evictable block, if blocks are wanted, a reclaimer is free, and no destroy cleans.
pub fn reclaim_clause<C>()
    ensures { (rules : Rules C) (splits : Position → List (Record C) → List (BlockLayout C) → Bool)
        → ReclaimKeeps rules (λ f rs ss. splits f rs ss ≡ true) }
{}

/// The core returns a step only if the step is out of turn, or if there is a cause to refuse it. A returned step changes nothing.
pub fn not_now_clause<C>()
    ensures { (rules : Rules C) (splits : Position → List (Record C) → List (BlockLayout C) → Bool)
        → NotNowKeeps rules (λ f rs ss. splits f rs ss ≡ true) }
{}

/// The state afterwards is determined by the state before, the step and the reply: each choice stands in the reply.
pub fn is_determined<C>()
    ensures { (rules : Rules C) (splits : Position → List (Record C) → List (BlockLayout C) → Bool)
        → IsDetermined rules (λ f rs ss. splits f rs ss ≡ true) }
{}

/// In every world that is reached, before the limit of steps, each step in turn has a reply other than `NotNow`. It may be a refusal.
pub fn in_turn_replies<C>()
    ensures { (rules : Rules C) (splits : Position → List (Record C) → List (BlockLayout C) → Bool) (is_value : C → Bool)
        → InTurnReplies rules (λ f rs ss. splits f rs ss ≡ true) (λ c. is_value c ≡ true) }
{}

/// Whatever is queued, buffered, in a batch or indexed has a hash and a sequence of 64 bits.
pub fn widths_stay<C>()
    ensures { (rules : Rules C) (splits : Position → List (Record C) → List (BlockLayout C) → Bool) (is_value : C → Bool)
        → WidthsStay rules (λ f rs ss. splits f rs ss ≡ true) (λ c. is_value c ≡ true) }
{}

/// The laws aren't vacuous: two runs of a small core, which meets what the laws demand, reach every kind of reply.
pub fn reaches_every_reply()
    ensures { ReachesEveryReply }
{}

/// The clean list is the clean set: a block is listed exactly if it is clean, and once.
pub fn lists_clean<C>()
    ensures { (rules : Rules C) (splits : Position → List (Record C) → List (BlockLayout C) → Bool) (is_value : C → Bool)
        → ListsClean rules (λ f rs ss. splits f rs ss ≡ true) (λ c. is_value c ≡ true) }
{}
