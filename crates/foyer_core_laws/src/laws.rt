//! What holds of every run of a core: the laws of the model, for every code and all sizes that go together.
//!
//! `Core::apply` says which step of this machine each call is, and `Core::open` where it begins.
ghost use Rattle.std.specs.Prelude.{◌≡◌, ℕ, Bool, List};
ghost use Rattle.foyer_core_model.specs.Companions.{QueueKeeps, CommitKeeps, NotNowKeeps, IsDetermined, InTurnReplies};
ghost use Rattle.foyer_core_model.specs.Laws.{Demands, AnswersOnly, AnswersNewest, MissedOnly, MissedNewest, PutsAreQueued};
ghost use Rattle.foyer_core_model.specs.Layout.{PlacesAll};
ghost use Rattle.foyer_core_laws.specs.Headline.{IsHeadline};
ghost use Rattle.foyer_core_laws.specs.CoreRules.{rules_of, layout, IsEncoded};
ghost use Rattle.foyer_core_settings.specs.Sizes.{AreValid};
ghost use Rattle.foyer_core_settings.specs.declared.settings.Settings.{Settings};

/// The laws' demands hold of every code, and of the layout of all sizes that go together. The bytes of a record read back as its content,
/// and after the writes of its block each record is where it was placed. Records that fit into a block can always be placed.
pub fn demands_are_met()
    ensures demands { (is_key is_value : List ℕ → Bool) (s : Settings) (sound : AreValid s)
        → Demands (rules_of is_key is_value s sound) (layout s) (IsEncoded is_key is_value) }
    ensures places { (is_key is_value : List ℕ → Bool) (s : Settings) (sound : AreValid s)
        → PlacesAll (rules_of is_key is_value s sound) (layout s) }
{}

/// The headline holds whatever steps are applied, and whichever reads, writes and allocations fail. A load answers only the record that was
/// newest of its hash at its look-up. A newest committed record is missed only for a cause that `MissedNewest` names. What an opening finds
/// begins a world of which these laws hold. Queueing, commits, reclaims and refusals keep their clauses.
pub fn headline()
    ensures { (is_key is_value : List ℕ → Bool) (s : Settings) (sound : AreValid s) → IsHeadline is_key is_value s sound }
{}

/// Whatever steps are applied, and whichever reads and writes fail, a load answers only the record that was newest of its hash at its
/// look-up.
pub fn answers_only()
    ensures entry { (is_key is_value : List ℕ → Bool) (s : Settings) (sound : AreValid s)
        → AnswersOnly (rules_of is_key is_value s sound) (layout s) (IsEncoded is_key is_value) }
    ensures run { (is_key is_value : List ℕ → Bool) (s : Settings) (sound : AreValid s)
        → AnswersNewest (rules_of is_key is_value s sound) (layout s) (IsEncoded is_key is_value) }
{}

/// A newest committed record is answered, unless the load was throttled, its read failed, or memory was refused. Exception: since the
/// record's last commit, a reclaim of its block began, or a destroy cleared the index. A recovered record that is broken is a miss. One
/// that isn't supported or doesn't decode is refused. After 2^64 - 1 steps each step is refused.
pub fn missed_only()
    ensures load { (is_key is_value : List ℕ → Bool) (s : Settings) (sound : AreValid s)
        → MissedOnly (rules_of is_key is_value s sound) (layout s) (IsEncoded is_key is_value) }
    ensures run { (is_key is_value : List ℕ → Bool) (s : Settings) (sound : AreValid s)
        → MissedNewest (rules_of is_key is_value s sound) (layout s) (IsEncoded is_key is_value) }
{}

/// Each put in the history was recovered by the opening, or has the content of the Enqueue that was queued under its hash and sequence.
pub fn puts_are_queued()
    ensures { (is_key is_value : List ℕ → Bool) (s : Settings) (sound : AreValid s)
        → PutsAreQueued (rules_of is_key is_value s sound) (layout s) (IsEncoded is_key is_value) }
{}

/// The clauses `queue_clause`, `commit_clause` and `not_now_clause` of `foyer_core_model` hold. The state afterwards is determined by the
/// state before, the step and the reply. Before the limit of steps, each step in turn has a reply other than `NotNow`.
pub fn steps_keep_their_clauses()
    ensures queue { (is_key is_value : List ℕ → Bool) (s : Settings) (sound : AreValid s)
        → QueueKeeps (rules_of is_key is_value s sound) (layout s) }
    ensures commit { (is_key is_value : List ℕ → Bool) (s : Settings) (sound : AreValid s)
        → CommitKeeps (rules_of is_key is_value s sound) (layout s) }
    ensures not_now { (is_key is_value : List ℕ → Bool) (s : Settings) (sound : AreValid s)
        → NotNowKeeps (rules_of is_key is_value s sound) (layout s) }
    ensures determined { (is_key is_value : List ℕ → Bool) (s : Settings) (sound : AreValid s)
        → IsDetermined (rules_of is_key is_value s sound) (layout s) }
    ensures replies { (is_key is_value : List ℕ → Bool) (s : Settings) (sound : AreValid s)
        → InTurnReplies (rules_of is_key is_value s sound) (layout s) (IsEncoded is_key is_value) }
{}
