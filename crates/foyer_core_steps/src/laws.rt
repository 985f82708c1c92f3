//! What holds of every run of a core: the laws of the model, for every code and all sizes that go together.
//!
//! The contract of `Core::apply` says which step of the model each call is, and that of `Core::open` in which state the model begins.
ghost use Rattle.std.specs.Prelude.{◌≡◌, ℕ, Bool, List, []};
ghost use Rattle.foyer_core_steps.specs.Opened.{IsOpened};
ghost use Rattle.foyer_core_steps.specs.StateOf.{IsStateOf};
ghost use Rattle.foyer_core_steps.specs.declared.state.Core.{Core};
ghost use Rattle.foyer_block_recover.specs.Opening.{Opened};
ghost use Rattle.foyer_block_recover.specs.Placed.{IsOpening};
ghost use Rattle.foyer_core_flusher.specs.Begins.{opened_state};
ghost use Rattle.foyer_core_flusher.specs.Content.{Meaning};
ghost use Rattle.foyer_core_flusher.specs.CoreRules.{rules_of};
ghost use Rattle.foyer_core_flusher.specs.Headline.{Begins};
ghost use Rattle.foyer_core_flusher.specs.Sizes.{AreValid, sizes_in};
ghost use Rattle.foyer_core_flusher.specs.Settings.{Settings};

pub use foyer_core_flusher::core_laws::laws::{
    answers_only, demands_are_met, headline, missed_only, puts_are_queued, steps_keep_their_clauses,
};
pub use foyer_core_flusher::core_laws::restart::{restart, restart_idle, restart_keeps_newest};

/// Take what an opening found, with any marks of deletes. The core opened with it stands for the state of the model that has it. Over any
/// bytes, the laws begin with a world of that state.
pub fn opening_begins<K, V, P, A>()
    ensures stands { (m : Meaning K V P) (s : Settings) (sound : AreValid s) (marks : List (ℕ × ℕ)) (o : Opened) (core : Core K V P A)
        → IsOpening (sizes_in s) s.blocks marks o → IsOpened s o core
        → IsStateOf m s core (opened_state (rules_of m.is_key m.is_value s sound) o) }
    ensures opened { (is_key is_value : List ℕ → Bool) (s : Settings) (sound : AreValid s) → Begins is_key is_value s sound }
{}
