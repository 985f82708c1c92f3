//! What holds of every run of a core, for every code and all sizes that go together.
pub use foyer_core_returns::{core_queued_are_found, ended_is_gone, nothing_returns};
pub use foyer_core_steps::laws::{
    answers_only, demands_are_met, headline, missed_only, opening_begins, puts_are_queued, restart,
    restart_idle, restart_keeps_newest, steps_keep_their_clauses,
};
