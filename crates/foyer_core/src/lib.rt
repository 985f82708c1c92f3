//! The core: one reply to each step, and no access of its own; how it is run over a disk; how threads share it; and its laws.
//!
//! It re-exports its parts, `foyer_core_steps`, `foyer_core_flusher`, `foyer_core_access`, `foyer_core_run`, `foyer_core_shared`,
//! `foyer_core_tally` and `foyer_core_returns`, and has no code of its own.
#![tactic(auto)]

pub mod accesses;
pub mod block;
pub mod laws;

pub use foyer_core_run::moves::{Move, run};
pub use foyer_core_shared::brief::{Brief, ReplyBrief, StepBrief};
pub use foyer_core_shared::locked::Locked;
pub use foyer_core_shared::notes::{KeepsNotes, NoNotes, Notes, Noting};
pub use foyer_core_shared::session::Session;
pub use foyer_core_shared::shared::Shared;
pub use foyer_core_steps::apply::Env;
pub use foyer_core_steps::load::Judged;
pub use foyer_core_steps::reply::Reply;
pub use foyer_core_steps::settings::Settings;
pub use foyer_core_steps::state::Core;
pub use foyer_core_steps::step::{Step, Ticket};
pub use foyer_core_tally::book::{Blanks, Books, Kinds, Shares};
pub use foyer_core_tally::kinds::StepKind;
