//! The store: a keeper of the pieces that aren't written yet, in front of an engine.
pub use foyer_storage_build::builder::StoreBuilder;
pub use foyer_storage_build::cores::engines::{TwoEngines, is_high};
pub use foyer_storage_build::cores::kinds::{CoreBlanks, CoreKinds};
pub use foyer_storage_build::cores::sessions::{CallerSession, TwoSessions};
pub use foyer_storage_build::counters::{AbandonedPuts, StoreCounters};
pub use foyer_storage_build::running::{JoinWorkers, RunningEngine, TwoWorkers, beside};
pub use foyer_storage_build::session::StoreSession;
pub use foyer_storage_build::store::Store;
pub use foyer_storage_build::threads::workers::Workers;
pub use foyer_storage_build::whole::WholeSession;
