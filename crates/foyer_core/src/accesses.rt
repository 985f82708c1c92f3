//! Runs a core over a disk: single calls that make the accesses which replies ask for, and runs that begin with an opening or end with a
//! reopening.
pub use foyer_core_access::disk::{do_read, do_write};
pub use foyer_core_run::accesses::{load, step, write_block};
pub use foyer_core_run::batches::begin_batch;
pub use foyer_core_run::destroys::clear_blocks;
pub use foyer_core_run::opened::open_and_run;
pub use foyer_core_run::reclaims::reclaim_block;
pub use foyer_core_run::stopped::{Reopened, run_and_reopen};
