//! Recovery, and the gate that threads of an engine pass.
pub use foyer_block_recover::block::listing::{BlockListing, Listings};
pub use foyer_block_recover::block::recover::{RecoverMode, RecoverRunner, Recovered};
pub use foyer_io_gate::gate::{Gate, GatedDisk, OpenGate, Point};
