//! Which block is reclaimed next.
pub use foyer_block_manager::block::eviction::{
    AnyPicker, BuiltInPicker, EvictionInfo, EvictionPicker, FifoPicker, InvalidRatioPicker,
};
