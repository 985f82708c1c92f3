//! Buffers of whole pages, and ranges of them that have several owners.

mod raw;
mod slices;
mod slices_mut;
mod views;

pub use raw::{PAGE, Raw};
pub use slices::IoSlice;
pub use slices_mut::IoSliceMut;
pub use views::{IoB, IoBuf, IoBufMut};
