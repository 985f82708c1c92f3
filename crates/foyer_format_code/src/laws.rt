//! What is encoded reads back as itself.
pub use crate::codes::{
    bool_read_back, bytes_read_back, code_vectors, i8_read_back, i16_read_back, i32_read_back,
    i64_read_back, i128_read_back, isize_read_back, string_read_back, u8_read_back, u16_read_back,
    u32_read_back, u64_read_back, u128_read_back, usize_read_back,
};
