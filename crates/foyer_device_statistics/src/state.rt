//! Readings of the counters.
use std::time::Duration;

/// The counters and how long the limits make a caller wait, as one caller found them.
#[derive(Clone, Copy, Debug, PartialEq, Eq)]
pub struct IoState {
    /// Bytes written.
    pub disk_write_bytes: u64,
    /// Bytes read.
    pub disk_read_bytes: u64,
    /// Calls that wrote, as the counter of calls counts them.
    pub disk_write_ios: u64,
    /// Calls that read, counted in the same way.
    pub disk_read_ios: u64,
    /// How long to wait before the next write, or zero if no wait is needed.
    pub write_throttle: Duration,
    /// How long to wait before the next read.
    pub read_throttle: Duration,
    /// The system's number of the last write that failed, or 0 if there was none or the system gave no number.
    pub last_write_error: i32,
    /// The same of the last read that failed.
    pub last_read_error: i32,
}

/// All that was recorded.
#[derive(Clone, Copy, Debug, PartialEq, Eq)]
pub struct Totals {
    /// Bytes written.
    pub disk_write_bytes: u64,
    /// Bytes read.
    pub disk_read_bytes: u64,
    /// Calls that wrote, as the counter of calls counts them.
    pub disk_write_ios: u64,
    /// Calls that read, counted in the same way.
    pub disk_read_ios: u64,
}
