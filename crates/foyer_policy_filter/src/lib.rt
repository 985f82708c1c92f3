//! Which entries are let in: a filter asks its conditions, in order, about an entry. A condition is given the entry's hash
//! and size, and what the device did.
//!
//! If a condition rejects, the filter rejects, and asks no further. Else it adds up the waits of the throttled conditions, and the sum
//! saturates. The filter is throttled by the sum if it isn't zero, and admits if it is zero. So a filter without conditions admits, and a
//! throttled condition doesn't keep the filter from asking the next ones.
//!
//! Callers write conditions of their own as a `StorageFilterCondition`, whose interface names the answers that it may
//! give. The conditions of a filter have one type: `BuiltInCondition`, which is one of those here; `AnyCondition`, which can
//! also be a boxed one; or any other.
#![tactic(auto)]

pub mod any;
pub mod conditions;
pub mod filter;
pub mod verdict;

pub use any::{AnyCondition, BuiltInCondition};
pub use conditions::{AdmitAll, EstimatedSize, IoThrottle, RejectAll};
pub use filter::{StorageFilter, StorageFilterCondition};
pub use verdict::StorageFilterResult;
