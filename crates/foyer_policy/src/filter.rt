//! Filters: whether an entry is admitted.
pub use foyer_policy_filter::{
    AdmitAll, AnyCondition, BuiltInCondition, EstimatedSize, IoThrottle, RejectAll, StorageFilter,
    StorageFilterCondition, StorageFilterResult, conditions,
};
