//! A condition of any kind, and one of those of this crate.
use crate::conditions::{AdmitAll, EstimatedSize, IoThrottle, RejectAll};
use crate::filter::StorageFilterCondition;
use crate::verdict::StorageFilterResult;
use foyer_device_statistics::IoState;

/// One of the conditions of this crate, held by value.
#[derive(Drop)]
pub enum BuiltInCondition {
    /// Admits each entry.
    AdmitAll(AdmitAll),
    /// Rejects each entry.
    RejectAll(RejectAll),
    /// Throttles if the device asks for a wait before the next write.
    IoThrottle(IoThrottle),
    /// Admits entries of some sizes.
    EstimatedSize(EstimatedSize),
}

impl StorageFilterCondition for BuiltInCondition {
    ghost use Rattle.foyer_policy_filter.specs.BuiltIn.{MayAnswerBuiltIn};

    ghost may_answer = { λ c io _ size a. MayAnswerBuiltIn c io size a };

    fn filter(&self, io: &IoState, hash: u64, size: usize) -> StorageFilterResult {
        match self {
            BuiltInCondition::AdmitAll(condition) => condition.filter(io, hash, size),
            BuiltInCondition::RejectAll(condition) => condition.filter(io, hash, size),
            BuiltInCondition::IoThrottle(condition) => condition.filter(io, hash, size),
            BuiltInCondition::EstimatedSize(condition) => condition.filter(io, hash, size),
        }
    }
}

/// One of the conditions of this crate, or another one that the caller has boxed.
#[derive(Drop)]
pub enum AnyCondition {
    /// One of this crate.
    BuiltIn(BuiltInCondition),
    /// One of the caller's, which the threads of a store share.
    Boxed(Box<dyn StorageFilterCondition + Send + Sync>),
}

impl StorageFilterCondition for AnyCondition {
    ghost use Rattle.foyer_policy_filter.specs.BuiltIn.{MayAnswerBuiltIn};
    ghost use Rattle.foyer_policy_filter.specs.declared.any.AnyCondition.TheVariants.{BuiltIn, Boxed};

    ghost may_answer = { λ c io hash size a. elim c as (λ _. Type 0) [
      | BuiltIn q ↦ MayAnswerBuiltIn q io size a
      | Boxed q ↦ (StorageFilterCondition-box q).may_answer q.value io hash size a
    ] };

    fn filter(&self, io: &IoState, hash: u64, size: usize) -> StorageFilterResult {
        match self {
            AnyCondition::BuiltIn(condition) => condition.filter(io, hash, size),
            AnyCondition::Boxed(condition) => condition.filter(io, hash, size),
        }
    }
}
