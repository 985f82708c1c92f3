//! What a condition or a filter answers.
ghost use Rattle.std.specs.Prelude.{◌↔◌, IsTrue};
ghost use Rattle.foyer_policy_filter.specs.Verdict.{IsAdmit, IsReject};

use std::time::Duration;

/// What a condition or a filter answers.
#[derive(Clone, Copy, Debug, PartialEq, Eq)]
pub enum StorageFilterResult {
    /// The entry is let in.
    Admit,
    /// The entry isn't let in.
    Reject,
    /// The device is throttled: the entry may be tried again once this much time has passed.
    Throttled(Duration),
}

impl StorageFilterResult {
    /// Whether the entry is let in.
    pub fn is_admitted(&self) -> bool
        ensures { IsTrue result ↔ IsAdmit self.now }
    {
        matches!(self, StorageFilterResult::Admit)
    }

    /// Whether the entry is rejected.
    pub fn is_rejected(&self) -> bool
        ensures { IsTrue result ↔ IsReject self.now }
    {
        matches!(self, StorageFilterResult::Reject)
    }
}
