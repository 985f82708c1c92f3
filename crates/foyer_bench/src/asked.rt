//! Marks of keys that were asked for, and a filter that has the records of marked keys written again.
ghost use Rattle.std.specs.Prelude.{◌≡◌, ◌<◌, IfOk, length};

use foyer_device_page::error::Result;
use foyer_device_statistics::IoState;
use foyer_policy_filter::{StorageFilterCondition, StorageFilterResult};
use std::alloc::Global;
use std::sync::Arc;
use std::sync::atomic::{AtomicBool, Ordering};

/// Marks for keys that were asked for. Two keys share a mark if their hashes have the same remainder modulo the number of marks.
#[derive(Drop)]
pub struct AskedKeys {
    marks: Vec<AtomicBool>,
    ghost some: { 0 < length marks.items },
}

impl AskedKeys {
    /// Makes the marks for this many keys, at least one mark. No key is marked as asked for. Errors: `Memory`.
    pub fn new(alloc: Global, keys: u64) -> Result<AskedKeys> {
        let mut marks = Vec::new(alloc);
        marks.push(AtomicBool::new(false))?;
        for _ in 1..keys {
            marks.push(AtomicBool::new(false))?;
        }
        Ok(AskedKeys { marks })
    }

    fn mark_of(&self, hash: u64) -> &AtomicBool {
        let count = self.marks.len() as u64;
        &self.marks[(hash % count) as usize]
    }

    /// Marks a key as asked for.
    pub fn mark(&self, hash: u64) {
        self.mark_of(hash).store(true, Ordering::Relaxed);
    }

    /// Gives whether a key is marked as asked for, and removes its mark.
    pub fn take(&self, hash: u64) -> bool {
        self.mark_of(hash).swap(false, Ordering::Relaxed)
    }
}

/// Admits a record if its key is marked as asked for, and removes the mark. Rejects all others.
#[derive(Drop)]
pub struct AskedAgain {
    pub asked: Arc<AskedKeys, Global>,
}

impl StorageFilterCondition for AskedAgain {
    ghost use Rattle.std.specs.Prelude.{◌⊎◌};
    ghost use Rattle.foyer_policy_filter.specs.Verdict.{IsAdmit, IsReject};

    ghost may_answer = { λ _ _ _ _ a. IsAdmit a ⊎ IsReject a };

    fn filter(&self, _io: &IoState, hash: u64, _size: usize) -> StorageFilterResult {
        if self.asked.take(hash) {
            StorageFilterResult::Admit
        } else {
            StorageFilterResult::Reject
        }
    }
}
