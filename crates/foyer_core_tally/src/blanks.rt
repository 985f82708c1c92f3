//! New ledgers.
ghost use Rattle.std.specs.Prelude.{◌≡◌};

use std::sync::ledger::Blank;

/// Eight new ledgers, none of which is open yet.
#[derive(Drop)]
pub struct Blanks {
    // How many parts each has.
    pub(crate) parts: u64,
    pub(crate) queued: Blank,
    pub(crate) dropped: Blank,
    pub(crate) deleted: Blank,
    pub(crate) read: Blank,
    pub(crate) look_up_miss: Blank,
    pub(crate) entry: Blank,
    pub(crate) end_miss: Blank,
    pub(crate) other: Blank,
    ghost counted: { parts ≡ queued.parts },
}

impl Blanks {
    /// Gives eight new ledgers of `parts` parts each.
    pub fn new(parts: u64) -> Blanks
        ensures { (result.queued.parts ≡ parts) × (result.dropped.parts ≡ parts) × (result.deleted.parts ≡ parts) × (result.read.parts ≡ parts) × (result.look_up_miss.parts ≡ parts) × (result.entry.parts ≡ parts) × (result.end_miss.parts ≡ parts) × (result.other.parts ≡ parts) }
    {
        Blanks {
            parts,
            queued: Blank::new(parts),
            dropped: Blank::new(parts),
            deleted: Blank::new(parts),
            read: Blank::new(parts),
            look_up_miss: Blank::new(parts),
            entry: Blank::new(parts),
            end_miss: Blank::new(parts),
            other: Blank::new(parts),
        }
    }
}
