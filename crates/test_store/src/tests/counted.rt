//! The counters of a store, by words.
use foyer_program::store::counters::{AbandonedPuts, StoreCounters};
use foyer_testing::said::Said;

fn say_puts(said: &mut Said, counts: &StoreCounters) {
    said.number("queued ", counts.queued_puts);
    said.number(" ignored ", counts.ignored_puts);
    said.number(" dropped ", counts.dropped_puts);
    said.number(" rejected ", counts.rejected_puts);
    said.number(" returned ", counts.returned_puts);
    said.number(" deletes ", counts.deletes);
}

fn say_loads(said: &mut Said, counts: &StoreCounters) {
    said.number("kept ", counts.memory_hits);
    said.number(" read ", counts.device_hits);
    said.number(" missed ", counts.misses);
    said.number(" throttled ", counts.throttled_loads);
}

fn say_blocks(said: &mut Said, counts: &StoreCounters) {
    said.number("failed ", counts.failed_blocks);
    said.number(" reclaimed ", counts.reclaims);
    said.number(" again ", counts.reinsertions);
}

fn say_log(said: &mut Said, counts: &StoreCounters) {
    said.number("failed appends ", counts.failed_appends);
}

fn say_written(said: &mut Said, counts: &StoreCounters) {
    said.number("wrote ", counts.disk_write_bytes);
    said.number(" in ", counts.disk_write_ios);
}

fn say_read(said: &mut Said, counts: &StoreCounters) {
    said.number("read ", counts.disk_read_bytes);
    said.number(" in ", counts.disk_read_ios);
}

/// Notes how many puts were abandoned: for a failed write, for memory, and for want of room.
pub(crate) fn say_abandoned(said: &mut Said, abandoned: &AbandonedPuts) {
    said.number("abandoned ", abandoned.by_writes);
    said.number(" ", abandoned.by_memory);
    said.number(" ", abandoned.by_room);
}

/// Notes some of them.
pub(crate) fn say_counts(said: &mut Said, counts: &StoreCounters, word: &str) {
    match word {
        "puts" => say_puts(said, counts),
        "loads" => say_loads(said, counts),
        "batches" => said.number("batches ", counts.batches),
        "blocks" => say_blocks(said, counts),
        "log" => say_log(said, counts),
        "written" => say_written(said, counts),
        "read" => say_read(said, counts),
        _ => said.word("?"),
    }
}
