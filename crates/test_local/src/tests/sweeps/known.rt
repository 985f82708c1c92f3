//! What is known of a key, whatever one fault made of the calls before.

/// Which faults may still come.
#[derive(Clone, Copy)]
pub struct Due {
    // One of the blocks' accesses, or what else drops a batch.
    pub blocks: bool,
    // One of the log's accesses, which no answer names.
    pub log: bool,
    // A refused allocation.
    pub memory: bool,
}

/// No fault, or none any more.
pub const NOTHING_DUE: Due = Due {
    blocks: false,
    log: false,
    memory: false,
};

/// What is known of a key. A text is the line of its put, from 1 on; 0 is none.
#[derive(Clone, Copy)]
pub struct Known {
    // The text that a get answers without a fault.
    shown: u64,
    // The ones that it may answer instead.
    other: u64,
    third: u64,
    // Whether it may answer any that isn't older than `least`, or miss it.
    is_any: bool,
    // What a reopening finds without a fault, what it may find instead, and whether that may be any.
    stored: u64,
    spare: u64,
    is_torn: bool,
    // The line of the last destroy, or of the last delete whose mark is in the log.
    least: u64,
    // A bit for each text that was queued.
    texts: u64,
    // The newest text since the last wait, and the one before it, if there was one since then.
    queued: u64,
    before: u64,
    // The line of the newest delete since then.
    deleted: u64,
    // The line of the newest text since then that no block holds.
    great: u64,
}

pub const NOTHING_KNOWN: Known = Known {
    shown: 0,
    other: 0,
    third: 0,
    is_any: false,
    stored: 0,
    spare: 0,
    is_torn: false,
    least: 0,
    texts: 0,
    queued: 0,
    before: 0,
    deleted: 0,
    great: 0,
};

// The bit of a text.
fn bit_of(text: u64) -> u64 {
    1u64 << (text % 64)
}

pub fn after_put(known: Known, line: u64) -> Known {
    Known {
        texts: known.texts | bit_of(line),
        queued: line,
        before: known.queued,
        ..known
    }
}

/// Of a text that no block holds: a get answers the older text until this one is received.
pub fn after_great(known: Known, line: u64) -> Known {
    Known {
        great: line,
        ..known
    }
}

/// At once, also of a text that isn't taken; in the scripts nothing of the key is queued before a delete.
pub fn after_delete(known: Known, line: u64) -> Known {
    Known {
        shown: 0,
        other: 0,
        third: 0,
        is_any: false,
        queued: 0,
        before: 0,
        deleted: line,
        great: 0,
        ..known
    }
}

// A text that no block holds deletes its key as it is received.
fn received(known: Known) -> Known {
    if known.great == 0 {
        return known;
    }
    after_delete(known, known.great)
}

// The mark of a delete is in the log, unless the append failed.
fn with_mark(known: Known, due: Due) -> Known {
    if known.deleted == 0 {
        return known;
    }
    if due.log {
        return Known {
            spare: known.stored,
            stored: 0,
            deleted: 0,
            ..known
        };
    }
    Known {
        stored: 0,
        spare: 0,
        is_torn: false,
        least: known.deleted,
        deleted: 0,
        ..known
    }
}

/// Behind a wait or a close that went well: what was queued is written, unless the fault met its batch.
pub fn after_wait(known: Known, due: Due) -> Known {
    let known = with_mark(received(known), due);
    let text = known.queued;
    if text == 0 {
        return known;
    }
    let is_sure = !due.blocks;
    Known {
        shown: text,
        other: if is_sure { text } else { known.shown },
        third: text,
        stored: text,
        spare: if is_sure { text } else { known.stored },
        is_torn: known.is_torn && !is_sure,
        queued: 0,
        before: 0,
        ..known
    }
}

/// Behind one that was refused: what was queued may be written, or received, or not yet, and of two texts the older one alone.
pub fn after_fault(known: Known) -> Known {
    if known.great != 0 {
        return Known { other: 0, ..known };
    }
    if known.queued == 0 {
        return known;
    }
    Known {
        other: known.queued,
        third: if known.before == 0 {
            known.queued
        } else {
            known.before
        },
        ..known
    }
}

pub fn after_destroy(known: Known, line: u64) -> Known {
    Known {
        texts: known.texts,
        least: line,
        ..NOTHING_KNOWN
    }
}

/// Behind a destroy of which a clean failed: the blocks may have any text, but none is found before a reopening.
pub fn after_half_destroy(known: Known) -> Known {
    Known {
        shown: 0,
        other: 0,
        third: 0,
        is_any: false,
        is_torn: true,
        queued: 0,
        before: 0,
        deleted: 0,
        great: 0,
        ..known
    }
}

/// Behind a destroy that memory was refused for.
pub fn after_no_destroy(known: Known) -> Known {
    Known {
        other: 0,
        is_torn: true,
        ..known
    }
}

/// Behind an opening, in which a read of a block may have failed.
pub fn after_opening(known: Known, due: Due) -> Known {
    let is_torn = known.is_torn || known.queued != 0 || known.deleted != 0 || known.great != 0;
    Known {
        shown: known.stored,
        other: known.spare,
        third: known.stored,
        is_any: is_torn || due.blocks,
        is_torn,
        queued: 0,
        before: 0,
        deleted: 0,
        great: 0,
        ..known
    }
}

impl Known {
    /// Whether a get answers the text, or with 0 a miss, without a fault.
    pub fn is_shown(&self, text: u64) -> bool {
        self.shown == text
    }
}

/// Whether a get may answer the text, or with 0 a miss.
pub fn may_show(known: Known, text: u64) -> bool {
    if text == known.shown || text == known.other || text == known.third {
        return true;
    }
    known.is_any && (text == 0 || (text >= known.least && known.texts & bit_of(text) != 0))
}

/// Behind a get that answered it: the next ones do.
pub fn after_get(known: Known, text: u64) -> Known {
    Known {
        shown: text,
        other: text,
        third: text,
        is_any: false,
        ..known
    }
}
