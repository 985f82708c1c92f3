//! What holds of every log.
ghost use Rattle.foyer_block_tombstone.specs.Lasting.{MarksLast};
ghost use Rattle.foyer_block_tombstone.specs.Order.{GoesOnThere, LastStandsLast, NewestStandsLast};
ghost use Rattle.foyer_block_tombstone.specs.Writes.{TouchedAreCounted};

/// What a log counts as the number of pages that marks come into is that number.
pub fn touched_are_counted()
    ensures { TouchedAreCounted }
{}

/// A mark that an append put, whose sequence isn't 0, and that no later mark overwrote, is among the marks of an opening.
pub fn marks_last()
    ensures { MarksLast }
{}

/// Whatever rising marks are appended, newer or older ones, the newest mark stands last. So a log that is opened again goes on in the slot
/// behind all its marks. An append that was refused, or one with as many older marks as the log has slots, isn't covered.
pub fn newest_stands_last()
    ensures behind { LastStandsLast }
    ensures before { NewestStandsLast }
    ensures goes_on { GoesOnThere }
{}
