//! The splitter's layout as the model sees it: a way of laying records out, and what it keeps. A split batch is laid out so.
#![tactic(auto)]

ghost use Rattle.foyer_core_layout.specs.Laws.{KeepsAll, PlacesEach, GoesOn, BatchIsLaidOut, FitsAgree, AllWithin};

use std::alloc::Allocator;

/// After the writes of its block, over any bytes, each record is where it was placed. No later write of the same filling falls into its
/// pages.
pub fn keeps_records<C>()
    ensures { KeepsAll C }
{}

/// In blocks of at most 2^32 bytes, records that fit into a block can be placed from each position at which a batch may begin.
pub fn places_all<C>()
    ensures { PlacesEach C }
{}

/// The position at which a layout ends is one from which another layout may begin.
pub fn goes_on<C>()
    ensures { GoesOn C }
{}

/// A buffer's batch that was split is a placing of the buffer's records, block by block and part by part.
pub fn batch_is_laid_out<C, A: Allocator>()
    ensures { BatchIsLaidOut C A }
{}

/// A record fits into the buffer exactly if the model says so.
pub fn fits_agree<C>()
    ensures { FitsAgree C }
{}

/// What goes into a block lies within it.
pub fn all_within<C>()
    ensures { AllWithin C }
{}
