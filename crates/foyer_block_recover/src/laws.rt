//! What holds of every opening.
ghost use Rattle.foyer_block_recover.specs.Forgotten.{MarksForget, MarksForgetUnseen};
ghost use Rattle.foyer_block_recover.specs.Sources.{ListingsAreSources};

/// An opening with a mark gives the mark's hash no address of the mark's sequence or below.
pub fn marks_forget()
    ensures seen { MarksForget }
    ensures unseen { MarksForgetUnseen }
{}

/// Take any bytes such that each listing lists its own block of these bytes. The listings may have been added in any order. If the disk has
/// these bytes, too, `RecoverRunner::run_with` with these listings gives the opening of these bytes.
pub fn listings_are_sources()
    ensures { ListingsAreSources }
{}
