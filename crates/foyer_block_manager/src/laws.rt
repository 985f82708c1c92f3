//! What holds of pickers.
ghost use Rattle.foyer_block_manager.specs.Existence.{StandsForSome};
ghost use Rattle.foyer_block_manager.specs.Pickers.{WorstIsPicked};
ghost use Rattle.foyer_block_manager.specs.ModelPicks.{PicksMatchTheModel};

/// Pickers are consulted as the model does it, and the first pick is the same.
pub fn picks_match_the_model()
    ensures { PicksMatchTheModel }
{}

/// What is picked by invalid bytes has the most of all that are evictable, and the greatest id among equals.
pub fn worst_is_picked()
    ensures { WorstIsPicked }
{}

/// For each manager there are sets that it stands for, so contracts about all such sets aren't vacuous.
pub fn manager_stands_for_some()
    ensures { StandsForSome }
{}
