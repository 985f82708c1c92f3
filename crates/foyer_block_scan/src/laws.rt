//! What holds of every scan.
ghost use Rattle.foyer_block_scan.specs.ScanRun.{StepsGiveInTurn, RunIsListed};
ghost use Rattle.foyer_block_scan.specs.Walk.{IndexIsJudged, WalkIsListed};

/// Which bytes are an index, and with which entries, is decided by a function of them.
pub fn index_is_judged()
    ensures { IndexIsJudged }
{}

/// Whatever a block's bytes are, and whichever reads failed, it lists what a scan of it lists.
pub fn walk_is_listed()
    ensures { WalkIsListed }
{}

/// Each step of a scan gives the first of what the scan is still going to give.
pub fn steps_give_in_turn()
    ensures { StepsGiveInTurn }
{}

/// A scan that is run from a block's start to its end gives what the block lists.
pub fn run_is_listed()
    ensures { RunIsListed }
{}
