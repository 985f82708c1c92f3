//! What holds of every plan.
ghost use Rattle.std.specs.Prelude.{◌≡◌, ℕ, ◌<◌};
ghost use Rattle.foyer_core_settings.specs.Sizes.{AreValid};
ghost use Rattle.foyer_core_settings.specs.declared.settings.Settings.{Settings};
ghost use Rattle.foyer_storage_plan.specs.Plans.{ArePlanned, AreSizes, HasRoom, blocks_held};
ghost use Rattle.foyer_storage_plan.specs.declared.sizes.EngineSizes.{EngineSizes};

/// `Settings::check` accepts what was planned.
pub fn planned_is_valid()
    ensures { (s : EngineSizes) (free log : ℕ) (planned : Settings) → AreSizes s → HasRoom s free log
        → ArePlanned s (blocks_held s free log) planned → AreValid planned }
{}

/// `EngineSizes::check` refuses no sizes whose planned settings `Settings::check` accepts, if there is a worker for openings and an I/O
/// engine for loads.
pub fn valid_are_sizes()
    ensures { (s : EngineSizes) (blocks : ℕ) (planned : Settings) → 0 < s.recover_concurrency
        → 0 < s.load_engines → ArePlanned s blocks planned → AreValid planned → AreSizes s }
{}

/// For given sizes and a number of blocks there is at most one plan.
pub fn plan_is_one()
    ensures { (s : EngineSizes) (blocks : ℕ) (one other : Settings) → ArePlanned s blocks one → ArePlanned s blocks other
        → one ≡ other }
{}
