//! What an opening finds of a run of a core that was stopped at any moment, for every code and all sizes that go together.
ghost use Rattle.std.specs.Prelude.{◌≡◌, ℕ, ◌+◌, ◌≤◌, Bool, true, List, length};
ghost use Rattle.foyer_core_restart.specs.Newest.{KeepsNewest};
ghost use Rattle.foyer_core_restart.specs.Restart.{FindsAgain, FindsAll};
ghost use Rattle.foyer_core_laws.specs.CoreRules.{rules_of, layout, IsEncoded};
ghost use Rattle.foyer_core_laws.specs.Reached.{smallest, IsReached};
ghost use Rattle.foyer_core_laws.specs.ReachedTorn.{two_flushers, IsReachedTorn};
ghost use Rattle.foyer_core_settings.specs.Sizes.{AreValid};
ghost use Rattle.foyer_core_settings.specs.declared.settings.Settings.{Settings};

/// A run of a core is stopped at any moment, also inside a write, and the bytes that it left are opened. Each address that the index had,
/// and whose block wasn't being written, is found again, or a newer record of its hash is found.
///
/// Conditions: the run began with nothing found. In it no write, no reclaim's read and no batch failed, and nothing was reinserted. The
/// bytes have no stray index. No read of the opening fails, it has no marks, and its mode isn't `None`.
pub fn restart()
    ensures { (is_key is_value : List ℕ → Bool) (s : Settings) (sound : AreValid s)
        → FindsAgain (rules_of is_key is_value s sound) (layout s) (IsEncoded is_key is_value) }
{}

/// With the conditions of `restart`, and if no block was being written at the stop, each address that the index had is found again.
pub fn restart_idle()
    ensures { (is_key is_value : List ℕ → Bool) (s : Settings) (sound : AreValid s)
        → FindsAll (rules_of is_key is_value s sound) (layout s) (IsEncoded is_key is_value) }
{}

/// What is found again is unchanged. Take a world opened over the bytes of a stopped run, and an address that is found again. The newest
/// event of the address's hash is the one that was newest at the stop.
pub fn restart_keeps_newest()
    ensures { (is_key is_value : List ℕ → Bool) (s : Settings) (sound : AreValid s)
        → KeepsNewest (rules_of is_key is_value s sound) (layout s) (IsEncoded is_key is_value) }
{}

/// These laws aren't vacuous. With one small block, and any key and value of these codes whose record fits a page, there is a run that goes
/// well. It leaves an address in the index, with no block being written, and the bytes that it leaves are opened.
pub fn restart_is_reached()
    ensures sizes { (s : Settings) → AreValid (smallest s) }
    ensures run { (is_key is_value : List ℕ → Bool) (s : Settings) (sound : AreValid (smallest s)) (key value : List ℕ)
        → is_key key ≡ true → is_value value ≡ true → length value + length key ≤ 4060
        → IsReached (rules_of is_key is_value (smallest s) sound) (layout (smallest s)) (IsEncoded is_key is_value) }
{}

/// These laws aren't vacuous for stops inside writes. There are two flushers, three small blocks, and any key and value of these codes
/// whose record fits a page. A run is stopped with both flushers inside writes, one of data and one of a blob's index. The core's index has
/// an address whose block neither flusher writes. What the run left is opened, and the address is found. The same stop may leave other
/// bytes, in which a newer record of the address's hash is found.
pub fn restart_is_reached_torn()
    ensures sizes { (s : Settings) → AreValid (two_flushers s) }
    ensures run { (is_key is_value : List ℕ → Bool) (s : Settings) (sound : AreValid (two_flushers s)) (key value : List ℕ)
        → length key + length value ≤ 4060 → is_value value ≡ true → is_key key ≡ true
        → IsReachedTorn (rules_of is_key is_value (two_flushers s) sound) (layout (two_flushers s)) (IsEncoded is_key is_value) }
{}
