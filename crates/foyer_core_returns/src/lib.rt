//! Nothing of an earlier life of a block is found again, whenever a run was stopped. And, for the layout of a core, queued pieces are
//! found.
#![tactic(auto)]

ghost use Rattle.std.specs.Prelude.{◌≡◌, ℕ, ◌+◌, ◌≤◌, Bool, true, List, length};
ghost use Rattle.foyer_core_model.specs.Record.{Record};
ghost use Rattle.foyer_core_model.specs.Position.{Position, BlockLayout};
ghost use Rattle.foyer_core_model.specs.Rules.{Rules};
ghost use Rattle.foyer_core_laws.specs.CoreRules.{rules_of, layout, IsEncoded};
ghost use Rattle.foyer_core_laws.specs.Sizes.{AreValid};
ghost use Rattle.foyer_core_laws.specs.Settings.{Settings};
ghost use Rattle.foyer_core_laws.specs.Content.{Content};
ghost use Rattle.foyer_core_store_runs.specs.StoreLaw.{QueuedAreFound};
ghost use Rattle.foyer_core_returns.specs.EndedLives.{EndedLaw, LaidEndedLaw, EndedIsGone};
ghost use Rattle.foyer_core_returns.specs.LivesReached.{four_pages, IsReachedOver};
ghost use Rattle.foyer_core_returns.specs.Returns.{ReturnsLaw, LaidReturnsLaw, NothingReturns};

use std::alloc::Allocator;

/// A run begins with an opening of any bytes, in a mode other than `None`, and is stopped at any moment. Any opening of the bytes that it
/// left finds an address only for one of two causes. The address was written since its block was last cleaned in the run. Or the run's own
/// opening kept it, and the run has neither cleaned the block nor begun to write there.
///
/// Conditions: at the run's own opening, no failed read cut the block's chain short. No clean of the block failed since the last one that
/// succeeded, or since the run began. The bytes have no stray index of the block's present life, and none that a torn clean made.
pub fn returns_law<C, A: Allocator>()
    ensures { (rules : Rules C) (splits : Position → List (Record C) → List (BlockLayout C) → Bool) (is_value : C → Bool)
        → ReturnsLaw A rules (λ f rs ss. splits f rs ss ≡ true) (λ c. is_value c ≡ true) }
{}

/// The same, if each batch is laid out as the splitter does it, over the model's own records.
pub fn laid_returns_law<C>()
    ensures { (rules : Rules C) (is_value : C → Bool) → LaidReturnsLaw rules (λ c. is_value c ≡ true) }
{}

/// The same of every run of a core, for every code and all sizes that go together.
pub fn nothing_returns()
    ensures { (is_key is_value : List ℕ → Bool) (s : Settings) (sound : AreValid s)
        → NothingReturns (rules_of is_key is_value s sound) (layout s) (IsEncoded is_key is_value) }
{}

/// In a run a reclaim of a block ends whose clean succeeded, or a destroy ends whose cleans all succeeded. Later the run is stopped at any
/// moment. Any opening of the bytes that it left finds in that block only addresses that were written after that end.
///
/// Conditions: no clean of the block failed since. The bytes have no stray index of the block's present life, and none that a torn clean
/// made.
pub fn ended_law<C, A: Allocator>()
    ensures { (rules : Rules C) (splits : Position → List (Record C) → List (BlockLayout C) → Bool) (is_value : C → Bool)
        → EndedLaw A rules (λ f rs ss. splits f rs ss ≡ true) (λ c. is_value c ≡ true) }
{}

/// The same, if each batch is laid out as the splitter does it, over the model's own records.
pub fn laid_ended_law<C>()
    ensures { (rules : Rules C) (is_value : C → Bool) → LaidEndedLaw rules (λ c. is_value c ≡ true) }
{}

/// The same of every run of a core, for every code and all sizes that go together.
pub fn ended_is_gone()
    ensures { (is_key is_value : List ℕ → Bool) (s : Settings) (sound : AreValid s)
        → EndedIsGone (rules_of is_key is_value s sound) (layout s) (IsEncoded is_key is_value) }
{}

/// The laws aren't vacuous, with two small blocks, and any key and value of these codes whose record fits a page. A run reclaims a block
/// and writes a record there, just before an index of the block's earlier life. An opening of what the run left finds that record and an
/// address of the other block. It finds nothing for the hash that the old index lists.
pub fn returns_is_reached()
    ensures sizes { (s : Settings) → AreValid (four_pages s) }
    ensures run { (is_key is_value : List ℕ → Bool) (s : Settings) (sound : AreValid (four_pages s)) (key value : List ℕ)
        → is_key key ≡ true → is_value value ≡ true → length value + length key ≤ 4060
        → IsReachedOver (rules_of is_key is_value (four_pages s) sound) (layout (four_pages s)) (IsEncoded is_key is_value) }
{}

/// Take a piece that is queued and not released. If the map has a piece of its key, that piece is no older. If not, each later look-up of
/// the key's hash that issues a read finds a greater sequence. An entry that the load then ends with was newest at the look-up.
pub fn core_queued_are_found<Q>()
    ensures { (same : Q → Q → Bool) (key_of : Content → Q) (hash_of : Q → ℕ) (is_key is_value : List ℕ → Bool) (s : Settings) (sound : AreValid s)
        → QueuedAreFound same key_of hash_of (rules_of is_key is_value s sound) (layout s) (IsEncoded is_key is_value) }
{}
