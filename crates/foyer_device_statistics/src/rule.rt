//! What the table of the counters keeps, and its steps.
ghost use Rattle.std.specs.Prelude.{ℕ, ◌-◌};
ghost use Rattle.foyer_device_statistics.specs.Counted.{Counted, Adds, Loads, first_view, view, both, spent, zeros};

use crate::view::View;
use atomic_table::{Join, Play, Split, TableRule};
use std::marker::{Brand, PhantomData};

/// Each counter is the sum of what all seats recorded on it.
pub struct Counts;

impl TableRule<(), View, ()> for Counts {
    ghost holds = { λ _. Counted };

    ghost first = { λ _. first_view };
}

/// Adds to a counter.
pub struct Add;

impl Play<(), View> for Add {
    ghost then = { Adds };
}

/// Reads a counter.
pub struct Load;

impl Play<(), View> for Load {
    ghost then = { Loads };
}

/// How many parts a seat gives away.
pub trait Amount {
    ghost amount: { ℕ };
}

impl Amount for Brand {
    ghost amount = { 0 };
}

/// Gives parts away, and nothing of what was recorded and seen.
pub struct Gives<K> {
    of: PhantomData<K>,
}

impl<K: Amount> Split<View> for Gives<K> {
    ghost left = { λ v. view (v.parts - K.amount) v.recorded v.saw };

    ghost right = { λ v. view K.amount zeros zeros };
}

/// Takes in what another seat recorded and saw.
pub struct Merges;

impl Join<View> for Merges {
    ghost both = { both };

    ghost spent = { spent };
}
