//! The rule that every step of the table keeps, and the names that tell histories apart.
ghost use Rattle.history.specs.Histories.{Legal};
ghost use Rattle.history.specs.Rules.{Kept};
ghost use Rattle.history.specs.Views.{opener};

use crate::object::Object;
use crate::view::View;
use atomic_table::TableRule;
use std::marker::{Brand, PhantomData};

/// The rule of the table, true between any two steps: some legal history has the word as its count, the keeper knows it whole, each
/// pass has seen a beginning of it after which no event of its slot came, and no two passes have one slot.
pub struct Rule<O> {
    of: PhantomData<O>,
}

impl<O: Object> TableRule<(), View<O::Call, O::Reply>, u64> for Rule<O> {
    ghost holds = { λ origin s. Kept O.rank_of (Legal (O.opens origin) O.step) s.words s.views };

    ghost first = { λ _. opener };
}

/// Which table it is. A function that is generic in it is called at `Brand`, and its caller's proof picks the table that was just opened.
pub trait Naming {
    ghost use Rattle.std.specs.Prelude.{ℕ};
    ghost use Rattle.atomic_table.specs.Seated.{TableId};

    ghost table: { TableId };

    // What the opening was told.
    ghost origin: { ℕ };
}

impl Naming for Brand {
    ghost use Rattle.std.specs.Prelude.{[]};

    ghost table = { record { words = 0; slots = 0; views_name = 0; atom = 0; block = 0; offset = 0; slot_names = [] } };

    ghost origin = { 0 };
}
