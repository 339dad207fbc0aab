//! The rule of the table, for cells of any shape. As long as no exchange is decided, no plain value changes: the cells are
//! those of the opening.
ghost use Rattle.pc_rule_law.specs.Rule.{Holds};
ghost use Rattle.pc_rule_law.specs.Tables.{size_of, first_view, sound_cells};

use crate::opening::Opening;
use crate::view::PassView;
use atomic_table::TableRule;
use pc_model::Shape;
use std::marker::PhantomData;

/// The rule of a board whose cells have this shape.
pub struct Law<H> {
    shape: PhantomData<H>,
}

impl<H: Shape> TableRule<bool, PassView, Opening> for Law<H> {
    ghost holds = { λ o. Holds (sound_cells H.form o) (size_of o) };

    ghost first = { first_view };
}
