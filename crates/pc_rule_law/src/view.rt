//! What a pass knows. It is a record of the specifications, and no value of the type is ever made.
use std::marker::Model;

/// What a pass knows, for the proofs alone.
pub struct PassView {
    nothing: u8,
}

impl Model for PassView {
    ghost use Rattle.pc_rule_law.specs.Seats.{spent_view};
    ghost use Rattle.pc_rule_law.specs.Views.{View};

    ghost Value = { View };

    ghost view = { λ _. spent_view };
}
