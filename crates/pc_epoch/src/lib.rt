//! The slots that a pass takes for new nodes. Its steps are those of `pc_rule` alone, so the rule of the board holds between any two of
//! them. Whoever makes nodes uses this.
#![tactic(auto)]

mod no_spare;
mod sparing;

pub use no_spare::NoSpare;
pub use sparing::spare;
