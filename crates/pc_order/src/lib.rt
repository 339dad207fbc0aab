//! The plans of ceil and floor on a search tree of either kind, plain or balanced: a walk to a key
//! that remembers the nearest pair on one side of it.
#![tactic(auto)]

mod ceil;
mod floor;
mod laws;
mod search;

pub use ceil::CeilPlan;
pub use floor::FloorPlan;
pub use laws::{plans_change_nothing, plans_stand_for_their_calls};
