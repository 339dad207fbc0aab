//! What a plan is: one call of a map as a machine that walks a tree. Told something, it asks something,
//! and in the end it asks for an exchange or answers. What a plan promises speaks of what it was told
//! alone, so the same plan serves cells that stand still and cells that others change.
#![tactic(auto)]

mod change;
mod descent;
mod laws;
mod plan;
mod still;
mod walk;

pub use change::{Add, Change, Fresh, To};
pub use descent::Descent;
pub use laws::{exchanges_fit, standing_is_agreeing};
pub use plan::{Ask, End, Plan, Told, Turn};
pub use still::{StillCells, tell};
pub use walk::{Above, Awaited, SENTINEL, Step, Walk, leads_back, node_of};
