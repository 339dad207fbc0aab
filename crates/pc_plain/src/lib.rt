//! Plain cells, on which one thread runs plans: the nodes of one tree in a list of words, with a stack
//! of the slots that are out of use. What a run answers and leaves is what the plan's own law says.
#![tactic(auto)]

mod laws;
mod node_store;
mod node_words;
mod owed_run;
mod plain;
mod run;
mod tree_pairs;
mod tree_shape;

pub use laws::quiet_plans_change_nothing;
pub use node_store::NoPlainSlot;
pub use owed_run::run_owed;
pub use plain::PlainCells;
pub use run::run_plan;
pub use tree_pairs::pairs;
pub use tree_shape::shape;
