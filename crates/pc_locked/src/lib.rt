//! An ordered map for callers that take turns: the cells of a tree of either kind with the history of its
//! calls and what it owes, all in one value that is right whenever no call of it runs. For callers in several threads
//! the same value stands under one lock.
#![tactic(auto)]

mod answer;
mod fault;
mod locked_map;
mod payment;
mod state;

pub use fault::LockedFault;
pub use locked_map::LockedMap;
pub use payment::{pay, settle};
pub use pc_avl::TreeKind;
pub use state::{LockedState, apply, open_state, try_apply};
