//! The plans of the relaxed AVL tree: get, put and remove leave nodes out of balance, and charge their
//! keys. What has no balance in it, the get and the put, is that of `pc_bst`.
#![tactic(auto)]

mod charges;
mod get;
mod laws;
mod look;
mod put;
mod remove;
mod repair;
mod repair_change;
mod repair_from;
mod repair_key;
mod tree_kind;

pub use charges::debts;
pub use get::AvlGet;
pub use laws::{
    plans_end_as_their_calls_do, plans_stand_for_their_calls, repairs_end_by_cases,
    slots_are_for_new_keys,
};
pub use put::AvlPut;
pub use remove::AvlRemove;
pub use repair_from::AvlRepairFrom;
pub use repair_key::AvlRepair;
pub use tree_kind::TreeKind;
