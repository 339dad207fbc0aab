//! The plans of the internal search tree, in which a node's left tree has the smaller keys and its
//! right tree the greater ones: get, put and remove, each a walk to its key and then a read or an
//! exchange.
#![tactic(auto)]

mod get;
mod kind;
mod laws;
mod put;
mod remove;
mod tree_put;

pub use get::BstGet;
pub use kind::{NodeKind, charge_key_of};
pub use laws::{
    plans_charge_nothing, plans_end_as_their_calls_do, plans_stand_for_their_calls,
    slots_are_for_new_keys,
};
pub use put::BstPut;
pub use remove::BstRemove;
pub use tree_put::TreePut;
