//! The words of the whole library: calls and replies of an ordered map, entries of a history, and
//! the cells of a tree. Every other crate stands on this one. It has types and definitions, with the
//! laws over them; it replays a list of entries, and keeps what a client owes.
#![tactic(auto)]

mod call;
mod cell;
mod first_wrong;
mod laws;
mod numbers;
mod owed;
mod shape;
mod shape_laws;

pub use call::{Call, Entry, Memory, Reply};
pub use cell::{Counter, Field, Side};
pub use first_wrong::{Wrong, replay};
pub use laws::{
    a_search_tree_is_read_by_turns, a_tree_without_debts_is_balanced, ceil_and_floor_are_nearest,
    first_owed_is_owed, history_of_one_client_is_its_calls, no_debt_is_forgotten,
    no_debt_is_invented, replay_goes_in_parts, sorted_map_is_finite_map,
};
pub use numbers::Numbers;
pub use owed::{Owed, Owing, Settle};
pub use shape::{Loose, Shape};
pub use shape_laws::{loose_cells_are_linked, search_trees_are_shapes, shapes_keep_their_laws};
