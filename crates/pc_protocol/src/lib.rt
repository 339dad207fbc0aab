//! The protocol by which many passes make exchanges on shared words, without the words: its state, the rule that holds
//! between any two steps, what a pass may note, and the steps. It has definitions and laws alone, the laws each on a
//! function with no code, and nothing that runs.
//!
//! An exchange is published, puts a reference to itself into each of its words, draws a stamp, checks the versions that
//! it visited, and is then decided by one step, which anyone may make for it (Harris, Fraser and Pratt 2002; Brown,
//! Sigouin and Alistarh 2022). Where it takes effect it enters the run at its stamp, below whatever was decided since
//! with greater stamps.
#![tactic(auto)]

mod laws;

pub use laws::{
    cells_stay_sound, links_name_nodes_in_use, steps_keep_the_rule, steps_keep_what_is_owned,
    the_rule_holds_at_openings, what_the_rule_tells,
};
